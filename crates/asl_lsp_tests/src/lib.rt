//! What no clause says of the language server, tried from outside: examples of the Language Server Protocol 3.17, a session from its beginning to its end,
//! messages that come at a wrong time, questions about a document, and large documents. They stand here since the tests of a crate have it proved once more.
#![tactic(auto)]

#[cfg(test)]
mod lifecycle;
#[cfg(test)]
mod positions;
#[cfg(test)]
mod questions;
#[cfg(test)]
mod session;
#[cfg(test)]
mod sizes;

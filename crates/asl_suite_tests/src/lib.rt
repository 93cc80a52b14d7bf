//! What no clause says of suites, tried from outside: which tests a file spells and which fault it has, what is reported of a test, and the
//! text of the reports; that several workers run side by side, that none holds a lock while it waits at a gate, that each test is run once;
//! and that reports come with ample memory.
//!
//! `files` is expectation files, `reports` what is reported of tests, and `running` suites that several workers run. `suites` has suites to
//! try, `gates` what workers pass.
#![tactic(auto)]

#[cfg(test)]
mod files;
#[cfg(test)]
mod gates;
#[cfg(test)]
mod reports;
#[cfg(test)]
mod running;
#[cfg(test)]
mod suites;

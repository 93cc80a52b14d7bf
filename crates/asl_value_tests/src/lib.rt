//! What no clause says of values and of what is reckoned with them, tried from outside: worked examples, that each call succeeds with
//! ample memory, and what libraries that aren't ours read.
//!
//! `json`, `cases`, `second_reader` and `deep` try values, `outlines` where they stand in a text; `calls` and `functions` the calls of
//! intrinsic functions, `templates` what stands on them; `paths`, `time` and `history` the crate of that subject; `formats` what is written
//! for other programs, `projects` project files, `messages` what is sent between an editor and a server. They stand here since the tests of a crate have it proved once more: here only they are. What the program prints is
//! tested on the built program, beside the crates.
#![tactic(auto)]

#[cfg(test)]
mod calls;
#[cfg(test)]
mod cases;
#[cfg(test)]
mod deep;
#[cfg(test)]
mod formats;
#[cfg(test)]
mod functions;
#[cfg(test)]
mod history;
#[cfg(test)]
mod json;
#[cfg(test)]
mod messages;
#[cfg(test)]
mod outlines;
#[cfg(test)]
mod paths;
#[cfg(test)]
mod projects;
#[cfg(test)]
mod second_reader;
#[cfg(test)]
mod templates;
#[cfg(test)]
mod time;

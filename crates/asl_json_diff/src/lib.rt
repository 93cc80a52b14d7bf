//! How one JSON value differs from another, in lines that a person reads.
//!
//! Modules in reading order: `showing` writes names and values so that they stay on their line and every character shows; `changes` writes
//! a line for each part of a value that another has not, has besides or has otherwise.
#![tactic(auto)]

mod changes;
mod showing;

pub use changes::put_changes;
pub use showing::{put_name, put_short};

//! Definitions of state machines, compiled.
//!
//! Modules in reading order: `table` has the states of a whole definition; `build` makes the table, `machine` and `fault` are what
//! `parse` answers, `json` prints it, and `equal` compares two.
#![tactic(auto)]

mod build;
mod equal;
mod fault;
mod json;
mod machine;
mod table;

pub use fault::DefFault;
pub use machine::{Machine, parse, print};

//! Writes JSON values for a person: a line for each item and member.
#![tactic(auto)]

mod printing;

pub use printing::pretty;

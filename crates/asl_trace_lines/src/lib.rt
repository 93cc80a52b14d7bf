//! What happened at a state in a step, in lines that a person reads.
//!
//! Modules in reading order: `happening` is what is told of a step; `columns` writes times and columns, `handling` what became of an error,
//! `outcome` what became of the state, and `lines` the lines.
#![tactic(auto)]

mod columns;
mod handling;
mod happening;
mod lines;
mod outcome;

pub use columns::{put_padded, under};
pub use happening::Happening;
pub use lines::{put_happening, put_row, put_stopped, put_timed_out};

//! Writes JSON values, and where in a value a part of it is.
//!
//! Modules in reading order: `undo` cuts a text back to what it held, if memory runs out while something is appended to it;
//! `writing` is the printer, `within` the length of what it prints, and `pointer` writes where a part of a value is.
#![tactic(auto)]

mod pointer;
mod undo;
mod within;
mod writing;

pub use pointer::Pointer;
pub use undo::whole_or_none;
pub use within::text_within;
pub use writing::{put, put_quoted, write};

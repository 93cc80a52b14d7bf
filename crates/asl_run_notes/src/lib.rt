//! Which answers of its test case a run lacked, or the outcomes of a search: a line for each.
//!
//! Modules in reading order: `line` writes such a line, and `search` those of a search.
#![tactic(auto)]

mod line;
mod search;

pub use line::{case_name, note_of};
pub use search::notes_of_search;

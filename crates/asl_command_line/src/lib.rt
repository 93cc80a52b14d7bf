//! The command line: what is read from it, and what is answered where nothing is.
//!
//! Modules in reading order: `reading` reads the words, and `answers` is what is answered where they ask for nothing.
#![tactic(auto)]

mod answers;
mod reading;

pub use answers::Answer;
pub use reading::{Line, malformed_word, missing_outcome, read_words};

//! The arguments of the commands, and what is given for each of them in words, as clap reads these.
//!
//! Modules in reading order: `arguments` is the table of the commands and their arguments, `helps` what help tells of these; `lines` makes of a row what
//! clap reads words by, and `found` is what clap finds in them.
#![tactic(auto)]

mod arguments;
mod found;
mod helps;
mod lines;

pub use arguments::{CommandRow, commands};
pub use found::{Lists, Taken, Ungiven, given_in};
pub use lines::line_of;

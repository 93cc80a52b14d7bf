//! The graph of a definition, in the languages that programs draw: its states with their transitions, and the machines inside states as
//! boxes.
//!
//! Modules in reading order: `language` has the languages, and `format` what is printed of them; `naming` writes names so that both languages take them, `lines` the lines of a
//! graph; `edges` are the transitions that a run took; `members` reads off what members say, `conditions` writes the conditions of rules,
//! `leading` the lines of a state's transitions, and `walking` those of all states; `marking` marks states and ends, and `drawing` is the whole text.
#![tactic(auto)]

mod conditions;
mod drawing;
mod edges;
mod format;
mod language;
mod leading;
mod lines;
mod marking;
mod members;
mod naming;
mod walking;

pub use drawing::{graph, marked_graph};
pub use edges::{Edge, Way, is_taken};
pub use format::Format;
pub use marking::RunEnd;

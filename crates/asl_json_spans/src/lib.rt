//! Outlines of JSON texts: where each key and each value begins and ends, and the lines and columns of bytes. They are made only
//! where something is to be told of a text; reading it doesn't need them.
//!
//! Modules in reading order: `span` has stretches of a text, `front` what stands in front of bytes, `marking` makes the outline of a
//! text that is read already, `finding` finds the value at a place in it and `reaching` those at many places, and `position` counts lines and columns.
#![tactic(auto)]

mod finding;
mod front;
mod marking;
mod position;
mod reaching;
mod span;

pub use finding::Outline;
pub use marking::outline;
pub use position::Position;
pub use span::{Node, Span};

//! Where an offset in a document is, as the Language Server Protocol 3.17 counts it ("Text Documents", "Position"): the line, and how far in it.
//!
//! Modules in reading order: `position` is what is counted, `place` counts on byte by byte, `positions` finds the position of any offset of a document in few
//! steps, and `laws` holds what is true of every text.
//!
//! `specs/Positions.antt` says what a position is.
#![tactic(auto)]

mod laws;
mod place;
mod position;
mod positions;

pub use laws::{positions_count_lines, utf16_widths_count_code_units};
pub use position::{Encoding, Position};
pub use positions::Positions;

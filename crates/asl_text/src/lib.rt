//! Texts as they are shown at a terminal: a name that comes from a file can't move the cursor, turn the direction of what stands beside it or
//! begin a line. Numbers in them, and the tree of an execution in colours.
//!
//! Modules in reading order: `shown` writes texts, `decimal` numbers; `paint` are the colours, `parts` finds the parts of a tree's line, and
//! `colouring` writes the lines in colours.
#![tactic(auto)]

mod colouring;
mod decimal;
mod paint;
mod parts;
mod shown;

pub use colouring::{coloured, put_coloured};
pub use decimal::put_decimal;
pub use paint::Paint;
pub use shown::{is_hidden, put_shown, put_shown_char};

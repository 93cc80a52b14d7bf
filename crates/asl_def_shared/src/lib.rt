//! What states of several types have, compiled from a definition without faults.
//!
//! Modules in reading order: `target`, `catcher`, `common`, `limits` and `completion` are parts of states; `body` is a machine inside
//! a state, `heading` what only the outermost machine has, and `entries` makes members; `laws` says what `==` is. `specs/Parts.antt`
//! and `specs/Bodies.antt` say what each shows.
#![tactic(auto)]

mod body;
mod catcher;
mod common;
mod completion;
mod entries;
mod heading;
mod laws;
mod limits;
mod target;

pub use body::{Bodies, Body};
pub use catcher::{Catcher, Catchers};
pub use common::Common;
pub use completion::Completion;
pub use entries::{and, entry, joined, with, with_optional, with_path};
pub use heading::Heading;
pub use laws::equal_parts_are_one;
pub use limits::TimeLimits;
pub use target::{Target, Transition};

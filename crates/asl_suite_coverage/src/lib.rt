//! How much of a definition and of a mock file tests cover: the states that are entered, the transitions that are taken, the rules,
//! retriers and catchers that decide, and the answers that are given.
//!
//! Modules in reading order: `spot` is which part of a definition or a mock file it is that can be covered, `point` what is kept of it;
//! `texts` says what is told of it, and `listing` lists all of a definition and a mock file. `answering` finds the answer that an invocation
//! has, and `observing` goes through an execution. `marking` covers points, `reporting` tells of them, and `coverage` is the whole.
//! For other programs `siting` finds where points stand in the texts of their files, `json_object` tells of them in JSON, and `tracefile`
//! as LCOV does.
#![tactic(auto)]

mod answering;
mod coverage;
mod json_object;
mod listing;
mod marking;
mod observing;
mod point;
mod reporting;
mod siting;
mod spot;
mod texts;
mod tracefile;

pub use coverage::Coverage;
pub use json_object::json_text;
pub use point::Point;
pub use reporting::File;
pub use siting::{Sited, sites_of};
pub use spot::{Part, Spot};
pub use tracefile::lcov_text;

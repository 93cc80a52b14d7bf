//! The kinds of states: what a step of each does, one row of the state table at a time.
//!
//! Modules in reading order: `kind` is what all kinds have in common; `making`, `passing`, `raising` and `joining` have what several
//! share: data, how a state is left, what becomes of an error, and branches that have ended; then a module
//! for each kind, and `state` for a state of any kind.
#![tactic(auto)]

mod choice;
mod fail;
mod joining;
mod kind;
mod making;
mod map;
mod parallel;
mod pass;
mod passing;
mod raising;
mod state;
mod succeed;
mod task;
mod wait;

pub use joining::{first_error, outputs};
pub use kind::StateKind;
pub use map::item_input;
pub use pass::result_or;
pub use task::no_answer;

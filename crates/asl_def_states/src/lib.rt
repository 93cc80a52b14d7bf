//! States of all eight types, compiled from a definition without faults.
//!
//! Modules in reading order: each of the eight types has a module, and `processor` is what a Map runs; `state` is a state of any
//! type, `equal` compares states of two tables, `laws` says what `==` is, and `member` is what a state's own members name. What
//! several types have is in `asl_def_shared`.
#![tactic(auto)]

mod choice;
mod equal;
mod fail;
mod laws;
mod map;
mod member;
mod parallel;
mod pass;
mod processor;
mod state;
mod succeed;
mod task;
mod wait;

pub use choice::{Choice, ChoiceRule, ChoiceRules};
pub use fail::{Fail, FailText};
pub use laws::equal_states_are_one;
pub use map::Map;
pub use parallel::Parallel;
pub use pass::Pass;
pub use processor::{Processor, Selector};
pub use state::State;
pub use succeed::Succeed;
pub use task::Task;
pub use wait::{Delay, Wait};

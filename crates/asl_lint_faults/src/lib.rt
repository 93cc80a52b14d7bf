//! All faults of a definition, where `asl_def_judge` finds the first.
//!
//! Modules in reading order: `joining` has faults one behind another; `value` judges a value by itself, `walk` a definition,
//! `states` the names of its states, and `every` all of it; `laws` says what the first fault is among all. What is demanded of
//! one value or one object is asked of `asl_def_judge`.
#![tactic(auto)]

mod every;
mod joining;
mod laws;
mod states;
mod value;
mod walk;

pub use every::every_fault;
pub use laws::the_first_fault_is_the_least;

//! What a definition is refused for.
//!
//! Modules in reading order: `spot` is where a value stands; `value` judges a value by itself, `walk` a definition, `states` the
//! names of its states, and `definition` all of it. What is demanded of one value or one object is public: `asl_lint_faults`
//! asks it too.
#![tactic(auto)]

mod definition;
pub mod spot;
mod states;
pub mod value;
pub mod walk;

pub use definition::first_fault;

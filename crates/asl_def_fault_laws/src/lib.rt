//! The faults of a definition, in terms of the language.
//!
//! Nothing of this crate runs, and nothing stands on it. `laws` says of each kind of fault where a definition has it, and
//! which fault is the first.
#![tactic(auto)]

mod laws;

pub use laws::{faults_are_of_the_language, the_first_fault_is_told};

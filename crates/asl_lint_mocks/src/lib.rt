//! All faults of a mock file, where `asl_mock` finds the first, and what is suspicious in it.
//!
//! Modules in reading order: `placing` has places by numbers; `misfits` finds the values that don't fit, `keys` what is wrong with the keys of
//! answers, `names` the responses that aren't there and those that no case names, and `every` all of it; `beside` finds what doesn't fit between a
//! file and the states of a definition. `laws` has a law of gaps, and one of names.
#![tactic(auto)]

mod beside;
mod every;
mod keys;
mod laws;
mod misfits;
mod names;
mod placing;

pub use beside::{Known, NameFault, answered, is_unclear, misnamed, unclear};
pub use every::{Faults, faults_of};
pub use keys::{gaps, has_gap};
pub use laws::{a_gap_is_below_an_answer, the_same_names_are_lost};
pub use names::unused_responses;

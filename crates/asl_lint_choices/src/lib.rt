//! What the rules of a Choice state tell before any input is there.
//!
//! Nothing that is told hangs on the input or on the Context Object: a rule that asks what an earlier one asks never decides, and an And with two
//! rules that never hold both never holds.
//!
//! Modules in reading order: `condition` is what a rule asks, and `repeats` finds the rules that ask what an earlier one asks. `comparison` says
//! which comparisons of a variable no value passes both, `contradictions` finds two rules of an And that never hold both, and `ands` does so for
//! each And in a rule. `specs/` says what is told, in the same order. `laws` says that what is told is so, by what asl_choice says of rules.
#![tactic(auto)]

mod ands;
mod comparison;
mod condition;
mod contradictions;
mod laws;
mod repeats;

pub use ands::{ImpossibleAnd, impossible_ands};
pub use contradictions::{Contradiction, first_contradiction};
pub use laws::{
    contradictions_are_so, contradictory_ands_never_hold, impossible_ands_never_hold,
    repeated_rules_are_alike, repeated_rules_never_decide,
};
pub use repeats::{Repeated, repeated_rules};

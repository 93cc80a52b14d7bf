//! What in a definition is suspicious, though the language allows it.
//!
//! Modules in reading order: `warning` is a warning at its place, `trail` the steps to a value; `naming` judges texts, `handling`
//! lists of retriers, catchers and names of errors, `choosing` the rules of a Choice, `token` what a Task hands out, `resting` one state or retrier, `constant` a value that is put out as it is; `search` finds what a walk along edges reaches, `leading` where a state leads,
//! `standing` which states of a machine are reached and which reach an end, and `limit` a time limit beside them; `walk` tells all warnings of a definition, and `laws` says
//! what ways are, which handlers no error reaches, and that calls that are told fail.
#![tactic(auto)]

mod choosing;
mod constant;
mod handling;
mod laws;
mod leading;
mod limit;
mod naming;
mod resting;
mod search;
mod standing;
mod token;
mod trail;
mod walk;
mod warning;

pub use laws::{told_calls_fail, unasked_handlers_are_idle, ways_are_walked};
pub use naming::{ERRORS, PARTS};
pub use walk::every_warning;
pub use warning::{Warning, WarningKind};

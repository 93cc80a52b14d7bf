//! What each code means that a command prints, a fault, a refusal, a rule, a verdict or an error, and what to do about it, with an example.
//!
//! Modules in reading order: `saying` is what is said of a code; `definitions`, `mocks`, `json`, `expectations`, `projects`, `lines`, `refusals`, `rules`,
//! `closings`, `warnings`, `verdicts` and `errors` have the codes of a family each; `finding` lists all of them, and finds
//! the one that a word means.
#![tactic(auto)]

mod closings;
mod definitions;
mod errors;
mod expectations;
mod finding;
mod json;
mod lines;
mod mocks;
mod projects;
mod refusals;
mod rules;
mod saying;
mod verdicts;
mod warnings;

pub use finding::{families, find, list};
pub use saying::Explanation;

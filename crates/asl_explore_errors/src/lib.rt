//! What comes of an execution where invocations fail: every order of its branches, under every plan of so many errors.
//!
//! Modules in reading order: `tried` is what a search is of, and what it finds; `under` puts the errors of a plan into its case, and prints a case as a
//! mock file; `filling` gives each Task an answer, and `failing` says which errors it is failed with; `points` are plans by the Tasks of the definition,
//! `extending` says which errors may be put in beside those of a plan, `same` compares plans, `ended` prints outcomes, `trying` searches under one plan,
//! `searching` goes through all, `witness` finds how an outcome comes about, and
//! `rules` tells which rules orders end against, and `json_lines` tells all as lines of JSON.
#![tactic(auto)]

mod ended;
mod extending;
mod failing;
mod filling;
mod json_lines;
mod points;
mod rules;
mod same;
mod searching;
#[cfg(test)]
mod tests;
mod tried;
mod trying;
mod under;
mod witness;

pub use filling::filled_setup;
pub use json_lines::put_json_lines;
pub use rules::{are_kept, put_rules};
pub use searching::{explore_errors, explore_with_errors};
pub use tried::{ErrorSearch, ErrorsFound, Witnesses};
pub use under::{put_case, setup_under};
pub use witness::witness_of;

//! Workers that run the cases of a suite side by side.
//!
//! Modules in reading order: `cases` is what workers need, `claims` is how they share the work, `workers` runs the cases, and `suites` the
//! tests of a suite.
#![tactic(auto)]

mod cases;
mod claims;
mod suites;
mod workers;

pub use cases::{Cases, SuiteFault};
pub use suites::run_suite;
pub use workers::run_cases;

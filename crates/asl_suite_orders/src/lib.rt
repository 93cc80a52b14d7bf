//! Suites of which each test has to hold in every order of its branches.
//!
//! Modules in reading order: `counting` says whether Tasks are invoked as often as is wanted, `judging` what the outcomes of a search make of a test, `testing` runs one test, and `suites` all tests of a suite,
//! by several workers. `keeping` prints an outcome of a search as a test.
#![tactic(auto)]

mod counting;
mod judging;
mod keeping;
mod suites;
mod testing;

pub use keeping::kept_test;
pub use suites::run_suite_in_orders;
pub use testing::run_in_orders;

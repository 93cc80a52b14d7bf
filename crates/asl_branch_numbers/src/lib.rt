//! Branches as numbers: what a branch is doing, and where, is told by one number. So worlds are compared, and told apart, without a look at the values that their branches hold.
//!
//! Modules in reading order: `digest` makes digests, and `table` finds by them; `branches` gives numbers to branches; `numbering` finds those of a world behind a step.
#![tactic(auto)]

mod branches;
mod digest;
mod numbering;
mod table;

pub use branches::Branches;
pub use digest::Digest;
pub use table::Table;

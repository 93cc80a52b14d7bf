//! Whether two JSON values mean the same.
#![tactic(auto)]

mod sameness;

pub use sameness::same;

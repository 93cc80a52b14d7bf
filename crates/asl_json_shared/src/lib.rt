//! JSON values, lists and names with several owners.
#![tactic(auto)]

mod shared;

pub use shared::{Name, Shared, SharedItems};

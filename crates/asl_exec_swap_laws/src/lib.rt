//! Steps at places apart may change places.
#![tactic(auto)]

mod laws;

pub use laws::steps_may_change_places;

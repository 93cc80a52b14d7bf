//! The states of a definition, at any depth.
//!
//! `walking` finds them.
#![tactic(auto)]

mod walking;

pub use walking::states_in;

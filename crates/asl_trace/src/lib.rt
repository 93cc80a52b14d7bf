//! What decides in a step, and the tree of an execution: lines that a person reads, of what happened at each state.
//!
//! Modules in reading order: `deciding` says what decides in a step before it is taken. `sides` reads of a machine's state what its lines
//! tell, `stopping` finds the branches that a step stops, and `tree` writes the lines of steps as they are taken. `absent` says in words why a
//! path names nothing, `unfilled` why a payload template has no value, `why` why a step raises an error, and `failing` why an execution fails.
#![tactic(auto)]

mod absent;
mod catching;
mod deciding;
mod failing;
mod sides;
mod stopping;
mod tree;
mod unfilled;
mod why;

pub use deciding::{Decided, Deciding, Staged, decided_at};
pub use failing::why_failed;
pub use tree::{Shows, Tree, context_of};

//! What threads need whatever they do: what is told of each piece of a worker's work, and that machines and mock files may be moved to other
//! threads and shared among them (`proofs/`, which proofs above cite).
//!
//! Each type follows from its parts, since a search through all of them at once gives up. What contracts see by a value of its own takes one
//! lemma for moving and one for sharing; of another type, the type as it stands alone and as it stands inside another take one each.
#![tactic(auto)]

mod gate;

pub use gate::{Gate, NoGate};

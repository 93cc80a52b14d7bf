//! The running branches of an execution, as one tree of frames: a frame is a branch, and has the frames of the branches right under it.
//!
//! Modules in reading order: `frame` is the tree, `shared` a frame that several trees have, `offspring` the new children of a branch,
//! `resting` which children a walk may skip, `walks` finds what is read at a place, `turns` who may step first, and `changes` is what a
//! step does to the tree. `bare` copies a tree without what was told of it, `likeness` compares two, and `earliest` says when each branch
//! may step. `orders` says in which order branches are listed, and where a place leads. Contracts see the list of the branches in the order of their places.
#![tactic(auto)]

mod bare;
mod changes;
mod earliest;
mod frame;
mod likeness;
mod offspring;
mod orders;
mod resting;
mod shared;
mod turns;
mod walks;

pub use earliest::{Earliest, due_from};
pub use frame::Frame;
pub use offspring::{Offspring, make_offspring};
pub use orders::a_walk_finds_the_branch;
pub use shared::SharedFrame;
pub use turns::{Limits, Turn};
pub use walks::Standing;

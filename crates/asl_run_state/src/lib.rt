//! Worlds of executions: running branches, counts, the history and the outcome, and how what happens at a place changes them.
//!
//! Modules in reading order: `outcome` is how far an execution is, `refusal` why a step is refused; `world` is the world and what changes
//! it, `next` finds what comes next, `time_limit` is what happens when its time is over, `lines` tells of a world, and `checkpoint` and
//! `rewinding` come back to an earlier one, and `bare` is about worlds without their histories. The running branches are the tree of `asl_run_branches`.
#![tactic(auto)]

mod bare;
mod checkpoint;
mod lines;
mod next;
mod outcome;
mod refusal;
mod rewinding;
mod time_limit;
mod world;

pub use checkpoint::Checkpoint;
pub use lines::{is_success, put_end, put_reply, put_step};
pub use next::Next;
pub use outcome::Outcome;
pub use refusal::{Refusal, equal_refusals_are_one};
pub use world::World;

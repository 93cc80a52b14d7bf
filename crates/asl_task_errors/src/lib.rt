//! The errors that each Task of a definition is worth failing with: those that its own retriers and catchers, or those of a Parallel or Map
//! around it, tell apart.
//!
//! Modules in reading order: `handlers` finds the retrier or catcher that is for an error, `candidates` gathers the errors that are named,
//! `alike` keeps those that are told apart, and `walking` goes through the Tasks with the states around them.
//! `laws` has a law of what is around a Task, and one of the errors that aren't told.
#![tactic(auto)]

mod alike;
mod candidates;
mod handlers;
mod laws;
mod walking;

pub use laws::{any_error_is_handled_like_one, tasks_are_told_by_their_holders};
pub use walking::{TaskErrors, errors_of_tasks};

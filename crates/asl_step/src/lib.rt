//! Steps of branches: what a step may read, what it does, and the pieces that the rows of several kinds of states share.
//!
//! Modules in reading order: `record` says what a branch is doing; `facts` is what stays the same as an execution goes on, `visit`
//! what a step may read, `context` the Context Object, `effect` what a step does, `counts` how often something was used, and `rows` has the pieces: a state is entered, left,
//! or fails. `specs/Bounds.antt` says what holds of each effect,
//! and `laws` what `==` says.
#![tactic(auto)]

mod context;
mod counts;
mod effect;
mod facts;
mod laws;
mod record;
mod rows;
mod visit;

pub use context::Context;
pub use counts::{raise_at, zeros};
pub use effect::{Children, Draft, Drafts, Effect, Ended, Progress, Records};
pub use facts::Facts;
pub use laws::equal_records_are_one;
pub use record::{ErrorOut, Record, Uses};
pub use rows::{
    beginning, entering, error_output, failing, forking, idle, is_within_limit, leaving,
    over_limit, pausing, retrying, telling, unstarted,
};
pub use visit::Visit;

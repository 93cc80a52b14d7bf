//! What a step makes of its state's data, stage by stage, and the lines that tell it.
//!
//! Modules in reading order: `part` is what makes a stage, `stage` is a stage; `making` takes the stages that several kinds of states
//! share, `leaving` those behind an error or an output; `passing`, `choosing`, `answering`, `joining` and `mapping` are for the kinds of
//! states, and `state` for a state of any kind. `lines` writes them, and `laws` says that they end with what the state gives.
#![tactic(auto)]

mod answering;
mod choosing;
mod joining;
mod laws;
mod leaving;
mod lines;
mod making;
mod mapping;
mod part;
mod passing;
mod stage;
mod state;

pub use laws::stages_end_with_what_states_give;
pub use lines::{put_stages, put_whole};
pub use part::Part;
pub use stage::{Stage, raised_in};
pub use state::stages_of;

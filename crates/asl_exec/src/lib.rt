//! Executions: worlds that go on by steps at places, and the text of a whole run.
//!
//! Modules in reading order: `execution` is what an execution has, `stepping` opens and steps one, `driving` takes the steps
//! that come next, `rewinding` comes back to an earlier world, `probe` tries steps in any, `swapping` says which steps may change places, and `obstacle` why
//! others may not; `lacking` finds the answer that a failed one lacked; `printing` prints a run, `emulation` is a whole run, from texts to text, and `laws` says that texts have one, and that steps only append events.
#![tactic(auto)]

mod driving;
mod emulation;
mod execution;
mod lacking;
mod laws;
mod obstacle;
mod printing;
mod probe;
mod rewinding;
mod stepping;
mod swapping;

pub use driving::{Ended, most_steps};
pub use emulation::{Emulated, emulate, emulate_driven, emulate_texts};
pub use execution::Execution;
pub use lacking::{Invocation, unanswered};
pub use laws::{steps_only_append_events, texts_have_one_run};
pub use obstacle::{Obstacle, put_obstacle};
pub use probe::Probe;
pub use stepping::{deadline_of, facts_of, invokes_in, state_of};

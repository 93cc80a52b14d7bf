//! Runs, and what they print in other formats than the usual text: their histories for other programs, and the steps that they took.
//!
//! Modules in reading order: `driving` takes steps and tells which they were, and `treeing` tells of them; `invoking` is what a definition says of its Tasks; `format` is how a run is printed,
//! `emulation` is a whole run, from texts to text, and `failing` says why one fails; `entering` names the states that a run entered, `ending` is how it
//! ended, `passing` finds the transitions that it
//! took, and `graphing` writes the graph in which they are marked; `laws` says that the steps of a run lead where it led.
#![tactic(auto)]

mod driving;
mod emulation;
mod ending;
mod entering;
mod failing;
mod format;
mod graphing;
mod invoking;
mod laws;
mod passing;
mod treeing;

pub use driving::take_by;
pub use emulation::{emulate_as, printed_steps};
pub use failing::{why_in, why_of};
pub use format::Format;
pub use graphing::emulate_marked;
pub use laws::taken_steps_lead_to_the_same_world;

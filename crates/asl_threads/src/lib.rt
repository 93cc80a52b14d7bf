//! Runs that threads share: sessions behind one lock.
//!
//! Modules in reading order: `seat` is what a thread keeps of its own commands, `row` and `shared` are what lies behind a run's lock;
//! `lock` is what a run lies in, `run` opens a run, and `closing` closes it, which `agreeing` judges. `clock` is what
//! workers ask on their way, `serving` starts them, and `driving` lets them step a run. `laws` says when a run is one list of steps,
//! that events stay, what equal replies are, and what may cross threads.
#![tactic(auto)]

mod agreeing;
mod clock;
mod closing;
mod driving;
mod laws;
mod lock;
mod row;
mod run;
mod seat;
mod serving;
mod shared;

pub use clock::Clock;
pub use closing::{Cause, CloseFault, RunRecord};
pub use driving::drive_shared;
pub use laws::{
    commands_and_replies_are_compared_as_data, runs_and_seats_cross_threads,
    steps_of_all_threads_are_one_list, steps_only_add_events,
};
pub use lock::Lock;
pub use row::Row;
pub use run::{Run, SharedRun};
pub use seat::{Entry, Seat};
pub use shared::{ApplyFault, Shared};

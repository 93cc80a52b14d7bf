//! The history of an execution: places of branches, events, their printed lines, and sinks that lines are written to
//! (Step Functions Developer Guide, HistoryEvent; line formats are this project's own).
//!
//! Modules in reading order: `place`, with `number` for reading one; `kind`
//! and `event`; `history`; `printing` for lines; `sink`, `fault` and `send`, which writes a history to a sink.
#![tactic(auto)]

mod event;
mod fault;
mod history;
mod kind;
mod number;
mod place;
mod printing;
mod send;
mod sink;

pub use event::Event;
pub use fault::WriteFault;
pub use history::History;
pub use kind::EventKind;
pub use place::Place;
pub use printing::{line, put_line};
pub use send::write_all;
pub use sink::{Memory, Sink, SinkFault};

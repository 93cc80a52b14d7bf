//! What a command-line program has of its host: the words that it was started with, files, and the streams that it writes.
//!
//! Modules in reading order: `started` has the words; `files` is what files give, `naming` the names that stand in them, `input` what is typed; `outputs` writes files, and `written` says
//! which; `streams` the streams that are written, of which `taken` says what they took; `telling` writes texts to them, and the line that tells a fault.
#![tactic(auto)]

mod files;
mod input;
mod naming;
mod outputs;
mod started;
mod streams;
mod taken;
mod telling;
mod written;

pub use files::{Files, HostFiles, MOST_BYTES, ReadFault, Unreadable, read_whole};
pub use input::{Input, Typed};
pub use naming::beside;
pub use outputs::{HostOutputs, Outputs, Unwritable};
pub use started::{GivenFault, given};
pub use streams::Stream;
pub use telling::{tell_fault, write_fault, write_piece};

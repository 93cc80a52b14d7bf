//! Sessions of the debugger: an execution that is stepped by commands, with breakpoints, and that goes back.
//!
//! Modules in reading order: `command` and `reply` are what a session is told and answers; `timeline` is an execution that keeps its
//! steps and goes back, `names` and `places` are breakpoints and the places that were released; `session` carries out commands, and
//! `advancing` takes several steps; `laws` says what breakpoints and a later start leave as it is. `script_file` reads lines and
//! scripts, `showing` and `answers` print replies, and `script` runs a session by a script.
#![tactic(auto)]

mod advancing;
mod answers;
mod command;
mod laws;
mod names;
mod places;
mod reply;
mod script;
mod script_file;
mod session;
mod showing;
mod timeline;

pub use advancing::Stop;
pub use answers::put_answer;
pub use command::Command;
pub use laws::{
    breakpoints_leave_no_trace, replies_that_take_memory_change_nothing, the_start_may_come_later,
};
pub use reply::Reply;
pub use script::run_script;
pub use script_file::{
    ScriptFault, files_spell_one_script, read_command, read_count, read_place, read_script,
};
pub use session::Session;

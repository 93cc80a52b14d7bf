//! The debugger at a terminal: lines that are typed, and what is answered to each.
//!
//! Modules in reading order: `word` are the words that a line may begin with, `timed` the moments and steps that it may name; `request` is
//! what a line asks for, and `reading` reads it, with `naming` where a state is named; `dated` says when a step is taken, `failing` what
//! fails in it; `onward` is the step that comes next, `going` takes such steps; `views` show a session's branches, data, events and steps;
//! `console` answers lines, and `telling` tells what happened at each state in their steps; `laws` say what lines of scripts come to.
#![tactic(auto)]

mod console;
mod dated;
mod failing;
mod going;
mod laws;
mod naming;
mod onward;
mod reading;
mod request;
mod telling;
mod timed;
mod views;
mod word;

pub use console::{Answer, Console};
pub use laws::lines_of_scripts_may_be_typed;
pub use naming::Naming;
pub use onward::Onward;
pub use request::Request;
pub use telling::{Look, Teller};
pub use timed::{Timed, When};
pub use word::Word;

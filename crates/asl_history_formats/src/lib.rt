//! The history of an execution in formats that other programs read.
//!
//! Modules in reading order: `pieces` has what both formats write; `json_lines` is a JSON object a line; `tasks` is what a definition says of its Tasks, `resources` says what the resource of one
//! names, `details` which details of an event the service tells, and `aws` writes a history in the shape of its answer.
#![tactic(auto)]

mod aws;
mod details;
mod json_lines;
mod pieces;
mod resources;
mod tasks;

pub use aws::aws_json;
pub use json_lines::lines_of_json;
pub use tasks::{Limits, Tasks};

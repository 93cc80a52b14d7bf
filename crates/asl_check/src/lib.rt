//! Accepting the texts of definitions (Amazon States Language, <https://states-language.net/spec.html>).
//!
//! `specs/Judged.antt` says which texts are definitions, of which machine, and which fault is answered for any other; the demands
//! on a definition are `asl_def_schema`'s, and the machine is `asl_def`'s. `fault` is a fault and its line, `judging` the judge, and
//! `laws` says what accepting and printing have in common.
#![tactic(auto)]

mod fault;
mod judging;
mod laws;

pub use fault::Fault;
pub use judging::accept;
pub use laws::{print_of, what_is_printed_is_accepted, what_is_printed_of_a_value_is_accepted};

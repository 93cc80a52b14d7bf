//! A mock file to begin with: each Task of a definition gets an answer, in one test case in which all goes well.
//!
//! Modules in reading order: `texts` looks at the beginnings and ends of texts, `merging` makes one value of the shape of two, `paths` the least value in
//! which a path names a part, `beside` what is wanted beside it; `templates` and `rules` say what templates and the rules of a Choice want of their input, and `wants` what states want of
//! their inputs and results. `call` is a Task that invokes a service, `answers` what services answer; `tasks` finds the Tasks of a definition, and
//! `printing` writes the file.
#![tactic(auto)]

mod answers;
mod beside;
mod call;
mod merging;
mod paths;
mod printing;
mod rules;
mod tasks;
mod templates;
mod texts;
mod wants;

pub use printing::sample;

//! The intrinsic functions of the Amazon States Language ("Intrinsic Functions", <https://states-language.net/spec.html>): their
//! names, and their values.
//!
//! `specs/Names.antt` says which functions there are; `specs/Lists.antt`, `Format`, `Texts`, `Coding` and `Merge` have the functions,
//! one definition each, and `specs/Apply.antt` which is which.
//! Modules in reading order: `function` and `fault` are the names and what can be wrong; `value` is what a function takes, `applying`
//! gives its value; `convert` takes arguments as what a function wants, `letter` the letters of a text, and the others are the
//! functions.
#![tactic(auto)]

mod applying;
mod coding;
mod convert;
mod fault;
mod format;
mod function;
mod kept;
mod letter;
mod lists;
mod mark;
mod merge;
mod range;
mod split;
mod texts;
mod value;

pub use applying::{apply, string_to_json_gives_what_a_text_spells};
pub use fault::{EvalFault, Reason};
pub use function::Function;
pub use letter::meaning;
pub use value::Value;

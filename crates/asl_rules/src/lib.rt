//! Rules over runs that have ended: formulas over what was invoked, what came of it by the mocked answers, and how a run ended.
//!
//! Modules in reading order: `atom` is what a formula says by itself, `formula` how it is made of that, and `rule` what is to be
//! so of each run. `answers` is what the invocations of a
//! Task came to, and `truth` when a rule holds. `fault` says why a text isn't read; `words`, `front` and `name` read what stands
//! in front of a text, `atoms` an atom, `open` is what stands
//! open, `reading` reads a formula, and `read` a rule. `laws` holds that a text is read as what it spells.
//!
//! `specs/Truth.antt` says when a rule holds, `specs/Answers.antt` what invocations came to, `specs/Tree.antt` how a formula is
//! made, `specs/Grammar.antt` which texts spell it,
//! `specs/Reading.antt` as which rule a text is read, and
//! `specs/FaultText.antt` what is told of a fault.
#![tactic(auto)]

mod answers;
mod atom;
mod atoms;
mod fault;
mod formula;
mod front;
mod laws;
mod name;
mod open;
mod read;
mod reading;
mod rule;
#[cfg(test)]
mod tests;
mod truth;
mod words;

pub use atom::{Atom, Status, Task};
pub use fault::RuleFault;
pub use formula::{AllOf, AnyOf, Formula, Operand};
pub use laws::{
    a_formula_is_read_as_it_is_spelled, a_pair_is_read_as_it_is_spelled, faults_are_told_so,
    operators_bind_so,
};
pub use rule::Rule;

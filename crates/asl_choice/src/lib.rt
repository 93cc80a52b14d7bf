//! The rules of Choice states, compiled from a definition without faults.
//!
//! Modules in reading order: `operator` has the comparisons by name, `comparison` is one with its operand, `rule` a rule; `equal`
//! compares rules, `laws` says what `==` is, and `copies` copies them.
//! `pattern` matches texts against the patterns of `StringMatches`; `lookup`, `judging` and `truth` say whether a rule holds.
//! `specs/Rules.antt` says what each rule shows, `specs/Patterns.antt` what a pattern says, and `specs/Truth.antt` which rules
//! hold.
#![tactic(auto)]

mod comparison;
mod copies;
mod equal;
mod fault;
mod judging;
mod laws;
mod lookup;
mod operator;
mod pattern;
mod rule;
mod truth;

pub use fault::RuleFault;
pub use laws::equal_rules_are_one;
pub use pattern::matches;
pub use rule::Rule;

//! What is wrong with a value of a definition, or suspicious, in one sentence on that value, and what may be meant.
//!
//! Modules in reading order: `quoting` writes names into sentences, `near` looks for names that are alike; `standing` is what stands at the place
//! of a fault, `object` what is looked up once in an object, `states` has the states of a definition by their names, and `nouns` what things are called; `words` says of each fault what is
//! wrong, with `groups`, `types`, `ranges` and `texts` for some of them, and `suspicions` of each warning what is suspicious, with `calls` for calls that fail.
#![tactic(auto)]

mod calls;
mod groups;
mod near;
mod nouns;
mod object;
mod quoting;
mod ranges;
mod standing;
mod states;
mod suspicions;
mod texts;
mod types;
mod words;

pub use near::{EFFORT, Search, put_near};
pub use nouns::kind_word;
pub use quoting::{put_name, put_separator};
pub use standing::{Places, Standing};
pub use states::{State, States};
pub use suspicions::put_warning;
pub use words::put_fault;

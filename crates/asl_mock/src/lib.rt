//! Mock files: what tasks answer in the cases of a test. (AWS Step Functions, "Mocked service integrations", the file
//! MockConfigFile.json.)
//!
//! Modules in reading order: `fault` is why a file is refused, `key` the numbers that an answer is for, `shape` what a file is
//! made of, and `place` where a fault is. `form` finds the first value that doesn't fit, and `bad_key` the first bad key. `table`
//! finds values by their names, `response` is an answer, `ranges` the answers in the order of their numbers, `responses` and
//! `case` what is built of them, `merging` cases made of others, and `mocks` the whole file. `choosing` is which test case a word chooses: that of a machine, as
//! `Machine#Case`, or that of the only machine of a file, as `Case`.
//!
//! `specs/Form.antt` says which values fit, `specs/Key.antt` what a key stands for, `specs/Faults.antt` which fault is answered,
//! `specs/Answers.antt` what a file spells and which answer is given, and `specs/Equal.antt` which cases are equal.
#![tactic(auto)]

mod bad_key;
mod case;
mod choosing;
mod fault;
mod form;
mod key;
mod merging;
mod mocks;
mod place;
mod ranges;
mod response;
mod responses;
mod shape;
mod table;

pub use case::{Case, answer, last_alike};
pub use choosing::chosen;
pub use fault::{CaseFault, MockFault};
pub use key::{Span, span_in};
pub use mocks::Mocks;
pub use response::{Answer, Ranged};
pub use responses::Response;
pub use shape::Shape;

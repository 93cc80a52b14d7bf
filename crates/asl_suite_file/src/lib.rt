//! Expectations: the tests of a suite, and how the execution of each is to end.
//!
//! Modules in reading order: `fault` is why a file is refused, `expectation` what a test is, and what it is while the file with its input isn't read. `form` finds the first value that
//! doesn't fit, `stepping` reads the steps of a test, `spelled` makes the tests that a file spells, and `expectations` reads the whole file. `holding` says
//! whether an output is like the one that is wanted, and `difference` where it differs.
//!
//! `specs/Steps.antt` says which step a line spells, `specs/Form.antt` which values fit, `specs/Spelled.antt` which tests a file spells, `specs/Told.antt` which fault is
//! answered, `specs/Holding.antt` whether a value is like another one, and `specs/Differences.antt` where two values differ first.
#![tactic(auto)]

mod difference;
mod expectation;
mod expectations;
mod fault;
mod form;
mod holding;
mod sharding;
mod spelled;
mod stepping;

pub use difference::{Difference, first_difference, list_difference};
pub use expectation::{
    CallsByState, CountsByState, Draft, Expectation, InputSource, StateCalls, StateCount, Steps,
    Wanted, WantedEnd, WantedStates, WantedText,
};
pub use expectations::{Drafts, Expectations};
pub use fault::ExpectFault;
pub use holding::{Likeness, is_like};
pub use stepping::lines_spell_their_steps;

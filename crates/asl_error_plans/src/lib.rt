//! Errors that are put in before the answers of a test case.
//!
//! Modules in reading order: `injected` is an error that is put in, `spans` moves the numbers of answers, `putting` puts an error into a response, and
//! `under` gives the case with all errors of a plan put in; `printing` prints a case as a mock file. `outcomes` is what comes of a plan, `grouping` finds
//! the outcomes of many, each once, and where each is given first, and `telling` prints what comes of them.
#![tactic(auto)]

mod grouping;
mod injected;
mod outcomes;
mod printing;
mod putting;
mod spans;
mod telling;
mod under;

pub use grouping::place_of;
pub use injected::InjectedError;
pub use outcomes::PlanOutcomes;
pub use printing::put_mock_file;
pub use putting::with_error;
pub use telling::{are_cut, are_good, put_plan_if, put_plan_number, put_plans};
pub use under::case_under;

// Why a test isn't passed.
use asl_exec::Invocation;
use asl_json::Txt;
use asl_mock::CaseFault;
use asl_run_state::Outcome;
use asl_suite_file::{Difference, StateCount, Wanted, WantedText};

/// Why a test isn't passed: the first of these that applies.
pub enum Reason {
    /// The mock file has no such case.
    NoCase(CaseFault),
    /// The execution isn't over after 10,000 steps, or its history is full.
    Limit,
    /// It ended otherwise than expected.
    Status {
        /// How it was to end.
        wanted: Wanted,
        /// How it ended.
        outcome: Outcome,
        /// Where it failed since a service was invoked that the case doesn't answer: this invocation.
        unanswered: Option<Invocation>,
    },
    /// It has another output, or none: the first difference.
    Output(Difference),
    /// Its output doesn't hold what it is to hold, or there is none: the first difference.
    Match(Difference),
    /// It ended in an error of another name, or in none.
    Error {
        /// The name that was wanted.
        wanted: WantedText,
        /// How it ended.
        outcome: Outcome,
    },
    /// That error has another cause, or there is none.
    Cause {
        /// The cause that was wanted.
        wanted: WantedText,
        /// How it ended.
        outcome: Outcome,
    },
    /// A state was entered more or less often: the first one.
    Visits {
        /// How often it was to be entered.
        wanted: StateCount,
        /// How often it was.
        entered: u64,
    },
    /// A Task invoked its service more or less often: the first one.
    Invocations {
        /// How often it was to invoke it.
        wanted: StateCount,
        /// How often it did.
        invoked: u64,
    },
    /// A Task invoked its service with other inputs: the first one, and where their list differs first from the one that is wanted.
    Calls {
        /// The name of the Task.
        state: Txt,
        /// Where the inputs differ first.
        difference: Difference,
    },
    /// All is as expected.
    Passed,
}

impl Drop for Reason {
    fn drop(self) {
        match self {
            Reason::NoCase(_) | Reason::Limit | Reason::Passed => {}
            Reason::Status {
                wanted: _wanted,
                outcome: _outcome,
                unanswered: _unanswered,
            } => {}
            Reason::Output(_difference) | Reason::Match(_difference) => {}
            Reason::Error {
                wanted: _wanted,
                outcome: _outcome,
            }
            | Reason::Cause {
                wanted: _wanted,
                outcome: _outcome,
            } => {}
            Reason::Visits {
                wanted: _wanted,
                entered: _entered,
            } => {}
            Reason::Invocations {
                wanted: _wanted,
                invoked: _invoked,
            } => {}
            Reason::Calls {
                state: _state,
                difference: _difference,
            } => {}
        }
    }
}

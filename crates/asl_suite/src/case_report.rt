// What is reported of a test.
use asl_exec::Invocation;
use asl_json::Txt;
use asl_run_input::StepAt;

/// What comes of a test: the first of these that applies.
#[derive(Clone, Copy, Debug, PartialEq, Eq)]
pub enum Verdict {
    /// The mock file has no such case.
    NoCase,
    /// The execution isn't over after 10,000 steps, or its history is full; or it isn't over after the steps that the test has.
    Limit,
    /// It ended otherwise than expected.
    Status,
    /// It has another output, or none.
    Output,
    /// Its output doesn't hold what it is to hold, or there is none.
    Match,
    /// It ended in an error of another name, or in none.
    Error,
    /// That error has another cause, or there is none.
    Cause,
    /// A state was entered more or less often.
    Visits,
    /// A Task invoked its service more or less often.
    Invocations,
    /// A Task invoked its service with other inputs.
    Calls,
    /// An order of its branches never ends.
    Endless,
    /// The search of their orders was cut.
    Cut,
    /// Its run failed since its case has no answer, where that counts.
    Unanswered,
    /// It failed by accident, where that counts.
    Accident,
    /// All is as expected.
    Passed,
}

/// How the execution of a test ended.
#[derive(Clone, Copy, Debug, PartialEq, Eq)]
pub enum Status {
    /// There was none.
    None,
    /// It isn't over.
    Unfinished,
    /// `SUCCEEDED`.
    Succeeded,
    /// `FAILED`.
    Failed,
    /// `TIMED_OUT`.
    TimedOut,
}

/// Why a test that is `ok` may not mean what it says.
pub enum Doubt {
    /// Nothing speaks for it.
    None,
    /// Its run failed since its case has no answer to this invocation.
    Unanswered(Invocation),
    /// It names no error, and failed in one that no state machine means to end in: of this name.
    Accident(Txt),
}

// Written out, so that a caller's proof sees one call and not the drop of each part.
impl Drop for Doubt {
    fn drop(self) {
        match self {
            Doubt::None => {}
            Doubt::Unanswered(_invocation) => {}
            Doubt::Accident(_name) => {}
        }
    }
}

/// An outcome of a search that isn't as expected.
pub struct Unmet {
    /// Its number in the search, from 1.
    pub number: usize,
    /// Steps that end in it.
    pub steps: Vec<StepAt>,
}

impl Drop for Unmet {
    fn drop(self) {
        let Unmet {
            number: _number,
            steps: _steps,
        } = self;
    }
}

/// What a search of the orders of a test's branches found.
pub struct Search {
    /// Whether only orders were tried in which no branch is late.
    pub prompt: bool,
    /// Whether it was counted how often Tasks are invoked.
    pub calls: bool,
    /// So many worlds were met.
    pub worlds: usize,
    /// So many outcomes were found.
    pub outcomes: usize,
    /// The first one that isn't as expected by these steps; none where other orders that end alike are why.
    pub unmet: Option<Unmet>,
}

impl Drop for Search {
    fn drop(self) {
        let Search {
            prompt: _prompt,
            calls: _calls,
            worlds: _worlds,
            outcomes: _outcomes,
            unmet: _unmet,
        } = self;
    }
}

/// What is reported of a test.
pub struct CaseReport {
    /// What comes of it.
    pub verdict: Verdict,
    /// The machine's name.
    pub machine: Txt,
    /// The case's name.
    pub case: Txt,
    /// What the test is called, if it has a name.
    pub name: Option<Txt>,
    /// How the execution ended.
    pub status: Status,
    /// How many events it told.
    pub events: u64,
    /// Where it is `ok`, why that may not mean what it says.
    pub doubt: Doubt,
    /// What was found where every order of its branches was tried.
    pub search: Option<Search>,
}

impl Drop for CaseReport {
    fn drop(self) {
        let CaseReport {
            verdict: _verdict,
            machine: _machine,
            case: _case,
            name: _name,
            status: _status,
            events: _events,
            doubt: _doubt,
            search: _search,
        } = self;
    }
}

// What a test of a suite is.
ghost use Rattle.std.specs.Prelude.{◌≡◌, IfOk};
ghost use Rattle.asl_suite_file.specs.Drafts.{test_on};

use asl_json::{Items, Json, Txt};
use asl_json_shared::Shared;
use asl_run_input::StepAt;
use std::alloc::{AllocError, Global};
use std::marker::Model;

/// How an execution is to end, in a word.
#[derive(Clone, Copy, Debug, PartialEq, Eq)]
pub enum Wanted {
    /// `SUCCEEDED`.
    Succeeded,
    /// `FAILED`.
    Failed,
    /// `TIMED_OUT`.
    TimedOut,
}

/// What a text of the error output is to be.
pub enum WantedText {
    /// Whatever it is.
    Any,
    /// There is to be none.
    Absent,
    /// This text.
    Text(Txt),
}

// Written out, so that a caller's proof sees one call and not the drop of each part.
impl Drop for WantedText {
    fn drop(self) {
        match self {
            WantedText::Any | WantedText::Absent => {}
            WantedText::Text(_text) => {}
        }
    }
}

impl WantedText {
    /// An equal one. The error is that memory ran out.
    pub fn try_clone(&self, alloc: Global) -> Result<WantedText, AllocError>
        ensures { IfOk result (λ w. w ≡ self.now) }
    {
        match self {
            WantedText::Any => Ok(WantedText::Any),
            WantedText::Absent => Ok(WantedText::Absent),
            WantedText::Text(text) => Ok(WantedText::Text(text.try_clone(alloc)?)),
        }
    }
}

/// How often something is to happen to a state.
pub struct StateCount {
    /// The state's name.
    pub state: Txt,
    /// How often.
    pub count: u64,
}

impl Drop for StateCount {
    fn drop(self) {
        let StateCount {
            state: _state,
            count: _count,
        } = self;
    }
}

/// How often something is to happen to states. Contracts see the list.
pub struct CountsByState {
    counts: Vec<StateCount>,
}

impl Drop for CountsByState {
    fn drop(self) {
        let CountsByState { counts: _counts } = self;
    }
}

impl Model for CountsByState {
    ghost use Rattle.std.specs.Prelude.{List};
    ghost use Rattle.asl_suite_file.specs.declared.expectation.StateCount.{StateCount};

    ghost Value = { List StateCount };

    ghost view = { λ a. a.counts.items };
}

impl CountsByState {
    /// These.
    pub fn of_counts(counts: Vec<StateCount>) -> CountsByState
        ensures { result ≡ counts.items }
    {
        CountsByState { counts }
    }

    /// Each, in order.
    pub fn counts(&self) -> &[StateCount]
        ensures { result.now ≡ self.now }
    {
        &self.counts
    }
}

/// What a Task is to invoke its service with.
pub struct StateCalls {
    /// The name of the Task.
    pub state: Txt,
    /// The input of each invocation, in order.
    pub inputs: Items,
}

impl Drop for StateCalls {
    fn drop(self) {
        let StateCalls {
            state: _state,
            inputs: _inputs,
        } = self;
    }
}

/// What Tasks are to invoke their services with. Contracts see the list.
pub struct CallsByState {
    calls: Vec<StateCalls>,
}

impl Drop for CallsByState {
    fn drop(self) {
        let CallsByState { calls: _calls } = self;
    }
}

impl Model for CallsByState {
    ghost use Rattle.std.specs.Prelude.{List};
    ghost use Rattle.asl_suite_file.specs.declared.expectation.StateCalls.{StateCalls};

    ghost Value = { List StateCalls };

    ghost use Rattle.std.specs.Coded.{coded_list};
    ghost use Rattle.asl_suite_file.specs.contracts.expectation.StateCalls as calls_row;

    ghost coded = { coded_list calls_row.the_row.coded };

    ghost view = { λ a. a.calls.items };
}

impl CallsByState {
    /// These.
    pub fn of_calls(calls: Vec<StateCalls>) -> CallsByState
        ensures { result ≡ calls.items }
    {
        CallsByState { calls }
    }

    /// Each, in order.
    pub fn calls(&self) -> &[StateCalls]
        ensures { result.now ≡ self.now }
    {
        &self.calls
    }
}

/// How an execution is to end.
pub struct WantedEnd {
    /// Whether it is to succeed.
    pub status: Wanted,
    /// What its output is to mean, if that is asked.
    pub output: Option<Json>,
    /// What its output is to hold, if that is asked.
    pub part: Option<Json>,
    /// The name of the error that it is to end in.
    pub error: WantedText,
    /// The cause of that error.
    pub cause: WantedText,
}

impl Drop for WantedEnd {
    fn drop(self) {
        let WantedEnd {
            status: _status,
            output: _output,
            part: _part,
            error: _error,
            cause: _cause,
        } = self;
    }
}

/// What the states of an execution are to do.
pub struct WantedStates {
    /// How often states are to be entered.
    pub visits: CountsByState,
    /// How often Tasks are to invoke their services.
    pub invocations: CountsByState,
    /// What Tasks are to invoke their services with.
    pub calls: CallsByState,
}

impl Drop for WantedStates {
    fn drop(self) {
        let WantedStates {
            visits: _visits,
            invocations: _invocations,
            calls: _calls,
        } = self;
    }
}

/// The steps that an execution takes. Contracts see the list.
pub struct Steps {
    steps: Vec<StepAt>,
}

impl Drop for Steps {
    fn drop(self) {
        let Steps { steps: _steps } = self;
    }
}

impl Model for Steps {
    ghost use Rattle.std.specs.Prelude.{List};
    ghost use Rattle.asl_run_input.specs.declared.step_at.StepAt.{StepAt};

    ghost Value = { List StepAt };

    ghost use Rattle.std.specs.Coded.{coded_list};
    ghost use Rattle.asl_run_input.specs.contracts.step_at.StepAt as step_row;

    ghost coded = { coded_list step_row.the_row.coded };

    ghost view = { λ a. a.steps.items };
}

impl Steps {
    /// These.
    pub fn of_steps(steps: Vec<StepAt>) -> Steps
        ensures { result ≡ steps.items }
    {
        Steps { steps }
    }

    /// Each, in order.
    pub fn steps(&self) -> &[StepAt]
        ensures { result.now ≡ self.now }
    {
        &self.steps
    }
}

/// Where the input of a test stands.
pub enum InputSource {
    /// In the test: this value.
    Here(Shared),
    /// In the file of this name, which goes from the folder of the test's file: its value.
    File(Txt),
}

impl Drop for InputSource {
    fn drop(self) {
        match self {
            InputSource::Here(_input) => {}
            InputSource::File(_name) => {}
        }
    }
}

/// A test as it is spelled: its input may stand in a file that isn't read yet.
pub struct Draft {
    /// The machine's name in the mock file.
    pub machine: Txt,
    /// The case's name. Where it is empty, nothing is looked up, and no task has an answer.
    pub case: Txt,
    /// What the test is called, if it has a name.
    pub name: Option<Txt>,
    /// Where the execution's input stands.
    pub input: InputSource,
    /// The steps that it takes; without them, those that come next are taken.
    pub steps: Option<Steps>,
    /// How the execution is to end.
    pub end: WantedEnd,
    /// What its states are to do.
    pub states: WantedStates,
}

impl Drop for Draft {
    fn drop(self) {
        let Draft {
            machine: _machine,
            case: _case,
            name: _name,
            input: _input,
            steps: _steps,
            end: _end,
            states: _states,
        } = self;
    }
}

impl Draft {
    /// The test on this input.
    pub fn with_input(self, input: Shared) -> Expectation
        ensures { result ≡ test_on self input }
    {
        let Draft {
            machine,
            case,
            name,
            input: _source,
            steps,
            end,
            states,
        } = self;
        Expectation {
            machine,
            case,
            name,
            input,
            steps,
            end,
            states,
        }
    }
}

/// A test: which case of which machine is run on which input, and how its execution is to end.
pub struct Expectation {
    /// The machine's name in the mock file.
    pub machine: Txt,
    /// The case's name. Where it is empty, nothing is looked up, and no task has an answer.
    pub case: Txt,
    /// What the test is called, if it has a name.
    pub name: Option<Txt>,
    /// The execution's input.
    pub input: Shared,
    /// The steps that it takes; without them, those that come next are taken.
    pub steps: Option<Steps>,
    /// How the execution is to end.
    pub end: WantedEnd,
    /// What its states are to do.
    pub states: WantedStates,
}

impl Drop for Expectation {
    fn drop(self) {
        let Expectation {
            machine: _machine,
            case: _case,
            name: _name,
            input: _input,
            steps: _steps,
            end: _end,
            states: _states,
        } = self;
    }
}

// Which details of an event the service tells.
ghost use Rattle.std.specs.Prelude.{◌≡◌};
ghost use Rattle.asl_history_formats.specs.Details.{form_of, details_name};

use asl_history::EventKind;

/// What details of an event are.
#[derive(Clone, Copy, Debug, PartialEq, Eq)]
pub(crate) enum Form {
    /// There are none.
    Nothing,
    /// The input of the execution.
    Input,
    /// The output of the execution.
    Output,
    /// The name of a state, and its input.
    StateInput,
    /// The name of a state, and its output.
    StateOutput,
    /// The resource of a Task, and what it is called with.
    Parameters,
    /// The resource of a Task.
    Resource,
    /// The resource of a Task, and its output.
    TaskOutput,
    /// The resource of a Task, an error, and its cause.
    TaskError,
    /// An error, and its cause.
    Error,
    /// How many items there are.
    Length,
    /// The name of a Map, and the number of an iteration.
    Iteration,
}

pub(crate) fn form_of(kind: EventKind) -> Form
    ensures { result ≡ form_of kind }
{
    match kind {
        EventKind::ExecutionStarted => Form::Input,
        EventKind::ExecutionSucceeded => Form::Output,
        EventKind::ExecutionFailed | EventKind::ExecutionTimedOut => Form::Error,
        EventKind::PassStateEntered
        | EventKind::TaskStateEntered
        | EventKind::ChoiceStateEntered
        | EventKind::WaitStateEntered
        | EventKind::SucceedStateEntered
        | EventKind::FailStateEntered
        | EventKind::ParallelStateEntered
        | EventKind::MapStateEntered => Form::StateInput,
        EventKind::PassStateExited
        | EventKind::TaskStateExited
        | EventKind::ChoiceStateExited
        | EventKind::WaitStateExited
        | EventKind::SucceedStateExited
        | EventKind::ParallelStateExited
        | EventKind::MapStateExited => Form::StateOutput,
        EventKind::TaskScheduled => Form::Parameters,
        EventKind::TaskStarted => Form::Resource,
        EventKind::TaskSucceeded => Form::TaskOutput,
        EventKind::TaskFailed => Form::TaskError,
        EventKind::ParallelStateStarted
        | EventKind::ParallelStateSucceeded
        | EventKind::ParallelStateFailed
        | EventKind::MapStateSucceeded
        | EventKind::MapStateFailed => Form::Nothing,
        EventKind::MapStateStarted => Form::Length,
        EventKind::MapIterationStarted
        | EventKind::MapIterationSucceeded
        | EventKind::MapIterationFailed => Form::Iteration,
    }
}

/// The name of the member that has the details of an event of this kind; empty where there are none.
pub(crate) fn details_name(kind: EventKind) -> &'static str
    ensures { result.now ≡ details_name kind }
{
    match kind {
        EventKind::ExecutionStarted => "executionStartedEventDetails",
        EventKind::ExecutionSucceeded => "executionSucceededEventDetails",
        EventKind::ExecutionFailed => "executionFailedEventDetails",
        EventKind::ExecutionTimedOut => "executionTimedOutEventDetails",
        EventKind::PassStateEntered
        | EventKind::TaskStateEntered
        | EventKind::ChoiceStateEntered
        | EventKind::WaitStateEntered
        | EventKind::SucceedStateEntered
        | EventKind::FailStateEntered
        | EventKind::ParallelStateEntered
        | EventKind::MapStateEntered => "stateEnteredEventDetails",
        EventKind::PassStateExited
        | EventKind::TaskStateExited
        | EventKind::ChoiceStateExited
        | EventKind::WaitStateExited
        | EventKind::SucceedStateExited
        | EventKind::ParallelStateExited
        | EventKind::MapStateExited => "stateExitedEventDetails",
        EventKind::TaskScheduled => "taskScheduledEventDetails",
        EventKind::TaskStarted => "taskStartedEventDetails",
        EventKind::ParallelStateStarted
        | EventKind::ParallelStateSucceeded
        | EventKind::ParallelStateFailed
        | EventKind::MapStateSucceeded
        | EventKind::MapStateFailed => "",
        EventKind::TaskSucceeded => "taskSucceededEventDetails",
        EventKind::TaskFailed => "taskFailedEventDetails",
        EventKind::MapStateStarted => "mapStateStartedEventDetails",
        EventKind::MapIterationStarted => "mapIterationStartedEventDetails",
        EventKind::MapIterationSucceeded => "mapIterationSucceededEventDetails",
        EventKind::MapIterationFailed => "mapIterationFailedEventDetails",
    }
}

// Kinds of events.
ghost use Rattle.std.specs.Prelude.{◌≡◌};
ghost use Rattle.asl_history.specs.Kinds.{is_entered, is_exited, kind_name};

/// What an event tells, by the names of the Step Functions Developer Guide (HistoryEvent, `type`).
#[derive(Clone, Copy, Debug, PartialEq, Eq)]
pub enum EventKind {
    ExecutionStarted,
    ExecutionSucceeded,
    ExecutionFailed,
    ExecutionTimedOut,
    PassStateEntered,
    TaskStateEntered,
    ChoiceStateEntered,
    WaitStateEntered,
    SucceedStateEntered,
    FailStateEntered,
    ParallelStateEntered,
    MapStateEntered,
    PassStateExited,
    TaskStateExited,
    ChoiceStateExited,
    WaitStateExited,
    SucceedStateExited,
    ParallelStateExited,
    MapStateExited,
    TaskScheduled,
    TaskStarted,
    TaskSucceeded,
    TaskFailed,
    ParallelStateStarted,
    ParallelStateSucceeded,
    ParallelStateFailed,
    MapStateStarted,
    MapStateSucceeded,
    MapStateFailed,
    MapIterationStarted,
    MapIterationSucceeded,
    MapIterationFailed,
}

impl EventKind {
    /// The name of the kind, as it stands in a line.
    pub fn name(self) -> &'static str
        ensures { result.now ≡ kind_name self }
    {
        match self {
            EventKind::ExecutionStarted => "ExecutionStarted",
            EventKind::ExecutionSucceeded => "ExecutionSucceeded",
            EventKind::ExecutionFailed => "ExecutionFailed",
            EventKind::ExecutionTimedOut => "ExecutionTimedOut",
            EventKind::PassStateEntered => "PassStateEntered",
            EventKind::TaskStateEntered => "TaskStateEntered",
            EventKind::ChoiceStateEntered => "ChoiceStateEntered",
            EventKind::WaitStateEntered => "WaitStateEntered",
            EventKind::SucceedStateEntered => "SucceedStateEntered",
            EventKind::FailStateEntered => "FailStateEntered",
            EventKind::ParallelStateEntered => "ParallelStateEntered",
            EventKind::MapStateEntered => "MapStateEntered",
            EventKind::PassStateExited => "PassStateExited",
            EventKind::TaskStateExited => "TaskStateExited",
            EventKind::ChoiceStateExited => "ChoiceStateExited",
            EventKind::WaitStateExited => "WaitStateExited",
            EventKind::SucceedStateExited => "SucceedStateExited",
            EventKind::ParallelStateExited => "ParallelStateExited",
            EventKind::MapStateExited => "MapStateExited",
            EventKind::TaskScheduled => "TaskScheduled",
            EventKind::TaskStarted => "TaskStarted",
            EventKind::TaskSucceeded => "TaskSucceeded",
            EventKind::TaskFailed => "TaskFailed",
            EventKind::ParallelStateStarted => "ParallelStateStarted",
            EventKind::ParallelStateSucceeded => "ParallelStateSucceeded",
            EventKind::ParallelStateFailed => "ParallelStateFailed",
            EventKind::MapStateStarted => "MapStateStarted",
            EventKind::MapStateSucceeded => "MapStateSucceeded",
            EventKind::MapStateFailed => "MapStateFailed",
            EventKind::MapIterationStarted => "MapIterationStarted",
            EventKind::MapIterationSucceeded => "MapIterationSucceeded",
            EventKind::MapIterationFailed => "MapIterationFailed",
        }
    }

    /// Whether a state is entered.
    pub fn is_entered(self) -> bool
        ensures { result ≡ is_entered self }
    {
        match self {
            EventKind::PassStateEntered
            | EventKind::TaskStateEntered
            | EventKind::ChoiceStateEntered
            | EventKind::WaitStateEntered
            | EventKind::SucceedStateEntered
            | EventKind::FailStateEntered
            | EventKind::ParallelStateEntered
            | EventKind::MapStateEntered => true,
            _ => false,
        }
    }

    /// Whether a state is left.
    pub fn is_exited(self) -> bool
        ensures { result ≡ is_exited self }
    {
        match self {
            EventKind::PassStateExited
            | EventKind::TaskStateExited
            | EventKind::ChoiceStateExited
            | EventKind::WaitStateExited
            | EventKind::SucceedStateExited
            | EventKind::ParallelStateExited
            | EventKind::MapStateExited => true,
            _ => false,
        }
    }
}

// What a formula says of a run by itself.

use asl_json::Txt;

/// A Task of a definition: its name, and its number among all states of the definition.
#[derive(Drop)]
pub struct Task {
    pub name: Txt,
    pub number: usize,
}

/// How a run has ended.
#[derive(Clone, Copy, Debug, PartialEq, Eq)]
pub enum Status {
    Succeeded,
    Failed,
    TimedOut,
}

/// A formula without any operator.
#[derive(Drop)]
pub enum Atom {
    /// `done("S")`: some invocation of the Task returns.
    Done(Task),
    /// `returned("S", K)`: at least so many of them do.
    Returned(Task, u32),
    /// `failed("S")`: some invocation of the Task doesn't return.
    Failed(Task),
    /// `invoked("S")`: the Task is invoked.
    Invoked(Task),
    /// `status(S)`: the run has ended so.
    Status(Status),
    /// `error("E")`: the run has ended with the error of this name.
    Error(Txt),
}

// Outcomes of executions.

ghost use Rattle.std.specs.Prelude.{◌≡◌, IfOk};

use asl_json_shared::Shared;
use asl_step::ErrorOut;
use std::alloc::{AllocError, Global};

/// How far an execution is. (Step Functions Developer Guide, DescribeExecution, `status`.)
#[derive(PartialEq, Eq)]
pub enum Outcome {
    /// `RUNNING`.
    Running,
    /// `SUCCEEDED`, with the output.
    Succeeded(Shared),
    /// `FAILED`, with the error.
    Failed(ErrorOut),
    /// `TIMED_OUT`: its time was over.
    TimedOut,
}

// Written out, so that a caller's proof sees one call and not the drop of each part.
impl Drop for Outcome {
    fn drop(self) {
        match self {
            Outcome::Running => {}
            Outcome::Succeeded(_part) => {}
            Outcome::Failed(_part) => {}
            Outcome::TimedOut => {}
        }
    }
}

impl Outcome {
    /// An equal outcome, which shares the output. The error is that memory ran out.
    pub fn try_clone(&self, alloc: Global) -> Result<Outcome, AllocError>
        ensures { IfOk result (λ o. o ≡ self.now) }
    {
        match self {
            Outcome::Running => Ok(Outcome::Running),
            Outcome::Succeeded(output) => Ok(Outcome::Succeeded(output.try_clone()?)),
            Outcome::Failed(error) => Ok(Outcome::Failed(error.try_clone(alloc)?)),
            Outcome::TimedOut => Ok(Outcome::TimedOut),
        }
    }
}

// Several steps.
ghost use Rattle.std.specs.Prelude.{◌≡◌, ◌≤◌, length, take, drop};
ghost use Rattle.asl_session.specs.Advancing.{after_steps, AreTaken, IsStop};

use crate::session::Session;
use asl_json_shared::Name;
use asl_run_input::StepAt;
use asl_run_state::Refusal;
use std::alloc::AllocError;

/// Why no further step was taken.
pub enum Stop {
    /// All were taken.
    End,
    /// The branch pauses at the breakpoint of this name.
    Paused(Name),
    /// The step is refused, for this reason.
    Refused(Refusal),
    /// Memory ran out.
    OutOfMemory,
}

// Written out, so that a caller's proof sees one call and not the drop of each part.
impl Drop for Stop {
    fn drop(self) {
        match self {
            Stop::End => {}
            Stop::Paused(_part) => {}
            Stop::Refused(_part) => {}
            Stop::OutOfMemory => {}
        }
    }
}

impl Session {
    ghost use Rattle.asl_session.specs.Advancing.{IsTried};

    /// Takes a step; else tells why not.
    fn try_step(&mut self, at: &StepAt) -> Option<Stop>
        ensures { IsTried self.old self.new at.now result }
    {
        match self.step(at) {
            Ok(reply) => reply.into_stop(),
            Err(AllocError) => Some(Stop::OutOfMemory),
        }
    }

    /// Takes steps in order until one isn't taken: how many were, and why the next one wasn't, if there is one. The steps that are left
    /// are those from that number on. Where memory ran out, those before it stay taken.
    pub fn advance(&mut self, steps: &[StepAt]) -> (usize, Stop)
        ensures count { result.0 ≤ length steps.now }
        ensures taken { AreTaken self.old (take result.0 steps.now) }
        ensures session { self.new ≡ after_steps self.old (take result.0 steps.now) }
        ensures stop { IsStop self.new (drop result.0 steps.now) result.1 }
    {
        for (count, at) in steps.iter().enumerate() {
            if let Some(stop) = self.try_step(at) {
                return (count, stop);
            }
        }
        (steps.len(), Stop::End)
    }
}

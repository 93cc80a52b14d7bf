// The step that comes next.
ghost use Rattle.std.specs.Prelude.{◌≡◌, IfOk};
ghost use Rattle.asl_session_repl.specs.Onward.{onward_of};

use asl_run_input::StepAt;
use asl_session::Session;
use asl_time::Moment;
use std::alloc::AllocError;

/// The step that comes next, unless it is too late.
#[derive(Drop)]
pub enum Onward {
    /// None, since the execution is over.
    Over,
    /// None, since its history is full.
    Full,
    /// None so early: the next one is at this moment.
    Later(Moment),
    /// This one.
    Step(StepAt),
}

/// The step that comes next, if it is at this moment at the latest. The error is that memory ran out.
pub(crate) fn onward_of(session: &Session, until: Moment) -> Result<Onward, AllocError>
    ensures { IfOk result (λ o. o ≡ onward_of until session.now) }
{
    let execution = session.execution();
    match execution.chosen()? {
        Some(at) => {
            if at.moment.millis() <= until.millis() {
                Ok(Onward::Step(at))
            } else {
                Ok(Onward::Later(at.moment))
            }
        }
        None => {
            if execution.world().is_running() {
                Ok(Onward::Full)
            } else {
                Ok(Onward::Over)
            }
        }
    }
}

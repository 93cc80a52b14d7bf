// What fails in a step.
ghost use Rattle.std.specs.Prelude.{◌≡◌, IfOk, option_map};
ghost use Rattle.std.specs.Option.{option_copied};
ghost use Rattle.asl_session.specs.Sessions.{world_in};
ghost use Rattle.asl_session_repl.specs.Failing.{is_handled, handles_error, is_failed, has_failed, is_timed_out, ends_badly};

use asl_history::Place;
use asl_run_input::StepAt;
use asl_run_state::Outcome;
use asl_session::Session;
use asl_step::Record;
use asl_trace::{Deciding, Staged, context_of, decided_at};
use std::alloc::{AllocError, Global};

/// Whether an error was raised, which a retrier or a catcher handles.
fn is_handled(deciding: Deciding) -> bool
    ensures { result ≡ is_handled deciding }
{
    matches!(deciding, Deciding::Retrier(_) | Deciding::Catcher(_))
}

/// Whether a step would raise an error that a retrier or a catcher handles. The error is that memory ran out.
pub(crate) fn handles_error(
    alloc: Global,
    session: &Session,
    at: &StepAt,
) -> Result<bool, AllocError>
    ensures { IfOk result (λ b. b ≡ handles_error session.now at.now) }
{
    let execution = session.execution();
    let mut context = context_of(alloc, execution.setup())?;
    let decided = decided_at(alloc, execution, Staged::Handling, &mut context, at)?;
    Ok(is_handled(decided.deciding))
}

/// Whether a branch has failed.
fn has_failed(current: Option<&Record>) -> bool
    ensures { result ≡ has_failed (option_copied current.entry) }
{
    matches!(current, Some(Record::Failed(_)))
}

/// Whether the branch at a place has failed, or the time of the execution is over.
pub(crate) fn ends_badly(session: &Session, place: &Place) -> bool
    ensures { result ≡ ends_badly (world_in session.now) place.now }
{
    let execution = session.execution();
    has_failed(execution.view(place)) || matches!(execution.outcome(), Outcome::TimedOut)
}

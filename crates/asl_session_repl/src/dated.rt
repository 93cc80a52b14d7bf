// When the steps are taken that a line names.
ghost use Rattle.std.specs.Prelude.{◌≡◌, IfOk};
ghost use Rattle.asl_run_state.specs.Picking.{awaited_by};
ghost use Rattle.asl_exec.specs.Steps.{deadline_of};
ghost use Rattle.asl_session_repl.specs.Dated.{last_moment, moment_of, dated, no_later, earliest, moment_or, dated_step};

use crate::timed::{Timed, When};
use asl_exec::deadline_of;
use asl_history::Place;
use asl_run_input::{Setup, StepAt};
use asl_run_state::Refusal;
use asl_session::Session;
use asl_time::{Moment, add};
use std::alloc::AllocError;

/// The last moment, which no step passes.
#[tactic(auto, unfolding(crate::specs::Dated::last_moment))]
pub(crate) fn last_moment() -> Moment
    ensures { result ≡ last_moment }
{
    Moment::LAST
}

/// The moment that is named.
#[tactic(auto, unfolding(crate::specs::Dated::last_moment))]
pub(crate) fn moment_of(session: &Session, when: When) -> Moment
    ensures { result ≡ moment_of session.now when }
{
    match when {
        When::At(moment) => moment,
        When::After(millis) => add(session.execution().world().last(), millis),
        When::Since(millis) => add(session.execution().setup().start, millis),
    }
}

/// The step that is named. The error is that there are too many copies of its place.
pub(crate) fn dated(session: &Session, step: &Timed) -> Result<StepAt, AllocError>
    ensures { IfOk result (λ a. a ≡ dated session.now step.now) }
{
    Ok(StepAt {
        place: step.place.try_clone()?,
        moment: moment_of(session, step.when),
    })
}

/// The earlier of two moments.
fn no_later(moment: Moment, deadline: Option<Moment>) -> Moment
    ensures { result ≡ no_later moment deadline }
{
    match deadline {
        Some(deadline) if deadline.millis() < moment.millis() => deadline,
        _ => moment,
    }
}

/// The moment that a branch waits for whose step is refused for this reason.
fn awaited_by(refusal: &Option<Refusal>) -> Option<Moment>
    ensures { result ≡ awaited_by refusal.now }
{
    match refusal {
        Some(Refusal::NotYet(until)) => Some(*until),
        _ => None,
    }
}

/// The earliest moment at which the branch at a place may step.
fn earliest(session: &Session, place: &Place) -> Moment
    ensures { result ≡ earliest session.now place.now }
{
    let execution = session.execution();
    let last = execution.world().last();
    match awaited_by(&execution.refusal(place, last)) {
        Some(until) => no_later(until, deadline_of(execution.setup())),
        None => last,
    }
}

/// The moment that is named; else the earliest.
fn moment_or(session: &Session, place: &Place, when: Option<When>) -> Moment
    ensures { result ≡ moment_or session.now place.now when }
{
    match when {
        Some(when) => moment_of(session, when),
        None => earliest(session, place),
    }
}

/// The step at a place, at the moment that is named, or as early as it may be. The error is that there are too many copies of the
/// place.
pub(crate) fn dated_step(
    session: &Session,
    place: &Place,
    when: Option<When>,
) -> Result<StepAt, AllocError>
    ensures { IfOk result (λ a. a ≡ dated_step session.now place.now when) }
{
    Ok(StepAt {
        place: place.try_clone()?,
        moment: moment_or(session, place, when),
    })
}

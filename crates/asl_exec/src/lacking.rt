// The invocation without an answer that an execution failed for.
ghost use Rattle.std.specs.Prelude.{◌≡◌, IfOk, option_map, count_by, take, length};
ghost use Rattle.asl_json.specs.View.{data_of};
ghost use Rattle.asl_exec.specs.Lacking.{is_task_failure, is_failed_with, is_handed_up, event_of, failed_task, failure_behind, is_scheduled, invokes, last_invocation, invocation_of, is_unanswered, unanswered, unanswered_in};
ghost use Rattle.asl_exec.specs.Views.{setup_of, world_of};

use crate::execution::Execution;
use asl_history::{Event, EventKind};
use asl_json::{Json, Txt};
use asl_json_same::same;
use asl_mock::{Case, answer};
use asl_run_state::Outcome;
use std::alloc::{AllocError, Global};

/// An invocation of a service by a Task state.
pub struct Invocation {
    /// The state's name.
    pub state: Txt,
    /// Its number among the invocations of that state in the whole execution, from 0.
    pub number: u64,
}

// Written out, so that a caller's proof sees one call and not the drop of each part.
impl Drop for Invocation {
    fn drop(self) {
        let Invocation {
            state: _state,
            number: _number,
        } = self;
    }
}

fn is_task_failure(kind: EventKind) -> bool
    ensures { result ≡ is_task_failure kind }
{
    match kind {
        EventKind::TaskFailed => true,
        _ => false,
    }
}

/// Whether a service failed with this error output.
fn is_failed_with(output: &Json, event: &Event) -> bool
    ensures { result ≡ is_failed_with (data_of output.now) event.now }
{
    is_task_failure(event.kind) && same(event.body.get(), output)
}

/// Whether what has failed here failed before in a branch below, or in the state itself.
fn is_handed_up(kind: EventKind) -> bool
    ensures { result ≡ is_handed_up kind }
{
    match kind {
        EventKind::ExecutionFailed
        | EventKind::ParallelStateFailed
        | EventKind::MapStateFailed
        | EventKind::MapIterationFailed => true,
        _ => false,
    }
}

/// The event of a number.
fn event_of(id: u64, events: &[Event]) -> Option<&Event>
    ensures { option_map (λ e. e.now) result ≡ event_of id events.now }
{
    events.get(id.saturating_sub(1) as usize)
}

/// From the event of a number back along previous events: where a service failed with this error output.
fn failed_task<'a>(output: &Json, id: u64, events: &'a [Event]) -> Option<&'a Event>
    ensures { option_map (λ e. e.now) result
        ≡ failed_task (length events.now) (data_of output.now) id events.now }
{
    let mut id = id;
    for _ in 0..events.len() {
        let event = event_of(id, events)?;
        if is_failed_with(output, event) {
            return Some(event);
        }
        if !is_handed_up(event.kind) {
            return None;
        }
        id = event.previous;
    }
    None
}

/// The failed service whose error output is that of the last event.
fn failure_behind(events: &[Event]) -> Option<&Event>
    ensures { option_map (λ e. e.now) result ≡ failure_behind events.now }
{
    let last = event_of(events.len() as u64, events)?;
    failed_task(last.body.get(), last.id, events)
}

fn is_scheduled(kind: EventKind) -> bool
    ensures { result ≡ is_scheduled kind }
{
    match kind {
        EventKind::TaskScheduled => true,
        _ => false,
    }
}

fn invokes(name: &str, event: &Event) -> bool
    ensures { result ≡ invokes name.now event.now }
{
    is_scheduled(event.kind) && event.name.as_str() == name
}

/// How often a state was invoked among the first of these events.
fn invocations(name: &str, events: &[Event], first: u64) -> usize
    ensures { result ≡ count_by (invokes name.now) (take first events.now) }
{
    events
        .iter()
        .take(first as usize)
        .filter(|event| invokes(name, event))
        .count()
}

/// The invocation that failed with this event. The error is that memory ran out.
fn invocation_of(alloc: Global, events: &[Event], event: &Event) -> Result<Invocation, AllocError>
    ensures { IfOk result (λ v. v ≡ invocation_of events.now event.now) }
{
    let count = invocations(event.name.as_str(), events, event.id);
    Ok(Invocation {
        state: Txt::of(alloc, event.name.as_str())?,
        number: count.saturating_sub(1) as u64,
    })
}

fn is_unanswered(case: &Case, invocation: &Invocation) -> bool
    ensures { result ≡ is_unanswered case.now invocation.now }
{
    match u32::try_from(invocation.number) {
        Ok(number) => answer(case, invocation.state.as_str(), number).is_none(),
        Err(_) => false,
    }
}

/// Of an execution that failed with the failure of an invocation, which its test case doesn't answer: this invocation. The error is
/// that memory ran out.
pub fn unanswered(
    alloc: Global,
    case: &Case,
    events: &[Event],
    outcome: &Outcome,
) -> Result<Option<Invocation>, AllocError>
    ensures { IfOk result (λ o. o ≡ unanswered case.now events.now outcome.now) }
{
    let Outcome::Failed(_) = outcome else {
        return Ok(None);
    };
    let Some(event) = failure_behind(events) else {
        return Ok(None);
    };
    let invocation = invocation_of(alloc, events, event)?;
    if is_unanswered(case, &invocation) {
        return Ok(Some(invocation));
    }
    Ok(None)
}

impl Execution {
    /// Where it failed with the failure of an invocation, which its test case doesn't answer: this invocation. The error is that memory ran
    /// out.
    pub fn lacking(&self) -> Result<Option<Invocation>, AllocError>
        ensures { IfOk result (λ o. o
            ≡ unanswered_in (setup_of self.now).case (world_of self.now)) }
    {
        let events = self.history().events();
        unanswered(self.alloc(), &self.setup().case, events, self.outcome())
    }
}

// The verdict on a test.
ghost use Rattle.std.specs.Prelude.{◌≡◌, option_map};
ghost use Rattle.std.specs.List.{list_all};
ghost use Rattle.asl_exec.specs.Lacking.{invokes};
ghost use Rattle.asl_suite.specs.Cases.{status_of, is_wanted, has_output, is_output, is_as_wanted, is_any, has_error, has_cause, enters, entries, is_visited, invocations, is_invoked, is_called, verdict_by_states, verdict_by_end, verdict_on};

use crate::case_report::{Status, Verdict};
use asl_def::Machine;
use asl_history::{Event, EventKind};
use asl_json::{Json, Txt};
use asl_json_same::same;
use asl_run_state::{Outcome, World};
use asl_suite_file::{Expectation, Likeness, StateCalls, StateCount, Wanted, WantedText, is_like};

/// How an execution ended.
pub(crate) fn status_of(outcome: &Outcome) -> Status
    ensures { result ≡ status_of outcome.now }
{
    match outcome {
        Outcome::Running => Status::Unfinished,
        Outcome::Succeeded(_) => Status::Succeeded,
        Outcome::Failed(_) => Status::Failed,
        Outcome::TimedOut => Status::TimedOut,
    }
}

pub(crate) fn is_wanted(wanted: Wanted, outcome: &Outcome) -> bool
    ensures { result ≡ is_wanted wanted outcome.now }
{
    match (wanted, outcome) {
        (Wanted::Succeeded, Outcome::Succeeded(_)) => true,
        (Wanted::Failed, Outcome::Failed(_)) => true,
        (Wanted::TimedOut, Outcome::TimedOut) => true,
        _ => false,
    }
}

fn has_output(likeness: Likeness, wanted: &Json, outcome: &Outcome) -> bool
    ensures { result ≡ has_output likeness wanted.now outcome.now }
{
    match outcome {
        Outcome::Succeeded(output) => is_like(likeness, wanted, output.get()),
        _ => false,
    }
}

fn is_output(likeness: Likeness, wanted: &Option<Json>, outcome: &Outcome) -> bool
    ensures { result ≡ is_output likeness wanted.now outcome.now }
{
    match wanted {
        Some(wanted) => has_output(likeness, wanted, outcome),
        None => true,
    }
}

/// Whether a text of the error output is as wanted.
fn is_as_wanted(wanted: &WantedText, text: Option<&str>) -> bool
    ensures { result ≡ is_as_wanted wanted.now (option_map (λ t. t.now) text.entry) }
{
    match wanted {
        WantedText::Any => true,
        WantedText::Absent => text.is_none(),
        WantedText::Text(wanted) => match text {
            Some(text) => wanted.as_str() == text,
            None => false,
        },
    }
}

fn is_any(wanted: &WantedText) -> bool
    ensures { result ≡ is_any wanted.now }
{
    match wanted {
        WantedText::Any => true,
        _ => false,
    }
}

fn text_in(text: &Option<Txt>) -> Option<&str>
    ensures { option_map (λ t. t.now) result ≡ text.now }
{
    match text {
        Some(text) => Some(text.as_str()),
        None => None,
    }
}

/// Whether the error that an execution ended in has the name that is wanted.
pub(crate) fn has_error(wanted: &WantedText, outcome: &Outcome) -> bool
    ensures { result ≡ has_error wanted.now outcome.now }
{
    match outcome {
        Outcome::Failed(error) => is_as_wanted(wanted, text_in(&error.error)),
        Outcome::TimedOut => is_as_wanted(wanted, Some("States.Timeout")),
        _ => is_any(wanted),
    }
}

/// Whether that error has the cause that is wanted.
pub(crate) fn has_cause(wanted: &WantedText, outcome: &Outcome) -> bool
    ensures { result ≡ has_cause wanted.now outcome.now }
{
    match outcome {
        Outcome::Failed(error) => is_as_wanted(wanted, text_in(&error.cause)),
        Outcome::TimedOut => is_as_wanted(wanted, None),
        _ => is_any(wanted),
    }
}

fn enters(name: &str, event: &Event) -> bool
    ensures { result ≡ enters name.now event.now }
{
    event.kind.is_entered() && event.name.as_str() == name
}

/// How often a state was entered.
pub(crate) fn entries(name: &str, events: &[Event]) -> usize
    ensures { result ≡ entries name.now events.now }
{
    events.iter().filter(|event| enters(name, event)).count()
}

pub(crate) fn is_visited(events: &[Event], visit: &StateCount) -> bool
    ensures { result ≡ is_visited events.now visit.now }
{
    entries(visit.state.as_str(), events) as u64 == visit.count
}

fn are_visited(events: &[Event], visits: &[StateCount]) -> bool
    ensures { result ≡ list_all (is_visited events.now) visits.now }
{
    visits.iter().all(|visit| is_visited(events, visit))
}

/// How often a Task invoked its service; 0 where the machine hasn't its state.
pub(crate) fn invocations(machine: &Machine, world: &World, name: &str) -> u32
    ensures { result ≡ invocations machine.now world.now.counts name.now }
{
    match machine.find(name) {
        Some((number, _)) => world.count(Some(number)),
        None => 0,
    }
}

pub(crate) fn is_invoked(machine: &Machine, world: &World, wanted: &StateCount) -> bool
    ensures { result ≡ is_invoked machine.now world.now.counts wanted.now }
{
    u64::from(invocations(machine, world, wanted.state.as_str())) == wanted.count
}

fn are_invoked(machine: &Machine, world: &World, wanted: &[StateCount]) -> bool
    ensures { result ≡ list_all (is_invoked machine.now world.now.counts) wanted.now }
{
    wanted
        .iter()
        .all(|wanted| is_invoked(machine, world, wanted))
}

/// Whether an event tells that a Task invokes its service.
pub(crate) fn invokes(name: &str, event: &Event) -> bool
    ensures { result ≡ invokes name.now event.now }
{
    match event.kind {
        EventKind::TaskScheduled => event.name.as_str() == name,
        _ => false,
    }
}

/// Whether a Task invoked its service with the inputs that are wanted, one after another.
pub(crate) fn is_called(events: &[Event], wanted: &StateCalls) -> bool
    ensures { result ≡ is_called events.now wanted.now }
{
    let mut left = wanted.inputs.values();
    for event in events {
        if invokes(wanted.state.as_str(), event) {
            let Some((input, rest)) = left.split_first() else {
                return false;
            };
            if !same(input, event.body.get()) {
                return false;
            }
            left = rest;
        }
    }
    left.is_empty()
}

fn are_called(events: &[Event], wanted: &[StateCalls]) -> bool
    ensures { result ≡ list_all (is_called events.now) wanted.now }
{
    wanted.iter().all(|wanted| is_called(events, wanted))
}

/// The verdict by what the states of an execution did, where it ended as it was to.
fn verdict_by_states(machine: &Machine, test: &Expectation, world: &World) -> Verdict
    ensures { result ≡ verdict_by_states machine.now test.now world.now }
{
    let events = world.history().events();
    if !are_visited(events, test.states.visits.counts()) {
        return Verdict::Visits;
    }
    if !are_invoked(machine, world, test.states.invocations.counts()) {
        return Verdict::Invocations;
    }
    if !are_called(events, test.states.calls.calls()) {
        return Verdict::Calls;
    }
    Verdict::Passed
}

/// The verdict by what an execution ended in, where its status is wanted.
fn verdict_by_end(machine: &Machine, test: &Expectation, world: &World) -> Verdict
    ensures { result ≡ verdict_by_end machine.now test.now world.now }
{
    let outcome = world.outcome();
    if !is_output(Likeness::Same, &test.end.output, outcome) {
        return Verdict::Output;
    }
    if !is_output(Likeness::Holding, &test.end.part, outcome) {
        return Verdict::Match;
    }
    if !has_error(&test.end.error, outcome) {
        return Verdict::Error;
    }
    if !has_cause(&test.end.cause, outcome) {
        return Verdict::Cause;
    }
    verdict_by_states(machine, test, world)
}

/// The verdict on a test whose execution ended in this world.
pub(crate) fn verdict_on(machine: &Machine, test: &Expectation, world: &World) -> Verdict
    ensures { result ≡ verdict_on machine.now test.now world.now }
{
    let outcome = world.outcome();
    if let Outcome::Running = outcome {
        return Verdict::Limit;
    }
    if !is_wanted(test.end.status, outcome) {
        return Verdict::Status;
    }
    verdict_by_end(machine, test, world)
}

// Finding why a test isn't passed.
ghost use Rattle.std.specs.Prelude.{◌≡◌, ◌<◌, length, Ok, Some, IfOk, slice_get};
ghost use Rattle.std.specs.Option.{option_map};
ghost use Rattle.asl_suite.specs.Cases.{report_on, is_visited, is_invoked, is_called, inputs_of};
ghost use Rattle.asl_suite.specs.Reasons.{no_output, output_difference, first_not, calls_difference, by_calls, reason_by_states, reason_by_error, reason_by_end, by_status, reason_in, reason_by, reason_within, reason_for, verdict_by};
ghost use Rattle.asl_suite.specs.Orders.{order_reason_by, order_reason};

use crate::judging::{
    entries, has_cause, has_error, invocations, invokes, is_called, is_invoked, is_visited,
    is_wanted,
};
use crate::reason::Reason;
use crate::running::{case_of, execution_of, setup_of, stepped};
use crate::suite::Suite;
use asl_def::Machine;
use asl_exec::{most_steps, unanswered};
use asl_history::Event;
use asl_json::{Items, Json};
use asl_json_write::Pointer;
use asl_mock::Case;
use asl_run_input::StepAt;
use asl_run_state::{Outcome, World};
use asl_suite_file::{
    Difference, Expectation, Likeness, StateCalls, StateCount, first_difference, list_difference,
};
use std::alloc::{AllocError, Global};

/// The difference where an output is wanted, and there is none. The error is that memory ran out.
fn no_output(alloc: Global, wanted: &Json) -> Result<Difference, AllocError>
    ensures { IfOk result (λ d. d ≡ no_output wanted.now) }
{
    Ok(Difference {
        place: Pointer::whole(alloc),
        wanted: Some(wanted.try_clone(alloc)?),
        came: None,
    })
}

fn output_difference(
    alloc: Global,
    likeness: Likeness,
    wanted: &Option<Json>,
    outcome: &Outcome,
) -> Result<Option<Difference>, AllocError>
    ensures { IfOk result (λ o. o ≡ output_difference likeness wanted.now outcome.now) }
{
    let Some(wanted) = wanted else {
        return Ok(None);
    };
    match outcome {
        Outcome::Succeeded(output) => first_difference(alloc, likeness, wanted, output.get()),
        _ => Ok(Some(no_output(alloc, wanted)?)),
    }
}

/// The first state that was entered more or less often than it was to be.
fn first_unvisited<'a>(events: &[Event], wanted: &'a [StateCount]) -> Option<&'a StateCount>
    ensures { option_map (λ v. v.now) result ≡ first_not (is_visited events.now) wanted.now }
{
    for visit in wanted {
        if !is_visited(events, visit) {
            return Some(visit);
        }
    }
    None
}

/// The first Task that invoked its service more or less often than it was to.
fn first_uninvoked<'a>(
    machine: &Machine,
    world: &World,
    wanted: &'a [StateCount],
) -> Option<&'a StateCount>
    ensures { option_map (λ v. v.now) result
        ≡ first_not (is_invoked machine.now world.now.counts) wanted.now }
{
    for count in wanted {
        if !is_invoked(machine, world, count) {
            return Some(count);
        }
    }
    None
}

/// The first Task that invoked its service with other inputs.
fn first_uncalled<'a>(events: &[Event], wanted: &'a [StateCalls]) -> Option<&'a StateCalls>
    ensures { option_map (λ c. c.now) result ≡ first_not (is_called events.now) wanted.now }
{
    for calls in wanted {
        if !is_called(events, calls) {
            return Some(calls);
        }
    }
    None
}

pub(crate) fn copy_of(alloc: Global, count: &StateCount) -> Result<StateCount, AllocError>
    ensures { IfOk result (λ c. c ≡ count.now) }
{
    Ok(StateCount {
        state: count.state.try_clone(alloc)?,
        count: count.count,
    })
}

/// The inputs that a Task invoked its service with, in order. The error is that memory ran out.
fn inputs_of(alloc: Global, name: &str, events: &[Event]) -> Result<Items, AllocError>
    ensures { IfOk result (λ i. i ≡ inputs_of name.now events.now) }
{
    let mut inputs = Vec::new(alloc);
    for event in events {
        if invokes(name, event) {
            inputs.push(event.body.get().try_clone(alloc)?)?;
        }
    }
    Ok(Items::of_values(inputs))
}

/// Where the inputs of a Task's service differ first from those that are wanted. The error is that memory ran out.
fn calls_difference(
    alloc: Global,
    events: &[Event],
    wanted: &StateCalls,
) -> Result<Difference, AllocError>
    ensures { IfOk result (λ d. d ≡ calls_difference events.now wanted.now) }
{
    let came = inputs_of(alloc, wanted.state.as_str(), events)?;
    list_difference(alloc, &wanted.inputs, &came)
}

fn by_calls(alloc: Global, events: &[Event], wanted: &[StateCalls]) -> Result<Reason, AllocError>
    ensures { IfOk result (λ r. r
        ≡ by_calls events.now (first_not (is_called events.now) wanted.now)) }
{
    match first_uncalled(events, wanted) {
        Some(calls) => Ok(Reason::Calls {
            state: calls.state.try_clone(alloc)?,
            difference: calls_difference(alloc, events, calls)?,
        }),
        None => Ok(Reason::Passed),
    }
}

/// Why a test isn't passed by what the states of an execution did. The error is that memory ran out.
fn reason_by_states(
    alloc: Global,
    machine: &Machine,
    test: &Expectation,
    world: &World,
) -> Result<Reason, AllocError>
    ensures { IfOk result (λ r. r ≡ reason_by_states machine.now test.now world.now) }
{
    let events = world.history().events();
    if let Some(wanted) = first_unvisited(events, test.states.visits.counts()) {
        return Ok(Reason::Visits {
            wanted: copy_of(alloc, wanted)?,
            entered: entries(wanted.state.as_str(), events) as u64,
        });
    }
    if let Some(wanted) = first_uninvoked(machine, world, test.states.invocations.counts()) {
        return Ok(Reason::Invocations {
            wanted: copy_of(alloc, wanted)?,
            invoked: u64::from(invocations(machine, world, wanted.state.as_str())),
        });
    }
    by_calls(alloc, events, test.states.calls.calls())
}

/// The same by the error that it ended in, too.
fn reason_by_error(
    alloc: Global,
    machine: &Machine,
    test: &Expectation,
    world: &World,
) -> Result<Reason, AllocError>
    ensures { IfOk result (λ r. r ≡ reason_by_error machine.now test.now world.now) }
{
    let outcome = world.outcome();
    if !has_error(&test.end.error, outcome) {
        return Ok(Reason::Error {
            wanted: test.end.error.try_clone(alloc)?,
            outcome: outcome.try_clone(alloc)?,
        });
    }
    if !has_cause(&test.end.cause, outcome) {
        return Ok(Reason::Cause {
            wanted: test.end.cause.try_clone(alloc)?,
            outcome: outcome.try_clone(alloc)?,
        });
    }
    reason_by_states(alloc, machine, test, world)
}

/// Why a test isn't passed whose execution has the status that is wanted. The error is that memory ran out.
fn reason_by_end(
    alloc: Global,
    machine: &Machine,
    test: &Expectation,
    world: &World,
) -> Result<Reason, AllocError>
    ensures { IfOk result (λ r. r ≡ reason_by_end machine.now test.now world.now) }
{
    let outcome = world.outcome();
    if let Some(difference) = output_difference(alloc, Likeness::Same, &test.end.output, outcome)? {
        return Ok(Reason::Output(difference));
    }
    if let Some(difference) = output_difference(
        alloc,
        Likeness::Holding,
        &test.end.part,
        outcome,
    )? {
        return Ok(Reason::Match(difference));
    }
    reason_by_error(alloc, machine, test, world)
}

/// Why a test isn't passed whose execution ended otherwise than expected. The error is that memory ran out.
fn by_status(
    alloc: Global,
    test: &Expectation,
    case: &Case,
    world: &World,
) -> Result<Reason, AllocError>
    ensures { IfOk result (λ r. r ≡ by_status test.now case.now world.now) }
{
    let outcome = world.outcome();
    let unanswered = unanswered(alloc, case, world.history().events(), outcome)?;
    Ok(Reason::Status {
        wanted: test.end.status,
        outcome: outcome.try_clone(alloc)?,
        unanswered,
    })
}

/// Why a test isn't passed whose execution ended so. The error is that memory ran out.
fn reason_in(
    alloc: Global,
    machine: &Machine,
    test: &Expectation,
    case: &Case,
    world: &World,
) -> Result<Reason, AllocError>
    ensures { IfOk result (λ r. r ≡ reason_in machine.now test.now case.now world.now) }
{
    let outcome = world.outcome();
    if let Outcome::Running = outcome {
        return Ok(Reason::Limit);
    }
    if !is_wanted(test.end.status, outcome) {
        return by_status(alloc, test, case, world);
    }
    reason_by_end(alloc, machine, test, world)
}

/// Why a test of this case isn't passed; without steps of its own, it is driven by at most so many.
fn reason_with(
    alloc: Global,
    suite: &Suite,
    test: &Expectation,
    case: Case,
    limit: u32,
) -> Result<Reason, AllocError>
    ensures { IfOk result (λ r. r ≡ reason_by limit suite.now test.now (Ok case)) }
{
    let own = case.try_clone()?;
    let execution = execution_of(alloc, suite, test, own, limit)?;
    reason_in(alloc, &suite.machine, test, &case, execution.world())
}

/// Why a test isn't passed; without steps of its own, it is driven by at most so many.
fn reason_within(
    alloc: Global,
    suite: &Suite,
    test: &Expectation,
    limit: u32,
) -> Result<Reason, AllocError>
    ensures { IfOk result (λ r. r ≡ reason_within limit suite.now test.now) }
{
    match case_of(&suite.mocks, test)? {
        Err(fault) => Ok(Reason::NoCase(fault)),
        Ok(case) => reason_with(alloc, suite, test, case, limit),
    }
}

/// Why the test of a number isn't passed. It runs the test again. The error is that memory ran out.
pub fn explain(alloc: Global, suite: &Suite, number: usize) -> Result<Reason, AllocError>
    requires { number < length suite.now.tests.list.items }
    ensures reason { IfOk result (λ r. option_map (reason_for suite.now)
        (slice_get suite.now.tests.list.items number) ≡ Some r) }
    // It goes with the verdict that is reported.
    ensures verdict { IfOk result (λ r. option_map (λ x. (report_on suite.now x).verdict)
        (slice_get suite.now.tests.list.items number) ≡ Some (verdict_by r)) }
{
    reason_numbered(alloc, suite, number)
}

fn reason_numbered(alloc: Global, suite: &Suite, number: usize) -> Result<Reason, AllocError>
    requires { number < length suite.now.tests.list.items }
    ensures { IfOk result (λ r. option_map (reason_for suite.now)
        (slice_get suite.now.tests.list.items number) ≡ Some r) }
{
    reason_within(alloc, suite, &suite.tests.list[number], most_steps())
}

fn explain_order_with(
    alloc: Global,
    suite: &Suite,
    test: &Expectation,
    case: Case,
    steps: &[StepAt],
) -> Result<Reason, AllocError>
    ensures { IfOk result (λ r. r ≡ order_reason_by suite.now test.now steps.now (Ok case)) }
{
    let own = case.try_clone()?;
    let setup = setup_of(alloc, suite, test, own)?;
    let execution = stepped(alloc, setup, steps)?;
    reason_in(alloc, &suite.machine, test, &case, execution.world())
}

/// Why a test isn't passed whose execution takes these steps. The error is that memory ran out.
pub(crate) fn explain_order(
    alloc: Global,
    suite: &Suite,
    test: &Expectation,
    steps: &[StepAt],
) -> Result<Reason, AllocError>
    ensures { IfOk result (λ r. r ≡ order_reason suite.now test.now steps.now) }
{
    match case_of(&suite.mocks, test)? {
        Err(fault) => Ok(Reason::NoCase(fault)),
        Ok(case) => explain_order_with(alloc, suite, test, case, steps),
    }
}

// Tests that every order of their branches has to meet.
ghost use Rattle.std.specs.Prelude.{◌≡◌, IfOk};
ghost use Rattle.asl_suite.specs.Orders.{for_orders};

use crate::explaining::copy_of;
use asl_json::{Json, clone_text};
use asl_suite_file::{
    CallsByState, CountsByState, Expectation, StateCount, WantedEnd, WantedStates,
};
use std::alloc::{AllocError, Global};

fn copy_if(alloc: Global, value: &Option<Json>) -> Result<Option<Json>, AllocError>
    ensures { IfOk result (λ v. v ≡ value.now) }
{
    match value {
        Some(value) => Ok(Some(value.try_clone(alloc)?)),
        None => Ok(None),
    }
}

fn copy_of_end(alloc: Global, end: &WantedEnd) -> Result<WantedEnd, AllocError>
    ensures { IfOk result (λ e. e ≡ end.now) }
{
    Ok(WantedEnd {
        status: end.status,
        output: copy_if(alloc, &end.output)?,
        part: copy_if(alloc, &end.part)?,
        error: end.error.try_clone(alloc)?,
        cause: end.cause.try_clone(alloc)?,
    })
}

fn copy_of_counts(alloc: Global, counts: &[StateCount]) -> Result<CountsByState, AllocError>
    ensures { IfOk result (λ c. c ≡ counts.now) }
{
    let mut copies = Vec::with_capacity(alloc, counts.len())?;
    for count in counts {
        copies.push(copy_of(alloc, count)?)?;
    }
    Ok(CountsByState::of_counts(copies))
}

/// A test as each order of its branches has to meet it: without what is judged on the driven run alone. The error is that memory ran out.
pub fn for_orders(alloc: Global, test: &Expectation) -> Result<Expectation, AllocError>
    ensures { IfOk result (λ x. x ≡ for_orders test.now) }
{
    Ok(Expectation {
        machine: test.machine.try_clone(alloc)?,
        case: test.case.try_clone(alloc)?,
        name: clone_text(alloc, &test.name)?,
        input: test.input.try_clone()?,
        steps: None,
        end: copy_of_end(alloc, &test.end)?,
        states: WantedStates {
            visits: CountsByState::of_counts(Vec::new(alloc)),
            invocations: copy_of_counts(alloc, test.states.invocations.counts())?,
            calls: CallsByState::of_calls(Vec::new(alloc)),
        },
    })
}

// Which errors may be put in beside those of a plan.
ghost use Rattle.std.specs.Prelude.{◌≡◌, ◌++◌, IfOk, OnOk};
ghost use Rattle.asl_task_errors.specs.View.{all_told, told};
ghost use Rattle.asl_explore_errors.specs.Points.{at_invocation, at_invocations, both, cause_of, injected, most_calls, most_in, most_of, points_from};

use crate::points::Point;
use asl_def::Machine;
use asl_error_plans::InjectedError;
use asl_explore::Calls;
use asl_json::Txt;
use asl_task_errors::TaskErrors;
use std::alloc::{AllocError, Global};

// ---- how often a Task is invoked

/// How often the state of a number is invoked at most in the orders of one outcome.
fn most_in(calls: &Calls, number: usize) -> u32
    ensures { result ≡ most_in number calls.now }
{
    match calls.bounds.get(number) {
        Some(bounds) => bounds.most,
        None => 0,
    }
}

/// How often the state of a number is invoked at most in all these orders.
fn most_of(calls: &[Calls], number: usize) -> u32
    ensures { result ≡ most_of number calls.now }
{
    let mut most = 0;
    for one in calls {
        let own = most_in(one, number);
        if most < own {
            most = own;
        }
    }
    most
}

/// How often a Task is invoked at most in these orders.
fn most_calls(machine: &Machine, calls: &[Calls], task: &str) -> u32
    ensures { result ≡ most_calls machine.now calls.now task.now }
{
    match machine.find(task) {
        Some((number, _)) => most_of(calls, number),
        None => 0,
    }
}

// ---- its errors

/// The cause of an error that is put in; none of a Task that takes too long.
fn cause_of(alloc: Global, error: &str) -> Result<Option<Txt>, AllocError>
    ensures { IfOk result (λ c. c ≡ cause_of error.now) }
{
    if error == "States.Timeout" {
        return Ok(None);
    }
    Ok(Some(Txt::of(alloc, "put in")?))
}

/// An error at an invocation of a state, once or for good. The error of this call is that memory ran out.
fn injected(
    alloc: Global,
    state: &Txt,
    number: u32,
    error: &Txt,
    for_good: bool,
) -> Result<InjectedError, AllocError>
    ensures { IfOk result (λ e. e ≡ injected state.now number error.now for_good) }
{
    Ok(InjectedError {
        state: state.try_clone(alloc)?,
        number,
        error: error.try_clone(alloc)?,
        cause: cause_of(alloc, error.as_str())?,
        for_good,
    })
}

/// Adds an error at an invocation of the Task of a number, once and for good. The error of this call is that memory ran out.
fn add_both(
    alloc: Global,
    out: &mut Vec<Point>,
    task: usize,
    state: &Txt,
    number: u32,
    error: &Txt,
) -> Result<(), AllocError>
    ensures { OnOk result (out.new.items ≡ out.old.items ++ both task state.now number error.now) }
{
    let once = injected(alloc, state, number, error, false)?;
    out.push(Point { task, error: once })?;
    let always = injected(alloc, state, number, error, true)?;
    out.push(Point {
        task,
        error: always,
    })?;
    Ok(())
}

/// Adds each error of a Task at one of its invocations. The error of this call is that memory ran out.
fn add_invocation(
    alloc: Global,
    out: &mut Vec<Point>,
    number: usize,
    task: &TaskErrors,
    invocation: u32,
) -> Result<(), AllocError>
    ensures { OnOk result (out.new.items ≡ out.old.items ++ at_invocation number (told task.now) invocation) }
{
    for error in &task.errors {
        add_both(alloc, out, number, &task.state, invocation, error)?;
    }
    Ok(())
}

/// Adds each error of a Task at each of its first invocations. The error of this call is that memory ran out.
fn add_invocations(
    alloc: Global,
    out: &mut Vec<Point>,
    number: usize,
    task: &TaskErrors,
    invocations: u32,
) -> Result<(), AllocError>
    ensures { OnOk result (out.new.items ≡ out.old.items ++ at_invocations number (told task.now) invocations) }
{
    for invocation in 0..invocations {
        add_invocation(alloc, out, number, task, invocation)?;
    }
    Ok(())
}

/// Each error of each Task at each invocation that was counted. The error of this call is that memory ran out.
pub(crate) fn points_of(
    alloc: Global,
    machine: &Machine,
    tasks: &[TaskErrors],
    calls: &[Calls],
) -> Result<Vec<Point>, AllocError>
    ensures { IfOk result (λ v. v.items ≡ points_from machine.now calls.now 0 (all_told tasks.now)) }
{
    let mut points = Vec::new(alloc);
    for (number, task) in tasks.iter().enumerate() {
        let most = most_calls(machine, calls, task.state.as_str());
        add_invocations(alloc, &mut points, number, task, most)?;
    }
    Ok(points)
}

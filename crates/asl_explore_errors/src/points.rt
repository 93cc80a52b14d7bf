// Plans by the Tasks of a definition.
ghost use Rattle.std.specs.Prelude.{◌≡◌, ◌++◌, IfOk, OnOk};
ghost use Rattle.std.specs.List.{flat_map, list_any, position};
ghost use Rattle.asl_explore_errors.specs.Points.{errors_of, is_before, is_there, longer_by, place_in, plans_in, with_point};

use asl_error_plans::InjectedError;
use asl_json::clone_text;
use std::alloc::{AllocError, Global};

/// An error of a plan, and the number of its Task among those of the definition.
#[derive(Drop)]
pub(crate) struct Point {
    pub(crate) task: usize,
    pub(crate) error: InjectedError,
}

/// A copy of an error. The error of this call is that memory ran out.
fn error_copied(alloc: Global, error: &InjectedError) -> Result<InjectedError, AllocError>
    ensures { IfOk result (λ e. e ≡ error.now) }
{
    Ok(InjectedError {
        state: error.state.try_clone(alloc)?,
        number: error.number,
        error: error.error.try_clone(alloc)?,
        cause: clone_text(alloc, &error.cause)?,
        for_good: error.for_good,
    })
}

impl Point {
    /// A copy. The error is that memory ran out.
    fn try_clone(&self, alloc: Global) -> Result<Point, AllocError>
        ensures { IfOk result (λ p. p ≡ self.now) }
    {
        Ok(Point {
            task: self.task,
            error: error_copied(alloc, &self.error)?,
        })
    }
}

/// The errors of a plan. The error of this call is that memory ran out.
pub(crate) fn errors_of(alloc: Global, plan: &[Point]) -> Result<Vec<InjectedError>, AllocError>
    ensures { IfOk result (λ v. v.items ≡ errors_of plan.now) }
{
    let mut errors = Vec::with_capacity(alloc, plan.len())?;
    for point in plan {
        errors.push(error_copied(alloc, &point.error)?)?;
    }
    Ok(errors)
}

/// Whether two points are errors of one invocation.
fn is_there(one: &Point, other: &Point) -> bool
    ensures { result ≡ is_there one.now other.now }
{
    one.task == other.task && one.error.number == other.error.number
}

/// Whether a point stands before another one: by its Task, and then by the invocation.
fn is_before(one: &Point, other: &Point) -> bool
    ensures { result ≡ is_before one.now other.now }
{
    one.task < other.task || (one.task == other.task && one.error.number < other.error.number)
}

/// The place of the first point of a plan that one stands before.
fn first_behind(plan: &[Point], point: &Point) -> Option<usize>
    ensures { result ≡ position (is_before point.now) plan.now }
{
    plan.iter().position(|one| is_before(point, one))
}

/// The place of a point in a plan.
fn place_in(plan: &[Point], point: &Point) -> usize
    ensures { result ≡ place_in plan.now point.now }
{
    match first_behind(plan, point) {
        Some(place) => place,
        None => plan.len(),
    }
}

/// Whether an invocation has an error in a plan.
fn has_point(plan: &[Point], point: &Point) -> bool
    ensures { result ≡ list_any (is_there point.now) plan.now }
{
    plan.iter().any(|one| is_there(point, one))
}

/// A copy of a plan. The error is that memory ran out.
fn plan_copied(alloc: Global, plan: &[Point]) -> Result<Vec<Point>, AllocError>
    ensures { IfOk result (λ v. v.items ≡ plan.now) }
{
    let mut copied = Vec::with_capacity(alloc, plan.len())?;
    for point in plan {
        copied.push(point.try_clone(alloc)?)?;
    }
    Ok(copied)
}

/// The plan with one error more in its place. The error of this call is that memory ran out.
fn longer_by(alloc: Global, plan: &[Point], point: &Point) -> Result<Vec<Point>, AllocError>
    ensures { IfOk result (λ v. v.items ≡ longer_by plan.now point.now) }
{
    let mut longer = plan_copied(alloc, plan)?;
    longer.insert(place_in(plan, point), point.try_clone(alloc)?)?;
    Ok(longer)
}

/// Adds the plan with one error more, unless the invocation has one. The error of this call is that memory ran out.
fn add_longer(
    alloc: Global,
    plans: &mut Vec<Vec<Point>>,
    plan: &[Point],
    point: &Point,
) -> Result<(), AllocError>
    ensures { OnOk result (plans_in plans.new.items
        ≡ plans_in plans.old.items ++ with_point plan.now point.now) }
{
    if !has_point(plan, point) {
        plans.push(longer_by(alloc, plan, point)?)?;
    }
    Ok(())
}

/// These plans, and this one with one of these errors more, unless the invocation has one. The error of this call is that memory ran out.
pub(crate) fn with_longer(
    alloc: Global,
    plans: Vec<Vec<Point>>,
    plan: &[Point],
    points: &[Point],
) -> Result<Vec<Vec<Point>>, AllocError>
    ensures { IfOk result (λ v. plans_in v.items
        ≡ plans_in plans.items ++ flat_map (with_point plan.now) points.now) }
{
    let mut plans = plans;
    for point in points {
        add_longer(alloc, &mut plans, plan, point)?;
    }
    Ok(plans)
}

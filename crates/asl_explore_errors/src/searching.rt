// All plans of so many errors.
ghost use Rattle.std.specs.Prelude.{◌≡◌, ◌≤◌, ◌+◌, ◌++◌, ◌∷◌, [], ℕ, List, IfOk, if◌then◌else◌};
ghost use Rattle.asl_task_errors.specs.View.{all_told};
ghost use Rattle.asl_explore_errors.specs.declared.points.Point.{Point};
ghost use Rattle.asl_explore_errors.specs.Plans.{has_plan};
ghost use Rattle.asl_explore_errors.specs.Points.{longer, plans_in};
ghost use Rattle.asl_explore_errors.specs.Searches.{AreAllFound, has_room, is_counted, names_in, tasks_failing};
ghost use Rattle.asl_explore_errors.specs.private.Levels.{IsAdded, IsLevel};

use crate::extending::points_of;
use crate::failing::tasks_failing;
use crate::points::{Point, errors_of, with_longer};
use crate::same::has_plan;
use crate::tried::{ErrorSearch, ErrorsFound, Witnesses};
use crate::trying::{Tried, try_plan};
use asl_error_plans::{InjectedError, PlanOutcomes};
use asl_explore::{Calls, Judge, Orders, Watch};
use asl_run_input::Setup;
use std::alloc::{AllocError, Global};

/// What was found, and the plans of one error more.
#[derive(Drop)]
struct Level {
    all: ErrorsFound,
    longer: Vec<Vec<Point>>,
}

/// What was found, and what is found under one plan more. The error is that memory ran out.
fn push(all: ErrorsFound, plan: PlanOutcomes, found: Witnesses) -> Result<ErrorsFound, AllocError>
    ensures plans { IfOk result (λ r. r.plans.items ≡ all.plans.items ++ plan ∷ []) }
    ensures found { IfOk result (λ r. r.found.items ≡ all.found.items ++ found ∷ []) }
{
    let mut all = all;
    all.plans.push(plan)?;
    all.found.push(found)?;
    Ok(all)
}

/// Tries one plan more, and says how often each state is invoked under it, if that is counted. The error is that memory ran out.
fn try_new<W: Watch, J: Judge>(
    alloc: Global,
    search: &ErrorSearch<'_, J>,
    all: ErrorsFound,
    errors: Vec<InjectedError>,
    counted: bool,
    watch: &W,
) -> Result<(ErrorsFound, Vec<Calls>), AllocError>
    ensures { IfOk result (λ r. IsAdded J.accepts search.now.judges.now search.now.orders search.now.limit search.now.setup.now counted
        errors.items all r.0 r.1.items) }
{
    let tried = try_plan(alloc, search, errors, counted, watch)?;
    let Tried { plan, found, calls } = tried;
    let all = push(all, plan, found)?;
    Ok((all, calls))
}

/// Whether one error more may be put in beside those of a plan.
fn has_room(most: u32, plan: &[Point]) -> bool
    ensures { result ≡ has_room most plan.now }
{
    plan.len() < most as usize
}

/// Whether it is counted how often states are invoked: where there is room for one error more, or someone judges.
fn is_counted<J>(judges: &[J], room: bool) -> bool
    ensures { result ≡ is_counted judges.now room }
{
    match judges {
        [] => room,
        [_, ..] => true,
    }
}

/// These plans, and those of one error more than a plan, if there is room for it, at each invocation that was counted. The error is that memory ran out.
fn and_longer<J>(
    alloc: Global,
    search: &ErrorSearch<'_, J>,
    plans: Vec<Vec<Point>>,
    plan: &[Point],
    room: bool,
    calls: &[Calls],
) -> Result<Vec<Vec<Point>>, AllocError>
    ensures { IfOk result (λ v. plans_in v.items ≡ plans_in plans.items ++ (if room
        then longer (all_told search.now.tasks.now) search.now.setup.now.machine calls.now plan.now else [])) }
{
    if !room {
        return Ok(plans);
    }
    let points = points_of(alloc, &search.setup.machine, search.tasks, calls)?;
    with_longer(alloc, plans, plan, &points)
}

/// Tries a plan, unless it was; those of one error more are added. The error is that memory ran out.
fn try_one<W: Watch, J: Judge>(
    alloc: Global,
    search: &ErrorSearch<'_, J>,
    most: u32,
    level: Level,
    plan: &[Point],
    watch: &W,
) -> Result<Level, AllocError>
    ensures { IfOk result (λ r. (number : ℕ) (left : List (List Point)) → number ≤ most
        → IsLevel J.accepts search.now.judges.now most (all_told search.now.tasks.now) search.now.orders search.now.limit search.now.setup.now number
        (plan.now ∷ left) (plans_in level.longer.items) level.all
        → IsLevel J.accepts search.now.judges.now most (all_told search.now.tasks.now) search.now.orders search.now.limit search.now.setup.now number
        left (plans_in r.longer.items) r.all) }
{
    let errors = errors_of(alloc, plan)?;
    if has_plan(&level.all.plans, &errors) {
        return Ok(level);
    }
    let room = has_room(most, plan);
    let counted = is_counted(search.judges, room);
    let Level { all, longer } = level;
    let (all, calls) = try_new(alloc, search, all, errors, counted, watch)?;
    let longer = and_longer(alloc, search, longer, plan, room, &calls)?;
    Ok(Level { all, longer })
}

/// Tries each of these plans, unless it was; those of one error more are left. The error is that memory ran out.
fn try_each<W: Watch, J: Judge>(
    alloc: Global,
    search: &ErrorSearch<'_, J>,
    most: u32,
    all: ErrorsFound,
    plans: &[Vec<Point>],
    watch: &W,
) -> Result<Level, AllocError>
    ensures { IfOk result (λ r. (number : ℕ) → number ≤ most
        → IsLevel J.accepts search.now.judges.now most (all_told search.now.tasks.now) search.now.orders search.now.limit search.now.setup.now number
        (plans_in plans.now) [] all
        → IsLevel J.accepts search.now.judges.now most (all_told search.now.tasks.now) search.now.orders search.now.limit search.now.setup.now (number + 1)
        (plans_in r.longer.items) [] r.all) }
{
    let mut level = Level {
        all,
        longer: Vec::new(alloc),
    };
    for plan in plans {
        level = try_one(alloc, search, most, level, plan, watch)?;
    }
    Ok(level)
}

/// The plan without errors, before any is tried. The error is that memory ran out.
fn begin(alloc: Global) -> Result<Level, AllocError>
    ensures none { IfOk result (λ r. r.all.plans.items ≡ []) }
    ensures found { IfOk result (λ r. r.all.found.items ≡ []) }
    ensures plan { IfOk result (λ r. plans_in r.longer.items ≡ [] ∷ []) }
{
    let mut longer = Vec::new(alloc);
    longer.push(Vec::new(alloc))?;
    Ok(Level {
        all: ErrorsFound {
            plans: Vec::new(alloc),
            found: Vec::new(alloc),
        },
        longer,
    })
}

/// What is found under each plan of at most so many errors: the plan without errors, and each plan that is tried with one error more, at an invocation
/// of a Task that some order under it makes which ends, once or for good. No plan is told twice. The error is that memory ran out.
pub fn explore_errors<W: Watch, J: Judge>(
    alloc: Global,
    search: &ErrorSearch<'_, J>,
    errors: u32,
    watch: &W,
) -> Result<ErrorsFound, AllocError>
    ensures { IfOk result (AreAllFound J.accepts search.now.judges.now errors (all_told search.now.tasks.now) search.now.orders search.now.limit
        search.now.setup.now) }
{
    let mut level = begin(alloc)?;
    for _ in 0..errors {
        let Level { all, longer } = level;
        level = try_each(alloc, search, errors, all, &longer, watch)?;
    }
    let Level { all, longer } = level;
    let Level { all, longer: _ } = try_each(alloc, search, errors, all, &longer, watch)?;
    Ok(all)
}

/// The same of an execution, with each error that the retriers and catchers of its Tasks tell apart, or with those of these names, and judged by these. The
/// error is that memory ran out.
pub fn explore_with_errors<W: Watch, J: Judge>(
    alloc: Global,
    setup: &Setup,
    errors: u32,
    names: &[&str],
    orders: Orders,
    limit: u32,
    judges: &[J],
    watch: &W,
) -> Result<ErrorsFound, AllocError>
    ensures { IfOk result (AreAllFound J.accepts judges.now errors (tasks_failing (names_in names.now) setup.now.machine) orders limit
        setup.now) }
{
    let tasks = tasks_failing(alloc, &setup.machine, names)?;
    let search = ErrorSearch {
        setup,
        tasks: &tasks,
        orders,
        limit,
        judges,
    };
    explore_errors(alloc, &search, errors, watch)
}

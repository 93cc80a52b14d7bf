// One plan in every order.
ghost use Rattle.std.specs.Prelude.{◌≡◌, IfOk};
ghost use Rattle.asl_explore_errors.specs.Searches.{IsFoundUnder};

use crate::ended::texts_of;
use crate::tried::{ErrorSearch, Witnesses};
use crate::under::setup_under;
use asl_error_plans::{InjectedError, PlanOutcomes};
use asl_explore::{Calls, Judge, Judged, Watch, explore_judged};
use std::alloc::{AllocError, Global};
use std::mem;

/// What is found under a plan, and, if that is counted, how often each state is invoked.
#[derive(Drop)]
pub(crate) struct Tried {
    pub(crate) plan: PlanOutcomes,
    pub(crate) found: Witnesses,
    pub(crate) calls: Vec<Calls>,
}

/// Tries the orders of an execution under a plan. The error is that memory ran out.
pub(crate) fn try_plan<W: Watch, J: Judge>(
    alloc: Global,
    search: &ErrorSearch<'_, J>,
    plan: Vec<InjectedError>,
    counted: bool,
    watch: &W,
) -> Result<Tried, AllocError>
    ensures found { IfOk result (λ r. IsFoundUnder J.accepts search.now.judges.now search.now.orders search.now.limit
        search.now.setup.now counted r.plan r.found r.calls.items) }
    ensures plan { IfOk result (λ r. r.plan.plan.items ≡ plan.items) }
{
    let setup = setup_under(alloc, search.setup, &plan)?;
    let (orders, limit, judges) = (search.orders, search.limit, search.judges);
    let judged = explore_judged(alloc, setup, orders, counted, limit, watch, judges)?;
    let Judged { explored, refused } = judged;
    let mut explored = explored;
    let outcomes = texts_of(alloc, &explored.found)?;
    let calls = mem::replace(&mut explored.calls, Vec::new(alloc));
    let list = mem::replace(&mut explored.found, Vec::new(alloc));
    let plan = PlanOutcomes {
        plan,
        outcomes,
        complete: explored.complete,
        endless: explored.endless.is_some(),
    };
    let found = Witnesses { list, refused };
    Ok(Tried { plan, found, calls })
}

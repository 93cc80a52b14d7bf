// Counting how often each state is invoked in the worlds that end an execution.
ghost use Rattle.std.specs.Prelude.{◌≡◌, true, false, IfOk};
ghost use Rattle.asl_explore.specs.declared.orders.Orders.{Orders};
ghost use Rattle.std.specs.List.{All};
ghost use Rattle.asl_run_state.specs.Bare.{bare};
ghost use Rattle.asl_exec.specs.Steps.{step};
ghost use Rattle.asl_exec.specs.Probes.{setup_of};
ghost use Rattle.asl_explore.specs.Searches.{IsReached, worlds_of, outcomes_of, is_beyond};
ghost use Rattle.asl_explore.specs.Calls.{AreEndsCounted, AreKept, AreMetSoFar, ComesInOrders, IsEndCounted};

use crate::calls::{Calls, count_end, no_calls};
use crate::found::Found;
use crate::met::Node;
use crate::orders::Orders;
use crate::search::{bound_in, is_beyond, is_bounded};
use crate::visiting::{enter, turns_in};
use asl_exec::Probe;
use asl_run_branches::Earliest;
use asl_run_input::StepAt;
use asl_run_state::World;
use std::alloc::{AllocError, Global};

/// Takes a step in a world: where it ends the execution, how often each of so many states was invoked is within the bounds of the
/// outcome then, if this is true. The error is that memory ran out.
fn count_step(
    probe: &mut Probe,
    alloc: Global,
    world: &World,
    found: &[Found],
    calls: &mut Vec<Calls>,
    states: usize,
    turn: &Earliest,
) -> Result<bool, AllocError>
    ensures counted { IfOk result (λ b. b ≡ true
        → IsEndCounted states (outcomes_of found.now) calls.new.items
        (step (setup_of probe.old) (bare world.now) turn.now.place turn.now.moment)) }
    ensures keeps { IfOk result (λ b. AreKept calls.old.items calls.new.items) }
    ensures met { (o : Orders) → IfOk result (λ b. ComesInOrders o (setup_of probe.old)
        (step (setup_of probe.old) (bare world.now) turn.now.place turn.now.moment)
        → AreMetSoFar o (setup_of probe.old) (outcomes_of found.now) calls.old.items
        → AreMetSoFar o (setup_of probe.old) (outcomes_of found.now) calls.new.items) }
    ensures setup { setup_of probe.new ≡ setup_of probe.old }
{
    if !enter(probe, alloc, world)? {
        return Ok(false);
    }
    let at = StepAt {
        place: turn.place.try_clone()?,
        moment: turn.moment,
    };
    let _reply = probe.reply(&at)?;
    let next = probe.world();
    if next.is_running() {
        return Ok(true);
    }
    Ok(count_end(found, calls, states, next))
}

/// The same, unless the step is later than is tried.
fn count_turn(
    probe: &mut Probe,
    alloc: Global,
    world: &World,
    found: &[Found],
    calls: &mut Vec<Calls>,
    states: usize,
    turn: &Earliest,
    beyond: bool,
) -> Result<bool, AllocError>
    ensures counted { IfOk result (λ b. b ≡ true → beyond ≡ false
        → IsEndCounted states (outcomes_of found.now) calls.new.items
        (step (setup_of probe.old) (bare world.now) turn.now.place turn.now.moment)) }
    ensures keeps { IfOk result (λ b. AreKept calls.old.items calls.new.items) }
    ensures met { (o : Orders) → IfOk result (λ b. (beyond ≡ false
        → ComesInOrders o (setup_of probe.old)
        (step (setup_of probe.old) (bare world.now) turn.now.place turn.now.moment))
        → AreMetSoFar o (setup_of probe.old) (outcomes_of found.now) calls.old.items
        → AreMetSoFar o (setup_of probe.old) (outcomes_of found.now) calls.new.items) }
    ensures setup { setup_of probe.new ≡ setup_of probe.old }
{
    if beyond {
        return Ok(true);
    }
    count_step(probe, alloc, world, found, calls, states, turn)
}

/// Takes a step of each branch in a world that was met: whichever branch steps of those that are tried, where it ends the execution, how
/// often each of so many states was invoked is within the bounds of the outcome then, if this is true. The error is that memory ran out.
fn count_ends(
    probe: &mut Probe,
    alloc: Global,
    orders: Orders,
    world: &World,
    found: &[Found],
    calls: &mut Vec<Calls>,
    states: usize,
) -> Result<bool, AllocError>
    ensures counted { IfOk result (λ b. b ≡ true
        → AreEndsCounted orders (setup_of probe.old) states (outcomes_of found.now)
        calls.new.items (bare world.now)) }
    ensures keeps { IfOk result (λ b. AreKept calls.old.items calls.new.items) }
    ensures met { IfOk result (λ b. IsReached orders (setup_of probe.old) (bare world.now)
        → AreMetSoFar orders (setup_of probe.old) (outcomes_of found.now) calls.old.items
        → AreMetSoFar orders (setup_of probe.old) (outcomes_of found.now) calls.new.items) }
    ensures setup { setup_of probe.new ≡ setup_of probe.old }
{
    let Some(turns) = turns_in(alloc, world)? else {
        return Ok(false);
    };
    let bound = bound_in(probe, alloc, orders, world, &turns)?;
    if !is_bounded(orders, &bound) {
        return Ok(false);
    }
    let mut whole = true;
    for turn in &turns {
        let beyond = is_beyond(&bound, turn.moment);
        let is_counted = count_turn(probe, alloc, world, found, calls, states, turn, beyond)?;
        whole = whole && is_counted;
    }
    Ok(whole)
}

/// How often each of so many states is invoked, by outcomes.
#[derive(Drop)]
pub(crate) struct Counted {
    pub(crate) calls: Vec<Calls>,
    /// Whether it is so in each world that was met.
    pub(crate) whole: bool,
}

/// How often each of so many states is invoked in the orders that end in each outcome, by the worlds that were met. The error is that
/// memory ran out.
pub(crate) fn count_calls(
    probe: &mut Probe,
    alloc: Global,
    orders: Orders,
    nodes: &[Node],
    found: &[Found],
    states: usize,
) -> Result<Counted, AllocError>
    ensures counted { IfOk result (λ c. c.whole ≡ true
        → All (AreEndsCounted orders (setup_of probe.old) states (outcomes_of found.now)
        c.calls.items) (worlds_of nodes.now)) }
    ensures met { IfOk result (λ c.
        All (IsReached orders (setup_of probe.old)) (worlds_of nodes.now)
        → AreMetSoFar orders (setup_of probe.old) (outcomes_of found.now) c.calls.items) }
    ensures setup { setup_of probe.new ≡ setup_of probe.old }
{
    let mut calls = no_calls(alloc, found.len(), states)?;
    let mut whole = true;
    for node in nodes {
        let is_counted = count_ends(probe, alloc, orders, &node.world, found, &mut calls, states)?;
        whole = whole && is_counted;
    }
    Ok(Counted { calls, whole })
}

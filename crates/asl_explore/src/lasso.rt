// Trying an order that never ends.
ghost use Rattle.std.specs.Prelude.{◌≡◌, true, IfOk};
ghost use Rattle.asl_exec.specs.Probes.{setup_of, world_of};
ghost use Rattle.asl_explore.specs.Endless.{AreTaken, IsLasso};
ghost use Rattle.asl_explore.specs.Orders.{due, places_of, IsTried, MayStep, after_bare, go};

use crate::endless::Lasso;
use crate::order::{chance, is_tried};
use crate::orders::Orders;
use crate::visiting::enter;
use asl_exec::Probe;
use asl_run_input::StepAt;
use std::alloc::{AllocError, Global};

/// Takes a step, and forgets the history, if this is true: the step may be taken, is one that is tried, and comes at the earliest moment.
/// The error is that memory ran out.
fn go_on(probe: &mut Probe, alloc: Global, orders: Orders, at: &StepAt) -> Result<bool, AllocError>
    ensures may { IfOk result (λ b. b ≡ true
        → MayStep (setup_of probe.old) (world_of probe.old) at.now.place
        × (due (world_of probe.old) at.now.place ≡ at.now.moment)) }
    ensures tried { IfOk result (λ b. b ≡ true
        → IsTried orders (setup_of probe.old) (world_of probe.old) at.now.place) }
    ensures world { IfOk result (λ b. b ≡ true → world_of probe.new
        ≡ go (setup_of probe.old) (world_of probe.old) at.now.place) }
    ensures setup { setup_of probe.new ≡ setup_of probe.old }
{
    let Some(moment) = chance(probe, &at.place) else {
        return Ok(false);
    };
    if moment.millis() != at.moment.millis() {
        return Ok(false);
    }
    if !is_tried(probe, alloc, orders, &at.place)? {
        return Ok(false);
    }
    let _reply = probe.reply(at)?;
    let Some(world) = probe.world().bare_copy(alloc)? else {
        return Ok(false);
    };
    probe.enter(world);
    Ok(true)
}

/// Takes steps one after another, and forgets the history, if this is true. The error is that memory ran out.
fn walk(
    probe: &mut Probe,
    alloc: Global,
    orders: Orders,
    steps: &[StepAt],
) -> Result<bool, AllocError>
    ensures taken { IfOk result (λ b. b ≡ true
        → AreTaken orders (setup_of probe.old) (world_of probe.old) steps.now) }
    ensures world { IfOk result (λ b. b ≡ true → world_of probe.new
        ≡ after_bare (setup_of probe.old) (world_of probe.old) (places_of steps.now)) }
    ensures setup { setup_of probe.new ≡ setup_of probe.old }
{
    for at in steps {
        if !go_on(probe, alloc, orders, at)? {
            return Ok(false);
        }
    }
    Ok(true)
}

/// Whether these steps lead to a world that runs, and the others from there back to it, but for its history. The error is that memory ran
/// out.
pub(crate) fn is_lasso(
    probe: &mut Probe,
    alloc: Global,
    orders: Orders,
    lasso: &Lasso,
) -> Result<bool, AllocError>
    ensures lasso { IfOk result (λ b. b ≡ true → IsLasso orders (setup_of probe.old) lasso.now) }
    ensures setup { setup_of probe.new ≡ setup_of probe.old }
{
    if lasso.round.is_empty() {
        return Ok(false);
    }
    let opening = probe.opening()?;
    if !enter(probe, alloc, &opening)? {
        return Ok(false);
    }
    if !walk(probe, alloc, orders, &lasso.stem)? {
        return Ok(false);
    }
    if !probe.world().is_running() {
        return Ok(false);
    }
    let Some(turning) = probe.world().bare_copy(alloc)? else {
        return Ok(false);
    };
    if !walk(probe, alloc, orders, &lasso.round)? {
        return Ok(false);
    }
    Ok(probe.world().is_alike(&turning))
}

// One step of a search.
ghost use Rattle.std.specs.Prelude.{◌≡◌, ◌<◌, List, [], true, false, length, slice_index_or, is_some, None, IfOk, IfSome};
ghost use Rattle.std.specs.List.{All, Contains};
ghost use Rattle.asl_run_branches.specs.Branches.{record_at};
ghost use Rattle.asl_run_state.specs.Bare.{bare, earliest};
ghost use Rattle.asl_run_state.specs.World.{World, is_over};
ghost use Rattle.asl_run_state.specs.declared.outcome.Outcome.{Outcome};
ghost use Rattle.asl_exec.specs.Steps.{refusal_in, step};
ghost use Rattle.asl_exec.specs.Probes.{setup_of, world_of};
ghost use Rattle.asl_explore.specs.declared.orders.Orders.{Orders};
ghost use Rattle.asl_explore.specs.Searches.{IsMet, IsReached, worlds_of, outcomes_of, Shows, AreDistinct, IsLater};

use crate::found::Found;
use crate::met::{Met, Node};
use crate::order::{path, replay};
use crate::orders::Orders;
use crate::outcomes::Outcomes;
use asl_exec::Probe;
use asl_history::Place;
use asl_run_branches::Earliest;
use asl_run_input::StepAt;
use asl_run_state::{Outcome, World};
use std::alloc::{AllocError, Global};

/// Each branch of a world that runs, with the earliest moment at which it may step; none where the world is over. The error is that
/// memory ran out.
pub(crate) fn turns_in(alloc: Global, world: &World) -> Result<Option<Vec<Earliest>>, AllocError>
    ensures runs { IfOk result (λ o. IfSome o (λ v. is_over world.now.outcome ≡ false)) }
    ensures root { IfOk result
        (λ o. IfSome o (λ v. is_some (record_at [] world.now.branches) ≡ true)) }
    ensures turns { IfOk result
        (λ o. IfSome o (λ v. v.items ≡ earliest world.now.last world.now.branches)) }
{
    if !world.is_running() {
        return Ok(None);
    }
    if world.frame_at(&Place::root()).is_none() {
        return Ok(None);
    }
    let mut turns = Vec::new(alloc);
    world.put_earliest(&mut turns)?;
    Ok(Some(turns))
}

/// Goes on from a world, without its history, if this is true. The error is that memory ran out.
pub(crate) fn enter(probe: &mut Probe, alloc: Global, world: &World) -> Result<bool, AllocError>
    ensures world { IfOk result (λ b. b ≡ true → world_of probe.new ≡ bare world.now) }
    ensures setup { setup_of probe.new ≡ setup_of probe.old }
{
    match world.bare_copy(alloc)? {
        Some(copy) => {
            probe.enter(copy);
            Ok(true)
        }
        None => Ok(false),
    }
}

/// Puts an outcome that wasn't found behind those that were, with steps that led to it, if this is true: unless a run of these steps ends
/// otherwise, or one of them isn't tried. The error is that memory ran out.
pub(crate) fn put_found(
    probe: &mut Probe,
    alloc: Global,
    orders: Orders,
    found: &mut Outcomes,
    outcome: &Outcome,
    steps: Vec<StepAt>,
) -> Result<bool, AllocError>
    requires over { is_over outcome.now ≡ true }
    requires new { All (λ (o : Outcome). o ≡ outcome.now → ⊥) (outcomes_of found.old.list.items) }
    ensures met { IfOk result
        (λ b. b ≡ true → Contains (outcomes_of found.new.list.items) outcome.now) }
    ensures later { (ws : List World)
        → IsLater ws (outcomes_of found.old.list.items) ws (outcomes_of found.new.list.items) }
    ensures shown { All (Shows orders (setup_of probe.old)) found.old.list.items
        → All (Shows orders (setup_of probe.old)) found.new.list.items }
    ensures once { AreDistinct (outcomes_of found.old.list.items)
        → AreDistinct (outcomes_of found.new.list.items) }
    ensures setup { setup_of probe.new ≡ setup_of probe.old }
{
    if !replay(probe, alloc, orders, &steps)? {
        return Ok(false);
    }
    if probe.outcome() != outcome {
        return Ok(false);
    }
    let outcome = outcome.try_clone(alloc)?;
    found.push(alloc, Found { outcome, steps })?;
    Ok(true)
}

/// An outcome is among those that were found, if this is true: put there if it wasn't, with the steps that led to it, unless a run of
/// these steps ends otherwise. The error is that memory ran out.
fn conclude(
    probe: &mut Probe,
    alloc: Global,
    orders: Orders,
    nodes: &[Node],
    found: &mut Outcomes,
    outcome: &Outcome,
    parent: usize,
    at: StepAt,
) -> Result<bool, AllocError>
    requires { is_over outcome.now ≡ true }
    ensures met { IfOk result
        (λ b. b ≡ true → Contains (outcomes_of found.new.list.items) outcome.now) }
    ensures later { (ws : List World)
        → IsLater ws (outcomes_of found.old.list.items) ws (outcomes_of found.new.list.items) }
    ensures shown { All (Shows orders (setup_of probe.old)) found.old.list.items
        → All (Shows orders (setup_of probe.old)) found.new.list.items }
    ensures once { AreDistinct (outcomes_of found.old.list.items)
        → AreDistinct (outcomes_of found.new.list.items) }
    ensures setup { setup_of probe.new ≡ setup_of probe.old }
{
    if found.has(alloc, outcome)? {
        return Ok(true);
    }
    let steps = path(alloc, nodes, parent, at)?;
    put_found(probe, alloc, orders, found, outcome, steps)
}

/// Takes a step in a world that was met: the world that it leads to is met then, if this is true. The error is that memory ran out.
pub(crate) fn visit(
    probe: &mut Probe,
    alloc: Global,
    orders: Orders,
    met: &mut Met,
    found: &mut Outcomes,
    number: usize,
    at: StepAt,
) -> Result<bool, AllocError>
    requires there { number < length met.old.nodes.items }
    requires runs { (d : World)
        → is_over (slice_index_or (worlds_of met.old.nodes.items) number d).outcome ≡ false }
    ensures met { IfOk result (λ b. b ≡ true → (d : World)
        → IsMet (worlds_of met.new.nodes.items) (outcomes_of found.new.list.items)
        (step (setup_of probe.old) (slice_index_or (worlds_of met.old.nodes.items) number d)
        at.place at.moment)) }
    ensures reached { (o : Orders) → IfOk result (λ b.
        All (IsReached o (setup_of probe.old)) (worlds_of met.old.nodes.items)
        → ((d : World) → refusal_in (setup_of probe.old)
        (slice_index_or (worlds_of met.old.nodes.items) number d) at.place at.moment ≡ None
        → IsReached o (setup_of probe.old) (bare (step (setup_of probe.old)
        (slice_index_or (worlds_of met.old.nodes.items) number d) at.place at.moment)))
        → All (IsReached o (setup_of probe.old)) (worlds_of met.new.nodes.items)) }
    ensures later { IsLater (worlds_of met.old.nodes.items) (outcomes_of found.old.list.items)
        (worlds_of met.new.nodes.items) (outcomes_of found.new.list.items) }
    ensures shown { All (Shows orders (setup_of probe.old)) found.old.list.items
        → All (Shows orders (setup_of probe.old)) found.new.list.items }
    ensures once { AreDistinct (outcomes_of found.old.list.items)
        → AreDistinct (outcomes_of found.new.list.items) }
    ensures setup { setup_of probe.new ≡ setup_of probe.old }
{
    let node = &met.nodes[number];
    if !enter(probe, alloc, &node.world)? {
        return Ok(false);
    }
    if probe.reply(&at)?.is_some() {
        return Ok(true);
    }
    let Some(next) = probe.world().bare_copy(alloc)? else {
        return Ok(false);
    };
    if next.is_running() {
        let _index = met.put(alloc, next, number, at)?;
        return Ok(true);
    }
    conclude(
        probe,
        alloc,
        orders,
        &met.nodes,
        found,
        next.outcome(),
        number,
        at,
    )
}

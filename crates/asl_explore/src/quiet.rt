// Steps that need no other one of the same world.
ghost use Rattle.std.specs.Prelude.{◌≡◌, ◌<◌, List, Some, length, get_or, true, IfOk};
ghost use Rattle.std.specs.List.{All};
ghost use Rattle.asl_step.specs.declared.record.Record.{Record};
ghost use Rattle.asl_run_branches.specs.Branches.{record_at};
ghost use Rattle.asl_run_state.specs.World.{World};
ghost use Rattle.asl_run_state.specs.declared.outcome.Outcome.{Outcome};
ghost use Rattle.asl_exec.specs.Steps.{step};
ghost use Rattle.asl_exec.specs.Exchanges.{has_failed};
ghost use Rattle.asl_exec.specs.Probes.{setup_of, world_of};
ghost use Rattle.asl_explore.specs.Settled.{AreSettledFrom};
ghost use Rattle.asl_explore.specs.Searches.{IsCalm, IsQuietAt, IsReached, IsReduced, IsLater, worlds_of};
ghost use Rattle.asl_explore.specs.declared.orders.Orders.TheVariants.{Prompt};

use crate::met::Met;
use crate::settling::Settling;
use crate::visiting::{enter, turns_in};
use asl_exec::{Probe, invokes_in, state_of};
use asl_history::Place;
use asl_run_branches::Earliest;
use asl_run_input::StepAt;
use asl_step::Record;
use std::alloc::{AllocError, Global};

/// Whether a step of a branch that is doing this invokes no service, or a Task that is settled.
fn is_calm(probe: &Probe, settling: &Settling, current: &Record) -> bool
    requires { AreSettledFrom (setup_of probe.now) settling.now.from.items }
    ensures { result ≡ true
        → IsCalm (setup_of probe.now) (world_of probe.now) current.now }
{
    let (number, state) = state_of(&probe.setup().machine, current);
    if !invokes_in(state) {
        return true;
    }
    match number {
        Some(number) => settling.is_settled(number, probe.world().count(Some(number))),
        None => false,
    }
}

/// The same of the branch at a place, where there is one.
fn is_calm_at(probe: &Probe, settling: &Settling, place: &Place) -> bool
    requires { AreSettledFrom (setup_of probe.now) settling.now.from.items }
    ensures { result ≡ true → (r : Record)
        → record_at place.now (world_of probe.now).branches ≡ Some r
        → IsCalm (setup_of probe.now) (world_of probe.now) r }
{
    match probe.view(place) {
        Some(current) => is_calm(probe, settling, current),
        None => true,
    }
}

/// Whether the branch at a place has failed.
fn has_failed(probe: &Probe, place: &Place) -> bool
    ensures { result ≡ has_failed (record_at place.now (world_of probe.now).branches) }
{
    match probe.view(place) {
        Some(current) => current.is_failed(),
        None => false,
    }
}

/// Takes a step, if it may be taken at once and invokes nothing or a Task that is settled, and whether then the execution runs on and the
/// branch hasn't failed. The error is that memory ran out.
fn step_quietly(probe: &mut Probe, settling: &Settling, at: &StepAt) -> Result<bool, AllocError>
    requires { AreSettledFrom (setup_of probe.old) settling.now.from.items }
    ensures quiet { IfOk result (λ b. b ≡ true
        → IsQuietAt (setup_of probe.old) (world_of probe.old) at.now.place) }
    ensures world { IfOk result (λ b. b ≡ true → world_of probe.new
        ≡ step (setup_of probe.old) (world_of probe.old) at.now.place
        (world_of probe.old).last) }
    ensures setup { setup_of probe.new ≡ setup_of probe.old }
{
    if probe.world().last().millis() != at.moment.millis() {
        return Ok(false);
    }
    if !is_calm_at(probe, settling, &at.place) {
        return Ok(false);
    }
    if probe.reply(at)?.is_some() {
        return Ok(false);
    }
    if !probe.world().is_running() {
        return Ok(false);
    }
    Ok(!has_failed(probe, &at.place))
}

/// Takes a step of a branch in a world that was met: no other has to be taken there, if this is true. The error is that memory ran out.
fn take_quietly(
    probe: &mut Probe,
    alloc: Global,
    settling: &Settling,
    met: &mut Met,
    number: usize,
    turn: &Earliest,
) -> Result<bool, AllocError>
    requires there { number < length met.old.nodes.items }
    requires settled { AreSettledFrom (setup_of probe.old) settling.now.from.items }
    ensures reduced { IfOk result (λ b. b ≡ true → (d : World)
        → IsReduced (setup_of probe.old) (worlds_of met.new.nodes.items) number
        (get_or (worlds_of met.new.nodes.items) number d)) }
    ensures reached { IfOk result (λ b.
        All (IsReached Prompt (setup_of probe.old)) (worlds_of met.old.nodes.items)
        → All (IsReached Prompt (setup_of probe.old)) (worlds_of met.new.nodes.items)) }
    ensures later { (os : List Outcome)
        → IsLater (worlds_of met.old.nodes.items) os (worlds_of met.new.nodes.items) os }
    ensures setup { setup_of probe.new ≡ setup_of probe.old }
{
    let at = StepAt {
        place: turn.place.try_clone()?,
        moment: turn.moment,
    };
    let node = &met.nodes[number];
    if !enter(probe, alloc, &node.world)? {
        return Ok(false);
    }
    if !step_quietly(probe, settling, &at)? {
        return Ok(false);
    }
    let Some(next) = probe.world().bare_copy(alloc)? else {
        return Ok(false);
    };
    let index = met.put(alloc, next, number, at)?;
    Ok(number < index)
}

/// Takes a quiet step in a world that was met, which leads to a world that was met later: no other has to be taken there, if this is true.
/// The error is that memory ran out.
pub(crate) fn quietly(
    probe: &mut Probe,
    alloc: Global,
    settling: &Settling,
    met: &mut Met,
    number: usize,
) -> Result<bool, AllocError>
    requires there { number < length met.old.nodes.items }
    requires settled { AreSettledFrom (setup_of probe.old) settling.now.from.items }
    ensures reduced { IfOk result (λ b. b ≡ true → (d : World)
        → IsReduced (setup_of probe.old) (worlds_of met.new.nodes.items) number
        (get_or (worlds_of met.new.nodes.items) number d)) }
    ensures reached { IfOk result (λ b.
        All (IsReached Prompt (setup_of probe.old)) (worlds_of met.old.nodes.items)
        → All (IsReached Prompt (setup_of probe.old)) (worlds_of met.new.nodes.items)) }
    ensures later { (os : List Outcome)
        → IsLater (worlds_of met.old.nodes.items) os (worlds_of met.new.nodes.items) os }
    ensures setup { setup_of probe.new ≡ setup_of probe.old }
{
    let Some(turns) = turns_in(alloc, &met.nodes[number].world)? else {
        return Ok(false);
    };
    for index in 0..turns.len() {
        let turn = &turns[index];
        if take_quietly(probe, alloc, settling, met, number, turn)? {
            return Ok(true);
        }
    }
    Ok(false)
}

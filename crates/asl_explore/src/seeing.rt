// What the branches of a world do next that is remarkable.
ghost use Rattle.std.specs.Prelude.{◌≡◌, ◌&&◌, ℕ, true, false, not, length, is_some, is_none, IfOk};
ghost use Rattle.asl_step.specs.Records.{entering_with, beginning_with};
ghost use Rattle.asl_run_branches.specs.Branches.{record_at, is_stopped};
ghost use Rattle.asl_run_state.specs.Bare.{earliest};
ghost use Rattle.asl_exec.specs.Probes.{setup_of, world_of};
ghost use Rattle.asl_explore.specs.declared.orders.Orders.{Orders};
ghost use Rattle.asl_explore.specs.Remarks.{goes_next, is_inside};
ghost use Rattle.asl_explore.specs.private.Seeing.{AreLooks, IsBoundOf, IsLook};

use crate::order::{due, soonest};
use crate::orders::Orders;
use crate::search::is_beyond;
use asl_exec::{Probe, invokes_in, state_of};
use asl_history::Place;
use asl_run_branches::Earliest;
use asl_step::Record;
use asl_time::Moment;
use std::alloc::{AllocError, Global};

/// What a branch does next in its state.
#[derive(Clone, Copy)]
pub(crate) struct Look {
    /// The state's number.
    pub(crate) number: usize,
    /// It enters the state.
    pub(crate) enters: bool,
    /// It asks for an answer to the state, a Task.
    pub(crate) asks: bool,
    /// It is stopped inside the state.
    pub(crate) stops: bool,
}

/// Whether both are so.
fn both(one: bool, other: bool) -> bool
    ensures { result ≡ (one && other) }
{
    one && other
}

/// Whether a branch that does this is about to enter its state.
fn is_entering(current: &Record) -> bool
    ensures { result ≡ is_some (entering_with current.now) }
{
    current.entering().is_some()
}

/// Whether a branch that does this is about to enter its state, or to be retried.
fn is_beginning(current: &Record) -> bool
    ensures { result ≡ is_some (beginning_with current.now) }
{
    current.beginning().is_some()
}

/// Whether a branch that does this has entered its state, and hasn't left it.
fn is_inside(current: &Record) -> bool
    ensures { result ≡ is_inside current.now }
{
    match current {
        Record::Pausing { .. } | Record::Again { .. } | Record::Forked { .. } => true,
        _ => false,
    }
}

/// Whether a branch that is there is stopped: whatever it waits for, it never steps again.
fn is_stopped(probe: &Probe, place: &Place) -> bool
    ensures { is_some (record_at place.now (world_of probe.now).branches) ≡ true
        → result ≡ is_stopped place.now (world_of probe.now).branches }
{
    match probe.world().root().standing(place) {
        Some(standing) => standing.stopped,
        None => false,
    }
}

/// The moment behind which no branch steps that is tried; none where each is.
pub(crate) fn bound_of(probe: &Probe, orders: Orders, turns: &[Earliest]) -> Option<Moment>
    ensures { turns.now
        ≡ earliest (world_of probe.now).last (world_of probe.now).branches
        → IsBoundOf orders (setup_of probe.now) (world_of probe.now) result }
{
    match orders {
        Orders::Every => None,
        Orders::Prompt => soonest(probe, turns),
    }
}

/// Whether the step of the branch at a place is tried, and the time of the execution isn't over then.
fn goes_next(probe: &Probe, bound: &Option<Moment>, place: &Place) -> bool
    ensures { (o : Orders)
        → IsBoundOf o (setup_of probe.now) (world_of probe.now) bound.now
        → result ≡ goes_next o (setup_of probe.now) (world_of probe.now) place.now }
{
    let moment = due(probe, place);
    if is_beyond(bound, moment) {
        return false;
    }
    if probe.refusal(place, moment).is_some() {
        return false;
    }
    !probe.world().is_late(moment)
}

/// What the branch at a place does next in its state; none where it has ended.
fn look_at(probe: &Probe, bound: &Option<Moment>, place: &Place) -> Option<Look>
    ensures { (o : Orders)
        → IsBoundOf o (setup_of probe.now) (world_of probe.now) bound.now
        → IsLook o (setup_of probe.now) (world_of probe.now) place.now result }
{
    let current = probe.view(place)?;
    let (number, state) = state_of(&probe.setup().machine, current);
    let number = number?;
    let goes = goes_next(probe, bound, place);
    let begins = both(is_beginning(current), invokes_in(state));
    let enters = both(goes, is_entering(current));
    let asks = both(goes, begins);
    let stops = both(is_stopped(probe, place), is_inside(current));
    Some(Look {
        number,
        enters,
        asks,
        stops,
    })
}

/// What each branch of a world does next. The error is that memory ran out.
pub(crate) fn looks_in(
    probe: &Probe,
    alloc: Global,
    bound: &Option<Moment>,
    turns: &[Earliest],
) -> Result<Vec<Option<Look>>, AllocError>
    ensures looks { (o : Orders) → turns.now
        ≡ earliest (world_of probe.now).last (world_of probe.now).branches
        → IsBoundOf o (setup_of probe.now) (world_of probe.now) bound.now
        → IfOk result
        (λ v. AreLooks o (setup_of probe.now) (world_of probe.now) v.items) }
    ensures many { IfOk result (λ v. length v.items ≡ length turns.now) }
{
    let mut looks = Vec::new(alloc);
    for turn in turns {
        looks.push(look_at(probe, bound, &turn.place))?;
    }
    Ok(looks)
}

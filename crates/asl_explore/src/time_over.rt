// The outcome of an execution whose time is over since a step comes late.
ghost use Rattle.std.specs.Prelude.{◌≡◌, List, Some, IsSome, is_none, true, IfOk, IfSome};
ghost use Rattle.std.specs.List.{All, Contains};
ghost use Rattle.asl_run_state.specs.World.{World};
ghost use Rattle.asl_run_state.specs.declared.outcome.Outcome.TheVariants.{TimedOut};
ghost use Rattle.asl_exec.specs.Steps.{deadline_of};
ghost use Rattle.asl_exec.specs.Probes.{setup_of};
ghost use Rattle.asl_explore.specs.declared.orders.Orders.TheVariants.{Every};
ghost use Rattle.asl_explore.specs.Searches.{outcomes_of, AreDistinct, IsLater, Shows};
ghost use Rattle.asl_explore.specs.TimeOver.{IsWitnessed, RunsOut};

use crate::found::Found;
use crate::orders::Orders;
use crate::outcomes::Outcomes;
use asl_exec::{Probe, deadline_of};
use asl_history::Place;
use asl_run_input::{Setup, StepAt};
use asl_run_state::Outcome;
use asl_time::Moment;
use std::alloc::{AllocError, Global};

/// A step of the branch at a place at the start, and one of the root at the deadline; none where these don't end as the time is over. The
/// error is that memory ran out.
fn run_late(
    probe: &mut Probe,
    alloc: Global,
    place: Place,
    deadline: Moment,
) -> Result<Option<Found>, AllocError>
    ensures late { deadline_of (setup_of probe.old) ≡ Some deadline
        → IfOk result (λ o. IfSome o (RunsOut (setup_of probe.old))) }
    ensures outcome { IfOk result (λ o. IfSome o (λ f. f.outcome ≡ TimedOut)) }
    ensures setup { setup_of probe.new ≡ setup_of probe.old }
{
    let world = probe.opening()?;
    probe.enter(world);
    let first = StepAt {
        place,
        moment: probe.setup().start,
    };
    let last = StepAt {
        place: Place::root(),
        moment: deadline,
    };
    let _first = probe.reply(&first)?;
    let _last = probe.reply(&last)?;
    if *probe.outcome() != Outcome::TimedOut {
        return Ok(None);
    }
    let steps = Vec::from_array(alloc, [first, last])?;
    Ok(Some(Found {
        outcome: Outcome::TimedOut,
        steps,
    }))
}

/// The same. A step of the root comes first; where this ends the execution, one of a branch that isn't there, which is refused.
fn late_found(
    probe: &mut Probe,
    alloc: Global,
    deadline: Moment,
) -> Result<Option<Found>, AllocError>
    ensures late { deadline_of (setup_of probe.old) ≡ Some deadline
        → IfOk result (λ o. IfSome o (RunsOut (setup_of probe.old))) }
    ensures outcome { IfOk result (λ o. IfSome o (λ f. f.outcome ≡ TimedOut)) }
    ensures setup { setup_of probe.new ≡ setup_of probe.old }
{
    if let Some(found) = run_late(probe, alloc, Place::root(), deadline)? {
        return Ok(Some(found));
    }
    let nowhere = Place::root().child(alloc, 0)?;
    run_late(probe, alloc, nowhere, deadline)
}

/// Puts the outcome of a late step behind those that were found, where branches may be late, the execution has a time limit and it isn't
/// there: it is among them then, if this is true. The error is that memory ran out.
pub(crate) fn put_time_over(
    probe: &mut Probe,
    alloc: Global,
    orders: Orders,
    found: &mut Outcomes,
) -> Result<bool, AllocError>
    ensures there { IfOk result (λ b. b ≡ true → orders ≡ Every
        → IsSome (deadline_of (setup_of probe.old)) → Contains (outcomes_of found.new.list.items) TimedOut) }
    ensures later { (ws : List World)
        → IsLater ws (outcomes_of found.old.list.items) ws (outcomes_of found.new.list.items) }
    ensures shown { All (Shows orders (setup_of probe.old)) found.old.list.items
        → All (IsWitnessed orders (setup_of probe.old)) found.new.list.items }
    ensures once { AreDistinct (outcomes_of found.old.list.items)
        → AreDistinct (outcomes_of found.new.list.items) }
    ensures setup { setup_of probe.new ≡ setup_of probe.old }
{
    let Some(deadline) = late_from(probe.setup(), orders) else {
        return Ok(true);
    };
    if found.has(alloc, &Outcome::TimedOut)? {
        return Ok(true);
    }
    let Some(late) = late_found(probe, alloc, deadline)? else {
        return Ok(false);
    };
    found.push(alloc, late)?;
    Ok(true)
}

/// From when on a step of an execution comes too late, where it has a time limit and branches may be late.
fn late_from(setup: &Setup, orders: Orders) -> Option<Moment>
    ensures some { IfSome result (λ m. (orders ≡ Every) × (deadline_of setup.now ≡ Some m)) }
    ensures none { is_none result ≡ true → orders ≡ Every → IsSome (deadline_of setup.now) → ⊥ }
{
    match orders {
        Orders::Every => deadline_of(setup),
        Orders::Prompt => None,
    }
}

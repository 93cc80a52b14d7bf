// Some whole orders, each by a way of its own to pick the branch that steps: what a search that was cut finds besides.
ghost use Rattle.std.specs.Prelude.{◌≡◌, List, true, IfOk, IfSome};
ghost use Rattle.std.specs.List.{All};
ghost use Rattle.asl_run_state.specs.World.{World, is_over};
ghost use Rattle.asl_exec.specs.Probes.{setup_of};
ghost use Rattle.asl_explore.specs.Searches.{outcomes_of, AreDistinct, IsLater, Shows};

use crate::order::{chance, soonest};
use crate::orders::Orders;
use crate::outcomes::Outcomes;
use crate::visiting::{put_found, turns_in};
use asl_exec::Probe;
use asl_run_input::StepAt;
use asl_run_state::Outcome;
use asl_time::Moment;
use std::alloc::{AllocError, Global};

/// So many orders are taken at most.
const MOST_ORDERS: u64 = 64;

/// An order has at most so many steps.
const MOST_STEPS: usize = 10_000;

/// Which of the branches that may step does so.
#[derive(Clone, Copy)]
enum Pick {
    /// The first in the order of places.
    First,
    /// The last.
    Last,
    /// One that is drawn, by these bits.
    Drawn(u64),
}

impl Pick {
    /// That of the order of this number.
    fn of(number: u64) -> Pick {
        match number {
            0 => Pick::First,
            1 => Pick::Last,
            _ => Pick::Drawn(number).next(),
        }
    }

    /// That of the step behind. (Knuth's linear congruential generator MMIX.)
    fn next(self) -> Pick {
        match self {
            Pick::Drawn(bits) => Pick::Drawn(
                bits.wrapping_mul(6_364_136_223_846_793_005)
                    .wrapping_add(1_442_695_040_888_963_407),
            ),
            other => other,
        }
    }

    /// The number of the branch, of so many.
    fn among(self, count: usize) -> usize {
        match self {
            Pick::First => 0,
            Pick::Last => count.saturating_sub(1),
            Pick::Drawn(bits) => (bits >> 33).checked_rem(count as u64).unwrap_or(0) as usize,
        }
    }
}

/// Whether a step at this moment is one that is tried, where no branch may step before that one.
fn is_wanted(orders: Orders, least: &Option<Moment>, moment: Moment) -> bool {
    match (orders, least) {
        (Orders::Prompt, Some(least)) => moment.millis() <= least.millis(),
        _ => true,
    }
}

/// The steps that may be taken next. The error is that memory ran out, here and below.
fn open_steps(probe: &Probe, alloc: Global, orders: Orders) -> Result<Vec<StepAt>, AllocError> {
    let mut steps = Vec::new(alloc);
    let Some(turns) = turns_in(alloc, probe.world())? else {
        return Ok(steps);
    };
    let least = soonest(probe, &turns);
    for turn in &turns {
        let Some(moment) = chance(probe, &turn.place) else {
            continue;
        };
        if is_wanted(orders, &least, moment) {
            let place = turn.place.try_clone()?;
            steps.push(StepAt { place, moment })?;
        }
    }
    Ok(steps)
}

/// Takes steps from the beginning, at most so many: each is that of the branch that is picked.
fn take_picked(
    probe: &mut Probe,
    alloc: Global,
    orders: Orders,
    pick: Pick,
    most: usize,
) -> Result<Vec<StepAt>, AllocError>
    ensures setup { setup_of probe.new ≡ setup_of probe.old }
{
    let world = probe.opening()?;
    probe.enter(world);
    let mut taken = Vec::new(alloc);
    let mut pick = pick;
    for _ in 0..most {
        let open = open_steps(probe, alloc, orders)?;
        let Some(at) = open.get(pick.among(open.len())) else {
            return Ok(taken);
        };
        let at = at.try_clone()?;
        let _reply = probe.reply(&at)?;
        taken.push(at)?;
        pick = pick.next();
    }
    Ok(taken)
}

/// The outcome, where the execution is over.
fn end_in(probe: &Probe, alloc: Global) -> Result<Option<Outcome>, AllocError>
    ensures { IfOk result (λ o. IfSome o (λ x. is_over x ≡ true)) }
{
    if probe.world().is_running() {
        return Ok(None);
    }
    Ok(Some(probe.outcome().try_clone(alloc)?))
}

/// Puts the outcome that these steps led to behind those that were found, if it isn't there.
fn put_end(
    probe: &mut Probe,
    alloc: Global,
    orders: Orders,
    found: &mut Outcomes,
    steps: Vec<StepAt>,
) -> Result<(), AllocError>
    ensures later { (ws : List World)
        → IsLater ws (outcomes_of found.old.list.items) ws (outcomes_of found.new.list.items) }
    ensures shown { All (Shows orders (setup_of probe.old)) found.old.list.items
        → All (Shows orders (setup_of probe.old)) found.new.list.items }
    ensures once { AreDistinct (outcomes_of found.old.list.items)
        → AreDistinct (outcomes_of found.new.list.items) }
    ensures setup { setup_of probe.new ≡ setup_of probe.old }
{
    let Some(outcome) = end_in(probe, alloc)? else {
        return Ok(());
    };
    if found.has(alloc, &outcome)? {
        return Ok(());
    }
    put_found(probe, alloc, orders, found, &outcome, steps)?;
    Ok(())
}

/// Puts the outcomes of some whole orders behind those that were found: one in which always the first branch steps, one in which always the last
/// does, and some that are drawn; together they have at most so many steps.
pub(crate) fn put_samples(
    probe: &mut Probe,
    alloc: Global,
    orders: Orders,
    found: &mut Outcomes,
    limit: u32,
) -> Result<(), AllocError>
    ensures later { (ws : List World)
        → IsLater ws (outcomes_of found.old.list.items) ws (outcomes_of found.new.list.items) }
    ensures shown { All (Shows orders (setup_of probe.old)) found.old.list.items
        → All (Shows orders (setup_of probe.old)) found.new.list.items }
    ensures once { AreDistinct (outcomes_of found.old.list.items)
        → AreDistinct (outcomes_of found.new.list.items) }
    ensures setup { setup_of probe.new ≡ setup_of probe.old }
{
    let mut left = limit as usize;
    for number in 0..MOST_ORDERS {
        let steps = take_picked(probe, alloc, orders, Pick::of(number), left.min(MOST_STEPS))?;
        left = left.saturating_sub(steps.len());
        put_end(probe, alloc, orders, found, steps)?;
    }
    Ok(())
}

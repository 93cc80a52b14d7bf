// How often each state is invoked in the orders that end in an outcome.
ghost use Rattle.std.specs.Prelude.{◌≡◌, ◌<◌, ◌≤◌, ◌⊎◌, ℕ, List, true, length, slice_index, slice_index_or, IfOk, IfSome};
ghost use Rattle.asl_run_input.specs.declared.setup.Setup.{Setup};
ghost use Rattle.asl_explore.specs.declared.orders.Orders.{Orders};
ghost use Rattle.asl_run_state.specs.World.{is_over};
ghost use Rattle.asl_run_state.specs.declared.outcome.Outcome.{Outcome};
ghost use Rattle.asl_explore.specs.Searches.{outcomes_of};
ghost use Rattle.asl_explore.specs.Calls.{AreEachMet, AreKept, AreMetSoFar, AreWider, ComesInOrders, ComesWith, IsCounted, IsIn};

use crate::found::Found;
use asl_run_state::{Outcome, World};
use std::alloc::{AllocError, Global};

/// At least and at most so often.
#[derive(Clone, Copy, Debug, PartialEq, Eq)]
pub struct Bounds {
    pub least: u32,
    pub most: u32,
}

/// How often each state is invoked, by its number, in the orders that end in one outcome.
#[derive(Drop)]
pub struct Calls {
    pub bounds: Vec<Bounds>,
}

/// Bounds within which no number is.
const NOTHING: Bounds = Bounds {
    least: u32::MAX,
    most: 0,
};

impl Bounds {
    /// The bounds of a number and of those that are within these.
    fn with(self, number: u32) -> Bounds
        ensures has { IsIn result number }
        ensures keeps { (n : ℕ) → IsIn self n → IsIn result n }
        ensures low { (result.least ≡ number) ⊎ (result.least ≡ self.least) }
        ensures high { (result.most ≡ number) ⊎ (result.most ≡ self.most) }
        ensures fits { number ≤ 4_294_967_295 }
    {
        let least = if number < self.least {
            number
        } else {
            self.least
        };
        let most = if self.most < number {
            number
        } else {
            self.most
        };
        Bounds { least, most }
    }
}

impl Calls {
    /// Bounds of so many states, within which no number is. The error is that memory ran out.
    fn none(alloc: Global, states: usize) -> Result<Calls, AllocError>
        ensures { (o : Orders) (s : Setup) (outcome : Outcome)
            → IfOk result (λ c. AreEachMet (ComesWith o s outcome) c.bounds.items) }
    {
        let bounds = vec![in alloc; NOTHING; states]?;
        Ok(Calls { bounds })
    }

    /// How often each state was invoked in a world is within the bounds, too.
    fn widen(&mut self, world: &World)
        ensures has { (k : ℕ) (d : Bounds) → k < length self.old.bounds.items
            → IsIn (slice_index_or self.new.bounds.items k d) (slice_index world.now.counts k) }
        ensures keeps { AreWider self.old.bounds.items self.new.bounds.items }
        ensures met { (o : Orders) (s : Setup) (outcome : Outcome)
            → ((k : ℕ) → ComesWith o s outcome k (slice_index world.now.counts k))
            → AreEachMet (ComesWith o s outcome) self.old.bounds.items
            → AreEachMet (ComesWith o s outcome) self.new.bounds.items }
    {
        for number in 0..self.bounds.len() {
            let count = world.count(Some(number));
            let bounds = self.bounds[number].with(count);
            self.bounds[number] = bounds;
        }
    }
}

/// The bounds of so many outcomes, each of so many states, within which no number is. The error is that memory ran out.
pub(crate) fn no_calls(
    alloc: Global,
    outcomes: usize,
    states: usize,
) -> Result<Vec<Calls>, AllocError>
    ensures { (o : Orders) (s : Setup) (os : List Outcome)
        → IfOk result (λ v. AreMetSoFar o s os v.items) }
{
    let mut calls = Vec::new(alloc);
    for _ in 0..outcomes {
        let none = Calls::none(alloc, states)?;
        calls.push(none)?;
    }
    Ok(calls)
}

/// The number of an outcome among those that were found, from 0; none where it isn't there.
fn number_of(found: &[Found], outcome: &Outcome) -> Option<usize>
    ensures { IfSome result (λ i. (i < length (outcomes_of found.now))
        × ((d : Outcome) → slice_index_or (outcomes_of found.now) i d ≡ outcome.now)) }
{
    for (number, one) in found.iter().enumerate() {
        if one.outcome == *outcome {
            return Some(number);
        }
    }
    None
}

/// How often each of so many states was invoked in a world that is over is within the bounds of its outcome, if this is true.
pub(crate) fn count_end(
    found: &[Found],
    calls: &mut Vec<Calls>,
    states: usize,
    world: &World,
) -> bool
    ensures counted { result ≡ true
        → IsCounted states (outcomes_of found.now) calls.new.items world.now.outcome
        world.now.counts }
    ensures keeps { AreKept calls.old.items calls.new.items }
    ensures met { (o : Orders) (s : Setup) → is_over world.now.outcome ≡ true
        → ComesInOrders o s world.now → AreMetSoFar o s (outcomes_of found.now) calls.old.items
        → AreMetSoFar o s (outcomes_of found.now) calls.new.items }
{
    let Some(number) = number_of(found, world.outcome()) else {
        return false;
    };
    if number >= calls.len() || calls[number].bounds.len() < states {
        return false;
    }
    calls[number].widen(world);
    true
}

// How an outcome comes about.
ghost use Rattle.std.specs.Prelude.{◌≡◌, option_map, IfOk};
ghost use Rattle.asl_explore_errors.specs.Searches.{witness_at, witness_of};

use crate::tried::ErrorsFound;
use asl_error_plans::{PlanOutcomes, place_of};
use asl_explore::Found;
use std::alloc::{AllocError, Global};

/// The plan of a place, and the outcome of a place among those found under it.
fn witness_at(found: &ErrorsFound, at: (usize, usize)) -> Option<(&PlanOutcomes, &Found)>
    ensures { option_map (λ w. (w.0.now, w.1.now)) result ≡ witness_at found.now at }
{
    let plan = found.plans.get(at.0)?;
    let own = found.found.get(at.0)?;
    let one = own.list.get(at.1)?;
    Some((plan, one))
}

/// The first plan that gives the outcome of a number, from 1, and the outcome with steps that end in it under the plan; none where there is no such
/// outcome. The error is that memory ran out.
pub fn witness_of(
    alloc: Global,
    found: &ErrorsFound,
    number: u32,
) -> Result<Option<(&PlanOutcomes, &Found)>, AllocError>
    ensures { IfOk result (λ o. option_map (λ w. (w.0.now, w.1.now)) o ≡ witness_of number found.now) }
{
    match place_of(alloc, &found.plans, number)? {
        Some(at) => Ok(witness_at(found, at)),
        None => Ok(None),
    }
}

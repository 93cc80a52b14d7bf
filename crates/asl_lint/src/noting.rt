// What is told at a place.
ghost use Rattle.std.specs.Prelude.{◌≡◌, IfOk};
ghost use Rattle.asl_lint.specs.Places.{noted};

use crate::finding::{Found, said};
use crate::rule::Rule;
use std::alloc::AllocError;

/// What is told by this rule of this place in these words. The error is that memory ran out.
#[tactic(auto, unfolding(crate::specs::Told::is_told))]
pub fn told_at(rule: Rule, place: Vec<usize>, message: String) -> Result<Found, AllocError>
    ensures { IfOk result (λ f. noted f ≡ (rule, place.items)) }
{
    Ok(Found {
        rule,
        place,
        message: said(rule, message)?,
    })
}

// The outcomes of plans, each once.
ghost use Rattle.std.specs.Prelude.{◌≡◌, map, option_map, IfOk};
ghost use Rattle.std.specs.List.{fold, list_any, position};
ghost use Rattle.asl_json.specs.Same.{bytes_eq};
ghost use Rattle.asl_error_plans.specs.Grouping.{with_new, with_outcome, all_outcomes, gives, is_text, first_place, outcome_of, place_of};

use crate::outcomes::PlanOutcomes;
use std::alloc::{AllocError, Global};

/// Whether a text is one of these.
fn has(texts: &[&str], text: &str) -> bool
    ensures { result ≡ list_any (λ t. bytes_eq t.now text.now) texts.now }
{
    texts.iter().any(|one| *one == text)
}

/// These texts, and this one, unless it is among them. The error is that memory ran out.
fn with_new<'a>(texts: Vec<&'a str>, text: &'a str) -> Result<Vec<&'a str>, AllocError>
    ensures { IfOk result (λ v. map (λ t. t.now) v.items
        ≡ with_new (map (λ t. t.now) texts.entry.items) text.entry.now) }
{
    if has(&texts, text) {
        return Ok(texts);
    }
    let mut texts = texts;
    texts.push(text)?;
    Ok(texts)
}

/// These texts, and those of a plan's outcomes that aren't among them. The error is that memory ran out.
fn with_outcomes<'a>(
    texts: Vec<&'a str>,
    outcomes: &'a [String],
) -> Result<Vec<&'a str>, AllocError>
    ensures { IfOk result (λ v. map (λ t. t.now) v.items
        ≡ fold with_outcome (map (λ t. t.now) texts.entry.items) outcomes.now) }
{
    let mut texts = texts;
    for outcome in outcomes {
        texts = with_new(texts, outcome.as_str())?;
    }
    Ok(texts)
}

/// The outcomes of some plans, each once, in the order in which they come first. The error is that memory ran out.
pub(crate) fn all_outcomes(alloc: Global, plans: &[PlanOutcomes]) -> Result<Vec<&str>, AllocError>
    ensures { IfOk result (λ v. map (λ t. t.now) v.items ≡ all_outcomes plans.now) }
{
    let mut texts = Vec::new(alloc);
    for plan in plans {
        texts = with_outcomes(texts, &plan.outcomes)?;
    }
    Ok(texts)
}

/// Whether an outcome is one of a plan.
pub(crate) fn gives(plan: &PlanOutcomes, outcome: &str) -> bool
    ensures { result ≡ gives outcome.now plan.now }
{
    plan.outcomes.iter().any(|one| one.as_str() == outcome)
}

/// The place of the first of these plans that gives an outcome.
fn first_giving(plans: &[PlanOutcomes], outcome: &str) -> Option<usize>
    ensures { result ≡ position (gives outcome.now) plans.now }
{
    plans.iter().position(|plan| gives(plan, outcome))
}

/// The place of an outcome among those of a plan.
fn place_in(plan: &PlanOutcomes, outcome: &str) -> Option<usize>
    ensures { result ≡ position (is_text outcome.now) plan.now.outcomes.items }
{
    plan.outcomes.iter().position(|one| one.as_str() == outcome)
}

/// The place of the first of these plans that gives an outcome, and the place of the outcome there.
fn first_place(plans: &[PlanOutcomes], outcome: &str) -> Option<(usize, usize)>
    ensures { result ≡ first_place outcome.now plans.now }
{
    let number = first_giving(plans, outcome)?;
    let plan = plans.get(number)?;
    let place = place_in(plan, outcome)?;
    Some((number, place))
}

/// The text of a number, from 1.
fn outcome_of<'a>(outcomes: &[&'a str], number: u32) -> Option<&'a str>
    ensures { option_map (λ o. o.now) result ≡ outcome_of number (map (λ o. o.now) outcomes.now) }
{
    if number == 0 {
        return None;
    }
    match outcomes.get(number as usize - 1) {
        Some(outcome) => Some(*outcome),
        None => None,
    }
}

/// Where the outcome of a number, from 1, is given first: the place of a plan, and the place of the outcome among those of the plan; none where there is no
/// such outcome. The error is that memory ran out.
pub fn place_of(
    alloc: Global,
    plans: &[PlanOutcomes],
    number: u32,
) -> Result<Option<(usize, usize)>, AllocError>
    ensures { IfOk result (λ o. o ≡ place_of number plans.now) }
{
    let outcomes = all_outcomes(alloc, plans)?;
    match outcome_of(&outcomes, number) {
        Some(outcome) => Ok(first_place(plans, outcome)),
        None => Ok(None),
    }
}

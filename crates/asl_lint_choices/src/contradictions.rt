// Two rules of an And that never hold both.
ghost use Rattle.std.specs.Prelude.{◌≡◌, ◌≤◌, IfOk, drop, length};
ghost use Rattle.asl_json.specs.View.{items_of};
ghost use Rattle.asl_lint_choices.specs.Contradictions.{is_denial, exclude, first_against, first_contradiction};
ghost use Rattle.asl_lint_choices.specs.View.{all_asked, asked, lent};

use crate::comparison::exclude_as_comparisons;
use crate::condition::{Condition, condition_of};
use crate::repeats::conditions;
use asl_json::{Json, Member};
use std::alloc::{AllocError, Global};

/// Two rules of an And that never hold both, so that the And never holds. Rules are counted from 0.
#[derive(Clone, Copy, Debug, PartialEq, Eq)]
pub struct Contradiction {
    pub first: usize,
    pub second: usize,
}

/// Whether these members say that a rule doesn't hold that asks what the other one asks.
fn is_denial(alloc: Global, members: &[&Member], other: &Condition<'_>) -> Result<bool, AllocError>
    ensures { IfOk result (λ b. b ≡ is_denial (lent members.now) (asked other.now)) }
{
    match members {
        [member] => {
            if member.key.as_str() != "Not" {
                return Ok(false);
            }
            let denied = condition_of(alloc, &member.value)?;
            Ok(denied.is_same(other))
        }
        _ => Ok(false),
    }
}

/// Whether rules with these conditions never hold both.
fn exclude(alloc: Global, one: &Condition<'_>, other: &Condition<'_>) -> Result<bool, AllocError>
    ensures { IfOk result (λ b. b ≡ exclude (asked one.now) (asked other.now)) }
{
    if exclude_as_comparisons(one, other) {
        return Ok(true);
    }
    if is_denial(alloc, &one.members, other)? {
        return Ok(true);
    }
    is_denial(alloc, &other.members, one)
}

/// The number of the first of these conditions, from this number on, that never holds beside this one.
fn first_against(
    alloc: Global,
    condition: &Condition<'_>,
    conditions: &[Condition<'_>],
    from: usize,
) -> Result<Option<usize>, AllocError>
    requires { from ≤ length conditions.now }
    ensures { IfOk result (λ o. o ≡ first_against (asked condition.now) from
        (all_asked (drop from conditions.now))) }
{
    for number in from..conditions.len() {
        if exclude(alloc, condition, &conditions[number])? {
            return Ok(Some(number));
        }
    }
    Ok(None)
}

/// The first two rules of an And that never hold both: a rule and its `Not`, or two comparisons of one
/// variable that no value passes both. These want values of different types, as `StringEquals` beside `NumericLessThan`, or are both
/// `StringEquals`, `NumericEquals`, `BooleanEquals` or `TimestampEquals` with constants that differ: texts by their bytes, numbers by their
/// amounts, timestamps by their moments. A rule and what a `Not` denies are the same where they have the same members with the same values,
/// spelling included, apart from `Next` and `Comment`. The error is that memory ran out. The cost is at most the square of the number of rules
/// times the size of one.
#[tactic(auto, unfolding(crate::specs::Contradictions::first_contradiction))]
pub fn first_contradiction(
    alloc: Global,
    rules: &[Json],
) -> Result<Option<Contradiction>, AllocError>
    ensures { IfOk result (λ o. o ≡ first_contradiction (items_of rules.now)) }
{
    let conditions = conditions(alloc, rules)?;
    for first in 0..conditions.len() {
        let second = first_against(alloc, &conditions[first], &conditions, first + 1)?;
        if let Some(second) = second {
            return Ok(Some(Contradiction { first, second }));
        }
    }
    Ok(None)
}

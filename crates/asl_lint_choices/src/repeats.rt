// Rules that ask what an earlier rule asks.
ghost use Rattle.std.specs.Prelude.{◌≡◌, ◌++◌, ℕ, List, Some, unwrap_or, cond, IfOk, OnOk, string_bytes};
ghost use Rattle.std.specs.HashMap.{get_by_text};
ghost use Rattle.std.specs.Str.{bytes_eq};
ghost use Rattle.asl_json.specs.View.{items_of};
ghost use Rattle.asl_lint_choices.specs.Conditions.{all_conditions};
ghost use Rattle.asl_lint_choices.specs.Repeats.{first_same, repeated_by, repeated_rules};
ghost use Rattle.asl_lint_choices.specs.View.{all_asked, asked};
ghost use Rattle.asl_lint_choices.specs.private.Texts.{first_with_text, text_of};

use crate::condition::{Condition, condition_of};
use asl_json::Json;
use std::alloc::{AllocError, Global};
use std::collections::HashMap;

/// A rule that asks what an earlier rule of the same Choice asks. Rules are counted from 0.
#[derive(Clone, Copy, Debug, PartialEq, Eq)]
pub struct Repeated {
    /// It never decides: where the earlier one holds that one decides, and where not, this one doesn't hold either.
    pub rule: usize,
    /// The first rule that asks the same.
    pub earlier: usize,
}

/// What each of these rules asks.
pub(crate) fn conditions<'a>(
    alloc: Global,
    rules: &'a [Json],
) -> Result<Vec<Condition<'a>>, AllocError>
    ensures { IfOk result (λ v. all_asked v.items ≡ all_conditions (items_of rules.now)) }
{
    let mut conditions = Vec::new(alloc);
    for rule in rules {
        conditions.push(condition_of(alloc, rule)?)?;
    }
    Ok(conditions)
}

/// The number of the first of these conditions that is this one.
fn first_same(conditions: &[Condition<'_>], condition: &Condition<'_>) -> Option<usize>
    ensures { result ≡ first_same (asked condition.now) 0 (all_asked conditions.now) }
{
    for (number, other) in conditions.iter().enumerate() {
        if other.is_same(condition) {
            return Some(number);
        }
    }
    None
}

/// The same, where `first` is the number of the first with the text of this one. (Texts tell conditions apart, so it is that one, and nothing is
/// searched for. Only the cost rests on that.)
fn first_same_from(
    conditions: &[Condition<'_>],
    first: usize,
    condition: &Condition<'_>,
) -> Option<usize>
    requires { first_with_text (text_of (asked condition.now)) 0 (all_asked conditions.now)
        ≡ Some first }
    ensures { result ≡ first_same (asked condition.now) 0 (all_asked conditions.now) }
{
    match conditions.get(first) {
        Some(other) => {
            if other.is_same(condition) {
                return Some(first);
            }
            first_same(conditions, condition)
        }
        None => first_same(conditions, condition),
    }
}

/// The number that a text has; one that has none gets this one. The error is that memory ran out.
fn number_of(
    numbers: &mut HashMap<String, usize>,
    text: String,
    number: usize,
) -> Result<usize, AllocError>
    ensures number { IfOk result (λ n. n
        ≡ unwrap_or (get_by_text numbers.old (string_bytes text)) number) }
    ensures numbers { IfOk result (λ n. (t : List ℕ) → get_by_text numbers.new t
        ≡ cond (bytes_eq (string_bytes text) t) (Some n) (get_by_text numbers.old t)) }
{
    match numbers.get(text.as_str()) {
        Some(first) => Ok(*first),
        None => {
            numbers.insert(text, number)?;
            Ok(number)
        }
    }
}

/// Tells the rule of this number, where the first with its condition is an earlier one.
fn add_repeated(
    found: &mut Vec<Repeated>,
    rule: usize,
    first: Option<usize>,
) -> Result<(), AllocError>
    ensures { OnOk result (found.new.items ≡ found.old.items ++ repeated_by rule first) }
{
    match first {
        Some(earlier) => {
            if earlier < rule {
                found.push(Repeated { rule, earlier })?;
            }
            Ok(())
        }
        None => Ok(()),
    }
}

/// The rules of a Choice that ask what an earlier one asks, from the first to the last. Both have the same members with the same values in the
/// same order, spelling included, apart from `Next` and `Comment`. The error is that memory ran out. The cost grows with the size
/// of the rules alone, since each is looked up by its text.
#[tactic(auto, unfolding(crate::specs::Repeats::repeated_rules))]
pub fn repeated_rules(alloc: Global, rules: &[Json]) -> Result<Vec<Repeated>, AllocError>
    ensures { IfOk result (λ v. v.items ≡ repeated_rules (items_of rules.now)) }
{
    let conditions = conditions(alloc, rules)?;
    let mut numbers = HashMap::new(alloc);
    let mut found = Vec::new(alloc);
    for (rule, condition) in conditions.iter().enumerate() {
        let first = number_of(&mut numbers, condition.text(alloc)?, rule)?;
        add_repeated(
            &mut found,
            rule,
            first_same_from(&conditions, first, condition),
        )?;
    }
    Ok(found)
}

// Rules of a Choice that never decide, and Ands in them that never hold.
ghost use Rattle.std.specs.Prelude.{◌≡◌, ◌++◌, ◌∷◌, [], OnOk, option_map};
ghost use Rattle.std.specs.List.{slice_get};
ghost use Rattle.asl_json.specs.View.{data_of, items_of};
ghost use Rattle.asl_lint_choices.specs.Ands.{item_list};
ghost use Rattle.asl_lint_warnings.specs.declared.warning.WarningKind.TheVariants.{ImpossibleAnd};
ghost use Rattle.asl_lint_warnings.specs.Choices.{is_connective, part_of, part_place, and_place, and_warnings, repeat_warnings, rule_warnings};
ghost use Rattle.asl_lint_warnings.specs.private.Parts.{part_seen};
ghost use Rattle.asl_lint_warnings.specs.private.Trails.{steps_of};

use crate::trail::{Trail, tell};
use crate::warning::{Warning, WarningKind};
use asl_json::{Json, Member};
use asl_lint_choices::{impossible_ands, repeated_rules};
use std::alloc::{AllocError, Global};

/// Whether a rule with a member of this key is made of other rules.
fn is_connective(key: &str) -> bool
    ensures { result ≡ is_connective key.now }
{
    key == "And" || key == "Or" || key == "Not"
}

/// The first such member of a rule, and its number.
fn part_of(rule: &Json) -> Option<(usize, &Member)>
    ensures { option_map part_seen result ≡ part_of (data_of rule.now) }
{
    for (number, member) in rule.members().iter().enumerate() {
        if is_connective(member.key.as_str()) {
            return Some((number, member));
        }
    }
    None
}

/// The rule of this number in a list of rules.
#[tactic(auto, using(crate::proofs::Ruling::listed_again))]
fn rule_in(rules: &Json, number: usize) -> Option<&Json>
    ensures { option_map (λ v. data_of v.now) result
        ≡ slice_get (item_list (data_of rules.now)) number }
{
    match rules {
        Json::List(rules) => rules.get(number),
        _ => None,
    }
}

/// Tells the And that the rule at the end of a trail is.
fn tell_and(
    alloc: Global,
    told: &mut Vec<Warning>,
    trail: &Trail,
    rule: &Json,
) -> Result<(), AllocError>
    ensures { OnOk result (told.new.items ≡ told.old.items
        ++ (ImpossibleAnd, part_place (steps_of trail.now) (part_of (data_of rule.now))) ∷ []) }
{
    match part_of(rule) {
        Some((at, part)) => {
            let to_part = Trail::Member(at, part.key.as_str(), &*trail);
            tell(alloc, told, &to_part, Some(WarningKind::ImpossibleAnd))
        }
        None => tell(alloc, told, trail, Some(WarningKind::ImpossibleAnd)),
    }
}

/// Tells the And that these numbers lead to from the rule at the end of a trail.
fn tell_inner(
    alloc: Global,
    told: &mut Vec<Warning>,
    trail: &Trail,
    place: &[usize],
    rule: &Json,
) -> Result<(), AllocError>
    ensures { OnOk result (told.new.items ≡ told.old.items
        ++ (ImpossibleAnd, and_place (steps_of trail.now) place.now (data_of rule.now)) ∷ []) }
{
    match place {
        [] => tell_and(alloc, told, trail, rule),
        [number, rest @ ..] => {
            let Some((at, part)) = part_of(rule) else {
                return tell(alloc, told, trail, Some(WarningKind::ImpossibleAnd));
            };
            let to_part = Trail::Member(at, part.key.as_str(), &*trail);
            if part.key.as_str() == "Not" {
                return tell_inner(alloc, told, &to_part, rest, &part.value);
            }
            let to_rule = Trail::Item(*number, &to_part);
            match rule_in(&part.value, *number) {
                Some(inner) => tell_inner(alloc, told, &to_rule, rest, inner),
                None => tell(alloc, told, &to_rule, Some(WarningKind::ImpossibleAnd)),
            }
        }
    }
}

/// Tells the Ands that never hold in the rule at the end of a trail.
fn tell_ands(
    alloc: Global,
    told: &mut Vec<Warning>,
    trail: &Trail,
    rule: &Json,
) -> Result<(), AllocError>
    ensures { OnOk result (told.new.items
        ≡ told.old.items ++ and_warnings (steps_of trail.now) (data_of rule.now)) }
{
    let ands = impossible_ands(alloc, rule)?;
    for found in &ands {
        tell_inner(alloc, told, trail, &found.place, rule)?;
    }
    Ok(())
}

/// Tells the rules that ask what an earlier one asks.
fn tell_repeated(
    alloc: Global,
    told: &mut Vec<Warning>,
    trail: &Trail,
    rules: &[Json],
) -> Result<(), AllocError>
    ensures { OnOk result (told.new.items
        ≡ told.old.items ++ repeat_warnings (steps_of trail.now) (items_of rules.now)) }
{
    let repeats = repeated_rules(alloc, rules)?;
    for found in &repeats {
        let to_rule = Trail::Item(found.rule, &*trail);
        tell(alloc, told, &to_rule, Some(WarningKind::RepeatedRule))?;
    }
    Ok(())
}

/// Tells what the rules of a Choice are warned of.
pub(crate) fn tell_rules(
    alloc: Global,
    told: &mut Vec<Warning>,
    trail: &Trail,
    rules: &[Json],
) -> Result<(), AllocError>
    ensures { OnOk result (told.new.items
        ≡ told.old.items ++ rule_warnings (steps_of trail.now) (items_of rules.now)) }
{
    tell_repeated(alloc, told, trail, rules)?;
    for (number, rule) in rules.iter().enumerate() {
        let to_rule = Trail::Item(number, &*trail);
        tell_ands(alloc, told, &to_rule, rule)?;
    }
    Ok(())
}

// Ands that never hold, at any depth in a rule.
ghost use Rattle.std.specs.Prelude.{◌≡◌, ◌++◌, ◌∷◌, [], IfOk, OnOk};
ghost use Rattle.asl_json.specs.View.{data_of};
ghost use Rattle.asl_lint_choices.specs.Ands.{by_key, item_list, has_one_part, impossible_ands, in_rule, in_rules, own_and, told_at};
ghost use Rattle.asl_lint_choices.specs.View.{all_told};

use crate::condition::is_aside;
use crate::contradictions::{Contradiction, first_contradiction};
use asl_json::{Json, Member};
use std::alloc::{AllocError, Global};

/// An And that never holds.
#[derive(Drop)]
pub struct ImpossibleAnd {
    /// Where it stands in the rule: the number of a rule in that around it, the outermost first. In an `And` and an `Or` rules are counted from 0,
    /// and the rule of a `Not` has number 0. The rule itself has none.
    pub place: Vec<usize>,
    /// Two of its rules that never hold both.
    pub contradiction: Contradiction,
}

/// A place and a number in it.
fn within(alloc: Global, place: &[usize], number: usize) -> Result<Vec<usize>, AllocError>
    ensures { IfOk result (λ v. v.items ≡ place.now ++ number ∷ []) }
{
    let mut inner = Vec::new(alloc);
    for outer in place {
        inner.push(*outer)?;
    }
    inner.push(number)?;
    Ok(inner)
}

/// Tells the And at this place, where two of its rules never hold both.
fn add_told(
    alloc: Global,
    found: &mut Vec<ImpossibleAnd>,
    place: &[usize],
    contradiction: Option<Contradiction>,
) -> Result<(), AllocError>
    ensures { OnOk result (all_told found.new.items
        ≡ all_told found.old.items ++ told_at place.now contradiction) }
{
    match contradiction {
        Some(contradiction) => {
            let mut own = Vec::new(alloc);
            for number in place {
                own.push(*number)?;
            }
            found.push(ImpossibleAnd {
                place: own,
                contradiction,
            })?;
            Ok(())
        }
        None => Ok(()),
    }
}

/// The same of the And of these rules.
#[tactic(auto, using(crate::proofs::Parts::listed))]
fn add_own(
    alloc: Global,
    found: &mut Vec<ImpossibleAnd>,
    place: &[usize],
    rules: &Json,
) -> Result<(), AllocError>
    ensures { OnOk result (all_told found.new.items
        ≡ all_told found.old.items ++ own_and place.now (item_list (data_of rules.now))) }
{
    let contradiction = first_contradiction(alloc, rules.items())?;
    add_told(alloc, found, place, contradiction)
}

/// Whether one member alone says when a rule holds.
fn has_one_part(rule: &Json) -> bool
    ensures { result ≡ has_one_part (data_of rule.now) }
{
    let mut has_part = false;
    for member in rule.members() {
        if !is_aside(member.key.as_str()) {
            if has_part {
                return false;
            }
            has_part = true;
        }
    }
    has_part
}

/// Tells the Ands in a rule at this place.
#[cycle(walk)]
fn add_in_rule(
    alloc: Global,
    found: &mut Vec<ImpossibleAnd>,
    place: &[usize],
    rule: &Json,
) -> Result<(), AllocError>
    ensures { OnOk result (all_told found.new.items
        ≡ all_told found.old.items ++ in_rule place.now (data_of rule.now)) }
{
    if !has_one_part(rule) {
        return Ok(());
    }
    for member in rule.members() {
        add_in_member(alloc, found, place, member)?;
    }
    Ok(())
}

/// Those in one of its members.
#[cycle(walk)]
fn add_in_member(
    alloc: Global,
    found: &mut Vec<ImpossibleAnd>,
    place: &[usize],
    member: &Member,
) -> Result<(), AllocError>
    ensures { OnOk result (all_told found.new.items ≡ all_told found.old.items
        ++ by_key member.now.key (own_and place.now (item_list (data_of member.now.value)))
        (in_rules place.now (data_of member.now.value))
        (in_rule (place.now ++ 0 ∷ []) (data_of member.now.value))) }
{
    let key = member.key.as_str();
    if key == "And" {
        add_and(alloc, found, place, &member.value)
    } else if key == "Or" {
        add_in_rules(alloc, found, place, &member.value)
    } else if key == "Not" {
        let place = within(alloc, place, 0)?;
        add_in_rule(alloc, found, &place, &member.value)
    } else {
        Ok(())
    }
}

/// The And of these rules, and those in it.
#[cycle(walk)]
fn add_and(
    alloc: Global,
    found: &mut Vec<ImpossibleAnd>,
    place: &[usize],
    rules: &Json,
) -> Result<(), AllocError>
    ensures { OnOk result (all_told found.new.items ≡ all_told found.old.items
        ++ (own_and place.now (item_list (data_of rules.now)) ++ in_rules place.now (data_of rules.now))) }
{
    add_own(alloc, found, place, rules)?;
    add_in_rules(alloc, found, place, rules)
}

/// Those in each rule of a list.
#[cycle(walk)]
fn add_in_rules(
    alloc: Global,
    found: &mut Vec<ImpossibleAnd>,
    place: &[usize],
    rules: &Json,
) -> Result<(), AllocError>
    ensures { OnOk result (all_told found.new.items
        ≡ all_told found.old.items ++ in_rules place.now (data_of rules.now)) }
{
    for (number, rule) in rules.items().iter().enumerate() {
        let place = within(alloc, place, number)?;
        add_in_rule(alloc, found, &place, rule)?;
    }
    Ok(())
}

/// The Ands of a rule that never hold, at any depth, an And before those inside it: those of which two rules never hold both, as
/// `first_contradiction` tells. The error is that memory ran out.
pub fn impossible_ands(alloc: Global, rule: &Json) -> Result<Vec<ImpossibleAnd>, AllocError>
    ensures { IfOk result (λ v. all_told v.items ≡ impossible_ands (data_of rule.now)) }
{
    let mut found = Vec::new(alloc);
    add_in_rule(alloc, &mut found, &[], rule)?;
    Ok(found)
}

// What the rules of a Choice want.
ghost use Rattle.std.specs.Prelude.{◌≡◌, IfOk, nat_eq, codes, if◌then◌else◌};
ghost use Rattle.std.specs.List.{starts_with};
ghost use Rattle.asl_json_data.specs.Data.{chain, pairs};
ghost use Rattle.asl_json.specs.View.{data_of, members_of};
ghost use Rattle.asl_mock_sample.specs.Merging.{anything};
ghost use Rattle.asl_mock_sample.specs.Templates.{one};
ghost use Rattle.asl_mock_sample.specs.Rules.{moment, compared, is_other, held, rule_part, rule_wants, rule_members, rules_wants, rule_items};

use crate::merging::{anything, both};
use crate::templates::{one, value_wants};
use crate::texts::{begins, ends};
use asl_json::{Items, Json, Member, Members, Txt};
use std::alloc::{AllocError, Global};

/// A moment, where one is wanted.
pub(crate) fn moment(alloc: Global) -> Result<Json, AllocError>
    ensures { IfOk result (λ v. data_of v ≡ moment) }
{
    Ok(Json::Text(Txt::of(alloc, "2024-01-01T00:00:00Z")?))
}

/// What a comparison with the value of another path holds for.
fn compared_by_path(alloc: Global, key: &str) -> Result<Json, AllocError>
    ensures { IfOk result (λ v. data_of v
        ≡ (if starts_with nat_eq key.now (codes "Numeric") then one else anything)) }
{
    if begins(key, "Numeric") {
        Ok(one())
    } else {
        anything(alloc)
    }
}

/// What a comparison with this value holds for.
fn compared(alloc: Global, key: &str, value: &Json) -> Result<Json, AllocError>
    ensures { IfOk result (λ v. data_of v ≡ compared key.now (data_of value.now)) }
{
    if key == "IsNumeric" {
        Ok(one())
    } else if key == "IsBoolean" {
        Ok(Json::Bool(true))
    } else if key == "IsTimestamp" {
        moment(alloc)
    } else if begins(key, "Is") {
        anything(alloc)
    } else if ends(key, "Path") {
        compared_by_path(alloc, key)
    } else {
        value.try_clone(alloc)
    }
}

/// Whether the member of this key is no comparison.
fn is_other(key: &str) -> bool
    ensures { result ≡ is_other key.now }
{
    key == "Variable" || key == "Next" || key == "Comment"
}

/// What the comparison of a rule holds for.
fn held(alloc: Global, members: &[Member]) -> Result<Json, AllocError>
    ensures { IfOk result (λ v. data_of v ≡ held (pairs (members_of members.now))) }
{
    for member in members {
        if !is_other(member.key.as_str()) {
            return compared(alloc, member.key.as_str(), &member.value);
        }
    }
    anything(alloc)
}

/// What a rule wants.
#[cycle(rules)]
fn rule_wants(alloc: Global, rule: &Json) -> Result<Json, AllocError>
    ensures { IfOk result (λ v. data_of v ≡ rule_wants (data_of rule.now)) }
{
    match rule {
        Json::Dict(members) => rule_members(alloc, members),
        _ => anything(alloc),
    }
}

#[cycle(rules)]
fn rule_members(alloc: Global, members: &Members) -> Result<Json, AllocError>
    ensures { IfOk result (λ v. data_of v
        ≡ rule_members (held (pairs members.now)) anything (pairs members.now)) }
{
    let leaf = held(alloc, members.members())?;
    let mut wants = anything(alloc)?;
    for member in members.members() {
        let more = rule_member(alloc, member, &leaf)?;
        wants = both(alloc, wants, &more)?;
    }
    Ok(wants)
}

#[cycle(rules)]
fn rule_member(alloc: Global, member: &Member, leaf: &Json) -> Result<Json, AllocError>
    ensures { IfOk result (λ v. data_of v
        ≡ rule_part member.now.key (data_of member.now.value) (data_of leaf.now)
        (rule_wants (data_of member.now.value)) (rules_wants (data_of member.now.value))) }
{
    let key = member.key.as_str();
    if key == "Variable" {
        value_wants(alloc, "$", &member.value, leaf)
    } else if key == "Not" {
        rule_wants(alloc, &member.value)
    } else if key == "And" || key == "Or" {
        rules_wants(alloc, &member.value)
    } else if ends(key, "Path") {
        value_wants(alloc, "$", &member.value, leaf)
    } else {
        anything(alloc)
    }
}

/// What rules want.
#[cycle(rules)]
pub(crate) fn rules_wants(alloc: Global, rules: &Json) -> Result<Json, AllocError>
    ensures { IfOk result (λ v. data_of v ≡ rules_wants (data_of rules.now)) }
{
    match rules {
        Json::List(items) => rule_items(alloc, items),
        _ => anything(alloc),
    }
}

#[cycle(rules)]
fn rule_items(alloc: Global, rules: &Items) -> Result<Json, AllocError>
    ensures { IfOk result (λ v. data_of v ≡ rule_items anything (chain rules.now)) }
{
    let mut wants = anything(alloc)?;
    for rule in rules.values() {
        let more = rule_wants(alloc, rule)?;
        wants = both(alloc, wants, &more)?;
    }
    Ok(wants)
}

// One value of the shape of two.
ghost use Rattle.std.specs.Prelude.{◌≡◌, ◌++◌, [], IfOk, OnOk, drop, option_map, slice_get};
ghost use Rattle.std.specs.Option.{option_map_or};
ghost use Rattle.asl_json.specs.View.{data_of, items_of, members_of};
ghost use Rattle.asl_json_data.specs.Data as Data;
ghost use Rattle.asl_json_data.specs.Data.{chain, pairs};
ghost use Rattle.asl_json_data.specs.Distinct.{has_key};
ghost use Rattle.asl_mock_sample.specs.Merging.{anything, or_anything, is_anything, has_none, weight, weightier, with_member, with_members, merged, merged_members, merged_items, most_bytes, stands_for_anything, both};

use asl_json::{Items, Json, Member, Members, Txt};
use asl_json_write::text_within;
use std::alloc::{AllocError, Global};

/// A text that stands where nothing is known of a value but that it is there.
pub(crate) fn anything(alloc: Global) -> Result<Json, AllocError>
    ensures { IfOk result (λ v. data_of v ≡ anything) }
{
    Ok(Json::Text(Txt::of(alloc, "...")?))
}

/// A copy of a value; where there is none, one that stands for anything.
pub(crate) fn or_anything(alloc: Global, value: Option<&Json>) -> Result<Json, AllocError>
    ensures { IfOk result (λ v. data_of v ≡ or_anything (option_map (λ w. data_of w.now) value.entry)) }
{
    match value {
        Some(value) => value.try_clone(alloc),
        None => anything(alloc),
    }
}

fn is_anything(text: &str) -> bool
    ensures { result ≡ is_anything text.now }
{
    text == "..."
}

fn has_none(members: &[Member]) -> bool
    ensures { result ≡ has_none (pairs (members_of members.now)) }
{
    match members {
        [] => true,
        [_, ..] => false,
    }
}

/// How much a text tells of a shape.
fn text_weight(text: &str) -> u8
    ensures { result ≡ weight (Data.text text.now) }
{
    if is_anything(text) { 0 } else { 2 }
}

/// How much an object tells of a shape.
fn object_weight(members: &[Member]) -> u8
    ensures { result ≡ weight (Data.dict (pairs (members_of members.now))) }
{
    if has_none(members) { 1 } else { 4 }
}

/// How much a value tells of a shape.
fn weight(value: &Json) -> u8
    ensures { result ≡ weight (data_of value.now) }
{
    match value {
        Json::Text(text) => text_weight(text.as_str()),
        Json::Dict(members) => object_weight(members.members()),
        Json::List(_) => 3,
        Json::Null | Json::Bool(_) | Json::Num(_) => 2,
    }
}

/// A copy of the one of two values that tells more.
fn weightier(alloc: Global, one: &Json, other: &Json) -> Result<Json, AllocError>
    ensures { IfOk result (λ v. data_of v ≡ weightier (data_of one.now) (data_of other.now)) }
{
    if weight(one) < weight(other) {
        other.try_clone(alloc)
    } else {
        one.try_clone(alloc)
    }
}

/// Whether a member has this key.
fn has_key(members: &[Member], key: &str) -> bool
    ensures { result ≡ has_key key.now (members_of members.now) }
{
    for member in members {
        if key == member.key.as_str() {
            return true;
        }
    }
    false
}

/// Adds a member, unless another one has its key.
pub(crate) fn put_member(members: &mut Members, key: Txt, value: Json) -> Result<(), AllocError>
    ensures { OnOk result (members.new ≡ with_member members.old key (data_of value)) }
{
    if has_key(members.members(), key.as_str()) {
        return Ok(());
    }
    members.push(key, value)
}

/// Adds copies of the members whose keys none has yet.
pub(crate) fn put_members(
    alloc: Global,
    members: &mut Members,
    others: &[Member],
) -> Result<(), AllocError>
    ensures { OnOk result (members.new ≡ with_members members.old (pairs (members_of others.now))) }
{
    for other in others {
        put_member(
            members,
            other.key.try_clone(alloc)?,
            other.value.try_clone(alloc)?,
        )?;
    }
    Ok(())
}

/// Adds copies of the items from this number on.
fn put_items(
    alloc: Global,
    values: &mut Vec<Json>,
    from: usize,
    items: &[Json],
) -> Result<(), AllocError>
    ensures { OnOk result (items_of values.new.items
        ≡ items_of values.old.items ++ items_of (drop from items.now)) }
{
    for number in from..items.len() {
        values.push(items[number].try_clone(alloc)?)?;
    }
    Ok(())
}

/// The item of this number, where there is one.
pub(crate) fn item_at(items: &[Json], number: usize) -> Option<&Json>
    ensures { option_map (λ v. data_of v.now) result ≡ slice_get (items_of items.now) number }
{
    items.get(number)
}

/// One value of the shape of two: each member and each item that either has is there; of other values the one that tells more.
#[cycle(merge)]
fn merged(alloc: Global, one: &Json, other: &Json) -> Result<Json, AllocError>
    ensures { IfOk result (λ v. data_of v ≡ merged (data_of one.now) (data_of other.now)) }
{
    match (one, other) {
        (Json::Dict(one), Json::Dict(other)) => {
            let mut members = merged_members(alloc, one, other)?;
            put_members(alloc, &mut members, other.members())?;
            Ok(Json::Dict(members))
        }
        (Json::List(one), Json::List(other)) => Ok(Json::List(merged_items(alloc, one, other)?)),
        _ => weightier(alloc, one, other),
    }
}

/// A part of one value, and what stands in its place in the other one.
#[cycle(merge)]
fn merged_part(alloc: Global, one: &Json, other: Option<&Json>) -> Result<Json, AllocError>
    ensures { IfOk result (λ v. data_of v
        ≡ option_map_or (merged (data_of one.now)) (option_map (λ w. data_of w.now) other.entry)
        (data_of one.now)) }
{
    match other {
        Some(other) => merged(alloc, one, other),
        None => one.try_clone(alloc),
    }
}

#[cycle(merge)]
fn merged_members(alloc: Global, one: &Members, other: &Members) -> Result<Members, AllocError>
    ensures { IfOk result (λ ms. ms ≡ merged_members [] (pairs one.now) (pairs other.now)) }
{
    let mut members = Members::new(alloc);
    for member in one.members() {
        let value = merged_part(alloc, &member.value, other.find(member.key.as_str()))?;
        put_member(&mut members, member.key.try_clone(alloc)?, value)?;
    }
    Ok(members)
}

#[cycle(merge)]
fn merged_items(alloc: Global, one: &Items, other: &Items) -> Result<Items, AllocError>
    ensures { IfOk result (λ vs. vs ≡ merged_items [] (chain one.now) (chain other.now)) }
{
    let one = one.values();
    let other = other.values();
    let mut values = Vec::new(alloc);
    for number in 0..one.len() {
        values.push(merged_part(alloc, &one[number], item_at(other, number))?)?;
    }
    put_items(alloc, &mut values, one.len(), other)?;
    Ok(Items::of_values(values))
}

/// How many bytes a sample has at most.
const MOST_BYTES: usize = 2_000;

/// Whether a value says no more than that something is there.
fn stands_for_anything(value: &Json) -> bool
    ensures { result ≡ stands_for_anything (data_of value.now) }
{
    match value {
        Json::Text(text) => is_anything(text.as_str()),
        _ => false,
    }
}

/// What has the shape of two values; where that would be too long, the first one. The error is that memory ran out.
#[tactic(auto, unfolding(crate::specs::Merging::most_bytes))]
pub(crate) fn both(alloc: Global, one: Json, other: &Json) -> Result<Json, AllocError>
    ensures { IfOk result (λ v. data_of v ≡ both (data_of one) (data_of other.now)) }
{
    // It is so of most: nothing else is worked out then.
    if stands_for_anything(other) {
        return Ok(one);
    }
    let value = merged(alloc, &one, other)?;
    if text_within(&value, MOST_BYTES) {
        return Ok(value);
    }
    Ok(one)
}

// What of a value another has not, has besides, or has otherwise.
ghost use Rattle.std.specs.Prelude.{◌≡◌, ◌++◌, [], drop, if◌then◌else◌, OnOk, string_bytes, IfOk, option_map, slice_get};
ghost use Rattle.asl_json_data.specs.Data.{chain, pairs};
ghost use Rattle.asl_json.specs.View.{data_of, items_of, members_of};
ghost use Rattle.asl_json.specs.Same.{equal};
ghost use Rattle.asl_json_write.specs.Pointers.{name_part, index_part};
ghost use Rattle.asl_json_diff.specs.Changes.{at_place, added, removed, replaced, items_added, added_unless, members_added, changes, part_change, item_changes, member_changes};

use crate::showing::put_short;
use asl_json::{Items, Json, Member, Members};
use asl_json_write::Pointer;
use asl_text::put_shown;
use std::alloc::{AllocError, Global};

/// Appends a mark and a place.
fn put_at(out: &mut String, mark: &str, place: &str) -> Result<(), AllocError>
    ensures { OnOk result (string_bytes out.new
        ≡ string_bytes out.old ++ at_place mark.now place.now) }
{
    out.push_str(mark)?;
    if place.is_empty() {
        return Ok(());
    }
    put_shown(out, place)?;
    out.push(' ')
}

fn put_added(
    alloc: Global,
    out: &mut String,
    lead: &str,
    place: &str,
    value: &Json,
) -> Result<(), AllocError>
    ensures { OnOk result (string_bytes out.new
        ≡ string_bytes out.old ++ added lead.now place.now (data_of value.now)) }
{
    out.push_str(lead)?;
    put_at(out, "+ ", place)?;
    put_short(alloc, out, value)?;
    out.push('\n')
}

fn put_removed(
    alloc: Global,
    out: &mut String,
    lead: &str,
    place: &str,
    value: &Json,
) -> Result<(), AllocError>
    ensures { OnOk result (string_bytes out.new
        ≡ string_bytes out.old ++ removed lead.now place.now (data_of value.now)) }
{
    out.push_str(lead)?;
    put_at(out, "- ", place)?;
    put_short(alloc, out, value)?;
    out.push('\n')
}

fn put_replaced(
    alloc: Global,
    out: &mut String,
    lead: &str,
    place: &str,
    old: &Json,
    new: &Json,
) -> Result<(), AllocError>
    ensures { OnOk result (string_bytes out.new
        ≡ string_bytes out.old ++ replaced lead.now place.now (data_of old.now) (data_of new.now)) }
{
    out.push_str(lead)?;
    put_at(out, "~ ", place)?;
    put_short(alloc, out, old)?;
    out.push_str(" -> ")?;
    put_short(alloc, out, new)?;
    out.push('\n')
}

/// Appends the line of two values at a place, unless they are equal.
fn put_unequal(
    alloc: Global,
    out: &mut String,
    lead: &str,
    place: &str,
    old: &Json,
    new: &Json,
) -> Result<(), AllocError>
    ensures { OnOk result (string_bytes out.new ≡ string_bytes out.old
        ++ (if equal (data_of old.now) (data_of new.now) then []
        else replaced lead.now place.now (data_of old.now) (data_of new.now))) }
{
    if *old == *new {
        return Ok(());
    }
    put_replaced(alloc, out, lead, place, old, new)
}

/// The place of the member of this name in the value at a place.
fn at_name(alloc: Global, place: &str, name: &str) -> Result<String, AllocError>
    ensures { IfOk result (λ t. string_bytes t ≡ place.now ++ name_part name.now) }
{
    let mut at = String::from_str(alloc, place)?;
    let part = Pointer::whole(alloc).at_name(name)?;
    at.push_str(part.as_str())?;
    Ok(at)
}

/// The place of the item of this number in the value at a place.
fn at_index(alloc: Global, place: &str, index: usize) -> Result<String, AllocError>
    ensures { IfOk result (λ t. string_bytes t ≡ place.now ++ index_part index) }
{
    let mut at = String::from_str(alloc, place)?;
    let part = Pointer::whole(alloc).at_index(index)?;
    at.push_str(part.as_str())?;
    Ok(at)
}

/// Appends the line of a member that the new object has, unless the old one has a value under its key.
fn put_unless(
    alloc: Global,
    out: &mut String,
    lead: &str,
    place: &str,
    member: &Member,
    old: Option<&Json>,
) -> Result<(), AllocError>
    ensures { OnOk result (string_bytes out.new ≡ string_bytes out.old
        ++ added_unless lead.now (place.now ++ name_part member.now.key)
        (option_map (λ v. data_of v.now) old.entry) (data_of member.now.value)) }
{
    if old.is_some() {
        return Ok(());
    }
    let at = at_name(alloc, place, member.key.as_str())?;
    put_added(alloc, out, lead, at.as_str(), &member.value)
}

/// Appends the lines of the members of the new object whose keys the old one has not.
fn put_members_added(
    alloc: Global,
    out: &mut String,
    lead: &str,
    place: &str,
    new: &[Member],
    old: &Members,
) -> Result<(), AllocError>
    ensures { OnOk result (string_bytes out.new ≡ string_bytes out.old
        ++ members_added lead.now place.now (pairs (members_of new.now)) (pairs old.now)) }
{
    for member in new {
        put_unless(
            alloc,
            out,
            lead,
            place,
            member,
            old.find(member.key.as_str()),
        )?;
    }
    Ok(())
}

/// Appends the lines of the items of the new list from this number on.
fn put_items_added(
    alloc: Global,
    out: &mut String,
    lead: &str,
    place: &str,
    from: usize,
    new: &[Json],
) -> Result<(), AllocError>
    ensures { OnOk result (string_bytes out.new ≡ string_bytes out.old
        ++ items_added lead.now place.now from (chain (items_of (drop from new.now)))) }
{
    for number in from..new.len() {
        let at = at_index(alloc, place, number)?;
        put_added(alloc, out, lead, at.as_str(), &new[number])?;
    }
    Ok(())
}

/// The item of this number, where there is one.
fn item_at(items: &[Json], number: usize) -> Option<&Json>
    ensures { option_map (λ v. data_of v.now) result ≡ slice_get (items_of items.now) number }
{
    items.get(number)
}

/// Appends the lines that tell how two values at a place differ.
#[cycle(changes)]
fn put_between(
    alloc: Global,
    out: &mut String,
    lead: &str,
    place: &str,
    old: &Json,
    new: &Json,
) -> Result<(), AllocError>
    ensures { OnOk result (string_bytes out.new
        ≡ string_bytes out.old ++ changes lead.now place.now (data_of old.now) (data_of new.now)) }
{
    match (old, new) {
        (Json::List(old), Json::List(new)) => put_items(alloc, out, lead, place, old, new),
        (Json::Dict(old), Json::Dict(new)) => put_members(alloc, out, lead, place, old, new),
        _ => put_unequal(alloc, out, lead, place, old, new),
    }
}

/// Appends the lines of a part of the old value, and of what stands in its place in the new one.
#[cycle(changes)]
fn put_part(
    alloc: Global,
    out: &mut String,
    lead: &str,
    place: &str,
    old: &Json,
    new: Option<&Json>,
) -> Result<(), AllocError>
    ensures { OnOk result (string_bytes out.new ≡ string_bytes out.old
        ++ part_change lead.now place.now (data_of old.now)
        (option_map (λ v. data_of v.now) new.entry)) }
{
    match new {
        Some(new) => put_between(alloc, out, lead, place, old, new),
        None => put_removed(alloc, out, lead, place, old),
    }
}

#[cycle(changes)]
fn put_items(
    alloc: Global,
    out: &mut String,
    lead: &str,
    place: &str,
    old: &Items,
    new: &Items,
) -> Result<(), AllocError>
    ensures { OnOk result (string_bytes out.new
        ≡ string_bytes out.old ++ item_changes lead.now place.now 0 (chain old.now) (chain new.now)) }
{
    let old = old.values();
    let new = new.values();
    for number in 0..old.len() {
        let at = at_index(alloc, place, number)?;
        put_part(
            alloc,
            out,
            lead,
            at.as_str(),
            &old[number],
            item_at(new, number),
        )?;
    }
    put_items_added(alloc, out, lead, place, old.len(), new)
}

#[cycle(changes)]
fn put_members(
    alloc: Global,
    out: &mut String,
    lead: &str,
    place: &str,
    old: &Members,
    new: &Members,
) -> Result<(), AllocError>
    ensures { OnOk result (string_bytes out.new ≡ string_bytes out.old
        ++ (member_changes lead.now place.now (pairs old.now) (pairs new.now)
        ++ members_added lead.now place.now (pairs new.now) (pairs old.now))) }
{
    for member in old.members() {
        let key = member.key.as_str();
        let at = at_name(alloc, place, key)?;
        put_part(alloc, out, lead, at.as_str(), &member.value, new.find(key))?;
    }
    put_members_added(alloc, out, lead, place, new.members(), old)
}

/// Appends the lines that tell how a value differs from an older one, each behind this lead: of each member and item that only the new
/// one has, that only the old one has, or that is otherwise in the new one. Values are equal where they are spelled alike. The error is
/// that memory ran out.
pub fn put_changes(
    alloc: Global,
    out: &mut String,
    lead: &str,
    old: &Json,
    new: &Json,
) -> Result<(), AllocError>
    ensures { OnOk result (string_bytes out.new
        ≡ string_bytes out.old ++ changes lead.now [] (data_of old.now) (data_of new.now)) }
{
    put_between(alloc, out, lead, "", old, new)
}

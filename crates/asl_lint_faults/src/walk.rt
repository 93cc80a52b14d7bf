// One walk over a definition for its faults.
ghost use Rattle.std.specs.Prelude.{◌∷◌, [], IfOk, option_to_list};
ghost use Rattle.asl_json.specs.View.{data_of, members_of};
ghost use Rattle.asl_json_data.specs.Data.{pairs, chain};
ghost use Rattle.asl_json.specs.Keys.{Knows};
ghost use Rattle.asl_json.specs.Meaning.{count};
ghost use Rattle.asl_def_schema.specs.private.Code.{shape_seen, rows_of, groups_of};
ghost use Rattle.asl_def_judge.specs.private.Spots.{spot_of};
ghost use Rattle.asl_def_schema.specs.Members.{sort_at};
ghost use Rattle.asl_def_schema.specs.Claims.{heres, group_demands, row_claims, inside, at_member, claims, item_claims, member_claims, object_claims};
ghost use Rattle.asl_lint_faults.specs.Told.{AreTold};

use crate::joining::{add, joined, tell, under_index, under_name};
use crate::value::own_faults;
use asl_def_judge::spot::{Spot, at_item, one_deeper};
use asl_def_judge::value::{is_list, is_object};
use asl_def_judge::walk::{is_doubled, is_twice, lack, state_names, undecided};
use asl_def_schema::{Fault, Group, Row, Shape, Sort, item_sort, shape_in, sort_at};
use asl_json::{Items, Json, Keys, Member, Members};
use std::alloc::{AllocError, Global};

/// The faults of an object in which no member of a group is there.
fn group_faults(
    alloc: Global,
    groups: &[Group],
    members: &[Member],
) -> Result<Vec<Fault>, AllocError>
    ensures { IfOk result (λ told.
        AreTold (heres (group_demands (groups_of groups.now) (pairs (members_of members.now))))
        told.items) }
{
    let mut told = Vec::new(alloc);
    for group in groups {
        tell(alloc, &mut told, undecided(group, members))?;
    }
    Ok(told)
}

/// The required members that are missing.
fn missing(alloc: Global, rows: &[Row], members: &[Member]) -> Result<Vec<Fault>, AllocError>
    ensures { IfOk result (λ told. AreTold
        (row_claims (count (pairs (members_of members.now))) (rows_of rows.now)
        (pairs (members_of members.now))) told.items) }
{
    let mut told = Vec::new(alloc);
    for (i, row) in rows.iter().enumerate() {
        let fault = lack(alloc, members.len() + i, *row, members)?;
        add(&mut told, fault)?;
    }
    Ok(told)
}

/// The faults in a value that stands at this spot and is to be of this sort.
#[cycle(walk)]
pub(crate) fn check(
    alloc: Global,
    spot: Spot,
    sort: Sort,
    value: &Json,
) -> Result<Vec<Fault>, AllocError>
    ensures { IfOk result (λ told.
        AreTold (claims (spot_of spot.entry) sort (data_of value.now)) told.items) }
{
    let own = own_faults(alloc, spot, sort, value)?;
    match value {
        Json::List(items) => {
            if !is_list(sort) {
                return Ok(own);
            }
            let inside = check_items(alloc, spot, item_sort(sort), items)?;
            let told = joined(own, inside)?;
            Ok(told)
        }
        Json::Dict(members) => {
            if !is_object(sort) {
                return Ok(own);
            }
            let inside = check_object(alloc, spot, sort, members)?;
            let told = joined(own, inside)?;
            Ok(told)
        }
        _ => Ok(own),
    }
}

#[cycle(walk)]
fn check_items(
    alloc: Global,
    spot: Spot,
    sort: Sort,
    items: &Items,
) -> Result<Vec<Fault>, AllocError>
    ensures { IfOk result (λ told.
        AreTold (item_claims (spot_of spot.entry) sort 0 (chain items.now)) told.items) }
{
    let values = items.values();
    let mut told = Vec::new(alloc);
    for (i, value) in values.iter().enumerate() {
        let inside = check(alloc, at_item(spot, i + 1 == values.len()), sort, value)?;
        let faults = under_index(alloc, inside, i)?;
        told = joined(told, faults)?;
    }
    Ok(told)
}

#[cycle(walk)]
fn check_object(
    alloc: Global,
    spot: Spot,
    sort: Sort,
    members: &Members,
) -> Result<Vec<Fault>, AllocError>
    ensures { IfOk result (λ told.
        AreTold (object_claims (spot_of spot.entry) sort (pairs members.now)) told.items) }
{
    let pairs = members.members();
    let shape = shape_in(sort, pairs);
    let undecided = group_faults(alloc, shape.groups, pairs)?;
    let inside = check_inside(alloc, spot, sort, shape, members)?;
    let lacking = missing(alloc, shape.rows, pairs)?;
    let behind = joined(inside, lacking)?;
    let told = joined(undecided, behind)?;
    Ok(told)
}

/// A machine has target names of its own.
#[cycle(walk)]
fn check_inside(
    alloc: Global,
    spot: Spot,
    sort: Sort,
    shape: Shape,
    members: &Members,
) -> Result<Vec<Fault>, AllocError>
    ensures { IfOk result (λ told. AreTold
        (member_claims (inside (spot_of spot.entry) sort (pairs members.now)) (shape_seen shape) []
        0 (pairs members.now)) told.items) }
{
    match sort {
        Sort::Definition | Sort::Machine | Sort::ItemProcessor => {
            let names = state_names(alloc, members.members())?;
            let spot = Spot {
                names: &names,
                level: one_deeper(spot.level),
                ends: spot.ends,
                key: spot.key,
                doubled: spot.doubled,
            };
            check_members(alloc, spot, shape, members)
        }
        _ => check_members(alloc, spot, shape, members),
    }
}

#[cycle(walk)]
fn check_members(
    alloc: Global,
    spot: Spot,
    shape: Shape,
    members: &Members,
) -> Result<Vec<Fault>, AllocError>
    ensures { IfOk result (λ told. AreTold
        (member_claims (spot_of spot.entry) (shape_seen shape) [] 0 (pairs members.now))
        told.items) }
{
    let pairs = members.members();
    let mut keys = Keys::new();
    let mut told = Vec::new(alloc);
    for (i, member) in pairs.iter().enumerate() {
        let before = &pairs[..i];
        let key = member.key.as_str();
        let inside = check_member(alloc, spot, shape, &keys, before, member)?;
        let faults = under_name(alloc, inside, i, key)?;
        told = joined(told, faults)?;
        keys.add(alloc, before, key)?;
    }
    Ok(told)
}

#[cycle(walk)]
fn check_member(
    alloc: Global,
    spot: Spot,
    shape: Shape,
    keys: &Keys,
    before: &[Member],
    member: &Member,
) -> Result<Vec<Fault>, AllocError>
    requires { Knows keys.now (members_of before.now) }
    ensures { IfOk result (λ told. AreTold
        (claims (at_member (spot_of spot.entry) (shape_seen shape) (members_of before.now)
        member.now.key (data_of member.now.value)) (sort_at (shape_seen shape) member.now.key)
        (data_of member.now.value)) told.items) }
{
    let key = member.key.as_str();
    let twice = is_twice(alloc, shape.others, keys, before, key)?;
    let spot = Spot {
        names: spot.names,
        level: spot.level,
        ends: spot.ends,
        key,
        doubled: is_doubled(shape.groups, before, member) || twice,
    };
    check(alloc, spot, sort_at(shape, key), &member.value)
}

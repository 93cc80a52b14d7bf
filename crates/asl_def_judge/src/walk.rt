// One walk over a definition for its first fault.
ghost use Rattle.std.specs.Prelude.{◌≡◌, ◌∷◌, [], ℕ, List, IfOk, option_map, map, not, ◌||◌, codes};
ghost use Rattle.asl_json.specs.Same.{bytes_eq};
ghost use Rattle.std.specs.Fmt.{decimal};
ghost use Rattle.std.specs.HashSet.{contains_text};
ghost use Rattle.asl_json.specs.View.{data_of, members_of, member_of};
ghost use Rattle.asl_json_data.specs.Data.{Data, pairs, chain};
ghost use Rattle.asl_json_data.specs.Distinct.{has_key};
ghost use Rattle.asl_json.specs.Keys.{Knows};
ghost use Rattle.asl_json.specs.Meaning.{count, value_at};
ghost use Rattle.asl_def_schema.specs.private.Code.{shape_seen, rows_of, row_of, group_of, groups_of};
ghost use Rattle.asl_def_judge.specs.private.Spots.{spot_of};
ghost use Rattle.asl_def_schema.specs.Members.{shape_in, sort_at, is_among};
ghost use Rattle.asl_def_schema.specs.Claims.{Spot, step, is_true, counts, any_counts, is_doubled, any_in, group_demands, has_any, is_needed, row_claims, names_in, inside, at_member, is_twice, claims, item_claims, member_claims, object_claims, under};
ghost use Rattle.asl_def_schema.specs.First.{Found, Answers, better};
ghost use Rattle.asl_def_judge.specs.private.Firsts.{Judges, unless, at_root, under_step};

use crate::spot::{Spot, at_item, one_deeper};
use crate::value::{is_list, is_object, is_template, own_fault, sooner, unless};
use asl_def_schema::{
    Fault, FaultKind, Group, Row, Shape, Sort, find, is_among, item_sort, shape_in, sort_at,
};
use asl_json::{Items, Json, Keys, Member, Members};
use asl_template::is_double;
use std::alloc::{AllocError, Global};
use std::collections::HashSet;

/// The one with the lower number, else the earlier one.
pub(crate) fn better(a: Option<Fault>, b: Option<Fault>) -> Option<Fault>
    ensures { result ≡ better a b }
{
    match (a, b) {
        (None, b) => b,
        (Some(a), None) => Some(a),
        (Some(a), Some(b)) => {
            if b.kind().number() < a.kind().number() {
                return Some(b);
            }
            Some(a)
        }
    }
}

fn fault_here(alloc: Global, kind: Option<FaultKind>) -> Option<Fault>
    ensures { result ≡ option_map at_root kind }
{
    match kind {
        Some(kind) => Some(Fault::here(alloc, kind)),
        None => None,
    }
}

/// A fault inside a member, as it is seen from the object.
fn under_name(
    alloc: Global,
    fault: Option<Fault>,
    at: usize,
    name: &str,
) -> Result<Option<Fault>, AllocError>
    ensures { IfOk result (λ f. f ≡ option_map (under_step (step at name.now)) fault) }
{
    match fault {
        None => Ok(None),
        Some(fault) => Ok(Some(fault.under(alloc, at, name)?)),
    }
}

/// A fault inside an item, as it is seen from the list.
fn under_index(alloc: Global, fault: Option<Fault>, at: usize) -> Result<Option<Fault>, AllocError>
    ensures { IfOk result (λ f. f ≡ option_map (under_step (step at (decimal at))) fault) }
{
    match fault {
        None => Ok(None),
        Some(fault) => Ok(Some(fault.under_index(alloc, at)?)),
    }
}

/// Whether a name is one of a group's.
fn is_in(group: &Group, name: &str) -> bool
    ensures { result ≡ is_among name.now (group_of group.now).names }
{
    is_among(name, group.names) || is_among(name, group.more)
}

/// Whether a member is no `End`, or true.
fn is_there(member: &Member) -> bool
    ensures { result ≡ (not (bytes_eq member.now.key (codes "End"))
        || is_true (data_of member.now.value)) }
{
    member.key.as_str() != "End" || matches!(member.value, Json::Bool(true))
}

/// Whether a member counts in a group: a false `End` counts as absent.
fn counts(group: &Group, member: &Member) -> bool
    ensures { result ≡ counts (group_of group.now) member.now.key (data_of member.now.value) }
{
    is_in(group, member.key.as_str()) && is_there(member)
}

fn any_counts(group: &Group, members: &[Member]) -> bool
    ensures { result ≡ any_counts (group_of group.now) (members_of members.now) }
{
    for member in members {
        if counts(group, member) {
            return true;
        }
    }
    false
}

/// Whether another member of a group of this one is among those before it.
pub fn is_doubled(groups: &[Group], before: &[Member], member: &Member) -> bool
    ensures { result ≡ is_doubled (groups_of groups.now) (members_of before.now) member.now.key
        (data_of member.now.value) }
{
    for group in groups {
        if counts(group, member) && any_counts(group, before) {
            return true;
        }
    }
    false
}

/// The fault of an object in which no member of this group is there.
pub fn undecided(group: &Group, members: &[Member]) -> Option<FaultKind>
    ensures { result ≡ unless
        (not group.now.exact || any_counts (group_of group.now) (members_of members.now))
        FaultKind.Neither }
{
    unless(
        !group.exact || any_counts(group, members),
        FaultKind::Neither,
    )
}

/// The fault of an object in which no member of a group is there.
fn group_fault(groups: &[Group], members: &[Member]) -> Option<FaultKind>
    ensures { Judges (group_demands (groups_of groups.now) (pairs (members_of members.now)))
        result }
{
    let mut fault = None;
    for group in groups {
        fault = sooner(fault, undecided(group, members));
    }
    fault
}

fn has_any(names: &[&str], members: &[Member]) -> bool
    ensures { result ≡ has_any (map (λ l. l.now) names.now) (pairs (members_of members.now)) }
{
    for name in names {
        if find(members, name).is_some() {
            return true;
        }
    }
    false
}

fn is_needed(row: Row, members: &[Member]) -> bool
    ensures { result ≡ is_needed (row_of row) (pairs (members_of members.now)) }
{
    match row {
        Row::Required(_, _) => true,
        Row::Optional(_, _) => false,
        Row::Beside(users, _, _) => has_any(users, members),
    }
}

/// The fault of a required member that is missing. The error is that memory ran out.
pub fn lack(
    alloc: Global,
    at: usize,
    row: Row,
    members: &[Member],
) -> Result<Option<Fault>, AllocError>
    ensures { IfOk result (Answers
        (row_claims at (row_of row ∷ []) (pairs (members_of members.now)))) }
{
    if !is_needed(row, members) || find(members, row.name()).is_some() {
        return Ok(None);
    }
    Ok(Some(Fault::here(alloc, FaultKind::Missing).under(alloc, at, row.name())?))
}

/// The first required member that is missing.
fn missing(alloc: Global, rows: &[Row], members: &[Member]) -> Result<Option<Fault>, AllocError>
    ensures { IfOk result (Answers
        (row_claims (count (pairs (members_of members.now))) (rows_of rows.now)
        (pairs (members_of members.now)))) }
{
    let mut best = None;
    for (i, row) in rows.iter().enumerate() {
        let fault = lack(alloc, members.len() + i, *row, members)?;
        best = better(best, fault);
    }
    Ok(best)
}

/// The keys of these members.
fn keys_of(alloc: Global, members: &[Member]) -> Result<HashSet<String>, AllocError>
    ensures { IfOk result (λ s. (k : List ℕ)
        → contains_text s k ≡ has_key k (members_of members.now)) }
{
    let mut keys = HashSet::new(alloc);
    for member in members {
        keys.insert(String::from_str(alloc, member.key.as_str())?)?;
    }
    Ok(keys)
}

/// The states of a machine.
fn states_in(members: &[Member]) -> &[Member]
    ensures { (k : List ℕ)
        → has_key k (members_of result.now) ≡ names_in (pairs (members_of members.now)) k }
{
    match find(members, "States") {
        Some(Json::Dict(states)) => states.members(),
        _ => &[],
    }
}

/// The names of a machine's states. The error is that memory ran out.
pub fn state_names(alloc: Global, members: &[Member]) -> Result<HashSet<String>, AllocError>
    ensures { IfOk result (λ s. (k : List ℕ)
        → contains_text s k ≡ names_in (pairs (members_of members.now)) k) }
{
    keys_of(alloc, states_in(members))
}

/// The first fault of the lowest number in a value that stands at this spot and is to be of this sort.
#[cycle(walk)]
pub(crate) fn check(
    alloc: Global,
    spot: Spot,
    sort: Sort,
    value: &Json,
) -> Result<Option<Fault>, AllocError>
    ensures { IfOk result (Answers (claims (spot_of spot.entry) sort (data_of value.now))) }
{
    let own = fault_here(alloc, own_fault(alloc, spot, sort, value)?);
    match value {
        Json::List(items) => {
            if !is_list(sort) {
                return Ok(own);
            }
            let inside = check_items(alloc, spot, item_sort(sort), items)?;
            Ok(better(own, inside))
        }
        Json::Dict(members) => {
            if !is_object(sort) {
                return Ok(own);
            }
            let inside = check_object(alloc, spot, sort, members)?;
            Ok(better(own, inside))
        }
        _ => Ok(own),
    }
}

#[cycle(walk)]
fn check_items(
    alloc: Global,
    spot: Spot,
    sort: Sort,
    items: &Items,
) -> Result<Option<Fault>, AllocError>
    ensures { IfOk result (Answers (item_claims (spot_of spot.entry) sort 0 (chain items.now))) }
{
    let values = items.values();
    let mut best = None;
    for (i, value) in values.iter().enumerate() {
        let fault = check(alloc, at_item(spot, i + 1 == values.len()), sort, value)?;
        best = better(best, under_index(alloc, fault, i)?);
    }
    Ok(best)
}

#[cycle(walk)]
fn check_object(
    alloc: Global,
    spot: Spot,
    sort: Sort,
    members: &Members,
) -> Result<Option<Fault>, AllocError>
    ensures { IfOk result (Answers (object_claims (spot_of spot.entry) sort (pairs members.now))) }
{
    let pairs = members.members();
    let shape = shape_in(sort, pairs);
    let undecided = fault_here(alloc, group_fault(shape.groups, pairs));
    let inside = check_inside(alloc, spot, sort, shape, members)?;
    let lacking = missing(alloc, shape.rows, pairs)?;
    Ok(better(undecided, better(inside, lacking)))
}

/// A machine has target names of its own.
#[cycle(walk)]
fn check_inside(
    alloc: Global,
    spot: Spot,
    sort: Sort,
    shape: Shape,
    members: &Members,
) -> Result<Option<Fault>, AllocError>
    ensures { IfOk result (Answers
        (member_claims (inside (spot_of spot.entry) sort (pairs members.now)) (shape_seen shape) []
        0 (pairs members.now))) }
{
    match sort {
        Sort::Definition | Sort::Machine | Sort::ItemProcessor => {
            let names = state_names(alloc, members.members())?;
            let spot = Spot {
                names: &names,
                level: one_deeper(spot.level),
                ends: spot.ends,
                key: spot.key,
                doubled: spot.doubled,
            };
            check_members(alloc, spot, shape, members)
        }
        _ => check_members(alloc, spot, shape, members),
    }
}

#[cycle(walk)]
fn check_members(
    alloc: Global,
    spot: Spot,
    shape: Shape,
    members: &Members,
) -> Result<Option<Fault>, AllocError>
    ensures { IfOk result (Answers
        (member_claims (spot_of spot.entry) (shape_seen shape) [] 0 (pairs members.now))) }
{
    let pairs = members.members();
    let mut keys = Keys::new();
    let mut best = None;
    for (i, member) in pairs.iter().enumerate() {
        let before = &pairs[..i];
        let key = member.key.as_str();
        let fault = check_member(alloc, spot, shape, &keys, before, member)?;
        best = better(best, under_name(alloc, fault, i, key)?);
        keys.add(alloc, before, key)?;
    }
    Ok(best)
}

/// Whether of `k` and `k.$` in an object of a template the other one stands before. The error is that memory ran out.
pub fn is_twice(
    alloc: Global,
    others: Sort,
    keys: &Keys,
    before: &[Member],
    key: &str,
) -> Result<bool, AllocError>
    requires { Knows keys.now (members_of before.now) }
    ensures { IfOk result (λ b. b ≡ is_twice others (members_of before.now) key.now) }
{
    if !is_template(others) {
        return Ok(false);
    }
    is_double(alloc, keys, before, key)
}

#[cycle(walk)]
fn check_member(
    alloc: Global,
    spot: Spot,
    shape: Shape,
    keys: &Keys,
    before: &[Member],
    member: &Member,
) -> Result<Option<Fault>, AllocError>
    requires { Knows keys.now (members_of before.now) }
    ensures { IfOk result (Answers
        (claims (at_member (spot_of spot.entry) (shape_seen shape) (members_of before.now)
        member.now.key (data_of member.now.value)) (sort_at (shape_seen shape) member.now.key)
        (data_of member.now.value))) }
{
    let key = member.key.as_str();
    let twice = is_twice(alloc, shape.others, keys, before, key)?;
    let spot = Spot {
        names: spot.names,
        level: spot.level,
        ends: spot.ends,
        key,
        doubled: is_doubled(shape.groups, before, member) || twice,
    };
    check(alloc, spot, sort_at(shape, key), &member.value)
}

// The names of the states of a whole definition, which are to differ.
ghost use Rattle.std.specs.Prelude.{◌++◌, ℕ, List, IfOk};
ghost use Rattle.asl_json.specs.View.{data_of};
ghost use Rattle.asl_json_data.specs.Data.{pairs, chain};
ghost use Rattle.asl_def_schema.specs.private.Code.{shape_seen};
ghost use Rattle.asl_def_schema.specs.Members.{sort_at};
ghost use Rattle.asl_def_schema.specs.States.{Has, Finds, own_name, states_in, item_states, member_states};

use crate::value::{is_list, is_object};
use asl_def_schema::{Fault, FaultKind, Shape, Sort, item_sort, shape_in, sort_at};
use asl_json::{Items, Json, Member, Members};
use std::alloc::{AllocError, Global};
use std::collections::HashSet;

/// Takes in the name of a state; the fault is that another has it. Other values have no names.
fn with_name(
    alloc: Global,
    seen: HashSet<String>,
    sort: Sort,
    name: &str,
) -> Result<Result<HashSet<String>, Fault>, AllocError>
    ensures { (ks : List (List ℕ)) → Has seen ks → IfOk result (Finds ks (own_name sort name.now)) }
{
    match sort {
        Sort::State => {
            if seen.contains(name) {
                return Ok(Err(Fault::here(alloc, FaultKind::DuplicateState)));
            }
            let mut seen = seen;
            seen.insert(String::from_str(alloc, name)?)?;
            Ok(Ok(seen))
        }
        _ => Ok(Ok(seen)),
    }
}

/// Takes in the names of the states in a value, in document order; the fault is the first that another before it has.
#[cycle(states)]
pub(crate) fn with_states(
    alloc: Global,
    seen: HashSet<String>,
    sort: Sort,
    value: &Json,
) -> Result<Result<HashSet<String>, Fault>, AllocError>
    ensures { (ks : List (List ℕ)) → Has seen ks
        → IfOk result (Finds ks (states_in sort (data_of value.now))) }
{
    match value {
        Json::List(items) => {
            if !is_list(sort) {
                return Ok(Ok(seen));
            }
            with_items(alloc, seen, item_sort(sort), items)
        }
        Json::Dict(members) => {
            if !is_object(sort) {
                return Ok(Ok(seen));
            }
            let shape = shape_in(sort, members.members());
            with_members(alloc, seen, shape, members)
        }
        _ => Ok(Ok(seen)),
    }
}

#[cycle(states)]
fn with_items(
    alloc: Global,
    seen: HashSet<String>,
    sort: Sort,
    items: &Items,
) -> Result<Result<HashSet<String>, Fault>, AllocError>
    ensures { (ks : List (List ℕ)) → Has seen ks
        → IfOk result (Finds ks (item_states sort 0 (chain items.now))) }
{
    let values = items.values();
    let mut seen = seen;
    for (i, value) in values.iter().enumerate() {
        match with_states(alloc, seen, sort, value)? {
            Ok(more) => seen = more,
            Err(fault) => return Ok(Err(fault.under_index(alloc, i)?)),
        }
    }
    Ok(Ok(seen))
}

#[cycle(states)]
fn with_members(
    alloc: Global,
    seen: HashSet<String>,
    shape: Shape,
    members: &Members,
) -> Result<Result<HashSet<String>, Fault>, AllocError>
    ensures { (ks : List (List ℕ)) → Has seen ks
        → IfOk result (Finds ks (member_states (shape_seen shape) 0 (pairs members.now))) }
{
    let pairs = members.members();
    let mut seen = seen;
    for (i, member) in pairs.iter().enumerate() {
        match with_member(alloc, seen, shape, member)? {
            Ok(more) => seen = more,
            Err(fault) => return Ok(Err(fault.under(alloc, i, member.key.as_str())?)),
        }
    }
    Ok(Ok(seen))
}

/// A state's own name comes before those inside it.
#[cycle(states)]
fn with_member(
    alloc: Global,
    seen: HashSet<String>,
    shape: Shape,
    member: &Member,
) -> Result<Result<HashSet<String>, Fault>, AllocError>
    ensures { (ks : List (List ℕ)) → Has seen ks
        → IfOk result
        (Finds ks (own_name (sort_at (shape_seen shape) member.now.key) member.now.key
        ++ states_in (sort_at (shape_seen shape) member.now.key) (data_of member.now.value))) }
{
    let key = member.key.as_str();
    let sort = sort_at(shape, key);
    match with_name(alloc, seen, sort, key)? {
        Ok(seen) => with_states(alloc, seen, sort, &member.value),
        Err(fault) => Ok(Err(fault)),
    }
}

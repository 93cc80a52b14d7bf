// `States.JsonMerge`.
ghost use Rattle.std.specs.Prelude.{◌≡◌, Ok, IfErr, OnOk};
ghost use Rattle.asl_json_data.specs.Data.{Data};
ghost use Rattle.asl_json.specs.View.{data_of, members_of};
ghost use Rattle.asl_intrinsic_functions.specs.Gives.{Gives};
ghost use Rattle.asl_intrinsic_functions.specs.Merge.{merged, false_in, json_merge};
ghost use Rattle.asl_intrinsic_functions.specs.private.Loops.{with_member, put_in};
ghost use Rattle.asl_intrinsic_functions.specs.private.Places.{HasPlaces};

use crate::convert::object;
use crate::fault::{EvalFault, Reason};
use asl_json::{Json, Member, Members};
use std::alloc::Global;
use std::collections::HashMap;

/// Puts a member in place of the one of its key, or behind the others.
fn put_member<'a>(
    alloc: Global,
    members: &mut Members,
    places: &mut HashMap<&'a str, usize>,
    member: &'a Member,
) -> Result<(), EvalFault>
    requires { HasPlaces places.old members.old }
    ensures members { OnOk result (members.new
        ≡ with_member members.old member.now.key (data_of member.now.value)) }
    ensures places { OnOk result (HasPlaces places.new members.new) }
    ensures memory { IfErr result (λ e. e ≡ EvalFault.OutOfMemory) }
{
    let value = member.value.try_clone(alloc)?;
    match places.get(member.key.as_str()) {
        Some(place) => {
            *members.value_mut(*place) = value;
        }
        None => {
            places.insert(member.key.as_str(), members.len())?;
            members.push(member.key.try_clone(alloc)?, value)?;
        }
    }
    Ok(())
}

/// Puts these members in, one after another.
fn put_all<'a>(
    alloc: Global,
    members: &mut Members,
    places: &mut HashMap<&'a str, usize>,
    more: &'a [Member],
) -> Result<(), EvalFault>
    requires { HasPlaces places.old members.old }
    ensures members { OnOk result (members.new ≡ put_in members.old (members_of more.now)) }
    ensures places { OnOk result (HasPlaces places.new members.new) }
    ensures memory { IfErr result (λ e. e ≡ EvalFault.OutOfMemory) }
{
    for member in more {
        put_member(alloc, members, places, member)?;
    }
    Ok(())
}

/// The members of both.
fn merged(alloc: Global, first: &Members, second: &Members) -> Result<Members, EvalFault>
    ensures { Gives (λ m. m) (Ok (merged first.now second.now)) result }
{
    let mut members = Members::new(alloc);
    let mut places = HashMap::new(alloc);
    put_all(alloc, &mut members, &mut places, first.members())?;
    put_all(alloc, &mut members, &mut places, second.members())?;
    Ok(members)
}

/// Only the shallow merge is there, which the third argument asks for.
fn shallow(value: &Json) -> Result<(), EvalFault>
    ensures { Gives (λ u. u) (false_in (data_of value.now)) result }
{
    match value {
        Json::Bool(false) => Ok(()),
        _ => Err(EvalFault::Fails(Reason::Unfit)),
    }
}

/// `States.JsonMerge`
pub(crate) fn json_merge(
    alloc: Global,
    first: &Json,
    second: &Json,
    deep: &Json,
) -> Result<Json, EvalFault>
    ensures { Gives data_of (json_merge (data_of first.now) (data_of second.now) (data_of deep.now))
        result }
{
    let first = object(first)?;
    let second = object(second)?;
    shallow(deep)?;
    Ok(Json::Dict(merged(alloc, first, second)?))
}

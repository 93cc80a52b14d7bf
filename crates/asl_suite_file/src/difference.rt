// Where a value differs from the one that is wanted.
ghost use Rattle.std.specs.Prelude.{◌≡◌, [], None, Some, IfOk, drop};
ghost use Rattle.asl_json_data.specs.Data.{chain, no_items, pairs};
ghost use Rattle.asl_json.specs.View.{data_of, items_of, members_of};
ghost use Rattle.asl_suite_file.specs.declared.holding.Likeness.TheVariants.{Same};
ghost use Rattle.asl_suite_file.specs.Differences.{differs_at, at_unwanted, difference, in_items, in_members, first_difference};

use crate::holding::{Likeness, is_like};
use crate::spelled::copy;
use asl_json::{Items, Json, Member, Members};
use asl_json_write::Pointer;
use std::alloc::{AllocError, Global};

/// Where a value differs first from the one that is wanted.
pub struct Difference {
    /// The place in both.
    pub place: Pointer,
    /// What is wanted there, if anything is.
    pub wanted: Option<Json>,
    /// What stands there, if anything does.
    pub came: Option<Json>,
}

// Written out, so that a caller's proof sees one call and not the drop of each part.
impl Drop for Difference {
    fn drop(self) {
        let Difference {
            place: _place,
            wanted: _wanted,
            came: _came,
        } = self;
    }
}

fn only_wanted(alloc: Global, place: Pointer, wanted: &Json) -> Result<Difference, AllocError>
    ensures { IfOk result (λ x. x ≡ differs_at place (Some (data_of wanted.now)) None) }
{
    Ok(Difference {
        place,
        wanted: Some(copy(alloc, wanted)?),
        came: None,
    })
}

fn only_came(alloc: Global, place: Pointer, came: &Json) -> Result<Difference, AllocError>
    ensures { IfOk result (λ x. x ≡ differs_at place None (Some (data_of came.now))) }
{
    Ok(Difference {
        place,
        wanted: None,
        came: Some(copy(alloc, came)?),
    })
}

fn both(alloc: Global, place: Pointer, wanted: &Json, came: &Json) -> Result<Difference, AllocError>
    ensures { IfOk result (λ x. x ≡ differs_at place (Some (data_of wanted.now)) (Some (data_of came.now))) }
{
    Ok(Difference {
        place,
        wanted: Some(copy(alloc, wanted)?),
        came: Some(copy(alloc, came)?),
    })
}

fn nowhere(place: Pointer) -> Difference
    ensures { result ≡ differs_at place None None }
{
    Difference {
        place,
        wanted: None,
        came: None,
    }
}

/// The first member that only the other object has.
fn unwanted(
    alloc: Global,
    place: Pointer,
    wanted: &Members,
    came: &[Member],
) -> Result<Difference, AllocError>
    ensures { IfOk result (λ x. x ≡ at_unwanted place (pairs wanted.now) (pairs (members_of came.now))) }
{
    for member in came {
        let key = member.key.as_str();
        if wanted.find(key).is_none() {
            return only_came(alloc, place.at_name(key)?, &member.value);
        }
    }
    Ok(nowhere(place))
}

/// The first item that only the other list has: that of this number.
fn behind(
    alloc: Global,
    likeness: Likeness,
    place: Pointer,
    number: usize,
    came: &[Json],
) -> Result<Difference, AllocError>
    ensures { IfOk result (λ x. x ≡ in_items likeness place number no_items (chain (items_of (drop number came.now)))) }
{
    if number < came.len() {
        return only_came(alloc, place.at_index(number)?, &came[number]);
    }
    Ok(nowhere(place))
}

/// Where two values at this place differ first that aren't alike. The error is that memory ran out.
#[cycle(descend)]
fn descend(
    alloc: Global,
    likeness: Likeness,
    place: Pointer,
    wanted: &Json,
    came: &Json,
) -> Result<Difference, AllocError>
    ensures { IfOk result (λ x. x ≡ difference likeness place (data_of wanted.now) (data_of came.now)) }
{
    match (wanted, came) {
        (Json::List(wanted), Json::List(came)) => in_lists(alloc, likeness, place, wanted, came),
        (Json::Dict(wanted), Json::Dict(came)) => in_objects(alloc, likeness, place, wanted, came),
        _ => both(alloc, place, wanted, came),
    }
}

#[cycle(descend)]
fn in_lists(
    alloc: Global,
    likeness: Likeness,
    place: Pointer,
    wanted: &Items,
    came: &Items,
) -> Result<Difference, AllocError>
    ensures { IfOk result (λ x. x ≡ in_items likeness place 0 (chain wanted.now) (chain came.now)) }
{
    let wanted = wanted.values();
    let came = came.values();
    for (i, value) in wanted.iter().enumerate() {
        if i >= came.len() {
            return only_wanted(alloc, place.at_index(i)?, value);
        }
        if !is_like(likeness, value, &came[i]) {
            return descend(alloc, likeness, place.at_index(i)?, value, &came[i]);
        }
    }
    behind(alloc, likeness, place, wanted.len(), came)
}

#[cycle(descend)]
fn in_objects(
    alloc: Global,
    likeness: Likeness,
    place: Pointer,
    wanted: &Members,
    came: &Members,
) -> Result<Difference, AllocError>
    ensures { IfOk result (λ x. x ≡ in_members likeness place (pairs wanted.now) (pairs came.now)
        (at_unwanted place (pairs wanted.now) (pairs came.now))) }
{
    let members = wanted.members();
    for member in members {
        let key = member.key.as_str();
        let Some(other) = came.find(key) else {
            return only_wanted(alloc, place.at_name(key)?, &member.value);
        };
        if !is_like(likeness, &member.value, other) {
            return descend(alloc, likeness, place.at_name(key)?, &member.value, other);
        }
    }
    unwanted(alloc, place, wanted, came.members())
}

/// Where a value differs first from the one that is wanted, item by item and by the members in the order of the wanted one; none
/// where they are alike. The error is that memory ran out.
pub fn first_difference(
    alloc: Global,
    likeness: Likeness,
    wanted: &Json,
    came: &Json,
) -> Result<Option<Difference>, AllocError>
    ensures { IfOk result (λ o. o ≡ first_difference likeness (data_of wanted.now) (data_of came.now)) }
{
    if is_like(likeness, wanted, came) {
        return Ok(None);
    }
    let place = Pointer::whole(alloc);
    Ok(Some(descend(alloc, likeness, place, wanted, came)?))
}

/// Where a list differs first from the one that is wanted, item by item. The error is that memory ran out.
pub fn list_difference(
    alloc: Global,
    wanted: &Items,
    came: &Items,
) -> Result<Difference, AllocError>
    ensures { IfOk result (λ x. x ≡ in_items Same [] 0 (chain wanted.now) (chain came.now)) }
{
    let place = Pointer::whole(alloc);
    in_lists(alloc, Likeness::Same, place, wanted, came)
}

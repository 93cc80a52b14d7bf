// The functions on lists.
ghost use Rattle.std.specs.Prelude.{◌≡◌, ◌<◌, Ok, [], length, option_map};
ghost use Rattle.std.specs.List.{list_any};
ghost use Rattle.asl_json.specs.Meaning.{same};
ghost use Rattle.asl_json_data.specs.Data.{list, chain};
ghost use Rattle.asl_json.specs.View.{data_of, items_of};
ghost use Rattle.asl_intrinsic_functions.specs.Gives.{Gives};
ghost use Rattle.asl_intrinsic_functions.specs.Seen.{seen, all_seen};
ghost use Rattle.asl_intrinsic_functions.specs.Outcome.{or_fails};
ghost use Rattle.asl_intrinsic_functions.specs.Lists.{array, array_contains, array_get_item, array_length, array_unique, array_partition, item_of, first_ones, pieces};
ghost use Rattle.asl_intrinsic_functions.specs.declared.fault.Reason.TheVariants.{Range};

use crate::convert::{computed, list, number, whole};
use crate::fault::{EvalFault, Reason};
use crate::kept::Kept;
use crate::value::Value;
use asl_json::{Items, Json};
use asl_json_same::same;
use std::alloc::Global;

/// `States.Array`
pub(crate) fn array(alloc: Global, values: &[Value<'_>]) -> Result<Json, EvalFault>
    ensures { Gives data_of (array (all_seen values.now)) result }
{
    let mut items = Vec::new(alloc);
    for value in values {
        items.push(value.copied(alloc)?)?;
    }
    Ok(Json::List(Items::of_values(items)))
}

/// Whether one of the items is the same as the value.
fn is_among(items: &[Json], value: &Json) -> bool
    ensures { result ≡ list_any (λ x. same x (data_of value.now)) (items_of items.now) }
{
    for item in items {
        if same(item, value) {
            return true;
        }
    }
    false
}

/// `States.ArrayContains`
pub(crate) fn array_contains(items: &Json, value: &Json) -> Result<Json, EvalFault>
    ensures { Gives data_of (array_contains (data_of items.now) (data_of value.now)) result }
{
    let items = list(items)?;
    Ok(Json::Bool(is_among(items, value)))
}

/// The item of this number.
fn item(items: &[Json], index: i128) -> Option<&Json>
    ensures { option_map (λ v. data_of v.now) result ≡ item_of (items_of items.now) index }
{
    let index = usize::try_from(index).ok()?;
    items.get(index)
}

/// `States.ArrayGetItem`
pub(crate) fn array_get_item(alloc: Global, items: &Json, index: &Json) -> Result<Json, EvalFault>
    ensures { Gives data_of (array_get_item (data_of items.now) (data_of index.now)) result }
{
    let items = list(items)?;
    let index = whole(number(index)?)?;
    match item(items, index) {
        Some(item) => Ok(item.try_clone(alloc)?),
        None => Err(EvalFault::Fails(Reason::Range)),
    }
}

/// `States.ArrayLength`
pub(crate) fn array_length(items: &Json) -> Result<Json, EvalFault>
    ensures { Gives data_of (array_length (data_of items.now)) result }
{
    let items = list(items)?;
    computed(items.len() as i128)
}

/// The items that are the same as none of those kept before them.
fn first_ones(alloc: Global, items: &[Json]) -> Result<Vec<Json>, EvalFault>
    ensures { Gives (λ v. items_of v.items) (Ok (first_ones [] (items_of items.now))) result }
{
    let mut kept = Kept::new(alloc);
    for item in items {
        kept = kept.with(alloc, item)?;
    }
    Ok(kept.into_items())
}

/// `States.ArrayUnique`
pub(crate) fn array_unique(alloc: Global, items: &Json) -> Result<Json, EvalFault>
    ensures { Gives data_of (array_unique (data_of items.now)) result }
{
    let items = list(items)?;
    Ok(Json::List(Items::of_values(first_ones(alloc, items)?)))
}

/// Copies of the items.
fn copies(alloc: Global, items: &[Json]) -> Result<Vec<Json>, EvalFault>
    ensures { Gives (λ v. items_of v.items) (Ok (items_of items.now)) result }
{
    let mut copied = Vec::new(alloc);
    for item in items {
        copied.push(item.try_clone(alloc)?)?;
    }
    Ok(copied)
}

/// A list of copies of the items.
fn piece(alloc: Global, items: &[Json]) -> Result<Json, EvalFault>
    ensures { Gives data_of (Ok (list (chain (items_of items.now)))) result }
{
    Ok(Json::List(Items::of_values(copies(alloc, items)?)))
}

/// Pieces of so many items.
fn pieces(alloc: Global, items: &[Json], size: usize) -> Result<Vec<Json>, EvalFault>
    requires { 0 < size }
    ensures { Gives (λ v. items_of v.items)
        (Ok (pieces (length items.now) size (items_of items.now))) result }
{
    let mut pieces = Vec::new(alloc);
    let mut rest = items;
    while rest.len() > 0 {
        let (front, behind) = rest.split_at(size.min(rest.len()));
        pieces.push(piece(alloc, front)?)?;
        rest = behind;
    }
    Ok(pieces)
}

/// `States.ArrayPartition`
pub(crate) fn array_partition(alloc: Global, items: &Json, size: &Json) -> Result<Json, EvalFault>
    ensures { Gives data_of (array_partition (data_of items.now) (data_of size.now)) result }
{
    let items = list(items)?;
    let size = whole(number(size)?)?;
    if size < 1 {
        return Err(EvalFault::Fails(Reason::Range));
    }
    Ok(Json::List(Items::of_values(pieces(alloc, items, size as usize)?)))
}

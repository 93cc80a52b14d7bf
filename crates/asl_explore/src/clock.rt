// Which text of a definition may read the clock.
ghost use Rattle.std.specs.Prelude.{◌≡◌, map, option_map, IfOk};
ghost use Rattle.std.specs.Fmt.{decimal};
ghost use Rattle.asl_json_data.specs.Data.{chain, pairs};
ghost use Rattle.asl_json.specs.View.{data_of};
ghost use Rattle.asl_step_reads.specs.Mentions.{text_may_read};
ghost use Rattle.asl_explore.specs.Clock.{clock_place, pointer_text, way_among, way_in, way_to};

use asl_def::Machine;
use asl_json::{Items, Json, Members, Txt};
use asl_json_write::Pointer;
use asl_step_reads::may_read;
use asl_text::put_decimal;
use std::alloc::{AllocError, Global};

/// A number in plain decimal. The error is that memory ran out.
fn number_text(alloc: Global, number: usize) -> Result<Txt, AllocError>
    ensures { IfOk result (λ t. t ≡ decimal number) }
{
    let mut text = String::new(alloc);
    put_decimal(&mut text, number as u64)?;
    Ok(Txt::new(text))
}

/// The way to the first text of a value that may read what stands at a chain of keys of the Context Object; none where none may. The error
/// is that memory ran out.
#[cycle(way_to)]
fn way_to(alloc: Global, keys: &[&str], value: &Json) -> Result<Option<Vec<Txt>>, AllocError>
    ensures { IfOk result (λ o. option_map (λ v. v.items) o
        ≡ way_to (text_may_read (map (λ k. k.now) keys.now)) (data_of value.now)) }
{
    match value {
        Json::Null | Json::Bool(_) | Json::Num(_) => Ok(None),
        Json::Text(_) => {
            if may_read(keys, value) {
                return Ok(Some(Vec::new(alloc)));
            }
            Ok(None)
        }
        Json::List(items) => way_among(alloc, keys, items),
        Json::Dict(members) => way_in(alloc, keys, members),
    }
}

/// The same of the items of a list.
#[cycle(way_to)]
fn way_among(alloc: Global, keys: &[&str], items: &Items) -> Result<Option<Vec<Txt>>, AllocError>
    ensures { IfOk result (λ o. option_map (λ v. v.items) o
        ≡ way_among (text_may_read (map (λ k. k.now) keys.now)) 0 (chain items.now)) }
{
    let values = items.values();
    for (number, value) in values.iter().enumerate() {
        if let Some(way) = way_to(alloc, keys, value)? {
            let mut way = way;
            way.push(number_text(alloc, number)?)?;
            return Ok(Some(way));
        }
    }
    Ok(None)
}

/// The same of the members of an object.
#[cycle(way_to)]
fn way_in(alloc: Global, keys: &[&str], members: &Members) -> Result<Option<Vec<Txt>>, AllocError>
    ensures { IfOk result (λ o. option_map (λ v. v.items) o
        ≡ way_in (text_may_read (map (λ k. k.now) keys.now)) (pairs members.now)) }
{
    let pairs = members.members();
    for member in pairs {
        if let Some(way) = way_to(alloc, keys, &member.value)? {
            let mut way = way;
            way.push(Txt::of(alloc, member.key.as_str())?)?;
            return Ok(Some(way));
        }
    }
    Ok(None)
}

/// The place at the end of a way. The error is that memory ran out.
fn pointer_of(alloc: Global, way: &[Txt]) -> Result<Pointer, AllocError>
    ensures { IfOk result (λ p. p ≡ pointer_text way.now) }
{
    let mut place = Pointer::whole(alloc);
    let count = way.len();
    for i in 0..count {
        place = place.at_name(way[count - 1 - i].as_str())?;
    }
    Ok(place)
}

/// Where the first text of a definition stands that may read the moment at which its state was entered; none where none may. The error is
/// that memory ran out.
pub(crate) fn clock_in(alloc: Global, machine: &Machine) -> Result<Option<Pointer>, AllocError>
    ensures { IfOk result (λ o. o ≡ clock_place machine.now) }
{
    let definition = machine.json(alloc)?;
    let Some(way) = way_to(alloc, &["State", "EnteredTime"], &definition)? else {
        return Ok(None);
    };
    let place = pointer_of(alloc, &way)?;
    Ok(Some(place))
}

// Putting a value where steps lead. On the way down each list or object is taken apart, on the way up it is made whole
// again: so no value is copied, and a long path needs no deep stack.
ghost use Rattle.std.specs.Prelude.{◌≡◌, ◌∷◌, [], Some, None, IfOk, IfErr, List};
ghost use Rattle.asl_json.specs.View.{data_of};
ghost use Rattle.asl_json_data.specs.Data.{Data, null, list, dict, chain, pairs, no_members};
ghost use Rattle.asl_json.specs.declared.value.Json.{Json};
ghost use Rattle.asl_path.specs.declared.step.Step.{Step};
ghost use Rattle.asl_path.specs.Walk.{put};
ghost use Rattle.asl_path.specs.private.Opened.{IsOpen, AreOpen, plug, rebuilt, Lacks, IsMet, Reaches, Along, IsPut};

use crate::path::PutFault;
use crate::step::Step;
use asl_json::{Items, Json, Members, Txt};
use std::alloc::{AllocError, AllocFailed, Global};
use std::mem;

/// A list or an object of which one part was taken out. Null holds its place.
#[derive(Drop)]
pub(crate) enum Opened {
    Item(Items, usize),
    Member(Members, usize),
}

/// What a step meets in a value.
#[derive(Drop)]
pub(crate) enum Met {
    /// The part that it leads to, and what that was taken out of.
    Part(Opened, Json),
    /// An object that lacks its name.
    Lacking(Members),
    /// A value that it doesn't lead into.
    Nothing(Json),
}

/// Why there are no objects for the steps.
#[derive(Drop)]
pub(crate) enum Stop {
    NoMatch,
    Memory,
}

impl From<AllocError> for Stop {
    ghost use Rattle.std.specs.Prelude.{◌≡◌};
    ghost use Rattle.asl_path.specs.declared.put.Stop.TheVariants.{Memory};

    ghost from_gives = { λ _ s. s ≡ Memory };

    fn from(_error: AllocError) -> Stop {
        Stop::Memory
    }
}

impl From<AllocFailed<Opened>> for Stop {
    ghost use Rattle.std.specs.Prelude.{◌≡◌};
    ghost use Rattle.asl_path.specs.declared.put.Stop.TheVariants.{Memory};

    ghost from_gives = { λ _ s. s ≡ Memory };

    fn from(_error: AllocFailed<Opened>) -> Stop {
        Stop::Memory
    }
}

/// The list or object with this part in the place that was kept for it.
fn close(opened: Opened, part: Json) -> Json
    requires { IsOpen opened }
    ensures { data_of result ≡ plug opened (data_of part) }
{
    match opened {
        Opened::Item(items, i) => {
            let mut items = items;
            *items.item_mut(i) = part;
            Json::List(items)
        }
        Opened::Member(members, i) => {
            let mut members = members;
            *members.value_mut(i) = part;
            Json::Dict(members)
        }
    }
}

/// The whole value with this part innermost.
fn close_all(opened: Vec<Opened>, part: Json) -> Json
    requires { AreOpen opened.items }
    ensures { data_of result ≡ rebuilt opened.items (data_of part) }
{
    let mut opened = opened;
    let mut value = part;
    while let Some(outer) = opened.pop() {
        value = close(outer, value);
    }
    value
}

/// What a name meets in an object.
fn meet_member(members: Members, name: &Txt) -> Met
    ensures { IsMet (dict (pairs members)) (Step.Name name.now) result }
{
    let mut members = members;
    let Some(i) = members.position(name.as_str()) else {
        return Met::Lacking(members);
    };
    let part = mem::replace(members.value_mut(i), Json::Null);
    Met::Part(Opened::Member(members, i), part)
}

/// What an index meets in a list.
fn meet_item(items: Items, i: usize) -> Met
    ensures { IsMet (list (chain items)) (Step.Index i) result }
{
    let mut items = items;
    if i >= items.len() {
        return Met::Nothing(Json::List(items));
    }
    let part = mem::replace(items.item_mut(i), Json::Null);
    Met::Part(Opened::Item(items, i), part)
}

/// What a step meets in a value.
fn meet(value: Json, step: &Step) -> Met
    ensures { IsMet (data_of value) step.now result }
{
    match step {
        Step::Name(name) => match value.into_members() {
            Ok(members) => meet_member(members, name),
            Err(other) => Met::Nothing(other),
        },
        Step::Index(i) => match value.into_items() {
            Ok(items) => meet_item(items, *i),
            Err(other) => Met::Nothing(other),
        },
    }
}

/// An object of one member of this name, which is taken out.
fn object(alloc: Global, name: &Txt) -> Result<Opened, AllocError>
    ensures { IfOk result (λ o. o ≡ Opened.Member ((name.now, null) ∷ []) 0) }
{
    let mut members = Members::new(alloc);
    members.push(name.try_clone(alloc)?, Json::Null)?;
    Ok(Opened::Member(members, 0))
}

/// Objects for these names, each within the one before.
fn objects(alloc: Global, steps: &[Step]) -> Result<Vec<Opened>, Stop>
    ensures ok { IfOk result (λ os. Reaches (dict no_members) steps.now os.items (dict no_members)
        []) }
    ensures why { IfErr result
        (λ e. e ≡ Stop.NoMatch → (r : Data) → put (dict no_members) steps.now r ≡ None) }
{
    let mut opened = Vec::new(alloc);
    let mut rest = steps;
    while let Some((step, behind)) = rest.split_first() {
        let Step::Name(name) = step else {
            return Err(Stop::NoMatch);
        };
        opened.push(object(alloc, name)?)?;
        rest = behind;
    }
    Ok(opened)
}

/// Puts a value into an object that lacks the name of the first step, behind the other members.
fn add(
    alloc: Global,
    members: Members,
    step: &Step,
    rest: &[Step],
    part: Json,
) -> Result<Json, PutFault>
    requires { Lacks step.now members }
    ensures { IsPut (Json.Dict members) (step.now ∷ rest.now) part result }
{
    let mut members = members;
    let Step::Name(name) = step else {
        unreachable!()
    };
    let inner = match objects(alloc, rest) {
        Ok(inner) => inner,
        Err(Stop::NoMatch) => return Err(PutFault::NoMatch(Json::Dict(members), part)),
        Err(Stop::Memory) => return Err(PutFault::OutOfMemory(Json::Dict(members), part)),
    };
    let Ok(key) = name.try_clone(alloc) else {
        return Err(PutFault::OutOfMemory(Json::Dict(members), part));
    };
    let Ok(()) = members.push(key, Json::Null) else {
        return Err(PutFault::OutOfMemory(Json::Dict(members), part));
    };
    let last = members.len() - 1;
    Ok(close(Opened::Member(members, last), close_all(inner, part)))
}

/// The answer for the whole value, from that for the part innermost.
fn finish(opened: Vec<Opened>, answer: Result<Json, PutFault>) -> Result<Json, PutFault>
    requires { AreOpen opened.items }
    ensures { (base here part : Json) (ss rest : List Step)
        → Along (data_of base) ss opened.items (data_of here) rest → IsPut here rest part answer
        → IsPut base ss part result }
{
    match answer {
        Ok(value) => Ok(close_all(opened, value)),
        Err(PutFault::NoMatch(value, part)) => Err(PutFault::NoMatch(
            close_all(opened, value),
            part,
        )),
        Err(PutFault::OutOfMemory(value, part)) => Err(PutFault::OutOfMemory(
            close_all(opened, value),
            part,
        )),
    }
}

/// Puts a value where steps lead.
pub(crate) fn put_at(
    alloc: Global,
    base: Json,
    steps: &[Step],
    part: Json,
) -> Result<Json, PutFault>
    ensures { IsPut base steps.now part result }
{
    let mut opened = Vec::new(alloc);
    let mut here = base;
    let mut rest = steps;
    while let Some((step, behind)) = rest.split_first() {
        match meet(here, step) {
            Met::Part(outer, inner) => {
                if let Err(refused) = opened.push(outer) {
                    return finish(
                        opened,
                        Err(PutFault::OutOfMemory(close(refused.value, inner), part)),
                    );
                }
                here = inner;
                rest = behind;
            }
            Met::Lacking(members) => return finish(opened, add(alloc, members, step, behind, part)),
            Met::Nothing(value) => return finish(opened, Err(PutFault::NoMatch(value, part))),
        }
    }
    finish(opened, Ok(part))
}

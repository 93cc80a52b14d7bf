// Reading a template.
ghost use Rattle.std.specs.Prelude.{◌≡◌, ◌∷◌, ◌++◌, [], true, false, IfOk};
ghost use Rattle.asl_json_data.specs.Data.{chain, pairs};
ghost use Rattle.asl_json_data.specs.Data as Data;
ghost use Rattle.asl_json_data.specs.Distinct.{Members};
ghost use Rattle.asl_json.specs.View.{data_of, items_of, member_of, members_of};
ghost use Rattle.asl_json.specs.Keys.{Knows};
ghost use Rattle.asl_template.specs.Names.{mark, name_before, is_double};
ghost use Rattle.asl_template.specs.private.View.{part_data, field_data, fields_data, Fits};
ghost use Rattle.asl_template.specs.Filling.{is_path as begins_path, chosen};
ghost use Rattle.asl_template.specs.Faults.{text_claim, double_claims, claims, item_claims, member_claims};
ghost use Rattle.asl_template.specs.private.Broken.{Reads};

use crate::fault::{Fault, Kind, judged, take_in, under_index, under_name};
use crate::name::{marked, name_before};
use crate::part::{Field, Fields, Part, Parts};
use asl_intrinsic::{CallFault, Expr};
use asl_json::{Items, Json, Keys, Member, Members, Txt};
use asl_path::{PathFault, RefPath};
use std::alloc::{AllocError, Global};

/// Whether the text of a computed member has to be a path, because it begins with `$`. Any other text has to be a call.
pub fn is_path(text: &str) -> bool
    ensures { result ≡ begins_path text.now }
{
    let bytes = text.as_bytes();
    bytes.len() >= 1 && bytes[0] == b'$'
}

/// A computed member of this name whose text is to be a path.
fn path_field(alloc: Global, name: &str, text: &str) -> Result<Result<Field, Fault>, AllocError>
    requires { begins_path text.now ≡ true }
    ensures reads { IfOk result (Reads field_data (name.now ++ mark, Data.text text.now)
        ((text_claim (Data.text text.now), []) ∷ [])) }
    ensures fits { IfOk result (λ r. IfOk r Fits) }
{
    match RefPath::read(alloc, text) {
        Ok(path) => Ok(Ok(Field::Path(Txt::of(alloc, name)?, path))),
        Err(PathFault::PathProfile(at)) => Ok(Err(Fault::here(alloc, Kind::PathText(at)))),
        Err(PathFault::OutOfMemory) => Err(AllocError),
    }
}

/// A computed member of this name whose text is to be a call.
fn call_field(alloc: Global, name: &str, text: &str) -> Result<Result<Field, Fault>, AllocError>
    requires { begins_path text.now ≡ false }
    ensures reads { IfOk result (Reads field_data (name.now ++ mark, Data.text text.now)
        ((text_claim (Data.text text.now), []) ∷ [])) }
    ensures fits { IfOk result (λ r. IfOk r Fits) }
{
    match Expr::read(alloc, text) {
        Ok(call) => Ok(Ok(Field::Call(Txt::of(alloc, name)?, call))),
        Err(fault) => match fault {
            CallFault::OutOfMemory => Err(AllocError),
            fault => Ok(Err(Fault::here(alloc, Kind::CallText(fault)))),
        },
    }
}

/// A computed member of this name.
fn computed_field(
    alloc: Global,
    name: &str,
    value: &Json,
) -> Result<Result<Field, Fault>, AllocError>
    ensures reads { IfOk result (Reads field_data (name.now ++ mark, data_of value.now)
        ((text_claim (data_of value.now), []) ∷ [])) }
    ensures fits { IfOk result (λ r. IfOk r Fits) }
{
    match value {
        Json::Text(text) => {
            let text = text.as_str();
            if is_path(text) {
                return path_field(alloc, name, text);
            }
            call_field(alloc, name, text)
        }
        _ => Ok(Err(Fault::here(alloc, Kind::NotText))),
    }
}

/// A part of a template.
#[cycle(read)]
pub(crate) fn part(alloc: Global, value: &Json) -> Result<Result<Part, Fault>, AllocError>
    ensures { IfOk result (Reads part_data (data_of value.now) (claims (data_of value.now))) }
{
    match value {
        Json::Null => Ok(Ok(Part::Null)),
        Json::Bool(b) => Ok(Ok(Part::Bool(*b))),
        Json::Num(number) => Ok(Ok(Part::Num(number.try_clone(alloc)?))),
        Json::Text(text) => Ok(Ok(Part::Text(text.try_clone(alloc)?))),
        Json::List(items) => match parts(alloc, items)? {
            Ok(parts) => Ok(Ok(Part::List(parts))),
            Err(fault) => Ok(Err(fault)),
        },
        Json::Dict(members) => match fields(alloc, members)? {
            Ok(fields) => Ok(Ok(Part::Dict(fields))),
            Err(fault) => Ok(Err(fault)),
        },
    }
}

#[cycle(read)]
fn parts(alloc: Global, items: &Items) -> Result<Result<Parts, Fault>, AllocError>
    ensures { IfOk result (Reads (λ p. p) items.now (item_claims 0 (chain items.now))) }
{
    let mut read = Ok(Vec::new(alloc));
    let values = items.values();
    for (i, item) in values.iter().enumerate() {
        let next = under_index(part(alloc, item)?, i)?;
        read = take_in(read, next)?;
    }
    match read {
        Ok(parts) => Ok(Ok(Parts { parts })),
        Err(fault) => Ok(Err(fault)),
    }
}

/// Whether the other one of `k` and `k.$` is among the members so far. `keys` are the keys of these members. The error
/// is that memory ran out.
pub fn is_double(
    alloc: Global,
    keys: &Keys,
    members: &[Member],
    key: &str,
) -> Result<bool, AllocError>
    requires { Knows keys.now (members_of members.now) }
    ensures { IfOk result (λ double. double ≡ is_double (members_of members.now) key.now) }
{
    let computed = marked(alloc, key)?;
    if keys.has(members, computed.as_str()) {
        return Ok(true);
    }
    match name_before(key) {
        Some(name) => Ok(keys.has(members, name)),
        None => Ok(false),
    }
}

/// The members of an object.
#[cycle(read)]
fn fields(alloc: Global, members: &Members) -> Result<Result<Fields, Fault>, AllocError>
    ensures { IfOk result (Reads (λ f. f) members.now (member_claims [] (pairs members.now))) }
{
    let mut keys = Keys::new();
    let mut read = Ok(Vec::new(alloc));
    let members = members.members();
    for (i, member) in members.iter().enumerate() {
        let so_far = &members[..i];
        let key = member.key.as_str();
        let double = is_double(alloc, &keys, so_far, key)?;
        let own = judged(alloc, double, field(alloc, member)?);
        read = take_in(read, under_name(alloc, own, key)?)?;
        keys.add(alloc, so_far, key)?;
    }
    match read {
        Ok(fields) => Ok(Ok(Fields { fields })),
        Err(fault) => Ok(Err(fault)),
    }
}

/// A member, whatever stands beside it.
#[cycle(read)]
fn field(alloc: Global, member: &Member) -> Result<Result<Field, Fault>, AllocError>
    ensures reads { IfOk result (Reads field_data (member_of member.now)
        (chosen (name_before member.now.key) ((text_claim (data_of member.now.value), []) ∷ [])
        (claims (data_of member.now.value)))) }
    ensures fits { IfOk result (λ r. IfOk r Fits) }
{
    match name_before(member.key.as_str()) {
        Some(name) => computed_field(alloc, name, &member.value),
        None => match part(alloc, &member.value)? {
            Ok(part) => Ok(Ok(Field::Kept(member.key.try_clone(alloc)?, part))),
            Err(fault) => Ok(Err(fault)),
        },
    }
}

// The value that a template gives.
ghost use Rattle.std.specs.Prelude.{◌≡◌, ◌++◌, Ok};
ghost use Rattle.asl_json.specs.View.{data_of};
ghost use Rattle.asl_json_data.specs.Data.{chain, pairs};
ghost use Rattle.asl_path.specs.Paths.{part_at};
ghost use Rattle.asl_intrinsic.specs.Calls.{is_context};
ghost use Rattle.asl_intrinsic.specs.Values.{ev};
ghost use Rattle.asl_template.specs.Names.{mark, name_before, name_of};
ghost use Rattle.asl_template.specs.private.View.{part_data, field_data, Fits};
ghost use Rattle.asl_template.specs.Gives.{Gives};
ghost use Rattle.asl_template.specs.Filling.{found, word_of, called, computed, chosen, fill, fill_items, fill_members};

use crate::name::marked;
use crate::part::{Field, Fields, Part, Parts};
use asl_intrinsic::Expr;
use asl_intrinsic_functions::{EvalFault, Reason};
use asl_json::{Items, Json, Members, Txt};
use asl_path::RefPath;
use std::alloc::{AllocError, AllocFailed, Global};
use thiserror::Error;

/// Why a call of a template has no value.
#[derive(Clone, Copy, Debug, PartialEq, Eq, Error)]
pub enum Word {
    /// An argument of a wrong type.
    #[error("an argument of a wrong type")]
    Unfit,
    /// An argument out of range.
    #[error("an argument out of range")]
    Range,
    /// A wrong number of arguments.
    #[error("a wrong number of arguments")]
    Count,
    /// A text that can't be decoded.
    #[error("a text that can't be decoded")]
    Undecoded,
    /// A path among the arguments that names nothing.
    #[error("a path that names nothing")]
    Path,
}

/// Why a template can't be filled. Keys are given as they are written, with their `.$`.
#[derive(Debug, Drop, Error)]
pub enum FillFault {
    /// L3: the path of the member of this key names nothing.
    #[error("L3 PathFails {0}")]
    PathFails(Txt),
    /// L4: the call of the member of this key has no value.
    #[error("L4 IntrinsicFails {0}: {1}")]
    IntrinsicFails(Txt, Word),
    /// L7: memory ran out.
    #[error("L7 OutOfMemory")]
    OutOfMemory,
}

impl From<AllocError> for FillFault {
    ghost use Rattle.std.specs.Prelude.{◌≡◌};
    ghost use Rattle.asl_template.specs.declared.fill.FillFault.TheVariants.{OutOfMemory};

    ghost from_gives = { λ _ e. e ≡ OutOfMemory };

    fn from(_: AllocError) -> FillFault {
        FillFault::OutOfMemory
    }
}

impl<T: Drop> From<AllocFailed<T>> for FillFault {
    ghost use Rattle.std.specs.Prelude.{◌≡◌};
    ghost use Rattle.asl_template.specs.declared.fill.FillFault.TheVariants.{OutOfMemory};

    ghost from_gives = { λ _ e. e ≡ OutOfMemory };

    fn from(_: AllocFailed<T>) -> FillFault {
        FillFault::OutOfMemory
    }
}

/// Whether the text of a path starts from the Context Object: whether it begins with `$$`.
pub fn is_on_context(text: &str) -> bool
    ensures { result ≡ is_context text.now }
{
    let bytes = text.as_bytes();
    bytes.len() >= 2 && bytes[0] == b'$' && bytes[1] == b'$'
}

/// The part that the path of a computed member names.
fn part_of(alloc: Global, name: &Txt, path: &RefPath, value: &Json) -> Result<Json, FillFault>
    ensures { Gives data_of (found (name.now ++ mark) (part_at path.now (data_of value.now)))
        result }
{
    match path.get(value) {
        Some(part) => Ok(part.try_clone(alloc)?),
        None => Err(FillFault::PathFails(marked(alloc, name.as_str())?)),
    }
}

fn word_of(reason: Reason) -> Word
    ensures { result ≡ word_of reason }
{
    match reason {
        Reason::Unfit => Word::Unfit,
        Reason::Range => Word::Range,
        Reason::Count => Word::Count,
        Reason::Undecoded => Word::Undecoded,
    }
}

/// The value of the call of a computed member.
fn value_of(
    alloc: Global,
    name: &Txt,
    call: &Expr,
    input: &Json,
    context: &Json,
) -> Result<Json, FillFault>
    ensures { Gives data_of
        (called (name.now ++ mark) (ev call.now (data_of input.now) (data_of context.now))) result }
{
    match call.eval(alloc, input, context) {
        Ok(value) => Ok(value),
        Err(EvalFault::Fails(reason)) => {
            let key = marked(alloc, name.as_str())?;
            Err(FillFault::IntrinsicFails(key, word_of(reason)))
        }
        Err(EvalFault::PathMissing) => {
            let key = marked(alloc, name.as_str())?;
            Err(FillFault::IntrinsicFails(key, Word::Path))
        }
        Err(EvalFault::OutOfMemory) => Err(FillFault::OutOfMemory),
    }
}

/// The value of a template's part on an input and a Context Object.
#[cycle(fill)]
pub(crate) fn fill(
    alloc: Global,
    part: &Part,
    input: &Json,
    context: &Json,
) -> Result<Json, FillFault>
    ensures { Gives data_of (fill (part_data part.now) (data_of input.now) (data_of context.now))
        result }
{
    match part {
        Part::Null => Ok(Json::Null),
        Part::Bool(b) => Ok(Json::Bool(*b)),
        Part::Num(number) => Ok(Json::Num(number.try_clone(alloc)?)),
        Part::Text(text) => Ok(Json::Text(text.try_clone(alloc)?)),
        Part::List(parts) => Ok(Json::List(fill_parts(alloc, parts, input, context)?)),
        Part::Dict(fields) => Ok(Json::Dict(fill_fields(alloc, fields, input, context)?)),
    }
}

#[cycle(fill)]
fn fill_parts(
    alloc: Global,
    parts: &Parts,
    input: &Json,
    context: &Json,
) -> Result<Items, FillFault>
    ensures { Gives (λ v. chain v)
        (fill_items (chain parts.now) (data_of input.now) (data_of context.now)) result }
{
    let mut values = Vec::new(alloc);
    for part in &parts.parts {
        values.push(fill(alloc, part, input, context)?)?;
    }
    Ok(Items::of_values(values))
}

#[cycle(fill)]
fn fill_fields(
    alloc: Global,
    fields: &Fields,
    input: &Json,
    context: &Json,
) -> Result<Members, FillFault>
    ensures { Gives (λ v. pairs v)
        (fill_members (pairs fields.now) (data_of input.now) (data_of context.now)) result }
{
    let mut members = Members::new(alloc);
    for field in &fields.fields {
        let value = fill_field(alloc, field, input, context)?;
        members.push(field.name().try_clone(alloc)?, value)?;
    }
    Ok(members)
}

/// The value of a member.
#[cycle(fill)]
fn fill_field(alloc: Global, field: &Field, input: &Json, context: &Json) -> Result<Json, FillFault>
    requires { Fits field.now }
    ensures { Gives data_of
        (chosen (name_before (field_data field.now).0)
        (computed (field_data field.now).0 (field_data field.now).1 (data_of input.now)
        (data_of context.now))
        (fill (field_data field.now).1 (data_of input.now) (data_of context.now))) result }
{
    match field {
        Field::Kept(_, part) => fill(alloc, part, input, context),
        Field::Path(name, path) => {
            if is_on_context(path.text()) {
                return part_of(alloc, name, path, context);
            }
            part_of(alloc, name, path, input)
        }
        Field::Call(name, call) => value_of(alloc, name, call, input, context),
    }
}

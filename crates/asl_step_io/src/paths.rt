// Data by a state's paths.
ghost use Rattle.std.specs.Prelude.{◌≡◌, [], Some, Ok, IfOk, codes};
ghost use Rattle.asl_json.specs.View.{data_of};
ghost use Rattle.asl_def_fields.specs.Shown.{path_shown};
ghost use Rattle.asl_path.specs.Paths.{part_at, with_part};
ghost use Rattle.asl_step.specs.Context.{context_of};
ghost use Rattle.asl_step.specs.Seen.{seen};
ghost use Rattle.asl_step_io.specs.Paths.{part_of, taken, put_into, given_or, no_value, no_place};
ghost use Rattle.asl_step_io.specs.Gives.{Gives};

use crate::fault::{Fault, missing, placeless};
use asl_def_fields::PathField;
use asl_json::{Json, Members};
use asl_json_shared::Shared;
use asl_path::{PutFault, RefPath};
use asl_step::{Context, Visit};
use asl_template::is_on_context;
use std::alloc::{AllocError, Global};

/// An equal value, with one owner. What fails is memory.
pub fn copied(alloc: Global, value: &Json) -> Result<Shared, AllocError>
    ensures { IfOk result (λ s. s ≡ value.now) }
{
    Ok(Shared::new(alloc, value.try_clone(alloc)?)?)
}

/// The part of a value that a field's path names.
fn part(alloc: Global, field: &str, path: &RefPath, value: &Json) -> Result<Shared, Fault>
    ensures { Gives (given_or (no_value field.now) (part_at path.now (data_of value.now))) result }
{
    match path.get(value) {
        Some(part) => Ok(copied(alloc, part)?),
        None => Err(missing(alloc, field)),
    }
}

/// The part of a value, or of the Context Object, that a field's path names.
pub fn part_of(
    alloc: Global,
    field: &str,
    path: &RefPath,
    value: &Json,
    visit: &Visit,
    context: &mut Context,
) -> Result<Shared, Fault>
    ensures given { Gives (given_or (no_value field.now)
        (part_of path.now (data_of value.now) (context_of context.old.facts (seen visit.now))))
        result }
    ensures facts { context.new.facts ≡ context.old.facts }
{
    if is_on_context(path.text()) {
        context.show(alloc, visit)?;
        return part(alloc, field, path, context.shown());
    }
    part(alloc, field, path, value)
}

/// The object without members.
pub fn empty_object(alloc: Global) -> Result<Shared, AllocError>
    ensures { IfOk result (λ s. s ≡ Json.Dict []) }
{
    Ok(Shared::new(alloc, Json::Dict(Members::new(alloc)))?)
}

/// What a field's path takes of a value: where that is the whole of it, the value itself.
pub fn taken(
    alloc: Global,
    field: &str,
    path: &PathField,
    value: &Shared,
    visit: &Visit,
    context: &mut Context,
) -> Result<Shared, Fault>
    ensures given { Gives (taken field.now (path_shown path.now) value.now
        (context_of context.old.facts (seen visit.now))) result }
    ensures facts { context.new.facts ≡ context.old.facts }
{
    match path {
        PathField::Whole => Ok(value.try_clone()?),
        PathField::Nowhere => Ok(empty_object(alloc)?),
        PathField::At(path) => part_of(alloc, field, path, value, visit, context),
    }
}

/// A result put where a path leads in a value.
fn put_at(alloc: Global, path: &RefPath, base: Json, result_value: Json) -> Result<Json, Fault>
    ensures { Gives (given_or no_place (with_part path.now (data_of base) (data_of result_value)))
        result }
{
    match path.put(alloc, base, result_value) {
        Ok(value) => Ok(value),
        Err(PutFault::NoMatch(_, _)) => Err(placeless(alloc)),
        Err(PutFault::OutOfMemory(_, _)) => Err(Fault::Memory),
    }
}

/// A result put where a path leads in a copy of a value. The result is taken out where it has no other owner.
fn put_in_copy(
    alloc: Global,
    path: &RefPath,
    base: &Json,
    result_value: Shared,
) -> Result<Shared, Fault>
    ensures { Gives (given_or no_place
        (with_part path.now (data_of base.now) (data_of result_value))) result }
{
    let base = base.try_clone(alloc)?;
    let result_value = result_value.into_json(alloc)?;
    match put_at(alloc, path, base, result_value) {
        Ok(value) => owned(alloc, value),
        Err(fault) => Err(fault),
    }
}

/// A value with one owner.
pub(crate) fn owned(alloc: Global, value: Json) -> Result<Shared, Fault>
    ensures { Gives (Ok value) result }
{
    match Shared::new(alloc, value) {
        Ok(value) => Ok(value),
        Err(_) => Err(Fault::Memory),
    }
}

/// A result put into the raw input: it is that input where it is lost.
pub fn put_into(
    alloc: Global,
    path: &PathField,
    input: &Shared,
    result_value: Shared,
) -> Result<Shared, Fault>
    ensures { Gives (put_into (path_shown path.now) input.now result_value) result }
{
    match path {
        PathField::Whole => Ok(result_value),
        PathField::Nowhere => Ok(input.try_clone()?),
        PathField::At(path) => put_in_copy(alloc, path, input, result_value),
    }
}

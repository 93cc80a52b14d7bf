// The value that a template was read from.
ghost use Rattle.std.specs.Prelude.{◌≡◌, IfOk};
ghost use Rattle.asl_json.specs.View.{data_of};
ghost use Rattle.asl_template.specs.Names.{mark};
ghost use Rattle.asl_template.specs.private.View.{part_data, field_data};

use crate::name::marked;
use crate::part::{Field, Fields, Part, Parts};
use asl_json::{Items, Json, Members, Txt};
use std::alloc::{AllocError, Global};

impl Field {
    /// The key as it is written.
    fn key(&self, alloc: Global) -> Result<Txt, AllocError>
        ensures { IfOk result (λ k. k ≡ (field_data self.now).0) }
    {
        match self {
            Field::Kept(key, _) => key.try_clone(alloc),
            Field::Path(name, _) => marked(alloc, name.as_str()),
            Field::Call(name, _) => marked(alloc, name.as_str()),
        }
    }
}

/// A text of its own as a value.
fn text_value(alloc: Global, text: &str) -> Result<Json, AllocError>
    ensures { IfOk result (λ v. v ≡ Json.Text text.now) }
{
    Ok(Json::Text(Txt::of(alloc, text)?))
}

/// The value that a part was read from.
#[cycle(rebuild)]
pub(crate) fn rebuild(alloc: Global, part: &Part) -> Result<Json, AllocError>
    ensures { IfOk result (λ v. data_of v ≡ part_data part.now) }
{
    match part {
        Part::Null => Ok(Json::Null),
        Part::Bool(b) => Ok(Json::Bool(*b)),
        Part::Num(number) => Ok(Json::Num(number.try_clone(alloc)?)),
        Part::Text(text) => Ok(Json::Text(text.try_clone(alloc)?)),
        Part::List(parts) => Ok(Json::List(rebuild_parts(alloc, parts)?)),
        Part::Dict(fields) => Ok(Json::Dict(rebuild_fields(alloc, fields)?)),
    }
}

#[cycle(rebuild)]
fn rebuild_parts(alloc: Global, parts: &Parts) -> Result<Items, AllocError>
    ensures { IfOk result (λ v. v ≡ parts.now) }
{
    let mut values = Vec::new(alloc);
    for part in &parts.parts {
        values.push(rebuild(alloc, part)?)?;
    }
    Ok(Items::of_values(values))
}

#[cycle(rebuild)]
fn rebuild_fields(alloc: Global, fields: &Fields) -> Result<Members, AllocError>
    ensures { IfOk result (λ v. v ≡ fields.now) }
{
    let mut members = Members::new(alloc);
    for field in &fields.fields {
        let value = rebuild_field(alloc, field)?;
        members.push(field.key(alloc)?, value)?;
    }
    Ok(members)
}

/// The value of a member as it is written.
#[cycle(rebuild)]
fn rebuild_field(alloc: Global, field: &Field) -> Result<Json, AllocError>
    ensures { IfOk result (λ v. data_of v ≡ (field_data field.now).1) }
{
    match field {
        Field::Kept(_, part) => rebuild(alloc, part),
        Field::Path(_, path) => text_value(alloc, path.text()),
        Field::Call(_, call) => text_value(alloc, call.text()),
    }
}

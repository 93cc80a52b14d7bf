// Objects of named values.
ghost use Rattle.std.specs.Prelude.{◌≡◌, [], true, IfOk};
ghost use Rattle.asl_json_data.specs.Data.{dict, pairs};
ghost use Rattle.asl_json.specs.View.{data_of};
ghost use Rattle.asl_def_schema.specs.Canon.{present};
ghost use Rattle.asl_def_fields.specs.Entries.{entries_of, are_apart};

use asl_json::{Json, Members, Txt};
use std::alloc::{AllocError, Global};

/// A member of an object, where it is there.
#[derive(Drop)]
pub struct Entry {
    /// The name, another one for each member.
    pub name: &'static str,
    /// The value.
    pub value: Option<Json>,
}

/// The object of those that are there, in order. Its cost is their number. The error is that memory ran out.
pub fn object(alloc: Global, entries: Vec<Entry>) -> Result<Json, AllocError>
    requires { are_apart [] (entries_of entries.items) ≡ true }
    ensures { IfOk result (λ j. data_of j ≡ dict (pairs (present (entries_of entries.items)))) }
{
    let mut members = Members::new(alloc);
    for entry in entries {
        let Entry { name, value } = entry;
        if let Some(value) = value {
            let name = Txt::of(alloc, name)?;
            members.push(name, value)?;
        }
    }
    Ok(Json::Dict(members))
}

// Members of objects, where they are there.
ghost use Rattle.std.specs.Prelude.{◌≡◌, ◌++◌, ◌∷◌, [], Some, IfOk, option_map};
ghost use Rattle.asl_json.specs.View.{data_of};
ghost use Rattle.asl_def_fields.specs.Entries.{entry_of, entries_of};
ghost use Rattle.asl_def_fields.specs.Shown.{path_shown};

use asl_def_fields::{Compiled, Entry, PathField, json_optional};
use asl_json::Json;
use std::alloc::{AllocError, Global};

/// The member of this name, where it is there.
pub fn entry(name: &'static str, value: Option<Json>) -> Entry
    ensures { entry_of result ≡ (name.now, option_map data_of value) }
{
    Entry { name, value }
}

/// Members, and then one more. The error is that memory ran out.
pub fn and(
    before: Vec<Entry>,
    name: &'static str,
    value: Option<Json>,
) -> Result<Vec<Entry>, AllocError>
    ensures { IfOk result (λ es. entries_of es.items
        ≡ entries_of before.items ++ (name.now, option_map data_of value) ∷ []) }
{
    let mut all = before;
    all.push(entry(name, value))?;
    Ok(all)
}

/// Members, and then others. The error is that memory ran out.
pub fn joined(before: Vec<Entry>, after: Vec<Entry>) -> Result<Vec<Entry>, AllocError>
    ensures { IfOk result (λ es. entries_of es.items
        ≡ entries_of before.items ++ entries_of after.items) }
{
    let mut all = before;
    let mut rest = after;
    all.append(&mut rest)?;
    Ok(all)
}

/// Members, and then one that is there. The error is that memory ran out.
pub fn with<T: Compiled>(
    alloc: Global,
    before: Vec<Entry>,
    name: &'static str,
    value: &T,
) -> Result<Vec<Entry>, AllocError>
    ensures { IfOk result (λ es. entries_of es.items
        ≡ entries_of before.items ++ (name.now, Some (T.shown value.now)) ∷ []) }
{
    let value = value.json(alloc)?;
    and(before, name, Some(value))
}

/// Members, and then one that may be there. The error is that memory ran out.
pub fn with_optional<T: Compiled>(
    alloc: Global,
    before: Vec<Entry>,
    name: &'static str,
    value: &Option<T>,
) -> Result<Vec<Entry>, AllocError>
    ensures { IfOk result (λ es. entries_of es.items
        ≡ entries_of before.items ++ (name.now, option_map T.shown value.now) ∷ []) }
{
    let value = json_optional(alloc, value)?;
    and(before, name, value)
}

/// Members, and then `InputPath`, `ResultPath` or `OutputPath`, where it is there. The error is that memory ran out.
pub fn with_path(
    alloc: Global,
    before: Vec<Entry>,
    name: &'static str,
    path: &PathField,
) -> Result<Vec<Entry>, AllocError>
    ensures { IfOk result (λ es. entries_of es.items
        ≡ entries_of before.items ++ (name.now, path_shown path.now) ∷ []) }
{
    let value = path.json(alloc)?;
    and(before, name, value)
}

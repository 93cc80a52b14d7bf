// Values under names.
ghost use Rattle.std.specs.Prelude.{◌≡◌, ◌∷◌, ◌++◌, [], None, OnOk, OnErr, option_map, string_bytes};
ghost use Rattle.asl_mock.specs.Tables.{named, value_for};

use asl_json::Txt;
use indexmap::IndexMap;
use std::alloc::{AllocError, Global};

/// Finds the value of this name by its hash.
pub(crate) fn find<'a, T: Drop>(values: &'a IndexMap<String, T>, name: &str) -> Option<&'a T>
    ensures { option_map (λ v. v.now) result ≡ value_for name.now (named values.now.entries) }
{
    values.get(name)
}

/// Adds a value under a name that no other has. The error is that memory ran out; then nothing is added.
pub(crate) fn add<T: Drop>(
    alloc: Global,
    values: &mut IndexMap<String, T>,
    name: &Txt,
    value: T,
) -> Result<(), AllocError>
    requires { value_for name.now (named values.old.entries) ≡ None }
    ensures ok { OnOk result (named values.new.entries
        ≡ named values.old.entries ++ (name.now, value) ∷ []) }
    ensures err { OnErr result (values.new.entries ≡ values.old.entries) }
{
    let copy = name.try_clone(alloc)?;
    push(values, copy.into_string(), value)
}

/// Adds a value under a name that no other has. The error is that memory ran out; then nothing is added.
pub(crate) fn push<T: Drop>(
    values: &mut IndexMap<String, T>,
    name: String,
    value: T,
) -> Result<(), AllocError>
    requires { value_for (string_bytes name) (named values.old.entries) ≡ None }
    ensures ok { OnOk result (named values.new.entries
        ≡ named values.old.entries ++ (string_bytes name, value) ∷ []) }
    ensures err { OnErr result (values.new.entries ≡ values.old.entries) }
{
    drop(values.insert(name, value)?);
    Ok(())
}

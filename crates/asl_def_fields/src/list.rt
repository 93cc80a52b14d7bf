// Lists of compiled values. In each call the error is that memory ran out.
ghost use Rattle.std.specs.Prelude.{◌≡◌, IfOk, map};
ghost use Rattle.asl_json_data.specs.Data.{chain};
ghost use Rattle.asl_json.specs.View.{items_of};
ghost use Rattle.asl_def_fields.specs.Readable.{Each};

use crate::compiled::{Compile, Compiled};
use asl_json::{Items, Json};
use std::alloc::{AllocError, Global};

/// Compiles each of these values.
pub fn read_all<T: Compile>(alloc: Global, values: &[Json]) -> Result<Vec<T>, AllocError>
    requires { Each T.Fits (chain (items_of values.now)) }
    ensures { IfOk result (λ xs. map T.shown xs.items ≡ items_of values.now) }
{
    let mut compiled = Vec::new(alloc);
    for value in values {
        compiled.push(T::read(alloc, value)?)?;
    }
    Ok(compiled)
}

/// The list of the values that they show, as JSON.
pub fn json_all<T: Compiled>(alloc: Global, values: &[T]) -> Result<Items, AllocError>
    ensures { IfOk result (λ js. js ≡ map T.shown values.now) }
{
    let mut shown = Vec::new(alloc);
    for value in values {
        shown.push(value.json(alloc)?)?;
    }
    Ok(Items::of_values(shown))
}

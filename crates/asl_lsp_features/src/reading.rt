// The value of a document.
ghost use Rattle.std.specs.Prelude.{◌≡◌, IfOk, IfSome, option_map};
ghost use Rattle.asl_json_data.specs.Grammar.{IsText};
ghost use Rattle.asl_json.specs.View.{data_of};
ghost use Rattle.asl_json_read.specs.Reading.{value_read};

use asl_json::Json;
use asl_json_read::{JsonFault, read};
use std::alloc::{AllocError, Global};

/// The value that a text spells in the limits, where there is one. The error is that memory ran out.
pub(crate) fn value_of(alloc: Global, text: &str) -> Result<Option<Json>, AllocError>
    ensures value { IfOk result (λ o. option_map data_of o ≡ value_read text.now) }
    ensures text { IfOk result (λ o. IfSome o (λ v. IsText text.now (data_of v))) }
{
    match read(alloc, text.as_bytes()) {
        Ok(value) => Ok(Some(value)),
        Err(JsonFault::OutOfMemory) => Err(AllocError),
        Err(_) => Ok(None),
    }
}

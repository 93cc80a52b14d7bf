// The functions that read and write texts, and the sum.
ghost use Rattle.std.specs.Prelude.{◌≡◌, ◌<◌, ◌^◌, ◌+ℤ◌, unsigned_abs};
ghost use Rattle.asl_intrinsic_functions.specs.Converting.{computed};
ghost use Rattle.asl_json.specs.View.{data_of};
ghost use Rattle.asl_intrinsic_functions.specs.Gives.{Gives};
ghost use Rattle.asl_intrinsic_functions.specs.Texts.{string_to_json, json_to_string, math_add};

use crate::convert::{computed, number, text, whole};
use crate::fault::{EvalFault, Reason};
use asl_json::{Json, Txt};
use asl_json_read::{JsonFault, read};
use asl_json_write::write;
use std::alloc::Global;

/// `States.StringToJson`
pub(crate) fn string_to_json(alloc: Global, value: &Json) -> Result<Json, EvalFault>
    ensures { Gives data_of (string_to_json (data_of value.now)) result }
{
    let text = text(value)?;
    match read(alloc, text.as_bytes()) {
        Ok(value) => Ok(value),
        Err(JsonFault::OutOfMemory) => Err(EvalFault::OutOfMemory),
        Err(_) => Err(EvalFault::Fails(Reason::Undecoded)),
    }
}

/// `States.JsonToString`
pub(crate) fn json_to_string(alloc: Global, value: &Json) -> Result<Json, EvalFault>
    ensures { Gives data_of (json_to_string (data_of value.now)) result }
{
    Ok(Json::Text(Txt::new(write(alloc, value)?)))
}

/// The sum of whole numbers.
fn sum(one: i128, other: i128) -> Result<Json, EvalFault>
    requires one { unsigned_abs one < 10 ^ 18 }
    requires other { unsigned_abs other < 10 ^ 18 }
    ensures { Gives data_of (computed (one +ℤ other)) result }
{
    computed(one + other)
}

/// `States.MathAdd`
pub(crate) fn math_add(one: &Json, other: &Json) -> Result<Json, EvalFault>
    ensures { Gives data_of (math_add (data_of one.now) (data_of other.now)) result }
{
    let one = number(one)?;
    let other = number(other)?;
    let one = whole(one)?;
    let other = whole(other)?;
    sum(one, other)
}

// Each function of the values of its arguments.
ghost use Rattle.std.specs.Prelude.{◌≡◌, ◌↔◌, ◌∷◌, [], List, ℕ, Option, Ok, Err, option_map};
ghost use Rattle.std.specs.Str.{IsUtf8};
ghost use Rattle.asl_json_data.specs.Data.{Data, text};
ghost use Rattle.asl_json.specs.View.{data_of};
ghost use Rattle.asl_json_data.specs.Reads.{ReadsAs};
ghost use Rattle.asl_intrinsic_functions.specs.Gives.{Gives};
ghost use Rattle.asl_intrinsic_functions.specs.Seen.{all_seen};
ghost use Rattle.asl_intrinsic_functions.specs.Apply.{of_one, of_two, of_three, by_count, with_template, apply};

use crate::coding::{base64_decode, base64_encode, hash};
use crate::fault::{EvalFault, Reason};
use crate::format::format;
use crate::function::Function;
use crate::lists::{
    array, array_contains, array_get_item, array_length, array_partition, array_unique,
};
use crate::merge::json_merge;
use crate::range::array_range;
use crate::split::string_split;
use crate::texts::{json_to_string, math_add, string_to_json};
use crate::value::Value;
use asl_json::Json;
use asl_json_read::a_text_has_the_value_that_it_spells;
use std::alloc::Global;

/// A function of one value.
fn of_one(alloc: Global, function: Function, one: &Json) -> Result<Json, EvalFault>
    ensures { Gives data_of (of_one function (data_of one.now)) result }
{
    match function {
        Function::StringToJson => string_to_json(alloc, one),
        Function::JsonToString => json_to_string(alloc, one),
        Function::ArrayLength => array_length(one),
        Function::ArrayUnique => array_unique(alloc, one),
        Function::Base64Encode => base64_encode(alloc, one),
        Function::Base64Decode => base64_decode(alloc, one),
        _ => Err(EvalFault::Fails(Reason::Count)),
    }
}

/// A function of two values.
fn of_two(alloc: Global, function: Function, one: &Json, two: &Json) -> Result<Json, EvalFault>
    ensures { Gives data_of (of_two function (data_of one.now) (data_of two.now)) result }
{
    match function {
        Function::ArrayPartition => array_partition(alloc, one, two),
        Function::ArrayContains => array_contains(one, two),
        Function::ArrayGetItem => array_get_item(alloc, one, two),
        Function::Hash => hash(alloc, one, two),
        Function::MathAdd => math_add(one, two),
        Function::StringSplit => string_split(alloc, one, two),
        _ => Err(EvalFault::Fails(Reason::Count)),
    }
}

/// A function of three values.
fn of_three(
    alloc: Global,
    function: Function,
    one: &Json,
    two: &Json,
    three: &Json,
) -> Result<Json, EvalFault>
    ensures { Gives data_of
        (of_three function (data_of one.now) (data_of two.now) (data_of three.now)) result }
{
    match function {
        Function::ArrayRange => array_range(alloc, one, two, three),
        Function::JsonMerge => json_merge(alloc, one, two, three),
        _ => Err(EvalFault::Fails(Reason::Count)),
    }
}

/// A function of so many values.
fn by_count(alloc: Global, function: Function, values: &[Value<'_>]) -> Result<Json, EvalFault>
    ensures { Gives data_of (by_count function (all_seen values.now)) result }
{
    match values {
        [one] => of_one(alloc, function, one.json()),
        [one, two] => of_two(alloc, function, one.json(), two.json()),
        [one, two, three] => of_three(alloc, function, one.json(), two.json(), three.json()),
        _ => Err(EvalFault::Fails(Reason::Count)),
    }
}

/// `States.Format` of a template and values.
fn with_template(
    alloc: Global,
    written: Option<&str>,
    values: &[Value<'_>],
) -> Result<Json, EvalFault>
    ensures { Gives data_of
        (with_template (option_map (λ t. t.now) written.entry) (all_seen values.now)) result }
{
    match values {
        [template, rest @ ..] => format(alloc, written, template.json(), rest),
        [] => Err(EvalFault::Fails(Reason::Count)),
    }
}

/// The value of a function of these values. If the first argument is a text between apostrophes, `written` is that text
/// as it is written: `States.Format` reads its template from there. The fault is the function's own, or that memory ran
/// out. (Amazon States Language, "Intrinsic Functions".)
pub fn apply(
    alloc: Global,
    function: Function,
    written: Option<&str>,
    values: &[Value<'_>],
) -> Result<Json, EvalFault>
    ensures { Gives data_of
        (apply function (option_map (λ t. t.now) written.entry) (all_seen values.now)) result }
{
    match function {
        Function::Array => array(alloc, values),
        Function::Format => with_template(alloc, written, values),
        _ => by_count(alloc, function, values),
    }
}

/// `States.StringToJson` gives the value that a text spells in the limits of `asl_json`, and gives none of other texts.
pub fn string_to_json_gives_what_a_text_spells()
    ensures value { (w : Option (List ℕ)) (t : List ℕ) (d : Data) → IsUtf8 t
        → (apply Function.StringToJson w (text t ∷ []) ≡ Ok d) ↔ ReadsAs t d }
    ensures none { (w : Option (List ℕ)) (t : List ℕ) → IsUtf8 t → ((d : Data) → ReadsAs t d → ⊥)
        → apply Function.StringToJson w (text t ∷ []) ≡ Err (EvalFault.Fails Reason.Undecoded) }
{
    a_text_has_the_value_that_it_spells();
}

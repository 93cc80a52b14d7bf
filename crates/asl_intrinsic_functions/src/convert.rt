// What a function takes an argument as.
ghost use Rattle.std.specs.Prelude.{◌≡◌, ◌<◌, ◌^◌, Ok, IfOk, unsigned_abs};
ghost use Rattle.asl_json.specs.View.{data_of, items_of};
ghost use Rattle.asl_intrinsic_functions.specs.Gives.{Gives};
ghost use Rattle.asl_intrinsic_functions.specs.Converting.{text_in, list_in, object_in, number_in, whole, whole_number, computed};

use crate::fault::{EvalFault, Reason};
use asl_json::{Dec, Json, Members};

const LIMIT: i128 = 1_000_000_000_000_000_000;

pub(crate) fn text(value: &Json) -> Result<&str, EvalFault>
    ensures { Gives (λ t. t.now) (text_in (data_of value.now)) result }
{
    match value {
        Json::Text(text) => Ok(text.as_str()),
        _ => Err(EvalFault::Fails(Reason::Unfit)),
    }
}

#[tactic(auto, using(crate::proofs::Converting::list_back))]
pub(crate) fn list(value: &Json) -> Result<&[Json], EvalFault>
    ensures { Gives (λ v. items_of v.now) (list_in (data_of value.now)) result }
{
    match value {
        Json::List(items) => Ok(items.values()),
        _ => Err(EvalFault::Fails(Reason::Unfit)),
    }
}

#[tactic(auto, using(crate::proofs::Converting::object_back))]
pub(crate) fn object(value: &Json) -> Result<&Members, EvalFault>
    ensures { Gives (λ m. m.now) (object_in (data_of value.now)) result }
{
    match value {
        Json::Dict(members) => Ok(members),
        _ => Err(EvalFault::Fails(Reason::Unfit)),
    }
}

pub(crate) fn number(value: &Json) -> Result<&Dec, EvalFault>
    ensures { Gives (λ d. d.now) (number_in (data_of value.now)) result }
{
    match value {
        Json::Num(number) => Ok(number),
        _ => Err(EvalFault::Fails(Reason::Unfit)),
    }
}

/// The whole value of a number.
pub(crate) fn whole(number: &Dec) -> Result<i128, EvalFault>
    ensures value { Gives (λ z. z) (whole number.now) result }
    ensures below { IfOk result (λ z. unsigned_abs z < 10 ^ 18) }
{
    match number.whole() {
        Some(value) => Ok(value),
        None => Err(EvalFault::Fails(Reason::Range)),
    }
}

/// A whole number in plain decimal.
pub(crate) fn whole_number(value: i128) -> Json
    requires { unsigned_abs value < 10 ^ 18 }
    ensures { data_of result ≡ whole_number value }
{
    Json::Num(Dec::of_whole(value))
}

/// A whole number in plain decimal, where its amount is below 10^18.
pub(crate) fn computed(value: i128) -> Result<Json, EvalFault>
    ensures { Gives data_of (computed value) result }
{
    if value <= -LIMIT || value >= LIMIT {
        return Err(EvalFault::Fails(Reason::Range));
    }
    Ok(whole_number(value))
}

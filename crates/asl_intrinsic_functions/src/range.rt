// `States.ArrayRange`.
ghost use Rattle.std.specs.Prelude.{◌≡◌, ◌<◌, ◌^◌, ◌+ℤ◌, [], unsigned_abs};
ghost use Rattle.asl_json.specs.View.{data_of, items_of};
ghost use Rattle.asl_intrinsic_functions.specs.Gives.{Gives};
ghost use Rattle.asl_intrinsic_functions.specs.Outcome.{or_fails};
ghost use Rattle.asl_intrinsic_functions.specs.Lists.{is_passed, counted, range, whole_range, array_range};
ghost use Rattle.asl_intrinsic_functions.specs.declared.fault.Reason.TheVariants.{Range};

use crate::convert::{number, whole, whole_number};
use crate::fault::{EvalFault, Reason};
use asl_json::{Dec, Items, Json};
use std::alloc::Global;

/// How many items a range has at most.
const MOST: usize = 1000;

/// Whether a value lies behind the end in the direction of the stride.
fn is_passed(stride: i128, end: i128, value: i128) -> bool
    ensures { result ≡ is_passed stride end value }
{
    if stride > 0 { end < value } else { value < end }
}

/// The value behind this one.
fn stepped(stride: i128, value: i128) -> i128
    requires stride { unsigned_abs stride < 10 ^ 18 }
    requires value { unsigned_abs value < 10 ^ 18 }
    ensures { result ≡ value +ℤ stride }
{
    value + stride
}

/// The values from the first on, as long as the end isn't passed, where they are at most so many.
#[tactic(auto, using(crate::proofs::Counting::counted_more, crate::proofs::Counting::counted_end, crate::proofs::Counting::counted_over, crate::proofs::Counting::counted_start))]
fn counted(
    alloc: Global,
    most: usize,
    stride: i128,
    end: i128,
    first: i128,
) -> Result<Vec<Json>, EvalFault>
    requires first { unsigned_abs first < 10 ^ 18 }
    requires end { unsigned_abs end < 10 ^ 18 }
    requires stride { unsigned_abs stride < 10 ^ 18 }
    ensures { Gives (λ v. items_of v.items) (or_fails Range (counted most stride end first))
        result }
{
    let mut values = Vec::new(alloc);
    let mut value = first;
    let mut left = most;
    'count: while !is_passed(stride, end, value) {
        if left == 0 {
            return Err(EvalFault::Fails(Reason::Range));
        }
        values.push(whole_number(value))?;
        value = stepped(stride, value);
        left -= 1;
    }
    Ok(values)
}

/// `States.ArrayRange`
pub(crate) fn array_range(
    alloc: Global,
    first: &Json,
    end: &Json,
    stride: &Json,
) -> Result<Json, EvalFault>
    ensures { Gives data_of (array_range (data_of first.now) (data_of end.now) (data_of stride.now))
        result }
{
    let first = number(first)?;
    let end = number(end)?;
    let stride = number(stride)?;
    whole_range(alloc, first, end, stride)
}

/// The values from a whole number to another by a whole stride.
fn whole_range(alloc: Global, first: &Dec, end: &Dec, stride: &Dec) -> Result<Json, EvalFault>
    ensures { Gives data_of (whole_range first.now end.now stride.now) result }
{
    let first = whole(first)?;
    let end = whole(end)?;
    let stride = whole(stride)?;
    range(alloc, first, end, stride)
}

/// The values from the first to the end by a stride.
fn range(alloc: Global, first: i128, end: i128, stride: i128) -> Result<Json, EvalFault>
    requires first { unsigned_abs first < 10 ^ 18 }
    requires end { unsigned_abs end < 10 ^ 18 }
    requires stride { unsigned_abs stride < 10 ^ 18 }
    ensures { Gives data_of (range first end stride) result }
{
    if stride == 0 {
        return Err(EvalFault::Fails(Reason::Range));
    }
    Ok(Json::List(Items::of_values(counted(alloc, MOST, stride, end, first)?)))
}

// What values are, and how two of them stand to each other.
ghost use Rattle.std.specs.Prelude.{◌≡◌, option_map};
ghost use Rattle.std.specs.Ordering.{nat_cmp, int_cmp};
ghost use Rattle.std.specs.Cmp.Lexicographic.{slice_cmp};
ghost use Rattle.asl_json.specs.View.{data_of};
ghost use Rattle.asl_choice.specs.Truth.{text_of, amount_of, truth_of, moment_of, has, compared, is_so, are_equal, matched};
ghost use Rattle.asl_choice.specs.Seen.{seen};

use crate::fault::RuleFault;
use crate::operator::{Order, Property};
use crate::pattern::matches;
use asl_json::Json;
use asl_time::{Moment, read_stamp};
use std::cmp::Ordering;

pub(crate) fn text_of(value: &Json) -> Option<&str>
    ensures { option_map (λ t. t.now) result ≡ text_of (data_of value.now) }
{
    match value {
        Json::Text(text) => Some(text.as_str()),
        _ => None,
    }
}

/// The units of 10^-9 of a number.
pub(crate) fn units_of(value: &Json) -> Option<i128>
    ensures { result ≡ amount_of (data_of value.now) }
{
    match value {
        Json::Num(number) => Some(number.units()),
        _ => None,
    }
}

pub(crate) fn truth_of(value: &Json) -> Option<bool>
    ensures { result ≡ truth_of (data_of value.now) }
{
    match value {
        Json::Bool(truth) => Some(*truth),
        _ => None,
    }
}

pub(crate) fn moment_of(value: &Json) -> Option<Moment>
    ensures { result ≡ moment_of (data_of value.now) }
{
    match value {
        Json::Text(text) => read_stamp(text.as_str()),
        _ => None,
    }
}

/// How two texts stand to each other, by their bytes.
pub(crate) fn texts(left: Option<&str>, right: Option<&str>) -> Option<Ordering>
    ensures { result ≡ compared (slice_cmp nat_cmp) (option_map (λ t. t.now) left.entry)
        (option_map (λ t. t.now) right.entry) }
{
    let left = left?;
    let right = right?;
    Some(left.cmp(right))
}

/// How two numbers stand to each other, by their units.
pub(crate) fn numbers(left: Option<i128>, right: Option<i128>) -> Option<Ordering>
    ensures { result ≡ compared int_cmp left right }
{
    let left = left?;
    let right = right?;
    Some(left.cmp(&right))
}

/// How two moments stand to each other.
pub(crate) fn moments(left: Option<Moment>, right: Option<Moment>) -> Option<Ordering>
    ensures { result ≡ compared nat_cmp left right }
{
    let left = left?;
    let right = right?;
    Some(left.millis().cmp(&right.millis()))
}

/// Whether both are truth values, and equal.
pub(crate) fn are_equal(left: Option<bool>, right: Option<bool>) -> bool
    ensures { result ≡ are_equal left right }
{
    match left {
        Some(true) => right == Some(true),
        Some(false) => right == Some(false),
        None => false,
    }
}

/// Whether a pattern matches a text, where both are texts.
pub(crate) fn matched<'p>(text: Option<&str>, pattern: Option<&str>) -> Result<bool, RuleFault<'p>>
    ensures { seen (λ b. b) result
        ≡ matched (option_map (λ t. t.now) text.entry) (option_map (λ t. t.now) pattern.entry) }
{
    let Some(text) = text else {
        return Ok(false);
    };
    let Some(pattern) = pattern else {
        return Ok(false);
    };
    matches(pattern, text).ok_or(RuleFault::OpenEscape)
}

impl Order {
    /// Whether values that stand so are in this order. Values of an unfit type are in none.
    pub(crate) fn is_so(self, ordering: Option<Ordering>) -> bool
        ensures { result ≡ is_so self ordering }
    {
        let Some(ordering) = ordering else {
            return false;
        };
        match self {
            Order::Equals => ordering.is_eq(),
            Order::LessThan => ordering.is_lt(),
            Order::GreaterThan => ordering.is_gt(),
            Order::LessThanEquals => ordering.is_le(),
            Order::GreaterThanEquals => ordering.is_ge(),
        }
    }
}

impl Property {
    /// Whether a value that was found has it.
    pub(crate) fn is_of(self, value: &Json) -> bool
        ensures { result ≡ has self (data_of value.now) }
    {
        match self {
            Property::Null => matches!(value, Json::Null),
            Property::Present => true,
            Property::Numeric => units_of(value).is_some(),
            Property::String => text_of(value).is_some(),
            Property::Boolean => truth_of(value).is_some(),
            Property::Timestamp => moment_of(value).is_some(),
        }
    }
}

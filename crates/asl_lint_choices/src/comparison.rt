// Two comparisons of one variable that no value passes both.
ghost use Rattle.std.specs.Prelude.{◌≡◌, option_map};
ghost use Rattle.asl_json.specs.View.{data_of, member_of};
ghost use Rattle.asl_lint_choices.specs.Comparisons.{comparison, comparison_in, wanted, is_other, are_others, texts_differ, numbers_differ, truths_differ, are_apart, moments_differ, constants_differ, exclude_each_other, exclude_as_comparisons};
ghost use Rattle.asl_lint_choices.specs.View.{asked, lent, seen};

use crate::condition::Condition;
use asl_json::{Json, Member};
use asl_time::{Moment, read_stamp};

/// A comparison of a variable, as it is written.
#[derive(Clone, Copy)]
pub(crate) struct Comparison<'a> {
    variable: &'a str,
    operator: &'a str,
    operand: &'a Json,
}

/// A type of values.
#[derive(Clone, Copy)]
pub(crate) enum Kind {
    Text,
    Number,
    Truth,
}

/// The comparison of the variable in one member by the other member.
fn comparison_in<'a>(variable: &'a Member, test: &'a Member) -> Option<Comparison<'a>>
    ensures { option_map seen result
        ≡ comparison_in (member_of variable.now) (member_of test.now) }
{
    if variable.key.as_str() != "Variable" {
        return None;
    }
    match &variable.value {
        Json::Text(path) => Some(Comparison {
            variable: path.as_str(),
            operator: test.key.as_str(),
            operand: &test.value,
        }),
        _ => None,
    }
}

/// The comparison that a condition is, whether its variable or its operator comes first.
fn comparison_of<'a>(members: &[&'a Member]) -> Option<Comparison<'a>>
    ensures { option_map seen result ≡ comparison (lent members.now) }
{
    match members {
        [one, other] => {
            if one.key.as_str() == "Variable" {
                comparison_in(one, other)
            } else {
                comparison_in(other, one)
            }
        }
        _ => None,
    }
}

/// The type of the values that pass some comparison by this operator.
fn wanted(operator: &str) -> Option<Kind>
    ensures { result ≡ wanted operator.now }
{
    let name = operator.as_bytes();
    if name.starts_with("String".as_bytes()) || name.starts_with("Timestamp".as_bytes()) {
        Some(Kind::Text)
    } else if name.starts_with("Numeric".as_bytes()) {
        Some(Kind::Number)
    } else if name.starts_with("Boolean".as_bytes()) {
        Some(Kind::Truth)
    } else {
        None
    }
}

/// Whether these are two types.
fn is_other(one: Kind, other: Kind) -> bool
    ensures { result ≡ is_other one other }
{
    match one {
        Kind::Text => !matches!(other, Kind::Text),
        Kind::Number => !matches!(other, Kind::Number),
        Kind::Truth => !matches!(other, Kind::Truth),
    }
}

/// Whether two operators want values of two types.
fn are_others(one: Option<Kind>, other: Option<Kind>) -> bool
    ensures { result ≡ are_others one other }
{
    match one {
        Some(one) => match other {
            Some(other) => is_other(one, other),
            None => false,
        },
        None => false,
    }
}

/// Whether these are two texts that differ.
fn texts_differ(one: &Json, other: &Json) -> bool
    ensures { result ≡ texts_differ (data_of one.now) (data_of other.now) }
{
    match (one, other) {
        (Json::Text(one), Json::Text(other)) => one.as_str() != other.as_str(),
        _ => false,
    }
}

/// Whether these are two numbers of different amounts.
fn numbers_differ(one: &Json, other: &Json) -> bool
    ensures { result ≡ numbers_differ (data_of one.now) (data_of other.now) }
{
    match (one, other) {
        (Json::Num(one), Json::Num(other)) => one.units() != other.units(),
        _ => false,
    }
}

/// Whether these are two truth values that differ.
fn truths_differ(one: &Json, other: &Json) -> bool
    ensures { result ≡ truths_differ (data_of one.now) (data_of other.now) }
{
    match (one, other) {
        (Json::Bool(one), Json::Bool(other)) => *one != *other,
        _ => false,
    }
}

/// Whether these are two moments that differ.
fn are_apart(one: Option<Moment>, other: Option<Moment>) -> bool
    ensures { result ≡ are_apart one other }
{
    match one {
        Some(one) => match other {
            Some(other) => one.millis() != other.millis(),
            None => false,
        },
        None => false,
    }
}

/// Whether these are two timestamps of different moments.
fn moments_differ(one: &Json, other: &Json) -> bool
    ensures { result ≡ moments_differ (data_of one.now) (data_of other.now) }
{
    match (one, other) {
        (Json::Text(one), Json::Text(other)) => {
            are_apart(read_stamp(one.as_str()), read_stamp(other.as_str()))
        }
        _ => false,
    }
}

/// Whether these are two constants of which no value is equal to both, by this operator.
fn constants_differ(operator: &str, one: &Json, other: &Json) -> bool
    ensures { result ≡ constants_differ operator.now (data_of one.now) (data_of other.now) }
{
    if operator == "StringEquals" {
        texts_differ(one, other)
    } else if operator == "NumericEquals" {
        numbers_differ(one, other)
    } else if operator == "BooleanEquals" {
        truths_differ(one, other)
    } else if operator == "TimestampEquals" {
        moments_differ(one, other)
    } else {
        false
    }
}

/// Whether no value of the variable passes both.
fn exclude_each_other(one: Comparison<'_>, other: Comparison<'_>) -> bool
    ensures { result ≡ exclude_each_other (seen one.entry) (seen other.entry) }
{
    if one.variable != other.variable {
        return false;
    }
    are_others(wanted(one.operator), wanted(other.operator))
        || (one.operator == other.operator
            && constants_differ(one.operator, one.operand, other.operand))
}

/// Whether both conditions are comparisons that no value passes both.
pub(crate) fn exclude_as_comparisons(one: &Condition<'_>, other: &Condition<'_>) -> bool
    ensures { result ≡ exclude_as_comparisons (asked one.now) (asked other.now) }
{
    let Some(one) = comparison_of(&one.members) else {
        return false;
    };
    let Some(other) = comparison_of(&other.members) else {
        return false;
    };
    exclude_each_other(one, other)
}

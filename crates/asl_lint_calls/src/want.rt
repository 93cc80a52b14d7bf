// What each function takes as each of its arguments.
ghost use Rattle.std.specs.Prelude.{◌≡◌};
ghost use Rattle.asl_json.specs.View.{data_of};
ghost use Rattle.asl_lint_calls.specs.Wants.{first_or, third_or, wanted, is_algorithm, whole_value, is_size, is_index, is_step, fits};

use asl_intrinsic_functions::Function;
use asl_json::Json;

/// What an argument has to be, whatever the others are.
#[derive(Clone, Copy, Debug, PartialEq, Eq)]
pub enum Want {
    Anything,
    Text,
    /// Neither a list nor an object.
    Plain,
    Items,
    Object,
    False,
    /// The name of an algorithm.
    Algorithm,
    Whole,
    /// A whole number above 0.
    Size,
    /// A whole number not below 0.
    Index,
    /// A whole number other than 0.
    Step,
}

/// What the first argument has to be, or any other one.
fn first_or(at: usize, first: Want, other: Want) -> Want
    ensures { result ≡ first_or at first other }
{
    if at == 0 { first } else { other }
}

/// What the third argument has to be, or any other one.
fn third_or(at: usize, third: Want, other: Want) -> Want
    ensures { result ≡ third_or at third other }
{
    if at == 2 { third } else { other }
}

/// What a function takes as the argument of this number, counted from 0.
pub(crate) fn wanted(function: Function, at: usize) -> Want
    ensures { result ≡ wanted function at }
{
    match function {
        Function::Format => first_or(at, Want::Text, Want::Plain),
        Function::JsonToString | Function::Array => Want::Anything,
        Function::StringToJson
        | Function::Base64Encode
        | Function::Base64Decode
        | Function::StringSplit => Want::Text,
        Function::ArrayLength | Function::ArrayUnique => Want::Items,
        Function::ArrayPartition => first_or(at, Want::Items, Want::Size),
        Function::ArrayContains => first_or(at, Want::Items, Want::Anything),
        Function::ArrayGetItem => first_or(at, Want::Items, Want::Index),
        Function::ArrayRange => third_or(at, Want::Step, Want::Whole),
        Function::Hash => first_or(at, Want::Text, Want::Algorithm),
        Function::JsonMerge => third_or(at, Want::False, Want::Object),
        Function::MathAdd => Want::Whole,
    }
}

fn is_algorithm(value: &Json) -> bool
    ensures { result ≡ is_algorithm (data_of value.now) }
{
    match value {
        Json::Text(name) => {
            let name = name.as_str();
            name == "MD5"
                || name == "SHA-1"
                || name == "SHA-256"
                || name == "SHA-384"
                || name == "SHA-512"
        }
        _ => false,
    }
}

/// The whole number that a value is.
fn whole_value(value: &Json) -> Option<i128>
    ensures { result ≡ whole_value (data_of value.now) }
{
    match value {
        Json::Num(number) => number.whole(),
        _ => None,
    }
}

fn is_size(whole: Option<i128>) -> bool
    ensures { result ≡ is_size whole }
{
    match whole {
        Some(whole) => whole > 0,
        None => false,
    }
}

fn is_index(whole: Option<i128>) -> bool
    ensures { result ≡ is_index whole }
{
    match whole {
        Some(whole) => whole >= 0,
        None => false,
    }
}

fn is_step(whole: Option<i128>) -> bool
    ensures { result ≡ is_step whole }
{
    match whole {
        Some(whole) => whole != 0,
        None => false,
    }
}

/// Whether a value is what is wanted.
pub(crate) fn fits(want: Want, value: &Json) -> bool
    ensures { result ≡ fits want (data_of value.now) }
{
    match want {
        Want::Anything => true,
        Want::Text => matches!(value, Json::Text(_)),
        Want::Plain => !matches!(value, Json::List(_) | Json::Dict(_)),
        Want::Items => matches!(value, Json::List(_)),
        Want::Object => matches!(value, Json::Dict(_)),
        Want::False => matches!(value, Json::Bool(false)),
        Want::Algorithm => is_algorithm(value),
        Want::Whole => whole_value(value).is_some(),
        Want::Size => is_size(whole_value(value)),
        Want::Index => is_index(whole_value(value)),
        Want::Step => is_step(whole_value(value)),
    }
}

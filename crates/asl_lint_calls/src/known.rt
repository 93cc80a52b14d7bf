// What is known of an argument, and of a call by its arguments.
ghost use Rattle.std.specs.Prelude.{◌≡◌, IfOk, map, option_map};
ghost use Rattle.asl_json.specs.View.{data_of};
ghost use Rattle.asl_intrinsic_functions.specs.Outcome.{Outcome};
ghost use Rattle.asl_intrinsic_functions.specs.Gives.{Gives};
ghost use Rattle.asl_intrinsic_functions.specs.Seen.{seen as data_seen, all_seen as all_data};
ghost use Rattle.asl_intrinsic_functions.specs.Apply.{apply};
ghost use Rattle.asl_lint_calls.specs.Known.{first_never, is_unfit, first_unfit, written_in, unfilled_by, unfilled, misfilled, own_failure, is_value, are_values, data_in, first_written, outcome, computed, known_call};
ghost use Rattle.asl_lint_calls.specs.private.View.{seen, all_seen};

use crate::failure::{Cause, Failure};
use crate::holes::holes;
use crate::want::{fits, wanted};
use asl_intrinsic_functions::{EvalFault, Function, Value, apply};
use asl_json::Json;
use std::alloc::{AllocError, Global};

/// What is known of an argument beforehand.
#[derive(Drop)]
pub(crate) enum Known<'a> {
    /// Nothing: the input or the Context Object decides.
    Any,
    /// Its value, and how it is written where it is a text between apostrophes.
    Value(Option<&'a str>, Json),
    /// It has no value.
    Never(Failure),
}

/// Why the first argument that has no value has none.
fn first_never(arguments: &[Known<'_>]) -> Option<Failure>
    ensures { result ≡ first_never (all_seen arguments.now) }
{
    for argument in arguments {
        if let Known::Never(failure) = argument {
            return Some(*failure);
        }
    }
    None
}

/// Whether a function never takes this as the argument of this number.
fn is_unfit(function: Function, at: usize, argument: &Known<'_>) -> bool
    ensures { result ≡ is_unfit function at (seen argument.now) }
{
    match argument {
        Known::Value(_, value) => !fits(wanted(function, at), value),
        _ => false,
    }
}

/// That the first such argument isn't taken.
fn first_unfit(function: Function, arguments: &[Known<'_>]) -> Option<Failure>
    ensures { result ≡ first_unfit function 0 (all_seen arguments.now) }
{
    for (i, argument) in arguments.iter().enumerate() {
        if is_unfit(function, i, argument) {
            let cause = Cause::Unfit(i, wanted(function, i));
            return Some(Failure { function, cause });
        }
    }
    None
}

/// How an argument is written, where it is a text between apostrophes.
fn written_in<'a>(argument: &Known<'a>) -> Option<&'a str>
    ensures { option_map (λ t. t.now) result ≡ written_in (seen argument.now) }
{
    match argument {
        Known::Value(written, _) => *written,
        _ => None,
    }
}

/// That a template that is written so has more or fewer places than this.
fn unfilled_by(template: Option<&str>, count: usize) -> Option<Failure>
    ensures { result ≡ unfilled_by (option_map (λ t. t.now) template.entry) count }
{
    let places = holes(template?);
    if places == count {
        return None;
    }
    let function = Function::Format;
    let cause = Cause::Holes(places, count);
    Some(Failure { function, cause })
}

/// That a template has more or fewer places than there are arguments behind it.
fn unfilled(arguments: &[Known<'_>]) -> Option<Failure>
    ensures { result ≡ unfilled (all_seen arguments.now) }
{
    match arguments {
        [first, rest @ ..] => unfilled_by(written_in(first), rest.len()),
        [] => None,
    }
}

fn misfilled(function: Function, arguments: &[Known<'_>]) -> Option<Failure>
    ensures { result ≡ misfilled function (all_seen arguments.now) }
{
    match function {
        Function::Format => unfilled(arguments),
        _ => None,
    }
}

/// Why a call of a function fails on each input, before its value is computed.
fn own_failure(function: Function, arguments: &[Known<'_>]) -> Option<Failure>
    ensures { result ≡ own_failure function (all_seen arguments.now) }
{
    if let Some(failure) = first_never(arguments) {
        return Some(failure);
    }
    if let Some(failure) = first_unfit(function, arguments) {
        return Some(failure);
    }
    misfilled(function, arguments)
}

fn are_values(arguments: &[Known<'_>]) -> bool
    ensures { result ≡ are_values (all_seen arguments.now) }
{
    for argument in arguments {
        if !matches!(argument, Known::Value(..)) {
            return false;
        }
    }
    true
}

/// The value of an argument that has a known one.
fn value_in<'a>(argument: &'a Known<'_>) -> Value<'a>
    ensures { data_seen result ≡ data_in (seen argument.now) }
{
    match argument {
        Known::Value(_, value) => Value::Lent(value),
        _ => Value::Made(Json::Null),
    }
}

fn values<'a>(alloc: Global, arguments: &'a [Known<'_>]) -> Result<Vec<Value<'a>>, AllocError>
    ensures { IfOk result (λ v. all_data v.items ≡ map data_in (all_seen arguments.now)) }
{
    let mut values = Vec::new(alloc);
    for argument in arguments {
        values.push(value_in(argument))?;
    }
    Ok(values)
}

/// The first argument as it is written between its apostrophes, where it is such a text.
fn first_written<'a>(arguments: &[Known<'a>]) -> Option<&'a str>
    ensures { option_map (λ t. t.now) result ≡ first_written (all_seen arguments.now) }
{
    match arguments {
        [first, ..] => written_in(first),
        [] => None,
    }
}

/// What is known of a call whose arguments all have known values.
fn computed<'a>(
    alloc: Global,
    function: Function,
    arguments: &[Known<'_>],
) -> Result<Known<'a>, AllocError>
    ensures { IfOk result (λ k. seen k ≡ computed function (all_seen arguments.now)) }
{
    let values = values(alloc, arguments)?;
    match apply(alloc, function, first_written(arguments), &values) {
        Ok(value) => Ok(Known::Value(None, value)),
        Err(EvalFault::Fails(reason)) => {
            let cause = Cause::Together(reason);
            Ok(Known::Never(Failure { function, cause }))
        }
        Err(EvalFault::PathMissing) => Ok(Known::Any),
        Err(EvalFault::OutOfMemory) => Err(AllocError),
    }
}

/// What is known of a call of a function by what is known of its arguments.
pub(crate) fn known_call<'a>(
    alloc: Global,
    function: Function,
    arguments: &[Known<'_>],
) -> Result<Known<'a>, AllocError>
    ensures { IfOk result (λ k. seen k ≡ known_call function (all_seen arguments.now)) }
{
    if let Some(failure) = own_failure(function, arguments) {
        return Ok(Known::Never(failure));
    }
    if !are_values(arguments) {
        return Ok(Known::Any);
    }
    computed(alloc, function, arguments)
}

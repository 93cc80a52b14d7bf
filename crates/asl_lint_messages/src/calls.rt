// Why a call of an intrinsic function fails on each input.
use asl_intrinsic_functions::{Function, Reason};
use asl_lint_calls::{Cause, Failure, Want, failing};
use asl_text::put_decimal;
use std::alloc::{AllocError, Global};

/// What an argument has to be.
fn want_noun(want: Want) -> &'static str {
    match want {
        Want::Anything => "a value",
        Want::Text => "a text",
        Want::Plain => "neither a list nor an object",
        Want::Items => "a list",
        Want::Object => "an object",
        Want::False => "false",
        Want::Algorithm => "MD5, SHA-1, SHA-256, SHA-384 or SHA-512",
        Want::Whole => "a whole number",
        Want::Size => "a whole number above 0",
        Want::Index => "a whole number, 0 or above",
        Want::Step => "a whole number other than 0",
    }
}

/// Why a function has no value for arguments that are known.
fn reason_words(function: Function, reason: Reason) -> &'static str {
    match (function, reason) {
        (Function::ArrayRange, Reason::Range) => "would make more than 1,000 items",
        (Function::ArrayGetItem, Reason::Range) => "asks for an item that the list doesn't have",
        (Function::StringToJson, Reason::Undecoded) => "reads a text that is no JSON",
        (Function::Base64Decode, Reason::Undecoded) => "reads a text that is no Base64 of a text",
        (_, Reason::Unfit) => "fails on these arguments: one is of a type that it doesn't take",
        (_, Reason::Range) => "fails on these arguments: one is out of range",
        (_, Reason::Count) => "fails on these arguments: their number doesn't fit",
        (_, Reason::Undecoded) => "fails on these arguments: a text can't be decoded",
    }
}

fn put_count(out: &mut String, count: usize) -> Result<(), AllocError> {
    put_decimal(out, count as u64)
}

/// Appends how many arguments there are.
fn put_arguments(out: &mut String, count: usize) -> Result<(), AllocError> {
    put_count(out, count)?;
    out.push_str(if count == 1 {
        " argument"
    } else {
        " arguments"
    })
}

fn put_cause(out: &mut String, failure: Failure) -> Result<(), AllocError> {
    match failure.cause {
        Cause::Unfit(at, want) => {
            out.push_str(" takes ")?;
            out.push_str(want_noun(want))?;
            out.push_str(" as argument ")?;
            put_count(out, at.saturating_add(1))
        }
        Cause::Holes(places, count) => {
            out.push_str(" has ")?;
            put_count(out, places)?;
            out.push_str(" \"{}\" for ")?;
            put_arguments(out, count)
        }
        Cause::Together(reason) => {
            out.push(' ')?;
            out.push_str(reason_words(failure.function, reason))
        }
    }
}

/// Appends why a call fails on each input, by the first function in it that does.
pub(crate) fn put_failing(alloc: Global, out: &mut String, call: &str) -> Result<(), AllocError> {
    let Some(failure) = failing(alloc, call)? else {
        return out.push_str("this call fails on each input");
    };
    out.push_str("States.")?;
    out.push_str(failure.function.name())?;
    put_cause(out, failure)?;
    out.push_str(", so this call fails on each input")
}

// What is to stand where something is wrong.
use crate::cutting::line_at;
use crate::kinds::Kind;
use std::alloc::{AllocError, Global};

/// What is to stand where a value of an expectation file doesn't fit: the whole, a test, or what the member of this name has.
fn wanted_at(depth: usize, member: &str) -> &'static str {
    match (depth, member) {
        (0, _) => "an expectation file is a list of tests",
        (1, _) => {
            "a test is an object with machine, case, status, and input or inputFile; it may have name, output, match, error, cause, visits, invocations, calls and steps, and no other member"
        }
        (2, "machine" | "case" | "name") => "this is a text",
        (2, "inputFile") => "this is a text, the name of a file",
        (2, "status") => "this is SUCCEEDED, FAILED or TIMED_OUT",
        (2, "error" | "cause") => "this is a text, or null",
        (2, "calls") => "this is an object, from names of Tasks to lists of inputs",
        (2, "steps") => "this is a list of steps, each a line of a steps file",
        (2, _) => "this is an object, from names of states to whole numbers from 0",
        (_, "calls") => "this is a list of inputs",
        (_, "steps") => "this is a step, as in: \"/0 2026-01-01T00:00:00.000Z\"",
        (_, _) => "this is a whole number from 0",
    }
}

/// What is to stand at a place of an expectation file. The error is that memory ran out.
pub(crate) fn misfit_words(alloc: Global, pointer: &str) -> Result<String, AllocError> {
    let member = pointer.split('/').nth(2).unwrap_or("");
    let depth = pointer.split('/').count().saturating_sub(1);
    String::from_str(alloc, wanted_at(depth, member))
}

/// Appends what is wrong with a line that is no step.
fn put_step_words(out: &mut String, line: &[u8]) -> Result<(), AllocError> {
    if line.is_empty() {
        return out.push_str("an empty line is no step");
    }
    if line.last() == Some(&b'\r') {
        return out.push_str("the line ends in a carriage return: lines end in a line feed alone");
    }
    if line.first() != Some(&b'/') {
        return out.push_str("a step begins with the place of a branch, as / or /0/1");
    }
    if !line.contains(&b' ') {
        return out.push_str("a step has a moment behind its place, and a space between");
    }
    out.push_str("this is no place with a timestamp in UTC behind it")
}

/// What is wrong with the line of this number, which is no step. The error is that memory ran out.
pub(crate) fn step_words(alloc: Global, text: &[u8], number: usize) -> Result<String, AllocError> {
    let mut out = String::new(alloc);
    put_step_words(&mut out, line_at(text, number))?;
    out.push_str("; a step is written as in: /0 2026-01-01T00:00:00.000Z")?;
    Ok(out)
}

/// What is wrong with the line of this number, which is no command. The error is that memory ran out.
pub(crate) fn command_words(
    alloc: Global,
    text: &[u8],
    number: usize,
) -> Result<String, AllocError> {
    let mut out = String::new(alloc);
    if line_at(text, number).last() == Some(&b'\r') {
        out.push_str("the line ends in a carriage return: lines end in a line feed alone; ")?;
    } else {
        out.push_str("this is no command; ")?;
    }
    out.push_str(
        "there are: step PLACE MOMENT, break \"NAME\", clear \"NAME\", resume PLACE, show PLACE, back N",
    )?;
    Ok(out)
}

/// What is lacking to judge a file that is of this kind. The error is that memory ran out.
pub(crate) fn unclear_words(alloc: Global, kind: Option<Kind>) -> Result<String, AllocError> {
    let mut out = String::new(alloc);
    match kind {
        Some(kind) => {
            out.push_str("this is ")?;
            out.push_str(kind.words())?;
            out.push_str(", which lint doesn't judge")?;
        }
        None => out.push_str(
            "it isn't clear what this is: a definition has StartAt and States, a mock file StateMachines and MockedResponses, and an expectation file is a list of tests with machine and case; --input, --steps or --script names another file",
        )?,
    }
    Ok(out)
}

// The first value of an expectations file that doesn't fit.
ghost use Rattle.std.specs.Prelude.{◌≡◌, ◌++◌, [], codes, IfOk, option_map};
ghost use Rattle.asl_json_data.specs.Data.{chain, pairs};
ghost use Rattle.asl_json_write.specs.Pointers.{name_part, index_part};
ghost use Rattle.asl_json.specs.Access.{is_list};
ghost use Rattle.asl_json.specs.View.{data_of, members_of};
ghost use Rattle.asl_suite_file.specs.Form.{under, first_of, is_text, is_status_name, is_status, is_maybe_text, is_count, is_of_state, is_by_state, is_step, has_steps, is_fit, bad_steps_from, bad_steps, bad_of_states, bad_states, bad_member, bad_members, is_known, are_known, has_input, has_all, bad_test, misfits};

use crate::stepping::step_of;
use asl_json::{Items, Json, Member, Members};
use asl_json_write::Pointer;
use std::alloc::{AllocError, Global};

fn is_text(value: &Json) -> bool
    ensures { result ≡ is_text (data_of value.now) }
{
    match value {
        Json::Text(_) => true,
        _ => false,
    }
}

fn is_status_name(name: &str) -> bool
    ensures { result ≡ is_status_name name.now }
{
    match name {
        "SUCCEEDED" | "FAILED" | "TIMED_OUT" => true,
        _ => false,
    }
}

fn is_status(value: &Json) -> bool
    ensures { result ≡ is_status (data_of value.now) }
{
    match value {
        Json::Text(name) => is_status_name(name.as_str()),
        _ => false,
    }
}

/// Whether a value is a text or `null`.
fn is_maybe_text(value: &Json) -> bool
    ensures { result ≡ is_maybe_text (data_of value.now) }
{
    match value {
        Json::Text(_) | Json::Null => true,
        _ => false,
    }
}

/// Whether a value is a whole number, 0 or more.
fn is_count(value: &Json) -> bool
    ensures { result ≡ is_count (data_of value.now) }
{
    let Json::Num(number) = value else {
        return false;
    };
    match number.whole() {
        Some(count) => count >= 0,
        None => false,
    }
}

fn is_list(value: &Json) -> bool
    ensures { result ≡ is_list (data_of value.now) }
{
    match value {
        Json::List(_) => true,
        _ => false,
    }
}

/// Whether what a member says of a state fits.
fn is_of_state(key: &str, value: &Json) -> bool
    ensures { result ≡ is_of_state key.now (data_of value.now) }
{
    match key {
        "calls" => is_list(value),
        _ => is_count(value),
    }
}

/// Whether a member says something of states, by their names.
fn is_by_state(key: &str) -> bool
    ensures { result ≡ is_by_state key.now }
{
    match key {
        "visits" | "invocations" | "calls" => true,
        _ => false,
    }
}

/// Whether a value is a line of a steps file. The error is that memory ran out.
fn is_step(alloc: Global, value: &Json) -> Result<bool, AllocError>
    ensures { IfOk result (λ b. b ≡ is_step (data_of value.now)) }
{
    let step = step_of(alloc, value)?;
    Ok(step.is_some())
}

/// Whether a member has the steps of a test.
fn has_steps(key: &str) -> bool
    ensures { result ≡ has_steps key.now }
{
    key == "steps"
}

/// Whether the value of a member fits that says nothing of states.
fn is_fit(key: &str, value: &Json) -> bool
    ensures { result ≡ is_fit key.now (data_of value.now) }
{
    match key {
        "machine" | "case" | "name" | "inputFile" => is_text(value),
        "error" | "cause" => is_maybe_text(value),
        "status" => is_status(value),
        _ => true,
    }
}

fn is_known(key: &str) -> bool
    ensures { result ≡ is_known key.now }
{
    match key {
        "machine" | "case" | "name" | "input" | "inputFile" | "status" => true,
        "output" | "match" | "error" | "cause" | "steps" => true,
        _ => is_by_state(key),
    }
}

fn are_known(members: &[Member]) -> bool
    ensures { result ≡ are_known (pairs (members_of members.now)) }
{
    for member in members {
        if !is_known(member.key.as_str()) {
            return false;
        }
    }
    true
}

/// Whether the input of a test stands in it or in a file, and not in both.
fn has_input(value: &Json) -> bool
    ensures { result ≡ has_input (data_of value.now) }
{
    if value.get("input").is_some() {
        value.get("inputFile").is_none()
    } else {
        value.get("inputFile").is_some()
    }
}

/// Whether a test has the members that each has.
fn has_all(value: &Json) -> bool
    ensures { result ≡ has_all (data_of value.now) }
{
    value.get("machine").is_some()
        && value.get("case").is_some()
        && has_input(value)
        && value.get("status").is_some()
}

/// The place of a test. The error is that memory ran out.
fn at_test(alloc: Global, test: usize) -> Result<Pointer, AllocError>
    ensures { IfOk result (λ p. p ≡ index_part test ++ []) }
{
    Pointer::whole(alloc).at_index(test)
}

/// The place of a member of a test. The error is that memory ran out.
fn at_member(alloc: Global, test: usize, key: &str) -> Result<Pointer, AllocError>
    ensures { IfOk result (λ p. p ≡ index_part test ++ (name_part key.now ++ [])) }
{
    at_test(alloc, test)?.at_name(key)
}

/// The place of what a member of a test says of a state. The error is that memory ran out.
fn at_state(alloc: Global, test: usize, key: &str, state: &str) -> Result<Pointer, AllocError>
    ensures { IfOk result (λ p. p ≡ index_part test
        ++ (name_part key.now ++ (name_part state.now ++ []))) }
{
    at_member(alloc, test, key)?.at_name(state)
}

/// The place of the first thing that doesn't fit among those that a member of the test of this number says of states. The error is that
/// memory ran out.
fn bad_of_states(
    alloc: Global,
    test: usize,
    key: &str,
    states: &Members,
) -> Result<Option<Pointer>, AllocError>
    ensures { IfOk result (λ found. found ≡ first_of (under (index_part test)
        (under (name_part key.now) (bad_of_states key.now (pairs states.now))))) }
{
    let states = states.members();
    for state in states {
        if !is_of_state(key, &state.value) {
            return Ok(Some(at_state(alloc, test, key, state.key.as_str())?));
        }
    }
    Ok(None)
}

fn bad_states(
    alloc: Global,
    test: usize,
    key: &str,
    value: &Json,
) -> Result<Option<Pointer>, AllocError>
    ensures { IfOk result (λ found. found ≡ first_of (under (index_part test)
        (under (name_part key.now) (bad_states key.now (data_of value.now))))) }
{
    match value {
        Json::Dict(states) => bad_of_states(alloc, test, key, states),
        _ => Ok(Some(at_member(alloc, test, key)?)),
    }
}

/// The place of the step of a number. The error is that memory ran out.
fn at_step(alloc: Global, test: usize, key: &str, number: usize) -> Result<Pointer, AllocError>
    ensures { IfOk result (λ p. p ≡ index_part test
        ++ (name_part key.now ++ (index_part number ++ []))) }
{
    at_member(alloc, test, key)?.at_index(number)
}

/// The place of the first step that doesn't fit. The error is that memory ran out.
fn bad_steps_in(
    alloc: Global,
    test: usize,
    key: &str,
    steps: &Items,
) -> Result<Option<Pointer>, AllocError>
    ensures { IfOk result (λ found. found ≡ first_of (under (index_part test)
        (under (name_part key.now) (bad_steps_from 0 (chain steps.now))))) }
{
    let steps = steps.values();
    for (i, step) in steps.iter().enumerate() {
        if !is_step(alloc, step)? {
            return Ok(Some(at_step(alloc, test, key, i)?));
        }
    }
    Ok(None)
}

fn bad_steps(
    alloc: Global,
    test: usize,
    key: &str,
    value: &Json,
) -> Result<Option<Pointer>, AllocError>
    ensures { IfOk result (λ found. found ≡ first_of (under (index_part test)
        (under (name_part key.now) (bad_steps (data_of value.now))))) }
{
    match value {
        Json::List(steps) => bad_steps_in(alloc, test, key, steps),
        _ => Ok(Some(at_member(alloc, test, key)?)),
    }
}

/// The place of the first value that doesn't fit in a member of the test of this number. The error is that memory ran out.
fn bad_member(
    alloc: Global,
    test: usize,
    key: &str,
    value: &Json,
) -> Result<Option<Pointer>, AllocError>
    ensures { IfOk result (λ found. found ≡ first_of (under (index_part test)
        (under (name_part key.now) (bad_member key.now (data_of value.now))))) }
{
    if is_by_state(key) {
        return bad_states(alloc, test, key, value);
    }
    if has_steps(key) {
        return bad_steps(alloc, test, key, value);
    }
    if is_fit(key, value) {
        return Ok(None);
    }
    Ok(Some(at_member(alloc, test, key)?))
}

fn bad_members(
    alloc: Global,
    test: usize,
    members: &[Member],
) -> Result<Option<Pointer>, AllocError>
    ensures { IfOk result (λ found. found ≡ first_of (under (index_part test)
        (bad_members (pairs (members_of members.now))))) }
{
    for member in members {
        let found = bad_member(alloc, test, member.key.as_str(), &member.value)?;
        if found.is_some() {
            return Ok(found);
        }
    }
    Ok(None)
}

/// The place of the first value that doesn't fit in the test of this number. The error is that memory ran out.
fn bad_test(alloc: Global, test: usize, value: &Json) -> Result<Option<Pointer>, AllocError>
    ensures { IfOk result (λ found. found ≡ first_of (under (index_part test) (bad_test (data_of value.now)))) }
{
    let Json::Dict(members) = value else {
        return Ok(Some(at_test(alloc, test)?));
    };
    let members = members.members();
    if !has_all(value) || !are_known(members) {
        return Ok(Some(at_test(alloc, test)?));
    }
    bad_members(alloc, test, members)
}

/// The place of the first value that doesn't fit. The error is that memory ran out.
pub(crate) fn misfit(alloc: Global, value: &Json) -> Result<Option<Pointer>, AllocError>
    ensures { IfOk result (λ found. found ≡ first_of (misfits (data_of value.now))) }
{
    let Json::List(tests) = value else {
        return Ok(Some(Pointer::whole(alloc)));
    };
    let tests = tests.values();
    for (i, test) in tests.iter().enumerate() {
        let found = bad_test(alloc, i, test)?;
        if found.is_some() {
            return Ok(found);
        }
    }
    Ok(None)
}

// The tests that a value spells.
ghost use Rattle.std.specs.Prelude.{◌≡◌, IfOk, option_map};
ghost use Rattle.asl_json_data.specs.Data.{pairs};
ghost use Rattle.asl_json.specs.Access.{items_in, members_of_any};
ghost use Rattle.asl_json.specs.View.{data_of, members_of, json_of, unchained};
ghost use Rattle.asl_suite_file.specs.Spelled.{text_of, input_by, name_of, wanted_text, maybe_in, wanted_of, count_of, counts_in, calls_in, end_of, states_of, test_of, tests_of};

use crate::expectation::{
    CallsByState, CountsByState, Draft, InputSource, StateCalls, StateCount, Wanted, WantedEnd,
    WantedStates, WantedText,
};
use crate::stepping::steps_of;
use asl_json::{Items, Json, Member, Txt};
use asl_json_shared::Shared;
use std::alloc::{AllocError, Global};

/// A copy of a text; of any other value an empty one. The error is that memory ran out.
fn text_of(alloc: Global, value: Option<&Json>) -> Result<Txt, AllocError>
    ensures { IfOk result (λ t. t ≡ text_of (option_map (λ v. data_of v.now) value.entry)) }
{
    match value {
        Some(Json::Text(text)) => text.try_clone(alloc),
        _ => Ok(Txt::new(String::new(alloc))),
    }
}

/// A copy of a value. The error is that memory ran out.
pub(crate) fn copy(alloc: Global, value: &Json) -> Result<Json, AllocError>
    ensures { IfOk result (λ v. v ≡ json_of (data_of value.now)) }
{
    Ok(value.try_clone(alloc)?)
}

fn wanted_of(name: &str) -> Wanted
    ensures { result ≡ wanted_of name.now }
{
    match name {
        "SUCCEEDED" => Wanted::Succeeded,
        "FAILED" => Wanted::Failed,
        _ => Wanted::TimedOut,
    }
}

fn status_of(value: Option<&Json>) -> Wanted
    ensures { result ≡ wanted_of (text_of (option_map (λ v. data_of v.now) value.entry)) }
{
    match value {
        Some(Json::Text(name)) => wanted_of(name.as_str()),
        _ => wanted_of(""),
    }
}

fn name_of(alloc: Global, value: Option<&Json>) -> Result<Option<Txt>, AllocError>
    ensures { IfOk result (λ o. o ≡ name_of (option_map (λ v. data_of v.now) value.entry)) }
{
    match value {
        Some(_) => Ok(Some(text_of(alloc, value)?)),
        None => Ok(None),
    }
}

/// What a text of the error output is to be.
fn wanted_text(alloc: Global, value: Option<&Json>) -> Result<WantedText, AllocError>
    ensures { IfOk result (λ w. w ≡ wanted_text (option_map (λ v. data_of v.now) value.entry)) }
{
    match value {
        None => Ok(WantedText::Any),
        Some(Json::Text(text)) => Ok(WantedText::Text(text.try_clone(alloc)?)),
        Some(_) => Ok(WantedText::Absent),
    }
}

fn maybe_of(alloc: Global, value: Option<&Json>) -> Result<Option<Json>, AllocError>
    ensures { IfOk result (λ o. o ≡ maybe_in (option_map (λ v. data_of v.now) value.entry)) }
{
    match value {
        Some(value) => Ok(Some(copy(alloc, value)?)),
        None => Ok(None),
    }
}

/// The whole number that a value is; 0 of any other value.
fn count_of(value: &Json) -> u64
    ensures { result ≡ count_of (data_of value.now) }
{
    let Json::Num(number) = value else {
        return 0;
    };
    match number.whole() {
        Some(count) if count >= 0 => count as u64,
        _ => 0,
    }
}

/// The members of an object; any other value, and none, has none.
fn members_of<'a>(value: Option<&'a Json>) -> &'a [Member]
    ensures { pairs (members_of result.now) ≡ members_of_any (option_map (λ v. data_of v.now) value.entry) }
{
    match value {
        Some(value) => value.members(),
        None => &[],
    }
}

fn counts_of(alloc: Global, value: Option<&Json>) -> Result<CountsByState, AllocError>
    ensures { IfOk result (λ c. c ≡ counts_in (members_of_any (option_map (λ v. data_of v.now) value.entry))) }
{
    let members = members_of(value);
    let mut counts = Vec::with_capacity(alloc, members.len())?;
    for member in members {
        counts.push(StateCount {
            state: member.key.try_clone(alloc)?,
            count: count_of(&member.value),
        })?;
    }
    Ok(CountsByState::of_counts(counts))
}

/// A copy of a list; of any other value an empty one. The error is that memory ran out.
#[tactic(auto, using(crate::proofs::Listing::unchained_chain))]
fn items_of(alloc: Global, value: &Json) -> Result<Items, AllocError>
    ensures { IfOk result (λ i. i ≡ unchained (items_in (data_of value.now))) }
{
    match value {
        Json::List(items) => items.try_clone(alloc),
        _ => Ok(Items::of_values(Vec::new(alloc))),
    }
}

fn calls_of(alloc: Global, value: Option<&Json>) -> Result<CallsByState, AllocError>
    ensures { IfOk result (λ c. c ≡ calls_in (members_of_any (option_map (λ v. data_of v.now) value.entry))) }
{
    let members = members_of(value);
    let mut calls = Vec::with_capacity(alloc, members.len())?;
    for member in members {
        calls.push(StateCalls {
            state: member.key.try_clone(alloc)?,
            inputs: items_of(alloc, &member.value)?,
        })?;
    }
    Ok(CallsByState::of_calls(calls))
}

/// How the execution of the test that a value spells is to end. The error is that memory ran out.
fn end_of(alloc: Global, value: &Json) -> Result<WantedEnd, AllocError>
    ensures { IfOk result (λ x. x ≡ end_of (data_of value.now)) }
{
    Ok(WantedEnd {
        status: status_of(value.get("status")),
        output: maybe_of(alloc, value.get("output"))?,
        part: maybe_of(alloc, value.get("match"))?,
        error: wanted_text(alloc, value.get("error"))?,
        cause: wanted_text(alloc, value.get("cause"))?,
    })
}

/// What the states are to do in the test that a value spells. The error is that memory ran out.
fn states_of(alloc: Global, value: &Json) -> Result<WantedStates, AllocError>
    ensures { IfOk result (λ x. x ≡ states_of (data_of value.now)) }
{
    Ok(WantedStates {
        visits: counts_of(alloc, value.get("visits"))?,
        invocations: counts_of(alloc, value.get("invocations"))?,
        calls: calls_of(alloc, value.get("calls"))?,
    })
}

/// Where the input of a test stands that has one of these members. The error is that memory ran out.
fn input_by(
    alloc: Global,
    input: Option<&Json>,
    file: Option<&Json>,
) -> Result<InputSource, AllocError>
    ensures { IfOk result (λ x. x ≡ input_by (option_map (λ v. data_of v.now) input.entry)
        (option_map (λ v. data_of v.now) file.entry)) }
{
    match input {
        Some(input) => Ok(InputSource::Here(Shared::new(alloc, copy(alloc, input)?)?)),
        None => Ok(InputSource::File(text_of(alloc, file)?)),
    }
}

/// The test that a value spells. The error is that memory ran out.
fn test_of(alloc: Global, value: &Json) -> Result<Draft, AllocError>
    ensures { IfOk result (λ x. x ≡ test_of (data_of value.now)) }
{
    Ok(Draft {
        machine: text_of(alloc, value.get("machine"))?,
        case: text_of(alloc, value.get("case"))?,
        name: name_of(alloc, value.get("name"))?,
        input: input_by(alloc, value.get("input"), value.get("inputFile"))?,
        steps: steps_of(alloc, value.get("steps"))?,
        end: end_of(alloc, value)?,
        states: states_of(alloc, value)?,
    })
}

/// The tests that a value spells. The error is that memory ran out.
pub(crate) fn tests_of(alloc: Global, value: &Json) -> Result<Vec<Draft>, AllocError>
    ensures { IfOk result (λ v. v.items ≡ tests_of (data_of value.now)) }
{
    let Json::List(items) = value else {
        return Ok(Vec::new(alloc));
    };
    let items = items.values();
    let mut tests = Vec::with_capacity(alloc, items.len())?;
    for item in items {
        tests.push(test_of(alloc, item)?)?;
    }
    Ok(tests)
}

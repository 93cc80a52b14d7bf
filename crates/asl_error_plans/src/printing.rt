// A case as a mock file.
ghost use Rattle.std.specs.Prelude.{◌≡◌, ◌++◌, OnOk, string_bytes};
ghost use Rattle.std.specs.List.{flat_map};
ghost use Rattle.asl_error_plans.specs.Printing.{last_of, end_text, key_text, cause_text, thrown_text, returned_text, answer_text, range_text, more_text, ranges_text, head, own_text, response_text, chosen_text, more_chosen, more_response, all_chosen_text, all_responses_text, machine_head, case_text, responses_text, file_text};

use asl_json::{Json, Txt};
use asl_json_write::{put, put_quoted};
use asl_mock::{Answer, Case, Ranged, Span};
use asl_text::put_decimal;
use std::alloc::{AllocError, Global};

/// The greatest number that a key of a mock file spells: it has nine digits at most.
const LAST: u32 = 999_999_999;

fn last_of(span: Span) -> u32
    ensures { result ≡ last_of span }
{
    if span.high < LAST { span.high } else { LAST }
}

/// Appends where a key's numbers end, if it has more than one.
fn put_end(out: &mut String, span: Span) -> Result<(), AllocError>
    ensures { OnOk result (string_bytes out.new ≡ string_bytes out.old ++ end_text span) }
{
    let last = last_of(span);
    if span.low >= last {
        return Ok(());
    }
    out.push('-')?;
    put_decimal(out, u64::from(last))
}

#[tactic(auto, unfolding(crate::specs::Printing::key_text))]
fn put_key(out: &mut String, span: Span) -> Result<(), AllocError>
    ensures { OnOk result (string_bytes out.new ≡ string_bytes out.old ++ key_text span) }
{
    out.push('"')?;
    put_decimal(out, u64::from(span.low))?;
    put_end(out, span)?;
    out.push('"')
}

fn put_cause(out: &mut String, cause: &Option<Txt>) -> Result<(), AllocError>
    ensures { OnOk result (string_bytes out.new ≡ string_bytes out.old ++ cause_text cause.now) }
{
    match cause {
        Some(cause) => {
            out.push_str(",\"Cause\":")?;
            put_quoted(out, cause.as_str())
        }
        None => Ok(()),
    }
}

#[tactic(auto, unfolding(crate::specs::Printing::thrown_text))]
fn put_thrown(out: &mut String, error: &Txt, cause: &Option<Txt>) -> Result<(), AllocError>
    ensures { OnOk result (string_bytes out.new ≡ string_bytes out.old ++ thrown_text error.now cause.now) }
{
    out.push_str("{\"Throw\":{\"Error\":")?;
    put_quoted(out, error.as_str())?;
    put_cause(out, cause)?;
    out.push_str("}}")
}

#[tactic(auto, unfolding(crate::specs::Printing::returned_text))]
fn put_returned(out: &mut String, value: &Json) -> Result<(), AllocError>
    ensures { OnOk result (string_bytes out.new ≡ string_bytes out.old ++ returned_text value.now) }
{
    out.push_str("{\"Return\":")?;
    put(out, value)?;
    out.push('}')
}

fn put_answer(out: &mut String, answer: &Answer) -> Result<(), AllocError>
    ensures { OnOk result (string_bytes out.new ≡ string_bytes out.old ++ answer_text answer.now) }
{
    match answer {
        Answer::Returns(value) => put_returned(out, value),
        Answer::Throws { error, cause } => put_thrown(out, error, cause),
    }
}

/// Appends an answer behind the key of its numbers.
#[tactic(auto, unfolding(crate::specs::Printing::range_text))]
fn put_range(out: &mut String, ranged: &Ranged) -> Result<(), AllocError>
    ensures { OnOk result (string_bytes out.new ≡ string_bytes out.old ++ range_text ranged.now) }
{
    put_key(out, ranged.span)?;
    out.push(':')?;
    put_answer(out, &ranged.answer)
}

/// Appends one more answer behind a comma, unless no key spells its numbers.
fn put_more(out: &mut String, ranged: &Ranged) -> Result<(), AllocError>
    ensures { OnOk result (string_bytes out.new ≡ string_bytes out.old ++ more_text ranged.now) }
{
    if ranged.span.low > LAST {
        return Ok(());
    }
    out.push(',')?;
    put_range(out, ranged)
}

fn put_rest(out: &mut String, answers: &[Ranged]) -> Result<(), AllocError>
    ensures { OnOk result (string_bytes out.new ≡ string_bytes out.old ++ flat_map more_text answers.now) }
{
    for ranged in answers {
        put_more(out, ranged)?;
    }
    Ok(())
}

fn put_ranges(out: &mut String, answers: &[Ranged]) -> Result<(), AllocError>
    ensures { OnOk result (string_bytes out.new ≡ string_bytes out.old ++ ranges_text answers.now) }
{
    match answers {
        [] => Ok(()),
        [first, rest @ ..] => {
            put_range(out, first)?;
            put_rest(out, rest)
        }
    }
}

/// Appends the name of a member, and the beginning of an object.
#[tactic(auto, unfolding(crate::specs::Printing::head))]
fn put_head(out: &mut String, name: &str) -> Result<(), AllocError>
    ensures { OnOk result (string_bytes out.new ≡ string_bytes out.old ++ head name.now) }
{
    put_quoted(out, name)?;
    out.push_str(":{")
}

/// Appends the response of a state under the state's name.
#[tactic(auto, unfolding(crate::specs::Printing::own_text))]
fn put_own(out: &mut String, state: &str, answers: &[Ranged]) -> Result<(), AllocError>
    ensures { OnOk result (string_bytes out.new ≡ string_bytes out.old ++ own_text state.now answers.now) }
{
    put_head(out, state)?;
    put_ranges(out, answers)?;
    out.push('}')
}

/// Appends the response of a state, an empty one if the case doesn't name it.
fn put_response(out: &mut String, case: &Case, state: &str) -> Result<(), AllocError>
    ensures { OnOk result (string_bytes out.new ≡ string_bytes out.old ++ response_text case.now state.now) }
{
    match case.response_for(state) {
        Some(response) => put_own(out, state, response.by_number()),
        None => put_own(out, state, &[]),
    }
}

/// Appends the name of a state, and that of its response, which is the same.
fn put_chosen(out: &mut String, state: &str) -> Result<(), AllocError>
    ensures { OnOk result (string_bytes out.new ≡ string_bytes out.old ++ chosen_text state.now) }
{
    put_quoted(out, state)?;
    out.push(':')?;
    put_quoted(out, state)
}

fn put_more_chosen(out: &mut String, states: &[Txt]) -> Result<(), AllocError>
    ensures { OnOk result (string_bytes out.new ≡ string_bytes out.old ++ flat_map more_chosen states.now) }
{
    for state in states {
        out.push(',')?;
        put_chosen(out, state.as_str())?;
    }
    Ok(())
}

fn put_all_chosen(out: &mut String, states: &[Txt]) -> Result<(), AllocError>
    ensures { OnOk result (string_bytes out.new ≡ string_bytes out.old ++ all_chosen_text states.now) }
{
    match states {
        [] => Ok(()),
        [first, rest @ ..] => {
            put_chosen(out, first.as_str())?;
            put_more_chosen(out, rest)
        }
    }
}

fn put_more_responses(out: &mut String, case: &Case, states: &[Txt]) -> Result<(), AllocError>
    ensures { OnOk result (string_bytes out.new
        ≡ string_bytes out.old ++ flat_map (more_response case.now) states.now) }
{
    for state in states {
        out.push(',')?;
        put_response(out, case, state.as_str())?;
    }
    Ok(())
}

fn put_all_responses(out: &mut String, case: &Case, states: &[Txt]) -> Result<(), AllocError>
    ensures { OnOk result (string_bytes out.new ≡ string_bytes out.old ++ all_responses_text case.now states.now) }
{
    match states {
        [] => Ok(()),
        [first, rest @ ..] => {
            put_response(out, case, first.as_str())?;
            put_more_responses(out, case, rest)
        }
    }
}

/// Appends what stands before the members of the machine of this name.
#[tactic(auto, unfolding(crate::specs::Printing::machine_head))]
fn put_machine(out: &mut String, name: &str) -> Result<(), AllocError>
    ensures { OnOk result (string_bytes out.new ≡ string_bytes out.old ++ machine_head name.now) }
{
    out.push('{')?;
    put_head(out, "StateMachines")?;
    put_head(out, name)
}

/// Appends the case of this name.
#[tactic(auto, unfolding(crate::specs::Printing::case_text))]
fn put_case(out: &mut String, name: &str, states: &[Txt]) -> Result<(), AllocError>
    ensures { OnOk result (string_bytes out.new ≡ string_bytes out.old ++ case_text name.now states.now) }
{
    put_head(out, name)?;
    put_all_chosen(out, states)?;
    out.push_str("}}}}")
}

/// Appends the responses.
#[tactic(auto, unfolding(crate::specs::Printing::responses_text))]
fn put_responses(out: &mut String, case: &Case, states: &[Txt]) -> Result<(), AllocError>
    ensures { OnOk result (string_bytes out.new ≡ string_bytes out.old ++ responses_text case.now states.now) }
{
    out.push(',')?;
    put_head(out, "MockedResponses")?;
    put_all_responses(out, case, states)?;
    out.push_str("}}\n")
}

/// Appends a case of a machine, both of these names, as a mock file: of these states, each of which the case names. The error is that memory ran out.
pub fn put_mock_file(
    out: &mut String,
    machine: &str,
    name: &str,
    case: &Case,
    states: &[Txt],
) -> Result<(), AllocError>
    ensures { OnOk result (string_bytes out.new
        ≡ string_bytes out.old ++ file_text machine.now name.now case.now states.now) }
{
    put_machine(out, machine)?;
    put_head(out, "TestCases")?;
    put_case(out, name, states)?;
    put_responses(out, case, states)
}

// What is told of a search beyond its outcomes.
ghost use Rattle.std.specs.Prelude.{◌≡◌, ◌++◌, ◌+◌, OnOk, string_bytes};
ghost use Rattle.std.specs.Fmt.{decimal};
ghost use Rattle.std.specs.List.{flat_map};
ghost use Rattle.asl_explore.specs.Telling.{span_text, call_line, call_text, state_calls, calls_text, name_line, names_text, unanswered_line, unanswered_text, remarks_text, are_remarks};

use crate::calls::{Bounds, Calls};
use crate::remarks::{Answers, Remarks};
use crate::states::Stated;
use asl_json_shared::Name;
use asl_json_write::put_quoted;
use asl_text::put_decimal;
use std::alloc::AllocError;

/// Appends the numbers from the low one to the high one: `4-6`, or `4` alone. The error is that memory ran out.
fn put_span(out: &mut String, low: u32, high: u32) -> Result<(), AllocError>
    ensures { OnOk result (string_bytes out.new ≡ string_bytes out.old ++ span_text low high) }
{
    put_decimal(out, u64::from(low))?;
    if low == high {
        return Ok(());
    }
    out.push('-')?;
    put_decimal(out, u64::from(high))
}

/// Appends a word, a name, a span of numbers and a line feed. The error is that memory ran out.
fn put_call(out: &mut String, name: &Name, bounds: Bounds) -> Result<(), AllocError>
    ensures { OnOk result (string_bytes out.new
        ≡ string_bytes out.old ++ call_line name.now bounds) }
{
    out.push_str("calls ")?;
    put_quoted(out, name.as_str())?;
    out.push(' ')?;
    put_span(out, bounds.least, bounds.most)?;
    out.push('\n')
}

/// Appends the line of how often a state is invoked, where it is. The error is that memory ran out.
fn put_bounds(out: &mut String, name: &Name, bounds: Option<Bounds>) -> Result<(), AllocError>
    ensures { OnOk result (string_bytes out.new
        ≡ string_bytes out.old ++ call_text name.now bounds) }
{
    match bounds {
        Some(bounds) if bounds.most > 0 => put_call(out, name, bounds),
        _ => Ok(()),
    }
}

/// Appends the line of how often a state is invoked, where it is. The error is that memory ran out.
fn put_state(out: &mut String, state: &Stated, calls: &Calls) -> Result<(), AllocError>
    ensures { OnOk result (string_bytes out.new
        ≡ string_bytes out.old ++ state_calls calls.now state.now) }
{
    put_bounds(out, &state.name, calls.bounds.get(state.number).copied())
}

/// Appends the lines of how often each of these states is invoked. The error is that memory ran out.
fn put_each(out: &mut String, states: &[Stated], calls: &Calls) -> Result<(), AllocError>
    ensures { OnOk result (string_bytes out.new
        ≡ string_bytes out.old ++ flat_map (state_calls calls.now) states.now) }
{
    for state in states {
        put_state(out, state, calls)?;
    }
    Ok(())
}

/// Appends the lines of how often each of these states is invoked in the orders that end in the outcome of this number, from 0. The error
/// is that memory ran out.
pub(crate) fn put_calls(
    out: &mut String,
    states: &[Stated],
    calls: &[Calls],
    number: usize,
) -> Result<(), AllocError>
    ensures { OnOk result (string_bytes out.new
        ≡ string_bytes out.old ++ calls_text states.now calls.now (number + 1)) }
{
    match calls.get(number) {
        Some(calls) => put_each(out, states, calls),
        None => Ok(()),
    }
}

/// Appends a word, a name and a line feed. The error is that memory ran out.
fn put_name(out: &mut String, word: &str, name: &Name) -> Result<(), AllocError>
    ensures { OnOk result (string_bytes out.new
        ≡ string_bytes out.old ++ name_line word.now name.now) }
{
    out.push_str(word)?;
    put_quoted(out, name.as_str())?;
    out.push('\n')
}

/// Appends a line of a word and a name for each name. The error is that memory ran out.
fn put_names(out: &mut String, word: &str, names: &[Name]) -> Result<(), AllocError>
    ensures { OnOk result (string_bytes out.new
        ≡ string_bytes out.old ++ names_text word.now names.now) }
{
    for name in names {
        put_name(out, word, name)?;
    }
    Ok(())
}

/// Appends the line of answers that no order asks for. The error is that memory ran out.
fn put_answers(out: &mut String, answers: &Answers) -> Result<(), AllocError>
    ensures { OnOk result (string_bytes out.new
        ≡ string_bytes out.old ++ unanswered_line answers.now) }
{
    out.push_str("never answered ")?;
    put_quoted(out, answers.task.as_str())?;
    out.push(' ')?;
    put_span(out, answers.low, answers.high)?;
    out.push('\n')
}

/// Appends the lines of answers that no order asks for. The error is that memory ran out.
fn put_unanswered(out: &mut String, unanswered: &[Answers]) -> Result<(), AllocError>
    ensures { OnOk result (string_bytes out.new
        ≡ string_bytes out.old ++ unanswered_text unanswered.now) }
{
    for answers in unanswered {
        put_answers(out, answers)?;
    }
    Ok(())
}

/// Appends the lines of what is remarkable. The error is that memory ran out.
pub(crate) fn put_remarks(out: &mut String, remarks: &Remarks) -> Result<(), AllocError>
    ensures { OnOk result (string_bytes out.new
        ≡ string_bytes out.old ++ remarks_text remarks.now) }
{
    put_names(out, "shared ", &remarks.shared)?;
    put_names(out, "never entered ", &remarks.unentered)?;
    put_unanswered(out, &remarks.unanswered)?;
    put_names(out, "cut off ", &remarks.cut_off)
}

/// Whether anything is remarkable.
pub(crate) fn are_remarks(remarks: &Remarks) -> bool
    ensures { result ≡ are_remarks remarks.now }
{
    remarks.shared.len() > 0
        || remarks.unentered.len() > 0
        || remarks.unanswered.len() > 0
        || remarks.cut_off.len() > 0
}

// The lines of a step.
ghost use Rattle.std.specs.Prelude.{◌≡◌, ◌++◌, IfOk, OnOk, string_bytes, option_map};
ghost use Rattle.std.specs.Option.{option_copied};
ghost use Rattle.asl_json.specs.View.{data_of};
ghost use Rattle.asl_trace_lines.specs.Seen.{input_in, output_in};
ghost use Rattle.asl_trace_lines.specs.Columns.{ended};
ghost use Rattle.asl_trace_lines.specs.Outcome.{outcome_text, goes_text};
ghost use Rattle.asl_trace_lines.specs.Lines.{kind_text, state_text, row, cause_of, cause_line, data_lines, happening_text, stopped_line, timed_out_line};
ghost use Rattle.asl_trace_lines.specs.Views.{seen_in};

use crate::columns::{put_ended, put_lead, put_state_column, under};
use crate::happening::Happening;
use crate::outcome::{error_in, put_goes, put_outcome};
use asl_history::Place;
use asl_json::{Json, Txt};
use asl_json_diff::{put_changes, put_name, put_short};
use asl_json_shared::Shared;
use asl_step::{ErrorOut, Record};
use asl_time::Moment;
use std::alloc::{AllocError, Global};

fn put_kind(out: &mut String, step: &Happening) -> Result<(), AllocError>
    ensures { OnOk result (string_bytes out.new
        ≡ string_bytes out.old ++ kind_text (seen_in step.now)) }
{
    out.push_str(step.kind)?;
    if step.kind == "Task" {
        write!(out, " {}", step.count)?;
    }
    Ok(())
}

/// The name and the type of the state.
fn state_text(alloc: Global, step: &Happening) -> Result<String, AllocError>
    ensures { IfOk result (λ t. string_bytes t ≡ state_text (seen_in step.now)) }
{
    let mut text = String::new(alloc);
    put_name(alloc, &mut text, step.before.name())?;
    text.push_str("  ")?;
    put_kind(&mut text, step)?;
    Ok(text)
}

/// Appends what became of the state, and where its branch goes on.
fn put_end(alloc: Global, out: &mut String, step: &Happening) -> Result<(), AllocError>
    ensures { OnOk result (string_bytes out.new ≡ string_bytes out.old
        ++ ended (outcome_text (seen_in step.now)) (goes_text (seen_in step.now))) }
{
    let mut outcome = String::new(alloc);
    put_outcome(alloc, &mut outcome, step)?;
    let mut goes = String::new(alloc);
    put_goes(alloc, &mut goes, step)?;
    put_ended(out, outcome.as_str(), goes.as_str())
}

/// Appends the first line of a step: what became of the state, and where its branch goes on. The error is that memory ran out.
pub fn put_row(alloc: Global, out: &mut String, step: &Happening) -> Result<(), AllocError>
    ensures { OnOk result (string_bytes out.new ≡ string_bytes out.old ++ row (seen_in step.now)) }
{
    put_lead(alloc, out, step.start, step.moment, step.place)?;
    let state = state_text(alloc, step)?;
    put_state_column(out, step.place, state.as_str())?;
    out.push(' ')?;
    put_end(alloc, out, step)?;
    out.push('\n')
}

fn put_cause_of(
    alloc: Global,
    out: &mut String,
    lead: &str,
    cause: Option<&Txt>,
) -> Result<(), AllocError>
    ensures { OnOk result (string_bytes out.new
        ≡ string_bytes out.old ++ cause_of lead.now (option_map (λ t. t.now) cause.entry)) }
{
    let Some(cause) = cause else {
        return Ok(());
    };
    let value = Json::Text(cause.try_clone(alloc)?);
    out.push_str(lead)?;
    out.push_str("cause ")?;
    put_short(alloc, out, &value)?;
    out.push('\n')
}

fn put_cause(
    alloc: Global,
    out: &mut String,
    lead: &str,
    error: Option<&ErrorOut>,
) -> Result<(), AllocError>
    ensures { OnOk result (string_bytes out.new
        ≡ string_bytes out.old ++ cause_line lead.now (option_copied error.entry)) }
{
    match error {
        Some(error) => put_cause_of(alloc, out, lead, error.cause.as_ref()),
        None => Ok(()),
    }
}

/// The raw input of the state that a branch is in.
fn input_in(doing: &Record) -> Option<&Shared>
    ensures { option_map (λ x. x.now) result ≡ input_in doing.now }
{
    match doing {
        Record::New { input, .. }
        | Record::Ready { input, .. }
        | Record::Pausing { input, .. }
        | Record::Again { input, .. }
        | Record::Forked { input, .. } => Some(input),
        Record::Done(_) | Record::Failed(_) => None,
    }
}

/// What a branch goes on with, or ends with, that has left its state.
fn output_in(doing: &Record) -> Option<&Shared>
    ensures { option_map (λ x. x.now) result ≡ output_in doing.now }
{
    match doing {
        Record::New { input, .. } | Record::Ready { input, .. } => Some(input),
        Record::Done(output) => Some(output),
        _ => None,
    }
}

fn put_data(
    alloc: Global,
    out: &mut String,
    lead: &str,
    input: Option<&Shared>,
    output: Option<&Shared>,
) -> Result<(), AllocError>
    ensures { OnOk result (string_bytes out.new ≡ string_bytes out.old
        ++ data_lines lead.now (option_map (λ x. x.now) input.entry)
        (option_map (λ x. x.now) output.entry)) }
{
    match (input, output) {
        (Some(input), Some(output)) => put_changes(alloc, out, lead, input.get(), output.get()),
        _ => Ok(()),
    }
}

/// Appends the lines of a step: what became of the state; the cause of its error, where there is one; and, where it was left, what is
/// otherwise in its output than in its raw input. The error is that memory ran out.
pub fn put_happening(alloc: Global, out: &mut String, step: &Happening) -> Result<(), AllocError>
    ensures { OnOk result (string_bytes out.new
        ≡ string_bytes out.old ++ happening_text (seen_in step.now)) }
{
    put_row(alloc, out, step)?;
    let lead = under(alloc, step.place)?;
    put_cause(alloc, out, lead.as_str(), error_in(step))?;
    put_data(
        alloc,
        out,
        lead.as_str(),
        input_in(step.before),
        output_in(step.after),
    )
}

/// Appends the line of a branch that was stopped in the state of this name. The error is that memory ran out.
pub fn put_stopped(
    alloc: Global,
    out: &mut String,
    start: Moment,
    now: Moment,
    place: &Place,
    name: &str,
) -> Result<(), AllocError>
    ensures { OnOk result (string_bytes out.new
        ≡ string_bytes out.old ++ stopped_line start now place.now name.now) }
{
    put_lead(alloc, out, start, now, place)?;
    let mut text = String::new(alloc);
    put_name(alloc, &mut text, name)?;
    put_state_column(out, place, text.as_str())?;
    out.push_str(" stopped\n")
}

/// Appends the line of an execution whose time was over. The error is that memory ran out.
pub fn put_timed_out(
    alloc: Global,
    out: &mut String,
    start: Moment,
    now: Moment,
) -> Result<(), AllocError>
    ensures { OnOk result (string_bytes out.new
        ≡ string_bytes out.old ++ timed_out_line start now) }
{
    put_lead(alloc, out, start, now, &Place::root())?;
    out.push_str("timed out\n")
}

// What became of a state, and where its branch goes on.
ghost use Rattle.std.specs.Prelude.{◌≡◌, ◌++◌, OnOk, string_bytes, option_map};
ghost use Rattle.std.specs.Option.{option_copied};
ghost use Rattle.asl_trace_lines.specs.Seen.{error_in};
ghost use Rattle.asl_trace_lines.specs.Outcome.{error_text, left_text, forked_text, outcome_text, onward, handled_text, retry_text, goes_text};
ghost use Rattle.asl_trace_lines.specs.Views.{seen_in};

use crate::columns::put_since;
use crate::handling::{put_decided, put_failed};
use crate::happening::Happening;
use asl_json::Txt;
use asl_json_diff::put_name;
use asl_step::{ErrorOut, Record};
use std::alloc::{AllocError, Global};

/// The error that the state raised: that with which the branch failed, or the one that was handled.
pub(crate) fn error_in<'a>(step: &Happening<'a>) -> Option<&'a ErrorOut>
    ensures { option_copied result ≡ error_in (seen_in step.now).raised (seen_in step.now).after }
{
    match step.after {
        Record::Failed(error) => Some(error),
        _ => step.raised,
    }
}

fn put_error(alloc: Global, out: &mut String, name: Option<&Txt>) -> Result<(), AllocError>
    ensures { OnOk result (string_bytes out.new
        ≡ string_bytes out.old ++ error_text (option_map (λ t. t.now) name.entry)) }
{
    let Some(name) = name else {
        return out.push_str("failed");
    };
    out.push_str("failed ")?;
    put_name(alloc, out, name.as_str())
}

fn put_left(out: &mut String, step: &Happening) -> Result<(), AllocError>
    ensures { OnOk result (string_bytes out.new
        ≡ string_bytes out.old ++ left_text (seen_in step.now)) }
{
    match (step.kind, step.rule) {
        ("Task", _) => out.push_str("returned"),
        ("Choice", Some(rule)) => write!(out, "rule {rule}"),
        ("Choice", None) => out.push_str("default"),
        ("Parallel", _) | ("Map", _) => out.push_str("joined"),
        ("Wait", _) => out.push_str("waited"),
        ("Succeed", _) => out.push_str("succeeded"),
        _ => out.push_str("passed"),
    }
}

fn put_forked(out: &mut String, step: &Happening) -> Result<(), AllocError>
    ensures { OnOk result (string_bytes out.new
        ≡ string_bytes out.old ++ forked_text (seen_in step.now)) }
{
    let what = if step.kind == "Map" {
        " iterations"
    } else {
        " branches"
    };
    write!(out, "{}{what}", step.branches)
}

/// Appends what became of the state.
pub(crate) fn put_outcome(
    alloc: Global,
    out: &mut String,
    step: &Happening,
) -> Result<(), AllocError>
    ensures { OnOk result (string_bytes out.new
        ≡ string_bytes out.old ++ outcome_text (seen_in step.now)) }
{
    if let Some(error) = error_in(step) {
        return put_error(alloc, out, error.error.as_ref());
    }
    match step.after {
        Record::New { .. } | Record::Ready { .. } | Record::Done(_) => put_left(out, step),
        Record::Pausing { .. } => out.push_str("waits"),
        Record::Again { .. } | Record::Failed(_) => out.push_str("failed"),
        Record::Forked { .. } => put_forked(out, step),
    }
}

/// Appends where a branch goes on that has left its state, and what decided on an error.
fn put_onward(
    alloc: Global,
    out: &mut String,
    step: &Happening,
    next: &str,
) -> Result<(), AllocError>
    ensures { OnOk result (string_bytes out.new ≡ string_bytes out.old
        ++ handled_text (seen_in step.now) (seen_in step.now).raised (onward next.now)) }
{
    if let Some(error) = step.raised {
        put_decided(out, step, error)?;
        out.push(' ')?;
    }
    out.push_str("-> ")?;
    put_name(alloc, out, next)
}

fn put_retry(out: &mut String, step: &Happening) -> Result<(), AllocError>
    ensures { OnOk result (string_bytes out.new ≡ string_bytes out.old
        ++ retry_text (seen_in step.now) (seen_in step.now).raised) }
{
    match step.raised {
        Some(error) => put_decided(out, step, error),
        None => Ok(()),
    }
}

/// Appends where the branch goes on.
pub(crate) fn put_goes(alloc: Global, out: &mut String, step: &Happening) -> Result<(), AllocError>
    ensures { OnOk result (string_bytes out.new
        ≡ string_bytes out.old ++ goes_text (seen_in step.now)) }
{
    match step.after {
        Record::New { state, .. } | Record::Ready { state, .. } => put_onward(
            alloc,
            out,
            step,
            state.as_str(),
        ),
        Record::Pausing { until, .. } => {
            out.push_str("until ")?;
            put_since(out, step.start, *until)
        }
        Record::Again { .. } => put_retry(out, step),
        Record::Forked { .. } => Ok(()),
        Record::Done(_) => out.push_str("end"),
        Record::Failed(error) => put_failed(out, step, error),
    }
}

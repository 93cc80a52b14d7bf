// What is told of a test that isn't `ok`.
use crate::case_report::CaseReport;
use crate::reason::Reason;
use asl_exec::Invocation;
use asl_json::Json;
use asl_json_write::{put, put_quoted};
use asl_run_state::Outcome;
use asl_step::error_output;
use asl_suite_file::{Difference, Expectation, StateCount, Steps, Wanted, WantedText};
use std::alloc::{AllocError, Global};

/// The longest text of a value that is shown whole, in bytes.
const SHOWN: usize = 160;

/// Appends why a test isn't `ok`. The error is that memory ran out.
pub(crate) fn put_difference(
    alloc: Global,
    out: &mut String,
    test: &Expectation,
    report: &CaseReport,
    reason: &Reason,
) -> Result<(), AllocError> {
    match reason {
        Reason::NoCase(_) => put_no_case(out, report),
        Reason::Limit => put_limit(out, &test.steps),
        Reason::Status {
            wanted,
            outcome,
            unanswered,
        } => {
            put_status(alloc, out, report, *wanted, outcome)?;
            put_unanswered(out, unanswered)
        }
        Reason::Output(difference) | Reason::Match(difference) => {
            put_output(alloc, out, difference)
        }
        Reason::Error { wanted, outcome } | Reason::Cause { wanted, outcome } => {
            put_error(alloc, out, wanted, outcome)
        }
        Reason::Visits { wanted, entered } => put_counts(out, wanted, *entered),
        Reason::Invocations { wanted, invoked } => put_counts(out, wanted, *invoked),
        Reason::Calls { state, difference } => {
            put_quoted(out, state.as_str())?;
            out.push(' ')?;
            put_output(alloc, out, difference)
        }
        Reason::Passed => Ok(()),
    }
}

/// Appends that an execution isn't over, which took these steps, or those that come next.
fn put_limit(out: &mut String, steps: &Option<Steps>) -> Result<(), AllocError> {
    match steps {
        Some(_) => out.push_str("the execution isn't over after the steps of the test"),
        None => out.push_str("the execution isn't over after 10000 steps, or its history is full"),
    }
}

fn put_no_case(out: &mut String, report: &CaseReport) -> Result<(), AllocError> {
    out.push_str("the mock file has no case ")?;
    put_quoted(out, report.case.as_str())?;
    out.push_str(" of the machine ")?;
    put_quoted(out, report.machine.as_str())
}

fn wanted_word(wanted: Wanted) -> &'static str {
    match wanted {
        Wanted::Succeeded => "SUCCEEDED",
        Wanted::Failed => "FAILED",
        Wanted::TimedOut => "TIMED_OUT",
    }
}

fn put_status(
    alloc: Global,
    out: &mut String,
    report: &CaseReport,
    wanted: Wanted,
    outcome: &Outcome,
) -> Result<(), AllocError> {
    out.push_str("wanted ")?;
    out.push_str(wanted_word(wanted))?;
    out.push_str(", came ")?;
    out.push_str(report.status.word())?;
    match outcome {
        Outcome::Succeeded(output) => put_behind(alloc, out, output.get()),
        Outcome::Failed(error) => put_behind(alloc, out, &error_output(alloc, error)?),
        _ => Ok(()),
    }
}

/// Appends a space and a value.
fn put_behind(alloc: Global, out: &mut String, value: &Json) -> Result<(), AllocError> {
    out.push(' ')?;
    put_short(alloc, out, value)
}

/// Appends the invocation of a Task for which there was no answer, if there is one.
fn put_unanswered(out: &mut String, unanswered: &Option<Invocation>) -> Result<(), AllocError> {
    let Some(invocation) = unanswered else {
        return Ok(());
    };
    out.push_str("; no answer ")?;
    write!(out, "{}", invocation.number)?;
    out.push_str(" of the Task ")?;
    put_quoted(out, invocation.state.as_str())
}

fn put_output(alloc: Global, out: &mut String, difference: &Difference) -> Result<(), AllocError> {
    let place = difference.place.as_str();
    if !place.is_empty() {
        out.push_str("at ")?;
        out.push_str(place)?;
        out.push(' ')?;
    }
    out.push_str("wanted ")?;
    put_maybe(alloc, out, &difference.wanted)?;
    out.push_str(", came ")?;
    put_maybe(alloc, out, &difference.came)
}

fn put_maybe(alloc: Global, out: &mut String, value: &Option<Json>) -> Result<(), AllocError> {
    match value {
        Some(value) => put_short(alloc, out, value),
        None => out.push_str("nothing"),
    }
}

/// Appends a name or a cause that was wanted, and the error output that came.
fn put_error(
    alloc: Global,
    out: &mut String,
    wanted: &WantedText,
    outcome: &Outcome,
) -> Result<(), AllocError> {
    out.push_str("wanted ")?;
    match wanted {
        WantedText::Text(text) => put_quoted(out, text.as_str())?,
        _ => out.push_str("nothing")?,
    }
    out.push_str(", came ")?;
    match outcome {
        Outcome::Failed(error) => put_short(alloc, out, &error_output(alloc, error)?),
        Outcome::TimedOut => out.push_str("{\"Error\":\"States.Timeout\"}"),
        _ => out.push_str("no error"),
    }
}

fn put_counts(out: &mut String, wanted: &StateCount, came: u64) -> Result<(), AllocError> {
    put_quoted(out, wanted.state.as_str())?;
    write!(out, " wanted {}, came {came}", wanted.count)
}

/// Appends a value; of a long text the beginning.
fn put_short(alloc: Global, out: &mut String, value: &Json) -> Result<(), AllocError> {
    let mut text = String::new(alloc);
    put(&mut text, value)?;
    if text.len() <= SHOWN {
        return out.push_str(text.as_str());
    }
    for (at, character) in text.char_indices() {
        if at >= SHOWN {
            break;
        }
        out.push(character)?;
    }
    out.push_str("..")
}

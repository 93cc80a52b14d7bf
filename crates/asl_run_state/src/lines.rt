// The lines that tell of a run.
ghost use Rattle.std.specs.Prelude.{◌≡◌, ◌∷◌, ◌++◌, [], OnOk, OnErr, string_bytes};
ghost use Rattle.asl_json_write.specs.Buffers.{Keeps};
ghost use Rattle.asl_json.specs.View.{data_of};
ghost use Rattle.asl_json_data.specs.Compact.{compact};
ghost use Rattle.asl_time.specs.StampText.{stamp_of};
ghost use Rattle.asl_history.specs.Lines.{history_text};
ghost use Rattle.asl_run_state.specs.Lines.{refusal_words, awaited, refusal_text, reply_text, step_line, status_text, status_line, end_text, is_success};
ghost use Rattle.asl_step.specs.Rows.{error_output};

use crate::outcome::Outcome;
use crate::refusal::Refusal;
use crate::time_limit::timeout_error;
use crate::world::World;
use asl_history::{History, Place, put_line};
use asl_json::Json;
use asl_json_write::{put, whole_or_none};
use asl_step::{ErrorOut, error_output};
use asl_time::{Moment, put_stamp};
use std::alloc::{AllocError, Global};
use std::error::Error;
use std::fmt;

impl Refusal {
    /// The number and the name of the refusal.
    fn words(&self) -> &'static str
        ensures { result.now ≡ refusal_words self.now }
    {
        match self {
            Refusal::Over => "S1 Over",
            Refusal::NoSuchPlace => "S2 NoSuchPlace",
            Refusal::Stopped => "S3 Stopped",
            Refusal::Finished => "S4 Finished",
            Refusal::Busy => "S5 Busy",
            Refusal::Slots => "S6 Slots",
            Refusal::NotYet(_) => "S7 NotYet",
            Refusal::HistoryFull => "S8 HistoryFull",
            Refusal::OutOfMemory => "S9 OutOfMemory",
        }
    }

    /// The moment that the branch waits for.
    fn awaited(&self) -> Option<Moment>
        ensures { result ≡ awaited self.now }
    {
        match self {
            Refusal::NotYet(until) => Some(*until),
            _ => None,
        }
    }
}

/// As `S7 NotYet 2024-01-01T00:00:10.000Z`.
impl fmt::Display for Refusal {
    ghost use Rattle.std.specs.Prelude.{Some};
    ghost use Rattle.asl_run_state.specs.Lines.{refusal_text};

    ghost output = { λ refusal. Some (refusal_text refusal) };

    fn fmt<W: fmt::Write>(&self, f: &mut fmt::Formatter<W>) -> fmt::Result {
        let words = self.words();
        match self.awaited() {
            None => f.write_str(words),
            Some(until) => write!(f, "{words} {until}"),
        }
    }
}

impl Error for Refusal {}

/// Appends a space and the stamp of a moment. Where memory runs out, the space may be there.
fn put_until(out: &mut String, moment: Moment) -> Result<(), AllocError>
    ensures ok { OnOk result (string_bytes out.new ≡ string_bytes out.old ++ 32 ∷ stamp_of moment) }
    ensures kept { Keeps (string_bytes out.old) (string_bytes out.new) }
{
    out.push(' ')?;
    put_stamp(out, moment)
}

/// Appends why a step was refused. Where memory runs out, a part of it may be there.
fn put_refusal(out: &mut String, refusal: Refusal) -> Result<(), AllocError>
    ensures ok { OnOk result (string_bytes out.new
        ≡ string_bytes out.old ++ refusal_text refusal) }
    ensures kept { Keeps (string_bytes out.old) (string_bytes out.new) }
{
    out.push_str(refusal.words())?;
    match refusal.awaited() {
        None => Ok(()),
        Some(until) => put_until(out, until),
    }
}

/// Appends `ok`, or why a step was refused. Where memory runs out, a part of it may be there.
pub fn put_reply(out: &mut String, reply: Option<Refusal>) -> Result<(), AllocError>
    ensures ok { OnOk result (string_bytes out.new ≡ string_bytes out.old ++ reply_text reply) }
    ensures kept { Keeps (string_bytes out.old) (string_bytes out.new) }
{
    match reply {
        None => out.push_str("ok"),
        Some(refusal) => put_refusal(out, refusal),
    }
}

/// Appends the line of a step: `step`, the place, and `ok` or why it was refused. The error is that memory ran out, and then
/// nothing is appended.
pub fn put_step(out: &mut String, place: &Place, reply: Option<Refusal>) -> Result<(), AllocError>
    ensures ok { OnOk result (string_bytes out.new
        ≡ string_bytes out.old ++ step_line place.now reply) }
    ensures err { OnErr result (string_bytes out.new ≡ string_bytes out.old) }
{
    let len = out.as_str().len();
    let appended = put_step_parts(out, place, reply);
    whole_or_none(out, len, appended)
}

/// Appends the line of a step. Where memory runs out, a part of it may be there.
fn put_step_parts(out: &mut String, place: &Place, reply: Option<Refusal>) -> Result<(), AllocError>
    ensures ok { OnOk result (string_bytes out.new
        ≡ string_bytes out.old ++ step_line place.now reply) }
    ensures kept { Keeps (string_bytes out.old) (string_bytes out.new) }
{
    out.push_str("step ")?;
    place.put(out)?;
    out.push(' ')?;
    put_reply(out, reply)?;
    out.push('\n')
}

/// Appends the lines of a history. Where memory runs out, some of them may be there.
fn put_history(out: &mut String, history: &History) -> Result<(), AllocError>
    ensures ok { OnOk result (string_bytes out.new
        ≡ string_bytes out.old ++ history_text history.now.events) }
    ensures kept { Keeps (string_bytes out.old) (string_bytes out.new) }
{
    for event in history.events() {
        put_line(out, event)?;
    }
    Ok(())
}

/// Appends a status and the data that it has. Where memory runs out, the status may be there.
fn put_data(out: &mut String, status: &str, value: &Json) -> Result<(), AllocError>
    ensures ok { OnOk result (string_bytes out.new
        ≡ string_bytes out.old ++ (status.now ++ compact (data_of value.now))) }
    ensures kept { Keeps (string_bytes out.old) (string_bytes out.new) }
{
    out.push_str(status)?;
    put(out, value)
}

/// Appends a status and the error output. Where memory runs out, the status may be there.
fn put_failure(
    alloc: Global,
    out: &mut String,
    status: &str,
    error: &ErrorOut,
) -> Result<(), AllocError>
    ensures ok { OnOk result (string_bytes out.new
        ≡ string_bytes out.old ++ (status.now ++ compact (data_of (error_output error.now)))) }
    ensures kept { Keeps (string_bytes out.old) (string_bytes out.new) }
{
    let output = error_output(alloc, error)?;
    put_data(out, status, &output)
}

/// Appends the status, and the output or the error output. Where memory runs out, a part of it may be there.
fn put_outcome(alloc: Global, out: &mut String, outcome: &Outcome) -> Result<(), AllocError>
    ensures ok { OnOk result (string_bytes out.new
        ≡ string_bytes out.old ++ status_text outcome.now) }
    ensures kept { Keeps (string_bytes out.old) (string_bytes out.new) }
{
    match outcome {
        Outcome::Running => out.push_str("status RUNNING"),
        Outcome::Succeeded(output) => put_data(out, "status SUCCEEDED ", output),
        Outcome::Failed(error) => put_failure(alloc, out, "status FAILED ", error),
        Outcome::TimedOut => {
            let error = timeout_error(alloc)?;
            put_failure(alloc, out, "status TIMED_OUT ", &error)
        }
    }
}

/// Appends the line of the outcome. Where memory runs out, a part of it may be there.
fn put_status(alloc: Global, out: &mut String, outcome: &Outcome) -> Result<(), AllocError>
    ensures ok { OnOk result (string_bytes out.new
        ≡ string_bytes out.old ++ status_line outcome.now) }
    ensures kept { Keeps (string_bytes out.old) (string_bytes out.new) }
{
    put_outcome(alloc, out, outcome)?;
    out.push('\n')
}

/// Whether an execution has succeeded.
pub fn is_success(outcome: &Outcome) -> bool
    ensures { result ≡ is_success outcome.now }
{
    matches!(outcome, Outcome::Succeeded(_))
}

/// Appends the history and the status. The error is that memory ran out, and then nothing is appended.
pub fn put_end(alloc: Global, out: &mut String, world: &World) -> Result<(), AllocError>
    ensures ok { OnOk result (string_bytes out.new ≡ string_bytes out.old ++ end_text world.now) }
    ensures err { OnErr result (string_bytes out.new ≡ string_bytes out.old) }
{
    let len = out.as_str().len();
    let ended = put_end_parts(alloc, out, world);
    whole_or_none(out, len, ended)
}

/// Appends the history and the status. Where memory runs out, a part of it may be there.
fn put_end_parts(alloc: Global, out: &mut String, world: &World) -> Result<(), AllocError>
    ensures ok { OnOk result (string_bytes out.new ≡ string_bytes out.old ++ end_text world.now) }
    ensures kept { Keeps (string_bytes out.old) (string_bytes out.new) }
{
    put_history(out, world.history())?;
    put_status(alloc, out, world.outcome())
}

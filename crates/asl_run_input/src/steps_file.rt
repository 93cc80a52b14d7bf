// Files of steps.
ghost use Rattle.std.specs.Prelude.{◌≡◌, ◌<◌, ◌∷◌, ◌++◌, List, ℕ, length, IfOk, IfErr, IfSome, MatchResult, OnOk, string_bytes};
ghost use Rattle.asl_run_input.specs.declared.step_at.StepAt.{StepAt};
ghost use Rattle.asl_run_input.specs.declared.steps_file.StepsFault.TheVariants.{OutOfMemory};
ghost use Rattle.asl_run_input.specs.FileLines.{lines_in};
ghost use Rattle.asl_run_input.specs.StepsFile.{IsStepLine, IsStepsFile, IsStepsFault, step_line, steps_file};

use crate::step_at::StepAt;
use asl_history::Place;
use asl_time::{put_stamp, read_stamp};
use std::alloc::{AllocError, AllocFailed, Global};
use std::error::Error;
use std::{fmt, str};

/// Why a file is no list of steps.
#[derive(Debug, Drop)]
pub enum StepsFault {
    /// E1 StepLine: the number, from 1, of the first line that is no step.
    Line(usize),
    /// Memory ran out.
    OutOfMemory,
}

impl fmt::Display for StepsFault {
    ghost use Rattle.std.specs.Prelude.{Some};
    ghost use Rattle.asl_run_input.specs.StepsFile.{steps_refusal};

    ghost output = { λ e. Some (steps_refusal e) };

    fn fmt<W: fmt::Write>(&self, f: &mut fmt::Formatter<W>) -> fmt::Result {
        match self {
            StepsFault::Line(number) => write!(f, "E1 StepLine {number}"),
            StepsFault::OutOfMemory => f.write_str("OutOfMemory"),
        }
    }
}

impl Error for StepsFault {}

impl From<AllocError> for StepsFault {
    ghost use Rattle.std.specs.Prelude.{◌≡◌};
    ghost use Rattle.asl_run_input.specs.declared.steps_file.StepsFault.TheVariants.{OutOfMemory};

    ghost from_gives = { λ _ e. e ≡ OutOfMemory };

    fn from(_: AllocError) -> StepsFault {
        StepsFault::OutOfMemory
    }
}

impl From<AllocFailed<StepAt>> for StepsFault {
    ghost use Rattle.std.specs.Prelude.{◌≡◌};
    ghost use Rattle.asl_run_input.specs.declared.steps_file.StepsFault.TheVariants.{OutOfMemory};

    ghost from_gives = { λ _ e. e ≡ OutOfMemory };

    fn from(_: AllocFailed<StepAt>) -> StepsFault {
        StepsFault::OutOfMemory
    }
}

/// The first line, without its line feed, and what follows it.
pub fn split_line(bytes: &[u8]) -> (&[u8], &[u8])
    requires { 0 < length bytes.now }
    ensures lines { lines_in bytes.now ≡ result.0.now ∷ lines_in result.1.now }
    ensures shorter { length result.1.now < length bytes.now }
{
    match bytes.iter().position(|byte| *byte == b'\n') {
        Some(end) => (&bytes[..end], &bytes[end + 1..]),
        None => (bytes, &[]),
    }
}

/// The step that a line spells, and `None` for every other line. The error is that memory ran out.
pub fn read_step(alloc: Global, line: &[u8]) -> Result<Option<StepAt>, AllocError>
    ensures found { IfOk result (λ o. IfSome o (IsStepLine line.now)) }
    ensures only { IfOk result (λ o. (s : StepAt) → IsStepLine line.now s → o ≡ Some s) }
{
    let Ok(text) = str::from_utf8(line) else {
        return Ok(None);
    };
    let Some((place, stamp)) = text.split_once(' ') else {
        return Ok(None);
    };
    let Some(moment) = read_stamp(stamp) else {
        return Ok(None);
    };
    let Some(place) = Place::read(alloc, place)? else {
        return Ok(None);
    };
    // That each number is below 10^9.
    let _bound = place.numbers();
    Ok(Some(StepAt { place, moment }))
}

/// The steps of a file, whose lines are each a place, one space and a timestamp. A line ends before a line feed; the last
/// one may go without. A file of no bytes has no lines. Takes time linear in the file.
///
/// # Errors
///
/// The number of the first line that is no step, or that memory ran out.
pub fn read_steps(alloc: Global, bytes: &[u8]) -> Result<Vec<StepAt>, StepsFault>
    ensures found { IfOk result (λ steps. IsStepsFile bytes.now steps.items) }
    // A file of these steps is read as these steps.
    ensures only { (ss : List StepAt) → IsStepsFile bytes.now ss
        → MatchResult result (λ steps. steps.items ≡ ss) (λ e. e ≡ OutOfMemory) }
    ensures fault { IfErr result (IsStepsFault bytes.now) }
{
    let mut steps = Vec::new(alloc);
    let mut rest = bytes;
    while !rest.is_empty() {
        let (line, behind) = split_line(rest);
        let Some(step) = read_step(alloc, line)? else {
            return Err(StepsFault::Line(steps.len() + 1));
        };
        steps.push(step)?;
        rest = behind;
    }
    Ok(steps)
}

fn put_step(out: &mut String, step: &StepAt) -> Result<(), AllocError>
    ensures { OnOk result (string_bytes out.new ≡ string_bytes out.old ++ step_line step.now) }
{
    step.place.put(out)?;
    out.push(' ')?;
    put_stamp(out, step.moment)?;
    out.push('\n')
}

/// Appends these steps as a file: a line for each, its place and its moment. The error is that memory ran out.
pub fn put_steps(out: &mut String, steps: &[StepAt]) -> Result<(), AllocError>
    ensures { OnOk result (string_bytes out.new ≡ string_bytes out.old ++ steps_file steps.now) }
{
    for step in steps {
        put_step(out, step)?;
    }
    Ok(())
}

/// A file spells at most one list of steps. A law: calling it does nothing.
pub fn files_spell_one_list_of_steps()
    ensures { (bytes : List ℕ) (ss us : List StepAt) → IsStepsFile bytes ss → IsStepsFile bytes us
        → ss ≡ us }
{}

// Which answers the outcomes of a search lack.
ghost use Rattle.std.specs.Prelude.{◌≡◌, ◌++◌, IfOk, OnOk, map, string_bytes};
ghost use Rattle.asl_def_schema.specs.Members.{is_among};
ghost use Rattle.asl_exec.specs.Steps.{opening, world_after};
ghost use Rattle.asl_exec.specs.Views.{setup_of, world_of};
ghost use Rattle.asl_run_notes.specs.Notes.{note_in, note_of_found, notes_text, search_notes, with_line};

use crate::line::note_in;
use asl_exec::Execution;
use asl_explore::Found;
use asl_run_input::{Setup, StepAt};
use asl_run_state::Outcome;
use std::alloc::{AllocError, Global};

/// Takes these steps from the beginning.
fn replay(execution: &mut Execution, steps: &[StepAt]) -> Result<(), AllocError>
    ensures world { OnOk result (world_of execution.new
        ≡ world_after (setup_of execution.old) (opening (setup_of execution.old)) steps.now) }
    ensures setup { setup_of execution.new ≡ setup_of execution.old }
{
    execution.restart()?;
    execution.take_all(steps)
}

/// The line for an outcome that was found.
fn note_of_found(
    alloc: Global,
    chosen: &str,
    execution: &mut Execution,
    found: &Found,
) -> Result<String, AllocError>
    ensures note { IfOk result (λ t. string_bytes t
        ≡ note_of_found chosen.now (setup_of execution.old) found.now) }
    ensures setup { setup_of execution.new ≡ setup_of execution.old }
{
    match &found.outcome {
        Outcome::Failed(_) => {
            replay(execution, &found.steps)?;
            note_in(alloc, chosen, execution)
        }
        _ => Ok(String::new(alloc)),
    }
}

fn is_among(line: &str, lines: &[String]) -> bool
    ensures { result ≡ is_among line.now (map string_bytes lines.now) }
{
    for other in lines {
        if line == other.as_str() {
            return true;
        }
    }
    false
}

/// Adds a line, if it is there and isn't among the others.
fn add(lines: &mut Vec<String>, line: String) -> Result<(), AllocError>
    ensures { OnOk result (map string_bytes lines.new.items
        ≡ with_line (map string_bytes lines.old.items) (string_bytes line)) }
{
    if line.is_empty() || is_among(line.as_str(), lines) {
        return Ok(());
    }
    lines.push(line)?;
    Ok(())
}

/// The lines for outcomes that were found, each once.
fn lines_of(
    alloc: Global,
    chosen: &str,
    execution: &mut Execution,
    found: &[Found],
) -> Result<Vec<String>, AllocError>
    ensures { IfOk result (λ ls. map string_bytes ls.items
        ≡ search_notes chosen.now (setup_of execution.old) found.now) }
{
    let mut lines = Vec::new(alloc);
    for found in found {
        let line = note_of_found(alloc, chosen, execution, found)?;
        add(&mut lines, line)?;
    }
    Ok(lines)
}

fn joined(alloc: Global, lines: &[String]) -> Result<String, AllocError>
    ensures { IfOk result (λ t. string_bytes t ≡ notes_text (map string_bytes lines.now)) }
{
    let mut text = String::new(alloc);
    for line in lines {
        text.push_str(line.as_str())?;
    }
    Ok(text)
}

/// A line for each answer that lacks in an outcome that was found, each once, in the order of the outcomes; the case was chosen by these words. The
/// steps of each outcome that is a failure are taken once more. The error is that memory ran out.
pub fn notes_of_search(
    alloc: Global,
    chosen: &str,
    setup: Setup,
    found: &[Found],
) -> Result<String, AllocError>
    ensures { IfOk result (λ t. string_bytes t
        ≡ notes_text (search_notes chosen.now setup found.now)) }
{
    let mut execution = Execution::open(alloc, setup)?;
    let lines = lines_of(alloc, chosen, &mut execution, found)?;
    joined(alloc, &lines)
}

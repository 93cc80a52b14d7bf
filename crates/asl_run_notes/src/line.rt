// A line that tells which answer was lacking.
ghost use Rattle.std.specs.Prelude.{◌≡◌, ◌++◌, IfOk, OnOk, string_bytes};
ghost use Rattle.std.specs.Fmt.{decimal};
ghost use Rattle.asl_run_input.specs.Chosen.{case_name};
ghost use Rattle.asl_exec.specs.Views.{setup_of, world_of};
ghost use Rattle.asl_run_notes.specs.Notes.{answer_words, case_words, note_in, note_line, note_text, note_words};

use asl_exec::{Execution, Invocation};
use asl_json_write::put_quoted;
use asl_text::{put_decimal, put_shown};
use std::alloc::{AllocError, Global};

/// The name of the case that is chosen.
pub fn case_name(chosen: &str) -> &str
    ensures { result.now ≡ case_name chosen.now }
{
    match chosen.split_once('#') {
        Some((_, case)) => case,
        None => "",
    }
}

fn put_case(out: &mut String, case: &str) -> Result<(), AllocError>
    ensures { OnOk result (string_bytes out.new ≡ string_bytes out.old ++ case_words case.now) }
{
    if case.is_empty() {
        return out.push_str("no case is chosen, so there is");
    }
    out.push_str("case ")?;
    put_quoted(out, case)?;
    out.push_str(" has")
}

fn put_answer(out: &mut String, invocation: &Invocation) -> Result<(), AllocError>
    ensures { OnOk result (string_bytes out.new
        ≡ string_bytes out.old ++ answer_words invocation.now) }
{
    out.push_str(" no answer ")?;
    put_decimal(out, invocation.number)?;
    out.push_str(" of the Task ")?;
    put_quoted(out, invocation.state.as_str())
}

fn put_words(out: &mut String, chosen: &str, invocation: &Invocation) -> Result<(), AllocError>
    ensures { OnOk result (string_bytes out.new
        ≡ string_bytes out.old ++ note_words chosen.now invocation.now) }
{
    put_case(out, case_name(chosen))?;
    put_answer(out, invocation)
}

/// The line for an invocation. The error is that memory ran out.
fn line_of(alloc: Global, chosen: &str, invocation: &Invocation) -> Result<String, AllocError>
    ensures { IfOk result (λ t. string_bytes t ≡ note_line chosen.now invocation.now) }
{
    let mut words = String::new(alloc);
    put_words(&mut words, chosen, invocation)?;
    let mut line = String::from_str(alloc, "note: ")?;
    put_shown(&mut line, words.as_str())?;
    line.push('\n')?;
    Ok(line)
}

/// The line for the answer that a run lacks, of a case that was chosen by these words; empty where it lacks none. The error is that memory
/// ran out.
pub fn note_of(
    alloc: Global,
    chosen: &str,
    invocation: &Option<Invocation>,
) -> Result<String, AllocError>
    ensures { IfOk result (λ t. string_bytes t ≡ note_text chosen.now invocation.now) }
{
    match invocation {
        Some(invocation) => line_of(alloc, chosen, invocation),
        None => Ok(String::new(alloc)),
    }
}

/// The line for the answer that an execution lacks, of a case that was chosen by these words; empty where it lacks none. The error is that memory
/// ran out.
pub(crate) fn note_in(
    alloc: Global,
    chosen: &str,
    execution: &Execution,
) -> Result<String, AllocError>
    ensures { IfOk result (λ t. string_bytes t
        ≡ note_in chosen.now (setup_of execution.now) (world_of execution.now)) }
{
    let lacking = execution.lacking()?;
    note_of(alloc, chosen, &lacking)
}

// The lines of stages.
ghost use Rattle.std.specs.Prelude.{◌≡◌, ◌++◌, None, OnOk, string_bytes, option_map};
ghost use Rattle.std.specs.Result.{result_ok};
ghost use Rattle.asl_json.specs.declared.value.Json.{Json as Value};
ghost use Rattle.asl_trace_data.specs.Lines.{whole, given_text, stage_line, is_same, changed_line, stages_text};

use crate::stage::Stage;
use asl_json::Json;
use asl_json_shared::Shared;
use asl_json_write::put;
use asl_step::{ErrorOut, error_output};
use asl_text::put_shown;
use asl_trace_lines::put_padded;
use std::alloc::{AllocError, Global};

/// Appends a whole value on one line, as a JSON text of which every character shows. The error is that memory ran out, here and below.
pub fn put_whole(alloc: Global, out: &mut String, value: &Json) -> Result<(), AllocError>
    ensures { OnOk result (string_bytes out.new ≡ string_bytes out.old ++ whole value.now) }
{
    let mut text = String::new(alloc);
    put(&mut text, value)?;
    put_shown(out, text.as_str())
}

fn put_given(
    alloc: Global,
    out: &mut String,
    given: &Result<Shared, ErrorOut>,
) -> Result<(), AllocError>
    ensures { OnOk result (string_bytes out.new ≡ string_bytes out.old ++ given_text given.now) }
{
    match given {
        Ok(value) => put_whole(alloc, out, value),
        Err(error) => {
            out.push_str("error ")?;
            let output = error_output(alloc, error)?;
            put_whole(alloc, out, &output)
        }
    }
}

fn put_line(alloc: Global, out: &mut String, lead: &str, stage: &Stage) -> Result<(), AllocError>
    ensures { OnOk result (string_bytes out.new
        ≡ string_bytes out.old ++ stage_line lead.now stage.now) }
{
    out.push_str(lead)?;
    put_padded(out, 14, stage.part.name())?;
    out.push(' ')?;
    put_given(alloc, out, &stage.given)?;
    out.push('\n')
}

/// Whether a stage gives what the one before it gave.
fn is_same(before: Option<&Shared>, given: &Result<Shared, ErrorOut>) -> bool
    ensures { result ≡ is_same (option_map (λ x. x.now) before.entry) given.now }
{
    match (before, given) {
        (Some(before), Ok(value)) => *before == *value,
        _ => false,
    }
}

/// Appends the line of a stage that changes something.
fn put_changed(
    alloc: Global,
    out: &mut String,
    lead: &str,
    before: Option<&Shared>,
    stage: &Stage,
) -> Result<(), AllocError>
    ensures { OnOk result (string_bytes out.new ≡ string_bytes out.old
        ++ changed_line lead.now (option_map (λ x. x.now) before.entry) stage.now) }
{
    if is_same(before, &stage.given) {
        return Ok(());
    }
    put_line(alloc, out, lead, stage)
}

/// The value of a stage, where it is no error.
fn value_of(stage: &Stage) -> Option<&Shared>
    ensures { option_map (λ x. x.now) result ≡ result_ok stage.now.given }
{
    match &stage.given {
        Ok(value) => Some(value),
        Err(_) => None,
    }
}

/// Appends a line for each stage that changes something, each behind this lead.
pub fn put_stages(
    alloc: Global,
    out: &mut String,
    lead: &str,
    stages: &[Stage],
) -> Result<(), AllocError>
    ensures { OnOk result (string_bytes out.new
        ≡ string_bytes out.old ++ stages_text lead.now None stages.now) }
{
    let mut before = None;
    for stage in stages {
        put_changed(alloc, out, lead, before, stage)?;
        before = value_of(stage);
    }
    Ok(())
}

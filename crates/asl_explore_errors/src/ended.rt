// The outcomes of a search as texts.
ghost use Rattle.std.specs.Prelude.{◌≡◌, ◌++◌, map, IfOk, OnOk, string_bytes};
ghost use Rattle.asl_json.specs.View.{data_of};
ghost use Rattle.asl_json_data.specs.Compact.{compact};
ghost use Rattle.asl_explore.specs.Reports.{ended_text};
ghost use Rattle.asl_explore_errors.specs.Searches.{text_of};

use asl_explore::Found;
use asl_json::Json;
use asl_json_write::put;
use asl_run_state::Outcome;
use asl_step::error_output;
use std::alloc::{AllocError, Global};

/// Appends a status and the value that it has.
fn put_value(out: &mut String, status: &str, value: &Json) -> Result<(), AllocError>
    ensures { OnOk result (string_bytes out.new
        ≡ string_bytes out.old ++ (status.now ++ compact (data_of value.now))) }
{
    out.push_str(status)?;
    put(out, value)
}

/// Appends a status with its output or error.
fn put_ended(alloc: Global, out: &mut String, outcome: &Outcome) -> Result<(), AllocError>
    ensures { OnOk result (string_bytes out.new ≡ string_bytes out.old ++ ended_text outcome.now) }
{
    match outcome {
        Outcome::Running => out.push_str("RUNNING"),
        Outcome::Succeeded(output) => put_value(out, "SUCCEEDED ", output),
        Outcome::Failed(error) => {
            let output = error_output(alloc, error)?;
            put_value(out, "FAILED ", &output)
        }
        Outcome::TimedOut => out.push_str("TIMED_OUT {\"Error\":\"States.Timeout\"}"),
    }
}

fn text_of(alloc: Global, found: &Found) -> Result<String, AllocError>
    ensures { IfOk result (λ t. string_bytes t ≡ text_of found.now) }
{
    let mut text = String::new(alloc);
    put_ended(alloc, &mut text, &found.outcome)?;
    Ok(text)
}

/// Each outcome as a status with its output or error. The error is that memory ran out.
pub(crate) fn texts_of(alloc: Global, found: &[Found]) -> Result<Vec<String>, AllocError>
    ensures { IfOk result (λ v. map string_bytes v.items ≡ map text_of found.now) }
{
    let mut texts = Vec::new(alloc);
    for one in found {
        texts.push(text_of(alloc, one)?)?;
    }
    Ok(texts)
}

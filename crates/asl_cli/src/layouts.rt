// How JSON is laid out: in one line, or for a person.
ghost use Rattle.std.specs.Prelude.{◌≡◌, ◌++◌, ◌∷◌, [], IfOk, string_bytes};
ghost use Rattle.asl_cli.specs.Layouts.{laid_out, IsLaidOut};
ghost use Rattle.asl_json_pretty.specs.Pretty.{pretty};
ghost use Rattle.asl_json.specs.View.{data_of};

use asl_def::Machine;
use asl_json::Json;
use asl_json_read::{JsonFault, read};
use std::alloc::{AllocError, Global};

/// A text with a line feed behind it.
fn with_line_feed(text: String) -> Result<String, AllocError>
    ensures { IfOk result (λ t. string_bytes t ≡ string_bytes text ++ 10 ∷ []) }
{
    let mut text = text;
    text.push('\n')?;
    Ok(text)
}

/// A value for a person, and a line feed.
fn pretty_of(alloc: Global, value: &Json) -> Result<String, AllocError>
    ensures { IfOk result (λ t. string_bytes t ≡ pretty (data_of value.now) ++ 10 ∷ []) }
{
    with_line_feed(asl_json_pretty::pretty(alloc, value)?)
}

/// A machine's canonical definition and a line feed, for a person or on a line.
pub(crate) fn form_of(
    alloc: Global,
    machine: &Machine,
    for_person: bool,
) -> Result<String, AllocError>
    ensures { IfOk result (λ t. string_bytes t ≡ laid_out for_person machine.now ++ 10 ∷ []) }
{
    if for_person {
        pretty_of(alloc, &machine.json(alloc)?)
    } else {
        with_line_feed(asl_def::print(alloc, machine)?)
    }
}

/// A text as it is, or laid out for a person, if it is a JSON text.
pub(crate) fn laid_out(alloc: Global, text: String, for_person: bool) -> Result<String, AllocError>
    ensures { IfOk result (λ t. IsLaidOut for_person (string_bytes text) (string_bytes t)) }
{
    if !for_person {
        return Ok(text);
    }
    match read(alloc, text.as_bytes()) {
        Ok(value) => pretty_of(alloc, &value),
        Err(JsonFault::OutOfMemory) => Err(AllocError),
        Err(_) => Ok(text),
    }
}

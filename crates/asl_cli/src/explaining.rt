// The command `explain`.
ghost use Rattle.std.specs.Prelude.{IfOk, IfErr, string_bytes};
ghost use Rattle.asl_host.specs.Outcomes.{sink_use};
ghost use Rattle.asl_cli.specs.Streams.{io};
ghost use Rattle.asl_cli.specs.Explaining.{IsExplained, IsExplanation, IsToldOf, IsUnexplained, IsUnknown};

use crate::command::{REFUSED, print_good};
use crate::fault::CommandFault;
use crate::mending::of_code;
use asl_explain::{find, list};
use asl_history::Sink;
use asl_words::ExplainWords;
use std::alloc::{AllocError, Global};

/// The command `explain`: prints what the code means that is named, with an example; or a line of each code, where none is named.
pub fn explain<O: Sink, E: Sink>(
    alloc: Global,
    words: &ExplainWords<'_>,
    quiet: bool,
    out: &mut O,
    err: &mut E,
) -> u8
    ensures { IsExplained (io (sink_use O.taken O.failures out.old out.new)
        (sink_use E.taken E.failures err.old err.new) result) quiet words.now }
{
    match explanation_for(alloc, words) {
        Ok(text) => print_good(text.as_str(), out),
        Err(refusal) => {
            refusal.write(alloc, quiet, err);
            REFUSED
        }
    }
}

/// What is told of the code that is named, or of all codes.
fn explanation_for<'a>(alloc: Global, words: &ExplainWords<'a>) -> Result<String, CommandFault<'a>>
    ensures told { IfOk result (λ t. IsExplanation words.now.code (string_bytes t)) }
    ensures refused { IfErr result (IsUnexplained words.now.code) }
{
    match words.code {
        Some(code) => explanation_of(alloc, code),
        None => match list(alloc) {
            Ok(text) => Ok(text),
            Err(AllocError) => Err(CommandFault::OutOfMemory),
        },
    }
}

/// What is told of a code.
fn explanation_of<'a>(alloc: Global, code: &'a str) -> Result<String, CommandFault<'a>>
    ensures told { IfOk result (λ t. IsToldOf code.entry.now (string_bytes t)) }
    ensures refused { IfErr result (IsUnknown code.entry.now) }
{
    match find(code) {
        Some(explanation) => match explanation.told(alloc) {
            Ok(text) => Ok(text),
            Err(AllocError) => Err(CommandFault::OutOfMemory),
        },
        None => match of_code(alloc, code) {
            Ok(lines) => Err(CommandFault::Code(code, lines)),
            Err(AllocError) => Err(CommandFault::OutOfMemory),
        },
    }
}

// The command `print`.
ghost use Rattle.std.specs.Prelude.{IfOk, IfErr, string_bytes};
ghost use Rattle.asl_host.specs.Outcomes.{sink_use};
ghost use Rattle.asl_cli.specs.Streams.{file_system, io};
ghost use Rattle.asl_cli.specs.Answers.{IsFormPrinted};
ghost use Rattle.asl_cli.specs.Faults.{IsForm, IsDefinitionReason};

use crate::checking::machine_in;
use crate::command::{REFUSED, print_good};
use crate::fault::CommandFault;
use crate::layouts::form_of;
use asl_history::Sink;
use asl_host::Files;
use asl_words::PrintWords;
use std::alloc::Global;

/// The command `print`: prints the canonical form of a definition without faults and a line feed, else tells the first fault.
pub fn print<F: Files, O: Sink, E: Sink>(
    alloc: Global,
    words: &PrintWords<'_>,
    quiet: bool,
    files: &mut F,
    out: &mut O,
    err: &mut E,
) -> u8
    ensures { IsFormPrinted (file_system (F.gives files.old) (F.lacks files.old))
        (io (sink_use O.taken O.failures out.old out.new)
        (sink_use E.taken E.failures err.old err.new) result) quiet words.now }
{
    match form_in(alloc, words, files) {
        Ok(text) => print_good(text.as_str(), out),
        Err(refusal) => {
            refusal.write(alloc, quiet, err);
            REFUSED
        }
    }
}

/// Reads the file, and writes the canonical form of the definition that it holds.
fn form_in<'a, F: Files>(
    alloc: Global,
    words: &PrintWords<'a>,
    files: &mut F,
) -> Result<String, CommandFault<'a>>
    ensures form { IfOk result (λ t. IsForm (F.gives files.old) words.now (string_bytes t)) }
    ensures refused { IfErr result
        (IsDefinitionReason (F.gives files.old) (F.lacks files.old) words.now.definition) }
{
    let machine = machine_in(alloc, &words.definition, files)?;
    match form_of(alloc, &machine, words.pretty) {
        Ok(text) => Ok(text),
        Err(_) => Err(CommandFault::OutOfMemory),
    }
}

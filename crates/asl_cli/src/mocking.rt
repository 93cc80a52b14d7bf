// The command `mocks`.
ghost use Rattle.std.specs.Prelude.{IfOk, IfErr, string_bytes};
ghost use Rattle.asl_mock_sample.specs.Files.{sample_text};
ghost use Rattle.asl_host.specs.Outcomes.{sink_use};
ghost use Rattle.asl_cli.specs.Streams.{file_system, io};
ghost use Rattle.asl_cli.specs.Layouts.{IsLaidOut};
ghost use Rattle.asl_cli.specs.Mocking.{IsSample, IsSampled};
ghost use Rattle.asl_cli.specs.Faults.{IsDefinitionReason};

use crate::checking::machine_in;
use crate::command::{REFUSED, print_good};
use crate::fault::CommandFault;
use crate::layouts::laid_out;
use asl_def::Machine;
use asl_history::Sink;
use asl_host::Files;
use asl_mock_sample::sample;
use asl_words::MocksWords;
use std::alloc::{AllocError, Global};

/// The command `mocks`: prints a mock file to begin with for a definition without faults, else tells the first fault.
pub fn mocks<F: Files, O: Sink, E: Sink>(
    alloc: Global,
    words: &MocksWords<'_>,
    quiet: bool,
    files: &mut F,
    out: &mut O,
    err: &mut E,
) -> u8
    ensures { IsSampled (file_system (F.gives files.old) (F.lacks files.old))
        (io (sink_use O.taken O.failures out.old out.new)
        (sink_use E.taken E.failures err.old err.new) result) quiet words.now }
{
    match sample_in(alloc, words, files) {
        Ok(text) => print_good(text.as_str(), out),
        Err(refusal) => {
            refusal.write(alloc, quiet, err);
            REFUSED
        }
    }
}

/// Reads the file, and writes a mock file for the definition that it holds.
fn sample_in<'a, F: Files>(
    alloc: Global,
    words: &MocksWords<'a>,
    files: &mut F,
) -> Result<String, CommandFault<'a>>
    ensures sample { IfOk result (λ t. IsSample (F.gives files.old) words.now (string_bytes t)) }
    ensures refused { IfErr result
        (IsDefinitionReason (F.gives files.old) (F.lacks files.old) words.now.definition) }
{
    let machine = machine_in(alloc, &words.definition, files)?;
    match sample_of(alloc, words.machine, &machine, words.pretty) {
        Ok(text) => Ok(text),
        Err(_) => Err(CommandFault::OutOfMemory),
    }
}

/// A mock file for a machine, which gets this name.
fn sample_of(
    alloc: Global,
    name: &str,
    machine: &Machine,
    for_person: bool,
) -> Result<String, AllocError>
    ensures { IfOk result (λ t.
        IsLaidOut for_person (sample_text name.now machine.now) (string_bytes t)) }
{
    let definition = machine.json(alloc)?;
    laid_out(alloc, sample(alloc, name, &definition)?, for_person)
}

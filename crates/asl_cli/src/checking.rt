// The command `check`, and how a command gets the machine of a definition's file.
ghost use Rattle.std.specs.Prelude.{IfOk, IfErr};
ghost use Rattle.asl_check.specs.Judged.{IsMachineOf};
ghost use Rattle.asl_host.specs.Outcomes.{sink_use};
ghost use Rattle.asl_cli.specs.Streams.{file_system, io};
ghost use Rattle.asl_cli.specs.Answers.{IsChecked};
ghost use Rattle.asl_cli.specs.Faults.{IsAccepted, IsDefinitionReason, IsDefinitionTextReason};

use crate::command::{REFUSED, print_good};
use crate::fault::CommandFault;
use crate::reading::read_file;
use asl_check::{Fault, accept};
use asl_def::Machine;
use asl_history::Sink;
use asl_host::Files;
use asl_lint_files::of_definition;
use asl_words::DefinitionWords;
use std::alloc::{AllocError, Global};

/// The command `check`: prints `ok` where a file is a definition without faults, else tells the first fault.
pub fn check<F: Files, O: Sink, E: Sink>(
    alloc: Global,
    words: &DefinitionWords<'_>,
    quiet: bool,
    files: &mut F,
    out: &mut O,
    err: &mut E,
) -> u8
    ensures { IsChecked (file_system (F.gives files.old) (F.lacks files.old))
        (io (sink_use O.taken O.failures out.old out.new)
        (sink_use E.taken E.failures err.old err.new) result) quiet words.now }
{
    match machine_in(alloc, words, files) {
        Ok(_) => print_good("ok\n", out),
        Err(refusal) => {
            refusal.write(alloc, quiet, err);
            REFUSED
        }
    }
}

/// Reads the file and accepts what it holds.
pub(crate) fn machine_in<'a, F: Files>(
    alloc: Global,
    words: &DefinitionWords<'a>,
    files: &mut F,
) -> Result<Machine, CommandFault<'a>>
    ensures accepted { IfOk result (IsAccepted (F.gives files.old) words.now) }
    ensures refused { IfErr result
        (IsDefinitionReason (F.gives files.old) (F.lacks files.old) words.now) }
{
    let text = read_file(alloc, files, words.definition)?;
    match machine_of(alloc, words.definition, text.as_slice()) {
        Ok(machine) => Ok(machine),
        Err(refusal) => Err(refusal),
    }
}

/// Accepts the text of a definition, which comes from a file of this name.
pub(crate) fn machine_of<'a>(
    alloc: Global,
    file: &str,
    text: &[u8],
) -> Result<Machine, CommandFault<'a>>
    ensures accepted { IfOk result (IsMachineOf text.now) }
    ensures refused { IfErr result (IsDefinitionTextReason text.now) }
{
    match accept(alloc, text) {
        Ok(machine) => Ok(machine),
        Err(Fault::OutOfMemory) => Err(CommandFault::OutOfMemory),
        Err(fault) => match of_definition(alloc, file, text) {
            Ok(lines) => Err(CommandFault::Definition(fault, lines)),
            Err(AllocError) => Err(CommandFault::OutOfMemory),
        },
    }
}

// The command `upgrade`.
ghost use Rattle.std.specs.Prelude.{◌≡◌, ◌++◌, ◌∷◌, [], IfOk, IfErr, string_bytes};
ghost use Rattle.asl_def.specs.Upgraded.{upgraded};
ghost use Rattle.asl_host.specs.Outcomes.{sink_use};
ghost use Rattle.asl_cli.specs.Streams.{file_system, io};
ghost use Rattle.asl_cli.specs.Layouts.{laid_out};
ghost use Rattle.asl_cli.specs.Answers.{IsUpgraded};
ghost use Rattle.asl_cli.specs.Faults.{IsNewerForm, IsDefinitionReason};

use crate::checking::machine_in;
use crate::command::{REFUSED, print_good};
use crate::fault::CommandFault;
use crate::layouts::form_of;
use asl_def::Machine;
use asl_history::Sink;
use asl_host::Files;
use asl_words::PrintWords;
use std::alloc::{AllocError, Global};

/// The command `upgrade`: prints a definition without faults as `print` does, in the newer spelling of Map states, else tells the first
/// fault.
pub fn upgrade<F: Files, O: Sink, E: Sink>(
    alloc: Global,
    words: &PrintWords<'_>,
    quiet: bool,
    files: &mut F,
    out: &mut O,
    err: &mut E,
) -> u8
    ensures { IsUpgraded (file_system (F.gives files.old) (F.lacks files.old))
        (io (sink_use O.taken O.failures out.old out.new)
        (sink_use E.taken E.failures err.old err.new) result) quiet words.now }
{
    match newer_form_in(alloc, words, files) {
        Ok(text) => print_good(text.as_str(), out),
        Err(refusal) => {
            refusal.write(alloc, quiet, err);
            REFUSED
        }
    }
}

/// Reads the file, and writes the canonical form, in the newer spelling, of the definition that it holds.
fn newer_form_in<'a, F: Files>(
    alloc: Global,
    words: &PrintWords<'a>,
    files: &mut F,
) -> Result<String, CommandFault<'a>>
    ensures form { IfOk result (λ t. IsNewerForm (F.gives files.old) words.now (string_bytes t)) }
    ensures refused { IfErr result
        (IsDefinitionReason (F.gives files.old) (F.lacks files.old) words.now.definition) }
{
    let machine = machine_in(alloc, &words.definition, files)?;
    match newer_form_of(alloc, machine, words.pretty) {
        Ok(text) => Ok(text),
        Err(_) => Err(CommandFault::OutOfMemory),
    }
}

/// A machine's canonical definition in the newer spelling and a line feed, for a person or on a line.
fn newer_form_of(alloc: Global, machine: Machine, for_person: bool) -> Result<String, AllocError>
    ensures { IfOk result (λ t. string_bytes t
        ≡ laid_out for_person (upgraded machine) ++ 10 ∷ []) }
{
    form_of(alloc, &machine.upgrade(alloc)?, for_person)
}

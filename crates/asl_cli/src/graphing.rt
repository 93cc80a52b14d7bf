// The command `graph`.
ghost use Rattle.std.specs.Prelude.{◌≡◌, None, IfOk, IfErr, string_bytes};
ghost use Rattle.asl_graph.specs.Graphs.{graph_text};
ghost use Rattle.asl_exec.specs.Driving.{most_steps};
ghost use Rattle.asl_run_formats.specs.Marked.{IsMarkedRunOf};
ghost use Rattle.asl_host.specs.Outcomes.{sink_use};
ghost use Rattle.asl_cli.specs.Streams.{file_system, io};
ghost use Rattle.asl_cli.specs.Graphing.{format_of, IsDefinitionGraph, IsRunGraph, IsGraph, IsGraphReason, IsDrawn};
ghost use Rattle.asl_cli.specs.Faults.{IsTextsReason, IsDefinitionReason};
ghost use Rattle.asl_cli.specs.Beginnings.{texts_in, IsRunReason};

use crate::beginning::{Beginning, begin_by};
use crate::checking::machine_in;
use crate::command::{REFUSED, print_good};
use crate::fault::CommandFault;
use crate::mending::of_run;
use asl_def::Machine;
use asl_exec::most_steps;
use asl_graph::Format;
use asl_history::Sink;
use asl_host::Files;
use asl_run_formats::emulate_marked;
use asl_run_input::EmulateFault;
use asl_words::{Begin, GraphFormat, GraphWords, SetupWords};
use std::alloc::{AllocError, Global};

/// The command `graph`: prints the graph of a definition without faults, else tells the first fault. Where a run is asked for, the states
/// that it enters are marked, and the transitions that it takes.
pub fn graph<F: Files, O: Sink, E: Sink>(
    alloc: Global,
    words: &GraphWords<'_>,
    quiet: bool,
    files: &mut F,
    out: &mut O,
    err: &mut E,
) -> u8
    ensures { IsDrawn (file_system (F.gives files.old) (F.lacks files.old))
        (io (sink_use O.taken O.failures out.old out.new)
        (sink_use E.taken E.failures err.old err.new) result) quiet words.now }
{
    match graph_in(alloc, words, files) {
        Ok(text) => print_good(text.as_str(), out),
        Err(refusal) => {
            refusal.write(alloc, quiet, err);
            REFUSED
        }
    }
}

/// The graph that the words ask for.
fn graph_in<'a, F: Files>(
    alloc: Global,
    words: &GraphWords<'a>,
    files: &mut F,
) -> Result<String, CommandFault<'a>>
    ensures graph { IfOk result (λ t. IsGraph (F.gives files.old) words.now (string_bytes t)) }
    ensures refused { IfErr result
        (IsGraphReason (F.gives files.old) (F.lacks files.old) words.now) }
{
    match &words.run {
        None => definition_graph(alloc, words, files),
        Some(setup) => run_graph(alloc, format_of(words.format), setup, files),
    }
}

/// Reads the files, in the order of the words of a run, and writes the graph in which the states are marked that it enters, and the transitions
/// that it takes.
fn run_graph<'a, F: Files>(
    alloc: Global,
    format: Format,
    words: &SetupWords<'a>,
    files: &mut F,
) -> Result<String, CommandFault<'a>>
    ensures graph { IfOk result
        (λ t. IsRunGraph (F.gives files.old) words.now format (string_bytes t)) }
    ensures refused { IfErr result
        (IsRunReason (F.gives files.old) (F.lacks files.old) (Begin.Files words.now) None) }
{
    match begin_by(alloc, files, words) {
        Ok(beginning) => graph_from(alloc, format, &beginning),
        Err(refusal) => Err(refusal),
    }
}

/// The graph of the run of what was read.
fn graph_from<'a>(
    alloc: Global,
    format: Format,
    beginning: &Beginning,
) -> Result<String, CommandFault<'a>>
    ensures run { IfOk result
        (λ t. IsMarkedRunOf format (texts_in beginning.now) most_steps (string_bytes t)) }
    ensures refused { IfErr result (IsTextsReason (texts_in beginning.now)) }
{
    let texts = beginning.of_run(None);
    match emulate_marked(alloc, format, &texts, most_steps()) {
        Ok(text) => Ok(text),
        Err(EmulateFault::OutOfMemory) => Err(CommandFault::OutOfMemory),
        Err(fault) => match of_run(alloc, &beginning.names, None, &texts, &fault) {
            Ok(lines) => Err(CommandFault::Emulation(fault, lines)),
            Err(AllocError) => Err(CommandFault::OutOfMemory),
        },
    }
}

/// Reads the file, and writes the graph of the definition that it holds.
fn definition_graph<'a, F: Files>(
    alloc: Global,
    words: &GraphWords<'a>,
    files: &mut F,
) -> Result<String, CommandFault<'a>>
    ensures graph { IfOk result
        (λ t. IsDefinitionGraph (F.gives files.old) words.now (string_bytes t)) }
    ensures refused { IfErr result
        (IsDefinitionReason (F.gives files.old) (F.lacks files.old) words.now.definition) }
{
    let machine = machine_in(alloc, &words.definition, files)?;
    match graph_of(alloc, words.format, &machine) {
        Ok(text) => Ok(text),
        Err(_) => Err(CommandFault::OutOfMemory),
    }
}

fn format_of(format: GraphFormat) -> Format
    ensures { result ≡ format_of format }
{
    match format {
        GraphFormat::Mermaid => Format::Mermaid,
        GraphFormat::Markdown => Format::Markdown,
        GraphFormat::Dot => Format::Dot,
    }
}

/// The graph of a machine.
fn graph_of(alloc: Global, format: GraphFormat, machine: &Machine) -> Result<String, AllocError>
    ensures { IfOk result (λ t. string_bytes t ≡ graph_text (format_of format) machine.now) }
{
    let definition = machine.json(alloc)?;
    asl_graph::graph(alloc, format_of(format), &definition)
}

// The graph of a run.
ghost use Rattle.std.specs.Prelude.{◌≡◌, IfOk, IfErr, string_bytes};
ghost use Rattle.asl_run_input.specs.Emulations.{IsRefused};
ghost use Rattle.asl_run_input.specs.Texts.{Unless};
ghost use Rattle.asl_run_input.specs.Views.{texts_of, steps_in};
ghost use Rattle.asl_run_formats.specs.Marked.{run_graph, IsMarkedRunOf};

use crate::driving::take_by;
use crate::ending::end_of;
use crate::entering::entered_in;
use crate::passing::passed;
use asl_exec::Execution;
use asl_graph::{Format, marked_graph};
use asl_run_input::{EmulateFault, Emulation, RunTexts, Setup, StepAt};
use std::alloc::{AllocError, Global};

/// The graph of the run of these steps, or, without a list, of those that come next, at most so many. The error is that memory ran out.
fn graph_of(
    alloc: Global,
    format: Format,
    setup: Setup,
    steps: Option<Vec<StepAt>>,
    limit: u32,
) -> Result<String, AllocError>
    ensures { IfOk result (λ t. string_bytes t
        ≡ run_graph format limit setup (steps_in steps)) }
{
    let mut execution = Execution::open(alloc, setup)?;
    let steps = take_by(alloc, &mut execution, steps, limit)?;
    let names = entered_in(alloc, execution.history().events())?;
    let end = end_of(alloc, execution.outcome(), execution.history().events())?;
    execution.restart()?;
    let definition = execution.setup().machine.json(alloc)?;
    let edges = passed(alloc, &mut execution, &steps)?;
    marked_graph(alloc, format, names.as_slice(), &edges, &end, &definition)
}

/// Runs an execution as `asl_exec::emulate_texts` does, with its faults, and writes the graph of its definition, in which the states are
/// marked that it entered, the transitions that it took, and how it ended.
pub fn emulate_marked(
    alloc: Global,
    format: Format,
    texts: &RunTexts<'_>,
    limit: u32,
) -> Result<String, EmulateFault>
    ensures run { IfOk result
        (λ t. IsMarkedRunOf format (texts_of texts.now) limit (string_bytes t)) }
    ensures fault { IfErr result (Unless (IsRefused (texts_of texts.now))) }
{
    let emulation = Emulation::read(alloc, texts)?;
    Ok(graph_of(alloc, format, emulation.setup, emulation.steps, limit)?)
}

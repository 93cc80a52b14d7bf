// A whole run, from texts to text.
ghost use Rattle.std.specs.Prelude.{◌≡◌, IfOk, IfErr, string_bytes};
ghost use Rattle.asl_run_input.specs.Emulations.{IsRefused};
ghost use Rattle.asl_run_input.specs.Texts.{Unless};
ghost use Rattle.asl_run_input.specs.Views.{texts_of, steps_in};
ghost use Rattle.asl_run_state.specs.Lines.{is_success};
ghost use Rattle.asl_exec.specs.Driving.{end_of};
ghost use Rattle.asl_exec.specs.Emulations.{IsEndIn};
ghost use Rattle.asl_exec.specs.Lacking.{unanswered_in, IsLackingIn};
ghost use Rattle.asl_exec.specs.RunText.{world_by};
ghost use Rattle.asl_exec.specs.Steps.{opening, world_after};
ghost use Rattle.asl_run_formats.specs.Taken.{taken_by};
ghost use Rattle.asl_run_formats.specs.Told.{told, IsToldRunOf};

use crate::format::{Format, printed};
use asl_exec::{Emulated, Execution};
use asl_run_input::{EmulateFault, Emulation, RunTexts, Setup, StepAt};
use asl_run_state::is_success;
use std::alloc::{AllocError, Global};

/// The run of these steps, printed in a format, or, without a list, that of those that come next, at most so many. The error is that memory
/// ran out.
fn run_as(
    alloc: Global,
    format: Format<'_>,
    setup: Setup,
    steps: Option<Vec<StepAt>>,
    limit: u32,
) -> Result<Emulated, AllocError>
    ensures text { IfOk result (λ e. string_bytes e.text ≡ told format.entry setup (opening setup)
        (taken_by limit setup (opening setup) (steps_in steps))
        (world_by limit setup (opening setup) (steps_in steps))) }
    ensures good { IfOk result (λ e. e.good
        ≡ is_success (world_by limit setup (opening setup) (steps_in steps)).outcome) }
    ensures lacking { IfOk result (λ e. e.lacking
        ≡ unanswered_in setup.case (world_by limit setup (opening setup) (steps_in steps))) }
    ensures end { IfOk result (λ e. e.end
        ≡ end_of (world_by limit setup (opening setup) (steps_in steps))) }
{
    let mut execution = Execution::open(alloc, setup)?;
    let text = printed(alloc, format, &mut execution, steps, limit)?;
    let lacking = execution.lacking()?;
    Ok(Emulated {
        text,
        good: is_success(execution.outcome()),
        lacking,
        end: execution.end(),
    })
}

/// An equal list of steps. The error is that memory ran out.
fn copied(alloc: Global, steps: &[StepAt]) -> Result<Vec<StepAt>, AllocError>
    ensures { IfOk result (λ v. v.items ≡ steps.now) }
{
    let mut copy = Vec::with_capacity(alloc, steps.len())?;
    for at in steps {
        copy.push(at.try_clone()?)?;
    }
    Ok(copy)
}

/// What the run of these steps prints in a format. The error is that memory ran out.
pub fn printed_steps(
    alloc: Global,
    format: Format<'_>,
    setup: Setup,
    steps: &[StepAt],
) -> Result<String, AllocError>
    ensures { IfOk result (λ t. string_bytes t ≡ told format.entry setup (opening setup) steps.now
        (world_after setup (opening setup) steps.now)) }
{
    let steps = copied(alloc, steps)?;
    let ran = run_as(alloc, format, setup, Some(steps), 0)?;
    Ok(ran.text)
}

/// Runs an execution as `asl_exec::emulate_texts` does, with its faults, and prints it in a format.
pub fn emulate_as(
    alloc: Global,
    format: Format<'_>,
    texts: &RunTexts<'_>,
    limit: u32,
) -> Result<Emulated, EmulateFault>
    ensures run { IfOk result
        (λ e. IsToldRunOf format.entry (texts_of texts.now) limit (string_bytes e.text) e.good) }
    ensures lacking { IfOk result (λ e. IsLackingIn (texts_of texts.now) limit e.lacking) }
    ensures end { IfOk result (λ e. IsEndIn (texts_of texts.now) limit e.end) }
    ensures fault { IfErr result (Unless (IsRefused (texts_of texts.now))) }
{
    let emulation = Emulation::read(alloc, texts)?;
    let emulated = run_as(alloc, format, emulation.setup, emulation.steps, limit)?;
    Ok(emulated)
}

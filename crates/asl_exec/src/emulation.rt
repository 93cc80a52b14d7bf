// A whole run, from texts to text.
ghost use Rattle.std.specs.Prelude.{Some, None, IfOk, IfErr, string_bytes};
ghost use Rattle.asl_run_input.specs.Emulations.{IsRefused, run_texts};
ghost use Rattle.asl_run_input.specs.Texts.{Unless};
ghost use Rattle.asl_run_input.specs.Views.{texts_of};
ghost use Rattle.asl_exec.specs.Emulations.{IsRunOf, IsEndIn};
ghost use Rattle.asl_exec.specs.Lacking.{IsLackingIn};

use crate::driving::Ended;
use crate::lacking::Invocation;
use crate::printing::run;
use asl_run_input::{EmulateFault, Emulation, RunTexts};
use std::alloc::Global;

/// What becomes of a run.
#[derive(Drop)]
pub struct Emulated {
    /// What is printed: the lines of the steps, of the history, and of the status.
    pub text: String,
    /// Whether the execution has succeeded.
    pub good: bool,
    /// Where the execution failed since a service was invoked that its test case doesn't answer: this invocation.
    pub lacking: Option<Invocation>,
    /// How it ended: over, or why it still runs.
    pub end: Ended,
}

/// Runs an execution: by the steps of a file, where there is one, else by the steps that come next, at most so many, from the epoch
/// on. With a file the limit says nothing.
///
/// The texts are read as `Emulation::read` does, with its faults.
///
/// The text has a line for each step of a file with its reply, then the lines of the history, then the status.
pub fn emulate_texts(
    alloc: Global,
    texts: &RunTexts<'_>,
    limit: u32,
) -> Result<Emulated, EmulateFault>
    ensures run { IfOk result
        (λ e. IsRunOf (texts_of texts.now) limit (string_bytes e.text) e.good) }
    ensures lacking { IfOk result (λ e. IsLackingIn (texts_of texts.now) limit e.lacking) }
    ensures end { IfOk result (λ e. IsEndIn (texts_of texts.now) limit e.end) }
    ensures fault { IfErr result (Unless (IsRefused (texts_of texts.now))) }
{
    let emulation = Emulation::read(alloc, texts)?;
    let emulated = run(alloc, emulation.setup, emulation.steps.as_deref(), limit)?;
    Ok(emulated)
}

/// `emulate_texts` by a file of steps.
pub fn emulate<'a>(
    alloc: Global,
    definition: &'a [u8],
    mocks: &'a [u8],
    chosen: &'a str,
    input: &'a [u8],
    steps: &'a [u8],
) -> Result<Emulated, EmulateFault>
    ensures run { IfOk result (λ e. IsRunOf
        (run_texts definition.now mocks.now chosen.now input.now (Some steps.now)) 0
        (string_bytes e.text) e.good) }
    ensures lacking { IfOk result (λ e. IsLackingIn
        (run_texts definition.now mocks.now chosen.now input.now (Some steps.now)) 0 e.lacking) }
    ensures end { IfOk result (λ e. IsEndIn
        (run_texts definition.now mocks.now chosen.now input.now (Some steps.now)) 0 e.end) }
    ensures fault { IfErr result (Unless (IsRefused
        (run_texts definition.now mocks.now chosen.now input.now (Some steps.now)))) }
{
    let texts = RunTexts {
        definition,
        mocks,
        chosen,
        input,
        steps: Some(steps),
    };
    emulate_texts(alloc, &texts, 0)
}

/// `emulate_texts` by the steps that come next, at most so many.
pub fn emulate_driven<'a>(
    alloc: Global,
    definition: &'a [u8],
    mocks: &'a [u8],
    chosen: &'a str,
    input: &'a [u8],
    limit: u32,
) -> Result<Emulated, EmulateFault>
    ensures run { IfOk result (λ e. IsRunOf
        (run_texts definition.now mocks.now chosen.now input.now None) limit
        (string_bytes e.text) e.good) }
    ensures lacking { IfOk result (λ e. IsLackingIn
        (run_texts definition.now mocks.now chosen.now input.now None) limit e.lacking) }
    ensures end { IfOk result (λ e. IsEndIn
        (run_texts definition.now mocks.now chosen.now input.now None) limit e.end) }
    ensures fault { IfErr result (Unless (IsRefused
        (run_texts definition.now mocks.now chosen.now input.now None))) }
{
    let texts = RunTexts {
        definition,
        mocks,
        chosen,
        input,
        steps: None,
    };
    emulate_texts(alloc, &texts, limit)
}

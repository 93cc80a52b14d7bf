// All that a run is of, from its texts.
ghost use Rattle.std.specs.Prelude.{IfOk, IfErr};
ghost use Rattle.asl_run_input.specs.Emulations.{Accepts, IsRefused};
ghost use Rattle.asl_run_input.specs.Texts.{Unless};
ghost use Rattle.asl_run_input.specs.Views.{texts_of, steps_in};

use crate::fault::EmulateFault;
use crate::run_texts::RunTexts;
use crate::setup::Setup;
use crate::step_at::StepAt;
use crate::texts::{case_of, input_of, machine_of, mocks_of, setup_for, start_of, steps_of};
use std::alloc::Global;

/// What the texts of a run say.
#[derive(Drop)]
pub struct Emulation {
    /// What the execution begins with.
    pub setup: Setup,
    /// The steps that it is to take, in order, where a file names them.
    pub steps: Option<Vec<StepAt>>,
}

impl Emulation {
    /// Reads the texts of a run. A definition is judged as `asl_check::accept` does. The execution has the name of its test case, or
    /// `run`. It starts at the moment of its first step, or at the epoch.
    ///
    /// The fault is the first of the first text that has one, in the order of the fields.
    pub fn read(alloc: Global, texts: &RunTexts<'_>) -> Result<Emulation, EmulateFault>
        ensures found { IfOk result (λ e. Accepts (texts_of texts.now) e.setup (steps_in e.steps)) }
        ensures fault { IfErr result (Unless (IsRefused (texts_of texts.now))) }
    {
        let machine = machine_of(alloc, texts.definition)?;
        let file = mocks_of(alloc, texts.mocks)?;
        let case = case_of(&file, texts.chosen)?;
        let input = input_of(alloc, texts.input)?;
        let steps = steps_of(alloc, texts.steps)?;
        let start = start_of(steps.as_deref());
        let setup = setup_for(alloc, machine, texts.chosen, case, input, start)?;
        Ok(Emulation { setup, steps })
    }
}

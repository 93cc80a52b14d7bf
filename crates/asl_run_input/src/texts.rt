// What the texts of a run spell.
ghost use Rattle.std.specs.Prelude.{◌≡◌, Ok, IfOk, IfErr, option_map};
ghost use Rattle.asl_check.specs.Judged.{IsMachineOf};
ghost use Rattle.asl_mock.specs.Told.{IsMockFile};
ghost use Rattle.asl_run_input.specs.Chosen.{case_name, machine_name, execution_name, case_chosen};
ghost use Rattle.asl_run_input.specs.Texts.{IsInputOf, AreStepsOf, start_of, setup_for, IsBadDefinition, AreBadMocks, IsNoCase, IsBadInput, AreBadSteps, Unless};
ghost use Rattle.asl_run_input.specs.Views.{steps_in};

use crate::fault::EmulateFault;
use crate::setup::Setup;
use crate::step_at::StepAt;
use crate::steps_file::{StepsFault, read_steps};
use asl_check::{Fault, accept};
use asl_def::Machine;
use asl_json::{Json, Txt};
use asl_json_read::{JsonFault, read};
use asl_json_shared::Shared;
use asl_mock::{Case, MockFault, Mocks};
use asl_time::Moment;
use std::alloc::{AllocError, Global};

/// The machine of a definition.
pub(crate) fn machine_of(alloc: Global, definition: &[u8]) -> Result<Machine, EmulateFault>
    ensures found { IfOk result (IsMachineOf definition.now) }
    ensures fault { IfErr result (Unless (IsBadDefinition definition.now)) }
{
    match accept(alloc, definition) {
        Ok(machine) => Ok(machine),
        Err(Fault::OutOfMemory) => Err(EmulateFault::OutOfMemory),
        Err(fault) => Err(EmulateFault::Definition(fault)),
    }
}

/// The machines and cases of a mock file.
pub(crate) fn mocks_of(alloc: Global, mocks: &[u8]) -> Result<Mocks, EmulateFault>
    ensures found { IfOk result (IsMockFile mocks.now) }
    ensures fault { IfErr result (Unless (AreBadMocks mocks.now)) }
{
    match Mocks::read(alloc, mocks) {
        Ok(mocks) => Ok(mocks),
        Err(MockFault::OutOfMemory) => Err(EmulateFault::OutOfMemory),
        Err(fault) => Err(EmulateFault::Mocks(fault)),
    }
}

/// What was chosen, cut at the first `#`: the machine's name, and the test case's.
fn names_in(chosen: &str) -> (&str, &str)
    ensures machine { result.0.now ≡ machine_name chosen.now }
    ensures case { result.1.now ≡ case_name chosen.now }
{
    match chosen.split_once('#') {
        Some((machine, case)) => (machine, case),
        None => (chosen, ""),
    }
}

/// The test case that was chosen; where none is named, the empty one, whatever the machine's name.
pub(crate) fn case_of(mocks: &Mocks, chosen: &str) -> Result<Case, EmulateFault>
    ensures found { IfOk result (λ c. case_chosen mocks.now chosen.now ≡ Ok c) }
    ensures fault { IfErr result (Unless (IsNoCase mocks.now chosen.now)) }
{
    let (machine, case) = names_in(chosen);
    if case.is_empty() {
        return Ok(Case::empty());
    }
    match mocks.case(machine, case) {
        Ok(case) => Ok(case.try_clone()?),
        Err(fault) => Err(EmulateFault::Case(fault)),
    }
}

/// The input of an execution.
pub(crate) fn input_of(alloc: Global, input: &[u8]) -> Result<Json, EmulateFault>
    ensures found { IfOk result (IsInputOf input.now) }
    ensures fault { IfErr result (Unless (IsBadInput input.now)) }
{
    match read(alloc, input) {
        Ok(value) => Ok(value),
        Err(JsonFault::OutOfMemory) => Err(EmulateFault::OutOfMemory),
        Err(fault) => Err(EmulateFault::Input(fault)),
    }
}

/// The steps of a run, where a file names them.
pub(crate) fn steps_of(
    alloc: Global,
    steps: Option<&[u8]>,
) -> Result<Option<Vec<StepAt>>, EmulateFault>
    ensures found { IfOk result (λ o. AreStepsOf (option_map (λ b. b.now) steps.entry) (steps_in o)) }
    ensures fault { IfErr result (Unless (AreBadSteps (option_map (λ b. b.now) steps.entry))) }
{
    let Some(steps) = steps else {
        return Ok(None);
    };
    match read_steps(alloc, steps) {
        Ok(steps) => Ok(Some(steps)),
        Err(StepsFault::OutOfMemory) => Err(EmulateFault::OutOfMemory),
        Err(StepsFault::Line(number)) => Err(EmulateFault::StepLine(number)),
    }
}

/// When an execution starts: at the moment of the first step that is named, and at the epoch where there is none.
pub(crate) fn start_of(steps: Option<&[StepAt]>) -> Moment
    ensures { result ≡ start_of (option_map (λ ss. ss.now) steps.entry) }
{
    match steps {
        Some([first, ..]) => first.moment,
        _ => Moment::FIRST,
    }
}

/// The name of the execution of what was chosen: the test case's, and `run` where none is named.
fn execution_name(chosen: &str) -> &str
    ensures { result.now ≡ execution_name chosen.now }
{
    match names_in(chosen) {
        (_, "") => "run",
        (_, case) => case,
    }
}

/// The setup of a run.
pub(crate) fn setup_for(
    alloc: Global,
    machine: Machine,
    chosen: &str,
    case: Case,
    input: Json,
    start: Moment,
) -> Result<Setup, AllocError>
    ensures { IfOk result (λ s. s ≡ setup_for machine chosen.now case input start) }
{
    let (name_of_machine, _) = names_in(chosen);
    Ok(Setup {
        machine,
        name_of_machine: Txt::of(alloc, name_of_machine)?,
        case,
        input: Shared::new(alloc, input)?,
        name: Txt::of(alloc, execution_name(chosen))?,
        start,
    })
}

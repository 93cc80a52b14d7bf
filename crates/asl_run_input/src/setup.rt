// What an execution begins with.
ghost use Rattle.std.specs.Prelude.{◌≡◌, ◌↔◌, None, IfOk, IfErr, IsTrue};
ghost use Rattle.asl_run_input.specs.Emulations.{Accepts, IsRefused, run_texts};
ghost use Rattle.asl_run_input.specs.Equal.{setup_equal};
ghost use Rattle.asl_run_input.specs.Texts.{Unless};

use crate::emulation::Emulation;
use crate::fault::EmulateFault;
use crate::run_texts::RunTexts;
use asl_def::Machine;
use asl_json::Txt;
use asl_json_shared::Shared;
use asl_mock::Case;
use asl_time::Moment;
use std::alloc::{AllocError, Global};

/// What an execution begins with.
pub struct Setup {
    /// The state machine.
    pub machine: Machine,
    /// The name of the state machine.
    pub name_of_machine: Txt,
    /// What its tasks answer: the test case that was chosen, which has an owner more for each setup.
    pub case: Case,
    /// The execution's input, which records and events share.
    pub input: Shared,
    /// The execution's name: that of the test case, or `run` where none was chosen.
    pub name: Txt,
    /// When the execution starts.
    pub start: Moment,
}

// Written out, so that a caller's proof sees one call and not the drop of each part.
impl Drop for Setup {
    fn drop(self) {
        let Setup {
            machine: _machine,
            name_of_machine: _name_of_machine,
            case: _case,
            input: _input,
            name: _name,
            start: _start,
        } = self;
    }
}

fn are_equal(a: &Setup, b: &Setup) -> bool
    ensures { result ≡ setup_equal a.now b.now }
{
    a.machine == b.machine
        && a.name_of_machine == b.name_of_machine
        && a.case == b.case
        && a.input == b.input
        && a.name == b.name
        && a.start == b.start
}

/// Two setups are equal where their parts are: machines where their canonical definitions are, cases and inputs where they are one
/// as data. Takes no memory.
impl PartialEq for Setup {
    ghost use Rattle.asl_run_input.specs.Equal.{setup_equal};
    ghost use Rattle.asl_run_input.specs.private.EqualLaws.{setup_laws};

    ghost eq = { setup_equal };

    ghost laws = { setup_laws };

    fn eq(&self, other: &Setup) -> bool
        ensures equal { result ≡ setup_equal self.now other.now }
        ensures same { IsTrue result ↔ (self.now ≡ other.now) }
    {
        are_equal(self, other)
    }
}

impl Eq for Setup {
    ghost use Rattle.asl_run_input.specs.private.EqualLaws.{setup_equivalence};

    ghost laws = { setup_equivalence };
}

impl Setup {
    /// Reads the texts of a run without a file of steps, as `Emulation::read` does, with its faults. The execution starts at the epoch.
    pub fn read<'a>(
        alloc: Global,
        definition: &'a [u8],
        mocks: &'a [u8],
        chosen: &'a str,
        input: &'a [u8],
    ) -> Result<Setup, EmulateFault>
        ensures found { IfOk result (λ s.
            Accepts (run_texts definition.now mocks.now chosen.now input.now None) s None) }
        ensures fault { IfErr result (Unless (IsRefused
            (run_texts definition.now mocks.now chosen.now input.now None))) }
    {
        let texts = RunTexts {
            definition,
            mocks,
            chosen,
            input,
            steps: None,
        };
        Ok(Emulation::read(alloc, &texts)?.setup)
    }

    /// An equal setup, which shares machine, case and input with this one. The error is that memory ran out, or that there are too
    /// many owners.
    pub fn try_clone(&self, alloc: Global) -> Result<Setup, AllocError>
        ensures { IfOk result (λ s. s ≡ self.now) }
    {
        Ok(Setup {
            machine: self.machine.try_clone()?,
            name_of_machine: self.name_of_machine.try_clone(alloc)?,
            case: self.case.try_clone()?,
            input: self.input.try_clone()?,
            name: self.name.try_clone(alloc)?,
            start: self.start,
        })
    }
}

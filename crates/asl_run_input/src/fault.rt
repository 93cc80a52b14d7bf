// Why the texts of a run are refused.
ghost use Rattle.std.specs.Prelude.{◌≡◌, IfOk, string_bytes};
ghost use Rattle.asl_run_input.specs.Texts.{refusal_line};

use asl_check::Fault;
use asl_json_read::JsonFault;
use asl_mock::{CaseFault, MockFault};
use std::alloc::{AllocError, Global};
use std::error::Error;
use std::fmt;

/// Why the texts of a run are refused: the first fault of the first text that has one, in this order.
#[derive(Debug, Drop)]
pub enum EmulateFault {
    /// F1 to F15: the first fault of the definition.
    Definition(Fault),
    /// M1 to M5: the first fault of the mock file.
    Mocks(MockFault),
    /// M7 and M8: the test case that is chosen isn't in the mock file.
    Case(CaseFault),
    /// The input isn't a JSON text.
    Input(JsonFault),
    /// E1: the number, from 1, of the first line of the steps file that is no step.
    StepLine(usize),
    /// Memory ran out.
    OutOfMemory,
}

impl From<AllocError> for EmulateFault {
    ghost use Rattle.std.specs.Prelude.{◌≡◌};
    ghost use Rattle.asl_run_input.specs.declared.fault.EmulateFault.TheVariants.{OutOfMemory};

    ghost from_gives = { λ _ e. e ≡ OutOfMemory };

    fn from(_: AllocError) -> EmulateFault {
        EmulateFault::OutOfMemory
    }
}

impl fmt::Display for EmulateFault {
    ghost use Rattle.std.specs.Prelude.{Some};

    ghost output = { λ e. Some (refusal_line e) };

    fn fmt<W: fmt::Write>(&self, f: &mut fmt::Formatter<W>) -> fmt::Result {
        match self {
            EmulateFault::Definition(fault) => write!(f, "definition: {fault}"),
            EmulateFault::Mocks(fault) => write!(f, "mocks: {fault}"),
            EmulateFault::Case(fault) => write!(f, "case: {fault}"),
            EmulateFault::Input(fault) => write!(f, "input: {fault}"),
            EmulateFault::StepLine(number) => write!(f, "steps: E1 StepLine {number}"),
            EmulateFault::OutOfMemory => f.write_str("OutOfMemory"),
        }
    }
}

impl Error for EmulateFault {}

impl EmulateFault {
    /// The text of the fault: the role of the text that it is in, its number and name, and what it carries, as
    /// `definition: F10 NoTarget /States/A/Next`. The error is that memory ran out.
    pub fn text(&self, alloc: Global) -> Result<String, AllocError>
        ensures { IfOk result (λ t. string_bytes t ≡ refusal_line self.now) }
    {
        self.to_string(alloc)
    }
}

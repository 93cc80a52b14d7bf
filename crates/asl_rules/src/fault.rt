// Why a text isn't read as a rule.
ghost use Rattle.std.specs.Prelude.{◌≡◌, IfOk, string_bytes};
ghost use Rattle.asl_rules.specs.FaultText.{fault_text};

use std::alloc::{AllocError, Global};
use std::error::Error;
use std::fmt;

/// Why a text isn't read as a rule. Places are offsets in bytes from 0.
#[derive(Clone, Copy, Debug, PartialEq, Eq)]
pub enum RuleFault {
    /// Q1: the first byte over which no rule goes on, or the length where it ends too early; the backslash of an escape of a
    /// surrogate half that is none of a
    /// pair.
    Syntax(usize),
    /// Q2: the first quote of the first name that is no Task's.
    NoSuchState(usize),
    /// Q3: memory ran out.
    OutOfMemory,
}

impl fmt::Display for RuleFault {
    ghost use Rattle.std.specs.Prelude.{Some};

    ghost output = { λ e. Some (fault_text e) };

    fn fmt<W: fmt::Write>(&self, f: &mut fmt::Formatter<W>) -> fmt::Result {
        match *self {
            RuleFault::Syntax(at) => write!(f, "Q1 Syntax {at}"),
            RuleFault::NoSuchState(at) => write!(f, "Q2 NoSuchState {at}"),
            RuleFault::OutOfMemory => f.write_str("Q3 OutOfMemory"),
        }
    }
}

impl Error for RuleFault {}

impl From<AllocError> for RuleFault {
    ghost use Rattle.asl_rules.specs.declared.fault.RuleFault.TheVariants.{OutOfMemory};

    ghost from_gives = { λ _ e. e ≡ OutOfMemory };

    fn from(_: AllocError) -> RuleFault {
        RuleFault::OutOfMemory
    }
}

impl RuleFault {
    /// The text of the fault, as `Q1 Syntax 5`. The error is that memory ran out.
    pub fn text(&self, alloc: Global) -> Result<String, AllocError>
        ensures { IfOk result (λ t. string_bytes t ≡ fault_text self.now) }
    {
        self.to_string(alloc)
    }
}

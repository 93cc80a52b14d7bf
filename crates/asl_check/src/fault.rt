// Why a text is no definition.
ghost use Rattle.std.specs.Prelude.{◌≡◌, IfOk, string_bytes};
ghost use Rattle.asl_check.specs.Lines.{fault_line};

use asl_def_schema::FaultKind;
use asl_json_read::JsonFault;
use asl_json_write::Pointer;
use std::alloc::{AllocError, Global};
use std::error::Error;
use std::fmt;

/// Why a text is no definition.
#[derive(Debug, Drop)]
pub enum Fault {
    /// F1: it is no JSON text.
    Json(JsonFault),
    /// F2 to F15: the value has this fault at this place. A member that is missing has the place where it would stand.
    Definition(FaultKind, Pointer),
    /// F16: memory ran out.
    OutOfMemory,
}

impl From<AllocError> for Fault {
    ghost use Rattle.std.specs.Prelude.{◌≡◌};
    ghost use Rattle.asl_check.specs.declared.fault.Fault.TheVariants.{OutOfMemory};

    ghost from_gives = { λ _ e. e ≡ OutOfMemory };

    fn from(_: AllocError) -> Fault {
        Fault::OutOfMemory
    }
}

impl fmt::Display for Fault {
    ghost use Rattle.std.specs.Prelude.{Some};

    ghost output = { λ e. Some (fault_line e) };

    fn fmt<W: fmt::Write>(&self, f: &mut fmt::Formatter<W>) -> fmt::Result {
        match self {
            Fault::Json(fault) => write!(f, "F1 Json {fault}"),
            Fault::Definition(kind, place) => place.write_behind(kind.words(), f),
            Fault::OutOfMemory => f.write_str("F16 OutOfMemory"),
        }
    }
}

impl Error for Fault {}

impl Fault {
    /// The text of the fault, as `F10 NoTarget /States/A/Next` or `F1 Json J1 Syntax 5`. The error is that memory ran out.
    pub fn text(&self, alloc: Global) -> Result<String, AllocError>
        ensures { IfOk result (λ t. string_bytes t ≡ fault_line self.now) }
    {
        self.to_string(alloc)
    }
}

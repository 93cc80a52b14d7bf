// Why a definition is refused.
ghost use Rattle.asl_def.specs.Answer.{Tells, def_line};

use asl_def_schema::{Fault, FaultKind};
use asl_json_write::Pointer;
use std::alloc::{AllocError, Global};
use std::error::Error;
use std::fmt;

/// Why a definition is refused.
#[derive(Debug, Drop)]
pub enum DefFault {
    /// F2 to F15: a fault with its place in the definition, as `/States/A/Next`. A member that is missing has the place where it
    /// would stand. The place of the whole definition is empty.
    Refused(FaultKind, Pointer),
    /// F16: memory ran out.
    OutOfMemory,
}

impl From<AllocError> for DefFault {
    ghost use Rattle.std.specs.Prelude.{◌≡◌};
    ghost use Rattle.asl_def.specs.declared.fault.DefFault.TheVariants.{OutOfMemory};

    ghost from_gives = { λ _ e. e ≡ OutOfMemory };

    fn from(_: AllocError) -> DefFault {
        DefFault::OutOfMemory
    }
}

impl fmt::Display for DefFault {
    ghost use Rattle.std.specs.Prelude.{Some};

    ghost output = { λ e. Some (def_line e) };

    fn fmt<W: fmt::Write>(&self, f: &mut fmt::Formatter<W>) -> fmt::Result {
        match self {
            DefFault::Refused(kind, place) => place.write_behind(kind.words(), f),
            DefFault::OutOfMemory => f.write_str("F16 OutOfMemory"),
        }
    }
}

impl Error for DefFault {}

/// The fault with its place as text.
pub(crate) fn answer(alloc: Global, fault: &Fault) -> DefFault
    ensures { Tells fault.now result }
{
    match fault.place(alloc) {
        Ok(place) => DefFault::Refused(fault.kind(), place),
        Err(AllocError) => DefFault::OutOfMemory,
    }
}

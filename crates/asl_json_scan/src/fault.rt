// What is wrong at a place of a text.
use std::alloc::{AllocError, AllocFailed};

/// What is wrong at a place of a text.
#[derive(Clone, Copy, Debug, PartialEq, Eq)]
pub enum Kind {
    Syntax,
    /// An escape of a surrogate half that has no partner.
    Lone,
    Duplicate,
    Depth,
    Number,
}

/// Why bytes are not a JSON text, with how many bytes there are from the place to the end.
#[derive(Clone, Copy, Debug, PartialEq, Eq)]
pub struct Fault {
    pub kind: Kind,
    pub left: usize,
}

/// Why a part of a text was not read.
#[derive(Clone, Copy, Debug)]
pub enum Stop {
    Memory,
    Fault(Fault),
}

impl From<AllocError> for Stop {
    ghost use Rattle.std.specs.Prelude.{◌≡◌};
    ghost use Rattle.asl_json_scan.specs.declared.fault.Stop.TheVariants.{Memory};

    ghost from_gives = { λ _ e. e ≡ Memory };

    fn from(_: AllocError) -> Stop {
        Stop::Memory
    }
}

impl<T: Drop> From<AllocFailed<T>> for Stop {
    ghost use Rattle.std.specs.Prelude.{◌≡◌};
    ghost use Rattle.asl_json_scan.specs.declared.fault.Stop.TheVariants.{Memory};

    ghost from_gives = { λ _ e. e ≡ Memory };

    fn from(_: AllocFailed<T>) -> Stop {
        Stop::Memory
    }
}

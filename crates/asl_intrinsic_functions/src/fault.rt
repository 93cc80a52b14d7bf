// Why a call has no value.
use std::alloc::{AllocError, AllocFailed};
use thiserror::Error;

/// Why a function has no value for its arguments.
#[derive(Clone, Copy, Debug, PartialEq, Eq, Error)]
pub enum Reason {
    /// An argument is of a type that the function doesn't take.
    #[error("an argument of a wrong type")]
    Unfit,
    /// A number or a name that the function doesn't take.
    #[error("an argument out of range")]
    Range,
    /// More or fewer arguments than there are places for them, such as `{}` in a template.
    #[error("a wrong number of arguments")]
    Count,
    /// A text isn't the coding of a value.
    #[error("a text that can't be decoded")]
    Undecoded,
}

/// Why a call has no value on an input and a context.
#[derive(Clone, Copy, Debug, PartialEq, Eq, Error)]
pub enum EvalFault {
    /// I6: a function has no value for its arguments.
    #[error("I6 Fails: {0}")]
    Fails(Reason),
    /// I7: a path names nothing.
    #[error("I7 PathMissing")]
    PathMissing,
    /// I5: memory ran out.
    #[error("I5 OutOfMemory")]
    OutOfMemory,
}

impl<T: Drop> From<AllocFailed<T>> for EvalFault {
    ghost use Rattle.std.specs.Prelude.{◌≡◌};
    ghost use Rattle.asl_intrinsic_functions.specs.declared.fault.EvalFault.TheVariants.{OutOfMemory};

    ghost from_gives = { λ _ e. e ≡ OutOfMemory };

    fn from(_: AllocFailed<T>) -> EvalFault {
        EvalFault::OutOfMemory
    }
}

impl From<AllocError> for EvalFault {
    ghost use Rattle.std.specs.Prelude.{◌≡◌};
    ghost use Rattle.asl_intrinsic_functions.specs.declared.fault.EvalFault.TheVariants.{OutOfMemory};

    ghost from_gives = { λ _ e. e ≡ OutOfMemory };

    fn from(_: AllocError) -> EvalFault {
        EvalFault::OutOfMemory
    }
}

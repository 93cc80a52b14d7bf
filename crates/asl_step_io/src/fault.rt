// Why a step's data isn't made: memory ran out, or an error is raised.
ghost use Rattle.std.specs.Prelude.{◌≡◌, ◌++◌, IfOk, codes};
ghost use Rattle.asl_step_io.specs.Paths.{failure, no_value, no_place};
ghost use Rattle.asl_step_io.specs.Gives.{IsRaised};

use asl_json::Txt;
use asl_step::ErrorOut;
use std::alloc::{AllocError, Global};

/// Why data isn't made.
#[derive(Drop)]
pub enum Fault {
    Memory,
    Raised(ErrorOut),
}

impl From<AllocError> for Fault {
    ghost use Rattle.std.specs.Prelude.{◌≡◌};
    ghost use Rattle.asl_step_io.specs.declared.fault.Fault.TheVariants.{Memory};

    ghost from_gives = { λ _ e. e ≡ Memory };

    fn from(_: AllocError) -> Fault {
        Fault::Memory
    }
}

/// An error with its cause.
pub(crate) fn failure(alloc: Global, error: &str, cause: Txt) -> Result<ErrorOut, AllocError>
    ensures { IfOk result (λ e. e ≡ failure error.now cause) }
{
    Ok(ErrorOut {
        error: Some(Txt::of(alloc, error)?),
        cause: Some(cause),
    })
}

/// That a field's path has no value.
fn no_value(alloc: Global, field: &str) -> Result<ErrorOut, AllocError>
    ensures { IfOk result (λ e. e ≡ no_value field.now) }
{
    let mut cause = String::from_str(alloc, field)?;
    cause.push_str(": no value")?;
    failure(alloc, "States.Runtime", Txt::new(cause))
}

/// That ResultPath has no place.
fn no_place(alloc: Global) -> Result<ErrorOut, AllocError>
    ensures { IfOk result (λ e. e ≡ no_place) }
{
    failure(
        alloc,
        "States.ResultPathMatchFailure",
        Txt::of(alloc, "ResultPath: no place")?,
    )
}

/// The fault of an error with its cause.
pub fn raised(alloc: Global, error: &str, cause: &str) -> Fault
    ensures { IsRaised (failure error.now cause.now) result }
{
    let cause = match Txt::of(alloc, cause) {
        Ok(cause) => cause,
        Err(_) => return Fault::Memory,
    };
    match failure(alloc, error, cause) {
        Ok(error) => Fault::Raised(error),
        Err(_) => Fault::Memory,
    }
}

/// The fault that a field's path has no value.
pub fn missing(alloc: Global, field: &str) -> Fault
    ensures { IsRaised (no_value field.now) result }
{
    match no_value(alloc, field) {
        Ok(error) => Fault::Raised(error),
        Err(_) => Fault::Memory,
    }
}

/// The fault that ResultPath has no place.
pub fn placeless(alloc: Global) -> Fault
    ensures { IsRaised no_place result }
{
    match no_place(alloc) {
        Ok(error) => Fault::Raised(error),
        Err(_) => Fault::Memory,
    }
}

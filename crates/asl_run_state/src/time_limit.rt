// What an execution's time limit makes of it.
ghost use Rattle.std.specs.Prelude.{◌≡◌, IfOk, Some};
ghost use Rattle.asl_step.specs.Rows.{error_output};
ghost use Rattle.asl_run_state.specs.World.{timeout_error, is_late};
ghost use Rattle.asl_run_state.specs.Picking.{lesser};

use asl_json::Txt;
use asl_json_shared::Shared;
use asl_step::{ErrorOut, error_output};
use asl_time::Moment;
use std::alloc::{AllocError, Global};

/// The error of an execution whose time is over: `States.Timeout`. (Amazon States Language, "Errors".)
pub(crate) fn timeout_error(alloc: Global) -> Result<ErrorOut, AllocError>
    ensures { IfOk result (λ e. e ≡ timeout_error) }
{
    let name = Txt::of(alloc, "States.Timeout")?;
    Ok(ErrorOut {
        error: Some(name),
        cause: None,
    })
}

/// The same, as an event tells it.
pub(crate) fn timeout_output(alloc: Global) -> Result<Shared, AllocError>
    ensures { IfOk result (λ v. v ≡ error_output timeout_error) }
{
    let error = timeout_error(alloc)?;
    Ok(Shared::new(alloc, error_output(alloc, &error)?)?)
}

/// Whether the time of an execution is over at this moment, where it has a time limit.
pub(crate) fn is_late(now: Moment, deadline: Option<Moment>) -> bool
    ensures { result ≡ is_late now deadline }
{
    match deadline {
        Some(deadline) => deadline.millis() <= now.millis(),
        None => false,
    }
}

/// The moment, or that at which the time of an execution is over, if that is earlier.
pub(crate) fn within(deadline: Option<Moment>, moment: Moment) -> Moment
    ensures { Some result ≡ lesser (Some moment) deadline }
{
    match deadline {
        Some(deadline) if deadline.millis() < moment.millis() => deadline,
        _ => moment,
    }
}

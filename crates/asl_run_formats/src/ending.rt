// How a run ended.
ghost use Rattle.std.specs.Prelude.{◌≡◌, [], IfOk};
ghost use Rattle.asl_run_formats.specs.Ended.{or_name, last_name, end_of};

use asl_graph::RunEnd;
use asl_history::Event;
use asl_json_shared::Name;
use asl_run_state::Outcome;
use std::alloc::{AllocError, Global};

/// A name, or that one where it is empty. The error is that there are too many owners, here and below.
fn or_name(name: &Name, other: Name) -> Result<Name, AllocError>
    ensures { IfOk result (λ n. n ≡ or_name name.now other) }
{
    if name.as_str().is_empty() {
        return Ok(other);
    }
    Ok(name.try_clone()?)
}

/// The name of the last of these events that tells of a state; empty where none does.
fn last_name(alloc: Global, events: &[Event]) -> Result<Name, AllocError>
    ensures { IfOk result (λ n. n ≡ last_name [] events.now) }
{
    let mut name = Name::new(alloc, "")?;
    for event in events {
        name = or_name(&event.name, name)?;
    }
    Ok(name)
}

/// How a run ended that has this outcome and told these events. The error is that memory ran out.
pub(crate) fn end_of(
    alloc: Global,
    outcome: &Outcome,
    events: &[Event],
) -> Result<RunEnd, AllocError>
    ensures { IfOk result (λ e. e ≡ end_of outcome.now events.now) }
{
    match outcome {
        Outcome::Succeeded(_) => Ok(RunEnd::Succeeded),
        Outcome::Failed(_) => Ok(RunEnd::Failed(last_name(alloc, events)?)),
        Outcome::Running | Outcome::TimedOut => Ok(RunEnd::Open),
    }
}

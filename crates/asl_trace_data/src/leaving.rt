// Stages behind an error or an output.
ghost use Rattle.std.specs.Prelude.{◌≡◌, ◌++◌, OnOk, IfOk, codes, option_map};
ghost use Rattle.std.specs.Option.{option_copied};
ghost use Rattle.asl_json.specs.Meaning.{value_in};
ghost use Rattle.asl_def_shared.specs.Member.{completion_object};
ghost use Rattle.asl_def_shared.specs.Parts.{catcher_object};
ghost use Rattle.asl_handle.specs.Decisions.{caught};
ghost use Rattle.asl_step.specs.Seen.{seen};
ghost use Rattle.asl_trace_data.specs.Stages.{onward, limit_stages, caught_by, caught_stages, left, settled, raised_in};

use crate::making::add_put;
use crate::part::Part;
use crate::stage::{Stage, add_error, raised_in};
use asl_def_shared::{Catcher, Completion};
use asl_handle::{Decision, Policy};
use asl_json::Json;
use asl_json_shared::Shared;
use asl_step::{ErrorOut, Visit, error_output, is_within_limit, over_limit};
use std::alloc::{AllocError, Global};

/// Adds that an output is above the data limit, where it is. The error is that memory ran out, here and below.
fn add_limit(alloc: Global, out: &mut Vec<Stage>, output: &Json) -> Result<(), AllocError>
    ensures { OnOk result (out.new.items ≡ out.old.items ++ limit_stages output.now) }
{
    if is_within_limit(output) {
        return Ok(());
    }
    add_error(out, Part::Output, Some(over_limit(alloc)?))
}

/// The same of an output that may be there.
pub(crate) fn leave(
    alloc: Global,
    out: &mut Vec<Stage>,
    output: Option<&Shared>,
) -> Result<(), AllocError>
    ensures { OnOk result (out.new.items
        ≡ left out.old.items (option_map (λ z. z.now) output.entry)) }
{
    match output {
        Some(output) => add_limit(alloc, out, output),
        None => Ok(()),
    }
}

/// Adds what a catcher makes of an error.
fn add_caught(
    alloc: Global,
    out: &mut Vec<Stage>,
    catcher: &Catcher,
    input: &Shared,
    error: &ErrorOut,
) -> Result<(), AllocError>
    ensures { OnOk result (out.new.items ≡ out.old.items
        ++ caught_by input.now error.now (caught (catcher_object catcher.now))) }
{
    let output = Shared::new(alloc, error_output(alloc, error)?)?;
    let path = catcher.result_path();
    let Some(caught) = add_put(alloc, out, Part::Catch, path, input, output)? else {
        return Ok(());
    };
    add_limit(alloc, out, &caught)
}

/// Adds what a state's `Catch` makes of an error, where it catches it.
fn add_handled(
    alloc: Global,
    out: &mut Vec<Stage>,
    completion: &Completion,
    visit: &Visit,
    input: &Shared,
    error: Option<ErrorOut>,
) -> Result<(), AllocError>
    ensures { OnOk result (out.new.items ≡ out.old.items ++ caught_stages
        (value_in (codes "Retry") (completion_object completion.now))
        (value_in (codes "Catch") (completion_object completion.now)) (seen visit.now) input.now
        error) }
{
    let Some(error) = error else {
        return Ok(());
    };
    let policy = Policy {
        retriers: completion.retry(),
        catchers: completion.catch(),
    };
    match policy.decide(error.name(), visit.current.uses(), visit.moment) {
        Decision::Again { .. } => Ok(()),
        Decision::Caught { catcher } => add_caught(alloc, out, catcher, input, &error),
        Decision::Unhandled => Ok(()),
    }
}

/// The error that these stages raise, where they do.
fn error_of(alloc: Global, stages: &[Stage]) -> Result<Option<ErrorOut>, AllocError>
    ensures { IfOk result (λ o. o ≡ raised_in stages.now) }
{
    match raised_in(stages) {
        Some(error) => Ok(Some(error.try_clone(alloc)?)),
        None => Ok(None),
    }
}

/// Adds the stages behind the error or the output with which these end.
pub(crate) fn settle(
    alloc: Global,
    out: &mut Vec<Stage>,
    completion: &Completion,
    visit: &Visit,
    input: &Shared,
    output: Option<&Shared>,
) -> Result<(), AllocError>
    ensures { OnOk result (out.new.items ≡ settled
        (value_in (codes "Retry") (completion_object completion.now))
        (value_in (codes "Catch") (completion_object completion.now)) (seen visit.now) input.now
        out.old.items (option_map (λ z. z.now) output.entry)) }
{
    let error = error_of(alloc, out)?;
    add_handled(alloc, out, completion, visit, input, error)?;
    leave(alloc, out, output)
}

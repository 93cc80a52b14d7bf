// What a state does with an error that it raises.
ghost use Rattle.std.specs.Prelude.{◌≡◌, None, IfOk, codes, option_map};
ghost use Rattle.asl_json_data.specs.Data.{list, chain};
ghost use Rattle.asl_json.specs.Meaning.{value_in};
ghost use Rattle.asl_def_shared.specs.Member.{completion_object};
ghost use Rattle.asl_def_schema.specs.Claims.{item_count};
ghost use Rattle.asl_handle.specs.Decisions.{caught, handlers_in};
ghost use Rattle.asl_step.specs.Seen.{seen};
ghost use Rattle.asl_def_shared.specs.Parts.{catcher_object};
ghost use Rattle.asl_step_io.specs.Paths.{Given};
ghost use Rattle.asl_step_io.specs.Gives.{Gives};
ghost use Rattle.asl_kinds.specs.Members.{next_in};
ghost use Rattle.asl_kinds.specs.Table.{handled, raised, settled};

use crate::passing::{passed, target};
use asl_def_fields::Retriers;
use asl_def_shared::{Catcher, Completion};
use asl_handle::{Decision, Policy};
use asl_history::EventKind;
use asl_json_shared::Shared;
use asl_step::{Effect, ErrorOut, Progress, Visit, error_output, failing, leaving, retrying};
use asl_step_io::{Fault, put_into};
use std::alloc::{AllocError, Global};

/// How many retriers there are.
pub(crate) fn count_of(retriers: Option<&Retriers>) -> usize
    ensures { result ≡ item_count
        (handlers_in (option_map (λ rs. list (chain rs.now)) retriers.entry)) }
{
    match retriers {
        Some(retriers) => retriers.as_slice().len(),
        None => 0,
    }
}

/// The error is put into the raw input by the catcher's `ResultPath`, and the execution goes on at its `Next`.
fn caught(
    alloc: Global,
    catcher: &Catcher,
    visit: &Visit,
    done: Progress,
    exited: EventKind,
    input: &Shared,
    error: &ErrorOut,
) -> Result<Effect, AllocError>
    ensures { IfOk result (λ e. e
        ≡ handled None (seen visit.now) done exited input.now error.now
        (caught (catcher_object catcher.now))) }
{
    let output = Shared::new(alloc, error_output(alloc, error)?)?;
    let given = put_into(alloc, catcher.result_path(), input, output);
    let next = catcher.next().name.as_str();
    passed(alloc, visit, done, exited, Some(next), given)
}

/// What a state does with an error that it raises, by its `Retry` and its `Catch`.
pub(crate) fn raise(
    alloc: Global,
    completion: &Completion,
    visit: &Visit,
    done: Progress,
    exited: EventKind,
    input: &Shared,
    error: ErrorOut,
) -> Result<Effect, AllocError>
    ensures { IfOk result (λ e. e
        ≡ raised (value_in (codes "Retry") (completion_object completion.now))
        (value_in (codes "Catch") (completion_object completion.now)) (seen visit.now) done exited
        input.now error) }
{
    let policy = Policy {
        retriers: completion.retry(),
        catchers: completion.catch(),
    };
    match policy.decide(error.name(), visit.current.uses(), visit.moment) {
        Decision::Again { retrier, until } => {
            let retriers = count_of(completion.retry());
            retrying(alloc, visit, done, input, retriers, retrier, until)
        }
        Decision::Caught { catcher } => caught(alloc, catcher, visit, done, exited, input, &error),
        Decision::Unhandled => failing(alloc, visit, done, error),
    }
}

/// A state is left with what it gives, or raises an error.
pub(crate) fn settled(
    alloc: Global,
    completion: &Completion,
    visit: &Visit,
    done: Progress,
    exited: EventKind,
    input: &Shared,
    given: Result<Shared, Fault>,
) -> Result<Effect, AllocError>
    ensures { (g : Given) → Gives g given
        → IfOk result
        (λ e. e ≡ settled (value_in (codes "Retry") (completion_object completion.now))
        (value_in (codes "Catch") (completion_object completion.now))
        (next_in (completion_object completion.now)) (seen visit.now) done exited input.now g) }
{
    match given {
        Ok(output) => leaving(
            alloc,
            visit,
            done,
            exited,
            target(completion.next()),
            output,
        ),
        Err(Fault::Raised(error)) => raise(alloc, completion, visit, done, exited, input, error),
        Err(Fault::Memory) => Err(AllocError),
    }
}

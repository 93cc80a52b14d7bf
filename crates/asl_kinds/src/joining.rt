// What becomes of a state whose branches have ended.
ghost use Rattle.std.specs.Prelude.{◌≡◌, map, option_map, IfOk};
ghost use Rattle.asl_def_shared.specs.Member.{completion_object};
ghost use Rattle.asl_step.specs.Context.{context_of};
ghost use Rattle.asl_step.specs.Seen.{seen};
ghost use Rattle.asl_kinds.specs.Forks.{forked_with, error_in, first_error, output_in, outputs, gathered};
ghost use Rattle.asl_kinds.specs.Table.{branch_fails, branches_end, joined};

use crate::making::selected;
use crate::raising::{raise, settled};
use asl_def_shared::Completion;
use asl_history::EventKind;
use asl_json::{Items, Json};
use asl_json_shared::Shared;
use asl_step::{
    Children, Context, Drafts, Effect, ErrorOut, Progress, Record, Visit, error_output, idle,
    telling,
};
use asl_step_io::empty_object;
use std::alloc::{AllocError, Global};

/// The raw input of a state that waits for its branches.
pub(crate) fn forked(current: &Record) -> Option<&Shared>
    ensures { option_map (λ x. x.now) result ≡ forked_with current.now }
{
    match current {
        Record::Forked { input, .. } => Some(input),
        _ => None,
    }
}

/// The error of a branch that has failed.
fn error_of(branch: &Record) -> Option<&ErrorOut>
    ensures { option_map (λ e. e.now) result ≡ error_in branch.now }
{
    match branch {
        Record::Failed(error) => Some(error),
        _ => None,
    }
}

/// The error of the first branch that has failed.
pub fn first_error<'a>(branches: &'a [&'a Record]) -> Option<&'a ErrorOut>
    ensures { option_map (λ e. e.now) result ≡ first_error (map (λ r. r.now) branches.now) }
{
    for branch in branches {
        if let Some(error) = error_of(branch) {
            return Some(error);
        }
    }
    None
}

/// The output of a branch that has ended well.
fn output_of(branch: &Record) -> Option<&Shared>
    ensures { option_map (λ x. x.now) result ≡ output_in branch.now }
{
    match branch {
        Record::Done(output) => Some(output),
        _ => None,
    }
}

/// The outputs in the order of the branches; none where one of them hasn't ended well.
pub fn outputs(alloc: Global, branches: &[&Record]) -> Result<Option<Items>, AllocError>
    ensures { IfOk result (λ o. o ≡ outputs (map (λ r. r.now) branches.now)) }
{
    let mut outputs = Vec::with_capacity(alloc, branches.len())?;
    for branch in branches {
        let Some(output) = output_of(branch) else {
            return Ok(None);
        };
        outputs.push(output.get().try_clone(alloc)?)?;
    }
    Ok(Some(Items::of_values(outputs)))
}

/// The branches are taken away.
fn gathered(alloc: Global) -> Progress
    ensures { result ≡ gathered }
{
    Progress {
        children: Children::Removed,
        raises: false,
        events: Drafts::new(alloc),
    }
}

/// A branch has failed: the state raises the branch's error.
fn branch_fails(
    alloc: Global,
    completion: &Completion,
    visit: &Visit,
    failed: EventKind,
    exited: EventKind,
    input: &Shared,
    error: ErrorOut,
) -> Result<Effect, AllocError>
    ensures { IfOk result (λ e. e
        ≡ branch_fails failed exited (completion_object completion.now) (seen visit.now) input.now
        error) }
{
    let told = Shared::new(alloc, error_output(alloc, &error)?)?;
    let done = telling(alloc, visit, gathered(alloc), failed, told)?;
    raise(alloc, completion, visit, done, exited, input, error)
}

/// All branches have ended: the list of their outputs is the state's result.
fn branches_end(
    alloc: Global,
    completion: &Completion,
    visit: &Visit,
    context: &mut Context,
    succeeded: EventKind,
    exited: EventKind,
    input: &Shared,
    outputs: Items,
) -> Result<Effect, AllocError>
    ensures effect { IfOk result (λ e. e
        ≡ branches_end succeeded exited (completion_object completion.now)
        (context_of context.old.facts (seen visit.now)) (seen visit.now) input.now outputs) }
    ensures facts { context.new.facts ≡ context.old.facts }
{
    let done = telling(
        alloc,
        visit,
        gathered(alloc),
        succeeded,
        empty_object(alloc)?,
    )?;
    let outputs = Shared::new(alloc, Json::List(outputs))?;
    let given = selected(alloc, completion, input, outputs, visit, context);
    settled(alloc, completion, visit, done, exited, input, given)
}

/// Branches are joined as soon as one has failed, or all have ended; nothing happens while they go on. The kinds of events say what
/// is told where the branches succeed, where one fails, and where the state is left.
pub(crate) fn join(
    alloc: Global,
    completion: &Completion,
    visit: &Visit,
    context: &mut Context,
    succeeded: EventKind,
    failed: EventKind,
    exited: EventKind,
    input: &Shared,
) -> Result<Effect, AllocError>
    ensures effect { IfOk result (λ e. e
        ≡ joined succeeded failed exited (completion_object completion.now)
        (context_of context.old.facts (seen visit.now)) (seen visit.now) input.now) }
    ensures facts { context.new.facts ≡ context.old.facts }
{
    if let Some(error) = first_error(visit.children) {
        let error = error.try_clone(alloc)?;
        return branch_fails(alloc, completion, visit, failed, exited, input, error);
    }
    match outputs(alloc, visit.children)? {
        Some(outputs) => {
            branches_end(
                alloc, completion, visit, context, succeeded, exited, input, outputs,
            )
        }
        None => idle(alloc, visit.current),
    }
}

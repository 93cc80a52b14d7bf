// The Tasks of a definition with the errors that are put into each.
ghost use Rattle.std.specs.Prelude.{◌≡◌, [], IfOk, map};
ghost use Rattle.asl_task_errors.specs.View.{all_told, told};
ghost use Rattle.asl_explore_errors.specs.Searches.{names_in, tasks_failing, with_errors};

use asl_def::Machine;
use asl_json::Txt;
use asl_task_errors::{TaskErrors, errors_of_tasks};
use std::alloc::{AllocError, Global};

/// Names as texts. The error is that memory ran out.
fn texts_of(alloc: Global, names: &[&str]) -> Result<Vec<Txt>, AllocError>
    ensures { IfOk result (λ v. v.items ≡ names_in names.now) }
{
    let mut texts = Vec::with_capacity(alloc, names.len())?;
    for name in names {
        texts.push(Txt::of(alloc, name)?)?;
    }
    Ok(texts)
}

/// A Task with the errors of these names in place of its own. The error is that memory ran out.
fn with_errors(alloc: Global, task: &TaskErrors, names: &[&str]) -> Result<TaskErrors, AllocError>
    ensures { IfOk result (λ t. told t ≡ with_errors (names_in names.now) (told task.now)) }
{
    Ok(TaskErrors {
        state: task.state.try_clone(alloc)?,
        errors: texts_of(alloc, names)?,
    })
}

/// Each Task with the errors of these names in place of its own. The error is that memory ran out.
fn all_with_errors(
    alloc: Global,
    tasks: &[TaskErrors],
    names: &[&str],
) -> Result<Vec<TaskErrors>, AllocError>
    ensures { IfOk result (λ v. all_told v.items ≡ map (with_errors (names_in names.now)) (all_told tasks.now)) }
{
    let mut all = Vec::with_capacity(alloc, tasks.len())?;
    for task in tasks {
        all.push(with_errors(alloc, task, names)?)?;
    }
    Ok(all)
}

/// The Tasks of a definition, each with the errors that retriers and catchers tell apart, or with those of these names, if there are any. The error is that
/// memory ran out.
pub(crate) fn tasks_failing(
    alloc: Global,
    machine: &Machine,
    names: &[&str],
) -> Result<Vec<TaskErrors>, AllocError>
    ensures { IfOk result (λ v. all_told v.items ≡ tasks_failing (names_in names.now) machine.now) }
{
    let definition = machine.json(alloc)?;
    let tasks = errors_of_tasks(alloc, &definition)?;
    match names {
        [] => Ok(tasks),
        [_, ..] => all_with_errors(alloc, &tasks, names),
    }
}

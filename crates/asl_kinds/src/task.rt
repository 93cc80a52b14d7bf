// Task (ASL, "Task State"): the test case answers in the service's place.
ghost use Rattle.std.specs.Prelude.{◌≡◌, IfOk, option_map};
ghost use Rattle.asl_def_states.specs.Show.{task_object};
ghost use Rattle.asl_step.specs.Context.{context_of};
ghost use Rattle.asl_step.specs.Seen.{seen};
ghost use Rattle.asl_kinds.specs.Members.{no_answer};
ghost use Rattle.asl_kinds.specs.Table.{invoked, task_fails, task_returns, task_answered};

use crate::kind::StateKind;
use crate::making::{effective, selected};
use crate::raising::{raise, settled};
use asl_def_states::Task;
use asl_history::EventKind;
use asl_json::{Json, clone_text};
use asl_json_shared::Shared;
use asl_mock::{Answer, answer};
use asl_step::{
    Context, Effect, ErrorOut, Progress, Visit, beginning, error_output, idle, is_within_limit,
    over_limit, telling,
};
use asl_step_io::{Fault, copied, empty_object, raised};
use std::alloc::{AllocError, Global};

/// The service is invoked with this input: the count is raised.
fn invoked(
    alloc: Global,
    visit: &Visit,
    done: Progress,
    effective: Shared,
) -> Result<Progress, AllocError>
    ensures { IfOk result (λ d. d ≡ invoked (seen visit.now) done effective) }
{
    let done = telling(alloc, visit, done, EventKind::TaskScheduled, effective)?;
    let started = empty_object(alloc)?;
    let Progress {
        children,
        events,
        ..
    } = telling(alloc, visit, done, EventKind::TaskStarted, started)?;
    Ok(Progress {
        children,
        raises: true,
        events,
    })
}

/// No answer of the test case is for this invocation.
pub fn no_answer(alloc: Global) -> Result<ErrorOut, AllocError>
    ensures { IfOk result (λ e. e ≡ no_answer) }
{
    match raised(alloc, "States.Runtime", "no mocked answer") {
        Fault::Raised(error) => Ok(error),
        Fault::Memory => Err(AllocError),
    }
}

/// The service fails with this error.
fn fails(
    alloc: Global,
    task: &Task,
    visit: &Visit,
    done: Progress,
    input: &Shared,
    error: ErrorOut,
) -> Result<Effect, AllocError>
    ensures { IfOk result (λ e. e
        ≡ task_fails (task_object task.now) (seen visit.now) done input.now error) }
{
    let told = Shared::new(alloc, error_output(alloc, &error)?)?;
    let done = telling(alloc, visit, done, EventKind::TaskFailed, told)?;
    let completion = task.completion();
    raise(
        alloc,
        completion,
        visit,
        done,
        EventKind::TaskStateExited,
        input,
        error,
    )
}

/// The service returns this value.
fn returns(
    alloc: Global,
    task: &Task,
    visit: &Visit,
    context: &mut Context,
    done: Progress,
    input: &Shared,
    value: &Json,
) -> Result<Effect, AllocError>
    ensures effect { IfOk result (λ e. e
        ≡ task_returns (task_object task.now) (context_of context.old.facts (seen visit.now))
        (seen visit.now) done input.now value.now) }
    ensures facts { context.new.facts ≡ context.old.facts }
{
    let value = copied(alloc, value)?;
    let told = value.try_clone()?;
    let done = telling(alloc, visit, done, EventKind::TaskSucceeded, told)?;
    let completion = task.completion();
    let given = selected(alloc, completion, input, value, visit, context);
    settled(
        alloc,
        completion,
        visit,
        done,
        EventKind::TaskStateExited,
        input,
        given,
    )
}

/// What a Task does that was invoked and gets this answer.
fn answered(
    alloc: Global,
    task: &Task,
    visit: &Visit,
    context: &mut Context,
    done: Progress,
    input: &Shared,
    answer: Option<&Answer>,
) -> Result<Effect, AllocError>
    ensures effect { IfOk result (λ e. e
        ≡ task_answered (task_object task.now) (context_of context.old.facts (seen visit.now))
        (seen visit.now) done input.now (option_map (λ a. a.now) answer.entry)) }
    ensures facts { context.new.facts ≡ context.old.facts }
{
    match answer {
        Some(Answer::Returns(value)) if is_within_limit(value) => {
            returns(alloc, task, visit, context, done, input, value)
        }
        Some(Answer::Returns(_)) => fails(alloc, task, visit, done, input, over_limit(alloc)?),
        Some(Answer::Throws { error, cause }) => {
            let error = Some(error.try_clone(alloc)?);
            let cause = clone_text(alloc, cause)?;
            fails(alloc, task, visit, done, input, ErrorOut { error, cause })
        }
        None => fails(alloc, task, visit, done, input, no_answer(alloc)?),
    }
}

impl StateKind for Task {
    ghost use Rattle.std.specs.Prelude.{true};
    ghost use Rattle.asl_def_states.specs.Show.{task_object};
    ghost use Rattle.asl_kinds.specs.Table.{task_effect};
    ghost use Rattle.asl_kinds.specs.private.Laws.{task-lawful};

    ghost effect = { λ k. task_effect (task_object k) };

    ghost is_invoking = { λ k. true };

    ghost slots = { λ k. 0 };

    ghost bounded = { λ k f v. (task-lawful (task_object k) f v).bounds };

    ghost use Rattle.asl_kinds.specs.private.Telling.{task-told};

    ghost entered = { λ k. task-told (task_object k) };

    fn visit(
        &self,
        alloc: Global,
        visit: &Visit,
        context: &mut Context,
    ) -> Result<Effect, AllocError> {
        let Some(input) = visit.current.beginning() else {
            return idle(alloc, visit.current);
        };
        let done = beginning(alloc, visit, EventKind::TaskStateEntered, input)?;
        let (path, parameters) = (self.input_path(), self.parameters());
        match effective(alloc, path, parameters, input, visit, context) {
            Ok(value) => {
                let done = invoked(alloc, visit, done, value)?;
                let answer = answer(visit.case, visit.current.name(), visit.count);
                answered(alloc, self, visit, context, done, input, answer)
            }
            Err(Fault::Raised(error)) => {
                let completion = self.completion();
                raise(
                    alloc,
                    completion,
                    visit,
                    done,
                    EventKind::TaskStateExited,
                    input,
                    error,
                )
            }
            Err(Fault::Memory) => Err(AllocError),
        }
    }

    fn invokes(&self) -> bool {
        true
    }

    fn slots(&self) -> u32 {
        0
    }
}

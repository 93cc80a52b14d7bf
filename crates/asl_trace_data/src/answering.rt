// Answers, and Task: the test case answers in the service's place.
ghost use Rattle.std.specs.Prelude.{◌≡◌, ◌++◌, IfOk, OnOk, option_map};
ghost use Rattle.std.specs.Result.{result_ok};
ghost use Rattle.asl_json_data.specs.Results.{◌>>=◌ as and_then};
ghost use Rattle.asl_def_fields.specs.Shown.{path_shown};
ghost use Rattle.asl_mock.specs.Answers.{answer_to};
ghost use Rattle.asl_def_shared.specs.Member.{completion_object};
ghost use Rattle.asl_def_states.specs.Show.{task_object};
ghost use Rattle.asl_step.specs.Context.{context_of};
ghost use Rattle.asl_step.specs.Records.{beginning_with};
ghost use Rattle.asl_step.specs.Seen.{seen};
ghost use Rattle.asl_kinds.specs.Members.{effective_by, selected};
ghost use Rattle.asl_trace_data.specs.Kinds.{answered, answer_of, answer_stages, task_by, settled_of, task_step};

use crate::leaving::settle;
use crate::making::{add_effective, add_selected};
use crate::part::Part;
use crate::stage::{Stage, add_given, add_value};
use asl_def_fields::PathField;
use asl_def_shared::Completion;
use asl_def_states::Task;
use asl_json::clone_text;
use asl_json_shared::Shared;
use asl_kinds::no_answer;
use asl_mock::{Answer, answer};
use asl_step::{Context, ErrorOut, Visit, is_within_limit, over_limit};
use asl_step_io::copied;
use asl_template::Template;
use std::alloc::{AllocError, Global};

/// What the service answers that answers this. The error is that memory ran out, here and below.
fn answered(alloc: Global, answer: Option<&Answer>) -> Result<Result<Shared, ErrorOut>, AllocError>
    ensures { IfOk result (λ g. g ≡ answered (option_map (λ a. a.now) answer.entry)) }
{
    match answer {
        Some(Answer::Returns(value)) if is_within_limit(value) => Ok(Ok(copied(alloc, value)?)),
        Some(Answer::Returns(_)) => Ok(Err(over_limit(alloc)?)),
        Some(Answer::Throws { error, cause }) => {
            let error = Some(error.try_clone(alloc)?);
            let cause = clone_text(alloc, cause)?;
            Ok(Err(ErrorOut { error, cause }))
        }
        None => Ok(Err(no_answer(alloc)?)),
    }
}

/// What the service answers by the test case.
fn answer_of(alloc: Global, visit: &Visit) -> Result<Result<Shared, ErrorOut>, AllocError>
    ensures { IfOk result (λ g. g ≡ answer_of (seen visit.now)) }
{
    answered(alloc, answer(visit.case, visit.current.name(), visit.count))
}

/// Adds an answer, and what becomes of it, and answers the output, where there is one.
#[tactic(auto, using(crate::proofs::Giving::then_given, crate::proofs::Giving::then_none))]
pub(crate) fn add_answer(
    alloc: Global,
    out: &mut Vec<Stage>,
    completion: &Completion,
    answer: Result<Shared, ErrorOut>,
    input: &Shared,
    visit: &Visit,
    context: &mut Context,
) -> Result<Option<Shared>, AllocError>
    ensures stages { OnOk result (out.new.items ≡ out.old.items
        ++ answer_stages (completion_object completion.now) input.now
        (context_of context.old.facts (seen visit.now)) answer) }
    ensures value { IfOk result (λ o. o
        ≡ result_ok (and_then answer (selected (completion_object completion.now) input.now
        (context_of context.old.facts (seen visit.now))))) }
    ensures facts { context.new.facts ≡ context.old.facts }
{
    let Some(answer) = add_given(out, Part::Result, answer)? else {
        return Ok(None);
    };
    add_selected(alloc, out, completion, input, answer, visit, context)
}

/// Adds the stages of an invocation that gets this answer, and answers the output, where there is one.
#[tactic(auto, using(crate::proofs::Giving::then_given, crate::proofs::Giving::then_none))]
fn add_task(
    alloc: Global,
    out: &mut Vec<Stage>,
    input_path: &PathField,
    parameters: Option<&Template>,
    completion: &Completion,
    answer: Result<Shared, ErrorOut>,
    input: &Shared,
    visit: &Visit,
    context: &mut Context,
) -> Result<Option<Shared>, AllocError>
    ensures stages { OnOk result (out.new.items ≡ out.old.items
        ++ task_by (path_shown input_path.now) (option_map (λ t. t.now) parameters.entry)
        (completion_object completion.now) input.now
        (context_of context.old.facts (seen visit.now)) answer) }
    ensures value { IfOk result (λ o. o ≡ result_ok (and_then
        (effective_by (path_shown input_path.now) (option_map (λ t. t.now) parameters.entry)
        input.now (context_of context.old.facts (seen visit.now)))
        (λ y. and_then answer (selected (completion_object completion.now) input.now
        (context_of context.old.facts (seen visit.now)))))) }
    ensures facts { context.new.facts ≡ context.old.facts }
{
    add_value(out, Part::Input, input.try_clone()?)?;
    let effective = add_effective(alloc, out, input_path, parameters, input, visit, context)?;
    let Some(_value) = effective else {
        return Ok(None);
    };
    add_answer(alloc, out, completion, answer, input, visit, context)
}

/// The stages of an invocation that gets this answer.
fn invocation(
    alloc: Global,
    input_path: &PathField,
    parameters: Option<&Template>,
    completion: &Completion,
    answer: Result<Shared, ErrorOut>,
    input: &Shared,
    visit: &Visit,
    context: &mut Context,
) -> Result<Vec<Stage>, AllocError>
    ensures stages { IfOk result (λ ss. ss.items ≡ settled_of (completion_object completion.now)
        (seen visit.now) input.now
        (task_by (path_shown input_path.now) (option_map (λ t. t.now) parameters.entry)
        (completion_object completion.now) input.now
        (context_of context.old.facts (seen visit.now)) answer)
        (result_ok (and_then
        (effective_by (path_shown input_path.now) (option_map (λ t. t.now) parameters.entry)
        input.now (context_of context.old.facts (seen visit.now)))
        (λ y. and_then answer (selected (completion_object completion.now) input.now
        (context_of context.old.facts (seen visit.now))))))) }
    ensures facts { context.new.facts ≡ context.old.facts }
{
    let mut out = Vec::new(alloc);
    let output = add_task(
        alloc, &mut out, input_path, parameters, completion, answer, input, visit, context,
    )?;
    settle(alloc, &mut out, completion, visit, input, output.as_ref())?;
    Ok(out)
}

pub(crate) fn of_task(
    alloc: Global,
    task: &Task,
    visit: &Visit,
    context: &mut Context,
) -> Result<Vec<Stage>, AllocError>
    ensures stages { IfOk result (λ ss. ss.items ≡ task_step (task_object task.now)
        context.old.facts (seen visit.now) (beginning_with visit.now.current.now)) }
    ensures facts { context.new.facts ≡ context.old.facts }
{
    let Some(input) = visit.current.beginning() else {
        return Ok(Vec::new(alloc));
    };
    let answer = answer_of(alloc, visit)?;
    let (path, parameters) = (task.input_path(), task.parameters());
    let completion = task.completion();
    invocation(
        alloc, path, parameters, completion, answer, input, visit, context,
    )
}

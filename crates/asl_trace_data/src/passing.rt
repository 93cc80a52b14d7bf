// Pass, Succeed, Wait and Fail.
ghost use Rattle.std.specs.Prelude.{◌≡◌, ◌++◌, IfOk, OnOk, option_map, codes, Some};
ghost use Rattle.std.specs.Result.{result_ok};
ghost use Rattle.asl_json_data.specs.Results.{◌>>=◌ as and_then};
ghost use Rattle.asl_json.specs.View.{data_of};
ghost use Rattle.asl_def_fields.specs.Shown.{path_shown};
ghost use Rattle.asl_def_states.specs.Show.{pass_object, succeed_object, wait_object, fail_object};
ghost use Rattle.asl_step.specs.Context.{context_of};
ghost use Rattle.asl_step.specs.Records.{entering_with, pausing_with};
ghost use Rattle.asl_step.specs.Seen.{seen};
ghost use Rattle.asl_step_io.specs.Paths.{taken};
ghost use Rattle.asl_kinds.specs.Members.{effective_by, placed_by, result_or};
ghost use Rattle.asl_kinds.specs.Forks.{error_in};
ghost use Rattle.asl_trace_data.specs.Stages.{left};
ghost use Rattle.asl_trace_data.specs.Kinds.{pass_by, pass_step, passing_by, passing_step, waiting_stages, wait_step, fail_step};

use crate::leaving::leave;
use crate::making::{add_effective, add_placed, add_taken};
use crate::part::Part;
use crate::stage::{Stage, add_error, add_value};
use asl_def_fields::PathField;
use asl_def_states::{Fail, Pass, Succeed, Wait};
use asl_json::Json;
use asl_json_shared::Shared;
use asl_kinds::{StateKind, result_or};
use asl_step::{Context, ErrorOut, Record, Visit};
use asl_template::Template;
use std::alloc::{AllocError, Global};

/// The members by which a Pass makes its data; `answer` is `Result`.
#[derive(Clone, Copy)]
struct PassMembers<'a> {
    input_path: &'a PathField,
    parameters: Option<&'a Template>,
    answer: Option<&'a Json>,
    result_path: &'a PathField,
    output_path: &'a PathField,
}

/// Adds the stages of a Pass with these members, and answers its output, where it has one. The error is that memory ran out,
/// here and below.
#[tactic(auto, using(crate::proofs::Giving::then_given, crate::proofs::Giving::then_none))]
fn add_pass(
    alloc: Global,
    out: &mut Vec<Stage>,
    pass: &PassMembers<'_>,
    input: &Shared,
    visit: &Visit,
    context: &mut Context,
) -> Result<Option<Shared>, AllocError>
    ensures stages { OnOk result (out.new.items ≡ out.old.items ++ pass_by
        (path_shown pass.now.input_path.now) (option_map (λ t. t.now) pass.now.parameters)
        (option_map (λ w. data_of w.now) pass.now.answer) (path_shown pass.now.result_path.now)
        (path_shown pass.now.output_path.now) input.now
        (context_of context.old.facts (seen visit.now))) }
    ensures value { IfOk result (λ o. o ≡ result_ok (and_then (effective_by
        (path_shown pass.now.input_path.now) (option_map (λ t. t.now) pass.now.parameters)
        input.now (context_of context.old.facts (seen visit.now)))
        (λ y. placed_by (path_shown pass.now.result_path.now)
        (path_shown pass.now.output_path.now) input.now
        (context_of context.old.facts (seen visit.now))
        (result_or (option_map (λ w. data_of w.now) pass.now.answer) y)))) }
    ensures facts { context.new.facts ≡ context.old.facts }
{
    add_value(out, Part::Input, input.try_clone()?)?;
    let (path, parameters) = (pass.input_path, pass.parameters);
    let Some(value) = add_effective(alloc, out, path, parameters, input, visit, context)? else {
        return Ok(None);
    };
    let answer = result_or(alloc, pass.answer, value)?;
    add_value(out, Part::Result, answer.try_clone()?)?;
    let (path, output) = (pass.result_path, pass.output_path);
    add_placed(alloc, out, path, output, input, answer, visit, context)
}

/// The stages of a Pass with these members.
fn passes(
    alloc: Global,
    pass: &PassMembers<'_>,
    input: &Shared,
    visit: &Visit,
    context: &mut Context,
) -> Result<Vec<Stage>, AllocError>
    ensures stages { IfOk result (λ ss. ss.items ≡ left (pass_by
        (path_shown pass.now.input_path.now) (option_map (λ t. t.now) pass.now.parameters)
        (option_map (λ w. data_of w.now) pass.now.answer) (path_shown pass.now.result_path.now)
        (path_shown pass.now.output_path.now) input.now
        (context_of context.old.facts (seen visit.now)))
        (result_ok (and_then (effective_by
        (path_shown pass.now.input_path.now) (option_map (λ t. t.now) pass.now.parameters)
        input.now (context_of context.old.facts (seen visit.now)))
        (λ y. placed_by (path_shown pass.now.result_path.now)
        (path_shown pass.now.output_path.now) input.now
        (context_of context.old.facts (seen visit.now))
        (result_or (option_map (λ w. data_of w.now) pass.now.answer) y))))) }
    ensures facts { context.new.facts ≡ context.old.facts }
{
    let mut out = Vec::new(alloc);
    let output = add_pass(alloc, &mut out, pass, input, visit, context)?;
    leave(alloc, &mut out, output.as_ref())?;
    Ok(out)
}

pub(crate) fn of_pass(
    alloc: Global,
    pass: &Pass,
    visit: &Visit,
    context: &mut Context,
) -> Result<Vec<Stage>, AllocError>
    ensures stages { IfOk result (λ ss. ss.items ≡ pass_step (pass_object pass.now)
        context.old.facts (seen visit.now) (entering_with visit.now.current.now)) }
    ensures facts { context.new.facts ≡ context.old.facts }
{
    let Some(input) = visit.current.entering() else {
        return Ok(Vec::new(alloc));
    };
    let members = PassMembers {
        input_path: pass.input_path(),
        parameters: pass.parameters(),
        answer: pass.result(),
        result_path: pass.result_path(),
        output_path: pass.output_path(),
    };
    passes(alloc, &members, input, visit, context)
}

/// Adds the stages of a state that has these two paths alone, and answers its output, where it has one.
#[tactic(auto, using(crate::proofs::Giving::then_given, crate::proofs::Giving::then_none))]
fn add_passing(
    alloc: Global,
    out: &mut Vec<Stage>,
    input_path: &PathField,
    output_path: &PathField,
    input: &Shared,
    visit: &Visit,
    context: &mut Context,
) -> Result<Option<Shared>, AllocError>
    ensures stages { OnOk result (out.new.items ≡ out.old.items ++ passing_by
        (path_shown input_path.now) (path_shown output_path.now) input.now
        (context_of context.old.facts (seen visit.now))) }
    ensures value { IfOk result (λ o. o ≡ result_ok (and_then (taken (codes "InputPath")
        (path_shown input_path.now) input.now (context_of context.old.facts (seen visit.now)))
        (λ y. taken (codes "OutputPath") (path_shown output_path.now) y
        (context_of context.old.facts (seen visit.now))))) }
    ensures facts { context.new.facts ≡ context.old.facts }
{
    add_value(out, Part::Input, input.try_clone()?)?;
    let part = Part::InputPath;
    let Some(value) = add_taken(alloc, out, part, input_path, input, visit, context)? else {
        return Ok(None);
    };
    let part = Part::OutputPath;
    add_taken(alloc, out, part, output_path, &value, visit, context)
}

/// The stages of a state that has these two paths alone.
fn passes_on(
    alloc: Global,
    input_path: &PathField,
    output_path: &PathField,
    input: &Shared,
    visit: &Visit,
    context: &mut Context,
) -> Result<Vec<Stage>, AllocError>
    ensures stages { IfOk result (λ ss. ss.items ≡ left (passing_by
        (path_shown input_path.now) (path_shown output_path.now) input.now
        (context_of context.old.facts (seen visit.now)))
        (result_ok (and_then (taken (codes "InputPath")
        (path_shown input_path.now) input.now (context_of context.old.facts (seen visit.now)))
        (λ y. taken (codes "OutputPath") (path_shown output_path.now) y
        (context_of context.old.facts (seen visit.now)))))) }
    ensures facts { context.new.facts ≡ context.old.facts }
{
    let mut out = Vec::new(alloc);
    let output = add_passing(
        alloc,
        &mut out,
        input_path,
        output_path,
        input,
        visit,
        context,
    )?;
    leave(alloc, &mut out, output.as_ref())?;
    Ok(out)
}

pub(crate) fn of_succeed(
    alloc: Global,
    succeed: &Succeed,
    visit: &Visit,
    context: &mut Context,
) -> Result<Vec<Stage>, AllocError>
    ensures stages { IfOk result (λ ss. ss.items ≡ passing_step (succeed_object succeed.now)
        context.old.facts (seen visit.now) (entering_with visit.now.current.now)) }
    ensures facts { context.new.facts ≡ context.old.facts }
{
    let Some(input) = visit.current.entering() else {
        return Ok(Vec::new(alloc));
    };
    let (path, output) = (succeed.input_path(), succeed.output_path());
    passes_on(alloc, path, output, input, visit, context)
}

/// The error with which a branch fails, where it does.
fn failed_with(alloc: Global, after: &Record) -> Result<Option<ErrorOut>, AllocError>
    ensures { IfOk result (λ o. o ≡ error_in after.now) }
{
    match after {
        Record::Failed(error) => Ok(Some(error.try_clone(alloc)?)),
        _ => Ok(None),
    }
}

/// The error with which the step of a state fails, where it does.
pub(crate) fn failure_of<K: StateKind>(
    alloc: Global,
    state: &K,
    visit: &Visit,
    context: &mut Context,
) -> Result<Option<ErrorOut>, AllocError>
    ensures error { IfOk result (λ o. o
        ≡ error_in (K.effect state.now context.old.facts (seen visit.now)).after) }
    ensures facts { context.new.facts ≡ context.old.facts }
{
    let effect = state.visit(alloc, visit, context)?;
    failed_with(alloc, &effect.after)
}

/// The stages of a Wait that is entered.
fn add_waiting(
    alloc: Global,
    out: &mut Vec<Stage>,
    wait: &Wait,
    input: &Shared,
    visit: &Visit,
    context: &mut Context,
) -> Result<(), AllocError>
    requires { Some input.now ≡ entering_with visit.now.current.now }
    ensures stages { OnOk result (out.new.items ≡ out.old.items ++ waiting_stages
        (wait_object wait.now) visit.now.moment input.now
        (context_of context.old.facts (seen visit.now))) }
    ensures facts { context.new.facts ≡ context.old.facts }
{
    add_value(out, Part::Input, input.try_clone()?)?;
    let (part, path) = (Part::InputPath, wait.input_path());
    let Some(_value) = add_taken(alloc, out, part, path, input, visit, context)? else {
        return Ok(());
    };
    let error = failure_of(alloc, wait, visit, context)?;
    add_error(out, Part::Delay, error)
}

/// The stages of a Wait that is over.
fn of_wait_over(
    alloc: Global,
    wait: &Wait,
    visit: &Visit,
    context: &mut Context,
) -> Result<Vec<Stage>, AllocError>
    ensures stages { IfOk result (λ ss. ss.items ≡ passing_step (wait_object wait.now)
        context.old.facts (seen visit.now) (pausing_with visit.now.current.now)) }
    ensures facts { context.new.facts ≡ context.old.facts }
{
    let Some(input) = visit.current.pausing() else {
        return Ok(Vec::new(alloc));
    };
    let (path, output) = (wait.input_path(), wait.output_path());
    passes_on(alloc, path, output, input, visit, context)
}

pub(crate) fn of_wait(
    alloc: Global,
    wait: &Wait,
    visit: &Visit,
    context: &mut Context,
) -> Result<Vec<Stage>, AllocError>
    ensures stages { IfOk result (λ ss. ss.items ≡ wait_step (wait_object wait.now)
        context.old.facts (seen visit.now) (entering_with visit.now.current.now)) }
    ensures facts { context.new.facts ≡ context.old.facts }
{
    let Some(input) = visit.current.entering() else {
        return of_wait_over(alloc, wait, visit, context);
    };
    let mut out = Vec::new(alloc);
    add_waiting(alloc, &mut out, wait, input, visit, context)?;
    Ok(out)
}

pub(crate) fn of_fail(
    alloc: Global,
    fail: &Fail,
    visit: &Visit,
    context: &mut Context,
) -> Result<Vec<Stage>, AllocError>
    ensures stages { IfOk result (λ ss. ss.items ≡ fail_step (fail_object fail.now)
        context.old.facts (seen visit.now) (entering_with visit.now.current.now)) }
    ensures facts { context.new.facts ≡ context.old.facts }
{
    let mut out = Vec::new(alloc);
    let Some(input) = visit.current.entering() else {
        return Ok(out);
    };
    add_value(&mut out, Part::Input, input.try_clone()?)?;
    let error = failure_of(alloc, fail, visit, context)?;
    add_error(&mut out, Part::Result, error)?;
    Ok(out)
}

// Branches that have ended, and Parallel.
ghost use Rattle.std.specs.Prelude.{◌≡◌, ◌++◌, [], map, option_map, IfOk, Ok, None};
ghost use Rattle.asl_def_fields.specs.Shown.{path_shown};
ghost use Rattle.asl_def_shared.specs.Member.{completion_object};
ghost use Rattle.asl_def_states.specs.Show.{parallel_object};
ghost use Rattle.asl_step.specs.Context.{context_of};
ghost use Rattle.asl_step.specs.Records.{beginning_with};
ghost use Rattle.asl_step.specs.Seen.{seen};
ghost use Rattle.asl_kinds.specs.Forks.{forked_with, first_error, outputs};
ghost use Rattle.asl_trace_data.specs.Kinds.{joined_given, joined_by, join_step, settled_of, parallel_step};
ghost use Rattle.asl_trace_data.specs.Stages.{one, effective_stages};

use crate::answering::add_answer;
use crate::leaving::settle;
use crate::making::add_effective;
use crate::part::Part;
use crate::stage::{Stage, add_value};
use asl_def_fields::PathField;
use asl_def_shared::Completion;
use asl_def_states::Parallel;
use asl_json::Json;
use asl_json_shared::Shared;
use asl_kinds::{first_error, outputs};
use asl_step::{Context, ErrorOut, Record, Visit};
use asl_template::Template;
use std::alloc::{AllocError, Global};

/// The raw input of a state that waits for its branches.
fn forked(current: &Record) -> Option<&Shared>
    ensures { option_map (λ x. x.now) result ≡ forked_with current.now }
{
    match current {
        Record::Forked { input, .. } => Some(input),
        _ => None,
    }
}

/// What branches have come to: the error of the first that failed, or the list of their outputs; none where they go on. The
/// error is that memory ran out, here and below.
fn joined(
    alloc: Global,
    branches: &[&Record],
) -> Result<Option<Result<Shared, ErrorOut>>, AllocError>
    ensures { IfOk result (λ o. o ≡ joined_given (first_error (map (λ r. r.now) branches.now))
        (outputs (map (λ r. r.now) branches.now))) }
{
    if let Some(error) = first_error(branches) {
        return Ok(Some(Err(error.try_clone(alloc)?)));
    }
    match outputs(alloc, branches)? {
        Some(outputs) => Ok(Some(Ok(Shared::new(alloc, Json::List(outputs))?))),
        None => Ok(None),
    }
}

/// The stages of a state whose branches have come to this.
fn join_by(
    alloc: Global,
    completion: &Completion,
    given: Option<Result<Shared, ErrorOut>>,
    input: &Shared,
    visit: &Visit,
    context: &mut Context,
) -> Result<Vec<Stage>, AllocError>
    ensures stages { IfOk result (λ ss. ss.items ≡ joined_by (completion_object completion.now)
        (seen visit.now) input.now (context_of context.old.facts (seen visit.now)) given) }
    ensures facts { context.new.facts ≡ context.old.facts }
{
    let mut out = Vec::new(alloc);
    let Some(given) = given else {
        return Ok(out);
    };
    add_value(&mut out, Part::Input, input.try_clone()?)?;
    let output = add_answer(alloc, &mut out, completion, given, input, visit, context)?;
    settle(alloc, &mut out, completion, visit, input, output.as_ref())?;
    Ok(out)
}

/// The stages of a state that waits for its branches.
pub(crate) fn of_join(
    alloc: Global,
    completion: &Completion,
    visit: &Visit,
    context: &mut Context,
) -> Result<Vec<Stage>, AllocError>
    ensures stages { IfOk result (λ ss. ss.items ≡ join_step (completion_object completion.now)
        context.old.facts (seen visit.now) (forked_with visit.now.current.now)) }
    ensures facts { context.new.facts ≡ context.old.facts }
{
    let Some(input) = forked(visit.current) else {
        return Ok(Vec::new(alloc));
    };
    let given = joined(alloc, visit.children)?;
    join_by(alloc, completion, given, input, visit, context)
}

/// The stages of a state that begins its branches.
fn fork(
    alloc: Global,
    input_path: &PathField,
    parameters: Option<&Template>,
    completion: &Completion,
    input: &Shared,
    visit: &Visit,
    context: &mut Context,
) -> Result<Vec<Stage>, AllocError>
    ensures stages { IfOk result (λ ss. ss.items ≡ settled_of (completion_object completion.now)
        (seen visit.now) input.now (one Part.Input (Ok input.now)
        ++ effective_stages (path_shown input_path.now) (option_map (λ t. t.now) parameters.entry)
        input.now (context_of context.old.facts (seen visit.now))) None) }
    ensures facts { context.new.facts ≡ context.old.facts }
{
    let mut out = Vec::new(alloc);
    add_value(&mut out, Part::Input, input.try_clone()?)?;
    let _value = add_effective(
        alloc, &mut out, input_path, parameters, input, visit, context,
    )?;
    settle(alloc, &mut out, completion, visit, input, None)?;
    Ok(out)
}

pub(crate) fn of_parallel(
    alloc: Global,
    parallel: &Parallel,
    visit: &Visit,
    context: &mut Context,
) -> Result<Vec<Stage>, AllocError>
    ensures stages { IfOk result (λ ss. ss.items ≡ parallel_step (parallel_object [] parallel.now)
        context.old.facts (seen visit.now) (beginning_with visit.now.current.now)) }
    ensures facts { context.new.facts ≡ context.old.facts }
{
    let completion = parallel.completion();
    let Some(input) = visit.current.beginning() else {
        return of_join(alloc, completion, visit, context);
    };
    let (path, parameters) = (parallel.input_path(), parallel.parameters());
    fork(alloc, path, parameters, completion, input, visit, context)
}

// Stages that several kinds of states share.
ghost use Rattle.std.specs.Prelude.{◌≡◌, ◌++◌, IfOk, OnOk, Ok, option_map, codes};
ghost use Rattle.std.specs.Result.{result_ok};
ghost use Rattle.asl_json.specs.Meaning.{value_in};
ghost use Rattle.asl_def_fields.specs.Shown.{path_shown};
ghost use Rattle.asl_def_shared.specs.Member.{completion_object};
ghost use Rattle.asl_step.specs.Context.{context_of};
ghost use Rattle.asl_step.specs.Seen.{seen};
ghost use Rattle.asl_step_io.specs.Paths.{taken, put_into};
ghost use Rattle.asl_step_io.specs.Payload.{filled};
ghost use Rattle.asl_kinds.specs.Members.{effective_by, placed_by, selected_by};
ghost use Rattle.asl_trace_data.specs.Lines.{name_of};
ghost use Rattle.asl_trace_data.specs.Stages.{one, effective_stages, placed_stages, selected_stages};

use crate::part::Part;
use crate::stage::{Stage, add};
use asl_def_fields::PathField;
use asl_def_shared::Completion;
use asl_json_shared::Shared;
use asl_step::{Context, Visit};
use asl_step_io::{filled, put_into, taken};
use asl_template::Template;
use std::alloc::{AllocError, Global};

/// What a path takes of a value. Each call of this module adds stages, and answers the value of the last one, where it is no error; the
/// error is that memory ran out.
pub(crate) fn add_taken(
    alloc: Global,
    out: &mut Vec<Stage>,
    part: Part,
    path: &PathField,
    value: &Shared,
    visit: &Visit,
    context: &mut Context,
) -> Result<Option<Shared>, AllocError>
    ensures stages { OnOk result (out.new.items ≡ out.old.items ++ one part
        (taken (name_of part) (path_shown path.now) value.now
        (context_of context.old.facts (seen visit.now)))) }
    ensures value { IfOk result (λ o. o ≡ result_ok
        (taken (name_of part) (path_shown path.now) value.now
        (context_of context.old.facts (seen visit.now)))) }
    ensures facts { context.new.facts ≡ context.old.facts }
{
    let given = taken(alloc, part.name(), path, value, visit, context);
    add(out, part, given)
}

/// What a template makes of a value.
fn add_filled(
    alloc: Global,
    out: &mut Vec<Stage>,
    part: Part,
    template: Option<&Template>,
    value: Shared,
    visit: &Visit,
    context: &mut Context,
) -> Result<Option<Shared>, AllocError>
    ensures stages { OnOk result (out.new.items ≡ out.old.items ++ one part
        (filled (option_map (λ t. t.now) template.entry) value
        (context_of context.old.facts (seen visit.now)))) }
    ensures value { IfOk result (λ o. o ≡ result_ok
        (filled (option_map (λ t. t.now) template.entry) value
        (context_of context.old.facts (seen visit.now)))) }
    ensures facts { context.new.facts ≡ context.old.facts }
{
    let given = filled(alloc, template, value, visit, context);
    add(out, part, given)
}

/// A result put into the raw input.
pub(crate) fn add_put(
    alloc: Global,
    out: &mut Vec<Stage>,
    part: Part,
    path: &PathField,
    input: &Shared,
    answer: Shared,
) -> Result<Option<Shared>, AllocError>
    ensures stages { OnOk result (out.new.items
        ≡ out.old.items ++ one part (put_into (path_shown path.now) input.now answer)) }
    ensures value { IfOk result (λ o. o ≡ result_ok (put_into (path_shown path.now) input.now answer)) }
{
    let given = put_into(alloc, path, input, answer);
    add(out, part, given)
}

/// The effective input: what `InputPath` takes, then what `Parameters` makes of it.
#[tactic(auto, using(crate::proofs::Giving::then_given, crate::proofs::Giving::then_none))]
pub(crate) fn add_effective(
    alloc: Global,
    out: &mut Vec<Stage>,
    input_path: &PathField,
    parameters: Option<&Template>,
    input: &Shared,
    visit: &Visit,
    context: &mut Context,
) -> Result<Option<Shared>, AllocError>
    ensures stages { OnOk result (out.new.items ≡ out.old.items
        ++ effective_stages (path_shown input_path.now) (option_map (λ t. t.now) parameters.entry)
        input.now (context_of context.old.facts (seen visit.now))) }
    ensures value { IfOk result (λ o. o ≡ result_ok
        (effective_by (path_shown input_path.now) (option_map (λ t. t.now) parameters.entry)
        input.now (context_of context.old.facts (seen visit.now)))) }
    ensures facts { context.new.facts ≡ context.old.facts }
{
    let part = Part::InputPath;
    let Some(value) = add_taken(alloc, out, part, input_path, input, visit, context)? else {
        return Ok(None);
    };
    add_filled(
        alloc,
        out,
        Part::Parameters,
        parameters,
        value,
        visit,
        context,
    )
}

/// A result put into the raw input by `ResultPath`, and what `OutputPath` takes of that.
#[tactic(auto, using(crate::proofs::Giving::then_given, crate::proofs::Giving::then_none))]
pub(crate) fn add_placed(
    alloc: Global,
    out: &mut Vec<Stage>,
    result_path: &PathField,
    output_path: &PathField,
    input: &Shared,
    answer: Shared,
    visit: &Visit,
    context: &mut Context,
) -> Result<Option<Shared>, AllocError>
    ensures stages { OnOk result (out.new.items ≡ out.old.items
        ++ placed_stages (path_shown result_path.now) (path_shown output_path.now) input.now
        (context_of context.old.facts (seen visit.now)) answer) }
    ensures value { IfOk result (λ o. o ≡ result_ok
        (placed_by (path_shown result_path.now) (path_shown output_path.now) input.now
        (context_of context.old.facts (seen visit.now)) answer)) }
    ensures facts { context.new.facts ≡ context.old.facts }
{
    let part = Part::ResultPath;
    let Some(placed) = add_put(alloc, out, part, result_path, input, answer)? else {
        return Ok(None);
    };
    let part = Part::OutputPath;
    add_taken(alloc, out, part, output_path, &placed, visit, context)
}

/// What `ResultSelector` makes of a result, and where it is placed.
#[tactic(auto, using(crate::proofs::Giving::then_given, crate::proofs::Giving::then_none))]
pub(crate) fn add_selected(
    alloc: Global,
    out: &mut Vec<Stage>,
    completion: &Completion,
    input: &Shared,
    answer: Shared,
    visit: &Visit,
    context: &mut Context,
) -> Result<Option<Shared>, AllocError>
    ensures stages { OnOk result (out.new.items ≡ out.old.items ++ selected_stages
        (value_in (codes "ResultSelector") (completion_object completion.now))
        (value_in (codes "ResultPath") (completion_object completion.now))
        (value_in (codes "OutputPath") (completion_object completion.now)) input.now
        (context_of context.old.facts (seen visit.now)) answer) }
    ensures value { IfOk result (λ o. o ≡ result_ok (selected_by
        (value_in (codes "ResultSelector") (completion_object completion.now))
        (value_in (codes "ResultPath") (completion_object completion.now))
        (value_in (codes "OutputPath") (completion_object completion.now)) input.now
        (context_of context.old.facts (seen visit.now)) answer)) }
    ensures facts { context.new.facts ≡ context.old.facts }
{
    let selector = completion.result_selector();
    let part = Part::ResultSelector;
    let Some(selected) = add_filled(alloc, out, part, selector, answer, visit, context)? else {
        return Ok(None);
    };
    add_placed(
        alloc,
        out,
        completion.result_path(),
        completion.output_path(),
        input,
        selected,
        visit,
        context,
    )
}

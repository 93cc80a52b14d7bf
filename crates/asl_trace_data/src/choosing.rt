// Choice.
ghost use Rattle.std.specs.Prelude.{◌≡◌, ◌++◌, IfOk, OnOk, Some, option_map, codes};
ghost use Rattle.std.specs.Result.{result_ok};
ghost use Rattle.asl_json_data.specs.Data.{text};
ghost use Rattle.asl_json.specs.Meaning.{value_in};
ghost use Rattle.asl_json.specs.View.{data_of};
ghost use Rattle.asl_choice.specs.Seen.{seen as rules_say};
ghost use Rattle.asl_def_states.specs.Show.{choice_object};
ghost use Rattle.asl_step.specs.Context.{context_of};
ghost use Rattle.asl_step.specs.Records.{entering_with};
ghost use Rattle.asl_step.specs.Seen.{seen};
ghost use Rattle.asl_step_io.specs.Paths.{taken};
ghost use Rattle.asl_kinds.specs.Members.{target_by, chosen_target, choice_output};
ghost use Rattle.asl_trace_data.specs.Kinds.{target_stages, choice_stages, is_found, chosen_in, choice_step};

use crate::leaving::leave;
use crate::making::add_taken;
use crate::part::Part;
use crate::passing::failure_of;
use crate::stage::{Stage, add_error, add_value};
use asl_choice::RuleFault;
use asl_def_shared::Target;
use asl_def_states::Choice;
use asl_json::Json;
use asl_json_shared::Shared;
use asl_step::{Context, Visit};
use std::alloc::{AllocError, Global};

/// Whether a Choice goes on whose rules say this.
fn is_found(default: Option<&Target>, next: Result<Option<&Target>, RuleFault<'_>>) -> bool
    ensures { result ≡ is_found (target_by (option_map (λ t. text t.now.name) default.entry)
        (rules_say (λ t. option_map (λ t. text t.now.name) t) next.entry)) }
{
    match next {
        Ok(Some(_)) => true,
        Ok(None) => default.is_some(),
        Err(_) => false,
    }
}

/// Whether a Choice that has this value goes on. The error is that memory ran out, here and below.
fn finds(
    alloc: Global,
    choice: &Choice,
    value: &Json,
    visit: &Visit,
    context: &mut Context,
) -> Result<bool, AllocError>
    ensures found { IfOk result (λ b. b ≡ is_found (chosen_target (choice_object choice.now)
        (data_of value.now) (context_of context.old.facts (seen visit.now)))) }
    ensures facts { context.new.facts ≡ context.old.facts }
{
    context.show(alloc, visit)?;
    let next = choice.choices().next(value, context.shown());
    Ok(is_found(choice.default(), next))
}

/// The stages behind `InputPath`, which gives this value, and the output, where there is one.
#[tactic(auto, using(crate::proofs::Failing::choice_gives))]
fn add_target(
    alloc: Global,
    out: &mut Vec<Stage>,
    choice: &Choice,
    input: &Shared,
    value: &Shared,
    visit: &Visit,
    context: &mut Context,
) -> Result<Option<Shared>, AllocError>
    requires entering { Some input.now ≡ entering_with visit.now.current.now }
    requires taken { Some value.now ≡ result_ok (taken (codes "InputPath")
        (value_in (codes "InputPath") (choice_object choice.now)) input.now
        (context_of context.old.facts (seen visit.now))) }
    ensures stages { OnOk result (out.new.items ≡ out.old.items ++ target_stages
        (choice_object choice.now) value.now (context_of context.old.facts (seen visit.now))
        (chosen_target (choice_object choice.now) (data_of value.now)
        (context_of context.old.facts (seen visit.now)))) }
    ensures value { IfOk result (λ o. o ≡ chosen_in (choice_output (choice_object choice.now)
        input.now (context_of context.old.facts (seen visit.now)))) }
    ensures facts { context.new.facts ≡ context.old.facts }
{
    if finds(alloc, choice, value, visit, context)? {
        let (part, path) = (Part::OutputPath, choice.output_path());
        return add_taken(alloc, out, part, path, value, visit, context);
    }
    let error = failure_of(alloc, choice, visit, context)?;
    add_error(out, Part::Choices, error)?;
    Ok(None)
}

/// The stages, and the output, where there is one.
#[tactic(auto, using(crate::proofs::Failing::choice_untaken))]
fn add_choice(
    alloc: Global,
    out: &mut Vec<Stage>,
    choice: &Choice,
    input: &Shared,
    visit: &Visit,
    context: &mut Context,
) -> Result<Option<Shared>, AllocError>
    requires { Some input.now ≡ entering_with visit.now.current.now }
    ensures stages { OnOk result (out.new.items ≡ out.old.items ++ choice_stages
        (choice_object choice.now) input.now (context_of context.old.facts (seen visit.now))) }
    ensures value { IfOk result (λ o. o ≡ chosen_in (choice_output (choice_object choice.now)
        input.now (context_of context.old.facts (seen visit.now)))) }
    ensures facts { context.new.facts ≡ context.old.facts }
{
    add_value(out, Part::Input, input.try_clone()?)?;
    let (part, path) = (Part::InputPath, choice.input_path());
    let Some(value) = add_taken(alloc, out, part, path, input, visit, context)? else {
        return Ok(None);
    };
    add_target(alloc, out, choice, input, &value, visit, context)
}

pub(crate) fn of_choice(
    alloc: Global,
    choice: &Choice,
    visit: &Visit,
    context: &mut Context,
) -> Result<Vec<Stage>, AllocError>
    ensures stages { IfOk result (λ ss. ss.items ≡ choice_step (choice_object choice.now)
        context.old.facts (seen visit.now) (entering_with visit.now.current.now)) }
    ensures facts { context.new.facts ≡ context.old.facts }
{
    let mut out = Vec::new(alloc);
    let Some(input) = visit.current.entering() else {
        return Ok(out);
    };
    let output = add_choice(alloc, &mut out, choice, input, visit, context)?;
    leave(alloc, &mut out, output.as_ref())?;
    Ok(out)
}

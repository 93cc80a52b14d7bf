// The texts of errors, by paths and calls.
ghost use Rattle.std.specs.Prelude.{◌≡◌, Some, List, ℕ, option_map, ok_or};
ghost use Rattle.std.specs.Result.{result_ok};
ghost use Rattle.asl_json_data.specs.Data.{text};
ghost use Rattle.asl_json.specs.View.{data_of};
ghost use Rattle.asl_def_fields.specs.Shown.{path_or_call_shown};
ghost use Rattle.asl_def_shared.specs.Texts.{text_in};
ghost use Rattle.asl_step.specs.Context.{context_of};
ghost use Rattle.asl_step.specs.Seen.{seen};
ghost use Rattle.asl_intrinsic.specs.Values.{ev};
ghost use Rattle.asl_step_io.specs.Paths.{part_of, no_value};
ghost use Rattle.asl_step_io.specs.Reason.{text_at};
ghost use Rattle.asl_step_io.specs.Gives.{Gives};

use crate::fault::{Fault, missing};
use asl_def_fields::PathOrCall;
use asl_intrinsic::Expr;
use asl_intrinsic_functions::EvalFault;
use asl_json::{Json, Txt};
use asl_path::RefPath;
use asl_step::{Context, Visit};
use asl_template::is_on_context;
use std::alloc::{AllocError, Global};

/// The text that a field's value is.
fn text_of(alloc: Global, field: &str, value: Option<&Json>) -> Result<Txt, Fault>
    ensures { Gives (ok_or (text_in (option_map (λ v. data_of v.now) value.entry))
        (no_value field.now)) result }
{
    match value {
        Some(Json::Text(text)) => Ok(text.try_clone(alloc)?),
        _ => Err(missing(alloc, field)),
    }
}

/// The text that a field's path names.
fn at_path(
    alloc: Global,
    field: &str,
    path: &RefPath,
    input: &Json,
    visit: &Visit,
    context: &mut Context,
) -> Result<Txt, Fault>
    ensures given { Gives (ok_or (text_in (part_of path.now (data_of input.now)
        (context_of context.old.facts (seen visit.now)))) (no_value field.now)) result }
    ensures facts { context.new.facts ≡ context.old.facts }
{
    if is_on_context(path.text()) {
        context.show(alloc, visit)?;
        return text_of(alloc, field, path.get(context.shown()));
    }
    text_of(alloc, field, path.get(input))
}

/// The text that a field's call gives.
fn at_call(
    alloc: Global,
    field: &str,
    call: &Expr,
    input: &Json,
    visit: &Visit,
    context: &mut Context,
) -> Result<Txt, Fault>
    ensures given { Gives (ok_or (text_in (result_ok
        (ev call.now (data_of input.now) (context_of context.old.facts (seen visit.now)))))
        (no_value field.now))
        result }
    ensures facts { context.new.facts ≡ context.old.facts }
{
    context.show(alloc, visit)?;
    match call.eval(alloc, input, context.shown()) {
        Ok(value) => text_of(alloc, field, Some(&value)),
        Err(EvalFault::OutOfMemory) => Err(Fault::Memory),
        Err(_) => Err(missing(alloc, field)),
    }
}

/// The text that a field's path or call gives.
pub fn text_at(
    alloc: Global,
    field: &str,
    at: &PathOrCall,
    input: &Json,
    visit: &Visit,
    context: &mut Context,
) -> Result<Txt, Fault>
    ensures given { (t : List ℕ) → path_or_call_shown at.now ≡ text t
        → Gives (text_at field.now t (data_of input.now)
        (context_of context.old.facts (seen visit.now))) result }
    ensures facts { context.new.facts ≡ context.old.facts }
{
    match at {
        PathOrCall::Path(path) => {
            let _begins_with_a_dollar = path.text();
            at_path(alloc, field, path, input, visit, context)
        }
        PathOrCall::Call(call) => {
            let _begins_with_a_name = call.text();
            at_call(alloc, field, call, input, visit, context)
        }
    }
}

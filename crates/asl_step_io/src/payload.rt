// Data made by templates.
ghost use Rattle.std.specs.Prelude.{◌≡◌, ◌++◌, Err, IfOk, option_map, codes};
ghost use Rattle.asl_json.specs.View.{data_of};
ghost use Rattle.asl_step.specs.Context.{context_of};
ghost use Rattle.asl_step.specs.Seen.{seen};
ghost use Rattle.asl_template.specs.Filling.{fill};
ghost use Rattle.asl_step_io.specs.Payload.{word_text, no_parameter, no_result, given_by, filled};
ghost use Rattle.asl_step_io.specs.Gives.{Gives};

use crate::fault::{Fault, failure};
use crate::paths::owned;
use asl_json::{Json, Txt};
use asl_json_shared::Shared;
use asl_step::{Context, ErrorOut, Visit};
use asl_template::{FillFault, Template, Word};
use std::alloc::{AllocError, Global};

fn word_text(word: Word) -> &'static str
    ensures { result.now ≡ word_text word }
{
    match word {
        Word::Unfit => "unfit",
        Word::Range => "range",
        Word::Count => "count",
        Word::Undecoded => "undecoded",
        Word::Path => "path",
    }
}

/// That a path of the member of this key names nothing.
fn no_parameter(alloc: Global, key: Txt) -> Result<ErrorOut, AllocError>
    ensures { IfOk result (λ e. e ≡ no_parameter key) }
{
    let mut cause = key.into_string();
    cause.push_str(": no value")?;
    failure(alloc, "States.ParameterPathFailure", Txt::new(cause))
}

/// That the call of the member of this key has no value.
fn no_result(alloc: Global, key: Txt, word: Word) -> Result<ErrorOut, AllocError>
    ensures { IfOk result (λ e. e ≡ no_result key word) }
{
    let mut cause = key.into_string();
    cause.push_str(": ")?;
    cause.push_str(word_text(word))?;
    failure(alloc, "States.IntrinsicFailure", Txt::new(cause))
}

/// The error that a state raises where its template can't be filled.
fn raised(alloc: Global, fault: FillFault) -> Fault
    ensures raised { Gives (given_by (Err fault)) (Err result) }
    ensures memory { fault ≡ FillFault.OutOfMemory → result ≡ Fault.Memory }
{
    let error = match fault {
        FillFault::PathFails(key) => no_parameter(alloc, key),
        FillFault::IntrinsicFails(key, word) => no_result(alloc, key, word),
        FillFault::OutOfMemory => Err(AllocError),
    };
    match error {
        Ok(error) => Fault::Raised(error),
        Err(_) => Fault::Memory,
    }
}

/// What a template makes of a value.
fn made(alloc: Global, template: &Template, value: &Json, context: &Json) -> Result<Shared, Fault>
    ensures { Gives (given_by (fill template.now (data_of value.now) (data_of context.now)))
        result }
{
    match template.fill(alloc, value, context) {
        Ok(value) => owned(alloc, value),
        Err(fault) => Err(raised(alloc, fault)),
    }
}

/// What a template makes of a value: the value itself where there is none.
pub fn filled(
    alloc: Global,
    template: Option<&Template>,
    value: Shared,
    visit: &Visit,
    context: &mut Context,
) -> Result<Shared, Fault>
    ensures given { Gives (filled (option_map (λ t. t.now) template.entry) value
        (context_of context.old.facts (seen visit.now))) result }
    ensures facts { context.new.facts ≡ context.old.facts }
{
    let Some(template) = template else {
        return Ok(value);
    };
    context.show(alloc, visit)?;
    made(alloc, template, &value, context.shown())
}

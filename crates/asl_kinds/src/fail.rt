// Fail (ASL, "Fail State").
ghost use Rattle.std.specs.Prelude.{◌≡◌, IfOk, option_map, codes};
ghost use Rattle.asl_json.specs.Meaning.{value_in};
ghost use Rattle.asl_json.specs.View.{data_of};
ghost use Rattle.asl_def_shared.specs.Texts.{text_in};
ghost use Rattle.asl_def_states.specs.Show.{fail_object, told, told_at};
ghost use Rattle.asl_step.specs.Context.{context_of};
ghost use Rattle.asl_step.specs.Seen.{seen};
ghost use Rattle.asl_step_io.specs.Gives.{Gives};
ghost use Rattle.asl_kinds.specs.Members.{reason_by, error_and, fail_error};

use crate::kind::StateKind;
use asl_def_states::{Fail, FailText};
use asl_history::EventKind;
use asl_json::{Json, Txt};
use asl_step::{Context, Effect, ErrorOut, Visit, entering, failing, idle};
use asl_step_io::{Fault, text_at};
use std::alloc::{AllocError, Global};

/// The text of an error's name or cause, where there is one.
fn reason(
    alloc: Global,
    field: &str,
    reason: Option<&FailText>,
    input: &Json,
    visit: &Visit,
    context: &mut Context,
) -> Result<Option<Txt>, Fault>
    ensures given { Gives (reason_by field.now
        (text_in (told (option_map (λ r. r.now) reason.entry)))
        (text_in (told_at (option_map (λ r. r.now) reason.entry))) (data_of input.now)
        (context_of context.old.facts (seen visit.now))) result }
    ensures facts { context.new.facts ≡ context.old.facts }
{
    match reason {
        None => Ok(None),
        Some(FailText::Told(text)) => Ok(Some(text.try_clone(alloc)?)),
        Some(FailText::At(at)) => Ok(Some(text_at(alloc, field, at, input, visit, context)?)),
    }
}

/// The error that a Fail names: first its name, then its cause.
fn named(
    alloc: Global,
    fail: &Fail,
    input: &Json,
    visit: &Visit,
    context: &mut Context,
) -> Result<ErrorOut, Fault>
    ensures given { Gives (error_and
        (reason_by (codes "ErrorPath") (text_in (value_in (codes "Error") (fail_object fail.now)))
        (text_in (value_in (codes "ErrorPath") (fail_object fail.now)))
        (data_of input.now) (context_of context.old.facts (seen visit.now)))
        (reason_by (codes "CausePath") (text_in (value_in (codes "Cause") (fail_object fail.now)))
        (text_in (value_in (codes "CausePath") (fail_object fail.now)))
        (data_of input.now) (context_of context.old.facts (seen visit.now)))) result }
    ensures facts { context.new.facts ≡ context.old.facts }
{
    let error = reason(alloc, "ErrorPath", fail.error(), input, visit, context)?;
    let cause = reason(alloc, "CausePath", fail.cause(), input, visit, context)?;
    Ok(ErrorOut { error, cause })
}

/// The error with which a Fail fails.
fn error(
    alloc: Global,
    fail: &Fail,
    input: &Json,
    visit: &Visit,
    context: &mut Context,
) -> Result<ErrorOut, AllocError>
    ensures error { IfOk result (λ e. e
        ≡ fail_error (fail_object fail.now) (data_of input.now)
        (context_of context.old.facts (seen visit.now))) }
    ensures facts { context.new.facts ≡ context.old.facts }
{
    match named(alloc, fail, input, visit, context) {
        Ok(error) => Ok(error),
        Err(Fault::Raised(error)) => Ok(error),
        Err(Fault::Memory) => Err(AllocError),
    }
}

impl StateKind for Fail {
    ghost use Rattle.std.specs.Prelude.{false};
    ghost use Rattle.asl_def_states.specs.Show.{fail_object};
    ghost use Rattle.asl_kinds.specs.Table.{fail_effect};
    ghost use Rattle.asl_kinds.specs.private.Laws.{fail-lawful};

    ghost effect = { λ k. fail_effect (fail_object k) };

    ghost is_invoking = { λ k. false };

    ghost slots = { λ k. 0 };

    ghost bounded = { λ k f v. (fail-lawful (fail_object k) f v).bounds };

    ghost use Rattle.asl_kinds.specs.private.Telling.{fail-told};

    ghost entered = { λ k. fail-told (fail_object k) };

    fn visit(
        &self,
        alloc: Global,
        visit: &Visit,
        context: &mut Context,
    ) -> Result<Effect, AllocError> {
        let Some(input) = visit.current.entering() else {
            return idle(alloc, visit.current);
        };
        let done = entering(alloc, visit, EventKind::FailStateEntered, input)?;
        let error = error(alloc, self, input, visit, context)?;
        failing(alloc, visit, done, error)
    }

    fn invokes(&self) -> bool {
        false
    }

    fn slots(&self) -> u32 {
        0
    }
}

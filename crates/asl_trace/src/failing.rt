// Why an execution fails.
use crate::tree::context_of;
use crate::why::{Raised, raised_at};
use asl_exec::Execution;
use asl_json_write::put_quoted;
use asl_run_input::{Setup, StepAt};
use asl_run_state::Outcome;
use asl_step::{Context, ErrorOut};
use asl_text::put_shown;
use std::alloc::{AllocError, Global};

/// An error that a state raised in a step, and the words that say in which and why.
#[derive(Drop)]
struct Failure {
    error: ErrorOut,
    words: String,
}

/// The words on an error: the state, its place, and why.
fn words_of(
    alloc: Global,
    execution: &Execution,
    at: &StepAt,
    why: &str,
) -> Result<String, AllocError> {
    let mut words = String::new(alloc);
    if let Some(frame) = execution.world().frame_at(&at.place) {
        let mut name = String::new(alloc);
        put_quoted(&mut name, frame.held().name())?;
        put_shown(&mut words, name.as_str())?;
        words.push_str(" at ")?;
    }
    at.place.put(&mut words)?;
    words.push_str(": ")?;
    words.push_str(why)?;
    Ok(words)
}

/// Takes a step, and answers the error that it raises, where there is more to say of that.
fn take(
    alloc: Global,
    execution: &mut Execution,
    context: &mut Context,
    at: &StepAt,
) -> Result<Option<Failure>, AllocError> {
    let mut failure = None;
    if execution.refusal(&at.place, at.moment).is_none()
        && let Some(Raised { error, why }) = raised_at(alloc, execution, context, at)?
        && !why.is_empty()
    {
        let words = words_of(alloc, execution, at, why.as_str())?;
        failure = Some(Failure { error, words });
    }
    execution.reply(at)?;
    Ok(failure)
}

/// Takes these steps, or, without a list, those that come next, at most so many, and answers the last error of which there is more to say.
fn take_all(
    alloc: Global,
    execution: &mut Execution,
    steps: Option<&[StepAt]>,
    limit: u32,
) -> Result<Option<Failure>, AllocError> {
    let mut context = context_of(alloc, execution.setup())?;
    let mut last = None;
    if let Some(steps) = steps {
        for at in steps {
            if let Some(failure) = take(alloc, execution, &mut context, at)? {
                last = Some(failure);
            }
        }
        return Ok(last);
    }
    for _ in 0..limit {
        let Some(at) = execution.chosen()? else {
            return Ok(last);
        };
        if let Some(failure) = take(alloc, execution, &mut context, &at)? {
            last = Some(failure);
        }
    }
    Ok(last)
}

/// Why the execution of these steps, or of at most so many that come next, fails: the state that raised the error, what was looked for there,
/// in which member, and what is there instead. Empty where it doesn't fail, and where its error says all. The error is that memory ran out.
pub fn why_failed(
    alloc: Global,
    setup: Setup,
    steps: Option<&[StepAt]>,
    limit: u32,
) -> Result<String, AllocError> {
    let mut execution = Execution::open(alloc, setup)?;
    let failure = take_all(alloc, &mut execution, steps, limit)?;
    match (execution.outcome(), failure) {
        (Outcome::Failed(error), Some(failure)) if *error == failure.error => Ok(failure.words),
        _ => Ok(String::new(alloc)),
    }
}

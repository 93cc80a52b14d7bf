// How long a state waits, by what its paths name.
ghost use Rattle.std.specs.Prelude.{◌≡◌, ◌≤◌, IfOk, IfSome, option_map};
ghost use Rattle.std.specs.Option.{option_and_then};
ghost use Rattle.asl_json.specs.View.{data_of};
ghost use Rattle.asl_step.specs.Context.{context_of};
ghost use Rattle.asl_step.specs.Seen.{seen};
ghost use Rattle.asl_step_io.specs.Delay.{seconds_of, moment_of, seconds_at, moment_at};

use asl_def_schema::MOST_WHOLE;
use asl_json::Json;
use asl_path::RefPath;
use asl_step::{Context, Visit};
use asl_template::is_on_context;
use asl_time::{Moment, read_stamp};
use std::alloc::{AllocError, Global};

/// The seconds that a value is: a whole number from 0 to 99,999,999.
fn seconds_of(value: Option<&Json>) -> Option<u32>
    ensures { result ≡ option_and_then seconds_of (option_map (λ v. data_of v.now) value.entry) }
{
    let Some(Json::Num(number)) = value else {
        return None;
    };
    let whole = number.whole()?;
    if 0 <= whole && whole <= MOST_WHOLE {
        Some(whole as u32)
    } else {
        None
    }
}

/// The moment of a value that is a timestamp.
fn moment_of(value: Option<&Json>) -> Option<Moment>
    ensures { result ≡ option_and_then moment_of (option_map (λ v. data_of v.now) value.entry) }
{
    let Some(Json::Text(text)) = value else {
        return None;
    };
    read_stamp(text.as_str())
}

/// The seconds that a path names in a value, or in the Context Object.
pub fn seconds_at(
    alloc: Global,
    path: &RefPath,
    value: &Json,
    visit: &Visit,
    context: &mut Context,
) -> Result<Option<u32>, AllocError>
    ensures seconds { IfOk result (λ o. o
        ≡ seconds_at path.now (data_of value.now) (context_of context.old.facts (seen visit.now))) }
    ensures facts { context.new.facts ≡ context.old.facts }
{
    if is_on_context(path.text()) {
        context.show(alloc, visit)?;
        return Ok(seconds_of(path.get(context.shown())));
    }
    Ok(seconds_of(path.get(value)))
}

/// The moment that a path names in a value, or in the Context Object.
pub fn moment_at(
    alloc: Global,
    path: &RefPath,
    value: &Json,
    visit: &Visit,
    context: &mut Context,
) -> Result<Option<Moment>, AllocError>
    ensures moment { IfOk result (λ o. o
        ≡ moment_at path.now (data_of value.now) (context_of context.old.facts (seen visit.now))) }
    ensures facts { context.new.facts ≡ context.old.facts }
{
    if is_on_context(path.text()) {
        context.show(alloc, visit)?;
        return Ok(moment_of(path.get(context.shown())));
    }
    Ok(moment_of(path.get(value)))
}

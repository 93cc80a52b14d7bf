// Wait (ASL, "Wait State").
ghost use Rattle.std.specs.Prelude.{◌≡◌, ◌≤◌, IfOk, Ok, option_map, codes};
ghost use Rattle.asl_json.specs.View.{data_of};
ghost use Rattle.asl_def_states.specs.Show.{wait_object};
ghost use Rattle.asl_step.specs.Context.{context_of};
ghost use Rattle.asl_step.specs.Seen.{seen};
ghost use Rattle.asl_step_io.specs.Gives.{Gives};
ghost use Rattle.asl_step_io.specs.Paths.{no_value};
ghost use Rattle.asl_kinds.specs.Members.{moment_or, later, until_in, wait_until, passed_on};

use crate::kind::StateKind;
use crate::passing::{passed, target};
use asl_def_states::{Delay, Wait};
use asl_history::EventKind;
use asl_json::Json;
use asl_json_shared::Shared;
use asl_step::{Context, Effect, Visit, entering, failing, idle, pausing, unstarted};
use asl_step_io::{Fault, missing, moment_at, seconds_at, taken};
use asl_time::{Moment, add};
use std::alloc::{AllocError, Global};

/// The moment so many seconds later, or the last one.
fn later(now: Moment, seconds: u32) -> Moment
    ensures { result ≡ later now seconds }
{
    add(now, u64::from(seconds) * 1000)
}

/// A moment that a field names, or that it has no value.
fn moment_of(alloc: Global, field: &str, moment: Option<Moment>) -> Result<Moment, Fault>
    ensures { Gives (moment_or (no_value field.now) moment) result }
{
    match moment {
        Some(moment) => Ok(moment),
        None => Err(missing(alloc, field)),
    }
}

/// Until when a Wait waits that is entered now.
fn until(
    alloc: Global,
    wait: &Wait,
    value: &Json,
    visit: &Visit,
    context: &mut Context,
) -> Result<Moment, Fault>
    ensures given { Gives (until_in (wait_object wait.now) visit.now.moment (data_of value.now)
        (context_of context.old.facts (seen visit.now))) result }
    ensures facts { context.new.facts ≡ context.old.facts }
{
    let now = visit.moment;
    match wait.delay() {
        Delay::Seconds(seconds) => Ok(later(now, seconds.value())),
        Delay::SecondsPath(path) => {
            let seconds = seconds_at(alloc, path, value, visit, context)?;
            moment_of(
                alloc,
                "SecondsPath",
                seconds.map(|seconds| later(now, seconds)),
            )
        }
        Delay::Timestamp(stamp) => Ok(stamp.moment()),
        Delay::TimestampPath(path) => {
            let moment = moment_at(alloc, path, value, visit, context)?;
            moment_of(alloc, "TimestampPath", moment)
        }
    }
}

/// Until when a Wait waits, by its raw input.
fn waits(
    alloc: Global,
    wait: &Wait,
    input: &Shared,
    visit: &Visit,
    context: &mut Context,
) -> Result<Moment, Fault>
    ensures given { Gives (wait_until (wait_object wait.now) visit.now.moment input.now
        (context_of context.old.facts (seen visit.now))) result }
    ensures facts { context.new.facts ≡ context.old.facts }
{
    let effective = taken(alloc, "InputPath", wait.input_path(), input, visit, context)?;
    until(alloc, wait, &effective, visit, context)
}

/// What a Wait that is over gives for a raw input.
fn output(
    alloc: Global,
    wait: &Wait,
    input: &Shared,
    visit: &Visit,
    context: &mut Context,
) -> Result<Shared, Fault>
    ensures given { Gives (passed_on (wait_object wait.now) input.now
        (context_of context.old.facts (seen visit.now))) result }
    ensures facts { context.new.facts ≡ context.old.facts }
{
    let effective = taken(alloc, "InputPath", wait.input_path(), input, visit, context)?;
    taken(
        alloc,
        "OutputPath",
        wait.output_path(),
        &effective,
        visit,
        context,
    )
}

impl StateKind for Wait {
    ghost use Rattle.std.specs.Prelude.{false};
    ghost use Rattle.asl_def_states.specs.Show.{wait_object};
    ghost use Rattle.asl_kinds.specs.Table.{wait_effect};
    ghost use Rattle.asl_kinds.specs.private.Laws.{wait-lawful};

    ghost effect = { λ k. wait_effect (wait_object k) };

    ghost is_invoking = { λ k. false };

    ghost slots = { λ k. 0 };

    ghost bounded = { λ k f v. (wait-lawful (wait_object k) f v).bounds };

    ghost use Rattle.asl_kinds.specs.private.Telling.{wait-told};

    ghost entered = { λ k. wait-told (wait_object k) };

    fn visit(
        &self,
        alloc: Global,
        visit: &Visit,
        context: &mut Context,
    ) -> Result<Effect, AllocError> {
        if let Some(input) = visit.current.entering() {
            let done = entering(alloc, visit, EventKind::WaitStateEntered, input)?;
            return match waits(alloc, self, input, visit, context) {
                Ok(until) => pausing(alloc, visit, done, input, until),
                Err(Fault::Raised(error)) => failing(alloc, visit, done, error),
                Err(Fault::Memory) => Err(AllocError),
            };
        }
        let Some(input) = visit.current.pausing() else {
            return idle(alloc, visit.current);
        };
        let given = output(alloc, self, input, visit, context);
        let next = target(self.next());
        passed(
            alloc,
            visit,
            unstarted(alloc),
            EventKind::WaitStateExited,
            next,
            given,
        )
    }

    fn invokes(&self) -> bool {
        false
    }

    fn slots(&self) -> u32 {
        0
    }
}

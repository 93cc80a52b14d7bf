// What a definition says of its Tasks.
ghost use Rattle.std.specs.Prelude.{◌≡◌, List, option_map};
ghost use Rattle.asl_json_data.specs.Data.{number};
ghost use Rattle.asl_def_schema.specs.Canon.{Named};
ghost use Rattle.asl_def_fields.specs.Retries.{whole_in};
ghost use Rattle.asl_def_states.specs.Show.{state_of as state_shown, task_object};
ghost use Rattle.asl_run_formats.specs.Invoked.{resource_of, limits_of, own_limits, unlimited, region_of};

use asl_def::Machine;
use asl_def_fields::Count;
use asl_def_states::{State, Task};
use asl_history_formats::{Limits, Tasks};

/// The Tasks of a definition, which are called in this region.
#[derive(Drop)]
pub(crate) struct Invoked<'a> {
    pub(crate) machine: &'a Machine,
    pub(crate) region: &'a str,
}

/// The region that is named; the emulator is in none, so it is always the same where none is.
pub(crate) fn region_of(region: Option<&str>) -> &str
    ensures { result.now ≡ region_of region.entry }
{
    match region {
        Some(region) => region,
        None => "us-east-1",
    }
}

/// The resource that a state invokes; empty where it is no Task.
fn resource_of(state: &State) -> &str
    ensures { (t : List Named) → result.now ≡ resource_of (state_shown t state.now) }
{
    match state {
        State::Task(task) => task.resource().as_str(),
        State::Pass(_)
        | State::Choice(_)
        | State::Wait(_)
        | State::Parallel(_)
        | State::Map(_)
        | State::Succeed(_)
        | State::Fail(_) => "",
    }
}

/// The seconds of a limit, where there is one.
fn seconds_of(limit: Option<&Count>) -> Option<u32>
    ensures { result ≡ whole_in (option_map (λ x. number x.now) limit.entry) }
{
    match limit {
        Some(count) => Some(count.value()),
        None => None,
    }
}

/// The limits of a Task that stand as numbers.
fn own_limits(task: &Task) -> Limits
    ensures { result ≡ own_limits (task_object task.now) }
{
    Limits {
        timeout: seconds_of(task.timeout()),
        heartbeat: seconds_of(task.heartbeat()),
    }
}

/// No limits.
fn unlimited() -> Limits
    ensures { result ≡ unlimited }
{
    Limits {
        timeout: None,
        heartbeat: None,
    }
}

/// The limits of a state; none where it is no Task.
fn limits_of(state: &State) -> Limits
    ensures { (t : List Named) → result ≡ limits_of (state_shown t state.now) }
{
    match state {
        State::Task(task) => own_limits(task),
        State::Pass(_)
        | State::Choice(_)
        | State::Wait(_)
        | State::Parallel(_)
        | State::Map(_)
        | State::Succeed(_)
        | State::Fail(_) => unlimited(),
    }
}

impl Tasks for Invoked<'_> {
    ghost use Rattle.asl_run_formats.specs.Invoked.{tasks_in};

    ghost table = { λ x. tasks_in x.region.now x.machine.now };

    fn resource(&self, name: &str) -> &str {
        match self.machine.find(name) {
            Some((_, state)) => resource_of(state),
            None => "",
        }
    }

    fn limits(&self, name: &str) -> Limits {
        match self.machine.find(name) {
            Some((_, state)) => limits_of(state),
            None => unlimited(),
        }
    }

    fn region(&self) -> &str {
        self.region
    }
}

// What a state's own members name.
ghost use Rattle.std.specs.Prelude.{◌≡◌, List, Some, codes, option_map};
ghost use Rattle.asl_json_data.specs.Data.{text};
ghost use Rattle.asl_def_schema.specs.Canon.{Named};
ghost use Rattle.asl_def_fields.specs.Shown.{path_shown, path_or_call_shown};
ghost use Rattle.asl_def_states.specs.Show.{state_of, seconds_path_shown, timestamp_path_shown, told_at, task_object, pass_object, choice_object, wait_object, parallel_object, map_object, succeed_object, fail_object};
ghost use Rattle.asl_def_shared.specs.Member.{path_of, path_member, template_member};

use crate::choice::Choice;
use crate::fail::{Fail, FailText};
use crate::map::Map;
use crate::parallel::Parallel;
use crate::pass::Pass;
use crate::processor::{as_item_selector, as_parameters};
use crate::state::State;
use crate::succeed::Succeed;
use crate::task::Task;
use crate::wait::{Delay, Wait};
use asl_def_fields::{PathField, PathOrCall};
use asl_path::RefPath;
use asl_template::Template;

/// A path, which begins with `$`.
fn lent(path: &RefPath) -> Option<&RefPath>
    ensures { option_map (λ p. p.now) result ≡ path_of (Some (text path.now)) }
{
    let _text = path.text();
    Some(path)
}

/// The path that `InputPath`, `ResultPath` or `OutputPath` is.
fn field_path(field: &PathField) -> Option<&RefPath>
    ensures { option_map (λ p. p.now) result ≡ path_of (path_shown field.now) }
{
    match field {
        PathField::At(path) => lent(path),
        _ => None,
    }
}

/// The path of a member that is a path where it is there.
fn optional_path(path: &Option<RefPath>) -> Option<&RefPath>
    ensures { option_map (λ p. p.now) result ≡ path_of (option_map text path.now) }
{
    match path {
        Some(path) => lent(path),
        None => None,
    }
}

/// The path in the place of which a call may stand.
fn path_in(value: &PathOrCall) -> Option<&RefPath>
    ensures { option_map (λ p. p.now) result ≡ path_of (Some (path_or_call_shown value.now)) }
{
    match value {
        PathOrCall::Path(path) => lent(path),
        PathOrCall::Call(call) => {
            let _text = call.text();
            None
        }
    }
}

/// The path that `ErrorPath` or `CausePath` is.
fn reason_path(reason: &Option<FailText>) -> Option<&RefPath>
    ensures { option_map (λ p. p.now) result ≡ path_of (told_at reason.now) }
{
    match reason {
        Some(FailText::At(value)) => path_in(value),
        _ => None,
    }
}

/// The path that `SecondsPath` is.
fn seconds_path(delay: &Delay) -> Option<&RefPath>
    ensures { option_map (λ p. p.now) result ≡ path_of (seconds_path_shown delay.now) }
{
    match delay {
        Delay::SecondsPath(path) => lent(path),
        _ => None,
    }
}

/// The path that `TimestampPath` is.
fn timestamp_path(delay: &Delay) -> Option<&RefPath>
    ensures { option_map (λ p. p.now) result ≡ path_of (timestamp_path_shown delay.now) }
{
    match delay {
        Delay::TimestampPath(path) => lent(path),
        _ => None,
    }
}

/// The template of a member, where it is there.
fn template_in(template: &Option<Template>) -> Option<&Template>
    ensures { option_map (λ x. x.now) result ≡ template.now }
{
    match template {
        Some(template) => Some(template),
        None => None,
    }
}

impl Task {
    fn path(&self, member: &str) -> Option<&RefPath>
        ensures { option_map (λ p. p.now) result ≡ path_member member.now (task_object self.now) }
    {
        match member {
            "InputPath" => field_path(&self.input_path),
            "TimeoutSecondsPath" => optional_path(&self.limits.timeout_path),
            "HeartbeatSecondsPath" => optional_path(&self.limits.heartbeat_path),
            "ResultPath" => field_path(&self.completion.result_path),
            "OutputPath" => field_path(&self.completion.output_path),
            _ => None,
        }
    }

    fn template(&self, member: &str) -> Option<&Template>
        ensures { option_map (λ x. x.now) result
            ≡ template_member member.now (task_object self.now) }
    {
        match member {
            "Parameters" => template_in(&self.parameters),
            "ResultSelector" => template_in(&self.completion.result_selector),
            _ => None,
        }
    }
}

impl Pass {
    fn path(&self, member: &str) -> Option<&RefPath>
        ensures { option_map (λ p. p.now) result ≡ path_member member.now (pass_object self.now) }
    {
        match member {
            "InputPath" => field_path(&self.input_path),
            "ResultPath" => field_path(&self.result_path),
            "OutputPath" => field_path(&self.output_path),
            _ => None,
        }
    }

    fn template(&self, member: &str) -> Option<&Template>
        ensures { option_map (λ x. x.now) result
            ≡ template_member member.now (pass_object self.now) }
    {
        match member {
            "Parameters" => template_in(&self.parameters),
            _ => None,
        }
    }
}

impl Choice {
    fn path(&self, member: &str) -> Option<&RefPath>
        ensures { option_map (λ p. p.now) result ≡ path_member member.now (choice_object self.now) }
    {
        match member {
            "InputPath" => field_path(&self.input_path),
            "OutputPath" => field_path(&self.output_path),
            _ => None,
        }
    }
}

impl Wait {
    fn path(&self, member: &str) -> Option<&RefPath>
        ensures { option_map (λ p. p.now) result ≡ path_member member.now (wait_object self.now) }
    {
        match member {
            "InputPath" => field_path(&self.input_path),
            "SecondsPath" => seconds_path(&self.delay),
            "TimestampPath" => timestamp_path(&self.delay),
            "OutputPath" => field_path(&self.output_path),
            _ => None,
        }
    }
}

impl Parallel {
    fn path(&self, member: &str) -> Option<&RefPath>
        ensures { (t : List Named)
            → option_map (λ p. p.now) result ≡ path_member member.now (parallel_object t self.now) }
    {
        match member {
            "InputPath" => field_path(&self.input_path),
            "ResultPath" => field_path(&self.completion.result_path),
            "OutputPath" => field_path(&self.completion.output_path),
            _ => None,
        }
    }

    fn template(&self, member: &str) -> Option<&Template>
        ensures { (t : List Named)
            → option_map (λ x. x.now) result
            ≡ template_member member.now (parallel_object t self.now) }
    {
        match member {
            "Parameters" => template_in(&self.parameters),
            "ResultSelector" => template_in(&self.completion.result_selector),
            _ => None,
        }
    }
}

impl Map {
    fn path(&self, member: &str) -> Option<&RefPath>
        ensures { (t : List Named)
            → option_map (λ p. p.now) result ≡ path_member member.now (map_object t self.now) }
    {
        match member {
            "InputPath" => field_path(&self.input_path),
            "ItemsPath" => optional_path(&self.items_path),
            "ResultPath" => field_path(&self.completion.result_path),
            "OutputPath" => field_path(&self.completion.output_path),
            _ => None,
        }
    }

    fn template(&self, member: &str) -> Option<&Template>
        ensures { (t : List Named)
            → option_map (λ x. x.now) result ≡ template_member member.now (map_object t self.now) }
    {
        match member {
            "Parameters" => as_parameters(&self.selector),
            "ItemSelector" => as_item_selector(&self.selector),
            "ResultSelector" => template_in(&self.completion.result_selector),
            _ => None,
        }
    }
}

impl Succeed {
    fn path(&self, member: &str) -> Option<&RefPath>
        ensures { option_map (λ p. p.now) result
            ≡ path_member member.now (succeed_object self.now) }
    {
        match member {
            "InputPath" => field_path(&self.input_path),
            "OutputPath" => field_path(&self.output_path),
            _ => None,
        }
    }
}

impl Fail {
    fn path(&self, member: &str) -> Option<&RefPath>
        ensures { option_map (λ p. p.now) result ≡ path_member member.now (fail_object self.now) }
    {
        match member {
            "ErrorPath" => reason_path(&self.error),
            "CausePath" => reason_path(&self.cause),
            _ => None,
        }
    }
}

impl State {
    /// The path of its own member of this name: of `InputPath`, `ResultPath`, `OutputPath`, `ItemsPath`, `TimeoutSecondsPath`,
    /// `HeartbeatSecondsPath`, `SecondsPath`, `TimestampPath`, `ErrorPath` and `CausePath`. `None` for any other name, and where
    /// the state has no such member, or its value is null or a call of an intrinsic function. Takes no memory.
    pub fn path(&self, member: &str) -> Option<&RefPath>
        ensures { (t : List Named)
            → option_map (λ p. p.now) result ≡ path_member member.now (state_of t self.now) }
    {
        match self {
            State::Task(task) => task.path(member),
            State::Pass(pass) => pass.path(member),
            State::Choice(choice) => choice.path(member),
            State::Wait(wait) => wait.path(member),
            State::Parallel(parallel) => parallel.path(member),
            State::Map(map) => map.path(member),
            State::Succeed(succeed) => succeed.path(member),
            State::Fail(fail) => fail.path(member),
        }
    }

    /// The template of its own member of this name: of `Parameters`, `ItemSelector` and `ResultSelector`. `None` for any other name, and where
    /// the state has no such member. Takes no memory.
    pub fn template(&self, member: &str) -> Option<&Template>
        ensures { (t : List Named)
            → option_map (λ x. x.now) result ≡ template_member member.now (state_of t self.now) }
    {
        match self {
            State::Task(task) => task.template(member),
            State::Pass(pass) => pass.template(member),
            State::Parallel(parallel) => parallel.template(member),
            State::Map(map) => map.template(member),
            State::Choice(_) | State::Wait(_) | State::Succeed(_) | State::Fail(_) => None,
        }
    }
}

// One state by itself, and one retrier.
ghost use Rattle.std.specs.Prelude.{◌≡◌, ◌++◌, OnOk, option_map};
ghost use Rattle.asl_json_data.specs.Data.{pairs};
ghost use Rattle.asl_json.specs.View.{data_of, members_of};
ghost use Rattle.asl_def_schema.specs.declared.sort.Kind.{Kind};
ghost use Rattle.asl_lint_warnings.specs.private.Trails.{steps_of};
ghost use Rattle.asl_lint_warnings.specs.Kinds.{noted};
ghost use Rattle.asl_lint_warnings.specs.States.{has, is_waiting, is_limited, kind_by, state_kind, heartbeat_kind, is_fail_text, is_fail, constant_kind, is_task, resource_kind, member_kind, is_choice, keeps_input, is_default, default_kind, has_delay, attempts_kind, delay_kind, retrier_kind};

use crate::naming::seems_computed;
use crate::token::sends_token;
use crate::trail::{Trail, is_inside, tell};
use crate::warning::{Warning, WarningKind, kind_if};
use asl_def_schema::{Kind, find, kind_named};
use asl_json::{Json, Member};
use std::alloc::{AllocError, Global};

fn has(members: &[Member], key: &str) -> bool
    ensures { result ≡ has key.now (pairs (members_of members.now)) }
{
    find(members, key).is_some()
}

/// Whether a service with this resource gets a token, so that its answer comes later.
fn is_waiting(resource: Option<&Json>) -> bool
    ensures { result ≡ is_waiting (option_map (λ v. data_of v.now) resource.entry) }
{
    match resource {
        Some(Json::Text(resource)) => {
            resource
                .as_str()
                .as_bytes()
                .ends_with(".waitForTaskToken".as_bytes())
        }
        _ => false,
    }
}

fn is_limited(members: &[Member]) -> bool
    ensures { result ≡ is_limited (pairs (members_of members.now)) }
{
    has(members, "TimeoutSeconds")
        || has(members, "TimeoutSecondsPath")
        || has(members, "HeartbeatSeconds")
        || has(members, "HeartbeatSecondsPath")
}

fn kind_by(kind: Option<Kind>, members: &[Member]) -> Option<WarningKind>
    ensures { result ≡ kind_by kind (pairs (members_of members.now)) }
{
    match kind {
        Some(Kind::Choice) => kind_if(!has(members, "Default"), WarningKind::NoDefault),
        Some(Kind::Task) => {
            let endless = is_waiting(find(members, "Resource")) && !is_limited(members);
            kind_if(endless, WarningKind::EndlessWait)
        }
        _ => None,
    }
}

/// What a state is warned of by itself.
pub(crate) fn state_kind(members: &[Member]) -> Option<WarningKind>
    ensures { result ≡ state_kind (pairs (members_of members.now)) }
{
    kind_by(kind_named(find(members, "Type")), members)
}

/// What a heartbeat is warned of beside a time limit.
fn heartbeat_kind(heartbeat: &Json, limit: Option<&Json>) -> Option<WarningKind>
    ensures { result ≡ heartbeat_kind (data_of heartbeat.now)
        (option_map (λ v. data_of v.now) limit.entry) }
{
    match (heartbeat, limit) {
        (Json::Num(heartbeat), Some(Json::Num(limit))) => {
            let shorter = heartbeat.units() < limit.units();
            kind_if(!shorter, WarningKind::HeartbeatNotShorter)
        }
        _ => None,
    }
}

/// Whether a Fail puts out the text of this member as it is.
fn is_fail_text(key: &str) -> bool
    ensures { result ≡ is_fail_text key.now }
{
    key == "Error" || key == "Cause"
}

fn is_fail(kind: Option<Kind>) -> bool
    ensures { result ≡ is_fail kind }
{
    matches!(kind, Some(Kind::Fail))
}

/// What a value is warned of that is put out as it is.
fn constant_kind(value: &Json) -> Option<WarningKind>
    ensures { result ≡ constant_kind (data_of value.now) }
{
    match value {
        Json::Text(text) => kind_if(seems_computed(text.as_str()), WarningKind::NotComputed),
        _ => None,
    }
}

fn is_task(kind: Option<Kind>) -> bool
    ensures { result ≡ is_task kind }
{
    matches!(kind, Some(Kind::Task))
}

/// What the resource of a Task is warned of beside its other members.
fn resource_kind(members: &[Member], resource: &Json) -> Option<WarningKind>
    ensures { result ≡ resource_kind (pairs (members_of members.now)) (data_of resource.now) }
{
    let unsent = is_waiting(Some(resource)) && !sends_token(members);
    kind_if(unsent, WarningKind::UnsentToken)
}

/// What the member of this key and value is warned of, of a state of these members.
pub(crate) fn member_kind(members: &[Member], key: &str, value: &Json) -> Option<WarningKind>
    ensures { result ≡ member_kind (pairs (members_of members.now)) key.now (data_of value.now) }
{
    if key == "HeartbeatSeconds" {
        heartbeat_kind(value, find(members, "TimeoutSeconds"))
    } else if is_fail_text(key) && is_fail(kind_named(find(members, "Type"))) {
        constant_kind(value)
    } else if key == "Resource" && is_task(kind_named(find(members, "Type"))) {
        resource_kind(members, value)
    } else {
        None
    }
}

fn is_choice(kind: Option<Kind>) -> bool
    ensures { result ≡ is_choice kind }
{
    matches!(kind, Some(Kind::Choice))
}

/// Whether the output of a Choice of these members is its raw input.
fn keeps_input(members: &[Member]) -> bool
    ensures { result ≡ keeps_input (pairs (members_of members.now)) }
{
    !(has(members, "InputPath") || has(members, "OutputPath"))
}

/// Whether the member of this key is the `Default` of a Choice that puts out its input.
fn is_default(members: &[Member], key: &str) -> bool
    ensures { result ≡ is_default (pairs (members_of members.now)) key.now }
{
    key == "Default" && is_choice(kind_named(find(members, "Type"))) && keeps_input(members)
}

/// Tells what a member of a state is warned of where it leads back to the state.
pub(crate) fn tell_default(
    alloc: Global,
    told: &mut Vec<Warning>,
    trail: &Trail,
    members: &[Member],
    member: &Member,
) -> Result<(), AllocError>
    ensures { OnOk result (told.new.items ≡ told.old.items
        ++ noted (steps_of trail.now) (default_kind (steps_of trail.now)
        (pairs (members_of members.now)) member.now.key (data_of member.now.value))) }
{
    match &member.value {
        Json::Text(target) => {
            let own = is_default(members, member.key.as_str())
                && is_inside(alloc, trail, target.as_str())?;
            tell(alloc, told, trail, kind_if(own, WarningKind::OwnDefault))
        }
        _ => Ok(()),
    }
}

fn has_delay(members: &[Member]) -> bool
    ensures { result ≡ has_delay (pairs (members_of members.now)) }
{
    has(members, "IntervalSeconds")
        || has(members, "BackoffRate")
        || has(members, "MaxDelaySeconds")
        || has(members, "JitterStrategy")
}

/// What a number of retries is warned of beside the other members of a retrier.
fn attempts_kind(attempts: &Json, members: &[Member]) -> Option<WarningKind>
    ensures { result ≡ attempts_kind (data_of attempts.now) (pairs (members_of members.now)) }
{
    match attempts {
        Json::Num(attempts) => {
            let unused = attempts.units() == 0 && has_delay(members);
            kind_if(unused, WarningKind::UnusedDelay)
        }
        _ => None,
    }
}

/// What the longest delay is warned of beside the first one.
fn delay_kind(most: &Json, first: Option<&Json>) -> Option<WarningKind>
    ensures { result ≡ delay_kind (data_of most.now) (option_map (λ v. data_of v.now) first.entry) }
{
    match (most, first) {
        (Json::Num(most), Some(Json::Num(first))) => {
            let shorter = most.units() < first.units();
            kind_if(shorter, WarningKind::MaxDelayBelowInterval)
        }
        _ => None,
    }
}

/// What the member of this key and value is warned of, of a retrier of these members.
pub(crate) fn retrier_kind(members: &[Member], key: &str, value: &Json) -> Option<WarningKind>
    ensures { result ≡ retrier_kind (pairs (members_of members.now)) key.now (data_of value.now) }
{
    if key == "MaxAttempts" {
        attempts_kind(value, members)
    } else if key == "MaxDelaySeconds" {
        delay_kind(value, find(members, "IntervalSeconds"))
    } else {
        None
    }
}

// A history in the shape in which the service tells one.
ghost use Rattle.std.specs.Prelude.{◌≡◌, ◌++◌, ◌∷◌, IfOk, OnOk, option_map, string_bytes, codes};
ghost use Rattle.asl_json.specs.Meaning.{value_in};
ghost use Rattle.asl_json_data.specs.Compact.{quoted};
ghost use Rattle.asl_json.specs.View.{data_of};
ghost use Rattle.asl_history_formats.specs.Resources.{resource_type, resource_name};
ghost use Rattle.asl_history_formats.specs.Aws.{said, named, error_details, and_error, number_member, iteration_told, resource_told, region_told, seconds_told, limit_told, limits_told, scheduled_told, details_inside, details_key, details_part, has_timed_out, is_timeout, parameters_key, parameters_told, type_name, event_kind, event_numbers, event_head, event_object, events_from, aws_text, truncated};

use crate::details::{Form, details_name, form_of};
use crate::pieces::{put_as_text, put_previous_key, put_stamp_key, separate};
use crate::resources::{resource_name, resource_type};
use crate::tasks::{Limits, Tasks};
use asl_history::Event;
use asl_json::Json;
use asl_json_write::{put, put_quoted};
use asl_text::put_decimal;
use asl_time::put_stamp;
use std::alloc::{AllocError, Global};

/// Appends that nothing of a text was cut off.
#[tactic(auto, unfolding(crate::specs::Aws::truncated))]
fn put_truncated(out: &mut String) -> Result<(), AllocError>
    ensures { OnOk result (string_bytes out.new ≡ string_bytes out.old ++ truncated) }
{
    out.push_str("Details\":{\"truncated\":false}")
}

/// Appends a value as the text of a member of this name, and that nothing of it was cut off.
fn put_said(alloc: Global, out: &mut String, name: &str, value: &Json) -> Result<(), AllocError>
    ensures { OnOk result (string_bytes out.new
        ≡ string_bytes out.old ++ said name.now (data_of value.now)) }
{
    out.push('"')?;
    out.push_str(name)?;
    out.push_str("\":")?;
    put_as_text(alloc, out, value)?;
    out.push_str(",\"")?;
    out.push_str(name)?;
    put_truncated(out)
}

/// Appends the name of a state, with a comma behind.
fn put_named(out: &mut String, event: &Event) -> Result<(), AllocError>
    ensures { OnOk result (string_bytes out.new ≡ string_bytes out.old ++ named event.now) }
{
    out.push_str("\"name\":")?;
    put_quoted(out, event.name.as_str())?;
    out.push(',')
}

fn put_error(out: &mut String, error: Option<&Json>, cause: Option<&Json>) -> Result<(), AllocError>
    ensures { OnOk result (string_bytes out.new ≡ string_bytes out.old
        ++ error_details (option_map (λ v. data_of v.now) error.entry)
        (option_map (λ v. data_of v.now) cause.entry)) }
{
    match (error, cause) {
        (Some(error), Some(cause)) => {
            out.push_str("\"error\":")?;
            put(out, error)?;
            out.push_str(",\"cause\":")?;
            put(out, cause)
        }
        (Some(error), None) => {
            out.push_str("\"error\":")?;
            put(out, error)
        }
        (None, Some(cause)) => {
            out.push_str("\"cause\":")?;
            put(out, cause)
        }
        (None, None) => Ok(()),
    }
}

/// Appends an error and its cause behind what stands before.
#[tactic(auto, unfolding(crate::specs::Aws::and_error))]
fn put_and_error(
    out: &mut String,
    error: Option<&Json>,
    cause: Option<&Json>,
) -> Result<(), AllocError>
    ensures { OnOk result (string_bytes out.new ≡ string_bytes out.old
        ++ and_error (option_map (λ v. data_of v.now) error.entry)
        (option_map (λ v. data_of v.now) cause.entry)) }
{
    if error.is_none() && cause.is_none() {
        return Ok(());
    }
    out.push(',')?;
    put_error(out, error, cause)
}

/// Appends a member of this name, where there is a value.
fn put_number_member(out: &mut String, name: &str, value: Option<&Json>) -> Result<(), AllocError>
    ensures { OnOk result (string_bytes out.new ≡ string_bytes out.old
        ++ number_member name.now (option_map (λ v. data_of v.now) value.entry)) }
{
    let Some(value) = value else {
        return Ok(());
    };
    out.push('"')?;
    out.push_str(name)?;
    out.push_str("\":")?;
    put(out, value)
}

fn put_state_said(
    alloc: Global,
    out: &mut String,
    name: &str,
    event: &Event,
) -> Result<(), AllocError>
    ensures { OnOk result (string_bytes out.new ≡ string_bytes out.old
        ++ (named event.now ++ said name.now (data_of event.now.body))) }
{
    put_named(out, event)?;
    put_said(alloc, out, name, &event.body)
}

/// Appends the key of what a Task is called with.
#[tactic(auto, unfolding(crate::specs::Aws::parameters_key))]
fn put_parameters_key(out: &mut String) -> Result<(), AllocError>
    ensures { OnOk result (string_bytes out.new ≡ string_bytes out.old ++ parameters_key) }
{
    out.push_str("\"parameters\":")
}

fn put_parameters(alloc: Global, out: &mut String, value: &Json) -> Result<(), AllocError>
    ensures { OnOk result (string_bytes out.new
        ≡ string_bytes out.old ++ parameters_told (data_of value.now)) }
{
    put_parameters_key(out)?;
    put_as_text(alloc, out, value)
}

/// Appends the type of a resource.
fn put_resource_type(alloc: Global, out: &mut String, resource: &str) -> Result<(), AllocError>
    ensures { OnOk result (string_bytes out.new
        ≡ string_bytes out.old ++ quoted (resource_type resource.now)) }
{
    let kind = resource_type(alloc, resource)?;
    put_quoted(out, kind.as_str())
}

/// Appends what of a resource is called.
fn put_resource_name(out: &mut String, resource: &str) -> Result<(), AllocError>
    ensures { OnOk result (string_bytes out.new
        ≡ string_bytes out.old ++ quoted (resource_name resource.now)) }
{
    put_quoted(out, resource_name(resource))
}

/// Appends what a Task of this resource calls.
#[tactic(auto, unfolding(crate::specs::Aws::resource_told))]
fn put_resource(alloc: Global, out: &mut String, resource: &str) -> Result<(), AllocError>
    ensures { OnOk result (string_bytes out.new
        ≡ string_bytes out.old ++ resource_told resource.now) }
{
    out.push_str("\"resourceType\":")?;
    put_resource_type(alloc, out, resource)?;
    out.push_str(",\"resource\":")?;
    put_resource_name(out, resource)
}

/// Appends the region in which a Task is called.
#[tactic(auto, unfolding(crate::specs::Aws::region_told))]
fn put_region(out: &mut String, region: &str) -> Result<(), AllocError>
    ensures { OnOk result (string_bytes out.new
        ≡ string_bytes out.old ++ region_told region.now) }
{
    out.push_str(",\"region\":")?;
    put_quoted(out, region)?;
    out.push_str(",")
}

/// Appends a limit of so many seconds behind what stands before.
#[tactic(auto, unfolding(crate::specs::Aws::seconds_told))]
fn put_seconds(out: &mut String, name: &str, seconds: u32) -> Result<(), AllocError>
    ensures { OnOk result (string_bytes out.new
        ≡ string_bytes out.old ++ seconds_told name.now seconds) }
{
    out.push_str(",\"")?;
    out.push_str(name)?;
    out.push_str("InSeconds\":")?;
    put_decimal(out, seconds as u64)
}

/// Appends a limit behind what stands before, where there is one.
fn put_limit(out: &mut String, name: &str, limit: Option<u32>) -> Result<(), AllocError>
    ensures { OnOk result (string_bytes out.new ≡ string_bytes out.old ++ limit_told name.now limit) }
{
    match limit {
        Some(seconds) => put_seconds(out, name, seconds),
        None => Ok(()),
    }
}

/// Appends how long a Task may take.
#[tactic(auto, unfolding(crate::specs::Aws::limits_told))]
fn put_limits(out: &mut String, limits: Limits) -> Result<(), AllocError>
    ensures { OnOk result (string_bytes out.new ≡ string_bytes out.old ++ limits_told limits) }
{
    put_limit(out, "timeout", limits.timeout)?;
    put_limit(out, "heartbeat", limits.heartbeat)
}

/// Appends how a Task of this resource is called, in this region, with these limits.
#[tactic(auto, unfolding(crate::specs::Aws::scheduled_told))]
fn put_scheduled(
    alloc: Global,
    out: &mut String,
    resource: &str,
    region: &str,
    limits: Limits,
    event: &Event,
) -> Result<(), AllocError>
    ensures { OnOk result (string_bytes out.new ≡ string_bytes out.old
        ++ scheduled_told resource.now region.now limits (data_of event.now.body)) }
{
    put_resource(alloc, out, resource)?;
    put_region(out, region)?;
    put_parameters(alloc, out, &event.body)?;
    put_limits(out, limits)
}

/// Appends the output of a Task behind its resource.
fn put_task_output(
    alloc: Global,
    out: &mut String,
    resource: &str,
    event: &Event,
) -> Result<(), AllocError>
    ensures { OnOk result (string_bytes out.new ≡ string_bytes out.old
        ++ (resource_told resource.now ++ 44 ∷ said (codes "output") (data_of event.now.body))) }
{
    put_resource(alloc, out, resource)?;
    out.push_str(",")?;
    put_said(alloc, out, "output", &event.body)
}

/// Appends the error of a Task behind its resource.
fn put_task_error(
    alloc: Global,
    out: &mut String,
    resource: &str,
    event: &Event,
) -> Result<(), AllocError>
    ensures { OnOk result (string_bytes out.new ≡ string_bytes out.old
        ++ (resource_told resource.now
        ++ and_error (value_in (codes "Error") (data_of event.now.body))
        (value_in (codes "Cause") (data_of event.now.body)))) }
{
    put_resource(alloc, out, resource)?;
    let body = event.body.get();
    put_and_error(out, body.get("Error"), body.get("Cause"))
}

fn put_iteration(out: &mut String, event: &Event) -> Result<(), AllocError>
    ensures { OnOk result (string_bytes out.new ≡ string_bytes out.old ++ iteration_told event.now) }
{
    put_named(out, event)?;
    put_number_member(out, "index", event.body.get().get("index"))
}

/// Appends the details of an event, of this form.
fn put_inside<T: Tasks>(
    alloc: Global,
    out: &mut String,
    tasks: &T,
    form: Form,
    event: &Event,
) -> Result<(), AllocError>
    ensures { OnOk result (string_bytes out.new ≡ string_bytes out.old
        ++ details_inside (T.table tasks.now) form event.now) }
{
    let body = event.body.get();
    let name = event.name.as_str();
    match form {
        Form::Nothing => Ok(()),
        Form::Input => put_said(alloc, out, "input", body),
        Form::Output => put_said(alloc, out, "output", body),
        Form::StateInput => put_state_said(alloc, out, "input", event),
        Form::StateOutput => put_state_said(alloc, out, "output", event),
        Form::Parameters => put_scheduled(
            alloc,
            out,
            tasks.resource(name),
            tasks.region(),
            tasks.limits(name),
            event,
        ),
        Form::Resource => put_resource(alloc, out, tasks.resource(name)),
        Form::TaskOutput => put_task_output(alloc, out, tasks.resource(name), event),
        Form::TaskError => put_task_error(alloc, out, tasks.resource(name), event),
        Form::Error => put_error(out, body.get("Error"), body.get("Cause")),
        Form::Length => put_number_member(out, "length", body.get("length")),
        Form::Iteration => put_iteration(out, event),
    }
}

/// Whether an error says that a Task took too long.
fn is_timeout(error: Option<&Json>) -> bool
    ensures { result ≡ is_timeout (option_map (λ v. data_of v.now) error.entry) }
{
    match error {
        Some(Json::Text(text)) => text.as_str() == "States.Timeout",
        _ => false,
    }
}

/// Whether an event, with details of this form, tells that a Task took too long.
fn has_timed_out(form: Form, event: &Event) -> bool
    ensures { result ≡ has_timed_out form event.now }
{
    match form {
        Form::TaskError => is_timeout(event.body.get().get("Error")),
        _ => false,
    }
}

/// The name of the member that has the details of an event, of this form.
#[tactic(auto, unfolding(crate::specs::Aws::details_key))]
fn details_key(form: Form, event: &Event) -> &'static str
    ensures { result.now ≡ details_key form event.now }
{
    if has_timed_out(form, event) {
        "taskTimedOutEventDetails"
    } else {
        details_name(event.kind)
    }
}

/// The type of an event, whose details are of this form.
#[tactic(auto, unfolding(crate::specs::Aws::type_name))]
fn type_name(form: Form, event: &Event) -> &'static str
    ensures { result.now ≡ type_name form event.now }
{
    if has_timed_out(form, event) {
        "TaskTimedOut"
    } else {
        event.kind.name()
    }
}

/// Appends the member with the details of an event, of this form.
fn put_details<T: Tasks>(
    alloc: Global,
    out: &mut String,
    tasks: &T,
    form: Form,
    event: &Event,
) -> Result<(), AllocError>
    ensures { OnOk result (string_bytes out.new ≡ string_bytes out.old
        ++ details_part (T.table tasks.now) form event.now) }
{
    if form == Form::Nothing {
        return Ok(());
    }
    out.push_str(",\"")?;
    out.push_str(details_key(form, event))?;
    out.push_str("\":{")?;
    put_inside(alloc, out, tasks, form, event)?;
    out.push('}')
}

fn put_kind(out: &mut String, event: &Event) -> Result<(), AllocError>
    ensures { OnOk result (string_bytes out.new ≡ string_bytes out.old ++ event_kind event.now) }
{
    out.push('{')?;
    put_stamp_key(out)?;
    put_stamp(out, event.at)?;
    out.push_str("\",\"type\":\"")?;
    out.push_str(type_name(form_of(event.kind), event))
}

fn put_numbers(out: &mut String, event: &Event) -> Result<(), AllocError>
    ensures { OnOk result (string_bytes out.new ≡ string_bytes out.old ++ event_numbers event.now) }
{
    out.push_str("\",\"id\":")?;
    put_decimal(out, event.id)?;
    put_previous_key(out)?;
    put_decimal(out, event.previous)
}

fn put_head(out: &mut String, event: &Event) -> Result<(), AllocError>
    ensures { OnOk result (string_bytes out.new ≡ string_bytes out.old ++ event_head event.now) }
{
    put_kind(out, event)?;
    put_numbers(out, event)
}

fn put_event<T: Tasks>(
    alloc: Global,
    out: &mut String,
    tasks: &T,
    event: &Event,
) -> Result<(), AllocError>
    ensures { OnOk result (string_bytes out.new
        ≡ string_bytes out.old ++ event_object (T.table tasks.now) event.now) }
{
    put_head(out, event)?;
    put_details(alloc, out, tasks, form_of(event.kind), event)?;
    out.push('}')
}

fn put_events<T: Tasks>(
    alloc: Global,
    out: &mut String,
    tasks: &T,
    events: &[Event],
) -> Result<(), AllocError>
    ensures { OnOk result (string_bytes out.new
        ≡ string_bytes out.old ++ events_from (T.table tasks.now) 0 events.now) }
{
    for (number, event) in events.iter().enumerate() {
        separate(out, number)?;
        put_event(alloc, out, tasks, event)?;
    }
    Ok(())
}

/// The events of a history as one JSON text, in the shape of the service's `GetExecutionHistory`: an object with the list `events`, and in
/// each event `timestamp`, `type`, `id`, `previousEventId` and the member with the details of its kind, in which inputs, outputs and
/// parameters are texts; the Tasks are these. The error is that memory ran out.
pub fn aws_json<T: Tasks>(alloc: Global, tasks: &T, events: &[Event]) -> Result<String, AllocError>
    ensures { IfOk result (λ t. string_bytes t ≡ aws_text (T.table tasks.now) events.now) }
{
    let mut out = String::new(alloc);
    out.push_str("{\"events\":[")?;
    put_events(alloc, &mut out, tasks, events)?;
    out.push_str("]}\n")?;
    Ok(out)
}

// `serde_json` as the program that reads the formats for other programs.
use crate::history::add;
use asl_history::{Event, EventKind, History};
use asl_history_formats::{Limits, Tasks, aws_json, lines_of_json};
use serde_json::Value;
use std::alloc::Global;
use std::test::Fail;

/// An event, and the member with its details, as the service tells them; an empty name where it tells none.
struct Row {
    kind: EventKind,
    place: &'static str,
    name: &'static str,
    body: &'static str,
    member: &'static str,
    details: &'static str,
}

/// Events of each kind, with names and bodies that have to be escaped.
const ROWS: &[Row] = &[
    Row {
        kind: EventKind::ExecutionStarted,
        place: "/",
        name: "",
        body: "{\"n\":1}",
        member: "executionStartedEventDetails",
        details: "{\"input\":\"{\\\"n\\\":1}\",\"inputDetails\":{\"truncated\":false}}",
    },
    Row {
        kind: EventKind::PassStateEntered,
        place: "/",
        name: "Pass",
        body: "{}",
        member: "stateEnteredEventDetails",
        details: "{\"name\":\"Pass\",\"input\":\"{}\",\"inputDetails\":{\"truncated\":false}}",
    },
    Row {
        kind: EventKind::TaskStateEntered,
        place: "/",
        name: "a \"b\" \\ \t \u{1} \u{1f600}",
        body: "null",
        member: "stateEnteredEventDetails",
        details: "{\"name\":\"a \\\"b\\\" \\\\ \\t \\u0001 \u{1f600}\",\"input\":\"null\",\"inputDetails\":{\"truncated\":false}}",
    },
    Row {
        kind: EventKind::ChoiceStateEntered,
        place: "/",
        name: "Choice",
        body: "[true,false,null]",
        member: "stateEnteredEventDetails",
        details: "{\"name\":\"Choice\",\"input\":\"[true,false,null]\",\"inputDetails\":{\"truncated\":false}}",
    },
    Row {
        kind: EventKind::WaitStateEntered,
        place: "/",
        name: "a \"b\" \\ \t \u{1} \u{1f600}",
        body: "{\"a\":{\"b\":[1,-2,1.5]},\"c\":\"\"}",
        member: "stateEnteredEventDetails",
        details: "{\"name\":\"a \\\"b\\\" \\\\ \\t \\u0001 \u{1f600}\",\"input\":\"{\\\"a\\\":{\\\"b\\\":[1,-2,1.5]},\\\"c\\\":\\\"\\\"}\",\"inputDetails\":{\"truncated\":false}}",
    },
    Row {
        kind: EventKind::SucceedStateEntered,
        place: "/",
        name: "Succeed",
        body: "\"x\"",
        member: "stateEnteredEventDetails",
        details: "{\"name\":\"Succeed\",\"input\":\"\\\"x\\\"\",\"inputDetails\":{\"truncated\":false}}",
    },
    Row {
        kind: EventKind::FailStateEntered,
        place: "/",
        name: "a \"b\" \\ \t \u{1} \u{1f600}",
        body: "\"\\\"quoted\\\" \\\\ \\n \\u0007 \\u00e9\"",
        member: "stateEnteredEventDetails",
        details: "{\"name\":\"a \\\"b\\\" \\\\ \\t \\u0001 \u{1f600}\",\"input\":\"\\\"\\\\\\\"quoted\\\\\\\" \\\\\\\\ \\\\n \\\\u0007 \u{e9}\\\"\",\"inputDetails\":{\"truncated\":false}}",
    },
    Row {
        kind: EventKind::ParallelStateEntered,
        place: "/",
        name: "Parallel",
        body: "0",
        member: "stateEnteredEventDetails",
        details: "{\"name\":\"Parallel\",\"input\":\"0\",\"inputDetails\":{\"truncated\":false}}",
    },
    Row {
        kind: EventKind::MapStateEntered,
        place: "/",
        name: "a \"b\" \\ \t \u{1} \u{1f600}",
        body: "{\"\\\"\":{\"\\u2028\":\"\u{1f600}\"}}",
        member: "stateEnteredEventDetails",
        details: "{\"name\":\"a \\\"b\\\" \\\\ \\t \\u0001 \u{1f600}\",\"input\":\"{\\\"\\\\\\\"\\\":{\\\"\u{2028}\\\":\\\"\u{1f600}\\\"}}\",\"inputDetails\":{\"truncated\":false}}",
    },
    Row {
        kind: EventKind::PassStateExited,
        place: "/1",
        name: "a \"b\" \\ \t \u{1} \u{1f600}",
        body: "{}",
        member: "stateExitedEventDetails",
        details: "{\"name\":\"a \\\"b\\\" \\\\ \\t \\u0001 \u{1f600}\",\"output\":\"{}\",\"outputDetails\":{\"truncated\":false}}",
    },
    Row {
        kind: EventKind::TaskStateExited,
        place: "/1",
        name: "Task",
        body: "null",
        member: "stateExitedEventDetails",
        details: "{\"name\":\"Task\",\"output\":\"null\",\"outputDetails\":{\"truncated\":false}}",
    },
    Row {
        kind: EventKind::ChoiceStateExited,
        place: "/1",
        name: "a \"b\" \\ \t \u{1} \u{1f600}",
        body: "[true,false,null]",
        member: "stateExitedEventDetails",
        details: "{\"name\":\"a \\\"b\\\" \\\\ \\t \\u0001 \u{1f600}\",\"output\":\"[true,false,null]\",\"outputDetails\":{\"truncated\":false}}",
    },
    Row {
        kind: EventKind::WaitStateExited,
        place: "/1",
        name: "Wait",
        body: "{\"a\":{\"b\":[1,-2,1.5]},\"c\":\"\"}",
        member: "stateExitedEventDetails",
        details: "{\"name\":\"Wait\",\"output\":\"{\\\"a\\\":{\\\"b\\\":[1,-2,1.5]},\\\"c\\\":\\\"\\\"}\",\"outputDetails\":{\"truncated\":false}}",
    },
    Row {
        kind: EventKind::SucceedStateExited,
        place: "/1",
        name: "a \"b\" \\ \t \u{1} \u{1f600}",
        body: "\"x\"",
        member: "stateExitedEventDetails",
        details: "{\"name\":\"a \\\"b\\\" \\\\ \\t \\u0001 \u{1f600}\",\"output\":\"\\\"x\\\"\",\"outputDetails\":{\"truncated\":false}}",
    },
    Row {
        kind: EventKind::ParallelStateExited,
        place: "/1",
        name: "Parallel",
        body: "\"\\\"quoted\\\" \\\\ \\n \\u0007 \\u00e9\"",
        member: "stateExitedEventDetails",
        details: "{\"name\":\"Parallel\",\"output\":\"\\\"\\\\\\\"quoted\\\\\\\" \\\\\\\\ \\\\n \\\\u0007 \u{e9}\\\"\",\"outputDetails\":{\"truncated\":false}}",
    },
    Row {
        kind: EventKind::MapStateExited,
        place: "/1",
        name: "a \"b\" \\ \t \u{1} \u{1f600}",
        body: "0",
        member: "stateExitedEventDetails",
        details: "{\"name\":\"a \\\"b\\\" \\\\ \\t \\u0001 \u{1f600}\",\"output\":\"0\",\"outputDetails\":{\"truncated\":false}}",
    },
    Row {
        kind: EventKind::TaskScheduled,
        place: "/0",
        name: "T",
        body: "{\"p\":\"\\\\\"}",
        member: "taskScheduledEventDetails",
        details: "{\"resourceType\":\"lambda\",\"resource\":\"invoke\",\"region\":\"eu-central-1\",\"parameters\":\"{\\\"p\\\":\\\"\\\\\\\\\\\"}\"}",
    },
    Row {
        kind: EventKind::TaskStarted,
        place: "/0",
        name: "T",
        body: "{}",
        member: "taskStartedEventDetails",
        details: "{\"resourceType\":\"lambda\",\"resource\":\"invoke\"}",
    },
    Row {
        kind: EventKind::TaskSucceeded,
        place: "/0",
        name: "T",
        body: "\"r\"",
        member: "taskSucceededEventDetails",
        details: "{\"resourceType\":\"lambda\",\"resource\":\"invoke\",\"output\":\"\\\"r\\\"\",\"outputDetails\":{\"truncated\":false}}",
    },
    Row {
        kind: EventKind::TaskFailed,
        place: "/0",
        name: "T",
        body: "{\"Error\":\"E\",\"Cause\":\"no \\\"answer\\\"\\n\"}",
        member: "taskFailedEventDetails",
        details: "{\"resourceType\":\"lambda\",\"resource\":\"invoke\",\"error\":\"E\",\"cause\":\"no \\\"answer\\\"\\n\"}",
    },
    Row {
        kind: EventKind::TaskFailed,
        place: "/0",
        name: "T",
        body: "{\"Cause\":\"c\"}",
        member: "taskFailedEventDetails",
        details: "{\"resourceType\":\"lambda\",\"resource\":\"invoke\",\"cause\":\"c\"}",
    },
    Row {
        kind: EventKind::TaskFailed,
        place: "/0",
        name: "T",
        body: "{}",
        member: "taskFailedEventDetails",
        details: "{\"resourceType\":\"lambda\",\"resource\":\"invoke\"}",
    },
    Row {
        kind: EventKind::ParallelStateStarted,
        place: "/",
        name: "P",
        body: "{}",
        member: "",
        details: "",
    },
    Row {
        kind: EventKind::ParallelStateSucceeded,
        place: "/",
        name: "P",
        body: "{}",
        member: "",
        details: "",
    },
    Row {
        kind: EventKind::ParallelStateFailed,
        place: "/",
        name: "P",
        body: "{}",
        member: "",
        details: "",
    },
    Row {
        kind: EventKind::MapStateStarted,
        place: "/2/0",
        name: "M",
        body: "{\"length\":3}",
        member: "mapStateStartedEventDetails",
        details: "{\"length\":3}",
    },
    Row {
        kind: EventKind::MapIterationStarted,
        place: "/2/0/1",
        name: "a \"b\" \\ \t \u{1} \u{1f600}",
        body: "{\"index\":1}",
        member: "mapIterationStartedEventDetails",
        details: "{\"name\":\"a \\\"b\\\" \\\\ \\t \\u0001 \u{1f600}\",\"index\":1}",
    },
    Row {
        kind: EventKind::MapIterationSucceeded,
        place: "/2/0/1",
        name: "a \"b\" \\ \t \u{1} \u{1f600}",
        body: "{\"index\":1}",
        member: "mapIterationSucceededEventDetails",
        details: "{\"name\":\"a \\\"b\\\" \\\\ \\t \\u0001 \u{1f600}\",\"index\":1}",
    },
    Row {
        kind: EventKind::MapIterationFailed,
        place: "/2/0/1",
        name: "a \"b\" \\ \t \u{1} \u{1f600}",
        body: "{\"index\":1}",
        member: "mapIterationFailedEventDetails",
        details: "{\"name\":\"a \\\"b\\\" \\\\ \\t \\u0001 \u{1f600}\",\"index\":1}",
    },
    Row {
        kind: EventKind::MapStateSucceeded,
        place: "/2/0",
        name: "M",
        body: "{}",
        member: "",
        details: "",
    },
    Row {
        kind: EventKind::MapStateFailed,
        place: "/2/0",
        name: "M",
        body: "{}",
        member: "",
        details: "",
    },
    Row {
        kind: EventKind::ExecutionSucceeded,
        place: "/",
        name: "",
        body: "[1,-2,1.5]",
        member: "executionSucceededEventDetails",
        details: "{\"output\":\"[1,-2,1.5]\",\"outputDetails\":{\"truncated\":false}}",
    },
    Row {
        kind: EventKind::ExecutionFailed,
        place: "/",
        name: "",
        body: "{\"Error\":\"E\"}",
        member: "executionFailedEventDetails",
        details: "{\"error\":\"E\"}",
    },
    Row {
        kind: EventKind::ExecutionTimedOut,
        place: "/",
        name: "",
        body: "{\"Error\":\"States.Timeout\"}",
        member: "executionTimedOutEventDetails",
        details: "{\"error\":\"States.Timeout\"}",
    },
];

/// The members of an event beside its details, and those of its line.
const HEAD: usize = 4;

const LINE: usize = 7;

/// Tasks that all invoke a function of Lambda, and have these limits.
#[derive(Clone, Copy)]
struct Invoke {
    limits: Limits,
}

impl Tasks for Invoke {
    ghost use Rattle.std.specs.Prelude.{codes};

    ghost table = { λ x. record { resource = λ n. codes "arn:aws:states:::lambda:invoke"; limits = λ n. x.limits; region = codes "eu-central-1" } };

    fn resource(&self, _name: &str) -> &str {
        "arn:aws:states:::lambda:invoke"
    }

    fn limits(&self, _name: &str) -> Limits {
        self.limits
    }

    fn region(&self) -> &str {
        "eu-central-1"
    }
}

/// Those without limits.
const INVOKE: Invoke = Invoke {
    limits: Limits {
        timeout: None,
        heartbeat: None,
    },
};

fn told(alloc: Global) -> Option<History> {
    let mut history = History::new(alloc);
    for row in ROWS {
        add(alloc, &mut history, row.place, row.kind, row.name, row.body)?;
    }
    Some(history)
}

fn value_of(alloc: Global, text: &str) -> Option<Value> {
    Value::from_str(alloc, text).ok()
}

fn has_text(value: &Value, key: &str, wanted: &str) -> bool {
    match value.get(key) {
        Some(found) => found.as_str() == Some(wanted),
        None => false,
    }
}

fn has_number(value: &Value, key: &str, wanted: u64) -> bool {
    match value.get(key) {
        Some(found) => found.as_u64() == Some(wanted),
        None => false,
    }
}

fn has_value(value: &Value, key: &str, wanted: &Value) -> bool {
    match value.get(key) {
        Some(found) => found == wanted,
        None => false,
    }
}

fn has_members(value: &Value, count: usize) -> bool {
    match value.as_object() {
        Some(members) => members.len() == count,
        None => false,
    }
}

/// Whether the number, the link, the moment and the kind are the event's.
fn has_head(value: &Value, event: &Event) -> bool {
    has_number(value, "id", event.id)
        && has_number(value, "previousEventId", event.previous)
        && has_text(value, "timestamp", "2024-01-01T00:00:00.000Z")
        && has_text(value, "type", event.kind.name())
}

/// Whether the line is read as the event of this row, and as nothing more.
fn is_line(alloc: Global, line: &str, event: &Event, row: &Row) -> Option<bool> {
    let value = value_of(alloc, line)?;
    let body = value_of(alloc, row.body)?;
    let is_event = has_head(&value, event) && has_members(&value, LINE);
    let is_row = has_text(&value, "place", row.place) && has_text(&value, "name", row.name);
    Some(is_event && is_row && has_value(&value, "body", &body))
}

/// Whether the text of this member, where it is there, is read as the body of the row.
fn says_body(alloc: Global, details: &Value, key: &str, row: &Row) -> Option<bool> {
    let Some(said) = details.get(key) else {
        return Some(true);
    };
    Some(value_of(alloc, said.as_str()?)? == value_of(alloc, row.body)?)
}

/// Whether the details are those of the row, and the texts in them are read as its body.
fn has_details(alloc: Global, value: &Value, row: &Row) -> Option<bool> {
    let details = value.get(row.member)?;
    let says = says_body(alloc, details, "input", row)?
        && says_body(alloc, details, "output", row)?
        && says_body(alloc, details, "parameters", row)?;
    Some(says && *details == value_of(alloc, row.details)?)
}

/// Whether the object is the event of this row, in the service's shape.
fn is_event(alloc: Global, value: &Value, event: &Event, row: &Row) -> Option<bool> {
    if row.member.is_empty() {
        return Some(has_head(value, event) && has_members(value, HEAD));
    }
    let has_details = has_details(alloc, value, row)?;
    Some(has_head(value, event) && has_members(value, HEAD + 1) && has_details)
}

#[test]
fn each_line_is_read_as_its_event(rt: HostRuntime) -> Result<(), Fail> {
    let history = told(rt.alloc()).ok_or("no history")?;
    let text = lines_of_json(rt.alloc(), history.events())?;
    assert_eq!(rt; text.as_str().lines().count(), ROWS.len());
    for (line, (event, row)) in text.as_str().lines().zip(history.events().iter().zip(ROWS)) {
        assert!(rt;
            is_line(rt.alloc(), line, event, row) == Some(true),
            "{line}"
        );
    }
    Ok(())
}

#[test]
fn each_event_is_read_in_the_shape_of_the_service(rt: HostRuntime) -> Result<(), Fail> {
    let history = told(rt.alloc()).ok_or("no history")?;
    let text = aws_json(rt.alloc(), &INVOKE, history.events())?;
    let value = value_of(rt.alloc(), text.as_str()).ok_or("not read")?;
    assert!(rt; has_members(&value, 1));
    let events = value.get("events").ok_or("no events")?;
    let events = events.as_array().ok_or("no list")?;
    assert_eq!(rt; events.len(), ROWS.len());
    for (told, (event, row)) in events.iter().zip(history.events().iter().zip(ROWS)) {
        let line = event.id;
        assert!(rt;
            is_event(rt.alloc(), told, event, row) == Some(true),
            "{line}"
        );
    }
    Ok(())
}

#[test]
fn a_task_that_took_too_long_is_an_event_of_its_own(rt: HostRuntime) -> Result<(), Fail> {
    let mut history = History::new(rt.alloc());
    let body = "{\"Error\":\"States.Timeout\"}";
    add(
        rt.alloc(),
        &mut history,
        "/0",
        EventKind::TaskFailed,
        "T",
        body,
    )
    .ok_or("not added")?;
    let text = aws_json(rt.alloc(), &INVOKE, history.events())?;
    let value = value_of(rt.alloc(), text.as_str()).ok_or("not read")?;
    let events = value.get("events").ok_or("no events")?;
    let events = events.as_array().ok_or("no list")?;
    let event = events.first().ok_or("no event")?;
    assert!(rt; has_text(event, "type", "TaskTimedOut"));
    let details = event.get("taskTimedOutEventDetails").ok_or("no details")?;
    assert!(rt; has_text(details, "error", "States.Timeout"));
    assert!(rt; has_text(details, "resource", "invoke"));
    Ok(())
}

/// The text of what a Task with these limits is scheduled with.
fn scheduled(alloc: Global, timeout: Option<u32>, heartbeat: Option<u32>) -> Option<String> {
    let mut history = History::new(alloc);
    add(
        alloc,
        &mut history,
        "/0",
        EventKind::TaskScheduled,
        "T",
        "{}",
    )?;
    let invoke = Invoke {
        limits: Limits { timeout, heartbeat },
    };
    aws_json(alloc, &invoke, history.events()).ok()
}

#[test]
fn limits_stand_behind_the_parameters(rt: HostRuntime) -> Result<(), Fail> {
    let rows = [
        (None, None, "\"parameters\":\"{}\"}}"),
        (
            Some(300),
            None,
            "\"parameters\":\"{}\",\"timeoutInSeconds\":300}}",
        ),
        (
            None,
            Some(0),
            "\"parameters\":\"{}\",\"heartbeatInSeconds\":0}}",
        ),
        (
            Some(99_999_999),
            Some(60),
            "\"parameters\":\"{}\",\"timeoutInSeconds\":99999999,\"heartbeatInSeconds\":60}}",
        ),
    ];
    for (timeout, heartbeat, end) in rows {
        let text = scheduled(rt.alloc(), timeout, heartbeat).ok_or("no text")?;
        assert!(rt; text.as_str().contains(end), "{end}");
    }
    Ok(())
}

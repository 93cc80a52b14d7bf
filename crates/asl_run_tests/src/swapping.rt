// Which steps may change places, and the first reason why others may not.
use crate::opened::setup_of;
use crate::shown::place_of;
use asl_exec::{Execution, put_obstacle};
use asl_run_input::StepAt;
use asl_time::Moment;
use std::test::Fail;

/// Two branches of a Pass and a Succeed each.
const PASSES: &str =
    r#"{"StartAt":"Q","States":{"Q":{"Type":"Parallel","Branches":[{"StartAt":"A","States":{"A":{"Type":"Pass","Next":"A2"},"A2":{"Type":"Succeed"}}},{"StartAt":"B","States":{"B":{"Type":"Pass","Next":"B2"},"B2":{"Type":"Succeed"}}}],"End":true}}}"#;

/// A Wait and a Fail side by side, in an execution that lasts three seconds.
const WAITS: &str =
    r#"{"StartAt":"Q","TimeoutSeconds":3,"States":{"Q":{"Type":"Parallel","Branches":[{"StartAt":"A","States":{"A":{"Type":"Wait","Seconds":1,"End":true}}},{"StartAt":"B","States":{"B":{"Type":"Fail"}}}],"End":true}}}"#;

/// Iterations of a Pass and a Task.
const TASKS: &str =
    r#"{"StartAt":"M","States":{"M":{"Type":"Map","Iterator":{"StartAt":"P","States":{"P":{"Type":"Pass","Next":"T"},"T":{"Type":"Task","Resource":"r","End":true}}},"End":true}}}"#;

/// Iterations of a Task.
const NEW_TASKS: &str =
    r#"{"StartAt":"M","States":{"M":{"Type":"Map","Iterator":{"StartAt":"T","States":{"T":{"Type":"Task","Resource":"r","End":true}}},"End":true}}}"#;

/// Two iterations at once, of a Pass.
const TWO: &str =
    r#"{"StartAt":"M","States":{"M":{"Type":"Map","MaxConcurrency":2,"Iterator":{"StartAt":"P","States":{"P":{"Type":"Pass","End":true}}},"End":true}}}"#;

/// A machine, its input, places that are stepped; then two steps, each at a place and so many milliseconds, and what is said of them.
const ROWS: &[(&str, &str, &[&str], (&str, u64), (&str, u64), &str)] = &[
    (PASSES, "{}", &["/"], ("/0", 0), ("/1", 0), "exchangeable"),
    (PASSES, "{}", &["/"], ("/1", 0), ("/0", 0), "exchangeable"),
    (
        PASSES,
        "{}",
        &["/"],
        ("/0", 0),
        ("/1", 1),
        "not exchangeable: the moments differ",
    ),
    (
        PASSES,
        "{}",
        &["/"],
        ("/", 0),
        ("/0", 0),
        "not exchangeable: / is above /0",
    ),
    (
        PASSES,
        "{}",
        &["/"],
        ("/1/3", 0),
        ("/1", 1),
        "not exchangeable: /1 is above /1/3",
    ),
    (
        PASSES,
        "{}",
        &["/"],
        ("/0", 0),
        ("/0", 0),
        "not exchangeable: both are at /0",
    ),
    (
        PASSES,
        "{}",
        &["/", "/1", "/1"],
        ("/0", 0),
        ("/1", 0),
        "not exchangeable: /1 S4 Finished",
    ),
    (
        PASSES,
        "{}",
        &["/"],
        ("/2", 0),
        ("/3", 0),
        "not exchangeable: /2 S2 NoSuchPlace",
    ),
    (
        WAITS,
        "{}",
        &["/"],
        ("/0", 0),
        ("/1", 0),
        "not exchangeable: /1 fails its branch",
    ),
    (
        WAITS,
        "{}",
        &["/", "/0"],
        ("/1", 999),
        ("/0", 999),
        "not exchangeable: /0 S7 NotYet 1970-01-01T00:00:01.000Z",
    ),
    (
        WAITS,
        "{}",
        &["/", "/1"],
        ("/0", 3000),
        ("/1", 3000),
        "not exchangeable: /0 ends the execution",
    ),
    (TASKS, "[1,2]", &["/"], ("/0", 0), ("/1", 0), "exchangeable"),
    (
        TASKS,
        "[1,2]",
        &["/", "/0"],
        ("/0", 0),
        ("/1", 0),
        "exchangeable",
    ),
    (
        TASKS,
        "[1,2]",
        &["/", "/0", "/1"],
        ("/0", 0),
        ("/1", 0),
        "not exchangeable: both invoke \"T\"",
    ),
    (
        NEW_TASKS,
        "[1,2]",
        &["/"],
        ("/0", 0),
        ("/1", 0),
        "not exchangeable: both invoke \"T\"",
    ),
    (
        TWO,
        "[1,2,3]",
        &["/"],
        ("/1", 0),
        ("/2", 0),
        "not exchangeable: /2 S6 Slots",
    ),
    (
        TWO,
        "[1,2,3]",
        &["/", "/0"],
        ("/1", 0),
        ("/2", 0),
        "exchangeable",
    ),
];

/// What the Task answers.
const MOCKS: &str =
    r#"{"StateMachines":{"M":{"TestCases":{"A":{"T":"R"}}}},"MockedResponses":{"R":{"0-9":{"Return":1}}}}"#;

/// An execution after steps at these places, each of which is accepted.
fn stepped(
    rt: &HostRuntime,
    definition: &str,
    input: &str,
    places: &[&str],
) -> Result<Execution, Fail> {
    let setup = setup_of(rt.alloc(), definition, MOCKS, "M#A", input)?;
    let mut execution = Execution::open(rt.alloc(), setup)?;
    for text in places {
        let place = place_of(rt.alloc(), text)?;
        execution
            .step(&place, Moment::FIRST)
            .map_err(|_| "refused")?;
    }
    Ok(execution)
}

/// A step at a place, so many milliseconds after the epoch.
fn step_at(rt: &HostRuntime, (place, millis): (&str, u64)) -> Result<StepAt, Fail> {
    let place = place_of(rt.alloc(), place)?;
    let moment = Moment::of_millis(millis).ok_or("no moment")?;
    Ok(StepAt { place, moment })
}

/// What is said of two steps; and whether they may change places.
fn said(
    rt: &HostRuntime,
    execution: &Execution,
    one: (&str, u64),
    other: (&str, u64),
) -> Result<(String, bool), Fail> {
    let one = step_at(rt, one)?;
    let other = step_at(rt, other)?;
    let mut text = String::new(rt.alloc());
    match execution.obstacle(&one, &other)? {
        None => text.push_str("exchangeable")?,
        Some(obstacle) => put_obstacle(&mut text, &obstacle)?,
    }
    Ok((text, execution.may_swap(&one, &other)?))
}

#[test]
fn the_first_reason_against_two_steps_is_told(rt: HostRuntime) -> Result<(), Fail> {
    for (definition, input, places, one, other, wanted) in ROWS {
        let execution = stepped(&rt, definition, input, places)?;
        let (text, may_swap) = said(&rt, &execution, *one, *other)?;
        assert_eq!(rt; text.as_str(), *wanted);
        assert_eq!(rt; may_swap, *wanted == "exchangeable");
    }
    Ok(())
}

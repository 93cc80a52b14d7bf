// A Task and a Parallel that are retried, step by step: the replies, and what is told in the end.
use crate::setups::{put_ended, setup_by, steps_of, unchanged};
use asl_exec::Execution;
use asl_run_input::StepAt;
use asl_run_state::{Refusal, put_step};
use std::alloc::{AllocError, Global};
use std::test::Fail;

/// An execution of this definition by the case of this mock file.
fn opened(alloc: Global, definition: &str, mocks: &str) -> Result<Execution, Fail> {
    match Execution::open(alloc, setup_by(alloc, definition, mocks, "M#c", "{}")?) {
        Ok(execution) => Ok(execution),
        Err(AllocError) => {
            let setup = setup_by(alloc, definition, mocks, "M#c", "{}")?;
            Ok(Execution::open(alloc, setup)?)
        }
    }
}

/// Why a step is refused, if it is; where it was refused memory, it is taken again.
fn refusal(execution: &mut Execution, at: &StepAt) -> Result<Option<Refusal>, Fail> {
    let events = execution.history().len();
    match execution.step(&at.place, at.moment) {
        Err(Refusal::OutOfMemory) => {
            unchanged(execution.history().len() == events)?;
            Ok(execution.step(&at.place, at.moment).err())
        }
        replied => Ok(replied.err()),
    }
}

/// Appends the line of a step.
fn put(out: &mut String, at: &StepAt, refusal: Option<Refusal>) -> Result<(), Fail> {
    match put_step(out, &at.place, refusal) {
        Ok(()) => Ok(()),
        Err(AllocError) => Ok(put_step(out, &at.place, refusal)?),
    }
}

/// The text of a run by these steps.
fn run(alloc: Global, definition: &str, mocks: &str, steps: &str) -> Result<String, Fail> {
    let mut execution = opened(alloc, definition, mocks)?;
    let mut text = String::new(alloc);
    for at in &steps_of(alloc, steps)? {
        let refusal = refusal(&mut execution, at)?;
        put(&mut text, at, refusal)?;
    }
    put_ended(alloc, &mut text, execution.world())?;
    Ok(text)
}

/// A Task that is retried after delays that grow.
const TASK: &str = r#"{"StartAt":"W","States":{"W":{"Type":"Task","Resource":"r",
"Retry":[{"ErrorEquals":["E.A","E.B"],"IntervalSeconds":3,"MaxAttempts":3,"BackoffRate":1.5}],"End":true}}}"#;

/// What its four invocations are answered.
const FAILURES: &str =
    r#"{"StateMachines":{"M":{"TestCases":{"c":{"W":"w"}}}},"MockedResponses":{"w":{
"0":{"Throw":{"Error":"E.A"}},"1-2":{"Throw":{"Error":"E.B","Cause":"slow"}},"3":{"Return":{"ok":true}}}}}"#;

/// A step for each invocation, and one that is too early.
const TASK_STEPS: &str = "/ 2024-01-01T00:00:00Z
/ 2024-01-01T00:00:03Z
/ 2024-01-01T00:00:07.499Z
/ 2024-01-01T00:00:07.5Z
/ 2024-01-01T00:00:14.25Z";

/// What is told of them.
const TASK_RUN: &str = r#"step / ok
step / ok
step / S7 NotYet 2024-01-01T00:00:07.500Z
step / ok
step / ok
1 0 1970-01-01T00:00:00.000Z / ExecutionStarted "" {}
2 1 2024-01-01T00:00:00.000Z / TaskStateEntered "W" {}
3 2 2024-01-01T00:00:00.000Z / TaskScheduled "W" {}
4 3 2024-01-01T00:00:00.000Z / TaskStarted "W" {}
5 4 2024-01-01T00:00:00.000Z / TaskFailed "W" {"Error":"E.A"}
6 5 2024-01-01T00:00:03.000Z / TaskScheduled "W" {}
7 6 2024-01-01T00:00:03.000Z / TaskStarted "W" {}
8 7 2024-01-01T00:00:03.000Z / TaskFailed "W" {"Error":"E.B","Cause":"slow"}
9 8 2024-01-01T00:00:07.500Z / TaskScheduled "W" {}
10 9 2024-01-01T00:00:07.500Z / TaskStarted "W" {}
11 10 2024-01-01T00:00:07.500Z / TaskFailed "W" {"Error":"E.B","Cause":"slow"}
12 11 2024-01-01T00:00:14.250Z / TaskScheduled "W" {}
13 12 2024-01-01T00:00:14.250Z / TaskStarted "W" {}
14 13 2024-01-01T00:00:14.250Z / TaskSucceeded "W" {"ok":true}
15 14 2024-01-01T00:00:14.250Z / TaskStateExited "W" {"ok":true}
16 15 2024-01-01T00:00:14.250Z / ExecutionSucceeded "" {"ok":true}
status SUCCEEDED {"ok":true}
"#;

#[test]
fn a_task_is_retried_until_it_is_answered(rt: HostRuntime) -> Result<(), Fail> {
    let told = run(rt.alloc(), TASK, FAILURES, TASK_STEPS)?;
    assert_eq!(rt; told.as_str(), TASK_RUN);
    Ok(())
}

/// A Parallel that is retried once, of a branch that fails and one with a Task.
const PARALLEL: &str = r#"{"StartAt":"Q","States":{"Q":{"Type":"Parallel",
"Retry":[{"ErrorEquals":["E"],"IntervalSeconds":1,"MaxAttempts":1}],"Branches":[
{"StartAt":"F","States":{"F":{"Type":"Fail","Error":"E"}}},
{"StartAt":"W","States":{"W":{"Type":"Task","Resource":"r","End":true}}}],"End":true}}}"#;

/// What the Task's two invocations are answered.
const ANSWERS: &str = r#"{"StateMachines":{"M":{"TestCases":{"c":{"W":"w"}}}},
"MockedResponses":{"w":{"0":{"Return":1},"1":{"Return":2}}}}"#;

/// Steps of the branches in each of the two attempts.
const PARALLEL_STEPS: &str = "/ 2024-01-01T00:00:00Z
/1 2024-01-01T00:00:00Z
/0 2024-01-01T00:00:00Z
/1 2024-01-01T00:00:00Z
/0 2024-01-01T00:00:00Z
/ 2024-01-01T00:00:00Z
/ 2024-01-01T00:00:00Z
/0 2024-01-01T00:00:00Z
/ 2024-01-01T00:00:01Z
/1 2024-01-01T00:00:01Z
/0 2024-01-01T00:00:01Z
/ 2024-01-01T00:00:01Z";

/// What is told of them.
const PARALLEL_RUN: &str = r#"step / ok
step /1 ok
step /0 ok
step /1 S3 Stopped
step /0 S4 Finished
step / ok
step / S7 NotYet 2024-01-01T00:00:01.000Z
step /0 S2 NoSuchPlace
step / ok
step /1 ok
step /0 ok
step / ok
1 0 1970-01-01T00:00:00.000Z / ExecutionStarted "" {}
2 1 2024-01-01T00:00:00.000Z / ParallelStateEntered "Q" {}
3 2 2024-01-01T00:00:00.000Z / ParallelStateStarted "Q" {}
4 3 2024-01-01T00:00:00.000Z /1 TaskStateEntered "W" {}
5 4 2024-01-01T00:00:00.000Z /1 TaskScheduled "W" {}
6 5 2024-01-01T00:00:00.000Z /1 TaskStarted "W" {}
7 6 2024-01-01T00:00:00.000Z /1 TaskSucceeded "W" 1
8 7 2024-01-01T00:00:00.000Z /1 TaskStateExited "W" 1
9 3 2024-01-01T00:00:00.000Z /0 FailStateEntered "F" {}
10 9 2024-01-01T00:00:00.000Z / ParallelStateFailed "Q" {"Error":"E"}
11 10 2024-01-01T00:00:01.000Z / ParallelStateStarted "Q" {}
12 11 2024-01-01T00:00:01.000Z /1 TaskStateEntered "W" {}
13 12 2024-01-01T00:00:01.000Z /1 TaskScheduled "W" {}
14 13 2024-01-01T00:00:01.000Z /1 TaskStarted "W" {}
15 14 2024-01-01T00:00:01.000Z /1 TaskSucceeded "W" 2
16 15 2024-01-01T00:00:01.000Z /1 TaskStateExited "W" 2
17 11 2024-01-01T00:00:01.000Z /0 FailStateEntered "F" {}
18 17 2024-01-01T00:00:01.000Z / ParallelStateFailed "Q" {"Error":"E"}
19 18 2024-01-01T00:00:01.000Z / ExecutionFailed "" {"Error":"E"}
status FAILED {"Error":"E"}
"#;

#[test]
fn answers_go_on_where_a_parallel_is_retried(rt: HostRuntime) -> Result<(), Fail> {
    let told = run(rt.alloc(), PARALLEL, ANSWERS, PARALLEL_STEPS)?;
    assert_eq!(rt; told.as_str(), PARALLEL_RUN);
    Ok(())
}

// What executions begin with; and what is made again where there was no memory.
use asl_run_input::{EmulateFault, Setup, StepAt, StepsFault, read_steps};
use asl_run_state::{World, put_end};
use std::alloc::{AllocError, Global};
use std::test::Fail;

/// A Parallel that is retried once, one of whose Tasks is; then a loop of a Pass and a Choice, twice.
pub(crate) const RETRIED: &str = r#"{"StartAt":"P","States":{
"P":{"Type":"Parallel","ResultPath":null,"Retry":[{"ErrorEquals":["E"],"IntervalSeconds":1}],"Next":"A","Branches":[
{"StartAt":"T","States":{"T":{"Type":"Task","Resource":"r","Retry":[{"ErrorEquals":["R"],"IntervalSeconds":2}],"End":true}}},
{"StartAt":"B","States":{"B":{"Type":"Pass","End":true}}}]},
"A":{"Type":"Pass","Parameters":{"n.$":"States.MathAdd($.n, 1)"},"Next":"C"},
"C":{"Type":"Choice","Choices":[{"Variable":"$.n","NumericLessThan":2,"Next":"A"}],"Default":"Z"},
"Z":{"Type":"Succeed"}}}"#;

/// A state that is entered again and again.
pub(crate) const ROUND: &str = r#"{"StartAt":"A","States":{"A":{"Type":"Pass","Next":"A"}}}"#;

/// What the Task answers.
pub(crate) const MOCKS: &str = r#"{"StateMachines":{"M":{"TestCases":{"c":{"T":"t"}}}},
"MockedResponses":{"t":{"0":{"Throw":{"Error":"R"}},"1":{"Throw":{"Error":"E"}},"2":{"Return":1}}}}"#;

/// The input.
pub(crate) const INPUT: &str = r#"{"n":0}"#;

fn read(
    alloc: Global,
    definition: &str,
    mocks: &str,
    chosen: &str,
    input: &str,
) -> Result<Setup, EmulateFault> {
    let (definition, mocks) = (definition.as_bytes(), mocks.as_bytes());
    Setup::read(alloc, definition, mocks, chosen, input.as_bytes())
}

/// What an execution of this definition on this input begins with, by the test case that is chosen of a mock file.
pub(crate) fn setup_by(
    alloc: Global,
    definition: &str,
    mocks: &str,
    chosen: &str,
    input: &str,
) -> Result<Setup, Fail> {
    let setup = match read(alloc, definition, mocks, chosen, input) {
        Err(EmulateFault::OutOfMemory) => read(alloc, definition, mocks, chosen, input),
        read => read,
    };
    Ok(setup.map_err(|_| "refused")?)
}

/// What an execution of this definition begins with.
pub(crate) fn setup_of(alloc: Global, definition: &str) -> Result<Setup, Fail> {
    setup_by(alloc, definition, MOCKS, "M#c", INPUT)
}

/// The steps of these lines.
pub(crate) fn steps_of(alloc: Global, lines: &str) -> Result<Vec<StepAt>, Fail> {
    let steps = match read_steps(alloc, lines.as_bytes()) {
        Err(StepsFault::OutOfMemory) => read_steps(alloc, lines.as_bytes()),
        read => read,
    };
    Ok(steps.map_err(|_| "no steps")?)
}

/// Appends the history and the status.
pub(crate) fn put_ended(alloc: Global, out: &mut String, world: &World) -> Result<(), Fail> {
    match put_end(alloc, out, world) {
        Ok(()) => Ok(()),
        Err(AllocError) => Ok(put_end(alloc, out, world)?),
    }
}

/// Nothing, where a refused call changed nothing.
pub(crate) fn unchanged(is_so: bool) -> Result<(), Fail> {
    if is_so {
        Ok(())
    } else {
        Err("a refused call changed something")?
    }
}

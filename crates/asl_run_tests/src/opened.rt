// Executions to try.
use asl_exec::Execution;
use asl_run_input::Setup;
use std::alloc::Global;
use std::test::Fail;

/// A loop of three states, twice, for the input `{"n":0}`.
pub(crate) const LOOP: &str =
    r#"{"StartAt":"A","States":{"A":{"Type":"Pass","Parameters":{"n.$":"States.MathAdd($.n, 1)"},"Next":"D"},"D":{"Type":"Pass","Next":"C"},"C":{"Type":"Choice","Choices":[{"Variable":"$.n","NumericLessThan":2,"Next":"A"}],"Default":"Z"},"Z":{"Type":"Succeed"}}}"#;

/// What an execution of this definition on this input begins with, by the test case that is chosen of a mock file.
pub(crate) fn setup_of(
    alloc: Global,
    definition: &str,
    mocks: &str,
    chosen: &str,
    input: &str,
) -> Result<Setup, Fail> {
    let (definition, mocks) = (definition.as_bytes(), mocks.as_bytes());
    let setup = Setup::read(alloc, definition, mocks, chosen, input.as_bytes());
    Ok(setup.map_err(|_| "refused")?)
}

/// An execution of this definition on this input, without mocks.
pub(crate) fn opened(rt: &HostRuntime, definition: &str, input: &str) -> Result<Execution, Fail> {
    let alloc = rt.alloc();
    let setup = setup_of(alloc, definition, "{}", "M", input)?;
    Ok(Execution::open(alloc, setup)?)
}

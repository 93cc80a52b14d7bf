// Names of states in tests that the machine doesn't have.
use asl_def_walk::states_in;
use asl_json::Json;
use asl_json_read::{JsonFault, read};
use asl_lint_messages::{put_name, put_near};
use asl_suite::{Finding, Suite, put_test};
use asl_suite_file::WantedStates;
use std::alloc::{AllocError, Global};

/// The names of the states of a definition. The error is that memory ran out.
fn names_in<'a>(alloc: Global, definition: &'a Json) -> Result<Vec<&'a str>, AllocError> {
    let mut names = Vec::new(alloc);
    for state in states_in(alloc, definition)? {
        names.push(state.key.as_str())?;
    }
    Ok(names)
}

/// Appends a note on a name that is none of these.
fn put_lost(
    alloc: Global,
    out: &mut String,
    finding: &Finding<'_>,
    wanted: &str,
    names: &[&str],
) -> Result<(), AllocError> {
    out.push_str("note: ")?;
    put_test(alloc, out, finding)?;
    out.push_str("no state is named ")?;
    put_name(out, wanted)?;
    put_near(alloc, out, wanted, names)?;
    out.push('\n')
}

/// The names of states that a test has, one after another.
fn names_of<'a>(alloc: Global, wanted: &'a WantedStates) -> Result<Vec<&'a str>, AllocError> {
    let mut names = Vec::new(alloc);
    for count in wanted.visits.counts() {
        names.push(count.state.as_str())?;
    }
    for count in wanted.invocations.counts() {
        names.push(count.state.as_str())?;
    }
    for calls in wanted.calls.calls() {
        names.push(calls.state.as_str())?;
    }
    Ok(names)
}

/// A note for each name in a test that is no state's of the machine, of which this text is the definition, and the name that is most like it. The
/// error is that memory ran out.
pub(crate) fn misnamed(
    alloc: Global,
    suite: &Suite,
    definition: &[u8],
    findings: &[Finding<'_>],
) -> Result<String, AllocError> {
    let mut out = String::new(alloc);
    let value = match read(alloc, definition) {
        Ok(value) => value,
        Err(JsonFault::OutOfMemory) => return Err(AllocError),
        Err(_) => return Ok(out),
    };
    let names = names_in(alloc, &value)?;
    for (finding, test) in findings.iter().zip(suite.tests.list.iter()) {
        for wanted in names_of(alloc, &test.states)? {
            if suite.machine.find(wanted).is_none() {
                put_lost(alloc, &mut out, finding, wanted, &names)?;
            }
        }
    }
    Ok(out)
}

// Suites to try, and the text of their reports.
use asl_check::accept;
use asl_mock::Mocks;
use asl_suite::{CaseReport, Suite, report};
use asl_suite_file::{Drafts, Expectations, InputSource};
use std::alloc::Global;
use std::test::Fail;

/// One task.
pub(crate) const TASK: &str =
    r#"{"StartAt":"T","States":{"T":{"Type":"Task","Resource":"r","End":true}}}"#;

/// What the task answers in three cases.
const MOCKS: &str =
    r#"{"StateMachines":{"M":{"TestCases":{"A":{"T":"One"},"B":{"T":"Bad"},"C":{}}}},
 "MockedResponses":{"One":{"0":{"Return":1}},"Bad":{"0":{"Throw":{"Error":"E"}}}}}"#;

/// The tests of a file in which all inputs stand.
fn tests_in(alloc: Global, file: &str) -> Option<Expectations> {
    let drafts = Drafts::read(alloc, file.as_bytes()).ok()?;
    let mut list = Vec::new(alloc);
    for draft in drafts.into_list() {
        let input = match &draft.input {
            InputSource::Here(input) => input.try_clone().ok()?,
            InputSource::File(_) => return None,
        };
        list.push(draft.with_input(input)).ok()?;
    }
    Some(Expectations { list })
}

/// A suite of these tests of a definition.
pub(crate) fn suite_for(alloc: Global, definition: &str, tests: &str) -> Option<Suite> {
    let machine = accept(alloc, definition.as_bytes()).ok()?;
    let mocks = Mocks::read(alloc, MOCKS.as_bytes()).ok()?;
    let tests = tests_in(alloc, tests)?;
    Some(Suite {
        machine,
        mocks,
        tests,
    })
}

/// A suite of these tests of the task.
pub(crate) fn suite_of(alloc: Global, tests: &str) -> Result<Suite, Fail> {
    Ok(suite_for(alloc, TASK, tests).ok_or("a suite")?)
}

/// So many tests of one case.
pub(crate) fn alike(alloc: Global, count: usize) -> Result<Suite, Fail> {
    let mut text = String::new(alloc);
    for number in 0..count {
        text.push_str(if number == 0 { "[" } else { "," })?;
        text.push_str(r#"{"machine":"M","case":"A","input":{},"status":"SUCCEEDED"}"#)?;
    }
    text.push(']')?;
    suite_of(alloc, text.as_str())
}

/// The text of reports.
pub(crate) fn text_of(alloc: Global, reports: &[CaseReport]) -> Result<String, Fail> {
    Ok(report(alloc, reports)?)
}

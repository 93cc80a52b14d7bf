// Why the executions of tests failed.
use asl_exec::most_steps;
use asl_run_formats::why_in;
use asl_suite::{Doubt, Finding, Suite, put_test, setup_in};
use asl_suite_file::Expectation;
use std::alloc::{AllocError, Global};

/// Whether a person asks why: the test isn't `ok`, or is so by accident.
fn is_asked(finding: &Finding<'_>) -> bool {
    !finding.difference.is_empty() || matches!(finding.report.doubt, Doubt::Accident(_))
}

/// Why the execution of a test failed; empty where nothing more is to say of that. The error is that memory ran out, here and below.
fn why(alloc: Global, suite: &Suite, test: &Expectation) -> Result<String, AllocError> {
    let Some(setup) = setup_in(alloc, suite, test)? else {
        return Ok(String::new(alloc));
    };
    match &test.steps {
        Some(steps) => why_in(alloc, setup, Some(steps.steps()), most_steps()),
        None => why_in(alloc, setup, None, most_steps()),
    }
}

/// A note for each test that isn't `ok`, or is so by accident, of which the execution failed since a state couldn't make its data.
pub(crate) fn failures(
    alloc: Global,
    suite: &Suite,
    findings: &[Finding<'_>],
) -> Result<String, AllocError> {
    let mut out = String::new(alloc);
    for (finding, test) in findings.iter().zip(suite.tests.list.iter()) {
        if !is_asked(finding) {
            continue;
        }
        let words = why(alloc, suite, test)?;
        if !words.is_empty() {
            out.push_str("note: ")?;
            put_test(alloc, &mut out, finding)?;
            out.push_str(words.as_str())?;
            out.push('\n')?;
        }
    }
    Ok(out)
}

// What is told of tests of which every order was tried.
use asl_suite::CaseReport;
use std::alloc::{AllocError, Global};

/// How much was tried: of how many tests, their outcomes, and the worlds that were met; empty where no order was. The error is that memory ran out.
pub(crate) fn searched(alloc: Global, reports: &[CaseReport]) -> Result<String, AllocError> {
    let (mut tests, mut outcomes, mut worlds) = (0usize, 0usize, 0usize);
    for report in reports {
        if let Some(search) = &report.search {
            tests = tests.saturating_add(1);
            outcomes = outcomes.saturating_add(search.outcomes);
            worlds = worlds.saturating_add(search.worlds);
        }
    }
    if tests == 0 {
        return Ok(String::new(alloc));
    }
    format!(in alloc; "note: orders tried: tests {tests}, outcomes {outcomes}, worlds {worlds}\n")
}

// What the outcomes of a search make of a test.
ghost use Rattle.std.specs.Prelude.{◌≡◌, IfOk};
ghost use Rattle.asl_suite_orders.specs.Judging.{is_prompt, counts_any, counts, with_other_counts, unmet_from, met_verdict, judged};

use crate::counting::are_always;
use asl_explore::{Calls, Explored, Found, Orders};
use asl_suite::{CaseReport, Search, Suite, Unmet, Verdict, is_passed, run_order};
use asl_suite_file::{Expectation, StateCount};
use std::alloc::{AllocError, Global};
use std::mem;

/// Whether only orders are tried in which no branch is late.
fn is_prompt(orders: Orders) -> bool
    ensures { result ≡ is_prompt orders }
{
    match orders {
        Orders::Every => false,
        Orders::Prompt => true,
    }
}

/// What is reported where an order of steps is as a test expects, and others that end alike invoke Tasks more or less often.
fn with_other_counts(report: CaseReport) -> CaseReport
    ensures { result ≡ with_other_counts report }
{
    let mut report = report;
    report.verdict = Verdict::Invocations;
    report
}

/// The first of these outcomes that isn't as the test expects: its number and its steps, unless other orders that end alike are why, and what is
/// reported of it. How often Tasks are invoked stands there by the outcomes' numbers, where that was counted.
fn first_unmet(
    alloc: Global,
    suite: &Suite,
    test: &Expectation,
    calls: &[Calls],
    found: Vec<Found>,
) -> Result<Option<(Option<Unmet>, CaseReport)>, AllocError>
    ensures { IfOk result (λ o. o ≡ unmet_from suite.now test.now calls.now 0 found.items) }
{
    let mut before = 0;
    for outcome in found {
        let Found {
            outcome: _outcome,
            steps,
        } = outcome;
        let report = run_order(alloc, suite, test, &steps)?;
        if !is_passed(&report) {
            let number = before + 1;
            return Ok(Some((Some(Unmet { number, steps }), report)));
        }
        if !are_always(&suite.machine, calls, before, test) {
            return Ok(Some((None, with_other_counts(report))));
        }
        before += 1;
    }
    Ok(None)
}

fn counts_any(wanted: &[StateCount]) -> bool
    ensures { result ≡ counts_any wanted.now }
{
    match wanted {
        [] => false,
        _ => true,
    }
}

/// Whether it is counted how often Tasks are invoked: the test expects something of that.
pub(crate) fn counts(test: &Expectation) -> bool
    ensures { result ≡ counts test.now }
{
    counts_any(test.states.invocations.counts())
}

/// The verdict where each outcome is as expected.
fn met_verdict(explored: &Explored) -> Verdict
    ensures { result ≡ met_verdict explored.now }
{
    if explored.endless.is_some() {
        Verdict::Endless
    } else if explored.complete {
        Verdict::Passed
    } else {
        Verdict::Cut
    }
}

/// What is reported of a test, of which this is the report of the driven run, by what a search found.
pub(crate) fn judged(
    alloc: Global,
    suite: &Suite,
    test: &Expectation,
    orders: Orders,
    explored: Explored,
    driven: CaseReport,
) -> Result<CaseReport, AllocError>
    ensures { IfOk result (λ r. r ≡ judged suite.now test.now orders explored driven) }
{
    let mut explored = explored;
    let verdict = met_verdict(&explored);
    let (worlds, outcomes) = (explored.worlds, explored.found.len());
    let found = mem::replace(&mut explored.found, Vec::new(alloc));
    let (prompt, calls) = (is_prompt(orders), counts(test));
    match first_unmet(alloc, suite, test, &explored.calls, found)? {
        None => {
            let mut report = driven;
            report.verdict = verdict;
            report.search = Some(Search {
                prompt,
                calls,
                worlds,
                outcomes,
                unmet: None,
            });
            Ok(report)
        }
        Some((unmet, report)) => {
            let mut report = report;
            report.search = Some(Search {
                prompt,
                calls,
                worlds,
                outcomes,
                unmet,
            });
            Ok(report)
        }
    }
}

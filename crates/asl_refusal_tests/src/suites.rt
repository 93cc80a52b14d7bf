// Suites of tests.
ghost use Rattle.std.specs.Prelude.{◌≤◌, ◌<◌, length};

use crate::setups::{MOCKS, RETRIED, unchanged};
use asl_check::{Fault, accept};
use asl_def::Machine;
use asl_mock::{MockFault, Mocks};
use asl_suite::{CaseReport, Suite, report, run_case};
use asl_suite_file::{Drafts, ExpectFault, Expectations, InputSource};
use asl_suite_workers::{SuiteFault, run_suite};
use asl_threads_base::{Gate, NoGate};
use std::alloc::{AllocError, Global};
use std::sync::Wait;
use std::test::Fail;
use std::thread::Threads;

/// Tests of several verdicts.
const TESTS: &str =
    r#"[{"machine":"M","case":"c","input":{"n":0},"status":"SUCCEEDED","output":{"n":2},"visits":{"P":1,"A":2}},
 {"machine":"M","case":"c","input":{"n":0},"status":"SUCCEEDED","output":{"n":3}},
 {"machine":"M","case":"d","input":{"n":0},"status":"SUCCEEDED"},
 {"machine":"M","case":"","input":{"n":0},"status":"SUCCEEDED"}]"#;

/// What is reported of them.
const REPORTS: &str = "\
ok M#c SUCCEEDED 34
output M#c SUCCEEDED 34
nocase M#d NONE 0
status M# FAILED 9
1 passed, 3 failed
";

fn machine(alloc: Global) -> Result<Machine, Fail> {
    let machine = match accept(alloc, RETRIED.as_bytes()) {
        Err(Fault::OutOfMemory) => accept(alloc, RETRIED.as_bytes()),
        machine => machine,
    };
    Ok(machine.map_err(|_| "no machine")?)
}

fn mocks(alloc: Global) -> Result<Mocks, Fail> {
    let mocks = match Mocks::read(alloc, MOCKS.as_bytes()) {
        Err(MockFault::OutOfMemory) => Mocks::read(alloc, MOCKS.as_bytes()),
        mocks => mocks,
    };
    Ok(mocks.map_err(|_| "no mocks")?)
}

fn drafts(alloc: Global) -> Result<Drafts, Fail> {
    let drafts = match Drafts::read(alloc, TESTS.as_bytes()) {
        Err(ExpectFault::OutOfMemory) => Drafts::read(alloc, TESTS.as_bytes()),
        drafts => drafts,
    };
    Ok(drafts.map_err(|_| "no tests")?)
}

/// The tests of drafts in which inputs stand.
fn whole(alloc: Global, drafts: Drafts) -> Result<Expectations, AllocError> {
    let mut list = Vec::with_capacity(alloc, drafts.list.len())?;
    for draft in drafts.into_list() {
        let InputSource::Here(input) = &draft.input else {
            continue;
        };
        let input = input.try_clone()?;
        list.push(draft.with_input(input))?;
    }
    Ok(Expectations { list })
}

fn tests(alloc: Global) -> Result<Expectations, Fail> {
    match whole(alloc, drafts(alloc)?) {
        Ok(tests) => Ok(tests),
        Err(AllocError) => Ok(whole(alloc, drafts(alloc)?)?),
    }
}

fn suite(alloc: Global) -> Result<Suite, Fail> {
    Ok(Suite {
        machine: machine(alloc)?,
        mocks: mocks(alloc)?,
        tests: tests(alloc)?,
    })
}

/// The report on the test of a number.
fn reported(alloc: Global, suite: &Suite, number: usize) -> Result<CaseReport, Fail>
    requires { number < length suite.now.tests.list.items }
{
    match run_case(alloc, suite, number) {
        Ok(report) => Ok(report),
        Err(AllocError) => Ok(run_case(alloc, suite, number)?),
    }
}

fn text_of(alloc: Global, reports: &[CaseReport]) -> Result<String, Fail> {
    match report(alloc, reports) {
        Ok(text) => Ok(text),
        Err(AllocError) => Ok(report(alloc, reports)?),
    }
}

/// One report more.
fn with(reports: Vec<CaseReport>, report: CaseReport) -> Result<Vec<CaseReport>, Fail> {
    let mut reports = reports;
    if reports.reserve(1).is_err() {
        reports.reserve(1)?;
    }
    reports.push(report)?;
    Ok(reports)
}

#[test]
fn each_test_has_its_report(rt: HostRuntime) -> Result<(), Fail> {
    let alloc = rt.alloc();
    let suite = suite(alloc)?;
    let mut reports = Vec::new(alloc);
    for number in 0..suite.tests.list.len() {
        reports = with(reports, reported(alloc, &suite, number)?)?;
    }
    let text = text_of(alloc, reports.as_slice())?;
    assert_eq!(rt; text.as_str(), REPORTS);
    Ok(())
}

/// The reports of a suite, for which it is run again where memory ran out: for the list, or for a test that there is.
fn reports<R: Threads + Wait + Sync, G: Gate + Sync>(
    rt: &R,
    alloc: Global,
    suite: &Suite,
    workers: usize,
    gate: &G,
) -> Result<Vec<CaseReport>, Fail>
    requires { (1 ≤ workers) × (workers ≤ 64) }
{
    let reports = match run_suite(rt, alloc, suite, workers, gate) {
        Ok(reports) => Ok(reports),
        Err(SuiteFault::NotRun(number)) => {
            unchanged(number < suite.tests.list.len())?;
            run_suite(rt, alloc, suite, workers, gate)
        }
        Err(SuiteFault::OutOfMemory) => run_suite(rt, alloc, suite, workers, gate),
    };
    Ok(reports.map_err(|_| "no reports")?)
}

#[test]
fn a_suite_has_its_reports_or_none(rt: HostRuntime) -> Result<(), Fail> {
    let alloc = rt.alloc();
    let suite = suite(alloc)?;
    for workers in [1, 2] {
        let reports = reports(&rt, alloc, &suite, workers, &NoGate)?;
        let text = text_of(alloc, reports.as_slice())?;
        assert_eq!(rt; text.as_str(), REPORTS);
    }
    Ok(())
}

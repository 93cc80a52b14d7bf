// Suites, run by several workers.
ghost use Rattle.std.specs.Prelude.{◌≤◌};

use crate::gates::{Meet, Tally};
use crate::suites::{alike, suite_of, text_of};
use asl_suite::Suite;
use asl_suite_workers::{SuiteFault, run_suite};
use asl_threads_base::{Gate, NoGate};
use std::alloc::Global;
use std::sync::Wait;
use std::test::Fail;
use std::thread::Threads;

/// Tests of each verdict but that of a run without end.
const TESTS: &str = r#"[{"machine":"M","case":"A","input":{},"status":"SUCCEEDED","output":1},
 {"machine":"M","case":"B","input":{},"status":"FAILED"},
 {"machine":"M","case":"C","input":{},"status":"FAILED"},
 {"machine":"M","case":"A","input":{},"status":"SUCCEEDED","output":2},
 {"machine":"M","case":"X","input":{},"status":"SUCCEEDED"},
 {"machine":"M","case":"B","input":{},"status":"SUCCEEDED"},
 {"machine":"M","case":"A","input":{},"status":"SUCCEEDED","visits":{"T":2}}]"#;

/// What is reported of them.
const REPORTS: &str = "\
ok M#A SUCCEEDED 7
ok M#B FAILED 6
ok M#C FAILED 6
output M#A SUCCEEDED 7
nocase M#X NONE 0
status M#B FAILED 6
visits M#A SUCCEEDED 7
3 passed, 4 failed
";

/// The text of the reports of a suite.
fn told<R: Threads + Wait + Sync, G: Gate + Sync>(
    rt: &R,
    alloc: Global,
    suite: &Suite,
    workers: usize,
    gate: &G,
) -> Result<String, Fail>
    requires { (1 ≤ workers) × (workers ≤ 64) }
{
    let reports = run_suite(rt, alloc, suite, workers, gate);
    text_of(alloc, reports.ok().ok_or("reports")?.as_slice())
}

#[test]
fn the_same_reports_by_any_number_of_workers(rt: HostRuntime) -> Result<(), Fail> {
    let alloc = rt.alloc();
    let suite = suite_of(alloc, TESTS)?;
    for workers in [1, 2, 8] {
        let text = told(&rt, alloc, &suite, workers, &NoGate)?;
        assert_eq!(rt; text.as_str(), REPORTS);
    }
    Ok(())
}

#[test]
fn workers_run_side_by_side(rt: HostRuntime) -> Result<(), Fail> {
    let alloc = rt.alloc();
    let suite = alike(alloc, 2)?;
    let gate = Meet::new(&rt);
    let text = told(&rt, alloc, &suite, 2, &gate)?;
    assert!(rt; gate.is_met());
    assert!(rt; text.as_str().ends_with("2 passed, 0 failed\n"));
    Ok(())
}

#[test]
fn each_test_is_run_once(rt: HostRuntime) -> Result<(), Fail> {
    let alloc = rt.alloc();
    let suite = alike(alloc, 500)?;
    for workers in [1, 64] {
        let gate = Tally::new();
        let text = told(&rt, alloc, &suite, workers, &gate)?;
        assert!(rt; text.as_str().ends_with("500 passed, 0 failed\n"));
        assert_eq!(rt; gate.told(), [500, 124_750, 500, 124_750]);
    }
    Ok(())
}

#[test]
fn each_fault_has_its_number(rt: HostRuntime) -> Result<(), Fail> {
    for (fault, text) in [
        (SuiteFault::NotRun(12), "H4 NotRun 12"),
        (SuiteFault::OutOfMemory, "H5 OutOfMemory"),
    ] {
        let told = fault.to_string(rt.alloc())?;
        assert_eq!(rt; told.as_str(), text);
    }
    Ok(())
}

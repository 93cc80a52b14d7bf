// The tests of a suite, run by several workers.
ghost use Rattle.std.specs.Prelude.{◌≡◌, ◌≤◌, IfOk, MatchResult};
ghost use Rattle.asl_suite.specs.Cases.{reports_of};
ghost use Rattle.asl_suite_workers.specs.Cases.{IsRun, IsEach, IsFault};
ghost use Rattle.asl_suite_workers.specs.Suites.{test_count, Gives};

use crate::cases::{Cases, SuiteFault};
use crate::workers::run_cases;
use asl_suite::{CaseReport, Suite, run_case};
use asl_threads_base::Gate;
use std::alloc::{AllocError, Global};
use std::sync::Wait;
use std::thread::Threads;

impl Cases for Suite {
    ghost use Rattle.asl_suite_workers.specs.Suites.{test_count, Gives};

    ghost count = { test_count };

    ghost gives = { Gives };

    fn len(&self) -> usize {
        self.tests.list.len()
    }

    fn run_case(&self, alloc: Global, number: usize) -> Result<CaseReport, AllocError> {
        run_case(alloc, self, number)
    }
}

/// The reports of all tests of a suite in order, for any number of workers and any gate, at which each was told before and after it was run.
/// The caller runs a test that no worker reported. A fault is the least number of a test that found no memory, or that there was none for
/// the list. (No clause of `run_case` says where memory runs out, so that it did for a test is said of any cases, by `run_cases`.)
pub fn run_suite<R: Threads + Wait + Sync, G: Gate + Sync>(
    rt: &R,
    alloc: Global,
    suite: &Suite,
    workers: usize,
    gate: &G,
) -> Result<Vec<CaseReport>, SuiteFault>
    requires { (1 ≤ workers) × (workers ≤ 64) }
    ensures reports { IfOk result (λ v. v.items ≡ reports_of suite.now) }
    ensures run { MatchResult result
        (λ v. IsEach (test_count suite.now) (IsRun G.began G.ended (Gives suite.now)) v.items)
        (IsFault (test_count suite.now) (IsRun G.began G.ended (Gives suite.now))) }
{
    run_cases(rt, alloc, suite, workers, gate)
}

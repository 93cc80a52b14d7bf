// The tests of a suite in every order of their branches, run by several workers.
ghost use Rattle.std.specs.Prelude.{◌≤◌, IfOk};
ghost use Rattle.asl_suite_orders.specs.Suites.{AreReported};

use crate::testing::run_in_orders;
use asl_explore::Orders;
use asl_suite::{CaseReport, Suite};
use asl_suite_workers::{Cases, SuiteFault, run_cases};
use asl_threads_base::Gate;
use std::alloc::{AllocError, Global};
use std::sync::Wait;
use std::thread::Threads;

/// A suite, the orders in which its tests have to hold, and how many worlds are tried at most for each.
#[derive(Clone, Copy)]
struct InOrders<'a> {
    suite: &'a Suite,
    orders: Orders,
    limit: u32,
}

impl Cases for InOrders<'_> {
    ghost use Rattle.asl_suite_orders.specs.Suites.{count_in, Gives};

    ghost count = { count_in };

    ghost gives = { Gives };

    fn len(&self) -> usize {
        self.suite.tests.list.len()
    }

    fn run_case(&self, alloc: Global, number: usize) -> Result<CaseReport, AllocError> {
        run_in_orders(alloc, self.suite, self.orders, self.limit, number)
    }
}

/// The reports of all tests of a suite in order, each of which has to hold in the orders that are tried, for any number of workers and any gate, at
/// which each was told before and after it was run. A fault is the least number of a test that found no memory, or that there was none for the list.
pub fn run_suite_in_orders<R: Threads + Wait + Sync, G: Gate + Sync>(
    rt: &R,
    alloc: Global,
    suite: &Suite,
    orders: Orders,
    limit: u32,
    workers: usize,
    gate: &G,
) -> Result<Vec<CaseReport>, SuiteFault>
    requires { (1 ≤ workers) × (workers ≤ 64) }
    ensures { IfOk result (λ v. AreReported orders limit suite.now v.items) }
{
    let tests = InOrders {
        suite,
        orders,
        limit,
    };
    run_cases(rt, alloc, &tests, workers, gate)
}

// One test in every order of its branches.
ghost use Rattle.asl_suite.specs.Cases.{report_on};
ghost use Rattle.std.specs.Prelude.{◌≡◌, ◌<◌, length, IfOk, IfSome, slice_get};
ghost use Rattle.asl_suite_orders.specs.Testing.{IsPlain, IsReportedFrom, IsReported, Holds};

use crate::judging::{counts, judged};
use asl_explore::{Orders, SoFar, Watch, explore};
use asl_suite::{CaseReport, Suite, for_orders, is_passed, run_case, setup_in};
use asl_suite_file::Expectation;
use std::alloc::{AllocError, Global};

/// Nobody is told how far a search is.
struct Unwatched;

impl Watch for Unwatched {
    fn tried(&self, _far: SoFar) {}
}

/// What is reported of a test, of which this is the report of the driven run.
fn reported_from(
    alloc: Global,
    suite: &Suite,
    test: &Expectation,
    orders: Orders,
    limit: u32,
    driven: CaseReport,
) -> Result<CaseReport, AllocError>
    ensures reported { IfOk result (IsReportedFrom orders limit suite.now test.now driven) }
    ensures plain { IfOk result (λ r. IsPlain test.now driven → r ≡ driven) }
{
    if !is_passed(&driven) || test.steps.is_some() {
        return Ok(driven);
    }
    let Some(setup) = setup_in(alloc, suite, test)? else {
        return Ok(driven);
    };
    let own = for_orders(alloc, test)?;
    let explored = explore(alloc, setup, orders, counts(&own), limit, &Unwatched)?;
    judged(alloc, suite, &own, orders, explored, driven)
}

/// What is reported of the test of a number, where each order that is tried has to end as it expects, and none is endless. At most so many worlds are
/// tried. A test that has steps of its own, or of which the driven run isn't as expected, is reported as it is without orders. The error is that memory
/// ran out.
pub fn run_in_orders(
    alloc: Global,
    suite: &Suite,
    orders: Orders,
    limit: u32,
    number: usize,
) -> Result<CaseReport, AllocError>
    requires { number < length suite.now.tests.list.items }
    ensures reported { IfOk result (λ r. IfSome (slice_get suite.now.tests.list.items number)
        (λ x. IsReported orders limit suite.now x r)) }
    // One that has steps, or whose driven run isn't as expected, is reported as without orders.
    ensures plain { IfOk result (λ r. IfSome (slice_get suite.now.tests.list.items number)
        (λ x. IsPlain x (report_on suite.now x) → r ≡ report_on suite.now x)) }
    // Where it is `ok`, each order that is tried and ends does so as expected, and each can be gone on with.
    ensures holds { IfOk result (λ r. IfSome (slice_get suite.now.tests.list.items number)
        (λ x. Holds orders suite.now x r)) }
{
    let driven = run_case(alloc, suite, number)?;
    reported_from(
        alloc,
        suite,
        &suite.tests.list[number],
        orders,
        limit,
        driven,
    )
}

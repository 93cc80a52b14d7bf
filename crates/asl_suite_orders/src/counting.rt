// Whether Tasks are invoked as often as is wanted, in each order that ends in an outcome.
ghost use Rattle.std.specs.Prelude.{◌≡◌, slice_get};
ghost use Rattle.std.specs.List.{list_all};
ghost use Rattle.asl_suite_orders.specs.Counting.{bounds_at, is_always, are_always};

use asl_def::Machine;
use asl_explore::{Bounds, Calls};
use asl_suite_file::{Expectation, StateCount};

/// Bounds within which no number is.
const NOTHING: Bounds = Bounds {
    least: u32::MAX,
    most: 0,
};

/// How often the state of a number is invoked in these orders, at least and at most.
fn bounds_at(calls: &Calls, number: usize) -> Bounds
    ensures { result ≡ bounds_at calls.now number }
{
    match calls.bounds.get(number) {
        Some(bounds) => *bounds,
        None => NOTHING,
    }
}

/// Whether a Task is invoked as often as is wanted, in each of these orders; a state that isn't there never is.
fn is_always(machine: &Machine, calls: &Calls, wanted: &StateCount) -> bool
    ensures { result ≡ is_always machine.now calls.now wanted.now }
{
    match machine.find(wanted.state.as_str()) {
        Some((number, _)) => {
            let bounds = bounds_at(calls, number);
            u64::from(bounds.least) == wanted.count && u64::from(bounds.most) == wanted.count
        }
        None => 0 == wanted.count,
    }
}

/// Whether each Task is invoked as often as is wanted, in each of these orders.
fn all_always(machine: &Machine, calls: &Calls, wanted: &[StateCount]) -> bool
    ensures { result ≡ list_all (is_always machine.now calls.now) wanted.now }
{
    wanted
        .iter()
        .all(|wanted| is_always(machine, calls, wanted))
}

/// Whether each Task is invoked as often as a test expects, in each order that ends in the outcome at a place. Where that wasn't counted nothing speaks
/// against it.
pub(crate) fn are_always(
    machine: &Machine,
    calls: &[Calls],
    place: usize,
    test: &Expectation,
) -> bool
    ensures { result ≡ are_always machine.now (slice_get calls.now place) test.now }
{
    match calls.get(place) {
        Some(calls) => all_always(machine, calls, test.states.invocations.counts()),
        None => true,
    }
}

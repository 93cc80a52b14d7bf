// Plans that are the same.
ghost use Rattle.std.specs.Prelude.{◌≡◌};
ghost use Rattle.std.specs.List.{list_any};
ghost use Rattle.asl_explore_errors.specs.Plans.{is_same_error, is_same_plan, has_plan};

use asl_error_plans::{InjectedError, PlanOutcomes};

fn is_same_error(one: &InjectedError, other: &InjectedError) -> bool
    ensures { result ≡ is_same_error one.now other.now }
{
    one.state == other.state
        && one.number == other.number
        && one.error == other.error
        && one.cause == other.cause
        && one.for_good == other.for_good
}

/// Whether two plans have the same errors in the same order.
fn is_same_plan(one: &[InjectedError], other: &[InjectedError]) -> bool
    ensures { result ≡ is_same_plan one.now other.now }
{
    match one {
        [] => other.is_empty(),
        [first, rest @ ..] => match other {
            [] => false,
            [its, others @ ..] => is_same_error(first, its) && is_same_plan(rest, others),
        },
    }
}

/// Whether a plan is among those that were tried.
pub(crate) fn has_plan(plans: &[PlanOutcomes], plan: &[InjectedError]) -> bool
    ensures { result ≡ list_any (has_plan plan.now) plans.now }
{
    plans.iter().any(|one| is_same_plan(&one.plan, plan))
}

// What no clause says of searches where errors are put in: their text as a whole, and that each call succeeds with ample memory.
ghost use Rattle.std.specs.Prelude.{nat_lt, slice_index};

use crate::{
    ErrorsFound, are_kept, explore_with_errors, filled_setup, put_case, put_rules, setup_under,
    witness_of,
};
use asl_error_plans::{are_good, put_plans};
use asl_explore::{Judge, Orders, SoFar, Watch};
use asl_run_input::Setup;
use asl_run_state::World;
use std::alloc::Global;
use std::test::Fail;

const CHARGE: &str =
    r#"{"StartAt":"Charge","States":{"Charge":{"Type":"Task","Resource":"arn:aws:lambda:us-east-1:123456789012:function:charge","Retry":[{"ErrorEquals":["Busy"],"MaxAttempts":1}],"Catch":[{"ErrorEquals":["Declined"],"Next":"Told"}],"End":true},"Told":{"Type":"Fail","Error":"Unpaid"}}}"#;

const PAID: &str =
    r#"{"StateMachines":{"M":{"TestCases":{"paid":{"Charge":"R"}}}},"MockedResponses":{"R":{"0-9":{"Return":{"paid":true}}}}}"#;

/// Nobody is told how far a search is.
struct Unwatched;

impl Watch for Unwatched {
    fn tried(&self, _far: SoFar) {}
}

/// The first Task of the definition is invoked less often than that.
#[derive(Clone, Copy)]
struct FirstBelow {
    times: u32,
}

impl Judge for FirstBelow {
    ghost accepts = { λ j _ _ counts. nat_lt (slice_index counts 0) j.times };

    fn accepts(&self, _setup: &Setup, end: &World) -> bool {
        end.count(Some(0)) < self.times
    }
}

fn setup(alloc: Global) -> Result<Setup, Fail> {
    let setup = Setup::read(alloc, CHARGE.as_bytes(), PAID.as_bytes(), "M#paid", b"{}");
    Ok(setup.map_err(|_| "refused")?)
}

fn found_with(
    alloc: Global,
    setup: &Setup,
    errors: u32,
    names: &[&str],
) -> Result<ErrorsFound, Fail> {
    found_by(alloc, setup, errors, names, &[])
}

fn found_by(
    alloc: Global,
    setup: &Setup,
    errors: u32,
    names: &[&str],
    judges: &[FirstBelow],
) -> Result<ErrorsFound, Fail> {
    let orders = Orders::Every;
    Ok(explore_with_errors(
        alloc, setup, errors, names, orders, 1_000, judges, &Unwatched,
    )?)
}

fn found(alloc: Global, setup: &Setup, errors: u32) -> Result<ErrorsFound, Fail> {
    found_with(alloc, setup, errors, &[])
}

#[test]
fn each_error_of_a_task_is_put_in_once_and_for_good(rt: HostRuntime) -> Result<(), Fail> {
    let alloc = rt.alloc();
    let setup = setup(alloc)?;
    let found = found(alloc, &setup, 1)?;
    let mut text = String::new(alloc);
    put_plans(alloc, &mut text, &found.plans)?;
    let expected = r#"plans 9

outcome 1 SUCCEEDED {"paid":true}
plans 2
plan no errors
plan "Charge" 0 "Busy" once

outcome 2 FAILED {"Error":"Busy","Cause":"put in"}
plans 1 new
plan "Charge" 0 "Busy" always

outcome 3 FAILED {"Error":"Unpaid"}
plans 2 new
plan "Charge" 0 "Declined" once
plan "Charge" 0 "Declined" always

outcome 4 FAILED {"Error":"Unnamed","Cause":"put in"}
plans 2 new
plan "Charge" 0 "Unnamed" once
plan "Charge" 0 "Unnamed" always

outcome 5 FAILED {"Error":"States.Timeout"}
plans 2 new
plan "Charge" 0 "States.Timeout" once
plan "Charge" 0 "States.Timeout" always
"#;
    assert_eq!(rt; text.as_str(), expected);
    assert!(rt; are_good(&found.plans));
    assert_eq!(rt; found.found.len(), 9);
    Ok(())
}

#[test]
fn a_retry_is_failed_too_where_two_errors_are_put_in(rt: HostRuntime) -> Result<(), Fail> {
    let alloc = rt.alloc();
    let setup = setup(alloc)?;
    assert_eq!(rt; found(alloc, &setup, 0)?.plans.len(), 1);
    // behind `Busy`, once or for good, each error at the retry, once and for good
    assert_eq!(rt; found(alloc, &setup, 2)?.plans.len(), 9 + 2 * 8);
    Ok(())
}

#[test]
fn errors_that_are_named_are_put_in_alone(rt: HostRuntime) -> Result<(), Fail> {
    let alloc = rt.alloc();
    let setup = setup(alloc)?;
    let found = found_with(alloc, &setup, 1, &["Lost", "Busy"])?;
    let mut text = String::new(alloc);
    put_plans(alloc, &mut text, &found.plans)?;
    let expected = r#"plans 5

outcome 1 SUCCEEDED {"paid":true}
plans 2
plan no errors
plan "Charge" 0 "Busy" once

outcome 2 FAILED {"Error":"Lost","Cause":"put in"}
plans 2 new
plan "Charge" 0 "Lost" once
plan "Charge" 0 "Lost" always

outcome 3 FAILED {"Error":"Busy","Cause":"put in"}
plans 1 new
plan "Charge" 0 "Busy" always
"#;
    assert_eq!(rt; text.as_str(), expected);
    Ok(())
}

#[test]
fn a_rule_that_an_order_ends_against_is_told_with_its_plans(rt: HostRuntime) -> Result<(), Fail> {
    let alloc = rt.alloc();
    let setup = setup(alloc)?;
    let judges = [FirstBelow { times: 2 }, FirstBelow { times: 3 }];
    let found = found_by(alloc, &setup, 1, &["Busy"], &judges)?;
    let rules = [
        String::from_str(alloc, "Charge below 2")?,
        String::from_str(alloc, "Charge below 3")?,
    ];
    let mut text = String::new(alloc);
    put_rules(&mut text, &rules, &found)?;
    let expected = r#"rule 1 broken Charge below 2
plans 2
plan "Charge" 0 "Busy" once
plan "Charge" 0 "Busy" always
steps
/ 1970-01-01T00:00:00.000Z
/ 1970-01-01T00:00:01.000Z

rule 2 holds Charge below 3

"#;
    assert_eq!(rt; text.as_str(), expected);
    assert!(rt; !are_kept(2, &found));
    assert!(rt; are_kept(0, &found));
    Ok(())
}

#[test]
fn the_mock_file_of_a_plan_has_its_errors(rt: HostRuntime) -> Result<(), Fail> {
    let alloc = rt.alloc();
    let setup = setup(alloc)?;
    let found = found(alloc, &setup, 1)?;
    let (plan, outcome) = witness_of(alloc, &found, 2)?.ok_or("no plan")?;
    assert_eq!(rt; outcome.steps.len(), 2);
    let under = setup_under(alloc, &setup, &plan.plan)?;
    let mut text = String::new(alloc);
    put_case(alloc, &mut text, &under)?;
    let expected =
        r#"{"StateMachines":{"M":{"TestCases":{"paid":{"Charge":"Charge"}}}},"MockedResponses":{"Charge":{"0-999999999":{"Throw":{"Error":"Busy","Cause":"put in"}}}}}
"#;
    assert_eq!(rt; text.as_str(), expected);
    assert!(rt; witness_of(alloc, &found, 6)?.is_none());
    assert!(rt; witness_of(alloc, &found, 0)?.is_none());
    Ok(())
}

/// The mock file of the case `none`, in which each Task has an answer.
fn filled(alloc: Global, mocks: &str) -> Result<String, Fail> {
    let read = Setup::read(alloc, CHARGE.as_bytes(), mocks.as_bytes(), "M#none", b"{}");
    let setup = read.map_err(|_| "refused")?;
    let filled = filled_setup(alloc, &setup, mocks.as_bytes())?;
    let mut text = String::new(alloc);
    put_case(alloc, &mut text, &filled)?;
    Ok(text)
}

#[test]
fn a_task_without_an_answer_gets_that_of_the_first_other_case(rt: HostRuntime) -> Result<(), Fail> {
    let alloc = rt.alloc();
    let mocks =
        r#"{"StateMachines":{"M":{"TestCases":{"none":{},"one":{"Charge":"R"},"two":{"Charge":"Q"}}}},"MockedResponses":{"R":{"0":{"Return":1}},"Q":{"0":{"Return":2}}}}"#;
    let expected =
        r#"{"StateMachines":{"M":{"TestCases":{"none":{"Charge":"Charge"}}}},"MockedResponses":{"Charge":{"0":{"Return":1}}}}
"#;
    assert_eq!(rt; filled(alloc, mocks)?.as_str(), expected);
    Ok(())
}

#[test]
fn else_it_is_answered_as_in_a_mock_file_to_begin_with(rt: HostRuntime) -> Result<(), Fail> {
    let alloc = rt.alloc();
    let mocks = r#"{"StateMachines":{"M":{"TestCases":{"none":{}}}},"MockedResponses":{}}"#;
    let expected =
        r#"{"StateMachines":{"M":{"TestCases":{"none":{"Charge":"Charge"}}}},"MockedResponses":{"Charge":{"0-999999999":{"Return":{}}}}}
"#;
    assert_eq!(rt; filled(alloc, mocks)?.as_str(), expected);
    Ok(())
}

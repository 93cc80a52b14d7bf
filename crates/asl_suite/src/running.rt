// The run of a test.
ghost use Rattle.std.specs.Prelude.{◌≡◌, ◌<◌, length, Ok, Some, None, IfOk, slice_get};
ghost use Rattle.std.specs.Option.{option_map};
ghost use Rattle.asl_exec.specs.Steps.{opening, world_after};
ghost use Rattle.asl_exec.specs.Views.{world_of};
ghost use Rattle.asl_run_input.specs.Chosen.{name_or_run, case_or_empty};
ghost use Rattle.asl_run_input.specs.Texts.{start_of};
ghost use Rattle.asl_suite.specs.Cases.{test_setup, setup_in, world_behind, test_world, judged, no_case, report_by, report_within, report_on};
ghost use Rattle.asl_suite.specs.Orders.{order_by, order_report};

use crate::case_report::{CaseReport, Doubt, Status, Verdict};
use crate::doubting::doubt_of;
use crate::judging::{status_of, verdict_on};
use crate::suite::Suite;
use asl_def::Machine;
use asl_exec::{Execution, most_steps};
use asl_json::{Txt, clone_text};
use asl_mock::{Case, CaseFault, Mocks};
use asl_run_input::{Setup, StepAt};
use asl_run_state::World;
use asl_suite_file::{Expectation, Steps};
use asl_time::Moment;
use std::alloc::{AllocError, Global};

/// The name of the execution of a case: the case's, and `run` where it is empty.
fn name_or_run(case: &str) -> &str
    ensures { result.now ≡ name_or_run case.now }
{
    match case {
        "" => "run",
        name => name,
    }
}

/// The case of a test; the empty one, where it names none. The outer error is that there are too many owners.
pub(crate) fn case_of(
    mocks: &Mocks,
    test: &Expectation,
) -> Result<Result<Case, CaseFault>, AllocError>
    ensures { IfOk result (λ c. c ≡ case_or_empty mocks.now test.now.machine test.now.case) }
{
    let case = test.case.as_str();
    if case.is_empty() {
        return Ok(Ok(Case::empty()));
    }
    match mocks.case(test.machine.as_str(), case) {
        Ok(case) => Ok(Ok(case.try_clone()?)),
        Err(fault) => Ok(Err(fault)),
    }
}

fn first_moment(steps: &[StepAt]) -> Moment
    ensures { result ≡ start_of (Some steps.now) }
{
    match steps {
        [first, ..] => first.moment,
        [] => Moment::FIRST,
    }
}

/// The moment at which an execution starts that takes these steps: that of the first one, else the epoch.
fn start_of(steps: &Option<Steps>) -> Moment
    ensures { result ≡ start_of steps.now }
{
    match steps {
        Some(steps) => first_moment(steps.steps()),
        None => Moment::FIRST,
    }
}

/// What the execution of a test begins with. The error is that memory ran out.
pub(crate) fn setup_of(
    alloc: Global,
    suite: &Suite,
    test: &Expectation,
    case: Case,
) -> Result<Setup, AllocError>
    ensures { IfOk result (λ s. s ≡ test_setup suite.now test.now case) }
{
    let machine = suite.machine.try_clone()?;
    let name_of_machine = test.machine.try_clone(alloc)?;
    let input = test.input.try_clone()?;
    let name = Txt::of(alloc, name_or_run(test.case.as_str()))?;
    Ok(Setup {
        machine,
        name_of_machine,
        case,
        input,
        name,
        start: start_of(&test.steps),
    })
}

/// What the execution of a test begins with; none, where the mock file hasn't its case. The error is that memory ran out.
pub fn setup_in(
    alloc: Global,
    suite: &Suite,
    test: &Expectation,
) -> Result<Option<Setup>, AllocError>
    ensures { IfOk result (λ o. o ≡ setup_in suite.now test.now) }
{
    match case_of(&suite.mocks, test)? {
        Ok(case) => Ok(Some(setup_of(alloc, suite, test, case)?)),
        Err(_) => Ok(None),
    }
}

/// The execution of a setup, driven by at most so many steps. The error is that memory ran out.
fn driven(alloc: Global, setup: Setup, limit: u32) -> Result<Execution, AllocError>
    ensures { IfOk result (λ x. world_of x ≡ world_behind limit setup None) }
{
    let mut execution = Execution::open(alloc, setup)?;
    match execution.drive(limit) {
        Ok(_) => Ok(execution),
        Err((_, refused)) => Err(refused),
    }
}

/// The execution of a setup behind these steps. The error is that memory ran out.
pub(crate) fn stepped(
    alloc: Global,
    setup: Setup,
    steps: &[StepAt],
) -> Result<Execution, AllocError>
    ensures { IfOk result (λ x. world_of x ≡ world_after setup (opening setup) steps.now) }
{
    let mut execution = Execution::open(alloc, setup)?;
    execution.take_all(steps)?;
    Ok(execution)
}

/// The execution of a setup behind these steps; without them, driven by at most so many. The error is that memory ran out.
fn run_by(
    alloc: Global,
    setup: Setup,
    steps: &Option<Steps>,
    limit: u32,
) -> Result<Execution, AllocError>
    ensures { IfOk result (λ x. world_of x ≡ world_behind limit setup steps.now) }
{
    match steps {
        Some(steps) => stepped(alloc, setup, steps.steps()),
        None => driven(alloc, setup, limit),
    }
}

/// The execution of a test of this case; without steps of its own, driven by at most so many. The error is that memory ran out.
pub(crate) fn execution_of(
    alloc: Global,
    suite: &Suite,
    test: &Expectation,
    case: Case,
    limit: u32,
) -> Result<Execution, AllocError>
    ensures { IfOk result (λ x. world_of x ≡ test_world limit suite.now test.now case) }
{
    let setup = setup_of(alloc, suite, test, case)?;
    run_by(alloc, setup, &test.steps, limit)
}

fn no_case(alloc: Global, test: &Expectation) -> Result<CaseReport, AllocError>
    ensures { IfOk result (λ r. r ≡ no_case test.now) }
{
    let machine = test.machine.try_clone(alloc)?;
    let case = test.case.try_clone(alloc)?;
    let name = clone_text(alloc, &test.name)?;
    Ok(CaseReport {
        verdict: Verdict::NoCase,
        machine,
        case,
        name,
        status: Status::None,
        events: 0,
        doubt: Doubt::None,
        search: None,
    })
}

fn judged(
    alloc: Global,
    machine: &Machine,
    test: &Expectation,
    case: &Case,
    world: &World,
) -> Result<CaseReport, AllocError>
    ensures { IfOk result (λ r. r ≡ judged machine.now test.now case.now world.now) }
{
    let verdict = verdict_on(machine, test, world);
    let doubt = doubt_of(alloc, verdict, test, case, world)?;
    let name_of_machine = test.machine.try_clone(alloc)?;
    let name_of_case = test.case.try_clone(alloc)?;
    let name = clone_text(alloc, &test.name)?;
    Ok(CaseReport {
        verdict,
        machine: name_of_machine,
        case: name_of_case,
        name,
        status: status_of(world.outcome()),
        events: world.history().len() as u64,
        doubt,
        search: None,
    })
}

/// What is reported of a test of this case; without steps of its own, it is driven by at most so many.
fn run_with(
    alloc: Global,
    suite: &Suite,
    test: &Expectation,
    case: Case,
    limit: u32,
) -> Result<CaseReport, AllocError>
    ensures { IfOk result (λ r. r ≡ report_by limit suite.now test.now (Ok case)) }
{
    let own = case.try_clone()?;
    let execution = execution_of(alloc, suite, test, own, limit)?;
    judged(alloc, &suite.machine, test, &case, execution.world())
}

/// What is reported of a test; without steps of its own, it is driven by at most so many.
fn run_test(
    alloc: Global,
    suite: &Suite,
    test: &Expectation,
    limit: u32,
) -> Result<CaseReport, AllocError>
    ensures { IfOk result (λ r. r ≡ report_within limit suite.now test.now) }
{
    match case_of(&suite.mocks, test)? {
        Err(_) => no_case(alloc, test),
        Ok(case) => run_with(alloc, suite, test, case, limit),
    }
}

/// What is reported of the test of a number. The error is that memory ran out.
pub fn run_case(alloc: Global, suite: &Suite, number: usize) -> Result<CaseReport, AllocError>
    requires { number < length suite.now.tests.list.items }
    ensures { IfOk result (λ r. option_map (report_on suite.now)
        (slice_get suite.now.tests.list.items number) ≡ Some r) }
{
    run_test(alloc, suite, &suite.tests.list[number], most_steps())
}

fn run_order_with(
    alloc: Global,
    suite: &Suite,
    test: &Expectation,
    case: Case,
    steps: &[StepAt],
) -> Result<CaseReport, AllocError>
    ensures { IfOk result (λ r. r ≡ order_by suite.now test.now steps.now (Ok case)) }
{
    let own = case.try_clone()?;
    let setup = setup_of(alloc, suite, test, own)?;
    let execution = stepped(alloc, setup, steps)?;
    judged(alloc, &suite.machine, test, &case, execution.world())
}

/// What is reported of a test whose execution takes these steps. The error is that memory ran out.
pub fn run_order(
    alloc: Global,
    suite: &Suite,
    test: &Expectation,
    steps: &[StepAt],
) -> Result<CaseReport, AllocError>
    ensures { IfOk result (λ r. r ≡ order_report suite.now test.now steps.now) }
{
    match case_of(&suite.mocks, test)? {
        Err(_) => no_case(alloc, test),
        Ok(case) => run_order_with(alloc, suite, test, case, steps),
    }
}

// An execution under a plan.
ghost use Rattle.std.specs.Prelude.{◌≡◌, ◌++◌, IfOk, OnOk, string_bytes};
ghost use Rattle.std.specs.List.{flat_map};
ghost use Rattle.asl_task_errors.specs.View.{all_told, told};
ghost use Rattle.asl_explore_errors.specs.Under.{case_file, named_task, IsUnder};

use asl_error_plans::{InjectedError, case_under, put_mock_file};
use asl_json::Txt;
use asl_mock::Case;
use asl_run_input::Setup;
use asl_task_errors::{TaskErrors, errors_of_tasks};
use std::alloc::{AllocError, Global};

/// The execution with another case. The error is that memory ran out.
pub(crate) fn with_case(alloc: Global, setup: &Setup, case: Case) -> Result<Setup, AllocError>
    ensures { IfOk result (λ s. s ≡ record setup.now { case = case }) }
{
    let mut own = setup.try_clone(alloc)?;
    own.case = case;
    Ok(own)
}

/// The execution under a plan: the errors of the plan are put in before the answers of its case. The error of this call is that memory ran out.
pub fn setup_under(
    alloc: Global,
    setup: &Setup,
    plan: &[InjectedError],
) -> Result<Setup, AllocError>
    ensures { IfOk result (IsUnder setup.now plan.now) }
{
    let case = case_under(alloc, &setup.case, plan)?;
    with_case(alloc, setup, case)
}

/// Adds the name of a Task, if a case names it.
fn add_named(
    alloc: Global,
    names: &mut Vec<Txt>,
    case: &Case,
    task: &TaskErrors,
) -> Result<(), AllocError>
    ensures { OnOk result (names.new.items ≡ names.old.items ++ named_task case.now (told task.now)) }
{
    if case.response_for(task.state.as_str()).is_some() {
        names.push(task.state.try_clone(alloc)?)?;
    }
    Ok(())
}

/// The names of these Tasks that a case names. The error is that memory ran out.
fn named_tasks(alloc: Global, case: &Case, tasks: &[TaskErrors]) -> Result<Vec<Txt>, AllocError>
    ensures { IfOk result (λ v. v.items ≡ flat_map (named_task case.now) (all_told tasks.now)) }
{
    let mut names = Vec::new(alloc);
    for task in tasks {
        add_named(alloc, &mut names, case, task)?;
    }
    Ok(names)
}

/// Appends the case of an execution as a mock file, with each Task that it names. The error is that memory ran out.
pub fn put_case(alloc: Global, out: &mut String, setup: &Setup) -> Result<(), AllocError>
    ensures { OnOk result (string_bytes out.new ≡ string_bytes out.old ++ case_file setup.now) }
{
    let definition = setup.machine.json(alloc)?;
    let tasks = errors_of_tasks(alloc, &definition)?;
    let names = named_tasks(alloc, &setup.case, &tasks)?;
    let machine = setup.name_of_machine.as_str();
    put_mock_file(out, machine, setup.name.as_str(), &setup.case, &names)
}

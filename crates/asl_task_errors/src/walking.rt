// The Tasks of a definition, with the states around them.
ghost use Rattle.std.specs.Prelude.{◌≡◌, ◌++◌, ◌∷◌, [], IfOk, OnOk};
ghost use Rattle.asl_json.specs.View.{data_of};
ghost use Rattle.asl_task_errors.specs.Tasks.{is_task, machine_part, of_branches, of_inner, of_machine, of_states, own_errors, state_part, task_errors};
ghost use Rattle.asl_task_errors.specs.View.{all_told, levels_of};

use crate::alike::errors_of;
use asl_json::{Json, Member, Txt};
use std::alloc::{AllocError, Global};

/// A Task of a definition, and the errors that it is worth failing with.
pub struct TaskErrors {
    /// The Task's name.
    pub state: Txt,
    /// Each is handled unlike those before it; `States.Timeout` is the last.
    pub errors: Vec<Txt>,
}

// Written out, so that a caller's proof sees one call and not the drop of each part.
impl Drop for TaskErrors {
    fn drop(self) {
        let TaskErrors {
            state: _state,
            errors: _errors,
        } = self;
    }
}

/// Whether a state is a Task.
fn is_task(state: &Json) -> bool
    ensures { result ≡ is_task (data_of state.now) }
{
    match state.get("Type") {
        Some(Json::Text(kind)) => kind.as_str() == "Task",
        _ => false,
    }
}

/// A state and those around it, the innermost first.
fn levels<'a>(
    alloc: Global,
    state: &'a Json,
    around: &[&'a Json],
) -> Result<Vec<&'a Json>, AllocError>
    ensures { IfOk result (λ v. levels_of v.items
        ≡ data_of state.now ∷ levels_of around.now) }
{
    let mut levels = Vec::new(alloc);
    levels.push(state)?;
    for outer in around {
        levels.push(*outer)?;
    }
    Ok(levels)
}

/// Adds a state, where it is a Task, by the state and those around it.
fn add_own(
    alloc: Global,
    tasks: &mut Vec<TaskErrors>,
    levels: &[&Json],
    state: &Member,
) -> Result<(), AllocError>
    ensures { OnOk result (all_told tasks.new.items ≡ all_told tasks.old.items
        ++ own_errors (levels_of levels.now) state.now.key (data_of state.now.value)) }
{
    if is_task(&state.value) {
        let errors = errors_of(alloc, levels)?;
        let state = state.key.try_clone(alloc)?;
        tasks.push(TaskErrors { state, errors })?;
    }
    Ok(())
}

#[cycle(walk)]
fn add_machine<'a>(
    alloc: Global,
    tasks: &mut Vec<TaskErrors>,
    around: &[&'a Json],
    machine: &'a Json,
) -> Result<(), AllocError>
    ensures { OnOk result (all_told tasks.new.items ≡ all_told tasks.old.items
        ++ of_machine (levels_of around.now) (data_of machine.now)) }
{
    for member in machine.members() {
        add_machine_part(alloc, tasks, around, member)?;
    }
    Ok(())
}

#[cycle(walk)]
fn add_machine_part<'a>(
    alloc: Global,
    tasks: &mut Vec<TaskErrors>,
    around: &[&'a Json],
    member: &'a Member,
) -> Result<(), AllocError>
    ensures { OnOk result (all_told tasks.new.items ≡ all_told tasks.old.items
        ++ machine_part member.now.key (of_states (levels_of around.now) (data_of member.now.value))) }
{
    if member.key.as_str() == "States" {
        add_states(alloc, tasks, around, &member.value)
    } else {
        Ok(())
    }
}

#[cycle(walk)]
fn add_states<'a>(
    alloc: Global,
    tasks: &mut Vec<TaskErrors>,
    around: &[&'a Json],
    among: &'a Json,
) -> Result<(), AllocError>
    ensures { OnOk result (all_told tasks.new.items ≡ all_told tasks.old.items
        ++ of_states (levels_of around.now) (data_of among.now)) }
{
    for state in among.members() {
        add_state(alloc, tasks, around, state)?;
    }
    Ok(())
}

/// A Task stands before those inside it.
#[cycle(walk)]
fn add_state<'a>(
    alloc: Global,
    tasks: &mut Vec<TaskErrors>,
    around: &[&'a Json],
    state: &'a Member,
) -> Result<(), AllocError>
    ensures { OnOk result (all_told tasks.new.items ≡ all_told tasks.old.items
        ++ (own_errors (data_of state.now.value ∷ levels_of around.now) state.now.key (data_of state.now.value)
        ++ of_inner (data_of state.now.value ∷ levels_of around.now) (data_of state.now.value))) }
{
    let levels = levels(alloc, &state.value, around)?;
    add_own(alloc, tasks, &levels, state)?;
    add_inner(alloc, tasks, &levels, &state.value)
}

/// Adds the Tasks of the machines inside a state.
#[cycle(walk)]
fn add_inner<'a>(
    alloc: Global,
    tasks: &mut Vec<TaskErrors>,
    around: &[&'a Json],
    state: &'a Json,
) -> Result<(), AllocError>
    ensures { OnOk result (all_told tasks.new.items ≡ all_told tasks.old.items
        ++ of_inner (levels_of around.now) (data_of state.now)) }
{
    for member in state.members() {
        add_inner_part(alloc, tasks, around, member)?;
    }
    Ok(())
}

#[cycle(walk)]
fn add_inner_part<'a>(
    alloc: Global,
    tasks: &mut Vec<TaskErrors>,
    around: &[&'a Json],
    member: &'a Member,
) -> Result<(), AllocError>
    ensures { OnOk result (all_told tasks.new.items ≡ all_told tasks.old.items
        ++ state_part member.now.key (of_branches (levels_of around.now) (data_of member.now.value))
        (of_machine (levels_of around.now) (data_of member.now.value))) }
{
    let key = member.key.as_str();
    if key == "Branches" {
        add_branches(alloc, tasks, around, &member.value)
    } else if key == "Iterator" || key == "ItemProcessor" {
        add_machine(alloc, tasks, around, &member.value)
    } else {
        Ok(())
    }
}

#[cycle(walk)]
fn add_branches<'a>(
    alloc: Global,
    tasks: &mut Vec<TaskErrors>,
    around: &[&'a Json],
    branches: &'a Json,
) -> Result<(), AllocError>
    ensures { OnOk result (all_told tasks.new.items ≡ all_told tasks.old.items
        ++ of_branches (levels_of around.now) (data_of branches.now)) }
{
    for branch in branches.items() {
        add_machine(alloc, tasks, around, branch)?;
    }
    Ok(())
}

/// The Tasks of a definition, at any depth, in document order, those of inner machines behind the state that holds them, each with the errors
/// that it is worth failing with: those that its own retriers and catchers, or those of the states around it, tell apart, and
/// `States.Timeout`. The definition is a canonical one; of any other value the same is told of what has its form. The error is that memory
/// ran out.
pub fn errors_of_tasks(alloc: Global, definition: &Json) -> Result<Vec<TaskErrors>, AllocError>
    ensures { IfOk result (λ v. all_told v.items ≡ task_errors (data_of definition.now)) }
{
    let mut tasks = Vec::new(alloc);
    add_machine(alloc, &mut tasks, &[], definition)?;
    Ok(tasks)
}

// The states of a definition.
ghost use Rattle.std.specs.Prelude.{◌≡◌, ◌++◌, ◌∷◌, IfOk, OnOk, map};
ghost use Rattle.asl_json.specs.View.{data_of, member_of};
ghost use Rattle.asl_def_walk.specs.States.{all_states, among_states, branch_states, inner_states, machine_part, state_part};

use asl_json::{Json, Member};
use std::alloc::{AllocError, Global};

#[cycle(walk)]
fn add_machine<'a>(states: &mut Vec<&'a Member>, machine: &'a Json) -> Result<(), AllocError>
    ensures { OnOk result (map (λ m. member_of m.now) states.new.items
        ≡ map (λ m. member_of m.now) states.old.items ++ all_states (data_of machine.now)) }
{
    for member in machine.members() {
        add_machine_part(states, member)?;
    }
    Ok(())
}

#[cycle(walk)]
fn add_machine_part<'a>(states: &mut Vec<&'a Member>, member: &'a Member) -> Result<(), AllocError>
    ensures { OnOk result (map (λ m. member_of m.now) states.new.items
        ≡ map (λ m. member_of m.now) states.old.items
        ++ machine_part member.now.key (among_states (data_of member.now.value))) }
{
    if member.key.as_str() == "States" {
        add_states(states, &member.value)
    } else {
        Ok(())
    }
}

/// A state stands before those inside it.
#[cycle(walk)]
fn add_states<'a>(states: &mut Vec<&'a Member>, among: &'a Json) -> Result<(), AllocError>
    ensures { OnOk result (map (λ m. member_of m.now) states.new.items
        ≡ map (λ m. member_of m.now) states.old.items ++ among_states (data_of among.now)) }
{
    for state in among.members() {
        states.push(state)?;
        add_inner(states, &state.value)?;
    }
    Ok(())
}

/// Adds the states of the machines inside a state.
#[cycle(walk)]
fn add_inner<'a>(states: &mut Vec<&'a Member>, state: &'a Json) -> Result<(), AllocError>
    ensures { OnOk result (map (λ m. member_of m.now) states.new.items
        ≡ map (λ m. member_of m.now) states.old.items ++ inner_states (data_of state.now)) }
{
    for member in state.members() {
        add_state_part(states, member)?;
    }
    Ok(())
}

#[cycle(walk)]
fn add_state_part<'a>(states: &mut Vec<&'a Member>, member: &'a Member) -> Result<(), AllocError>
    ensures { OnOk result (map (λ m. member_of m.now) states.new.items
        ≡ map (λ m. member_of m.now) states.old.items
        ++ state_part member.now.key (branch_states (data_of member.now.value))
        (all_states (data_of member.now.value))) }
{
    let key = member.key.as_str();
    if key == "Branches" {
        add_branches(states, &member.value)
    } else if key == "Iterator" || key == "ItemProcessor" {
        add_machine(states, &member.value)
    } else {
        Ok(())
    }
}

#[cycle(walk)]
fn add_branches<'a>(states: &mut Vec<&'a Member>, branches: &'a Json) -> Result<(), AllocError>
    ensures { OnOk result (map (λ m. member_of m.now) states.new.items
        ≡ map (λ m. member_of m.now) states.old.items ++ branch_states (data_of branches.now)) }
{
    for branch in branches.items() {
        add_machine(states, branch)?;
    }
    Ok(())
}

/// The states of a definition with their names, at any depth, in document order, those of inner machines behind the state that holds them.
/// The error is that memory ran out.
pub fn states_in<'a>(alloc: Global, definition: &'a Json) -> Result<Vec<&'a Member>, AllocError>
    ensures { IfOk result (λ states. map (λ m. member_of m.now) states.items
        ≡ all_states (data_of definition.now)) }
{
    let mut states = Vec::new(alloc);
    add_machine(&mut states, definition)?;
    Ok(states)
}

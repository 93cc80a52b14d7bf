// The states of a machine, and of the machines inside it.
ghost use Rattle.std.specs.Prelude.{◌≡◌, ◌++◌, Some, IfOk, OnOk, string_bytes};
ghost use Rattle.asl_json.specs.View.{data_of};
ghost use Rattle.asl_graph.specs.Names.{box_key};
ghost use Rattle.asl_graph.specs.Graphs.{boxed, branch_told, machine_lines, machine_part, states_lines, inner_lines, state_part, branches_lines};

use crate::edges::Edge;
use crate::language::Language;
use crate::leading::{put_first_lines, put_state_lines};
use crate::lines::{put_box_ending, put_box_heading};
use crate::naming::put_box_key;
use asl_json::{Json, Member};
use asl_text::put_decimal;
use std::alloc::{AllocError, Global};

/// What tells of the branch with this number.
fn branch_told(alloc: Global, number: usize) -> Result<String, AllocError>
    ensures { IfOk result (λ t. string_bytes t ≡ branch_told number) }
{
    let mut told = String::new(alloc);
    told.push_str(" - branch ")?;
    put_decimal(&mut told, number as u64)?;
    Ok(told)
}

/// What tells the machine with this number inside a state from others.
fn key_of(alloc: Global, name: &str, number: usize) -> Result<String, AllocError>
    ensures { IfOk result (λ t. string_bytes t ≡ box_key name.now number) }
{
    let mut key = String::new(alloc);
    put_box_key(&mut key, name, number)?;
    Ok(key)
}

/// Appends the lines of the states of a machine, by what tells it from others. The error is that memory ran out.
#[cycle(walk)]
pub(crate) fn put_machine_lines(
    alloc: Global,
    out: &mut String,
    language: Language,
    edges: &[Edge],
    key: &str,
    machine: &Json,
) -> Result<(), AllocError>
    ensures { OnOk result (string_bytes out.new
        ≡ string_bytes out.old ++ machine_lines language edges.now key.now (data_of machine.now)) }
{
    for member in machine.members() {
        let part = member.key.as_str();
        put_machine_part(alloc, out, language, edges, key, part, &member.value)?;
    }
    Ok(())
}

#[cycle(walk)]
fn put_machine_part(
    alloc: Global,
    out: &mut String,
    language: Language,
    edges: &[Edge],
    key: &str,
    part: &str,
    value: &Json,
) -> Result<(), AllocError>
    ensures { OnOk result (string_bytes out.new ≡ string_bytes out.old
        ++ machine_part part.now (states_lines language edges.now key.now (data_of value.now))) }
{
    if part == "States" {
        put_states_lines(alloc, out, language, edges, key, value)
    } else {
        Ok(())
    }
}

#[cycle(walk)]
fn put_states_lines(
    alloc: Global,
    out: &mut String,
    language: Language,
    edges: &[Edge],
    key: &str,
    states: &Json,
) -> Result<(), AllocError>
    ensures { OnOk result (string_bytes out.new
        ≡ string_bytes out.old ++ states_lines language edges.now key.now (data_of states.now)) }
{
    for member in states.members() {
        let name = member.key.as_str();
        put_state_lines(alloc, out, language, edges, key, name, &member.value)?;
        put_inner_lines(alloc, out, language, edges, name, &member.value)?;
    }
    Ok(())
}

/// Appends the lines of the machines inside a state.
#[cycle(walk)]
fn put_inner_lines(
    alloc: Global,
    out: &mut String,
    language: Language,
    edges: &[Edge],
    name: &str,
    state: &Json,
) -> Result<(), AllocError>
    ensures { OnOk result (string_bytes out.new
        ≡ string_bytes out.old ++ inner_lines language edges.now name.now (data_of state.now)) }
{
    for member in state.members() {
        put_state_part(
            alloc,
            out,
            language,
            edges,
            name,
            member.key.as_str(),
            &member.value,
        )?;
    }
    Ok(())
}

#[cycle(walk)]
fn put_state_part(
    alloc: Global,
    out: &mut String,
    language: Language,
    edges: &[Edge],
    name: &str,
    key: &str,
    value: &Json,
) -> Result<(), AllocError>
    ensures { OnOk result (string_bytes out.new
        ≡ string_bytes out.old ++ state_part language edges.now name.now key.now (data_of value.now)
        (branches_lines language edges.now name.now (data_of value.now))
        (machine_lines language edges.now (box_key name.now 0) (data_of value.now))) }
{
    if key == "Branches" {
        put_branches(alloc, out, language, edges, name, value)
    } else if key == "Iterator" || key == "ItemProcessor" {
        put_boxed(alloc, out, language, edges, name, 0, " - each item", value)
    } else {
        Ok(())
    }
}

#[cycle(walk)]
fn put_branches(
    alloc: Global,
    out: &mut String,
    language: Language,
    edges: &[Edge],
    name: &str,
    branches: &Json,
) -> Result<(), AllocError>
    ensures { OnOk result (string_bytes out.new
        ≡ string_bytes out.old ++ branches_lines language edges.now name.now (data_of branches.now)) }
{
    for (number, branch) in branches.items().iter().enumerate() {
        let told = branch_told(alloc, number)?;
        let told = told.as_str();
        put_boxed(alloc, out, language, edges, name, number, told, branch)?;
    }
    Ok(())
}

/// Appends the box of the machine with this number inside a state; what tells of it is shown already.
#[cycle(walk)]
fn put_boxed(
    alloc: Global,
    out: &mut String,
    language: Language,
    edges: &[Edge],
    name: &str,
    number: usize,
    told: &str,
    machine: &Json,
) -> Result<(), AllocError>
    ensures { OnOk result (string_bytes out.new ≡ string_bytes out.old
        ++ boxed language edges.now name.now number told.now (data_of machine.now)
        (machine_lines language edges.now (box_key name.now number) (data_of machine.now))) }
{
    put_box_heading(out, language, name, number, told)?;
    let key = key_of(alloc, name, number)?;
    put_first_lines(out, language, edges, key.as_str(), machine)?;
    put_machine_lines(alloc, out, language, edges, key.as_str(), machine)?;
    put_box_ending(out, language, name, number)
}

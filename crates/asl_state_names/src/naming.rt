// Finding the names of states.
ghost use Rattle.std.specs.Prelude.{◌≡◌, ◌++◌, ◌∷◌, [], IfOk, OnOk};
ghost use Rattle.asl_json.specs.View.{data_of};
ghost use Rattle.asl_state_names.specs.Names.{declared, referred, next_part, rule_names, rules_names, names_next, has_rules, has_machine, machine_part, state_part, machine_names, among_states, state_names, branch_names, names_of};

use crate::mention::Mention;
use crate::place::Place;
use asl_json::{Json, Member, Txt};
use std::alloc::{AllocError, Global};

/// The key of a state at a place, of the machine at another.
fn declared(alloc: Global, machine: &Place, place: &Place, key: &Txt) -> Result<Mention, AllocError>
    ensures { IfOk result (λ m. m ≡ declared machine.now place.now key.now) }
{
    Ok(Mention {
        machine: machine.try_clone(alloc)?,
        place: place.try_clone(alloc)?,
        name: key.try_clone(alloc)?,
        is_key: true,
    })
}

/// Adds the name that a value is, if it is one.
fn add_referred(
    alloc: Global,
    names: &mut Vec<Mention>,
    machine: &Place,
    place: &Place,
    value: &Json,
) -> Result<(), AllocError>
    ensures { OnOk result (names.new.items
        ≡ names.old.items ++ referred machine.now place.now (data_of value.now)) }
{
    let Json::Text(name) = value else {
        return Ok(());
    };
    names.push(Mention {
        machine: machine.try_clone(alloc)?,
        place: place.try_clone(alloc)?,
        name: name.try_clone(alloc)?,
        is_key: false,
    })?;
    Ok(())
}

/// Adds the name that a member of a rule or of a catcher has.
fn add_next(
    alloc: Global,
    names: &mut Vec<Mention>,
    machine: &Place,
    place: &Place,
    member: &Member,
) -> Result<(), AllocError>
    ensures { OnOk result (names.new.items ≡ names.old.items
        ++ next_part member.now.key (referred machine.now place.now (data_of member.now.value))) }
{
    if member.key.as_str() == "Next" {
        add_referred(alloc, names, machine, place, &member.value)
    } else {
        Ok(())
    }
}

/// Adds the name that a rule or a catcher has.
fn add_rule(
    alloc: Global,
    names: &mut Vec<Mention>,
    machine: &Place,
    place: &Place,
    rule: &Json,
) -> Result<(), AllocError>
    ensures { OnOk result (names.new.items
        ≡ names.old.items ++ rule_names machine.now place.now (data_of rule.now)) }
{
    for (i, member) in rule.members().iter().enumerate() {
        let inner = place.part(alloc, i)?;
        add_next(alloc, names, machine, &inner, member)?;
    }
    Ok(())
}

/// Adds the names that rules or catchers have.
fn add_rules(
    alloc: Global,
    names: &mut Vec<Mention>,
    machine: &Place,
    place: &Place,
    rules: &Json,
) -> Result<(), AllocError>
    ensures { OnOk result (names.new.items
        ≡ names.old.items ++ rules_names machine.now place.now (data_of rules.now)) }
{
    for (i, rule) in rules.items().iter().enumerate() {
        let inner = place.part(alloc, i)?;
        add_rule(alloc, names, machine, &inner, rule)?;
    }
    Ok(())
}

fn names_next(key: &str) -> bool
    ensures { result ≡ names_next key.now }
{
    key == "Next" || key == "Default"
}

fn has_rules(key: &str) -> bool
    ensures { result ≡ has_rules key.now }
{
    key == "Choices" || key == "Catch"
}

fn has_machine(key: &str) -> bool
    ensures { result ≡ has_machine key.now }
{
    key == "Iterator" || key == "ItemProcessor"
}

/// Adds the names of the machine at a place.
#[cycle(name)]
fn add_machine(
    alloc: Global,
    names: &mut Vec<Mention>,
    place: &Place,
    machine: &Json,
) -> Result<(), AllocError>
    ensures { OnOk result (names.new.items
        ≡ names.old.items ++ machine_names place.now (data_of machine.now)) }
{
    for (i, member) in machine.members().iter().enumerate() {
        let inner = place.part(alloc, i)?;
        add_machine_part(alloc, names, place, &inner, member)?;
    }
    Ok(())
}

/// Adds the names of a member of a machine.
#[cycle(name)]
fn add_machine_part(
    alloc: Global,
    names: &mut Vec<Mention>,
    machine: &Place,
    place: &Place,
    member: &Member,
) -> Result<(), AllocError>
    ensures { OnOk result (names.new.items ≡ names.old.items
        ++ machine_part member.now.key (referred machine.now place.now (data_of member.now.value))
        (among_states machine.now place.now (data_of member.now.value))) }
{
    let key = member.key.as_str();
    if key == "StartAt" {
        add_referred(alloc, names, machine, place, &member.value)
    } else if key == "States" {
        add_states(alloc, names, machine, place, &member.value)
    } else {
        Ok(())
    }
}

/// Adds the names of the states at a place: each is declared before what stands in it.
#[cycle(name)]
fn add_states(
    alloc: Global,
    names: &mut Vec<Mention>,
    machine: &Place,
    place: &Place,
    among: &Json,
) -> Result<(), AllocError>
    ensures { OnOk result (names.new.items
        ≡ names.old.items ++ among_states machine.now place.now (data_of among.now)) }
{
    for (i, state) in among.members().iter().enumerate() {
        let inner = place.part(alloc, i)?;
        names.push(declared(alloc, machine, &inner, &state.key)?)?;
        add_state(alloc, names, machine, &inner, &state.value)?;
    }
    Ok(())
}

/// Adds the names in the state at a place.
#[cycle(name)]
fn add_state(
    alloc: Global,
    names: &mut Vec<Mention>,
    machine: &Place,
    place: &Place,
    state: &Json,
) -> Result<(), AllocError>
    ensures { OnOk result (names.new.items
        ≡ names.old.items ++ state_names machine.now place.now (data_of state.now)) }
{
    for (i, member) in state.members().iter().enumerate() {
        let inner = place.part(alloc, i)?;
        add_state_part(alloc, names, machine, &inner, member)?;
    }
    Ok(())
}

/// Adds the names of a member of a state.
#[cycle(name)]
fn add_state_part(
    alloc: Global,
    names: &mut Vec<Mention>,
    machine: &Place,
    place: &Place,
    member: &Member,
) -> Result<(), AllocError>
    ensures { OnOk result (names.new.items ≡ names.old.items
        ++ state_part member.now.key (referred machine.now place.now (data_of member.now.value))
        (rules_names machine.now place.now (data_of member.now.value))
        (branch_names place.now (data_of member.now.value))
        (machine_names place.now (data_of member.now.value))) }
{
    let key = member.key.as_str();
    if names_next(key) {
        add_referred(alloc, names, machine, place, &member.value)
    } else if has_rules(key) {
        add_rules(alloc, names, machine, place, &member.value)
    } else if key == "Branches" {
        add_branches(alloc, names, place, &member.value)
    } else if has_machine(key) {
        add_machine(alloc, names, place, &member.value)
    } else {
        Ok(())
    }
}

/// Adds the names of the branches at a place.
#[cycle(name)]
fn add_branches(
    alloc: Global,
    names: &mut Vec<Mention>,
    place: &Place,
    branches: &Json,
) -> Result<(), AllocError>
    ensures { OnOk result (names.new.items
        ≡ names.old.items ++ branch_names place.now (data_of branches.now)) }
{
    for (i, branch) in branches.items().iter().enumerate() {
        let inner = place.part(alloc, i)?;
        add_machine(alloc, names, &inner, branch)?;
    }
    Ok(())
}

/// The names of states in a definition, at any depth, in document order. The error is that memory ran out.
pub fn names_in(alloc: Global, definition: &Json) -> Result<Vec<Mention>, AllocError>
    ensures { IfOk result (λ names. names.items ≡ names_of (data_of definition.now)) }
{
    let mut names = Vec::new(alloc);
    add_machine(alloc, &mut names, &Place::start(alloc), definition)?;
    Ok(names)
}

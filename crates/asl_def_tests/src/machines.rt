// What a machine lends, and that its copies lend the same.
use asl_check::accept;
use asl_def::Machine;
use asl_def_fields::{Compiled, PathField};
use asl_def_shared::Transition;
use asl_def_states::State;
use asl_json_write::write;
use std::test::Fail;

/// The machine of a definition, where that is accepted.
pub(crate) fn machine(rt: &HostRuntime, text: &str) -> Option<Machine> {
    accept(rt.alloc(), text.as_bytes()).ok()
}

const TWO_STATES: &str =
    r#"{"StartAt":"P","States":{"P":{"Type":"Pass","Next":"S","InputPath":null},"S":{"Type":"Succeed"}}}"#;

fn goes_to(machine: &Machine, name: &str, next: &str) -> bool {
    match machine.state(name) {
        Some(State::Pass(pass)) => match pass.next() {
            Transition::To(target) => target.name.as_str() == next,
            Transition::End => false,
        },
        _ => false,
    }
}

fn reads_whole_input(machine: &Machine, name: &str) -> bool {
    match machine.state(name) {
        Some(State::Pass(pass)) => matches!(pass.input_path(), PathField::Whole),
        Some(State::Succeed(succeed)) => matches!(succeed.input_path(), PathField::Whole),
        _ => false,
    }
}

/// The number of the state of this name, where it is found with a Succeed state.
fn number_of_succeed(machine: &Machine, name: &str) -> Option<usize> {
    match machine.find(name) {
        Some((number, State::Succeed(_))) => Some(number),
        _ => None,
    }
}

fn numbers_its_states(machine: &Machine) -> bool {
    machine.len() == 2
        && number_of_succeed(machine, "S") == Some(1)
        && matches!(machine.find("P"), Some((0, State::Pass(_))))
        && machine.find("Q").is_none()
}

fn lends_its_states(machine: &Machine) -> bool {
    machine.start() == "P"
        && numbers_its_states(machine)
        && goes_to(machine, "P", "S")
        && !reads_whole_input(machine, "P")
        && reads_whole_input(machine, "S")
        && machine.state("Q").is_none()
}

fn copy_lends_its_states(rt: &HostRuntime, machine: &Machine) -> bool {
    match machine.try_clone() {
        Ok(copy) => lends_its_states(&copy),
        Err(_) => false,
    }
}

#[test]
fn states_by_name(rt: HostRuntime) -> Result<(), Fail> {
    let machine = machine(&rt, TWO_STATES).ok_or("refused")?;
    assert!(rt; lends_its_states(&machine));
    assert!(rt; copy_lends_its_states(&rt, &machine));
    Ok(())
}

/// A Parallel of two machines, in whose second a Map holds a third.
const INNER_MACHINES: &str =
    r#"{"StartAt":"L","States":{"L":{"Type":"Parallel","Next":"Z","Branches":[
    {"StartAt":"A","States":{"A":{"Type":"Wait","Seconds":1,"End":true}}},
    {"StartAt":"M","States":{"M":{"Type":"Map","End":true,"Iterator":{"StartAt":"F","States":{"F":{"Type":"Fail"}}}}}}]},
    "Z":{"Type":"Succeed"}}}"#;

/// The number of a state that is there, else the number of all states.
fn number(machine: &Machine, name: &str) -> usize {
    match machine.find(name) {
        Some((number, _)) => number,
        None => machine.len(),
    }
}

/// Whether the states of inner machines are found too, and stand before the state that holds them.
fn holds_inner_states(machine: &Machine) -> bool {
    machine.start() == "L"
        && machine.len() == 5
        && matches!(machine.state("A"), Some(State::Wait(_)))
        && matches!(machine.state("M"), Some(State::Map(_)))
        && matches!(machine.state("F"), Some(State::Fail(_)))
        && matches!(machine.state("L"), Some(State::Parallel(_)))
        && number(machine, "F") < number(machine, "M")
        && number(machine, "M") < number(machine, "L")
        && number(machine, "Z") == 4
}

#[test]
fn states_of_inner_machines(rt: HostRuntime) -> Result<(), Fail> {
    let machine = machine(&rt, INNER_MACHINES).ok_or("refused")?;
    assert!(rt; holds_inner_states(&machine));
    let copy = machine.try_clone().map_err(|_| "memory")?;
    assert!(rt; holds_inner_states(&copy));
    Ok(())
}

/// Maps in the older spelling, in the newer one, and in both; the last has no template.
const MAPS: &str = r#"{"StartAt":"K","States":{
    "K":{"Type":"Map","Next":"L","Parameters":{"k":1},"Iterator":{"StartAt":"KI","States":{"KI":{"Type":"Succeed"}}}},
    "L":{"Type":"Map","Next":"M","ItemSelector":{"l":1},"ItemProcessor":{"ProcessorConfig":{"Mode":"INLINE"},"StartAt":"LI","States":{"LI":{"Type":"Succeed"}}}},
    "M":{"Type":"Map","Next":"N","ItemSelector":{"m":1},"Iterator":{"StartAt":"MI","States":{"MI":{"Type":"Succeed"}}}},
    "N":{"Type":"Map","End":true,"ItemProcessor":{"StartAt":"NI","States":{"NI":{"Type":"Succeed"}}}}}}"#;

/// Whether a Map runs a machine that starts there, for each item.
fn runs(machine: &Machine, name: &str, start: &str) -> bool {
    match machine.state(name) {
        Some(State::Map(map)) => map.item_processor().start.name.as_str() == start,
        _ => false,
    }
}

/// The text of the template for the inputs of a Map's iterations.
fn selector(rt: &HostRuntime, machine: &Machine, name: &str) -> Option<String> {
    match machine.state(name) {
        Some(State::Map(map)) => match map.item_selector() {
            Some(template) => write(rt.alloc(), &template.json(rt.alloc()).ok()?).ok(),
            None => String::from_str(rt.alloc(), "none").ok(),
        },
        _ => None,
    }
}

fn selects(rt: &HostRuntime, machine: &Machine, name: &str, wanted: &str) -> bool {
    match selector(rt, machine, name) {
        Some(text) => text.as_str() == wanted,
        None => false,
    }
}

#[test]
fn maps_in_either_spelling(rt: HostRuntime) -> Result<(), Fail> {
    let machine = machine(&rt, MAPS).ok_or("refused")?;
    assert!(rt; runs(&machine, "K", "KI") && selects(&rt, &machine, "K", r#"{"k":1}"#));
    assert!(rt; runs(&machine, "L", "LI") && selects(&rt, &machine, "L", r#"{"l":1}"#));
    assert!(rt; runs(&machine, "M", "MI") && selects(&rt, &machine, "M", r#"{"m":1}"#));
    assert!(rt; runs(&machine, "N", "NI") && selects(&rt, &machine, "N", "none"));
    Ok(())
}

const WITH_DATA: &str = r#"{"StartAt":"T","States":{
    "T":{"Type":"Task","Resource":"r","InputPath":"$.in","Parameters":{"p":1},"ResultSelector":{"r":2},"ResultPath":null,"Next":"P"},
    "P":{"Type":"Pass","Parameters":{"q":3},"End":true}}}"#;

fn lends_path(machine: &Machine, name: &str, member: &str, wanted: Option<&str>) -> bool {
    match machine.state(name) {
        Some(state) => match (state.path(member), wanted) {
            (Some(path), Some(text)) => path.text() == text,
            (None, None) => true,
            _ => false,
        },
        None => false,
    }
}

/// The text of the template that a member of a state is.
fn template(rt: &HostRuntime, machine: &Machine, name: &str, member: &str) -> Option<String> {
    match machine.state(name)?.template(member) {
        Some(template) => write(rt.alloc(), &template.json(rt.alloc()).ok()?).ok(),
        None => String::from_str(rt.alloc(), "none").ok(),
    }
}

fn lends_template(
    rt: &HostRuntime,
    machine: &Machine,
    name: &str,
    member: &str,
    wanted: &str,
) -> bool {
    match template(rt, machine, name, member) {
        Some(text) => text.as_str() == wanted,
        None => false,
    }
}

#[test]
fn states_lend_paths_and_templates_by_their_members(rt: HostRuntime) -> Result<(), Fail> {
    let machine = machine(&rt, WITH_DATA).ok_or("refused")?;
    assert!(rt; lends_path(&machine, "T", "InputPath", Some("$.in")));
    assert!(rt;
        lends_path(&machine, "T", "ResultPath", None)
            && lends_path(&machine, "P", "InputPath", None)
    );
    assert!(rt; lends_template(&rt, &machine, "T", "Parameters", r#"{"p":1}"#));
    assert!(rt; lends_template(&rt, &machine, "T", "ResultSelector", r#"{"r":2}"#));
    assert!(rt; lends_template(&rt, &machine, "P", "Parameters", r#"{"q":3}"#));
    assert!(rt; lends_template(&rt, &machine, "P", "ResultSelector", "none"));
    Ok(())
}

/// A Pass that places 7 at `$.a.b`, and a Succeed.
const WITH_RESULT_PATH: &str =
    r#"{"StartAt":"P","States":{"P":{"Type":"Pass","Result":7,"ResultPath":"$.a.b","Next":"S"},"S":{"Type":"Succeed"}}}"#;

#[test]
fn a_pass_lends_its_result_path_and_no_input_path(rt: HostRuntime) -> Result<(), Fail> {
    let machine = machine(&rt, WITH_RESULT_PATH).ok_or("refused")?;
    assert!(rt; lends_path(&machine, "P", "ResultPath", Some("$.a.b")));
    assert!(rt; lends_path(&machine, "P", "InputPath", None));
    Ok(())
}

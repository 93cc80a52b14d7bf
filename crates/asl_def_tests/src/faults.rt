// The faults that are told of definitions, in document order.
use asl_def_schema::Fault;
use asl_json_read::read;
use asl_lint_faults::every_fault;
use std::alloc::Global;
use std::test::Fail;

/// A line for each fault.
fn lines(alloc: Global, faults: &[Fault]) -> Option<String> {
    let mut text = String::new(alloc);
    for fault in faults {
        let place = fault.place(alloc).ok()?;
        writeln!(text, "{} {}", fault.kind().words(), place.as_str()).ok()?;
    }
    Some(text)
}

fn told(alloc: Global, definition: &str) -> Option<String> {
    let value = read(alloc, definition.as_bytes()).ok()?;
    let faults = every_fault(alloc, &value).ok()?;
    lines(alloc, &faults)
}

fn is_told(alloc: Global, definition: &str, lines: &str) -> bool {
    match told(alloc, definition) {
        Some(text) => text.as_str() == lines,
        None => false,
    }
}

#[test]
fn nothing_is_told_of_a_definition_without_faults(rt: HostRuntime) -> Result<(), Fail> {
    let alloc = rt.alloc();
    assert!(rt;
        is_told(
            alloc,
            r#"{"StartAt":"A","States":{"A":{"Type":"Succeed"}}}"#,
            ""
        )
    );
    Ok(())
}

#[test]
fn no_object_is_told_alone(rt: HostRuntime) -> Result<(), Fail> {
    let alloc = rt.alloc();
    assert!(rt; is_told(alloc, "[1]", "F2 NotObject \n"));
    assert!(rt; is_told(alloc, "{}", "F3 Missing /StartAt\nF3 Missing /States\n"));
    Ok(())
}

/// Faults of members, of a member that is missing, and of several states.
const MEMBERS: &str = r#"{"StartAt":"Z","Extra":1,"States":{
    "A":{"Type":"Task","Next":"Y"},
    "B":{"Type":"Wait","Seconds":-1,"End":true}}}"#;

const MEMBERS_TOLD: &str = "F10 NoTarget /StartAt
F4 UnknownField /Extra
F10 NoTarget /States/A/Next
F3 Missing /States/A/Resource
F7 Range /States/B/Seconds
";

/// Two faults at one place, and a group of which none is there.
const GROUPS: &str = r#"{"StartAt":"A","States":{
    "A":{"Type":"Wait","Seconds":1,"Timestamp":"soon","Next":"B","End":true},
    "B":{"Type":"Wait","Seconds":1}}}"#;

const GROUPS_TOLD: &str = "F8 Both /States/A/Timestamp
F7 Range /States/A/Timestamp
F8 Both /States/A/End
F9 Neither /States/B
";

/// A list of retriers, of which the first is for all errors and the last for none.
const RETRIERS: &str = r#"{"StartAt":"A","States":{"A":{"Type":"Task","Resource":"r","End":true,
    "Retry":[{"ErrorEquals":["States.ALL"]},{"ErrorEquals":[]}]}}}"#;

const RETRIERS_TOLD: &str = "F12 AllNotLast /States/A/Retry/0/ErrorEquals
F7 Range /States/A/Retry/1/ErrorEquals
";

/// Names again, behind a fault that stands later.
const NAMES: &str = r#"{"StartAt":"A","States":{
    "A":{"Type":"Parallel","End":true,"Branches":[
        {"StartAt":"A","States":{"A":{"Type":"Succeed"}}},
        {"StartAt":"A","States":{"A":{"Type":"Succeed"}}}]},
    "B":{"Type":"Pass","Next":"C"}}}"#;

const NAMES_TOLD: &str = "F10 NoTarget /States/B/Next
F11 DuplicateState /States/A/Branches/0/States/A
F11 DuplicateState /States/A/Branches/1/States/A
";

#[test]
fn faults_are_told_in_document_order(rt: HostRuntime) -> Result<(), Fail> {
    let alloc = rt.alloc();
    assert!(rt; is_told(alloc, MEMBERS, MEMBERS_TOLD));
    assert!(rt; is_told(alloc, GROUPS, GROUPS_TOLD));
    assert!(rt; is_told(alloc, RETRIERS, RETRIERS_TOLD));
    Ok(())
}

#[test]
fn names_again_are_told_last(rt: HostRuntime) -> Result<(), Fail> {
    assert!(rt; is_told(rt.alloc(), NAMES, NAMES_TOLD));
    Ok(())
}

/// A definition with so many states, of which none says what comes next.
fn unended(alloc: Global, states: usize) -> Option<String> {
    let mut text = String::new(alloc);
    write!(
        text,
        r#"{{"StartAt":"S0","States":{{"S0":{{"Type":"Pass"}}"#
    )
    .ok()?;
    for i in 1..states {
        write!(text, r#","S{i}":{{"Type":"Pass"}}"#).ok()?;
    }
    write!(text, "}}}}").ok()?;
    Some(text)
}

/// How many faults are told of so many such states, and the last of them.
fn many(alloc: Global, states: usize) -> Option<(usize, String)> {
    let text = unended(alloc, states)?;
    let value = read(alloc, text.as_bytes()).ok()?;
    let faults = every_fault(alloc, &value).ok()?;
    let last = lines(alloc, faults.get(states.saturating_sub(1)..)?)?;
    Some((faults.len(), last))
}

fn are_many(alloc: Global, states: usize, last: &str) -> bool {
    match many(alloc, states) {
        Some((told, text)) => told == states && text.as_str() == last,
        None => false,
    }
}

#[test]
fn ten_thousand_faults_are_told(rt: HostRuntime) -> Result<(), Fail> {
    assert!(rt; are_many(rt.alloc(), 10_000, "F9 Neither /States/S9999\n"));
    Ok(())
}

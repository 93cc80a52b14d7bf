// What is told of mock files, in document order: a line for each place, the numbers of the members on the way.
use crate::mocks::is;
use asl_json_read::read;
use asl_lint_mocks::{faults_of, has_gap, unused_responses};
use std::alloc::Global;
use std::test::Fail;

/// Puts a line for each place behind a text.
fn put(text: &mut String, name: &str, places: &[Vec<usize>]) -> Option<()> {
    for place in places {
        write!(text, "{name}").ok()?;
        for number in place.as_slice() {
            write!(text, " {number}").ok()?;
        }
        writeln!(text, "").ok()?;
    }
    Some(())
}

fn faults(alloc: Global, file: &str) -> Option<String> {
    let value = read(alloc, file.as_bytes()).ok()?;
    let faults = faults_of(alloc, &value).ok()?;
    let mut text = String::new(alloc);
    put(&mut text, "M2", &faults.misfits)?;
    put(&mut text, "M3", &faults.bad_keys)?;
    put(&mut text, "M4", &faults.overlaps)?;
    put(&mut text, "M5", &faults.lost_names)?;
    Some(text)
}

fn unused(alloc: Global, file: &str) -> Option<String> {
    let value = read(alloc, file.as_bytes()).ok()?;
    let places = unused_responses(alloc, &value).ok()?;
    let mut text = String::new(alloc);
    put(&mut text, "unused", &places)?;
    Some(text)
}

/// Whether there is a gap in a response of these answers.
fn gap(alloc: Global, answers: &str) -> Option<bool> {
    let file = format!(in alloc; r#"{{"R":{answers}}}"#).ok()?;
    let value = read(alloc, file.as_bytes()).ok()?;
    Some(has_gap(value.members_at("R")))
}

fn has(gap: Option<bool>, wanted: bool) -> bool {
    match gap {
        Some(gap) => gap == wanted,
        None => false,
    }
}

const GOOD: &str = r#"{"StateMachines":{"M":{"TestCases":{"A":{"T":"R"},"B":{}}}},
    "MockedResponses":{"R":{"1-2":{"Return":1},"0":{"Throw":{"Error":"E"}}}}}"#;

/// Faults of each sort, several of most.
const BAD: &str = r#"{"Note":[1],
    "StateMachines":{"M":{"TestCases":{"A":{"T":"R","U":"Lost"},"B":{"T":1}}},"N":{}},
    "MockedResponses":{
        "R":{"4-5":{"Return":1},"0":{"Return":2},"3-4":{"Return":3},"6":{},"x":{"Return":4},"0-1":{"Return":5}},
        "S":{"2-1":{"Return":null}}}}"#;

const BAD_TOLD: &str = "M2 1 0 0 1 0
M2 1 1
M2 2 0 3
M3 2 0 4
M3 2 1 0
M4 2 0 2
M4 2 0 5
M5 1 0 0 0 1
";

#[test]
fn all_faults_are_told(rt: HostRuntime) -> Result<(), Fail> {
    let alloc = rt.alloc();
    assert!(rt; is(&faults(alloc, GOOD), ""));
    assert!(rt; is(&faults(alloc, BAD), BAD_TOLD));
    assert!(rt; is(&faults(alloc, "[1]"), "M2\n"));
    assert!(rt; is(&faults(alloc, "{}"), ""));
    Ok(())
}

#[test]
fn responses_without_a_case_are_told(rt: HostRuntime) -> Result<(), Fail> {
    let alloc = rt.alloc();
    assert!(rt; is(&unused(alloc, GOOD), ""));
    assert!(rt; is(&unused(alloc, BAD), "unused 2 1\n"));
    assert!(rt;
        is(
            &unused(alloc, r#"{"MockedResponses":{"A":{},"B":{}}}"#),
            "unused 0 0\nunused 0 1\n"
        )
    );
    assert!(rt; is(&unused(alloc, "{}"), ""));
    Ok(())
}

#[test]
fn gaps_are_seen(rt: HostRuntime) -> Result<(), Fail> {
    let alloc = rt.alloc();
    assert!(rt; has(gap(alloc, "{}"), false));
    assert!(rt; has(gap(alloc, r#"{"0":1,"1-3":1}"#), false));
    assert!(rt; has(gap(alloc, r#"{"2-3":1,"0-1":1,"x":1}"#), false));
    assert!(rt; has(gap(alloc, r#"{"1":1}"#), true));
    assert!(rt; has(gap(alloc, r#"{"0":1,"2":1}"#), true));
    assert!(rt; has(gap(alloc, r#"{"4":1,"0-2":1}"#), true));
    Ok(())
}

/// So many answers, in the order of their numbers.
fn many(alloc: Global, answers: usize) -> Option<String> {
    let mut text = String::new(alloc);
    write!(text, r#"{{"MockedResponses":{{"R":{{"0":{{"Return":0}}"#).ok()?;
    for i in 1..answers {
        write!(text, r#","{i}":{{"Return":{i}}}"#).ok()?;
    }
    write!(text, "}}}}}}").ok()?;
    Some(text)
}

#[test]
fn nothing_is_wrong_with_twenty_thousand_answers(rt: HostRuntime) -> Result<(), Fail> {
    let alloc = rt.alloc();
    match many(alloc, 20_000) {
        Some(file) => assert!(rt; is(&faults(alloc, file.as_str()), "")),
        None => assert!(rt; false),
    }
    Ok(())
}

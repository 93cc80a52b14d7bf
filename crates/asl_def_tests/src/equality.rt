// Which machines and states are equal: each to its copy and to one read anew, and no two of the definitions here.
use asl_check::accept;
use asl_def::Machine;
use asl_def_fields::TryClone;
use asl_def_states::State;
use asl_json::{Items, Json};
use asl_json_write::write;
use std::alloc::Global;
use std::test::Fail;

/// The members of the state A, beside Y and Z. No two states are the same.
const STATES: &[&str] = &[
    r#""Type":"Pass","End":true"#,
    r#""Type":"Pass","Next":"Y""#,
    r#""Type":"Pass","Next":"Z""#,
    r#""Type":"Pass","Comment":"c","End":true"#,
    r#""Type":"Pass","Comment":"d","End":true"#,
    r#""Type":"Pass","QueryLanguage":"JSONPath","End":true"#,
    r#""Type":"Pass","InputPath":null,"End":true"#,
    r#""Type":"Pass","InputPath":"$","End":true"#,
    r#""Type":"Pass","InputPath":"$.a","End":true"#,
    r#""Type":"Pass","InputPath":"$['a']","End":true"#,
    r#""Type":"Pass","ResultPath":"$.a","End":true"#,
    r#""Type":"Pass","OutputPath":"$.a","End":true"#,
    r#""Type":"Pass","Result":null,"End":true"#,
    r#""Type":"Pass","Result":1,"End":true"#,
    r#""Type":"Pass","Result":1.0,"End":true"#,
    r#""Type":"Pass","Parameters":1,"End":true"#,
    r#""Type":"Pass","Parameters":{"a":1,"b":2},"End":true"#,
    r#""Type":"Pass","Parameters":{"b":2,"a":1},"End":true"#,
    r#""Type":"Pass","Parameters":{"a.$":"$.x"},"End":true"#,
    r#""Type":"Pass","Parameters":{"a.$":"States.Format('e')"},"End":true"#,
    r#""Type":"Task","Resource":"r","End":true"#,
    r#""Type":"Task","Resource":"s","End":true"#,
    r#""Type":"Task","Resource":"r","Parameters":{},"End":true"#,
    r#""Type":"Task","Resource":"r","Credentials":{},"End":true"#,
    r#""Type":"Task","Resource":"r","TimeoutSeconds":9,"End":true"#,
    r#""Type":"Task","Resource":"r","TimeoutSeconds":9.0,"End":true"#,
    r#""Type":"Task","Resource":"r","HeartbeatSeconds":9,"End":true"#,
    r#""Type":"Task","Resource":"r","TimeoutSecondsPath":"$.a","End":true"#,
    r#""Type":"Task","Resource":"r","HeartbeatSecondsPath":"$.a","End":true"#,
    r#""Type":"Task","Resource":"r","ResultSelector":1,"End":true"#,
    r#""Type":"Task","Resource":"r","ResultPath":null,"End":true"#,
    r#""Type":"Task","Resource":"r","Retry":[],"End":true"#,
    r#""Type":"Task","Resource":"r","Retry":[{"ErrorEquals":["E"]}],"End":true"#,
    r#""Type":"Task","Resource":"r","Retry":[{"ErrorEquals":["F"]}],"End":true"#,
    r#""Type":"Task","Resource":"r","Retry":[{"ErrorEquals":["E","F"]}],"End":true"#,
    r#""Type":"Task","Resource":"r","Retry":[{"ErrorEquals":["E"]},{"ErrorEquals":["F"]}],"End":true"#,
    r#""Type":"Task","Resource":"r","Retry":[{"ErrorEquals":["F"]},{"ErrorEquals":["E"]}],"End":true"#,
    r#""Type":"Task","Resource":"r","Retry":[{"Comment":"c","ErrorEquals":["E"]}],"End":true"#,
    r#""Type":"Task","Resource":"r","Retry":[{"ErrorEquals":["E"],"IntervalSeconds":1}],"End":true"#,
    r#""Type":"Task","Resource":"r","Retry":[{"ErrorEquals":["E"],"MaxAttempts":3}],"End":true"#,
    r#""Type":"Task","Resource":"r","Retry":[{"ErrorEquals":["E"],"BackoffRate":2}],"End":true"#,
    r#""Type":"Task","Resource":"r","Retry":[{"ErrorEquals":["E"],"BackoffRate":2.0}],"End":true"#,
    r#""Type":"Task","Resource":"r","Retry":[{"ErrorEquals":["E"],"MaxDelaySeconds":2}],"End":true"#,
    r#""Type":"Task","Resource":"r","Retry":[{"ErrorEquals":["E"],"JitterStrategy":"FULL"}],"End":true"#,
    r#""Type":"Task","Resource":"r","Retry":[{"ErrorEquals":["E"],"JitterStrategy":"NONE"}],"End":true"#,
    r#""Type":"Task","Resource":"r","Catch":[],"End":true"#,
    r#""Type":"Task","Resource":"r","Catch":[{"ErrorEquals":["E"],"Next":"Z"}],"End":true"#,
    r#""Type":"Task","Resource":"r","Catch":[{"ErrorEquals":["E"],"Next":"Y"}],"End":true"#,
    r#""Type":"Task","Resource":"r","Catch":[{"ErrorEquals":["F"],"Next":"Z"}],"End":true"#,
    r#""Type":"Task","Resource":"r","Catch":[{"ErrorEquals":["E"],"ResultPath":"$.e","Next":"Z"}],"End":true"#,
    r#""Type":"Task","Resource":"r","Catch":[{"Comment":"c","ErrorEquals":["E"],"Next":"Z"}],"End":true"#,
    r#""Type":"Choice","Choices":[{"Variable":"$.v","IsNull":true,"Next":"Z"}]"#,
    r#""Type":"Choice","Choices":[{"Variable":"$.v","IsNull":false,"Next":"Z"}]"#,
    r#""Type":"Choice","Choices":[{"Variable":"$.v","IsPresent":true,"Next":"Z"}]"#,
    r#""Type":"Choice","Choices":[{"Variable":"$.w","IsNull":true,"Next":"Z"}]"#,
    r#""Type":"Choice","Choices":[{"Variable":"$.v","IsNull":true,"Next":"Y"}]"#,
    r#""Type":"Choice","Choices":[{"Variable":"$.v","IsNull":true,"Next":"Z"}],"Default":"Y""#,
    r#""Type":"Choice","Choices":[{"Variable":"$.v","IsNull":true,"Next":"Z"}],"Default":"Z""#,
    r#""Type":"Choice","Choices":[{"Comment":"c","Variable":"$.v","IsNull":true,"Next":"Z"}]"#,
    r#""Type":"Choice","Choices":[{"Variable":"$.v","IsNull":true,"Next":"Z"},{"Variable":"$.v","BooleanEquals":true,"Next":"Z"}]"#,
    r#""Type":"Choice","Choices":[{"Variable":"$.v","BooleanEquals":true,"Next":"Z"},{"Variable":"$.v","IsNull":true,"Next":"Z"}]"#,
    r#""Type":"Choice","Choices":[{"Not":{"Variable":"$.v","IsNull":true},"Next":"Z"}]"#,
    r#""Type":"Choice","Choices":[{"And":[{"Variable":"$.v","IsNull":true}],"Next":"Z"}]"#,
    r#""Type":"Choice","Choices":[{"Or":[{"Variable":"$.v","IsNull":true}],"Next":"Z"}]"#,
    r#""Type":"Choice","Choices":[{"Or":[{"Variable":"$.v","IsNull":true},{"Variable":"$.v","IsNull":true}],"Next":"Z"}]"#,
    r#""Type":"Choice","Choices":[{"Variable":"$.v","StringEquals":"$.w","Next":"Z"}]"#,
    r#""Type":"Choice","Choices":[{"Variable":"$.v","StringEqualsPath":"$.w","Next":"Z"}]"#,
    r#""Type":"Choice","Choices":[{"Variable":"$.v","StringLessThan":"$.w","Next":"Z"}]"#,
    r#""Type":"Choice","Choices":[{"Variable":"$.v","StringMatches":"$.w","Next":"Z"}]"#,
    r#""Type":"Choice","Choices":[{"Variable":"$.v","NumericEquals":1,"Next":"Z"}]"#,
    r#""Type":"Choice","Choices":[{"Variable":"$.v","NumericEquals":1.0,"Next":"Z"}]"#,
    r#""Type":"Choice","Choices":[{"Variable":"$.v","NumericEqualsPath":"$.w","Next":"Z"}]"#,
    r#""Type":"Choice","Choices":[{"Variable":"$.v","TimestampEquals":"2024-01-01T00:00:00Z","Next":"Z"}]"#,
    r#""Type":"Choice","Choices":[{"Variable":"$.v","TimestampEquals":"2024-01-01T00:00:00.0Z","Next":"Z"}]"#,
    r#""Type":"Choice","Choices":[{"Variable":"$.v","TimestampEqualsPath":"$.w","Next":"Z"}]"#,
    r#""Type":"Choice","Choices":[{"Variable":"$.v","BooleanEqualsPath":"$.w","Next":"Z"}]"#,
    r#""Type":"Wait","Seconds":1,"End":true"#,
    r#""Type":"Wait","Seconds":1.0,"End":true"#,
    r#""Type":"Wait","Seconds":2,"End":true"#,
    r#""Type":"Wait","SecondsPath":"$.a","End":true"#,
    r#""Type":"Wait","TimestampPath":"$.a","End":true"#,
    r#""Type":"Wait","Timestamp":"2024-01-01T00:00:00Z","End":true"#,
    r#""Type":"Wait","Timestamp":"2024-01-01T00:00:00+00:00","End":true"#,
    r#""Type":"Succeed""#,
    r#""Type":"Succeed","OutputPath":null"#,
    r#""Type":"Fail""#,
    r#""Type":"Fail","Error":"E""#,
    r#""Type":"Fail","Cause":"E""#,
    r#""Type":"Fail","Error":"F""#,
    r#""Type":"Fail","ErrorPath":"$.e""#,
    r#""Type":"Fail","ErrorPath":"States.Format('e')""#,
    r#""Type":"Fail","CausePath":"$.e""#,
    r#""Type":"Parallel","Branches":[{"StartAt":"B","States":{"B":{"Type":"Succeed"}}}],"End":true"#,
    r#""Type":"Parallel","Branches":[{"StartAt":"C","States":{"C":{"Type":"Succeed"}}}],"End":true"#,
    r#""Type":"Parallel","Branches":[{"StartAt":"B","States":{"B":{"Type":"Fail"}}}],"End":true"#,
    r#""Type":"Parallel","Branches":[{"Comment":"c","StartAt":"B","States":{"B":{"Type":"Succeed"}}}],"End":true"#,
    r#""Type":"Parallel","Branches":[{"StartAt":"B","States":{"B":{"Type":"Succeed"},"C":{"Type":"Fail"}}}],"End":true"#,
    r#""Type":"Parallel","Branches":[{"StartAt":"B","States":{"B":{"Type":"Succeed"}}},{"StartAt":"C","States":{"C":{"Type":"Fail"}}}],"End":true"#,
    r#""Type":"Parallel","Branches":[{"StartAt":"C","States":{"C":{"Type":"Fail"}}},{"StartAt":"B","States":{"B":{"Type":"Succeed"}}}],"End":true"#,
    r#""Type":"Map","Iterator":{"StartAt":"B","States":{"B":{"Type":"Succeed"}}},"End":true"#,
    r#""Type":"Map","Iterator":{"StartAt":"C","States":{"C":{"Type":"Succeed"}}},"End":true"#,
    r#""Type":"Map","ItemProcessor":{"StartAt":"B","States":{"B":{"Type":"Succeed"}}},"End":true"#,
    r#""Type":"Map","ItemProcessor":{"ProcessorConfig":{},"StartAt":"B","States":{"B":{"Type":"Succeed"}}},"End":true"#,
    r#""Type":"Map","ItemProcessor":{"ProcessorConfig":{"Mode":"INLINE"},"StartAt":"B","States":{"B":{"Type":"Succeed"}}},"End":true"#,
    r#""Type":"Map","ItemsPath":"$.i","Iterator":{"StartAt":"B","States":{"B":{"Type":"Succeed"}}},"End":true"#,
    r#""Type":"Map","MaxConcurrency":0,"Iterator":{"StartAt":"B","States":{"B":{"Type":"Succeed"}}},"End":true"#,
    r#""Type":"Map","Parameters":{},"Iterator":{"StartAt":"B","States":{"B":{"Type":"Succeed"}}},"End":true"#,
    r#""Type":"Map","ItemSelector":{},"Iterator":{"StartAt":"B","States":{"B":{"Type":"Succeed"}}},"End":true"#,
];

/// Whole definitions, no two the same. In the last two the targets of A and B are swapped.
const DEFINITIONS: &[&str] = &[
    r#"{"StartAt":"A","States":{"A":{"Type":"Succeed"},"B":{"Type":"Succeed"}}}"#,
    r#"{"StartAt":"B","States":{"A":{"Type":"Succeed"},"B":{"Type":"Succeed"}}}"#,
    r#"{"StartAt":"A","States":{"B":{"Type":"Succeed"},"A":{"Type":"Succeed"}}}"#,
    r#"{"StartAt":"A","States":{"A":{"Type":"Succeed"},"C":{"Type":"Succeed"}}}"#,
    r#"{"StartAt":"A","States":{"A":{"Type":"Succeed"}}}"#,
    r#"{"Comment":"c","StartAt":"A","States":{"A":{"Type":"Succeed"}}}"#,
    r#"{"QueryLanguage":"JSONPath","StartAt":"A","States":{"A":{"Type":"Succeed"}}}"#,
    r#"{"Version":"1.0","StartAt":"A","States":{"A":{"Type":"Succeed"}}}"#,
    r#"{"TimeoutSeconds":1,"StartAt":"A","States":{"A":{"Type":"Succeed"}}}"#,
    r#"{"TimeoutSeconds":1.0,"StartAt":"A","States":{"A":{"Type":"Succeed"}}}"#,
    r#"{"StartAt":"A","States":{"A":{"Type":"Pass","Next":"B"},"B":{"Type":"Pass","Next":"C"},"C":{"Type":"Succeed"}}}"#,
    r#"{"StartAt":"A","States":{"A":{"Type":"Pass","Next":"C"},"B":{"Type":"Pass","Next":"B"},"C":{"Type":"Succeed"}}}"#,
];

fn definition(alloc: Global, members: &str) -> Option<String> {
    format!(in alloc;
        r#"{{"StartAt":"A","States":{{"A":{{{members}}},"Y":{{"Type":"Succeed"}},"Z":{{"Type":"Succeed"}}}}}}"#
    ).ok()
}

fn machines_of_states(alloc: Global) -> Option<Vec<Machine>> {
    let mut machines = Vec::new(alloc);
    for members in STATES {
        let text = definition(alloc, members)?;
        machines.push(accept(alloc, text.as_bytes()).ok()?).ok()?;
    }
    Some(machines)
}

fn machines_of_definitions(alloc: Global) -> Option<Vec<Machine>> {
    let mut machines = Vec::new(alloc);
    for text in DEFINITIONS {
        machines.push(accept(alloc, text.as_bytes()).ok()?).ok()?;
    }
    Some(machines)
}

/// How many of these are equal to this one.
fn equals(machine: &Machine, machines: &[Machine]) -> usize {
    machines.iter().filter(|other| **other == *machine).count()
}

/// Whether each is equal to its copy, to the one read anew at its place, and to no other.
fn are_told_apart(machines: &[Machine], anew: &[Machine]) -> bool {
    machines.len() == anew.len()
        && machines
            .iter()
            .zip(anew.iter())
            .all(|(one, other)| *one == *other)
        && machines.iter().all(|one| equals(one, anew) == 1)
}

#[test]
fn machines_are_told_apart(rt: HostRuntime) -> Result<(), Fail> {
    let machines = machines_of_states(rt.alloc()).ok_or("refused")?;
    let anew = machines_of_states(rt.alloc()).ok_or("refused")?;
    assert!(rt; are_told_apart(&machines, &anew));
    let machines = machines_of_definitions(rt.alloc()).ok_or("refused")?;
    let anew = machines_of_definitions(rt.alloc()).ok_or("refused")?;
    assert!(rt; are_told_apart(&machines, &anew));
    Ok(())
}

fn first_state(machine: &Machine) -> Option<&State> {
    let (_, state) = machine.own_state(0)?;
    Some(state)
}

/// How many of these begin with a state that is equal to this one.
fn begin_with(state: &State, machines: &[Machine]) -> usize {
    machines
        .iter()
        .filter(|other| match first_state(other) {
            Some(its) => *its == *state,
            None => false,
        })
        .count()
}

/// Whether its first state is equal to that of one of these alone. (A state is compared with the machines inside it by their
/// numbers in the table alone: those aren't asked here.)
fn begins_alone(machine: &Machine, anew: &[Machine]) -> bool {
    match first_state(machine) {
        Some(State::Parallel(_) | State::Map(_)) => true,
        Some(state) => begin_with(state, anew) == 1,
        None => false,
    }
}

#[test]
fn states_are_told_apart(rt: HostRuntime) -> Result<(), Fail> {
    let machines = machines_of_states(rt.alloc()).ok_or("refused")?;
    let anew = machines_of_states(rt.alloc()).ok_or("refused")?;
    assert!(rt; machines.len() == STATES.len());
    assert!(rt; machines.iter().all(|machine| begins_alone(machine, &anew)));
    Ok(())
}

/// What a state shows, but for the machines inside it.
fn shown(alloc: Global, state: &State) -> Option<String> {
    let value = match state {
        State::Task(task) => task.json(alloc),
        State::Pass(pass) => pass.json(alloc),
        State::Choice(choice) => choice.json(alloc),
        State::Wait(wait) => wait.json(alloc),
        State::Parallel(parallel) => parallel.json(alloc, Items::of_values(Vec::new(alloc))),
        State::Map(map) => map.json(alloc, Json::Null),
        State::Succeed(succeed) => succeed.json(alloc),
        State::Fail(fail) => fail.json(alloc),
    };
    write(alloc, &value.ok()?).ok()
}

/// Whether a copy of this state is equal, and shows the same.
fn is_copied(alloc: Global, state: &State) -> Option<bool> {
    let copy = state.try_clone(alloc).ok()?;
    Some(copy == *state && shown(alloc, &copy)?.as_str() == shown(alloc, state)?.as_str())
}

fn first_is_copied(alloc: Global, machine: &Machine) -> Option<bool> {
    let (_, state) = machine.own_state(0)?;
    is_copied(alloc, state)
}

#[test]
fn copies_are_equal(rt: HostRuntime) -> Result<(), Fail> {
    let machines = machines_of_states(rt.alloc()).ok_or("refused")?;
    assert!(rt; machines.iter().all(|machine| first_is_copied(rt.alloc(), machine) == Some(true)));
    assert!(rt;
        machines.iter().all(|machine| match machine.try_clone() {
            Ok(copy) => copy == *machine,
            Err(_) => false,
        })
    );
    Ok(())
}

// A file of steps that is read, and an execution that is stepped and viewed.
use crate::opened::opened;
use crate::shown::view;
use asl_history::Place;
use asl_run_input::read_steps;
use asl_run_state::Refusal;
use asl_time::Moment;
use std::test::Fail;

#[test]
fn files_are_read(rt: HostRuntime) -> Result<(), Fail> {
    let text = b"/ 1970-01-01T00:00:00.000Z\n/0/12 1970-01-01T01:00:00.001+01:00";
    let steps = read_steps(rt.alloc(), text).map_err(|_| "no steps")?;
    assert_eq!(rt; steps.len(), 2);
    assert!(rt; steps[0].place.is_root());
    assert_eq!(rt; steps[1].place.numbers(), [0, 12].as_slice());
    assert_eq!(rt; steps[1].moment.millis(), 1);
    Ok(())
}

/// A Pass that places 7 at `$.a.b`, and a Succeed.
const TWO_STATES: &str =
    r#"{"StartAt":"P","States":{"P":{"Type":"Pass","Result":7,"ResultPath":"$.a.b","Next":"S"},"S":{"Type":"Succeed"}}}"#;

#[test]
fn an_execution_is_stepped_and_viewed(rt: HostRuntime) -> Result<(), Fail> {
    let mut execution = opened(&rt, TWO_STATES, "{}")?;
    let root = Place::root();
    assert_eq!(rt; execution.setup().name_of_machine.as_str(), "M");
    assert!(rt; execution.refusal(&root, Moment::LAST).is_none());
    for (viewed, events) in [("Ready P {}", 1), (r#"Ready S {"a":{"b":7}}"#, 3)] {
        let told = view(&rt, &execution, "/")?;
        assert_eq!(rt; told.as_str(), viewed);
        assert_eq!(rt; execution.history().len(), events);
        assert!(rt; execution.step(&root, Moment::FIRST).is_ok());
    }
    let told = view(&rt, &execution, "/")?;
    assert_eq!(rt; told.as_str(), r#"Done {"a":{"b":7}}"#);
    assert!(rt; matches!(execution.step(&root, Moment::FIRST), Err(Refusal::Over)));
    Ok(())
}

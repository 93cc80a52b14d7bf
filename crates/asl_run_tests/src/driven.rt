// Runs without a file of steps: each step is the one that comes next.
use crate::opened::{LOOP, opened, setup_of};
use asl_exec::{Ended, Execution};
use asl_history::Place;
use asl_run_state::{Next, Refusal};
use asl_time::Moment;
use std::test::Fail;

/// What comes next, as a text: the place of a step, or the milliseconds of a moment.
fn next_text(rt: &HostRuntime, execution: &Execution) -> Result<String, Fail> {
    let alloc = rt.alloc();
    Ok(match execution.next() {
        Next::Step(place) => place.write(alloc)?,
        Next::At(moment) => format!(in alloc; "{}", moment.millis())?,
        Next::Over => String::from_str(alloc, "over")?,
        Next::Full => String::from_str(alloc, "full")?,
    })
}

/// How an execution that is driven ends.
fn end_text(ended: Ended) -> &'static str {
    match ended {
        Ended::Over => "over",
        Ended::Full => "full",
        Ended::Limit => "limit",
    }
}

/// Drives an execution of this definition by at most so many steps, then by so many more, and so on. Tells of each turn how many steps it
/// took, how it ended and what comes next then; and how many events there are at the end.
fn driven(rt: &HostRuntime, definition: &str, input: &str, limits: &[u32]) -> Result<String, Fail> {
    let mut text = String::new(rt.alloc());
    let mut execution = opened(rt, definition, input)?;
    for limit in limits {
        let (count, ended) = execution.drive(*limit).map_err(|_| "no memory")?;
        let next = next_text(rt, &execution)?;
        write!(text, "{count} {} {}, ", end_text(ended), next.as_str())?;
    }
    write!(text, "{} events", execution.history().len())?;
    Ok(text)
}

#[test]
fn a_run_is_driven_in_parts(rt: HostRuntime) -> Result<(), Fail> {
    let told = driven(&rt, LOOP, r#"{"n":0}"#, &[3, 0, 100, 100])?;
    assert_eq!(rt;
        told.as_str(),
        "3 limit /, 0 limit /, 4 over over, 0 over over, 16 events"
    );
    Ok(())
}

#[test]
fn a_run_ends_where_its_history_is_full(rt: HostRuntime) -> Result<(), Fail> {
    let definition =
        r#"{"StartAt":"A","States":{"A":{"Type":"Pass","Next":"B"},"B":{"Type":"Pass","Next":"A"}}}"#;
    let told = driven(&rt, definition, "0", &[20_000])?;
    // Each step has two events, behind the first one of the execution.
    assert_eq!(rt; told.as_str(), "12496 full full, 24993 events");
    Ok(())
}

/// A state that goes on to itself.
const ROUND: &str = r#"{"StartAt":"P","States":{"P":{"Type":"Pass","Next":"P"}}}"#;

#[test]
fn a_state_that_goes_on_to_itself_is_driven_to_the_limit(rt: HostRuntime) -> Result<(), Fail> {
    let told = driven(&rt, ROUND, "{}", &[100])?;
    assert_eq!(rt; told.as_str(), "100 limit /, 201 events");
    Ok(())
}

#[test]
fn a_state_that_goes_on_to_itself_fills_the_history(rt: HostRuntime) -> Result<(), Fail> {
    let mut execution = opened(&rt, ROUND, "{}")?;
    let (count, ended) = execution.drive(20_000).map_err(|_| "no memory")?;
    assert!(rt; matches!(ended, Ended::Full));
    assert_eq!(rt; (count, execution.history().len()), (12_496, 24_993));
    let further = execution.step(&Place::root(), Moment::FIRST);
    assert!(rt; matches!(further, Err(Refusal::HistoryFull)));
    Ok(())
}

/// A Task that is retried three seconds after its first failure, and what it answers.
const RETRIED: &str = r#"{"StartAt":"W","States":{"W":{"Type":"Task","Resource":"r",
"Retry":[{"ErrorEquals":["E.A","E.B"],"IntervalSeconds":3,"MaxAttempts":3,"BackoffRate":1.5}],"End":true}}}"#;

const FAILURES: &str =
    r#"{"StateMachines":{"M":{"TestCases":{"c":{"W":"w"}}}},"MockedResponses":{"w":{
"0":{"Throw":{"Error":"E.A"}},"1-2":{"Throw":{"Error":"E.B","Cause":"slow"}},"3":{"Return":{"ok":true}}}}}"#;

#[test]
fn the_moment_of_the_retry_comes_next_after_the_first_failure(rt: HostRuntime) -> Result<(), Fail> {
    let setup = setup_of(rt.alloc(), RETRIED, FAILURES, "M#c", "{}")?;
    let mut execution = Execution::open(rt.alloc(), setup)?;
    execution.drive(1).map_err(|_| "no memory")?;
    let next = next_text(&rt, &execution)?;
    assert_eq!(rt; next.as_str(), "3000");
    Ok(())
}

#[test]
fn what_comes_next_is_the_first_place_or_the_least_moment(rt: HostRuntime) -> Result<(), Fail> {
    let definition =
        r#"{"StartAt":"Q","States":{"Q":{"Type":"Parallel","Branches":[{"StartAt":"A","States":{"A":{"Type":"Wait","Seconds":5,"End":true}}},{"StartAt":"B","States":{"B":{"Type":"Wait","Seconds":3,"End":true}}}],"End":true}}}"#;
    let told = driven(&rt, definition, "{}", &[0, 1, 1, 1, 1, 9])?;
    assert_eq!(rt;
        told.as_str(),
        "0 limit /, 1 limit /0, 1 limit /1, 1 limit 3000, 1 limit 5000, 2 over over, 10 events"
    );
    Ok(())
}

#[test]
fn iterations_take_turns_in_their_slots(rt: HostRuntime) -> Result<(), Fail> {
    let definition =
        r#"{"StartAt":"M","States":{"M":{"Type":"Map","MaxConcurrency":1,"ItemProcessor":{"StartAt":"K","States":{"K":{"Type":"Wait","Seconds":1,"End":true}}},"End":true}}}"#;
    let told = driven(&rt, definition, "[10,20,30]", &[1, 1, 1, 99])?;
    assert_eq!(rt;
        told.as_str(),
        "1 limit /0, 1 limit 1000, 1 limit /1, 5 over over, 18 events"
    );
    Ok(())
}

#[test]
fn the_deadline_is_awaited_where_nothing_comes_before_it(rt: HostRuntime) -> Result<(), Fail> {
    let definition =
        r#"{"StartAt":"X","TimeoutSeconds":5,"States":{"X":{"Type":"Wait","Seconds":10,"End":true}}}"#;
    let told = driven(&rt, definition, "{}", &[1, 100])?;
    assert_eq!(rt; told.as_str(), "1 limit 5000, 1 over over, 3 events");
    Ok(())
}

// An execution whose history is full before its time is over.
use crate::opened::opened;
use asl_exec::Ended;
use asl_history::Place;
use asl_run_state::{Next, Outcome, Refusal};
use asl_time::Moment;
use std::test::Fail;

#[test]
fn a_full_history_has_room_for_the_end_of_its_time(rt: HostRuntime) -> Result<(), Fail> {
    let definition =
        r#"{"StartAt":"A","TimeoutSeconds":5,"States":{"A":{"Type":"Pass","Next":"A"}}}"#;
    let mut execution = opened(&rt, definition, "{}")?;
    let deadline = Moment::of_millis(5_000).ok_or("no moment")?;
    let root = Place::root();
    assert!(rt; matches!(execution.drive(20_000), Ok((12_496, Ended::Full))));
    assert!(rt; matches!(execution.next(), Next::Full));
    assert!(rt;
        matches!(
            execution.step(&root, Moment::FIRST),
            Err(Refusal::HistoryFull)
        )
    );
    assert!(rt; execution.first(deadline).is_some());
    assert!(rt; execution.step(&root, deadline).is_ok());
    assert_eq!(rt; execution.history().len(), 24_994);
    assert!(rt; matches!(execution.outcome(), Outcome::TimedOut));
    Ok(())
}

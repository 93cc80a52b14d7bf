// What becomes of errors.
use crate::asking::asked;
use std::alloc::Global;
use std::test::Fail;

/// The error, how often the retriers were used, the moment, and what becomes of it.
type Row = (&'static str, &'static [u32], u64, &'static str);

/// What is decided otherwise than it should.
fn differences(alloc: Global, members: &str, rows: &[Row]) -> Option<String> {
    let mut found = String::new(alloc);
    for row in rows {
        let (error, uses, now, wanted) = *row;
        let answer = asked(alloc, members, error, uses, now)?;
        if answer.as_str() != wanted {
            let line = format!(in alloc; "{error} is {answer}, not {wanted}\n").ok()?;
            found.push_str(&line).ok()?;
        }
    }
    Some(found)
}

fn hold(alloc: Global, members: &str, rows: &[Row]) -> bool {
    match differences(alloc, members, rows) {
        Some(found) => found.is_empty(),
        None => false,
    }
}

const GROWING: &str =
    r#""Retry":[{"ErrorEquals":["E.A","E.B"],"IntervalSeconds":3,"MaxAttempts":3,"BackoffRate":1.5}]"#;

const CAPPED: &str =
    r#""Retry":[{"ErrorEquals":["E"],"IntervalSeconds":3,"BackoffRate":1.5,"MaxDelaySeconds":4,"JitterStrategy":"FULL"}]"#;

const BELOW_ITS_INTERVAL: &str =
    r#""Retry":[{"ErrorEquals":["E"],"IntervalSeconds":5,"MaxDelaySeconds":2}]"#;

#[test]
fn delays_grow_as_far_as_the_cap(rt: HostRuntime) -> Result<(), Fail> {
    let alloc = rt.alloc();
    assert!(rt;
        hold(
            alloc,
            GROWING,
            &[
                ("E.A", &[0], 0, "again 0 3000"),
                ("E.B", &[1], 3000, "again 0 7500"),
                ("E.B", &[2], 7500, "again 0 14250"),
                ("E.A", &[3], 14250, "unhandled"),
                ("E.C", &[0], 0, "unhandled"),
            ]
        )
    );
    assert!(rt;
        hold(
            alloc,
            CAPPED,
            &[
                ("E", &[0], 0, "again 0 3000"),
                ("E", &[1], 0, "again 0 4000"),
                ("E", &[2], 0, "again 0 4000"),
                ("E", &[3], 0, "unhandled"),
            ]
        )
    );
    assert!(rt; hold(alloc, BELOW_ITS_INTERVAL, &[("E", &[0], 0, "again 0 2000")]));
    Ok(())
}

const TEN: &str =
    r#""Retry":[{"ErrorEquals":["States.ALL"],"MaxAttempts":10,"BackoffRate":1.5,"MaxDelaySeconds":20}]"#;

#[test]
fn ten_retries_are_rounded_down_and_capped(rt: HostRuntime) -> Result<(), Fail> {
    let alloc = rt.alloc();
    assert!(rt;
        hold(
            alloc,
            TEN,
            &[
                ("E", &[0], 0, "again 0 1000"),
                ("E", &[1], 0, "again 0 1500"),
                ("E", &[2], 0, "again 0 2250"),
                ("E", &[3], 0, "again 0 3375"),
                ("E", &[4], 0, "again 0 5062"),
                ("E", &[5], 0, "again 0 7593"),
                ("E", &[6], 0, "again 0 11389"),
                ("E", &[7], 0, "again 0 17083"),
                ("E", &[8], 0, "again 0 20000"),
                ("E", &[9], 0, "again 0 20000"),
                ("E", &[10], 0, "unhandled"),
            ]
        )
    );
    Ok(())
}

const PLAIN: &str = r#""Retry":[{"ErrorEquals":["E"]}]"#;

const NEVER: &str = r#""Retry":[{"ErrorEquals":["E"],"MaxAttempts":0}]"#;

#[test]
fn defaults_count_where_nothing_is_said(rt: HostRuntime) -> Result<(), Fail> {
    let alloc = rt.alloc();
    assert!(rt;
        hold(
            alloc,
            PLAIN,
            &[
                ("E", &[], 7, "again 0 1007"),
                ("E", &[1], 0, "again 0 2000"),
                ("E", &[2], 0, "again 0 4000"),
                ("E", &[3], 0, "unhandled"),
                ("E", &[0], 253_402_300_799_998, "again 0 253402300799999"),
            ]
        )
    );
    assert!(rt; hold(alloc, NEVER, &[("E", &[0], 0, "unhandled")]));
    assert!(rt;
        hold(
            alloc,
            r#""Retry":[],"Catch":[]"#,
            &[("E", &[], 0, "unhandled")]
        )
    );
    assert!(rt; hold(alloc, r#""Comment":"none""#, &[("E", &[0], 0, "unhandled")]));
    Ok(())
}

const USED_UP: &str =
    r#""Retry":[{"ErrorEquals":["E"],"MaxAttempts":1},{"ErrorEquals":["States.ALL"],"MaxAttempts":5}],"Catch":[{"ErrorEquals":["States.ALL"],"Next":"A"}]"#;

const CATCHERS: &str =
    r#""Catch":[{"ErrorEquals":["F","E"],"Next":"A"},{"ErrorEquals":["E"],"Next":"B"},{"ErrorEquals":["States.ALL"],"Next":"T"}]"#;

#[test]
fn the_first_that_is_for_the_error_decides(rt: HostRuntime) -> Result<(), Fail> {
    let alloc = rt.alloc();
    assert!(rt;
        hold(
            alloc,
            USED_UP,
            &[
                ("E", &[0, 0], 0, "again 0 1000"),
                ("E", &[1, 0], 0, "caught A"),
                ("F", &[1, 0], 0, "again 1 1000"),
                ("F", &[1, 5], 0, "caught A"),
            ]
        )
    );
    assert!(rt;
        hold(
            alloc,
            CATCHERS,
            &[
                ("E", &[], 0, "caught A"),
                ("F", &[], 0, "caught A"),
                ("G", &[], 0, "caught T"),
            ]
        )
    );
    Ok(())
}

const ALL: &str = r#""Catch":[{"ErrorEquals":["States.ALL"],"Next":"A"}]"#;

const TASK_FAILED: &str = r#""Catch":[{"ErrorEquals":["States.TaskFailed"],"Next":"A"}]"#;

const BY_NAME: &str =
    r#""Catch":[{"ErrorEquals":["States.Runtime","States.DataLimitExceeded","States.Timeout",""],"Next":"B"}]"#;

#[test]
fn errors_are_named(rt: HostRuntime) -> Result<(), Fail> {
    let alloc = rt.alloc();
    assert!(rt;
        hold(
            alloc,
            ALL,
            &[
                ("E", &[], 0, "caught A"),
                ("", &[], 0, "caught A"),
                ("States.Timeout", &[], 0, "caught A"),
                ("States.TaskFailed", &[], 0, "caught A"),
                ("States.Runtime", &[], 0, "unhandled"),
                ("States.DataLimitExceeded", &[], 0, "unhandled"),
            ]
        )
    );
    assert!(rt;
        hold(
            alloc,
            TASK_FAILED,
            &[
                ("E", &[], 0, "caught A"),
                ("", &[], 0, "caught A"),
                ("States.ALL", &[], 0, "caught A"),
                ("States.Timeout", &[], 0, "unhandled"),
                ("States.Runtime", &[], 0, "unhandled"),
                ("States.DataLimitExceeded", &[], 0, "unhandled"),
            ]
        )
    );
    assert!(rt;
        hold(
            alloc,
            BY_NAME,
            &[
                ("E", &[], 0, "unhandled"),
                ("", &[], 0, "caught B"),
                ("States.Timeout", &[], 0, "caught B"),
                ("States.Runtime", &[], 0, "unhandled"),
                ("States.DataLimitExceeded", &[], 0, "unhandled"),
                ("states.timeout", &[], 0, "unhandled"),
            ]
        )
    );
    Ok(())
}

// Sessions of the debugger.
use crate::commands::{advance, answer, apply, command, opened};
use asl_session::Command;
use std::test::Fail;

#[test]
fn a_loop_is_broken_twice_and_goes_on(rt: HostRuntime) -> Result<(), Fail> {
    let mut session = opened(&rt)?;
    apply(&rt, &mut session, r#"break "C""#)?;
    for (count, told) in [
        (7, "2 C"),
        (5, "3 C"),
        (2, "2 end"),
        (2, "0 refused"),
        (0, "0 end"),
    ] {
        let advanced = advance(&rt, &mut session, count)?;
        assert_eq!(rt; advanced.as_str(), told);
        apply(&rt, &mut session, "resume /")?;
    }
    assert_eq!(rt; session.execution().history().len(), 16);
    assert_eq!(rt; session.steps().len(), 7);
    Ok(())
}

#[test]
fn a_session_begins_anew(rt: HostRuntime) -> Result<(), Fail> {
    let mut session = opened(&rt)?;
    apply(&rt, &mut session, r#"break "A""#)?;
    apply(&rt, &mut session, "resume /")?;
    let moment = command(&rt, "step / 2024-01-01T00:00:00Z")?;
    let Command::Step(at) = &moment else {
        return Err("no step")?;
    };
    session.restart(at.moment)?;
    assert_eq!(rt;
        session.execution().setup().start.millis(),
        at.moment.millis()
    );
    assert_eq!(rt;
        session.execution().history().events()[0].at.millis(),
        at.moment.millis()
    );
    let advanced = advance(&rt, &mut session, 9)?;
    assert_eq!(rt; advanced.as_str(), "3 A");
    session.restart(at.moment)?;
    assert_eq!(rt; session.execution().history().len(), 1);
    assert!(rt; session.steps().is_empty());
    Ok(())
}

/// Commands.
const COMMANDS: &[&str] = &[
    "step / 2024-01-01T00:00:00Z",
    "step / 2024-01-01T00:00:01Z",
    "step /0 2024-01-01T00:00:00Z",
    r#"break "A""#,
    r#"break "B""#,
    r#"clear "A""#,
    "resume /",
    "resume /1",
    "show /",
    "back 1",
    "back 2",
];

#[test]
fn copies_of_commands_are_equal(rt: HostRuntime) -> Result<(), Fail> {
    for (one, line) in COMMANDS.iter().enumerate() {
        let copied = command(&rt, line)?.try_clone()?;
        for (other, line) in COMMANDS.iter().enumerate() {
            let command = command(&rt, line)?;
            assert_eq!(rt; copied == command, one == other);
        }
    }
    Ok(())
}

/// What a session is told, and what it replies.
const EXCHANGED: &[(&str, &str)] = &[
    ("show /4", "NoSuchPlace\n"),
    (r#"break "Y""#, "NoSuchState\n"),
    ("resume /", "NotPaused\n"),
    (r#"break "A""#, "set\n"),
    ("step / 2024-01-01T00:00:00Z", "paused \"A\"\n"),
    ("resume /", "resumed\n"),
    ("show /", "shown [\"Ready\",\"A\",{\"n\":0}]\n"),
    ("step / 2024-01-01T00:00:00Z", "ok\n"),
    ("show /", "shown [\"Ready\",\"D\",{\"n\":1}]\n"),
    (r#"break "D""#, "set\n"),
    ("step / 2024-01-01T00:00:00Z", "paused \"D\"\n"),
    (r#"clear "D""#, "cleared\n"),
    ("step /1 2024-01-01T00:00:00Z", "S2 NoSuchPlace\n"),
    ("step / 2024-01-01T00:00:00Z", "ok\n"),
    ("back 1", "back 1\n"),
    ("back 1", "back 0\n"),
    ("back 1", "TooFar\n"),
];

#[test]
fn copies_of_replies_are_equal(rt: HostRuntime) -> Result<(), Fail> {
    let mut session = opened(&rt)?;
    let mut replies = Vec::new(rt.alloc());
    for (line, told) in EXCHANGED {
        let reply = apply(&rt, &mut session, line)?;
        let text = answer(&rt, &reply)?;
        assert_eq!(rt; text.as_str(), *told);
        replies.push((reply, *told))?;
    }
    for (reply, told) in &replies {
        let copied = reply.try_clone(rt.alloc())?;
        for (other, text) in &replies {
            assert_eq!(rt; copied == *other, told == text);
        }
    }
    Ok(())
}

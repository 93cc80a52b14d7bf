// Sessions of the debugger.
use crate::setups::{RETRIED, ROUND, put_ended, setup_by, setup_of, steps_of, unchanged};
use asl_run_input::StepAt;
use asl_session::{
    Command, Reply, ScriptFault, Session, Stop, put_answer, read_command, run_script,
};
use asl_time::Moment;
use std::alloc::{AllocError, Global};
use std::test::Fail;

/// A session of this definition.
fn opened(alloc: Global, definition: &str) -> Result<Session, Fail> {
    match Session::open(alloc, setup_of(alloc, definition)?) {
        Ok(session) => Ok(session),
        Err(AllocError) => Ok(Session::open(alloc, setup_of(alloc, definition)?)?),
    }
}

/// The command of a line.
fn command(alloc: Global, line: &str) -> Result<Command, Fail> {
    let read = match read_command(alloc, line.as_bytes()) {
        Ok(read) => read,
        Err(AllocError) => read_command(alloc, line.as_bytes())?,
    };
    Ok(read.ok_or("no command")?)
}

/// How many steps a session has taken, and how many events it has told.
fn taken(session: &Session) -> (usize, usize) {
    (session.steps().len(), session.execution().history().len())
}

/// The reply to a command, which is given again where it was refused memory.
fn applied(session: &mut Session, command: &Command) -> Result<Reply, Fail> {
    let before = taken(session);
    match session.apply(command) {
        Ok(reply) => Ok(reply),
        Err(AllocError) => {
            unchanged(taken(session) == before)?;
            Ok(session.apply(command)?)
        }
    }
}

/// Appends the line of a reply.
fn put(alloc: Global, out: &mut String, reply: &Reply) -> Result<(), Fail> {
    match put_answer(alloc, out, reply) {
        Ok(()) => Ok(()),
        Err(AllocError) => Ok(put_answer(alloc, out, reply)?),
    }
}

/// A script of a Parallel that is retried, and of a loop with a breakpoint.
const SCRIPT: &str = r#"break "A"
step / 1970-01-01T00:00:00Z
show /0
step /0 1970-01-01T00:00:00Z
step /0 1970-01-01T00:00:01Z
step /0 1970-01-01T00:00:02Z
step /1 1970-01-01T00:00:02Z
step / 1970-01-01T00:00:02Z
show /
step / 1970-01-01T00:00:03Z
step /1 1970-01-01T00:00:03Z
step /0 1970-01-01T00:00:03Z
step / 1970-01-01T00:00:03Z
step / 1970-01-01T00:00:03Z
resume /
step / 1970-01-01T00:00:03Z
step / 1970-01-01T00:00:03Z
step / 1970-01-01T00:00:03Z
back 2
step / 1970-01-01T00:00:04Z
clear "A"
step / 1970-01-01T00:00:04Z
step / 1970-01-01T00:00:04Z
step / 1970-01-01T00:00:04Z
step / 1970-01-01T00:00:04Z
step / 1970-01-01T00:00:04Z"#;

/// What is replied.
const REPLIED: &str = r#"set
ok
shown ["Ready","T",{"n":0}]
ok
S7 NotYet 1970-01-01T00:00:02.000Z
ok
S3 Stopped
ok
shown ["Again","P",{"n":0},"1970-01-01T00:00:00.000Z",[1],"1970-01-01T00:00:03.000Z"]
ok
ok
ok
ok
paused "A"
resumed
ok
ok
paused "A"
back 8
paused "A"
cleared
ok
ok
ok
ok
ok
"#;

/// The text of the script's run.
fn scripted(alloc: Global) -> Result<String, Fail> {
    let text = match run_script(alloc, setup_of(alloc, RETRIED)?, SCRIPT.as_bytes()) {
        Err(ScriptFault::OutOfMemory) => {
            run_script(alloc, setup_of(alloc, RETRIED)?, SCRIPT.as_bytes())
        }
        text => text,
    };
    Ok(text.map_err(|_| "refused")?)
}

#[test]
fn each_command_is_carried_out_once(rt: HostRuntime) -> Result<(), Fail> {
    let alloc = rt.alloc();
    let mut session = opened(alloc, RETRIED)?;
    let mut text = String::new(alloc);
    for line in SCRIPT.split('\n') {
        let command = command(alloc, line)?;
        let reply = applied(&mut session, &command)?;
        put(alloc, &mut text, &reply)?;
    }
    assert_eq!(rt; text.as_str(), REPLIED);
    put_ended(alloc, &mut text, session.execution().world())?;
    let whole = scripted(alloc)?;
    assert_eq!(rt; text.as_str(), whole.as_str());
    Ok(())
}

/// Advances a session by steps, of which the rest is taken where memory ran out: how many were taken, and why no more.
fn advanced(session: &mut Session, steps: &[StepAt]) -> Result<(usize, Stop), Fail> {
    let before = session.steps().len();
    let (count, stop) = session.advance(steps);
    if !matches!(&stop, Stop::OutOfMemory) {
        return Ok((count, stop));
    }
    unchanged(session.steps().len() == before + count)?;
    let (more, stop) = session.advance(&steps[count..]);
    Ok((count + more, stop))
}

/// Begins a session anew.
fn restarted(session: &mut Session, start: Moment) -> Result<(), Fail> {
    let before = taken(session);
    match session.restart(start) {
        Ok(()) => Ok(()),
        Err(AllocError) => {
            unchanged(taken(session) == before)?;
            Ok(session.restart(start)?)
        }
    }
}

/// Ten steps.
const STEPS: &str = "/ 1970-01-01T00:00:00Z
/ 1970-01-01T00:00:00Z
/ 1970-01-01T00:00:00Z
/ 1970-01-01T00:00:00Z
/ 1970-01-01T00:00:00Z
/ 1970-01-01T00:00:00Z
/ 1970-01-01T00:00:00Z
/ 1970-01-01T00:00:00Z
/ 1970-01-01T00:00:00Z
/ 1970-01-01T00:00:00Z";

#[test]
fn steps_are_taken_and_taken_back_once(rt: HostRuntime) -> Result<(), Fail> {
    let alloc = rt.alloc();
    let mut session = opened(alloc, ROUND)?;
    let steps = steps_of(alloc, STEPS)?;
    for _ in 0..7 {
        let stopped = advanced(&mut session, steps.as_slice())?;
        assert!(rt; matches!(&stopped, (10, Stop::End)));
    }
    assert_eq!(rt; taken(&session), (70, 141));
    // The first comes back to a checkpoint behind 64 steps, the other one to the one before the first step.
    for (line, left) in [("back 3", (67, 135)), ("back 4", (63, 127))] {
        let command = command(alloc, line)?;
        applied(&mut session, &command)?;
        assert_eq!(rt; taken(&session), left);
    }
    restarted(&mut session, Moment::FIRST)?;
    assert_eq!(rt; taken(&session), (0, 1));
    Ok(())
}

/// A loop of three states, twice, for the input `{"n":0}`.
const LOOP: &str = r#"{"StartAt":"A","States":{
"A":{"Type":"Pass","Parameters":{"n.$":"States.MathAdd($.n, 1)"},"Next":"D"},
"D":{"Type":"Pass","Next":"C"},
"C":{"Type":"Choice","Choices":[{"Variable":"$.n","NumericLessThan":2,"Next":"A"}],"Default":"Z"},
"Z":{"Type":"Succeed"}}}"#;

/// The steps of the loop.
const SEVEN_STEPS: &str = "/ 2024-01-01T00:00:00Z
/ 2024-01-01T00:00:00Z
/ 2024-01-01T00:00:00Z
/ 2024-01-01T00:00:00Z
/ 2024-01-01T00:00:00Z
/ 2024-01-01T00:00:00Z
/ 2024-01-01T00:00:00Z";

/// A session of the loop.
fn loop_opened(alloc: Global) -> Result<Session, Fail> {
    let input = r#"{"n":0}"#;
    match Session::open(alloc, setup_by(alloc, LOOP, "{}", "M", input)?) {
        Ok(session) => Ok(session),
        Err(AllocError) => {
            let setup = setup_by(alloc, LOOP, "{}", "M", input)?;
            Ok(Session::open(alloc, setup)?)
        }
    }
}

/// The line of the reply to the command of a line.
fn reply(alloc: Global, session: &mut Session, line: &str) -> Result<String, Fail> {
    let mut text = String::new(alloc);
    let command = command(alloc, line)?;
    let reply = applied(session, &command)?;
    put(alloc, &mut text, &reply)?;
    Ok(text)
}

/// What is told a session of the loop before it is advanced by the steps that are left; the reply, how many steps it takes then, and at
/// which state it pauses behind them, if at one.
const TURNS: &[(&str, &str, usize, &str)] = &[
    ("break \"C\"", "set\n", 2, "C"),
    ("resume /", "resumed\n", 3, "C"),
    ("resume /", "resumed\n", 2, ""),
];

/// What is told it once it has ended, and the replies.
const BACK: &[(&str, &str)] = &[
    ("back 8", "TooFar\n"),
    ("back 7", "back 0\n"),
    ("show /", "shown [\"Ready\",\"A\",{\"n\":0}]\n"),
    ("resume /", "NotPaused\n"),
    ("break \"Y\"", "NoSuchState\n"),
    ("show /4", "NoSuchPlace\n"),
];

/// The state at which a session pauses, or nothing where it goes on.
fn paused(stop: &Stop) -> &str {
    match stop {
        Stop::Paused(name) => name.as_str(),
        Stop::End => "",
        _ => "refused",
    }
}

/// The history and the status.
fn ended(alloc: Global, session: &Session) -> Result<String, Fail> {
    let mut text = String::new(alloc);
    put_ended(alloc, &mut text, session.execution().world())?;
    Ok(text)
}

/// What a session of the loop without a breakpoint comes to.
fn unbroken(alloc: Global, steps: &[StepAt]) -> Result<String, Fail> {
    let mut session = loop_opened(alloc)?;
    let (count, _) = advanced(&mut session, steps)?;
    if count != steps.len() {
        return Err("a step wasn't taken")?;
    }
    ended(alloc, &session)
}

#[test]
fn a_loop_pauses_twice_ends_and_is_taken_back(rt: HostRuntime) -> Result<(), Fail> {
    let alloc = rt.alloc();
    let steps = steps_of(alloc, SEVEN_STEPS)?;
    let mut session = loop_opened(alloc)?;
    for (line, replied, count, name) in TURNS {
        assert_eq!(rt; reply(alloc, &mut session, line)?.as_str(), *replied);
        let left = steps.get(session.steps().len()..).ok_or("no steps")?;
        let (taken, stop) = advanced(&mut session, left)?;
        assert_eq!(rt; (taken, paused(&stop)), (*count, *name));
    }
    assert_eq!(rt; session.execution().history().len(), 16);
    let whole = unbroken(alloc, steps.as_slice())?;
    assert!(rt; whole.as_str().ends_with("\nstatus SUCCEEDED {\"n\":2}\n"));
    assert_eq!(rt; ended(alloc, &session)?.as_str(), whole.as_str());
    for (line, replied) in BACK {
        assert_eq!(rt; reply(alloc, &mut session, line)?.as_str(), *replied);
    }
    assert_eq!(rt; session.execution().history().len(), 1);
    Ok(())
}

// Sessions and commands of texts, and texts of replies.
use crate::opened::{LOOP, setup_of};
use asl_run_input::{StepAt, read_steps};
use asl_session::{Command, Reply, Session, Stop, put_answer, read_command};
use std::test::Fail;

/// A session of the loop.
pub(crate) fn opened(rt: &HostRuntime) -> Result<Session, Fail> {
    let setup = setup_of(rt.alloc(), LOOP, "{}", "M", r#"{"n":0}"#)?;
    Ok(Session::open(rt.alloc(), setup)?)
}

/// The command of a line.
pub(crate) fn command(rt: &HostRuntime, line: &str) -> Result<Command, Fail> {
    Ok(read_command(rt.alloc(), line.as_bytes())?.ok_or("no command")?)
}

/// Tells the session the command of a line.
pub(crate) fn apply(rt: &HostRuntime, session: &mut Session, line: &str) -> Result<Reply, Fail> {
    let command = command(rt, line)?;
    Ok(session.apply(&command)?)
}

/// The line of a reply, with its line feed.
pub(crate) fn answer(rt: &HostRuntime, reply: &Reply) -> Result<String, Fail> {
    let mut text = String::new(rt.alloc());
    put_answer(rt.alloc(), &mut text, reply)?;
    Ok(text)
}

/// So many steps at `/`, all at one moment.
fn steps(rt: &HostRuntime, count: usize) -> Result<Vec<StepAt>, Fail> {
    let mut text = String::new(rt.alloc());
    for _ in 0..count {
        text.push_str("/ 2024-01-01T00:00:00Z\n")?;
    }
    Ok(read_steps(rt.alloc(), text.as_bytes()).map_err(|_| "no steps")?)
}

/// Advances the session by at most so many steps. Tells how many it took, and why no more.
pub(crate) fn advance(
    rt: &HostRuntime,
    session: &mut Session,
    count: usize,
) -> Result<String, Fail> {
    let steps = steps(rt, count)?;
    let (taken, stop) = session.advance(&steps);
    let why = match &stop {
        Stop::End => "end",
        Stop::Paused(name) => name.as_str(),
        Stop::Refused(_) => "refused",
        Stop::OutOfMemory => "no memory",
    };
    Ok(format!(in rt.alloc(); "{taken} {why}")?)
}

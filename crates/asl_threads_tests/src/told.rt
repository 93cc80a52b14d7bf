// Runs and commands of texts, and texts of replies.
ghost use Rattle.std.specs.Prelude.{◌≤◌};

use asl_run_input::Setup;
use asl_session::{Command, put_answer, read_command};
use asl_threads::{ApplyFault, Cause, CloseFault, RunRecord, Seat, SharedRun};
use std::alloc::Global;
use std::mem;
use std::sync::Wait;
use std::test::Fail;

/// Two branches of two states each.
pub(crate) const BRANCHES: &str =
    r#"{"StartAt":"Q","States":{"Q":{"Type":"Parallel","Branches":[{"StartAt":"A","States":{"A":{"Type":"Pass","Result":"a","Next":"A2"},"A2":{"Type":"Succeed"}}},{"StartAt":"B","States":{"B":{"Type":"Pass","Result":"b","Next":"B2"},"B2":{"Type":"Succeed"}}}],"End":true}}}"#;

/// A loop of three states, twice, for the input `{"n":0}`.
pub(crate) const LOOP: &str =
    r#"{"StartAt":"A","States":{"A":{"Type":"Pass","Parameters":{"n.$":"States.MathAdd($.n, 1)"},"Next":"D"},"D":{"Type":"Pass","Next":"C"},"C":{"Type":"Choice","Choices":[{"Variable":"$.n","NumericLessThan":2,"Next":"A"}],"Default":"Z"},"Z":{"Type":"Succeed"}}}"#;

/// A state that waits for ten seconds.
pub(crate) const WAIT: &str =
    r#"{"StartAt":"W","States":{"W":{"Type":"Wait","Seconds":10,"End":true}}}"#;

/// A run with so many seats, and these. The input is `{"n":0}`.
pub(crate) fn opened(
    alloc: Global,
    definition: &str,
    seats: usize,
    label: u64,
) -> Result<(SharedRun, Vec<Seat>), Fail>
    requires { (1 ≤ seats) × (seats ≤ 64) }
{
    let setup = Setup::read(alloc, definition.as_bytes(), b"{}", "M", br#"{"n":0}"#);
    Ok(SharedRun::open(alloc, setup.map_err(|_| "refused")?, seats, label)?)
}

/// The command of a line.
pub(crate) fn command(alloc: Global, line: &str) -> Result<Command, Fail> {
    Ok(read_command(alloc, line.as_bytes())?.ok_or("no command")?)
}

/// Carries out the command of a line from a seat: the line of the reply, with its line feed.
pub(crate) fn told<R: Wait>(
    rt: &R,
    alloc: Global,
    run: &SharedRun,
    seat: &mut Seat,
    line: &str,
) -> Result<String, Fail> {
    let command = command(alloc, line)?;
    let mut text = String::new(alloc);
    match run.state().lock(rt).apply(seat, command) {
        Ok(reply) => put_answer(alloc, &mut text, &reply)?,
        Err(fault) => text.push_str(fault.to_string(alloc)?.as_str())?,
    }
    Ok(text)
}

/// The last of these seats.
pub(crate) fn taken(seats: &mut Vec<Seat>) -> Result<Seat, Fail> {
    Ok(seats.pop().ok_or("no seat")?)
}

/// One seat more.
pub(crate) fn with(seats: Vec<Seat>, seat: Seat) -> Result<Vec<Seat>, Fail> {
    let mut seats = seats;
    seats.push(seat)?;
    Ok(seats)
}

/// Swaps what lies behind the locks of two runs.
pub(crate) fn swap_behind<R: Wait>(rt: &R, one: &SharedRun, other: &SharedRun) {
    let mut mine = one.state().lock(rt);
    let mut theirs = other.state().lock(rt);
    mem::swap(&mut *mine, &mut *theirs);
}

/// What a run leaves that is closed with these seats.
pub(crate) fn closed(run: SharedRun, seats: Vec<Seat>) -> Result<RunRecord, Fail> {
    match run.close(seats) {
        Ok(record) => Ok(record),
        Err(_) => Err("not closed")?,
    }
}

/// Why a run isn't closed with these seats, and both handed back.
pub(crate) fn refused(
    run: SharedRun,
    seats: Vec<Seat>,
) -> Result<(Cause, SharedRun, Vec<Seat>), Fail> {
    match run.close(seats) {
        Ok(_) => Err("closed")?,
        Err(fault) => {
            let CloseFault { cause, run, seats } = fault;
            Ok((cause, run, seats))
        }
    }
}

/// Whether a record has one row of the seat of this number with the command of this line, whose reply has this line.
pub(crate) fn row_is(
    alloc: Global,
    record: &RunRecord,
    number: usize,
    line: &str,
    reply: &str,
) -> Result<bool, Fail> {
    let command = command(alloc, line)?;
    let mut text = String::new(alloc);
    for row in &record.rows {
        if row.seat == number && row.command == command {
            put_answer(alloc, &mut text, &row.reply)?;
        }
    }
    Ok(text.as_str() == reply)
}

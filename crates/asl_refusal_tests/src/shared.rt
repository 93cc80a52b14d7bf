// Runs that threads share.
ghost use Rattle.std.specs.Prelude.{◌≤◌};

use crate::setups::{RETRIED, setup_of, unchanged};
use asl_run_state::Outcome;
use asl_session::{Command, Reply, put_answer, read_command};
use asl_threads::{ApplyFault, Clock, RunRecord, Seat, SharedRun, drive_shared};
use asl_threads_base::{Gate, NoGate};
use asl_time::Moment;
use std::alloc::{AllocError, Global};
use std::sync::Wait;
use std::test::Fail;
use std::thread::Threads;

/// A run of this definition, with two seats.
fn opened(alloc: Global, definition: &str) -> Result<(SharedRun, Vec<Seat>), Fail> {
    match SharedRun::open(alloc, setup_of(alloc, definition)?, 2, 7) {
        Ok(run) => Ok(run),
        Err(AllocError) => Ok(SharedRun::open(alloc, setup_of(alloc, definition)?, 2, 7)?),
    }
}

/// The command of a line.
fn command(alloc: Global, line: &str) -> Result<Command, Fail> {
    let read = match read_command(alloc, line.as_bytes()) {
        Ok(read) => read,
        Err(AllocError) => read_command(alloc, line.as_bytes())?,
    };
    Ok(read.ok_or("no command")?)
}

/// Appends the line of a reply.
fn put(alloc: Global, out: &mut String, reply: &Reply) -> Result<(), Fail> {
    match put_answer(alloc, out, reply) {
        Ok(()) => Ok(()),
        Err(AllocError) => Ok(put_answer(alloc, out, reply)?),
    }
}

/// How many rows a run has, how many steps its session has taken, and how many commands a seat has given.
fn counts<R: Wait>(rt: &R, run: &SharedRun, seat: &Seat) -> (usize, usize, usize) {
    let shared = run.state().lock(rt);
    let (rows, steps) = (shared.rows().len(), shared.session().steps().len());
    (rows, steps, seat.list().len())
}

/// What a run replies to a command from a seat.
fn applied<R: Wait>(
    rt: &R,
    run: &SharedRun,
    seat: &mut Seat,
    command: Command,
) -> Result<Reply, ApplyFault> {
    run.state().lock(rt).apply(seat, command)
}

/// The reply to the command of a line from a seat, which is given again where it was refused memory.
fn told<R: Wait>(
    rt: &R,
    alloc: Global,
    run: &SharedRun,
    seat: &mut Seat,
    line: &str,
) -> Result<Reply, Fail> {
    let before = counts(rt, run, seat);
    let reply = match applied(rt, run, seat, command(alloc, line)?) {
        Err(ApplyFault::OutOfMemory) => {
            unchanged(counts(rt, run, seat) == before)?;
            applied(rt, run, seat, command(alloc, line)?)
        }
        reply => reply,
    };
    Ok(reply.map_err(|_| "no reply")?)
}

/// The seat of a number.
fn seat(seats: &mut Vec<Seat>, number: usize) -> Result<&mut Seat, Fail> {
    Ok(seats.as_mut_slice().get_mut(number).ok_or("no seat")?)
}

/// What is told from two seats in turn.
const LINES: &[(usize, &str)] = &[
    (0, r#"break "T""#),
    (1, "step / 1970-01-01T00:00:00Z"),
    (0, "step /0 1970-01-01T00:00:00Z"),
    (1, "show /0"),
    (0, "resume /0"),
    (1, "step /0 1970-01-01T00:00:00Z"),
    (0, "step /1 1970-01-01T00:00:00Z"),
    (1, "step /0 1970-01-01T00:00:02Z"),
    (0, "step / 1970-01-01T00:00:02Z"),
    (1, "step / 1970-01-01T00:00:03Z"),
    (0, r#"clear "T""#),
    (1, "step /0 1970-01-01T00:00:03Z"),
    (0, "back 1"),
];

/// What is replied.
const REPLIED: &str = r#"set
ok
paused "T"
shown ["Ready","T",{"n":0}]
resumed
ok
ok
ok
ok
ok
cleared
ok
back 6
"#;

/// What a run leaves that is closed with these seats.
fn closed(run: SharedRun, seats: Vec<Seat>) -> Result<RunRecord, Fail> {
    match run.close(seats) {
        Ok(record) => Ok(record),
        Err(_) => Err("not closed")?,
    }
}

#[test]
fn each_command_of_a_seat_is_carried_out_once(rt: HostRuntime) -> Result<(), Fail> {
    let alloc = rt.alloc();
    let (run, mut seats) = opened(alloc, RETRIED)?;
    let mut text = String::new(alloc);
    for (number, line) in LINES {
        let reply = told(&rt, alloc, &run, seat(&mut seats, *number)?, line)?;
        put(alloc, &mut text, &reply)?;
    }
    assert_eq!(rt; text.as_str(), REPLIED);
    let record = closed(run, seats)?;
    assert_eq!(rt; record.session.steps().len(), 6);
    let mut rows = String::new(alloc);
    for row in &record.rows {
        put(alloc, &mut rows, &row.reply)?;
    }
    assert_eq!(rt; rows.as_str(), REPLIED);
    Ok(())
}

/// A Parallel of two branches, and then a loop of a Pass and a Choice, twice.
const FORKED: &str = r#"{"StartAt":"P","States":{
"P":{"Type":"Parallel","ResultPath":null,"Next":"A","Branches":[
{"StartAt":"T","States":{"T":{"Type":"Pass","End":true}}},
{"StartAt":"B","States":{"B":{"Type":"Pass","End":true}}}]},
"A":{"Type":"Pass","Parameters":{"n.$":"States.MathAdd($.n, 1)"},"Next":"C"},
"C":{"Type":"Choice","Choices":[{"Variable":"$.n","NumericLessThan":2,"Next":"A"}],"Default":"Z"},
"Z":{"Type":"Succeed"}}}"#;

/// A clock that always says the same.
#[derive(Drop)]
struct Still(Moment);

impl Clock for Still {
    fn now(&self) -> Moment {
        self.0
    }
}

/// Drives a run by a worker for each seat.
fn drive<R: Threads + Wait + Sync, G: Gate + Sync, C: Clock + Sync>(
    rt: &R,
    alloc: Global,
    run: &SharedRun,
    seats: Vec<Seat>,
    clock: &C,
    gate: &G,
) -> Vec<Seat> {
    drive_shared(rt, alloc, run, seats, clock, gate, 50)
}

#[test]
fn workers_go_on_behind_a_turn_without_memory(rt: HostRuntime) -> Result<(), Fail> {
    let alloc = rt.alloc();
    let (run, seats) = opened(alloc, FORKED)?;
    let seats = drive(&rt, alloc, &run, seats, &Still(Moment::FIRST), &NoGate);
    let record = closed(run, seats)?;
    assert_eq!(rt; record.rows.len(), 9);
    assert_eq!(rt; record.session.execution().history().len(), 20);
    assert!(rt; matches!(record.session.execution().outcome(), Outcome::Succeeded(_)));
    Ok(())
}

// Runs that are closed, and runs that aren't.
use crate::told::{
    BRANCHES, LOOP, closed, command, opened, refused, row_is, swap_behind, taken, told, with,
};
use asl_session::Command;
use asl_threads::{ApplyFault, Cause, Seat, SharedRun};
use std::alloc::Global;
use std::sync::Wait;
use std::test::Fail;
use std::thread;
use std::thread::Threads;

/// What takes commands of a type `C` from seats of a type `S`. That they may cross threads is asked of these types, and of no closure that
/// holds them.
trait Told<S, C> {
    /// Carries out a command from a seat. Says whether it was.
    fn tell<R: Wait>(&self, rt: &R, seat: &mut S, command: C) -> bool;
}

impl Told<Seat, Command> for SharedRun {
    fn tell<R: Wait>(&self, rt: &R, seat: &mut Seat, command: Command) -> bool {
        self.state().lock(rt).apply(seat, command).is_ok()
    }
}

/// Two threads carry out a command each, each from a seat. Says whether both were.
fn tell_both<R: Threads + Wait + Sync, T: Told<S, C> + Sync, S: Send, C: Send + Drop>(
    rt: &R,
    run: &T,
    zero: &mut S,
    left: C,
    one: &mut S,
    right: C,
) -> bool {
    let (a, b) = thread::join(rt, || run.tell(rt, zero, left), || run.tell(rt, one, right));
    a && b
}

#[test]
fn two_threads_step_one_run(rt: HostRuntime) -> Result<(), Fail> {
    let (run, mut seats) = opened(rt.alloc(), BRANCHES, 2, 7)?;
    let mut one = taken(&mut seats)?;
    let mut zero = taken(&mut seats)?;
    let forked = told(
        &rt,
        rt.alloc(),
        &run,
        &mut zero,
        "step / 2024-01-01T00:00:00Z",
    )?;
    assert_eq!(rt; forked.as_str(), "ok\n");
    let left = command(rt.alloc(), "step /0 2024-01-01T00:00:00Z")?;
    let right = command(rt.alloc(), "step /1 2024-01-01T00:00:00Z")?;
    assert!(rt; tell_both(&rt, &run, &mut zero, left, &mut one, right));
    let record = closed(run, with(with(seats, zero)?, one)?)?;
    assert_eq!(rt; record.rows.len(), 3);
    assert_eq!(rt; record.session.steps().len(), 3);
    for (seat, line) in [
        (0, "step / 2024-01-01T00:00:00Z"),
        (0, "step /0 2024-01-01T00:00:00Z"),
        (1, "step /1 2024-01-01T00:00:00Z"),
    ] {
        assert!(rt; row_is(rt.alloc(), &record, seat, line, "ok\n")?);
    }
    Ok(())
}

/// What is told from two seats in turn: each kind of command.
const TOLD: &[(&str, &str)] = &[
    (r#"break "B""#, "step / 2024-01-01T00:00:00Z"),
    ("step /1 2024-01-01T00:00:00Z", "resume /1"),
    ("show /1", "step /1 2024-01-01T00:00:00Z"),
    ("show /1", r#"clear "B""#),
    ("step / 2024-01-01T00:00:00Z", "back 1"),
];

/// What is replied.
const REPLIED: &str = r#"set
ok
paused "B"
resumed
shown ["Ready","B",{"n":0}]
ok
shown ["Ready","B2","b"]
cleared
S5 Busy
back 1
"#;

/// Tells a run all this: the lines of the replies.
fn tell_all<R: Wait>(
    rt: &R,
    alloc: Global,
    run: &SharedRun,
    zero: &mut Seat,
    one: &mut Seat,
) -> Result<String, Fail> {
    let mut replied = String::new(alloc);
    for (left, right) in TOLD {
        let reply = told(rt, alloc, run, zero, left)?;
        replied.push_str(reply.as_str())?;
        let reply = told(rt, alloc, run, one, right)?;
        replied.push_str(reply.as_str())?;
    }
    Ok(replied)
}

#[test]
fn all_seats_have_one_session(rt: HostRuntime) -> Result<(), Fail> {
    let (run, mut seats) = opened(rt.alloc(), BRANCHES, 2, 7)?;
    let mut one = taken(&mut seats)?;
    let mut zero = taken(&mut seats)?;
    let replied = tell_all(&rt, rt.alloc(), &run, &mut zero, &mut one)?;
    assert_eq!(rt; replied.as_str(), REPLIED);
    let (cause, run, mut seats) = refused(run, with(seats, one)?)?;
    assert_eq!(rt; cause, Cause::SeatMissing(0));
    let one = taken(&mut seats)?;
    // Their order doesn't matter.
    let record = closed(run, with(with(seats, one)?, zero)?)?;
    assert_eq!(rt; record.rows.len(), 10);
    assert_eq!(rt; record.session.steps().len(), 1);
    Ok(())
}

#[test]
fn a_seat_of_another_label_is_foreign(rt: HostRuntime) -> Result<(), Fail> {
    let (run, seats) = opened(rt.alloc(), BRANCHES, 1, 7)?;
    let (_other, mut others) = opened(rt.alloc(), BRANCHES, 1, 8)?;
    let mut foreign = taken(&mut others)?;
    let reply = told(
        &rt,
        rt.alloc(),
        &run,
        &mut foreign,
        "step / 2024-01-01T00:00:00Z",
    )?;
    assert_eq!(rt; reply.as_str(), "H3 Foreign");
    assert!(rt; foreign.list().is_empty());
    let (cause, run, mut seats) = refused(run, with(seats, foreign)?)?;
    assert_eq!(rt; cause, Cause::Foreign);
    drop(taken(&mut seats)?);
    let record = closed(run, seats)?;
    assert!(rt; record.rows.is_empty());
    Ok(())
}

#[test]
fn seats_of_other_runs_do_not_close_a_run(rt: HostRuntime) -> Result<(), Fail> {
    let (quiet, own) = opened(rt.alloc(), BRANCHES, 2, 7)?;
    let (told_run, mut seats) = opened(rt.alloc(), BRANCHES, 2, 7)?;
    let mut one = taken(&mut seats)?;
    let mut zero = taken(&mut seats)?;
    tell_all(&rt, rt.alloc(), &told_run, &mut zero, &mut one)?;
    let (cause, quiet, seats) = refused(quiet, with(with(seats, zero)?, one)?)?;
    assert_eq!(rt; cause, Cause::Mismatch(0));
    let (other, _others) = opened(rt.alloc(), BRANCHES, 2, 8)?;
    let (cause, _other, seats) = refused(other, seats)?;
    assert_eq!(rt; cause, Cause::Foreign);
    let record = closed(told_run, seats)?;
    assert_eq!(rt; record.rows.len(), 10);
    let record = closed(quiet, own)?;
    assert!(rt; record.rows.is_empty());
    Ok(())
}

#[test]
fn each_number_is_there_once(rt: HostRuntime) -> Result<(), Fail> {
    let (first, seats) = opened(rt.alloc(), BRANCHES, 2, 7)?;
    let (second, mut others) = opened(rt.alloc(), BRANCHES, 2, 7)?;
    let one = taken(&mut others)?;
    let zero = taken(&mut others)?;
    let (cause, first, mut seats) = refused(first, with(seats, zero)?)?;
    assert_eq!(rt; cause, Cause::Mismatch(0));
    let zero = taken(&mut seats)?;
    let record = closed(first, seats)?;
    assert!(rt; record.rows.is_empty());
    let (cause, second, none) = refused(second, Vec::new(rt.alloc()))?;
    assert_eq!(rt; cause, Cause::SeatMissing(0));
    let (_third, mut three) = opened(rt.alloc(), BRANCHES, 3, 7)?;
    let two = taken(&mut three)?;
    let (cause, _second, _seats) = refused(second, with(with(with(none, zero)?, one)?, two)?)?;
    assert_eq!(rt; cause, Cause::Mismatch(2));
    Ok(())
}

#[test]
fn another_run_behind_the_lock_is_found_out(rt: HostRuntime) -> Result<(), Fail> {
    for (definition, label, cause) in [
        (LOOP, 7, Some(Cause::OtherSetup)),
        (BRANCHES, 8, Some(Cause::OtherSetup)),
        (BRANCHES, 7, None),
    ] {
        let (run, seats) = opened(rt.alloc(), BRANCHES, 1, 7)?;
        let (other, _others) = opened(rt.alloc(), definition, 1, label)?;
        swap_behind(&rt, &run, &other);
        let answer = run.close(seats).err().map(|fault| fault.cause);
        assert_eq!(rt; answer, cause);
    }
    Ok(())
}

#[test]
fn a_run_that_is_not_closed_keeps_its_session(rt: HostRuntime) -> Result<(), Fail> {
    let (run, mut seats) = opened(rt.alloc(), BRANCHES, 2, 7)?;
    let mut one = taken(&mut seats)?;
    let mut zero = taken(&mut seats)?;
    tell_all(&rt, rt.alloc(), &run, &mut zero, &mut one)?;
    let (cause, run, seats) = refused(run, with(seats, zero)?)?;
    assert_eq!(rt; cause, Cause::SeatMissing(1));
    assert_eq!(rt; run.state().lock(&rt).rows().len(), 10);
    let record = closed(run, with(seats, one)?)?;
    assert_eq!(rt; record.rows.len(), 10);
    Ok(())
}

#[test]
fn each_fault_has_its_number(rt: HostRuntime) -> Result<(), Fail> {
    for (cause, text) in [
        (Cause::OtherSetup, "H6 OtherSetup"),
        (Cause::Foreign, "H3 Foreign"),
        (Cause::SeatMissing(10), "H1 SeatMissing 10"),
        (Cause::Mismatch(0), "H2 Mismatch 0"),
    ] {
        let told = cause.to_string(rt.alloc())?;
        assert_eq!(rt; told.as_str(), text);
    }
    let memory = ApplyFault::OutOfMemory.to_string(rt.alloc())?;
    assert_eq!(rt; memory.as_str(), "OutOfMemory");
    let (run, _seats) = opened(rt.alloc(), BRANCHES, 2, 7)?;
    let fault = run.close(Vec::new(rt.alloc())).err().ok_or("closed")?;
    let (told, shown) = (
        fault.to_string(rt.alloc())?,
        format!(in rt.alloc(); "{fault:?}")?,
    );
    assert_eq!(rt; told.as_str(), "H1 SeatMissing 0");
    assert_eq!(rt; shown.as_str(), "CloseFault(SeatMissing(0))");
    Ok(())
}

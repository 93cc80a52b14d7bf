// Workers that take turns at a run.
use crate::told::{BRANCHES, LOOP, WAIT, closed, command, opened, taken};
use crate::workers::{Counting, Looking, Meeting, Still};
use asl_json_write::write;
use asl_run_state::Outcome;
use asl_threads::{Clock, RunRecord, Seat, SharedRun, drive_shared};
use asl_threads_base::Gate;
use asl_time::Moment;
use std::alloc::Global;
use std::sync::Wait;
use std::sync::atomic::Ordering;
use std::test::Fail;
use std::thread::{Builder, Threads};

/// Drives a run.
fn drive<R: Threads + Wait + Sync, G: Gate + Sync, C: Clock + Sync>(
    rt: &R,
    alloc: Global,
    run: &SharedRun,
    seats: Vec<Seat>,
    clock: &C,
    gate: &G,
    turns: usize,
) -> Vec<Seat> {
    drive_shared(rt, alloc, run, seats, clock, gate, turns)
}

/// The clock of so many milliseconds.
fn at(millis: u64) -> Result<Still, Fail> {
    Ok(Still(Moment::of_millis(millis).ok_or("no moment")?))
}

/// The first of these seats.
fn first(seats: &Vec<Seat>) -> Result<&Seat, Fail> {
    Ok(seats.as_slice().first().ok_or("no seat")?)
}

/// The output of an execution that has succeeded.
fn output(alloc: Global, record: &RunRecord) -> Result<String, Fail> {
    match record.session.execution().outcome() {
        Outcome::Succeeded(value) => Ok(write(alloc, value)?),
        _ => Err("no success")?,
    }
}

#[test]
fn two_workers_end_a_loop(rt: HostRuntime) -> Result<(), Fail> {
    let (run, seats) = opened(rt.alloc(), LOOP, 2, 7)?;
    let seats = drive(&rt, rt.alloc(), &run, seats, &at(7)?, &Counting::new(), 100);
    let record = closed(run, seats)?;
    let output = output(rt.alloc(), &record)?;
    assert_eq!(rt; output.as_str(), r#"{"n":2}"#);
    assert_eq!(rt; record.rows.len(), 7);
    assert_eq!(rt; record.session.execution().history().len(), 16);
    Ok(())
}

#[test]
fn a_worker_ends_with_the_execution(rt: HostRuntime) -> Result<(), Fail> {
    let (run, seats) = opened(rt.alloc(), LOOP, 1, 7)?;
    let gate = Counting::new();
    let seats = drive(&rt, rt.alloc(), &run, seats, &at(0)?, &gate, 3);
    assert_eq!(rt; first(&seats)?.list().len(), 3);
    assert_eq!(rt; gate.begun.load(Ordering::SeqCst), 3);
    assert_eq!(rt; gate.pieces.load(Ordering::SeqCst), 3);
    let seats = drive(&rt, rt.alloc(), &run, seats, &at(0)?, &gate, 100);
    // Four steps more, and one turn in which nothing is left to do.
    assert_eq!(rt; first(&seats)?.list().len(), 7);
    assert_eq!(rt; gate.begun.load(Ordering::SeqCst), 8);
    assert_eq!(rt; gate.pieces.load(Ordering::SeqCst), 13);
    assert_eq!(rt; gate.done.load(Ordering::SeqCst), 8);
    Ok(())
}

#[test]
fn five_seats_come_back_in_order(rt: HostRuntime) -> Result<(), Fail> {
    let (run, seats) = opened(rt.alloc(), BRANCHES, 5, 7)?;
    let gate = Counting::new();
    let seats = drive(&rt, rt.alloc(), &run, seats, &at(7)?, &gate, 100);
    assert_eq!(rt; gate.workers.load(Ordering::SeqCst), 10);
    for (number, seat) in seats.iter().enumerate() {
        assert_eq!(rt; seat.number(), number);
    }
    let record = closed(run, seats)?;
    let output = output(rt.alloc(), &record)?;
    assert_eq!(rt; output.as_str(), r#"["a","b"]"#);
    Ok(())
}

#[test]
fn a_turn_before_its_time_is_spent(rt: HostRuntime) -> Result<(), Fail> {
    let (run, seats) = opened(rt.alloc(), WAIT, 1, 7)?;
    let gate = Counting::new();
    let seats = drive(&rt, rt.alloc(), &run, seats, &at(0)?, &gate, 4);
    assert_eq!(rt; first(&seats)?.list().len(), 1);
    let seats = drive(&rt, rt.alloc(), &run, seats, &at(9_999)?, &gate, 4);
    assert_eq!(rt; first(&seats)?.list().len(), 1);
    assert_eq!(rt; gate.done.load(Ordering::SeqCst), 8);
    let seats = drive(&rt, rt.alloc(), &run, seats, &at(20_000)?, &gate, 4);
    assert_eq!(rt; first(&seats)?.list().len(), 2);
    let step = command(rt.alloc(), "step / 1970-01-01T00:00:20Z")?;
    let last = first(&seats)?.list().last().ok_or("no command")?;
    assert!(rt; last.command == step);
    assert_eq!(rt; gate.done.load(Ordering::SeqCst), 10);
    Ok(())
}

#[test]
fn a_turn_with_a_foreign_seat_is_spent(rt: HostRuntime) -> Result<(), Fail> {
    let (run, own) = opened(rt.alloc(), LOOP, 1, 7)?;
    let (_other, others) = opened(rt.alloc(), LOOP, 1, 8)?;
    let gate = Counting::new();
    let mut others = drive(&rt, rt.alloc(), &run, others, &at(0)?, &gate, 4);
    assert_eq!(rt; gate.done.load(Ordering::SeqCst), 4);
    assert!(rt; taken(&mut others)?.list().is_empty());
    assert!(rt; closed(run, own)?.rows.is_empty());
    Ok(())
}

#[test]
fn no_lock_is_held_at_the_gate(rt: HostRuntime) -> Result<(), Fail> {
    let (run, seats) = opened(rt.alloc(), LOOP, 1, 7)?;
    let looking = Looking::at(&run);
    let seats = drive(&rt, rt.alloc(), &run, seats, &looking, &looking, 3);
    assert_eq!(rt; first(&seats)?.list().len(), 3);
    assert_eq!(rt; looking.free.load(Ordering::SeqCst), 9);
    assert_eq!(rt; looking.held.load(Ordering::SeqCst), 0);
    Ok(())
}

#[test]
fn two_workers_run_at_the_same_time(rt: HostRuntime) -> Result<(), Fail> {
    let (run, seats) = opened(rt.alloc(), LOOP, 2, 7)?;
    let gate = Meeting::new(&rt);
    let seats = drive(&rt, rt.alloc(), &run, seats, &at(0)?, &gate, 10);
    assert!(rt; gate.have_met());
    let record = closed(run, seats)?;
    assert_eq!(rt; record.rows.len(), 7);
    Ok(())
}

/// Whether the system starts a thread with a stack as large as a worker's.
fn can_start<R: Threads>(rt: &R) -> bool {
    match Builder::new().stack_size(1 << 30).spawn(rt, || ()) {
        Ok(child) => {
            child.join(rt);
            true
        }
        Err(_) => false,
    }
}

// Also run where no such thread can be started, by tests/unstarted.
#[test]
fn a_worker_that_is_not_started_takes_no_turn(rt: HostRuntime) -> Result<(), Fail> {
    let (run, seats) = opened(rt.alloc(), WAIT, 3, 7)?;
    let gate = Counting::new();
    let seats = drive(&rt, rt.alloc(), &run, seats, &at(0)?, &gate, 4);
    let turns = if can_start(&rt) { 12 } else { 0 };
    assert_eq!(rt; gate.begun.load(Ordering::SeqCst), turns);
    assert_eq!(rt; gate.done.load(Ordering::SeqCst), turns);
    let record = closed(run, seats)?;
    assert_eq!(rt; record.rows.is_empty(), turns == 0);
    Ok(())
}

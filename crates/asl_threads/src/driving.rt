// Workers that take turns at one run.
ghost use Rattle.std.specs.Prelude.{◌≡◌};
ghost use Rattle.std.specs.List.{AllZip};
ghost use Rattle.asl_session.specs.Sessions.{world_in};
ghost use Rattle.asl_threads.specs.Runs.{session_of};
ghost use Rattle.asl_threads.specs.Workers.{IsTold, Serves};
ghost use Rattle.asl_threads.specs.Turns.{due_of, due_in, IsTurn, Turned, AllGrow};

use crate::clock::Clock;
use crate::run::SharedRun;
use crate::seat::Seat;
use crate::serving::{Served, drive_from};
use crate::shared::Shared;
use asl_history::Place;
use asl_run_input::StepAt;
use asl_run_state::Next;
use asl_session::Command;
use asl_threads_base::Gate;
use asl_time::Moment;
use std::alloc::Global;
use std::sync::{Mutex, Wait};
use std::thread;
use std::thread::Threads;

/// Whether a step is due.
#[derive(Drop)]
enum Due<'a> {
    /// None, ever: the execution is over, or its history full.
    Never,
    /// None at this moment.
    Later,
    /// A step at this place.
    Now(&'a Place),
}

impl Shared {
    /// Whether a step is due at this moment: at the place that comes next, or, once the moment that is awaited has come, at the first
    /// place that isn't refused then.
    fn due(&self, now: Moment) -> Due<'_>
        ensures { due_of result
            ≡ due_in self.now.setup (world_in (session_of self.now)) now }
    {
        let execution = self.session().execution();
        match execution.next() {
            Next::Over | Next::Full => Due::Never,
            Next::Step(place) => Due::Now(place),
            Next::At(moment) => {
                if now.millis() < moment.millis() {
                    return Due::Later;
                }
                match execution.first(moment) {
                    Some(place) => Due::Now(place),
                    None => Due::Later,
                }
            }
        }
    }

    /// One turn of a seat: the step that is due is applied at this moment. A turn that finds no memory or has another run's seat is spent.
    /// Says whether no step is ever due again.
    fn turn(&mut self, seat: &mut Seat, now: Moment) -> bool
        ensures { IsTurn now self.old seat.old self.new seat.new result }
    {
        let place = match self.due(now) {
            Due::Never => return true,
            Due::Later => return false,
            Due::Now(place) => place.try_clone(),
        };
        if let Ok(place) = place {
            let _ = self.apply(seat, Command::Step(StepAt { place, moment: now }));
        }
        false
    }
}

impl Served<Seat> for SharedRun {
    ghost use Rattle.asl_threads.specs.Turns.{Turned};

    ghost turned = { Turned };

    fn stand_in(&self, alloc: Global) -> Seat {
        Seat::new(alloc, 0, 0)
    }

    fn turn<R: Wait, C: Clock>(&self, rt: &R, clock: &C, seat: &mut Seat) -> bool {
        let now = clock.now();
        self.state().lock(rt).turn(seat, now)
    }
}

/// Steps a run by one worker for each seat, which takes at most so many turns. In a turn a worker asks what comes next, and applies a
/// step at the clock's moment: at the place that comes next, or, where a moment is awaited that the clock has reached, at the first
/// place that isn't refused then. Where the clock says less, the turn is spent; so is one that finds no memory or has another run's seat.
/// A worker ends where the execution is over or its history full, and else takes all its turns. One that can't be started takes none. The gate and the clock are
/// called with no lock held; a gate's piece is the number of the worker's turn, from 0. The seats come back in their order.
#[tactic(auto, using(crate::proofs::Served::all_grow))]
pub fn drive_shared<R: Threads + Wait + Sync, G: Gate + Sync, C: Clock + Sync>(
    rt: &R,
    alloc: Global,
    run: &SharedRun,
    seats: Vec<Seat>,
    clock: &C,
    gate: &G,
    turns: usize,
) -> Vec<Seat>
    // Each worker takes its turns, each told at the gate.
    ensures turns { AllZip (Serves turns (IsTold G.began G.ended (Turned C.says))) seats.items result.items }
    // So each seat's list has at most so many steps more.
    ensures grows { AllGrow turns seats.items result.items }
{
    let nobody = Mutex::new(None);
    let idle = &nobody;
    thread::scope(
        thread::scope_env(),
        rt,
        move |scope| -> Vec<Seat>
            ensures { AllZip (Serves turns (IsTold G.began G.ended (Turned C.says))) seats.items result.items }
        {
            let mut seats = seats;
            drive_from(
                scope,
                rt,
                run,
                clock,
                gate,
                idle,
                alloc,
                turns,
                0,
                seats.as_mut_slice(),
            );
            seats
        },
    )
}

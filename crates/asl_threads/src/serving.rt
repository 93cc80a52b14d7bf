// A worker for each seat.
ghost use Rattle.std.specs.Prelude.{◌<◌, ◌+◌, ◌^◌, length};
ghost use Rattle.std.specs.List.{AllZip};
ghost use Rattle.asl_threads.specs.Workers.{IsTold, TakesTurns, Serves};

use crate::clock::Clock;
use asl_threads_base::Gate;
use core::thread::Stack;
use std::alloc::Global;
use std::marker::PhantomData;
use std::mem;
use std::snapshot::Snapshot;
use std::sync::{Mutex, Wait};
use std::thread::{Promise, Scope, Threads};

/// The stack of a worker's thread, in bytes, as large as the program's own; the system gives it page by page, as it is used. A step may copy
/// values that are nested deeply.
const STACK: usize = 1 << 30;

/// What workers serve, each from a seat of its own. That a run and its seats may cross threads is asked of these types as they are given
/// here, and of no closure that holds them.
pub(crate) trait Served<S> {
    ghost use Rattle.std.specs.Prelude.{ℕ, Bool};

    /// What a turn made of its seat, by the moments that a clock says, and whether it was the last. Nothing but a turn shows it.
    ghost turned: { (ℕ → Type 0) → S → S → Bool → Type 0 };

    /// What stands in the place of a seat that its worker has.
    fn stand_in(&self, alloc: Global) -> S;

    /// A turn of a seat. Says whether nothing is due ever again.
    fn turn<R: Wait, C: Clock>(&self, rt: &R, clock: &C, seat: &mut S) -> bool
        ensures { turned C.says seat.old seat.new result };
}

/// The turns of a worker.
fn work<S, X: Served<S>, R: Wait, G: Gate, C: Clock>(
    rt: &R,
    run: &X,
    clock: &C,
    gate: &G,
    turns: usize,
    worker: usize,
    seat: &mut S,
)
    ensures { TakesTurns turns (IsTold G.began G.ended (X.turned C.says) worker) seat.old seat.new }
{
    for turn in 0..turns {
        gate.before(worker, turn);
        let is_last = run.turn(rt, clock, seat);
        gate.after(worker, turn);
        if is_last {
            return;
        }
    }
}

/// The turns of a worker, or none where it is the idle one.
#[tactic(auto, unfolding(crate::specs::Workers::Serves))]
fn serve<S, X: Served<S>, R: Wait, G: Gate, C: Clock>(
    rt: &R,
    run: &X,
    clock: &C,
    gate: &G,
    turns: usize,
    worker: usize,
    idle: &Mutex<Option<usize>>,
    mut seat: S,
) -> S
    ensures { Serves turns (IsTold G.began G.ended (X.turned C.says)) seat result }
{
    let is_idle = *idle.lock(rt) == Some(worker);
    if !is_idle {
        work(rt, run, clock, gate, turns, worker, &mut seat);
    }
    seat
}

/// Makes this worker the idle one.
fn leave_idle<R: Wait>(rt: &R, idle: &Mutex<Option<usize>>, worker: usize) {
    *idle.lock(rt) = Some(worker);
}

/// What comes back is the seat that its worker had, after its turns.
#[derive(Drop)]
struct ServedBy<S, X, G, C> {
    turns: usize,
    before: Snapshot<S>,
    served: PhantomData<(X, G, C)>,
}

impl<S, X: Served<S>, G: Gate, C: Clock> Promise<S> for ServedBy<S, X, G, C> {
    ghost use Rattle.asl_threads.specs.Workers.{IsTold, Serves};

    ghost kept_by = { λ p r. Serves p.turns (IsTold G.began G.ended (X.turned C.says)) p.before.value r };
}

/// Starts a worker for each of these seats, numbered from `worker`, and waits for all. One that can't be started hands back what it was to
/// do, which is done here as the idle one's, for the sake of its seat.
pub(crate) fn drive_from<
    's,
    'e,
    R: Threads + Wait + Sync,
    S: Send + Drop + 's,
    X: Served<S> + Sync,
    G: Gate + Sync,
    C: Clock + Sync,
>(
    scope: &Scope<'s, &'e ()>,
    rt: &'s R,
    run: &'s X,
    clock: &'s C,
    gate: &'s G,
    idle: &'s Mutex<Option<usize>>,
    alloc: Global,
    turns: usize,
    worker: usize,
    seats: &mut [S],
)
    requires { worker + length seats.old < 2 ^ 64 }
    ensures { AllZip (Serves turns (IsTold G.began G.ended (X.turned C.says))) seats.old seats.new }
{
    let Some((first, rest)) = seats.split_first_mut() else {
        return;
    };
    let seat = mem::replace(first, run.stand_in(alloc));
    let promise: ServedBy<S, X, G, C> = ServedBy {
        turns,
        before: Snapshot::of(&seat),
        served: PhantomData,
    };
    let started = Stack::new().stack_size(STACK).spawn_scoped_with(
        scope,
        promise,
        move || -> S
            ensures { Serves turns (IsTold G.began G.ended (X.turned C.says)) seat result }
        { serve(rt, run, clock, gate, turns, worker, idle, seat) },
    );
    drive_from(
        scope,
        rt,
        run,
        clock,
        gate,
        idle,
        alloc,
        turns,
        worker + 1,
        rest,
    );
    *first = match started {
        Ok(child) => child.join(rt),
        Err(refused) => {
            leave_idle(rt, idle, worker);
            (refused.value)()
        }
    };
}

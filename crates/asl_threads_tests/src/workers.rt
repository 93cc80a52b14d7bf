// Gates and clocks.
use asl_threads::{Clock, SharedRun};
use asl_threads_base::Gate;
use asl_time::Moment;
use std::sync::atomic::{AtomicBool, AtomicUsize, Ordering};
use std::thread;
use std::time::{self, Duration};

/// A clock that always says the same.
#[derive(Drop)]
pub(crate) struct Still(pub(crate) Moment);

impl Clock for Still {
    fn now(&self) -> Moment {
        self.0
    }
}

/// A gate that lets all through, and counts what it is told.
#[derive(Drop)]
pub(crate) struct Counting {
    pub(crate) begun: AtomicUsize,
    pub(crate) done: AtomicUsize,
    /// The sum of the pieces that were begun.
    pub(crate) pieces: AtomicUsize,
    /// The sum of the workers that began their first piece.
    pub(crate) workers: AtomicUsize,
}

impl Counting {
    /// Nothing was told yet.
    pub(crate) fn new() -> Counting {
        Counting {
            begun: AtomicUsize::new(0),
            done: AtomicUsize::new(0),
            pieces: AtomicUsize::new(0),
            workers: AtomicUsize::new(0),
        }
    }
}

impl Gate for Counting {
    fn before(&self, worker: usize, piece: usize) {
        self.begun.fetch_add(1, Ordering::SeqCst);
        self.pieces.fetch_add(piece, Ordering::SeqCst);
        if piece == 0 {
            self.workers.fetch_add(worker, Ordering::SeqCst);
        }
    }

    fn after(&self, _worker: usize, _piece: usize) {
        self.done.fetch_add(1, Ordering::SeqCst);
    }
}

/// A gate and a clock for one worker that look whether its run's lock is free.
#[derive(Drop)]
pub(crate) struct Looking<'a> {
    pub(crate) run: &'a SharedRun,
    pub(crate) free: AtomicUsize,
    pub(crate) held: AtomicUsize,
}

impl<'a> Looking<'a> {
    /// At this run.
    pub(crate) fn at(run: &'a SharedRun) -> Looking<'a> {
        Looking {
            run,
            free: AtomicUsize::new(0),
            held: AtomicUsize::new(0),
        }
    }

    fn look(&self) {
        let is_free = self.run.state().try_lock().is_some();
        let count = if is_free { &self.free } else { &self.held };
        count.fetch_add(1, Ordering::SeqCst);
    }
}

impl Gate for Looking<'_> {
    fn before(&self, _worker: usize, _piece: usize) {
        self.look();
    }

    fn after(&self, _worker: usize, _piece: usize) {
        self.look();
    }
}

impl Clock for Looking<'_> {
    fn now(&self) -> Moment {
        self.look();
        Moment::FIRST
    }
}

/// A gate at which two workers wait for each other before their first turns, as long as 10,000 looks take, each a millisecond.
#[derive(Drop)]
pub(crate) struct Meeting<R: time::Clock> {
    rt: R,
    first: AtomicBool,
    second: AtomicBool,
    alone: AtomicBool,
}

impl<R: time::Clock> Meeting<R> {
    /// Nobody has come yet.
    pub(crate) fn new(rt: R) -> Meeting<R> {
        Meeting {
            rt,
            first: AtomicBool::new(false),
            second: AtomicBool::new(false),
            alone: AtomicBool::new(false),
        }
    }

    /// Whether both came, and neither waited in vain.
    pub(crate) fn have_met(&self) -> bool {
        self.first.load(Ordering::SeqCst)
            && self.second.load(Ordering::SeqCst)
            && !self.alone.load(Ordering::SeqCst)
    }

    fn wait_for(&self, other: &AtomicBool) {
        for _ in 0..10_000 {
            if other.load(Ordering::SeqCst) {
                return;
            }
            thread::sleep(&self.rt, Duration::from_millis(1));
        }
        self.alone.store(true, Ordering::SeqCst);
    }
}

impl<R: time::Clock> Gate for Meeting<R> {
    fn before(&self, worker: usize, piece: usize) {
        if piece != 0 {
            return;
        }
        if worker == 0 {
            self.first.store(true, Ordering::SeqCst);
            self.wait_for(&self.second);
        } else {
            self.second.store(true, Ordering::SeqCst);
            self.wait_for(&self.first);
        }
    }

    fn after(&self, _worker: usize, _piece: usize) {}
}

// What workers pass.
use asl_threads_base::Gate;
use std::sync::atomic::{AtomicBool, AtomicU64, Ordering};
use std::thread;
use std::time::{Clock, Duration};

/// A gate at which the workers of two cases wait for one another, for at most ten seconds.
#[derive(Drop)]
pub(crate) struct Meet<R: Clock> {
    rt: R,
    first: AtomicBool,
    second: AtomicBool,
    alone: AtomicBool,
}

impl<R: Clock> Meet<R> {
    pub(crate) fn new(rt: R) -> Meet<R> {
        Meet {
            rt,
            first: AtomicBool::new(false),
            second: AtomicBool::new(false),
            alone: AtomicBool::new(false),
        }
    }

    /// Whether both came while the other waited.
    pub(crate) fn is_met(&self) -> bool {
        !self.alone.load(Ordering::SeqCst)
    }
}

impl<R: Clock> Gate for Meet<R> {
    fn before(&self, _worker: usize, piece: usize) {
        let (mine, theirs) = if piece == 0 {
            (&self.first, &self.second)
        } else {
            (&self.second, &self.first)
        };
        mine.store(true, Ordering::SeqCst);
        for _ in 0..10_000 {
            if theirs.load(Ordering::SeqCst) {
                return;
            }
            thread::sleep(&self.rt, Duration::from_millis(1));
        }
        self.alone.store(true, Ordering::SeqCst);
    }

    fn after(&self, _worker: usize, _piece: usize) {}
}

/// A gate that counts the pieces, and adds up their numbers.
#[derive(Drop)]
pub(crate) struct Tally {
    begun: AtomicU64,
    begun_sum: AtomicU64,
    done: AtomicU64,
    done_sum: AtomicU64,
}

impl Tally {
    pub(crate) fn new() -> Tally {
        Tally {
            begun: AtomicU64::new(0),
            begun_sum: AtomicU64::new(0),
            done: AtomicU64::new(0),
            done_sum: AtomicU64::new(0),
        }
    }

    /// How many were begun and done, and the sums of their numbers.
    pub(crate) fn told(&self) -> [u64; 4] {
        [
            self.begun.load(Ordering::SeqCst),
            self.begun_sum.load(Ordering::SeqCst),
            self.done.load(Ordering::SeqCst),
            self.done_sum.load(Ordering::SeqCst),
        ]
    }
}

impl Gate for Tally {
    fn before(&self, _worker: usize, piece: usize) {
        self.begun.fetch_add(1, Ordering::SeqCst);
        self.begun_sum.fetch_add(piece as u64, Ordering::SeqCst);
    }

    fn after(&self, _worker: usize, piece: usize) {
        self.done.fetch_add(1, Ordering::SeqCst);
        self.done_sum.fetch_add(piece as u64, Ordering::SeqCst);
    }
}

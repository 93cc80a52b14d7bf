// What is told while a suite or a search runs.
use asl_explore::{SoFar, Watch};
use asl_threads_base::Gate;
use std::sync::atomic::{AtomicU64, Ordering};
use std::time::Clock;

/// Tells how many tests are done, or how many worlds were tried, where that is shown: a line on standard error, at most once a second.
#[derive(Drop)]
pub struct Progress<'a, R> {
    rt: &'a R,
    shown: bool,
    done: AtomicU64,
    /// The second of the clock in which the last line was told.
    told: AtomicU64,
}

impl<'a, R: Clock> Progress<'a, R> {
    /// Nothing is done so far.
    pub fn new(rt: &'a R, shown: bool) -> Progress<'a, R> {
        Progress {
            rt,
            shown,
            done: AtomicU64::new(0),
            told: AtomicU64::new(second_of(rt)),
        }
    }

    /// Whether a second has begun in which no line was told.
    fn is_due(&self) -> bool {
        let told = self.told.load(Ordering::SeqCst);
        let second = second_of(self.rt);
        told < second
            && self
                .told
                .compare_exchange(told, second, Ordering::SeqCst, Ordering::SeqCst)
                .is_ok()
    }
}

/// The second of the clock; 0 where it tells none.
fn second_of<R: Clock>(rt: &R) -> u64 {
    match rt.monotonic() {
        Ok(time) => time.as_secs(),
        Err(_) => 0,
    }
}

impl<'a, R: Clock + Eprint> Gate for Progress<'a, R> {
    fn before(&self, _worker: usize, _piece: usize) {}

    fn after(&self, _worker: usize, _piece: usize) {
        let done = self.done.fetch_add(1, Ordering::SeqCst).wrapping_add(1);
        if self.shown && self.is_due() {
            // A line that isn't written is no fault: it changes nothing.
            let _ = eprintln!(self.rt; "{done} tests done");
        }
    }
}

impl<'a, R: Clock + Eprint> Watch for Progress<'a, R> {
    fn tried(&self, far: SoFar) {
        if self.shown && self.is_due() {
            // A line that isn't written is no fault: it changes nothing.
            let SoFar {
                worlds,
                waiting,
                outcomes,
            } = far;
            let _ = eprintln!(self.rt;
                "{worlds} worlds tried, {waiting} wait, {outcomes} outcomes"
            );
        }
    }
}

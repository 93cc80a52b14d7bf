// Which case a worker runs next, and what it hands back.
ghost use Rattle.std.specs.Prelude.{◌≡◌, ◌+◌, ◌<◌, ◌≤◌, MatchOption};

use asl_suite::CaseReport;
use std::alloc::AllocError;

/// The number of the first case that nobody has claimed.
#[derive(Drop)]
pub(crate) struct Claims {
    next: usize,
}

impl Claims {
    /// Nothing is claimed.
    pub(crate) fn new() -> Claims
        ensures { result.next ≡ 0 }
    {
        Claims { next: 0 }
    }

    /// The first case that nobody has claimed, of so many cases. It is claimed now.
    pub(crate) fn claim(&mut self, count: usize) -> Option<usize>
        ensures { MatchOption result (count ≤ self.old.next)
            (λ case. (case ≡ self.old.next) × (case < count) × (self.new.next ≡ case + 1)) }
    {
        if self.next >= count {
            return None;
        }
        let case = self.next;
        self.next += 1;
        Some(case)
    }
}

/// A case that a worker ran, and what came of it.
#[derive(Drop)]
pub struct Done {
    /// The case's number.
    pub case: usize,
    /// Its report. The error is that memory ran out.
    pub outcome: Result<CaseReport, AllocError>,
}

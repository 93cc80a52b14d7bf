// A run: the one lock, and copies beside it of what was given to `open`.
ghost use Rattle.std.specs.Prelude.{◌≡◌, ℕ, ◌<◌, ◌≤◌, Some, IfOk, vec_len, slice_get};
ghost use Rattle.asl_threads.specs.Runs.{fresh};
ghost use Rattle.asl_threads.specs.Closing.{run_view};
ghost use Rattle.asl_threads.specs.Answer.{opened_with};

use crate::seat::Seat;
use crate::shared::Shared;
use asl_run_input::Setup;
use std::alloc::{AllocError, Global};
use std::sync::Mutex;

/// A run that threads share: what it was opened with, and what lies in its lock. Contracts see of the latter what the lock's type says.
pub struct Run<L> {
    pub(crate) state: L,
    pub(crate) setup: Setup,
    pub(crate) label: u64,
    pub(crate) seats: usize,
}

/// A run in std's lock, which threads take in turn.
pub type SharedRun = Run<Mutex<Shared>>;

// Written out, so that a caller's proof sees one call and not the drop of each part.
impl<L: Drop> Drop for Run<L> {
    fn drop(self) {
        let Run {
            state: _state,
            setup: _setup,
            label: _label,
            seats: _seats,
        } = self;
    }
}

impl<L> Run<L> {
    /// Its lock, and what it was opened with.
    pub(crate) fn into_parts(self) -> (L, Setup, u64, usize)
        ensures lock { result.0 ≡ self.state }
        ensures opened { run_view result.1 result.2 result.3 ≡ opened_with self }
    {
        let Run {
            state,
            setup,
            label,
            seats,
        } = self;
        (state, setup, label, seats)
    }
}

/// The seats of these numbers from 0, from which no command was given. The error is that memory ran out.
fn fresh_seats(alloc: Global, label: u64, count: usize) -> Result<Vec<Seat>, AllocError>
    ensures count { IfOk result (λ v. vec_len v ≡ count) }
    ensures fresh { IfOk result (λ v. (k : ℕ) → k < count
        → slice_get v.items k ≡ Some (fresh label k)) }
{
    let mut seats = Vec::with_capacity(alloc, count)?;
    for number in 0..count {
        seats.push(Seat::new(alloc, label, number))?;
    }
    Ok(seats)
}

impl SharedRun {
    /// A run of a session before its first command, with so many seats, from 1 to 64, numbered from 0. The label tells runs apart: the
    /// seats of a run have it. The error is that memory ran out.
    pub fn open(
        alloc: Global,
        setup: Setup,
        seats: usize,
        label: u64,
    ) -> Result<(SharedRun, Vec<Seat>), AllocError>
        requires { (1 ≤ seats) × (seats ≤ 64) }
        ensures run { IfOk result (λ r. opened_with r.0 ≡ run_view setup label seats) }
        ensures count { IfOk result (λ r. vec_len r.1 ≡ seats) }
        ensures fresh { IfOk result (λ r. (k : ℕ) → k < seats
            → slice_get r.1.items k ≡ Some (fresh label k)) }
    {
        let fresh = fresh_seats(alloc, label, seats)?;
        let copy = setup.try_clone(alloc)?;
        let shared = Shared::open(alloc, setup, label)?;
        let run = Run {
            state: Mutex::new(shared),
            setup: copy,
            label,
            seats,
        };
        Ok((run, fresh))
    }

    /// The run's one lock. It knows no seat, so that no seat has a session of its own.
    pub fn state(&self) -> &Mutex<Shared> {
        &self.state
    }
}

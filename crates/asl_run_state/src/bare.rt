// Worlds without their histories.
ghost use Rattle.std.specs.Prelude.{◌≡◌, ◌≤◌, ◌++◌, ℕ, true, slice_index, IfOk, IfSome, OnOk};
ghost use Rattle.asl_run_state.specs.Bare.{bare, earliest};

use crate::world::World;
use asl_history::History;
use asl_run_branches::Earliest;
use asl_time::Moment;
use std::alloc::{AllocError, Global};

/// No state of a copy was invoked more often: 10^9 times.
const MOST: u32 = 1_000_000_000;

/// Whether no state was invoked too often.
fn are_few(counts: &[u32]) -> bool
    ensures { result ≡ true → (n : ℕ) → slice_index counts.now n ≤ 1_000_000_000 }
{
    for count in counts {
        if *count > MOST {
            return false;
        }
    }
    true
}

/// Whether two moments are the same, or there is none.
fn are_same_moments(a: Option<Moment>, b: Option<Moment>) -> bool
    ensures { result ≡ true → a ≡ b }
{
    match (a, b) {
        (None, None) => true,
        (Some(a), Some(b)) => a.millis() == b.millis(),
        _ => false,
    }
}

/// Whether two lists of counts are the same.
fn are_same_counts(a: &[u32], b: &[u32]) -> bool
    ensures { result ≡ true → a.now ≡ b.now }
{
    a == b
}

impl World {
    /// The same world without its history; none where a state was invoked more than 10^9 times. It shares frames of which no event was
    /// told. The error is that memory ran out.
    pub fn bare_copy(&self, alloc: Global) -> Result<Option<World>, AllocError>
        ensures { IfOk result (λ o. IfSome o (λ w. w ≡ bare self.now)) }
    {
        if !are_few(&self.counts) {
            return Ok(None);
        }
        let root = self.root.bare_copy(alloc)?;
        let counts = Vec::from_slice(alloc, &self.counts)?;
        let outcome = self.outcome.try_clone(alloc)?;
        Ok(Some(World {
            root,
            counts,
            history: History::new(alloc),
            last: self.last,
            deadline: self.deadline,
            outcome,
        }))
    }

    /// Whether the worlds are the same but for their histories, if this is true.
    pub fn is_alike(&self, other: &World) -> bool
        ensures { result ≡ true → bare self.now ≡ bare other.now }
    {
        if self.last.millis() != other.last.millis() {
            return false;
        }
        if !are_same_moments(self.deadline, other.deadline) {
            return false;
        }
        if !are_same_counts(&self.counts, &other.counts) {
            return false;
        }
        if self.outcome != other.outcome {
            return false;
        }
        self.root.is_alike(&other.root)
    }

    /// Appends each branch with the earliest moment at which it may step, in the order of their places. The error is that memory ran
    /// out.
    pub fn put_earliest(&self, out: &mut Vec<Earliest>) -> Result<(), AllocError>
        ensures { OnOk result (out.new.items
            ≡ out.old.items ++ earliest self.now.last self.now.branches) }
    {
        self.root.put_earliest(self.last, out)
    }
}

// Keeping a world, and coming back to it.
ghost use Rattle.std.specs.Prelude.{◌≡◌, ◌≤◌, length, take, IfOk};
ghost use Rattle.asl_run_state.specs.Checkpoints.{world_at, IsCheckpointOf};

use crate::checkpoint::Checkpoint;
use crate::world::World;
use asl_history::History;
use std::alloc::{AllocError, Global};

/// A history of events equal to the first so many of these. The error is that memory ran out.
fn beginning(alloc: Global, history: &History, count: usize) -> Result<History, AllocError>
    requires { count ≤ length history.now.events }
    ensures { IfOk result (λ h. h.events ≡ take count history.now.events) }
{
    let mut first = History::new(alloc);
    first.reserve(count)?;
    for event in &history.events()[..count] {
        let place = event.place.try_clone()?;
        let name = event.name.try_clone()?;
        let body = event.body.try_clone()?;
        first.append_linked(event.at, event.kind, place, name, body, event.previous);
    }
    Ok(first)
}

impl World {
    /// What is needed to come back to this world. It shares the frames under that of the root, and copies no event. The error is that
    /// memory ran out.
    pub fn checkpoint(&self, alloc: Global) -> Result<Checkpoint, AllocError>
        ensures { IfOk result (λ c. IsCheckpointOf c self.now) }
    {
        let root = self.root.try_clone(alloc)?;
        let counts = Vec::from_slice(alloc, self.counts.as_slice())?;
        let outcome = self.outcome.try_clone(alloc)?;
        Ok(Checkpoint {
            root,
            counts,
            told: self.history.len(),
            last: self.last,
            deadline: self.deadline,
            outcome,
        })
    }

    /// The world of a checkpoint, whose events are the first of this one's. The error is that memory ran out.
    pub fn rewound(&self, alloc: Global, checkpoint: &Checkpoint) -> Result<World, AllocError>
        requires { IsCheckpointOf checkpoint.now (world_at checkpoint.now self.now.events) }
        ensures { IfOk result (λ w. w ≡ world_at checkpoint.now self.now.events) }
    {
        let root = checkpoint.root.try_clone(alloc)?;
        let counts = Vec::from_slice(alloc, checkpoint.counts.as_slice())?;
        let outcome = checkpoint.outcome.try_clone(alloc)?;
        let history = beginning(alloc, &self.history, checkpoint.told)?;
        Ok(World {
            root,
            counts,
            history,
            last: checkpoint.last,
            deadline: checkpoint.deadline,
            outcome,
        })
    }
}

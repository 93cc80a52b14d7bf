// A frame with several owners.
ghost use Rattle.std.specs.Prelude.{◌≡◌, IfOk, OnOk, OnErr};
ghost use Rattle.asl_run_branches.specs.Trees.{nodes_of};
ghost use Rattle.asl_run_branches.specs.Changes.{change, nodes_after};

use crate::frame::Frame;
use crate::offspring::Offspring;
use asl_step::Record;
use asl_time::Moment;
use std::alloc::{AllocError, Global};
use std::marker::Model;
use std::sync::Arc;

/// A frame with several owners: the trees that share it. Contracts see it as that frame. What one of them changes stays as it was for
/// the others.
#[cycle(tree)]
#[derive(Drop)]
pub struct SharedFrame {
    shared: Arc<Frame>,
}

impl Model for SharedFrame {
    ghost use Rattle.std.specs.Prelude.{length, ◌*◌, ◌+◌};
    ghost use Rattle.std.specs.Arc.{arc_value};
    ghost use Rattle.std.proofs.Common.{arith};
    ghost use Rattle.asl_run_branches.specs.Trees.{Family};

    ghost Value = { Family };

    ghost use Rattle.std.specs.Coded.{codes};
    ghost use Rattle.asl_json.specs.private.Code.{coded_data};
    ghost use Rattle.asl_json.specs.contracts.value.Json as json;

    ghost coded = { Prim.hlevel (codes, coded_data, json.the_row.coded) };

    ghost view = { λ f. arc_value f.shared };

    ghost size = { λ v. 2 * length v.below + 1 };

    ghost size_decreases = { λ a h. omega arith };
}

impl SharedFrame {
    /// The frame, with one owner. The error is that memory ran out.
    pub(crate) fn new(alloc: Global, frame: Frame) -> Result<SharedFrame, AllocError>
        ensures { IfOk result (λ s. s ≡ frame) }
    {
        let shared = Arc::new(alloc, frame)?;
        Ok(SharedFrame { shared })
    }

    /// The frame.
    pub fn get(&self) -> &Frame
        ensures { result.now ≡ self.now }
    {
        &self.shared
    }

    /// One more owner of the same frame. It takes no memory. The error is that there are too many.
    pub fn try_clone(&self) -> Result<SharedFrame, AllocError>
        ensures { IfOk result (λ s. s ≡ self.now) }
    {
        let shared = Arc::try_clone(&self.shared)?;
        Ok(SharedFrame { shared })
    }

    /// This happens at the place, in the frame itself where it has no other owner, and else in an equal one in its place. What is
    /// refused, for want of memory, changes nothing.
    #[cycle(change)]
    pub(crate) fn change(
        &mut self,
        alloc: Global,
        place: &[u32],
        after: Record,
        told: Option<u64>,
        offspring: Offspring,
        now: Moment,
    ) -> Result<(), AllocError>
        ensures ok { OnOk result (nodes_of self.new
            ≡ nodes_after place.now (change after told offspring) (nodes_of self.old)) }
        ensures err { OnErr result (self.new ≡ self.old) }
    {
        match Arc::get_mut(&mut self.shared) {
            Some(frame) => frame.change(alloc, place, after, told, offspring, now),
            None => {
                let mut own = self.shared.try_clone(alloc)?;
                own.change(alloc, place, after, told, offspring, now)?;
                self.shared = Arc::new(alloc, own)?;
                Ok(())
            }
        }
    }
}

/// One more owner of each of these.
pub(crate) fn shared_by(
    alloc: Global,
    frames: &[SharedFrame],
) -> Result<Vec<SharedFrame>, AllocError>
    ensures { IfOk result (λ v. v.items ≡ frames.now) }
{
    let mut shared = Vec::with_capacity(alloc, frames.len())?;
    for frame in frames {
        shared.push(frame.try_clone()?)?;
    }
    Ok(shared)
}

// What a step does to the tree. It takes memory only where other trees share a part of it.
ghost use Rattle.std.specs.Prelude.{◌≡◌, ◌≤◌, ◌<◌, ◌+◌, ◌^◌, not, [], Some, OnOk, OnErr};
ghost use Rattle.asl_step.specs.Records.{is_done};
ghost use Rattle.asl_step.specs.declared.effect.Children.TheVariants.{Kept};
ghost use Rattle.asl_run_branches.specs.Trees.{branches_of, nodes_of, one_if};
ghost use Rattle.asl_run_branches.specs.Changes.{change, nodes_after, litter_of, marked};

use crate::frame::Frame;
use crate::offspring::Offspring;
use crate::resting::none_resting;
use crate::walks::split;
use asl_history::Place;
use asl_step::Record;
use asl_time::Moment;
use std::alloc::{AllocError, Global};

/// The latest event, where one is told.
fn marked(told: Option<u64>, before: u64) -> u64
    ensures { result ≡ marked told before }
{
    told.unwrap_or(before)
}

/// A count over children, one of which changes.
fn adjusted(count: usize, was: bool, is: bool) -> usize
    requires counted { one_if was ≤ count }
    requires few { count < 2 ^ 63 }
    ensures { result + one_if was ≡ count + one_if is }
{
    if was == is {
        count
    } else if was {
        count - 1
    } else {
        count + 1
    }
}

impl Frame {
    /// This happens at the place: what the branch does from now on, the id of the latest event that is told of it, and what becomes
    /// of the branches under it. The moment is the step's; it matters for speed alone. Frames on the way that other trees share are
    /// copied, each with one more owner of the frames under it. What is refused, for want of memory, changes nothing.
    pub fn apply(
        &mut self,
        alloc: Global,
        place: &Place,
        after: Record,
        told: Option<u64>,
        offspring: Offspring,
        now: Moment,
    ) -> Result<(), AllocError>
        ensures ok { OnOk result (nodes_of self.new
            ≡ nodes_after place.now (change after told offspring) (nodes_of self.old)) }
        ensures err { OnErr result (self.new ≡ self.old) }
    {
        self.change(alloc, place.numbers(), after, told, offspring, now)
    }

    /// An event of this id is told at its own place, and no branch changes.
    pub fn tell(&mut self, id: u64)
        ensures branches { branches_of self.new ≡ branches_of self.old }
        ensures nodes { nodes_of self.new
            ≡ nodes_after [] (change self.old.head.current (Some id) (litter_of [] Kept))
            (nodes_of self.old) }
    {
        self.at = id;
        self.under = id;
    }

    #[cycle(change)]
    pub(crate) fn change(
        &mut self,
        alloc: Global,
        place: &[u32],
        after: Record,
        told: Option<u64>,
        offspring: Offspring,
        now: Moment,
    ) -> Result<(), AllocError>
        ensures ok { OnOk result (nodes_of self.new
            ≡ nodes_after place.now (change after told offspring) (nodes_of self.old)) }
        ensures err { OnErr result (self.new ≡ self.old) }
    {
        let under = marked(told, self.under);
        let Some((number, deeper)) = split(place) else {
            self.held = after;
            self.at = marked(told, self.at);
            self.under = under;
            let Offspring {
                keeps,
                frames,
                undone,
                failed,
            } = offspring;
            if !keeps {
                self.children = frames;
                self.undone = undone;
                self.failed = failed;
                self.resting = none_resting();
            }
            return Ok(());
        };
        let number = number as usize;
        if number >= self.children.as_slice().len() {
            self.under = under;
            return Ok(());
        }
        let child = &mut self.children[number];
        let was_done = child.get().held().is_done();
        let was_failed = child.get().held().is_failed();
        child.change(alloc, deeper, after, told, offspring, now)?;
        let is_done = child.get().held().is_done();
        let is_failed = child.get().held().is_failed();
        self.under = under;
        self.undone = adjusted(self.undone, !was_done, !is_done);
        self.failed = adjusted(self.failed, was_failed, is_failed);
        let resting = self.resting.before(number);
        self.resting = resting.extended(&self.children, now);
        Ok(())
    }
}

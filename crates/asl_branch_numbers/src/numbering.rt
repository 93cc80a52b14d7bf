// The numbers of a world's branches, where it is known which ones they were before a step.
ghost use Rattle.std.specs.Prelude.{◌≡◌, ◌<◌, true, false, Some, length, slice_index, slice_get, option_map, IfOk, IfSome};
ghost use Rattle.asl_history.specs.Places.{is_prefix};
ghost use Rattle.asl_run_branches.specs.Branches.{record_at};
ghost use Rattle.asl_branch_numbers.specs.Numbers.{branch_at, branches_in, AreNumbers, IsBehind, IsKept, IsMore};

use crate::branches::Branches;
use asl_history::Place;
use asl_run_state::World;
use std::alloc::{AllocError, Global};

impl Branches {
    /// Whether the branch of a number is at this place.
    fn is_at(&self, number: usize, place: &Place) -> bool
        ensures { result ≡ true → option_map (λ b. b.place)
            (slice_get (branches_in self.now) number) ≡ Some place.now }
    {
        match self.list.get(number) {
            Some(one) => one.place == *place,
            None => false,
        }
    }

    /// Where, from there on, the number of the branch at a place stands among these, unless the place is that of a step or under it.
    fn kept(&self, numbers: &[usize], from: usize, stepped: &Place, place: &Place) -> Option<usize>
        ensures { IfSome result
            (IsKept (branches_in self.now) numbers.now stepped.now place.now) }
    {
        if stepped.is_prefix_of(place) {
            return None;
        }
        for index in from..numbers.len() {
            if self.is_at(numbers[index], place) {
                return Some(index);
            }
        }
        None
    }

    /// The number of the branch at a place of a world, if it has one that is found by what it is doing.
    fn number_in(&self, place: &Place, world: &World) -> Option<usize>
        ensures { IfSome result (λ n. slice_get (branches_in self.now) n
            ≡ branch_at place.now world.now.branches) }
    {
        match world.frame_at(place) {
            Some(frame) => self.number_of(place, frame.held()),
            None => None,
        }
    }

    /// The number of the branch at a place of a world behind a step: the one that it had before, where it stands there, or that of what
    /// it is doing now.
    fn number_behind(
        &self,
        numbers: &[usize],
        kept: Option<usize>,
        before: &World,
        stepped: &Place,
        place: &Place,
        world: &World,
    ) -> Option<usize>
        requires { IfSome kept
            (IsKept (branches_in self.now) numbers.now stepped.now place.now) }
        ensures { IfSome result (λ n.
            (0 < length numbers.now
            → AreNumbers (branches_in self.now) numbers.now before.now.branches)
            → IsBehind stepped.now before.now world.now
            → slice_get (branches_in self.now) n ≡ branch_at place.now world.now.branches) }
    {
        before.is_in_order();
        match kept {
            Some(index) => Some(numbers[index]),
            None => self.number_in(place, world),
        }
    }

    /// The numbers of the branches of a world behind a step, by those before it, if these are known; none where one of them has no
    /// number. Only what the branch that stepped and those under it are doing is looked at. The error is that memory ran out.
    pub fn numbers_behind(
        &self,
        alloc: Global,
        numbers: &[usize],
        before: &World,
        stepped: &Place,
        world: &World,
    ) -> Result<Option<Vec<usize>>, AllocError>
        ensures { IfOk result (λ o. IfSome o (λ v.
            (0 < length numbers.now
            → AreNumbers (branches_in self.now) numbers.now before.now.branches)
            → IsBehind stepped.now before.now world.now
            → AreNumbers (branches_in self.now) v.items world.now.branches)) }
    {
        world.is_in_order();
        let mut turns = Vec::new(alloc);
        world.put_earliest(&mut turns)?;
        let mut found = Vec::new(alloc);
        let mut from = 0;
        for turn in &turns {
            let kept = self.kept(numbers, from, stepped, &turn.place);
            let Some(number) = self.number_behind(
                numbers,
                kept,
                before,
                stepped,
                &turn.place,
                world,
            ) else {
                return Ok(None);
            };
            found.push(number)?;
            from = behind(kept, from);
        }
        Ok(Some(found))
    }

    /// The branch at a place of a world has a number from now on, if it is there. The error is that memory ran out.
    fn learn_one(&mut self, alloc: Global, place: &Place, world: &World) -> Result<(), AllocError>
        ensures { IsMore (branches_in self.old) (branches_in self.new) }
    {
        match world.frame_at(place) {
            Some(frame) => self.put(alloc, place, frame.held()),
            None => Ok(()),
        }
    }

    /// The branches of a world that are at a place or under it have numbers from now on. The error is that memory ran out.
    pub fn learn(&mut self, alloc: Global, stepped: &Place, world: &World) -> Result<(), AllocError>
        ensures { IsMore (branches_in self.old) (branches_in self.new) }
    {
        let mut turns = Vec::new(alloc);
        world.put_earliest(&mut turns)?;
        for index in 0..turns.len() {
            let place = &turns[index].place;
            if stepped.is_prefix_of(place) {
                self.learn_one(alloc, place, world)?;
            }
        }
        Ok(())
    }
}

/// Where to look on, behind what was found.
fn behind(kept: Option<usize>, from: usize) -> usize {
    match kept {
        Some(index) => index.saturating_add(1),
        None => from,
    }
}

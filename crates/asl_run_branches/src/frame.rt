// A running branch with those under it.
ghost use Rattle.std.specs.Prelude.{◌≡◌, ◌∷◌, [], map, not, ◌&&◌, nat_lt, IfOk};
ghost use Rattle.asl_run_branches.specs.Branches.{children_at, is_busy};
ghost use Rattle.asl_run_branches.specs.Trees.{branches_of, nodes_of, below_of};

use crate::resting::{Resting, none_resting};
use crate::shared::{SharedFrame, shared_by};
use asl_history::Place;
use asl_step::Record;
use std::alloc::{AllocError, Global};
use std::marker::Model;

/// A running branch, with the frames of the branches right under it, which other trees may share. Contracts see what it holds and the
/// branches under it, in the order of their places.
#[cycle(tree)]
#[derive(Drop)]
pub struct Frame {
    pub(crate) place: Place,
    pub(crate) held: Record,
    /// The id of the latest event at this place.
    pub(crate) at: u64,
    /// The id of the latest event at this place or under it.
    pub(crate) under: u64,
    pub(crate) children: Vec<SharedFrame>,
    /// So many children aren't done.
    pub(crate) undone: usize,
    /// So many children have failed.
    pub(crate) failed: usize,
    /// The children at rest.
    pub(crate) resting: Resting,
}

impl Model for Frame {
    ghost use Rattle.std.specs.Prelude.{List, length, ◌∷◌, ◌+◌, ◌*◌};
    ghost use Rattle.std.proofs.Common.{arith};
    ghost use Rattle.asl_run_branches.specs.Trees.{Held, Family, below_of, most-below};
    ghost use Rattle.asl_run_branches.specs.private.Resting.{AreKept};

    ghost Value = { Family };

    ghost use Rattle.std.specs.Coded.{codes};
    ghost use Rattle.asl_json.specs.private.Code.{coded_data};
    ghost use Rattle.asl_json.specs.contracts.value.Json as json;

    ghost coded = { Prim.hlevel (codes, coded_data, json.the_row.coded) };

    ghost view = { λ f. record { head = record { place = f.place; current = f.held; at = f.at; under = f.under }; below = below_of 0 f.children.items } };

    ghost invariant = { λ f. AreKept f.undone f.failed f.resting f.children.items };

    ghost size = { λ v. 2 * length v.below };

    ghost size_decreases = { λ a h. omega (arith, most-below 0 a.children.items) };
}

impl Frame {
    /// The branch that an execution begins with, of which the event of this id tells.
    pub fn root(alloc: Global, current: Record, told: u64) -> Frame
        ensures { nodes_of result
            ≡ record {
              place = [];
              held = record
                  { place = []; current = current; at = told; under = told };
            } ∷ [] }
    {
        Frame {
            place: Place::root(),
            held: current,
            at: told,
            under: told,
            children: Vec::new(alloc),
            undone: 0,
            failed: 0,
            resting: none_resting(),
        }
    }

    /// Its place.
    pub fn place(&self) -> &Place
        ensures { result.now ≡ self.now.head.place }
    {
        &self.place
    }

    /// What its branch is doing.
    pub fn held(&self) -> &Record
        ensures { result.now ≡ self.now.head.current }
    {
        &self.held
    }

    /// The frames of the branches right under it, in order.
    pub fn children(&self) -> &[SharedFrame]
        ensures { self.now.below ≡ below_of 0 result.now }
    {
        &self.children
    }

    /// What the branches right under it are doing, in order. The error is that memory ran out.
    pub fn child_records(&self, alloc: Global) -> Result<Vec<&Record>, AllocError>
        ensures { IfOk result (λ v. map (λ r. r.now) v.items
            ≡ children_at [] (branches_of self.now)) }
    {
        records_of(alloc, self.children())
    }

    /// An equal frame, which shares the frames under it: each gets one more owner. The error is that memory ran out.
    pub fn try_clone(&self, alloc: Global) -> Result<Frame, AllocError>
        ensures { IfOk result (λ f. f ≡ self.now) }
    {
        let place = self.place.try_clone()?;
        let held = self.held.try_clone(alloc)?;
        let children = shared_by(alloc, &self.children)?;
        Ok(Frame {
            place,
            held,
            at: self.at,
            under: self.under,
            children,
            undone: self.undone,
            failed: self.failed,
            resting: self.resting,
        })
    }

    /// Whether it waits: no child has failed, and some child isn't done.
    pub fn is_busy(&self) -> bool
        ensures { result ≡ is_busy (children_at [] (branches_of self.now)) }
    {
        is_waiting(self.failed, self.undone)
    }
}

/// What these frames' branches are doing.
fn records_of(alloc: Global, frames: &[SharedFrame]) -> Result<Vec<&Record>, AllocError>
    ensures { IfOk result (λ v. map (λ r. r.now) v.items ≡ map (λ f. f.head.current) frames.now) }
{
    let mut records = Vec::with_capacity(alloc, frames.len())?;
    for frame in frames {
        records.push(frame.get().held())?;
    }
    Ok(records)
}

/// Whether no child has failed, and some child isn't done.
fn is_waiting(failed: usize, undone: usize) -> bool
    ensures { result ≡ (not (nat_lt 0 failed) && nat_lt 0 undone) }
{
    failed == 0 && undone > 0
}

// The new children of a branch.
ghost use Rattle.std.specs.Prelude.{◌≡◌, ◌≤◌, ◌<◌, ◌^◌, ◌∷◌, true, false, [], length, IfOk};
ghost use Rattle.asl_step.specs.Bounds.{AreFew};
ghost use Rattle.asl_run_branches.specs.Changes.{newborns, litter_of};
ghost use Rattle.asl_run_branches.specs.Trees.{count_undone, count_failed};

use crate::frame::Frame;
use crate::resting::none_resting;
use crate::shared::SharedFrame;
use asl_history::Place;
use asl_step::{Children, Record, Records};
use std::alloc::{AllocError, Global};
use std::marker::Model;

/// What becomes of the branches under a branch that steps, made of all that takes memory: they stay, or these take their place.
#[derive(Drop)]
pub struct Offspring {
    pub(crate) keeps: bool,
    pub(crate) frames: Vec<SharedFrame>,
    pub(crate) undone: usize,
    pub(crate) failed: usize,
}

impl Model for Offspring {
    ghost use Rattle.asl_run_branches.specs.Changes.{Litter};
    ghost use Rattle.asl_run_branches.specs.Trees.{IsLitter};

    ghost Value = { Litter };

    ghost use Rattle.std.specs.Coded.{codes};
    ghost use Rattle.asl_json.specs.private.Code.{coded_data};
    ghost use Rattle.asl_json.specs.contracts.value.Json as json;

    ghost coded = { Prim.hlevel (codes, coded_data, json.the_row.coded) };

    ghost view = { λ o. record { keeps = o.keeps; kids = o.frames.items } };

    ghost invariant = { λ o. IsLitter o.keeps o.undone o.failed o.frames.items };
}

/// One more child, numbered behind the others.
fn newborn(
    alloc: Global,
    place: &Place,
    number: u32,
    current: Record,
) -> Result<SharedFrame, AllocError>
    requires { number < 10 ^ 9 }
    ensures { IfOk result (λ f. f ∷ [] ≡ newborns place.now number (current ∷ [])) }
{
    let frame = Frame {
        place: place.child(alloc, number)?,
        held: current,
        at: 0,
        under: 0,
        children: Vec::new(alloc),
        undone: 0,
        failed: 0,
        resting: none_resting(),
    };
    SharedFrame::new(alloc, frame)
}

/// New children under a place, numbered in order.
fn newborns(alloc: Global, place: &Place, records: Records) -> Result<Vec<SharedFrame>, AllocError>
    requires { length records ≤ 10 ^ 9 }
    ensures { IfOk result (λ fs. fs.items ≡ newborns place.now 0 records) }
{
    let mut frames = Vec::with_capacity(alloc, records.list.len())?;
    let mut number = 0u32;
    for current in records.list {
        frames.push(newborn(alloc, place, number, current)?)?;
        number += 1;
    }
    Ok(frames)
}

/// How many of these aren't done.
pub(crate) fn undone_of(frames: &[SharedFrame]) -> usize
    ensures { result ≡ count_undone frames.now }
{
    let mut undone = 0;
    for frame in frames {
        if !frame.get().held().is_done() {
            undone += 1;
        }
    }
    undone
}

/// How many of these have failed.
pub(crate) fn failed_of(frames: &[SharedFrame]) -> usize
    ensures { result ≡ count_failed frames.now }
{
    let mut failed = 0;
    for frame in frames {
        if frame.get().held().is_failed() {
            failed += 1;
        }
    }
    failed
}

/// The branches under it stay.
fn kept(alloc: Global) -> Offspring
    ensures keeps { result.keeps ≡ true }
    ensures kids { result.kids ≡ [] }
{
    Offspring {
        keeps: true,
        frames: Vec::new(alloc),
        undone: 0,
        failed: 0,
    }
}

/// These take the place of the branches under it.
fn replaced(frames: Vec<SharedFrame>) -> Offspring
    ensures keeps { result.keeps ≡ false }
    ensures kids { result.kids ≡ frames.items }
{
    let undone = undone_of(&frames);
    let failed = failed_of(&frames);
    Offspring {
        keeps: false,
        frames,
        undone,
        failed,
    }
}

/// What becomes of the branches under the one at a place. The error is that memory ran out.
pub fn make_offspring(
    alloc: Global,
    place: &Place,
    children: Children,
) -> Result<Offspring, AllocError>
    requires { AreFew children }
    ensures { IfOk result (λ o. o ≡ litter_of place.now children) }
{
    match children {
        Children::Kept => Ok(kept(alloc)),
        Children::Removed => Ok(replaced(Vec::new(alloc))),
        Children::Forked(records) => Ok(replaced(newborns(alloc, place, records)?)),
    }
}

// Finding many values in one walk.
ghost use Rattle.std.specs.Prelude.{◌≡◌, ◌++◌, ℕ, List, IfOk, OnOk, map};
ghost use Rattle.asl_json_data.specs.Data.{Data};
ghost use Rattle.asl_json_spans.specs.Standing.{IsOutline, AllFind};
ghost use Rattle.asl_json_spans.specs.private.Marks.{parts_of, behind_some, found};
ghost use Rattle.asl_json_spans.specs.private.Trails.{seen, trail, IsTrail};

use crate::finding::{Outline, behind_some, first_of, parts_of};
use crate::span::Node;
use std::alloc::{AllocError, Global};

/// A step of the way to a place: its number, and the nodes of the value that it leads to and all behind them.
#[derive(Clone, Copy)]
pub(crate) struct Reached<'a> {
    number: usize,
    rest: &'a [Node],
}

/// The nodes of the part of this number, and all behind them. Where a part before it was reached, the walk goes on from there.
fn step<'a>(nodes: &'a [Node], before: &[Reached<'a>], number: usize) -> &'a [Node]
    requires { IsTrail nodes.now (map seen before.now) }
    ensures { result.now ≡ behind_some number (parts_of nodes.now) }
{
    match before {
        [first, ..] if first.number <= number => behind_some(first.rest, number - first.number),
        _ => behind_some(parts_of(nodes), number),
    }
}

/// What was reached behind a step of this number, where that was the first.
fn behind<'a, 'b>(before: &'b [Reached<'a>], number: usize) -> &'b [Reached<'a>]
    ensures { (ns : List Node) → IsTrail ns (map seen before.now)
        → IsTrail (behind_some number (parts_of ns)) (map seen result.now) }
{
    match before {
        [first, rest @ ..] if first.number == number => rest,
        _ => &[],
    }
}

/// The nodes of the value at a place, and all behind them. It tells the way there, and goes on from the way to a place before.
fn reach<'a>(
    nodes: &'a [Node],
    before: &[Reached<'a>],
    place: &[usize],
    way: &mut Vec<Reached<'a>>,
) -> Result<&'a [Node], AllocError>
    requires { IsTrail nodes.now (map seen before.now) }
    ensures found { IfOk result (λ rest. rest.now ≡ found nodes.now place.now) }
    ensures way { OnOk result (map seen way.new.items
        ≡ map seen way.old.items ++ trail nodes.now place.now) }
{
    match place {
        [] => Ok(nodes),
        [number, inner @ ..] => {
            let rest = step(nodes, before, *number);
            way.push(Reached {
                number: *number,
                rest,
            })?;
            reach(rest, behind(before, *number), inner, way)
        }
    }
}

impl Outline {
    /// Where the values stand at these places, as `find` has it of each. Places in document order cost one walk over the nodes in all. The
    /// error is that memory ran out.
    pub fn find_all(
        &self,
        alloc: Global,
        places: &[&[usize]],
    ) -> Result<Vec<Option<Node>>, AllocError>
        ensures { IfOk result (λ ns. (b : List ℕ) (d : Data) → IsOutline b d self.now
            → AllFind b d (map (λ p. p.now) places.now) ns.items) }
    {
        let mut all = Vec::with_capacity(alloc, places.len())?;
        let mut before = Vec::new(alloc);
        for place in places {
            let mut way = Vec::with_capacity(alloc, place.len())?;
            let rest = reach(&self.nodes, &before, place, &mut way)?;
            all.push(first_of(rest))?;
            before = way;
        }
        Ok(all)
    }
}

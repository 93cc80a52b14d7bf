// Finding where a value stands.
ghost use Rattle.std.specs.Prelude.{◌≡◌, ℕ, List, [], Some, drop};
ghost use Rattle.asl_json_data.specs.Data.{Data};
ghost use Rattle.asl_json_spans.specs.Places.{place as place_of, place_at};
ghost use Rattle.asl_json_spans.specs.Standing.{IsOutline, Finds};
ghost use Rattle.asl_json_spans.specs.private.Marks.{parts_of, behind_first, behind_some, found, first_of};

use crate::span::Node;
use std::marker::Model;

/// Where the values of a text stand. Contracts see it as the list of the values' nodes, in document order.
#[derive(Drop)]
pub struct Outline {
    pub(crate) nodes: Vec<Node>,
}

impl Model for Outline {
    ghost use Rattle.std.specs.Prelude.{List};
    ghost use Rattle.asl_json_spans.specs.declared.span.Node.{Node};

    ghost Value = { List Node };

    ghost view = { λ a. a.nodes.items };
}

/// The nodes behind so many.
fn skip(nodes: &[Node], count: usize) -> &[Node]
    ensures { result.now ≡ drop count nodes.now }
{
    let end = count.min(nodes.len());
    &nodes[end..]
}

/// The nodes of the values in the first one.
pub(crate) fn parts_of(nodes: &[Node]) -> &[Node]
    ensures { result.now ≡ parts_of nodes.now }
{
    let Some(first) = nodes.first() else {
        return nodes;
    };
    let rest = skip(nodes, 1);
    let end = first.size.saturating_sub(1).min(rest.len());
    &rest[..end]
}

/// The nodes behind the first one and the values in it.
fn behind_first(nodes: &[Node]) -> &[Node]
    ensures { result.now ≡ behind_first nodes.now }
{
    let Some(first) = nodes.first() else {
        return nodes;
    };
    skip(skip(nodes, 1), first.size.saturating_sub(1))
}

/// The nodes behind so many values and those in them.
pub(crate) fn behind_some(nodes: &[Node], count: usize) -> &[Node]
    ensures { result.now ≡ behind_some count nodes.now }
{
    let mut rest = nodes;
    let mut left = count;
    while left > 0 {
        rest = behind_first(rest);
        left -= 1;
    }
    rest
}

/// The nodes of the value at a place, and all behind them.
fn found<'a>(nodes: &'a [Node], place: &[usize]) -> &'a [Node]
    ensures { result.now ≡ found nodes.now place.now }
{
    let mut rest = nodes;
    for number in place {
        rest = behind_some(parts_of(rest), *number);
    }
    rest
}

pub(crate) fn first_of(nodes: &[Node]) -> Option<Node>
    ensures { result ≡ first_of nodes.now }
{
    match nodes {
        [] => None,
        [first, ..] => Some(*first),
    }
}

impl Outline {
    /// Where the value stands at a place: by the numbers of items and members, from 0, from the outermost value in. `None` where no
    /// value is there.
    pub fn find(&self, place: &[usize]) -> Option<Node>
        ensures { (b : List ℕ) (d : Data) → IsOutline b d self.now
            → Finds b (place_at (Some (place_of [] d)) place.now) result }
    {
        first_of(found(&self.nodes, place))
    }
}

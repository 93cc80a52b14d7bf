// Where the names of states stand in a document.
ghost use Rattle.std.specs.Prelude.{◌≡◌, ◌++◌, ℕ, List, IfOk, OnOk, map, option_map};
ghost use Rattle.asl_json.specs.View.{data_of};
ghost use Rattle.asl_json_data.specs.Data.{Data};
ghost use Rattle.asl_json_data.specs.Grammar.{IsText};
ghost use Rattle.asl_json_read.specs.Reading.{value_read};
ghost use Rattle.asl_json_spans.specs.Standing.{IsOutline, AllFind};
ghost use Rattle.asl_lsp_features.specs.Spots.{span_by, front, behind, spots, AreSpots, AreSpotsIn, is_in, at_offset, is_sought, is_of, span_where, spans_of};

use crate::reading::value_of;
use asl_json::Json;
use asl_json_spans::{Node, Outline, Span, outline};
use asl_state_names::{Mention, names_in};
use std::alloc::{AllocError, Global};

/// A name of a state, with its stretch of the text, quotes included.
#[derive(Drop)]
pub(crate) struct Spot {
    pub(crate) mention: Mention,
    pub(crate) span: Span,
}

/// Which names of a state are sought.
#[derive(Clone, Copy, Debug, PartialEq, Eq)]
pub enum Sought {
    /// The key that declares it.
    Declaration,
    /// The texts that refer to it.
    References,
    /// Both.
    Every,
}

/// The key or the value, with its quotes.
fn span_by(is_key: bool, node: Option<Node>) -> Span
    ensures { result ≡ span_by is_key node }
{
    let Some(node) = node else {
        return Span { begin: 0, end: 0 };
    };
    if is_key { node.key } else { node.value }
}

fn places_of<'a>(alloc: Global, names: &'a [Mention]) -> Result<Vec<&'a [usize]>, AllocError>
    ensures { IfOk result (λ ps. map (λ p. p.now) ps.items ≡ map (λ m. m.place) names.now) }
{
    let mut places = Vec::with_capacity(alloc, names.len())?;
    for name in names {
        places.push(name.place.as_slice())?;
    }
    Ok(places)
}

fn front(nodes: &[Option<Node>]) -> Option<Node>
    ensures { result ≡ front nodes.now }
{
    match nodes {
        [] => None,
        [first, ..] => *first,
    }
}

fn behind(nodes: &[Option<Node>]) -> &[Option<Node>]
    ensures { result.now ≡ behind nodes.now }
{
    match nodes {
        [] => nodes,
        [_, rest @ ..] => rest,
    }
}

/// The names with their stretches, by the nodes at their places.
fn spots(
    alloc: Global,
    names: Vec<Mention>,
    nodes: &[Option<Node>],
) -> Result<Vec<Spot>, AllocError>
    ensures { IfOk result (λ ss. ss.items ≡ spots names.items nodes.now) }
{
    let mut all = Vec::with_capacity(alloc, names.len())?;
    let mut rest = nodes;
    for mention in names {
        let span = span_by(mention.is_key, front(rest));
        all.push(Spot { mention, span })?;
        rest = behind(rest);
    }
    Ok(all)
}

/// What stands at the places of these names.
fn nodes_of(
    alloc: Global,
    outline: &Outline,
    names: &[Mention],
) -> Result<Vec<Option<Node>>, AllocError>
    ensures { IfOk result (λ ns. (b : List ℕ) (d : Data) → IsOutline b d outline.now
        → AllFind b d (map (λ m. m.place) names.now) ns.items) }
{
    let places = places_of(alloc, names)?;
    let nodes = outline.find_all(alloc, &places)?;
    Ok(nodes)
}

/// The names of states in a text of this value.
fn spots_of(alloc: Global, text: &str, value: &Json) -> Result<Vec<Spot>, AllocError>
    ensures { IfOk result (λ ss. IsText text.now (data_of value.now)
        → AreSpots text.now (data_of value.now) ss.items) }
{
    let names = names_in(alloc, value)?;
    let outline = outline(alloc, text.as_bytes(), value)?;
    let nodes = nodes_of(alloc, &outline, &names)?;
    let all = spots(alloc, names, &nodes)?;
    Ok(all)
}

/// The names of states in a text, where it spells a value. The error is that memory ran out.
pub(crate) fn spots_in(alloc: Global, text: &str) -> Result<Option<Vec<Spot>>, AllocError>
    ensures { IfOk result (λ o. AreSpotsIn text.now (value_read text.now)
        (option_map (λ ss. ss.items) o)) }
{
    let Some(value) = value_of(alloc, text)? else {
        return Ok(None);
    };
    let all = spots_of(alloc, text, &value)?;
    Ok(Some(all))
}

/// Whether an offset is in a stretch, or at one of its ends.
fn is_in(offset: usize, span: Span) -> bool
    ensures { result ≡ is_in offset span }
{
    span.begin <= offset && offset <= span.end
}

/// The name that an offset is in.
pub(crate) fn at_offset(offset: usize, spots: &[Spot]) -> Option<&Spot>
    ensures { option_map (λ s. s.now) result ≡ at_offset offset spots.now }
{
    for spot in spots {
        if is_in(offset, spot.span) {
            return Some(spot);
        }
    }
    None
}

fn is_sought(sought: Sought, is_key: bool) -> bool
    ensures { result ≡ is_sought sought is_key }
{
    match sought {
        Sought::Declaration => is_key,
        Sought::References => !is_key,
        Sought::Every => true,
    }
}

/// Whether it is one of those that are sought of the state that is named.
fn is_of(sought: Sought, named: &Mention, spot: &Spot) -> bool
    ensures { result ≡ is_of sought named.now spot.now }
{
    named.is_same_state(&spot.mention) && is_sought(sought, spot.mention.is_key)
}

/// Adds its stretch, where it is one of those.
fn add_span(
    spans: &mut Vec<Span>,
    sought: Sought,
    named: &Mention,
    spot: &Spot,
) -> Result<(), AllocError>
    ensures { OnOk result (spans.new.items
        ≡ spans.old.items ++ span_where (is_of sought named.now spot.now) spot.now) }
{
    if is_of(sought, named, spot) {
        spans.push(spot.span)?;
    }
    Ok(())
}

/// The stretches of those that are sought of the state that is named, in document order. The error is that memory ran out.
pub(crate) fn spans_of(
    alloc: Global,
    sought: Sought,
    named: &Mention,
    spots: &[Spot],
) -> Result<Vec<Span>, AllocError>
    ensures { IfOk result (λ ss. ss.items ≡ spans_of sought named.now spots.now) }
{
    let mut spans = Vec::new(alloc);
    for spot in spots {
        add_span(&mut spans, sought, named, spot)?;
    }
    Ok(spans)
}

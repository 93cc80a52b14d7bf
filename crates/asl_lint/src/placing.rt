// Where findings stand in their text.
ghost use Rattle.std.specs.Prelude.{◌≡◌, ◌≤◌, ◌∷◌, [], ℕ, List, length, map, take, IfOk};
ghost use Rattle.std.specs.List.{All};
ghost use Rattle.asl_json_data.specs.Data.{Data};
ghost use Rattle.asl_json_data.specs.Grammar.{IsText};
ghost use Rattle.asl_json.specs.View.{data_of};
ghost use Rattle.asl_json_spans.specs.Position.{IsPosition};
ghost use Rattle.asl_json_spans.specs.Standing.{IsOutline, AllFind};
ghost use Rattle.asl_lint.specs.Findings.{part_of, pointed};
ghost use Rattle.asl_lint.specs.Told.{has_some};
ghost use Rattle.asl_lint.specs.Places.{IsAt, end_of, span_by, AllPoint, ArePlaced, ruled};
ghost use Rattle.asl_lint.specs.private.Founds.{noted, spanned, front, behind, with_nodes};

use crate::finding::{Finding, Found, said};
use crate::part::{Part, part_of};
use crate::rule::Rule;
use asl_json::Json;
use asl_json_spans::{Node, Outline, Position, Span, outline};
use std::alloc::{AllocError, Global};

/// A finding whose stretch of the text is known.
#[derive(Drop)]
struct Spanned {
    span: Span,
    found: Found,
}

/// The last byte of a value.
fn end_of(node: Node) -> Span
    ensures { result ≡ end_of node }
{
    Span {
        begin: node.value.end.saturating_sub(1),
        end: node.value.end,
    }
}

/// The place of the value at which a finding points: of a missing member that of its object.
fn pointed(found: &Found) -> &[usize]
    ensures { result.now ≡ pointed (noted found.now) }
{
    let place = found.place.as_slice();
    match part_of(found.rule) {
        Part::Key | Part::Value => place,
        Part::End => &place[..place.len().saturating_sub(1)],
    }
}

/// The part of a value that a finding of this rule points at.
fn span_by(rule: Rule, node: Option<Node>) -> Span
    ensures { result ≡ span_by (part_of rule) node }
{
    let Some(node) = node else {
        return Span { begin: 0, end: 0 };
    };
    match part_of(rule) {
        Part::Key => node.key,
        Part::Value => node.value,
        Part::End => end_of(node),
    }
}

/// The places of the values at which findings point.
fn all_pointed<'a>(alloc: Global, found: &'a [Found]) -> Result<Vec<&'a [usize]>, AllocError>
    ensures { IfOk result (λ ps. map (λ p. p.now) ps.items
        ≡ map (λ f. pointed (noted f)) found.now) }
{
    let mut places = Vec::with_capacity(alloc, found.len())?;
    for found in found {
        places.push(pointed(found))?;
    }
    Ok(places)
}

fn front(nodes: &[Option<Node>]) -> Option<Node>
    ensures { result ≡ front nodes.now }
{
    match nodes {
        [] => None,
        [first, ..] => *first,
    }
}

fn behind(nodes: &[Option<Node>]) -> &[Option<Node>]
    ensures { result.now ≡ behind nodes.now }
{
    match nodes {
        [] => nodes,
        [_, rest @ ..] => rest,
    }
}

/// The findings with the stretches that they point at, of the nodes of their values.
fn with_nodes(
    alloc: Global,
    found: Vec<Found>,
    nodes: &[Option<Node>],
) -> Result<Vec<Spanned>, AllocError>
    ensures { IfOk result (λ all. map spanned all.items ≡ with_nodes found.items nodes.now) }
{
    let mut all = Vec::with_capacity(alloc, found.len())?;
    let mut rest = nodes;
    for found in found {
        let span = span_by(found.rule, front(rest));
        all.push(Spanned { span, found })?;
        rest = behind(rest);
    }
    Ok(all)
}

/// The nodes of the values at which findings point.
fn nodes_of(
    alloc: Global,
    outline: &Outline,
    found: &[Found],
) -> Result<Vec<Option<Node>>, AllocError>
    ensures { IfOk result (λ ns. (b : List ℕ) (d : Data) → IsOutline b d outline.now
        → AllFind b d (map (λ f. pointed (noted f)) found.now) ns.items) }
{
    let places = all_pointed(alloc, found)?;
    let nodes = outline.find_all(alloc, &places)?;
    Ok(nodes)
}

/// The findings with the stretches of the text that they point at.
fn with_spans(
    alloc: Global,
    outline: &Outline,
    found: Vec<Found>,
) -> Result<Vec<Spanned>, AllocError>
    ensures { IfOk result (λ all. (b : List ℕ) (d : Data) → IsOutline b d outline.now
        → AllPoint b d (map noted found.items) (map spanned all.items)) }
{
    let nodes = nodes_of(alloc, outline, &found)?;
    let all = with_nodes(alloc, found, &nodes)?;
    Ok(all)
}

/// The line and the column of a byte, from those of another.
fn reached(text: &[u8], here: Position, to: usize) -> Position
    requires { IsPosition (take here.at text.now) here.lines here.characters }
    ensures at { to ≤ length text.now → result.at ≡ to }
    ensures position { IsPosition (take result.at text.now) result.lines result.characters }
{
    if to < here.at {
        return position_of(text, to);
    }
    here.forward(text, to)
}

/// The line and the column of a byte.
fn position_of(text: &[u8], to: usize) -> Position
    ensures at { to ≤ length text.now → result.at ≡ to }
    ensures position { IsPosition (take result.at text.now) result.lines result.characters }
{
    Position::start().forward(text, to)
}

/// The findings at their lines and columns, in one pass over the text where they stand in its order.
fn positioned(alloc: Global, text: &[u8], all: Vec<Spanned>) -> Result<Vec<Finding>, AllocError>
    ensures at { IfOk result (λ fs. All (IsAt text.now) fs.items) }
    ensures same { IfOk result (λ fs. map ruled fs.items ≡ map spanned all.items) }
{
    let mut findings = Vec::with_capacity(alloc, all.len())?;
    let mut here = Position::start();
    for spanned in all {
        let Spanned { span, found } = spanned;
        here = reached(text, here, span.begin);
        findings.push(Finding {
            rule: found.rule,
            place: found.place,
            span,
            position: here,
            message: found.message,
        })?;
    }
    Ok(findings)
}

fn has_some(found: &[Found]) -> bool
    ensures { result ≡ has_some found.now }
{
    match found {
        [] => false,
        _ => true,
    }
}

/// Places findings in the text of this value, and orders them by their places. Those at one place keep their order. The error is that memory ran
/// out.
#[tactic(auto, using(crate::proofs::Sorting::none_placed))]
pub fn placed(
    alloc: Global,
    text: &[u8],
    value: &Json,
    found: Vec<Found>,
) -> Result<Vec<Finding>, AllocError>
    ensures at { IfOk result (λ fs. All (IsAt text.now) fs.items) }
    ensures placed { IfOk result (λ fs. IsText text.now (data_of value.now)
        → ArePlaced text.now (data_of value.now) (map noted found.items) (map ruled fs.items)) }
{
    if !has_some(&found) {
        return Ok(Vec::new(alloc));
    }
    let outline = outline(alloc, text, value)?;
    let mut all = with_spans(alloc, &outline, found)?;
    all.sort_by_key(|spanned| spanned.span.begin)?;
    let findings = positioned(alloc, text, all)?;
    Ok(findings)
}

/// The one finding of a text, at a stretch of it. The error is that memory ran out.
#[tactic(auto, unfolding(crate::specs::Told::is_told))]
pub fn alone(
    alloc: Global,
    text: &[u8],
    rule: Rule,
    span: Span,
    message: String,
) -> Result<Vec<Finding>, AllocError>
    ensures at { IfOk result (λ fs. All (IsAt text.now) fs.items) }
    ensures only { IfOk result (λ fs. map ruled fs.items ≡ (rule, span) ∷ []) }
    ensures rule { IfOk result (λ fs. map (λ f. f.rule) fs.items ≡ rule ∷ []) }
{
    let mut findings = Vec::new(alloc);
    findings.push(Finding {
        rule,
        place: Vec::new(alloc),
        span,
        position: position_of(text, span.begin),
        message: said(rule, message)?,
    })?;
    Ok(findings)
}

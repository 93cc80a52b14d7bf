// Another name for a state.
ghost use Rattle.std.specs.Prelude.{◌≡◌, IfOk, Some, map, option_map, string_bytes};
ghost use Rattle.asl_json.specs.View.{data_of, items_of};
ghost use Rattle.asl_json_data.specs.Compact.{quoted as quoted_text};
ghost use Rattle.asl_lsp_features.specs.Renaming.{prepared_of, prepared_among, IsPrepared, is_name, is_taken, workspace_edit, outcome_of, renamed_to, renamed_among, IsRenamed};
ghost use Rattle.asl_lsp_features.specs.Structures.{text_edit};

use crate::object::{told, with};
use crate::spot::{Sought, Spot, at_offset, spans_of, spots_in};
use crate::structure::{range, text_edit};
use asl_json::{Items, Json, Members};
use asl_json_spans::Span;
use asl_json_write::put_quoted;
use asl_lsp_positions::{Encoding, Position, Positions};
use std::alloc::{AllocError, Global};

/// Why a state isn't renamed.
#[derive(Clone, Copy, Debug, PartialEq, Eq)]
pub enum RenameFault {
    /// No name of a state stands there.
    NoState,
    /// The new name hasn't from 1 to 80 characters.
    NoName,
    /// A state of the definition has it already.
    TakenName,
}

/// What comes of a wish for another name.
#[derive(Drop)]
pub enum RenameAnswer {
    /// The change of the document (Language Server Protocol 3.17, "WorkspaceEdit").
    Edit(Json),
    Refused(RenameFault),
}

/// The stretch of a name, and the name; null where there is none.
fn prepared_of(
    alloc: Global,
    positions: &Positions<'_>,
    named: Option<&Spot>,
) -> Result<Json, AllocError>
    ensures { IfOk result (λ v. data_of v ≡ prepared_of positions.now.0 positions.now.1
        (option_map (λ s. s.now) named.entry)) }
{
    let Some(named) = named else {
        return Ok(Json::Null);
    };
    let range = range(alloc, positions, named.span)?;
    let name = told(alloc, named.mention.name.as_str())?;
    let members = with(alloc, Members::new(alloc), "range", range)?;
    let members = with(alloc, members, "placeholder", name)?;
    Ok(Json::Dict(members))
}

fn prepared_among(
    alloc: Global,
    encoding: Encoding,
    text: &str,
    position: Position,
    spots: &[Spot],
) -> Result<Json, AllocError>
    ensures { IfOk result (λ v. data_of v ≡ prepared_among encoding text.now position (Some spots.now)) }
{
    let positions = Positions::of(alloc, encoding, text)?;
    let named = at_offset(positions.offset(position), spots);
    prepared_of(alloc, &positions, named)
}

/// The name at a position that can be changed, with its stretch; null where none is there (Language Server Protocol 3.17, "Prepare Rename Request"). The error
/// is that memory ran out.
pub fn prepared(
    alloc: Global,
    encoding: Encoding,
    text: &str,
    position: Position,
) -> Result<Json, AllocError>
    ensures { IfOk result (λ v. IsPrepared encoding text.now position (data_of v)) }
{
    match spots_in(alloc, text)? {
        Some(spots) => prepared_among(alloc, encoding, text, position, &spots),
        None => Ok(Json::Null),
    }
}

/// Whether a text has from 1 to 80 characters.
fn is_name(text: &str) -> bool
    ensures { result ≡ is_name text.now }
{
    let characters = text
        .as_bytes()
        .iter()
        .filter(|b| **b < 128 || 192 <= **b)
        .count();
    0 < characters && characters <= 80
}

/// Whether a state has this name.
fn is_taken(name: &str, spots: &[Spot]) -> bool
    ensures { result ≡ is_taken name.now spots.now }
{
    for spot in spots {
        if spot.mention.is_key && name == spot.mention.name.as_str() {
            return true;
        }
    }
    false
}

/// A text in quotes, as JSON.
fn quoted(alloc: Global, text: &str) -> Result<String, AllocError>
    ensures { IfOk result (λ t. string_bytes t ≡ quoted_text text.now) }
{
    let mut out = String::new(alloc);
    put_quoted(&mut out, text)?;
    Ok(out)
}

/// The edits that put this text in place of each of these stretches.
fn edits(
    alloc: Global,
    positions: &Positions<'_>,
    new: &str,
    spans: &[Span],
) -> Result<Vec<Json>, AllocError>
    ensures { IfOk result (λ vs. items_of vs.items ≡ map (text_edit positions.now.0 positions.now.1 new.now) spans.now) }
{
    let mut edits = Vec::with_capacity(alloc, spans.len())?;
    for span in spans {
        edits.push(text_edit(alloc, positions, new, *span)?)?;
    }
    Ok(edits)
}

/// The change of one document by these edits.
fn workspace_edit(
    alloc: Global,
    uri: &str,
    positions: &Positions<'_>,
    new: &str,
    spans: &[Span],
) -> Result<Json, AllocError>
    ensures { IfOk result (λ v. data_of v
        ≡ workspace_edit positions.now.0 uri.now positions.now.1 new.now spans.now) }
{
    let edits = Json::List(Items::of_values(edits(alloc, positions, new, spans)?));
    let changes = with(alloc, Members::new(alloc), uri, edits)?;
    let members = with(alloc, Members::new(alloc), "changes", Json::Dict(changes))?;
    Ok(Json::Dict(members))
}

/// Another name for the state that is named.
fn renamed_to(
    alloc: Global,
    uri: &str,
    positions: &Positions<'_>,
    name: &str,
    spots: &[Spot],
    named: &Spot,
) -> Result<RenameAnswer, AllocError>
    ensures { IfOk result (λ r. outcome_of r
        ≡ renamed_to positions.now.0 uri.now positions.now.1 name.now spots.now named.now) }
{
    if !is_name(name) {
        return Ok(RenameAnswer::Refused(RenameFault::NoName));
    }
    if is_taken(name, spots) {
        return Ok(RenameAnswer::Refused(RenameFault::TakenName));
    }
    let spans = spans_of(alloc, Sought::Every, &named.mention, spots)?;
    let new = quoted(alloc, name)?;
    let edit = workspace_edit(alloc, uri, positions, new.as_str(), &spans)?;
    Ok(RenameAnswer::Edit(edit))
}

/// The same of the state whose name is at a position, of these.
fn renamed_among(
    alloc: Global,
    encoding: Encoding,
    uri: &str,
    text: &str,
    name: &str,
    position: Position,
    spots: &[Spot],
) -> Result<RenameAnswer, AllocError>
    ensures { IfOk result (λ r. outcome_of r
        ≡ renamed_among encoding uri.now text.now name.now position (Some spots.now)) }
{
    let positions = Positions::of(alloc, encoding, text)?;
    match at_offset(positions.offset(position), spots) {
        Some(named) => renamed_to(alloc, uri, &positions, name, spots, named),
        None => Ok(RenameAnswer::Refused(RenameFault::NoState)),
    }
}

/// The change that gives the state whose name is at a position another one, or why there is none (Language Server Protocol 3.17, "Rename Request"). The error
/// is that memory ran out.
pub fn renamed(
    alloc: Global,
    encoding: Encoding,
    uri: &str,
    text: &str,
    name: &str,
    position: Position,
) -> Result<RenameAnswer, AllocError>
    ensures { IfOk result (λ r. IsRenamed encoding uri.now text.now name.now position (outcome_of r)) }
{
    match spots_in(alloc, text)? {
        Some(spots) => renamed_among(alloc, encoding, uri, text, name, position, &spots),
        None => Ok(RenameAnswer::Refused(RenameFault::NoState)),
    }
}

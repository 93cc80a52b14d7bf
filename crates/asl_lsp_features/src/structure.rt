// What many messages have.
ghost use Rattle.std.specs.Prelude.{◌≡◌, IfOk};
ghost use Rattle.asl_json.specs.View.{data_of};
ghost use Rattle.asl_lsp_features.specs.Structures.{uinteger, point, range, location, text_edit};

use crate::object::{told, with};
use asl_json::{Dec, Json, Members};
use asl_json_spans::Span;
use asl_lsp_positions::{Position, Positions};
use std::alloc::{AllocError, Global};

/// The largest number of the protocol (Language Server Protocol 3.17, "Base Types").
pub const LARGEST: usize = 2147483647;

/// A number of the protocol; the largest one in place of those above it.
pub fn uinteger(number: usize) -> Json
    ensures { data_of result ≡ uinteger number }
{
    Json::Num(Dec::of_whole(number.min(LARGEST) as i128))
}

fn point(alloc: Global, position: Position) -> Result<Json, AllocError>
    ensures { IfOk result (λ v. data_of v ≡ point position) }
{
    let members = with(alloc, Members::new(alloc), "line", uinteger(position.line))?;
    let members = with(alloc, members, "character", uinteger(position.character))?;
    Ok(Json::Dict(members))
}

/// The positions of both ends of a stretch (Language Server Protocol 3.17, "Range"). The error is that memory ran out.
pub fn range(alloc: Global, positions: &Positions<'_>, span: Span) -> Result<Json, AllocError>
    ensures { IfOk result (λ v. data_of v ≡ range positions.now.0 positions.now.1 span) }
{
    let start = point(alloc, positions.at(span.begin))?;
    let end = point(alloc, positions.at(span.end))?;
    let members = with(alloc, Members::new(alloc), "start", start)?;
    let members = with(alloc, members, "end", end)?;
    Ok(Json::Dict(members))
}

/// A stretch of the document with this URI (Language Server Protocol 3.17, "Location").
pub(crate) fn location(
    alloc: Global,
    uri: &str,
    positions: &Positions<'_>,
    span: Span,
) -> Result<Json, AllocError>
    ensures { IfOk result (λ v. data_of v ≡ location positions.now.0 positions.now.1 uri.now span) }
{
    let range = range(alloc, positions, span)?;
    let members = with(alloc, Members::new(alloc), "uri", told(alloc, uri)?)?;
    let members = with(alloc, members, "range", range)?;
    Ok(Json::Dict(members))
}

/// Another text in place of a stretch (Language Server Protocol 3.17, "TextEdit").
pub(crate) fn text_edit(
    alloc: Global,
    positions: &Positions<'_>,
    new: &str,
    span: Span,
) -> Result<Json, AllocError>
    ensures { IfOk result (λ v. data_of v ≡ text_edit positions.now.0 positions.now.1 new.now span) }
{
    let range = range(alloc, positions, span)?;
    let members = with(alloc, Members::new(alloc), "range", range)?;
    let members = with(alloc, members, "newText", told(alloc, new)?)?;
    Ok(Json::Dict(members))
}

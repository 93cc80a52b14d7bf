// Where the names of one state stand.
ghost use Rattle.std.specs.Prelude.{◌≡◌, IfOk, Some, map, option_map};
ghost use Rattle.asl_json.specs.View.{data_of, items_of};
ghost use Rattle.asl_lsp_features.specs.Locating.{locations, located_of, located_among, IsLocated};
ghost use Rattle.asl_lsp_features.specs.Structures.{location};

use crate::spot::{Sought, Spot, at_offset, spans_of, spots_in};
use crate::structure::location;
use asl_json::{Items, Json};
use asl_json_spans::Span;
use asl_lsp_positions::{Encoding, Position, Positions};
use std::alloc::{AllocError, Global};

/// The locations of these stretches.
fn each_location(
    alloc: Global,
    uri: &str,
    positions: &Positions<'_>,
    spans: &[Span],
) -> Result<Vec<Json>, AllocError>
    ensures { IfOk result (λ vs. items_of vs.items ≡ map (location positions.now.0 positions.now.1 uri.now) spans.now) }
{
    let mut items = Vec::with_capacity(alloc, spans.len())?;
    for span in spans {
        items.push(location(alloc, uri, positions, *span)?)?;
    }
    Ok(items)
}

fn locations(
    alloc: Global,
    uri: &str,
    positions: &Positions<'_>,
    spans: &[Span],
) -> Result<Json, AllocError>
    ensures { IfOk result (λ v. data_of v ≡ locations positions.now.0 uri.now positions.now.1 spans.now) }
{
    let items = each_location(alloc, uri, positions, spans)?;
    Ok(Json::List(Items::of_values(items)))
}

/// Those of the state that is named.
fn located_of(
    alloc: Global,
    uri: &str,
    positions: &Positions<'_>,
    sought: Sought,
    spots: &[Spot],
    named: Option<&Spot>,
) -> Result<Json, AllocError>
    ensures { IfOk result (λ v. data_of v ≡ located_of positions.now.0 uri.now positions.now.1 sought spots.now
        (option_map (λ s. s.now) named.entry)) }
{
    let Some(named) = named else {
        return Ok(Json::Null);
    };
    let spans = spans_of(alloc, sought, &named.mention, spots)?;
    locations(alloc, uri, positions, &spans)
}

/// Those of the state whose name is at a position, of these.
fn located_among(
    alloc: Global,
    encoding: Encoding,
    uri: &str,
    text: &str,
    sought: Sought,
    position: Position,
    spots: &[Spot],
) -> Result<Json, AllocError>
    ensures { IfOk result (λ v. data_of v ≡ located_among encoding uri.now text.now sought position (Some spots.now)) }
{
    let positions = Positions::of(alloc, encoding, text)?;
    let named = at_offset(positions.offset(position), spots);
    located_of(alloc, uri, &positions, sought, spots, named)
}

/// Where the names of the state stand whose name is at a position, null where none is there (Language Server Protocol 3.17, "Goto Definition Request" and
/// "Find References Request"). The error is that memory ran out.
pub fn located(
    alloc: Global,
    encoding: Encoding,
    uri: &str,
    text: &str,
    sought: Sought,
    position: Position,
) -> Result<Json, AllocError>
    ensures { IfOk result (λ v. IsLocated encoding uri.now text.now sought position (data_of v)) }
{
    match spots_in(alloc, text)? {
        Some(spots) => located_among(alloc, encoding, uri, text, sought, position, &spots),
        None => Ok(Json::Null),
    }
}

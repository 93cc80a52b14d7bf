// The layout of a document.
ghost use Rattle.std.specs.Prelude.{◌≡◌, ◌++◌, ◌∷◌, [], IfOk, string_bytes};
ghost use Rattle.asl_json.specs.View.{data_of};
ghost use Rattle.asl_lsp_features.specs.Formatting.{layout, edits_to, formatted};

use crate::reading::value_of;
use crate::structure::text_edit;
use asl_json::{Items, Json};
use asl_json_pretty::pretty;
use asl_json_spans::Span;
use asl_lsp_positions::{Encoding, Positions};
use std::alloc::{AllocError, Global};

/// The text of a value for a person, and a line feed behind it.
fn layout(alloc: Global, value: &Json) -> Result<String, AllocError>
    ensures { IfOk result (λ t. string_bytes t ≡ layout (data_of value.now)) }
{
    let mut text = pretty(alloc, value)?;
    text.push('\n')?;
    Ok(text)
}

/// The edits that put another text in place of the whole text.
fn edits_to(alloc: Global, encoding: Encoding, text: &str, new: &str) -> Result<Json, AllocError>
    ensures { IfOk result (λ v. data_of v ≡ edits_to encoding text.now new.now) }
{
    if text == new {
        return Ok(Json::List(Items::of_values(Vec::new(alloc))));
    }
    let positions = Positions::of(alloc, encoding, text)?;
    let whole = Span {
        begin: 0,
        end: text.len(),
    };
    let mut edits = Vec::new(alloc);
    edits.push(text_edit(alloc, &positions, new, whole)?)?;
    Ok(Json::List(Items::of_values(edits)))
}

/// The edits that give a text the layout of its value, null where it spells none in the limits (Language Server Protocol 3.17, "Document Formatting Request").
/// The error is that memory ran out.
pub fn formatted(alloc: Global, encoding: Encoding, text: &str) -> Result<Json, AllocError>
    ensures { IfOk result (λ v. data_of v ≡ formatted encoding text.now) }
{
    let Some(value) = value_of(alloc, text)? else {
        return Ok(Json::Null);
    };
    let new = layout(alloc, &value)?;
    edits_to(alloc, encoding, text, new.as_str())
}

// The parameters of messages.
ghost use Rattle.std.specs.Prelude.{◌≡◌, IfOk, option_map};
ghost use Rattle.asl_json.specs.View.{items_of};
ghost use Rattle.asl_json_data.specs.Data.{chain};
ghost use Rattle.asl_json_rpc.specs.Calls.{seen};
ghost use Rattle.asl_lsp.specs.Params.{is_object, has_utf8, encoding_of, offered, item, uri_of, document_of, opened_document, changed_document, position_of, sought_of, new_name_of};

use crate::document::Document;
use crate::members::{
    boolean_of, integer_of, items_of_any, last_item, member_of, text_of, uinteger_of,
};
use asl_json::Json;
use asl_lsp_features::Sought;
use asl_lsp_positions::{Encoding, Position};
use std::alloc::{AllocError, Global};

fn is_object(value: Option<&Json>) -> bool
    ensures { result ≡ is_object (seen value.entry) }
{
    match value {
        Some(Json::Dict(_)) => true,
        _ => false,
    }
}

/// Whether one of these is the name of UTF-8 (Language Server Protocol 3.17, "Position Encoding Kind").
fn has_utf8(kinds: &[Json]) -> bool
    ensures { result ≡ has_utf8 (chain (items_of kinds.now)) }
{
    for kind in kinds {
        if let Json::Text(name) = kind {
            if name.as_str() == "utf-8" {
                return true;
            }
        }
    }
    false
}

/// What positions count, by what the client offers.
fn encoding_of(params: Option<&Json>) -> Encoding
    ensures { result ≡ encoding_of (seen params.entry) }
{
    let general = member_of(member_of(params, "capabilities"), "general");
    let kinds = items_of_any(member_of(general, "positionEncodings"));
    if has_utf8(kinds) {
        Encoding::Utf8
    } else {
        Encoding::Utf16
    }
}

/// What positions count, by the parameters of `initialize` (Language Server Protocol 3.17, "InitializeParams"); none where they don't fit.
pub(crate) fn offered(params: Option<&Json>) -> Option<Encoding>
    ensures { result ≡ offered (seen params.entry) }
{
    if !is_object(member_of(params, "capabilities")) {
        return None;
    }
    Some(encoding_of(params))
}

/// The item that names a document.
fn item(params: Option<&Json>) -> Option<&Json>
    ensures { seen result ≡ item (seen params.entry) }
{
    member_of(params, "textDocument")
}

/// The URI of the document that is meant (Language Server Protocol 3.17, "TextDocumentIdentifier").
pub(crate) fn uri_of(params: Option<&Json>) -> Option<&str>
    ensures { option_map (λ u. u.now) result ≡ uri_of (seen params.entry) }
{
    match text_of(member_of(item(params), "uri")) {
        Some(uri) => Some(uri.as_str()),
        None => None,
    }
}

/// The document that is meant, with this text; none where something of it is lacking.
fn document_of(
    alloc: Global,
    params: Option<&Json>,
    text: Option<&Json>,
) -> Result<Option<Document>, AllocError>
    ensures { IfOk result (λ d. d ≡ document_of (seen params.entry) (seen text.entry)) }
{
    let Some(uri) = text_of(member_of(item(params), "uri")) else {
        return Ok(None);
    };
    let Some(version) = integer_of(member_of(item(params), "version")) else {
        return Ok(None);
    };
    let Some(text) = text_of(text) else {
        return Ok(None);
    };
    let uri = uri.try_clone(alloc)?;
    let text = text.try_clone(alloc)?;
    Ok(Some(Document {
        uri,
        version: version.copy(),
        text,
    }))
}

/// The document that is opened (Language Server Protocol 3.17, "DidOpenTextDocumentParams"); none where the parameters don't fit. The error is that memory ran
/// out.
pub(crate) fn opened_document(
    alloc: Global,
    params: Option<&Json>,
) -> Result<Option<Document>, AllocError>
    ensures { IfOk result (λ d. d ≡ opened_document (seen params.entry)) }
{
    document_of(alloc, params, member_of(item(params), "text"))
}

/// The document as the last change leaves it, each change being its whole text (Language Server Protocol 3.17, "DidChangeTextDocumentParams"); none where the
/// parameters don't fit. The error is that memory ran out.
pub(crate) fn changed_document(
    alloc: Global,
    params: Option<&Json>,
) -> Result<Option<Document>, AllocError>
    ensures { IfOk result (λ d. d ≡ changed_document (seen params.entry)) }
{
    let changes = items_of_any(member_of(params, "contentChanges"));
    document_of(alloc, params, member_of(last_item(changes), "text"))
}

/// The position that is meant (Language Server Protocol 3.17, "TextDocumentPositionParams"); none where the parameters don't fit.
pub(crate) fn position_of(params: Option<&Json>) -> Option<Position>
    ensures { result ≡ position_of (seen params.entry) }
{
    let place = member_of(params, "position");
    let line = uinteger_of(member_of(place, "line"))?;
    let character = uinteger_of(member_of(place, "character"))?;
    Some(Position { line, character })
}

/// Whether the declaration is one of the references (Language Server Protocol 3.17, "ReferenceContext"); none where the parameters don't fit.
pub(crate) fn sought_of(params: Option<&Json>) -> Option<Sought>
    ensures { result ≡ sought_of (seen params.entry) }
{
    match boolean_of(member_of(member_of(params, "context"), "includeDeclaration")) {
        Some(true) => Some(Sought::Every),
        Some(false) => Some(Sought::References),
        None => None,
    }
}

/// The new name (Language Server Protocol 3.17, "RenameParams"); none where the parameters don't fit.
pub(crate) fn new_name_of(params: Option<&Json>) -> Option<&str>
    ensures { option_map (λ n. n.now) result ≡ new_name_of (seen params.entry) }
{
    match text_of(member_of(params, "newName")) {
        Some(name) => Some(name.as_str()),
        None => None,
    }
}

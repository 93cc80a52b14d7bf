// What is asked about documents.
ghost use Rattle.std.specs.Prelude.{◌≡◌, IfOk, option_map, string_bytes};
ghost use Rattle.asl_json_rpc.specs.Calls.{seen};
ghost use Rattle.asl_lsp.specs.Replies.{IsReply};
ghost use Rattle.asl_lsp.specs.Requests.{places, preparing, renaming, asked_of, unopened, asked};

use crate::document::Document;
use crate::method::Query;
use crate::params::{new_name_of, position_of, sought_of, uri_of};
use crate::refusal::{Refusal, refusal_of};
use crate::reply::{refuse, respond};
use crate::session::Session;
use asl_json::Json;
use asl_json_rpc::Id;
use asl_lsp_features::{RenameAnswer, Sought, formatted, located, prepared, renamed};
use asl_lsp_positions::{Encoding, Position};
use std::alloc::{AllocError, Global};

/// Where the names of a state stand.
fn places(
    alloc: Global,
    id: &Id,
    encoding: Encoding,
    document: &Document,
    sought: Option<Sought>,
    position: Option<Position>,
) -> Result<String, AllocError>
    ensures { IfOk result (λ t. IsReply (places id.now encoding document.now sought position) (string_bytes t)) }
{
    let Some(sought) = sought else {
        return refuse(alloc, id, Refusal::BadParams);
    };
    let Some(position) = position else {
        return refuse(alloc, id, Refusal::BadParams);
    };
    let uri = document.uri.as_str();
    let text = document.text.as_str();
    let value = located(alloc, encoding, uri, text, sought, position)?;
    respond(alloc, id, &value)
}

/// The name of a state that can be changed.
fn preparing(
    alloc: Global,
    id: &Id,
    encoding: Encoding,
    document: &Document,
    position: Option<Position>,
) -> Result<String, AllocError>
    ensures { IfOk result (λ t. IsReply (preparing id.now encoding document.now position) (string_bytes t)) }
{
    let Some(position) = position else {
        return refuse(alloc, id, Refusal::BadParams);
    };
    let value = prepared(alloc, encoding, document.text.as_str(), position)?;
    respond(alloc, id, &value)
}

/// The document with another name of a state.
fn renaming(
    alloc: Global,
    id: &Id,
    encoding: Encoding,
    document: &Document,
    name: Option<&str>,
    position: Option<Position>,
) -> Result<String, AllocError>
    ensures { IfOk result (λ t. IsReply (renaming id.now encoding document.now (option_map (λ n. n.now) name.entry) position) (string_bytes t)) }
{
    let Some(name) = name else {
        return refuse(alloc, id, Refusal::BadParams);
    };
    let Some(position) = position else {
        return refuse(alloc, id, Refusal::BadParams);
    };
    let uri = document.uri.as_str();
    let text = document.text.as_str();
    match renamed(alloc, encoding, uri, text, name, position)? {
        RenameAnswer::Edit(edit) => respond(alloc, id, &edit),
        RenameAnswer::Refused(fault) => refuse(alloc, id, refusal_of(fault)),
    }
}

/// What is answered about a document that is open.
fn asked_of(
    alloc: Global,
    id: &Id,
    encoding: Encoding,
    document: &Document,
    query: Query,
    params: Option<&Json>,
) -> Result<String, AllocError>
    ensures { IfOk result (λ t. IsReply (asked_of id.now encoding document.now query (seen params.entry)) (string_bytes t)) }
{
    let position = position_of(params);
    match query {
        Query::Formatting => {
            let value = formatted(alloc, encoding, document.text.as_str())?;
            respond(alloc, id, &value)
        }
        Query::Definition => {
            let sought = Some(Sought::Declaration);
            places(alloc, id, encoding, document, sought, position)
        }
        Query::References => places(alloc, id, encoding, document, sought_of(params), position),
        Query::PrepareRename => preparing(alloc, id, encoding, document, position),
        Query::Rename => renaming(alloc, id, encoding, document, new_name_of(params), position),
    }
}

/// What is answered about one that isn't.
fn unopened(alloc: Global, id: &Id, query: Query) -> Result<String, AllocError>
    ensures { IfOk result (λ t. IsReply (unopened id.now query) (string_bytes t)) }
{
    match query {
        Query::Formatting => respond(alloc, id, &Json::Null),
        Query::Definition | Query::References | Query::PrepareRename | Query::Rename => {
            refuse(alloc, id, Refusal::BadParams)
        }
    }
}

impl Session {
    /// What is answered to a request about a document. The error is that memory ran out.
    pub(crate) fn ask(
        &self,
        alloc: Global,
        id: &Id,
        query: Query,
        params: Option<&Json>,
    ) -> Result<String, AllocError>
        ensures { IfOk result (λ t. IsReply (asked self.now id.now query (seen params.entry)) (string_bytes t)) }
    {
        let Some(uri) = uri_of(params) else {
            return refuse(alloc, id, Refusal::BadParams);
        };
        match self.documents.find(uri) {
            Some(document) => asked_of(alloc, id, self.encoding, document, query, params),
            None => unopened(alloc, id, query),
        }
    }
}

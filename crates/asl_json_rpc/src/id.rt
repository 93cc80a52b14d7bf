// Ids of requests.
ghost use Rattle.std.specs.Prelude.{◌≡◌, ◌++◌, IfOk, OnOk, string_bytes};
ghost use Rattle.asl_json.specs.View.{data_of};
ghost use Rattle.asl_json_rpc.specs.Calls.{is_whole, id_in, given_id, seen, known};
ghost use Rattle.asl_json_rpc.specs.Printing.{id_text};

use asl_json::{Dec, Json, Txt};
use asl_json_write::put_quoted;
use std::alloc::{AllocError, Global};

/// The id by which an answer is told apart (JSON-RPC 2.0, "Request object"): a text, a whole number as it is spelled, or null.
#[derive(Drop)]
pub enum Id {
    Null,
    Number(Dec),
    Text(Txt),
}

/// What a message has for its id.
#[derive(Drop)]
pub(crate) enum Given {
    Nothing,
    Id(Id),
    /// A value that can't be one.
    Other,
}

fn is_whole(number: &Dec) -> bool
    ensures { result ≡ is_whole number.now }
{
    number.whole().is_some()
}

/// The id that a value is. The error is that memory ran out.
fn id_in(alloc: Global, value: &Json) -> Result<Given, AllocError>
    ensures { IfOk result (λ g. g ≡ id_in (data_of value.now)) }
{
    match value {
        Json::Null => Ok(Given::Id(Id::Null)),
        Json::Num(number) if is_whole(number) => Ok(Given::Id(Id::Number(number.copy()))),
        Json::Text(text) => Ok(Given::Id(Id::Text(text.try_clone(alloc)?))),
        _ => Ok(Given::Other),
    }
}

/// The same of a value that may be lacking.
pub(crate) fn given_id(alloc: Global, value: Option<&Json>) -> Result<Given, AllocError>
    ensures { IfOk result (λ g. g ≡ given_id (seen value.entry)) }
{
    match value {
        None => Ok(Given::Nothing),
        Some(value) => id_in(alloc, value),
    }
}

impl Given {
    /// The id for an answer, which is null where none is known.
    pub(crate) fn known(self) -> Id
        ensures { result ≡ known self }
    {
        match self {
            Given::Id(id) => id,
            Given::Nothing | Given::Other => Id::Null,
        }
    }
}

/// Appends an id as JSON. The error is that memory ran out.
pub(crate) fn put_id(out: &mut String, id: &Id) -> Result<(), AllocError>
    ensures { OnOk result (string_bytes out.new ≡ string_bytes out.old ++ id_text id.now) }
{
    match id {
        Id::Null => out.push_str("null"),
        Id::Number(number) => out.push_str(number.spelling()),
        Id::Text(text) => put_quoted(out, text.as_str()),
    }
}

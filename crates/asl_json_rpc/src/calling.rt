// What a message asks for, by its value.
ghost use Rattle.std.specs.Prelude.{◌≡◌, IfOk};
ghost use Rattle.asl_json.specs.View.{data_of};
ghost use Rattle.asl_json_rpc.specs.Calls.{seen, is_version, is_answer, params_of, params_in, Gives, called, call_by, call_of};

use crate::id::{Given, given_id};
use crate::incoming::{CallFault, Incoming};
use asl_json::{Json, Txt};
use std::alloc::{AllocError, Global};

/// Whether this is the version of the protocol.
fn is_version(value: Option<&Json>) -> bool
    ensures { result ≡ is_version (seen value.entry) }
{
    match value {
        Some(Json::Text(text)) => text.as_str() == "2.0",
        _ => false,
    }
}

/// Whether a message has what an answer has.
fn is_answer(message: &Json) -> bool
    ensures { result ≡ is_answer (data_of message.now) }
{
    message.get("result").is_some() || message.get("error").is_some()
}

/// The parameters that a value is: an object or a list; null stands for none. `None` is that it is another value. The error is that memory ran out.
fn params_of(alloc: Global, value: &Json) -> Result<Option<Option<Json>>, AllocError>
    ensures { IfOk result (λ o. o ≡ params_of (data_of value.now)) }
{
    match value {
        Json::Null => Ok(Some(None)),
        Json::Dict(members) => Ok(Some(Some(Json::Dict(members.try_clone(alloc)?)))),
        Json::List(items) => Ok(Some(Some(Json::List(items.try_clone(alloc)?)))),
        _ => Ok(None),
    }
}

/// The same of a value that may be lacking: then there are none.
fn params_in(alloc: Global, value: Option<&Json>) -> Result<Option<Option<Json>>, AllocError>
    ensures { IfOk result (λ o. o ≡ params_in (seen value.entry)) }
{
    match value {
        None => Ok(Some(None)),
        Some(value) => params_of(alloc, value),
    }
}

/// A call of a method.
fn called(
    alloc: Global,
    method: &Txt,
    id: Given,
    params: Option<&Json>,
) -> Result<Incoming, CallFault>
    ensures { Gives (called method.now id (params_in (seen params.entry))) result }
{
    let Some(params) = params_in(alloc, params)? else {
        return Err(CallFault::InvalidRequest(id.known()));
    };
    let method = method.try_clone(alloc)?;
    match id {
        Given::Nothing => Ok(Incoming::Notification { method, params }),
        Given::Id(id) => Ok(Incoming::Request { id, method, params }),
        Given::Other => Err(CallFault::InvalidRequest(id.known())),
    }
}

/// What a message asks for.
pub(crate) fn call_of(alloc: Global, message: &Json) -> Result<Incoming, CallFault>
    ensures { Gives (call_of (data_of message.now)) result }
{
    let id = given_id(alloc, message.get("id"))?;
    if !is_version(message.get("jsonrpc")) {
        return Err(CallFault::InvalidRequest(id.known()));
    }
    match message.get("method") {
        Some(Json::Text(method)) => called(alloc, method, id, message.get("params")),
        None if is_answer(message) => Ok(Incoming::Response),
        _ => Err(CallFault::InvalidRequest(id.known())),
    }
}

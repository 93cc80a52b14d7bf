// What is sent.
ghost use Rattle.std.specs.Prelude.{◌≡◌, ◌++◌, OnOk, string_bytes};
ghost use Rattle.asl_json.specs.View.{data_of};
ghost use Rattle.asl_json_rpc.specs.Printing.{version_text, head_text, code_member, message_member, method_text, result_text, error_text, notification_text};

use crate::code::ErrorCode;
use crate::id::{Id, put_id};
use asl_json::Json;
use asl_json_write::{put, put_quoted};
use std::alloc::AllocError;

/// Appends the beginning of a message.
#[tactic(auto, unfolding(crate::specs::Printing::version_text))]
fn put_version(out: &mut String) -> Result<(), AllocError>
    ensures { OnOk result (string_bytes out.new ≡ string_bytes out.old ++ version_text) }
{
    out.push_str("{\"jsonrpc\":\"2.0\"")
}

/// Appends the beginning of a response.
#[tactic(auto, unfolding(crate::specs::Printing::head_text))]
fn put_head(out: &mut String, id: &Id) -> Result<(), AllocError>
    ensures { OnOk result (string_bytes out.new ≡ string_bytes out.old ++ head_text id.now) }
{
    put_version(out)?;
    out.push_str(",\"id\":")?;
    put_id(out, id)
}

/// Appends the response to a request with this id: its result. The error is that memory ran out, and then a part of it may be there.
#[tactic(auto, unfolding(crate::specs::Printing::result_text))]
pub fn put_result(out: &mut String, id: &Id, value: &Json) -> Result<(), AllocError>
    ensures { OnOk result (string_bytes out.new ≡ string_bytes out.old ++ result_text id.now (data_of value.now)) }
{
    put_head(out, id)?;
    out.push_str(",\"result\":")?;
    put(out, value)?;
    out.push('}')
}

/// Appends the beginning of an error, with its code.
#[tactic(auto, unfolding(crate::specs::Printing::code_member))]
fn put_code(out: &mut String, code: ErrorCode) -> Result<(), AllocError>
    ensures { OnOk result (string_bytes out.new ≡ string_bytes out.old ++ code_member code) }
{
    out.push_str(",\"error\":{\"code\":")?;
    out.push_str(code.text())
}

/// Appends what is told of an error, and the end of the response.
#[tactic(auto, unfolding(crate::specs::Printing::message_member))]
fn put_told(out: &mut String, message: &str) -> Result<(), AllocError>
    ensures { OnOk result (string_bytes out.new ≡ string_bytes out.old ++ message_member message.now) }
{
    out.push_str(",\"message\":")?;
    put_quoted(out, message)?;
    out.push_str("}}")
}

/// Appends the response to a request with this id: an error with its code, and what is told of it. The error is that memory ran out, and then a part of it
/// may be there.
#[tactic(auto, unfolding(crate::specs::Printing::error_text))]
pub fn put_error(
    out: &mut String,
    id: &Id,
    code: ErrorCode,
    message: &str,
) -> Result<(), AllocError>
    ensures { OnOk result (string_bytes out.new ≡ string_bytes out.old ++ error_text id.now code message.now) }
{
    put_head(out, id)?;
    put_code(out, code)?;
    put_told(out, message)
}

/// Appends the beginning of a notification.
#[tactic(auto, unfolding(crate::specs::Printing::method_text))]
fn put_method(out: &mut String, method: &str) -> Result<(), AllocError>
    ensures { OnOk result (string_bytes out.new ≡ string_bytes out.old ++ method_text method.now) }
{
    put_version(out)?;
    out.push_str(",\"method\":")?;
    put_quoted(out, method)
}

/// Appends a notification: a method and its parameters. The error is that memory ran out, and then a part of it may be there.
#[tactic(auto, unfolding(crate::specs::Printing::notification_text))]
pub fn put_notification(out: &mut String, method: &str, params: &Json) -> Result<(), AllocError>
    ensures { OnOk result (string_bytes out.new ≡ string_bytes out.old ++ notification_text method.now (data_of params.now)) }
{
    put_method(out, method)?;
    out.push_str(",\"params\":")?;
    put(out, params)?;
    out.push('}')
}

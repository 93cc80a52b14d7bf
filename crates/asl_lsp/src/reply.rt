// The messages that are sent.
ghost use Rattle.std.specs.Prelude.{◌≡◌, IfOk, string_bytes};
ghost use Rattle.asl_json.specs.View.{data_of};
ghost use Rattle.asl_json_rpc.specs.Printing.{result_text};
ghost use Rattle.asl_lsp.specs.Replies.{refusal_text, published_text};

use crate::refusal::Refusal;
use asl_json::Json;
use asl_json_rpc::{Id, put_error, put_notification, put_result};
use std::alloc::{AllocError, Global};

/// The response to a request with this id: its result. The error is that memory ran out.
pub(crate) fn respond(alloc: Global, id: &Id, value: &Json) -> Result<String, AllocError>
    ensures { IfOk result (λ t. string_bytes t ≡ result_text id.now (data_of value.now)) }
{
    let mut out = String::new(alloc);
    put_result(&mut out, id, value)?;
    Ok(out)
}

/// The response to a request with this id: why it is refused. The error is that memory ran out.
pub(crate) fn refuse(alloc: Global, id: &Id, refusal: Refusal) -> Result<String, AllocError>
    ensures { IfOk result (λ t. string_bytes t ≡ refusal_text id.now refusal) }
{
    let mut out = String::new(alloc);
    put_error(&mut out, id, refusal.code(), refusal.words())?;
    Ok(out)
}

/// The notification `textDocument/publishDiagnostics`. The error is that memory ran out.
pub(crate) fn publish(alloc: Global, params: &Json) -> Result<String, AllocError>
    ensures { IfOk result (λ t. string_bytes t ≡ published_text (data_of params.now)) }
{
    let mut out = String::new(alloc);
    put_notification(&mut out, "textDocument/publishDiagnostics", params)?;
    Ok(out)
}

// Answering what stands in a stream.
ghost use Rattle.std.specs.Prelude.{◌≡◌, ◌++◌, OnOk, option_map, string_bytes};
ghost use Rattle.asl_base_protocol.specs.declared.item.Item.TheVariants as Item;
ghost use Rattle.asl_lsp_stream.specs.Streams.{error_message, framed, ItemTells, Tells};

use asl_base_protocol::{Bytes, Item, put_message};
use asl_json_rpc::{ErrorCode, Id, put_error};
use asl_lsp::Server;
use std::alloc::{AllocError, Global};

/// Appends a message, if there is one, with its header. The error is that memory ran out.
fn put_framed(out: &mut String, message: &Option<String>) -> Result<(), AllocError>
    ensures { OnOk result (string_bytes out.new
        ≡ string_bytes out.old ++ framed (option_map (λ t. string_bytes t) message.now)) }
{
    match message {
        Some(message) => put_message(out, message.as_str()),
        None => Ok(()),
    }
}

/// Appends what is sent for the content part of a message. The error is that memory ran out.
fn put_answer(
    alloc: Global,
    server: &mut Server,
    content: &Bytes,
    out: &mut String,
) -> Result<(), AllocError>
    ensures { OnOk result (Tells (ItemTells server.old (Item.Content content.now) server.new)
        (string_bytes out.old) (string_bytes out.new)) }
{
    let message = server.receive(alloc, content.as_slice())?;
    put_framed(out, &message)
}

/// Appends that what stands in the stream is no message. The error is that memory ran out.
fn put_refusal(alloc: Global, words: &str, out: &mut String) -> Result<(), AllocError>
    ensures { OnOk result (string_bytes out.new ≡ string_bytes out.old ++ error_message words.now) }
{
    let mut message = String::new(alloc);
    put_error(&mut message, &Id::Null, ErrorCode::ParseError, words)?;
    put_message(out, message.as_str())
}

/// Appends what is sent for an item of the stream. The error is that memory ran out.
pub(crate) fn put_item(
    alloc: Global,
    server: &mut Server,
    item: &Item,
    out: &mut String,
) -> Result<(), AllocError>
    ensures { OnOk result (Tells (ItemTells server.old item.now server.new)
        (string_bytes out.old) (string_bytes out.new)) }
{
    match item {
        Item::Content(content) => put_answer(alloc, server, content, out),
        Item::BadHeader => put_refusal(alloc, "The header has no Content-Length.", out),
        Item::TooLong(_) => put_refusal(alloc, "The message is too long.", out),
    }
}

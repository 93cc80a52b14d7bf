// Writing a message.
ghost use Rattle.std.specs.Prelude.{◌≡◌, ◌++◌, OnOk, string_bytes};
ghost use Rattle.asl_base_protocol.specs.Message.{length_field, message};

use asl_text::put_decimal;
use std::alloc::AllocError;

#[tactic(auto, unfolding(crate::specs::Message::length_field))]
fn put_length(out: &mut String, length: u64) -> Result<(), AllocError>
    ensures { OnOk result (string_bytes out.new ≡ string_bytes out.old ++ length_field length) }
{
    out.push_str("Content-Length: ")?;
    put_decimal(out, length)
}

/// Appends a message of this content. The error is that memory ran out, and then a part of it may be there.
pub fn put_message(out: &mut String, content: &str) -> Result<(), AllocError>
    ensures { OnOk result (string_bytes out.new ≡ string_bytes out.old ++ message content.now) }
{
    put_length(out, content.len() as u64)?;
    out.push_str("\r\n\r\n")?;
    out.push_str(content)
}

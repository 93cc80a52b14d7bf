// Texts in quotes (RFC 8259, section 7).
ghost use Rattle.std.specs.Prelude.{◌≡◌, ◌<◌, [], length, IfOk, IfErr};
ghost use Rattle.std.specs.Str.{IsUtf8};
ghost use Rattle.asl_json_scan.specs.private.Chars.{bare, closed, text_run};
ghost use Rattle.asl_json_scan.specs.private.Leads.{Breaks};

use asl_json::Txt;
use asl_json_scan::{Stop, after_byte, append, as_text, escaped, split_plain, syntax};
use std::alloc::{AllocError, Global};

/// How much room there is at first for a text with escapes, beside what stands before the first of them.
const ROOM: usize = 64;

/// A text of these bytes, which are copied once.
fn txt(alloc: Global, bytes: &[u8]) -> Result<Txt, AllocError>
    requires { IsUtf8 bytes.now }
    ensures { IfOk result (λ t. t ≡ bytes.now) }
{
    Txt::of(alloc, as_text(bytes))
}

/// What the bytes up to the closing quote mean where escapes are among them, and what follows it. So many of them stand
/// before the first escape.
fn escaped_text(alloc: Global, bytes: &[u8], plain: usize) -> Result<(Txt, &[u8]), Stop>
    requires { IsUtf8 bytes.now }
    ensures found { IfOk result (λ x. text_run bare [] bytes.now ≡ closed x.0 x.1.now) }
    ensures shorter { IfOk result (λ x. length x.1.now < length bytes.now) }
    ensures utf8 { IfOk result (λ x. IsUtf8 x.1.now) }
    ensures broken { IfErr result (λ e. Breaks e (text_run bare [] bytes.now)) }
{
    let mut content = String::with_capacity(alloc, plain.saturating_add(ROOM))?;
    let mut rest = bytes;
    loop {
        let (plain, behind) = split_plain(rest);
        append(&mut content, plain)?;
        if let Some(closed) = after_byte(behind, b'"') {
            return Ok((Txt::new(content), closed));
        }
        let Some(escape) = after_byte(behind, b'\\') else {
            return Err(syntax(behind));
        };
        let (character, next) = escaped(escape)?;
        content.push(character)?;
        rest = next;
    }
}

/// What the bytes up to the closing quote mean, and what follows it. Without escapes they are copied once.
pub fn quoted_text(alloc: Global, bytes: &[u8]) -> Result<(Txt, &[u8]), Stop>
    requires { IsUtf8 bytes.now }
    ensures found { IfOk result (λ x. text_run bare [] bytes.now ≡ closed x.0 x.1.now) }
    ensures shorter { IfOk result (λ x. length x.1.now < length bytes.now) }
    ensures utf8 { IfOk result (λ x. IsUtf8 x.1.now) }
    ensures broken { IfErr result (λ e. Breaks e (text_run bare [] bytes.now)) }
{
    let (plain, behind) = split_plain(bytes);
    if let Some(closed) = after_byte(behind, b'"') {
        return Ok((txt(alloc, plain)?, closed));
    }
    escaped_text(alloc, bytes, plain.len())
}

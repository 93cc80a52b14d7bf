// Writing the compact text.
ghost use Rattle.std.specs.Prelude.{◌≡◌, ◌<◌, ◌≤◌, ◌∷◌, None, false, ◌++◌, [], ℕ, List, length, IfOk, OnOk, OnErr, MatchOption, string_bytes};
ghost use Rattle.asl_json.specs.View.{data_of};
ghost use Rattle.asl_json_data.specs.Data.{pairs, chain};
ghost use Rattle.asl_json_data.specs.Grammar.{IsText};
ghost use Rattle.asl_json_data.specs.Text.{backslash, is_plain};
ghost use Rattle.std.specs.Char.{digit_char};
ghost use Rattle.std.specs.Str.{IsUtf8};
ghost use Rattle.asl_json_write.specs.Buffers.{Keeps};
ghost use Rattle.asl_json_data.specs.Reads.{ReadsAs};
ghost use Rattle.asl_json_data.specs.Compact.{separator, escaped_control, escaped_byte, escaped, quoted, compact, compact_items, compact_members, IsReadable};

use crate::undo::whole_or_none;
use asl_json::{Items, Json, Members};
use asl_json_scan::{append, first_byte, split_plain};
use std::alloc::{AllocError, Global};

/// The lower-case hexadecimal digit of this value.
fn digit(value: u8) -> u8
    requires { value < 16 }
    ensures value { result ≡ digit_char value }
    ensures ascii { result < 128 }
{
    if value < 10 {
        b'0' + value
    } else {
        b'a' + (value - 10)
    }
}

/// A control in four digits.
fn put_digits(out: &mut String, byte: u8) -> Result<(), AllocError>
    requires { byte < 32 }
    ensures ok { OnOk result (string_bytes out.new
        ≡ string_bytes out.old ++ escaped_control byte None) }
    ensures err { OnErr result (string_bytes out.new ≡ string_bytes out.old) }
{
    let escape = [b'\\', b'u', b'0', b'0', digit(byte / 16), digit(byte % 16)];
    append(out, &escape)
}

/// The letter by which a byte is escaped, where there is one.
#[tactic(auto, unfolding(asl_json_data::specs::Compact::escaped_byte, asl_json_data::specs::Compact::control_letter, asl_json_data::specs::Text::is_plain))]
pub(crate) fn letter(byte: u8) -> Option<u8>
    requires { is_plain byte ≡ false }
    ensures { MatchOption result ((byte < 32) × (escaped_byte byte ≡ escaped_control byte None))
        (λ l. (l < 128) × (escaped_byte byte ≡ backslash ∷ l ∷ [])) }
{
    match byte {
        b'"' | b'\\' => Some(byte),
        8 => Some(b'b'),
        9 => Some(b't'),
        10 => Some(b'n'),
        12 => Some(b'f'),
        13 => Some(b'r'),
        _ => None,
    }
}

/// The escape of a byte that can't stand in a text as it is.
fn put_escape(out: &mut String, byte: u8) -> Result<(), AllocError>
    requires { is_plain byte ≡ false }
    ensures ok { OnOk result (string_bytes out.new ≡ string_bytes out.old ++ escaped_byte byte) }
    ensures err { OnErr result (string_bytes out.new ≡ string_bytes out.old) }
{
    let Some(letter) = letter(byte) else {
        return put_digits(out, byte);
    };
    append(out, &[b'\\', letter])
}

/// Appends bytes of a text, with their escapes. Where memory runs out, some of them may be there.
fn put_escaped(out: &mut String, bytes: &[u8]) -> Result<(), AllocError>
    requires { IsUtf8 bytes.now }
    ensures ok { OnOk result (string_bytes out.new ≡ string_bytes out.old ++ escaped bytes.now) }
    ensures kept { Keeps (string_bytes out.old) (string_bytes out.new) }
{
    let mut rest = bytes;
    loop {
        let (plain, behind) = split_plain(rest);
        append(out, plain)?;
        let Some((byte, next)) = first_byte(behind) else {
            return Ok(());
        };
        put_escape(out, byte)?;
        rest = next;
    }
}

/// Appends a text in quotes, with its escapes. Where memory runs out, a part of it may be there.
fn put_text(out: &mut String, text: &str) -> Result<(), AllocError>
    ensures ok { OnOk result (string_bytes out.new ≡ string_bytes out.old ++ quoted text.now) }
    ensures kept { Keeps (string_bytes out.old) (string_bytes out.new) }
{
    out.push('"')?;
    put_escaped(out, text.as_bytes())?;
    out.push('"')
}

/// Appends the compact JSON text of a text: in quotes, with its escapes. The error is that memory ran out, and then nothing
/// is appended.
pub fn put_quoted(out: &mut String, text: &str) -> Result<(), AllocError>
    ensures ok { OnOk result (string_bytes out.new ≡ string_bytes out.old ++ quoted text.now) }
    ensures err { OnErr result (string_bytes out.new ≡ string_bytes out.old) }
{
    let len = out.as_str().len();
    let appended = put_text(out, text);
    whole_or_none(out, len, appended)
}

/// A comma before each part but the first.
fn separate(out: &mut String, i: usize) -> Result<(), AllocError>
    ensures ok { OnOk result (string_bytes out.new ≡ string_bytes out.old ++ separator i) }
    ensures err { OnErr result (string_bytes out.new ≡ string_bytes out.old) }
{
    if i > 0 {
        out.push(',')?;
    }
    Ok(())
}

/// Appends the compact text of a value, as `write` gives it. The error is that memory ran out, and then nothing is appended.
pub fn put(out: &mut String, value: &Json) -> Result<(), AllocError>
    ensures ok { OnOk result (string_bytes out.new
        ≡ string_bytes out.old ++ compact (data_of value.now)) }
    ensures err { OnErr result (string_bytes out.new ≡ string_bytes out.old) }
{
    let len = out.as_str().len();
    let appended = put_value(out, value);
    whole_or_none(out, len, appended)
}

/// Appends the compact text of a value. Where memory runs out, a part of it may be there.
#[cycle(put)]
fn put_value(out: &mut String, value: &Json) -> Result<(), AllocError>
    ensures ok { OnOk result (string_bytes out.new
        ≡ string_bytes out.old ++ compact (data_of value.now)) }
    ensures kept { Keeps (string_bytes out.old) (string_bytes out.new) }
{
    match value {
        Json::Null => out.push_str("null"),
        Json::Bool(true) => out.push_str("true"),
        Json::Bool(false) => out.push_str("false"),
        Json::Num(number) => out.push_str(number.spelling()),
        Json::Text(text) => put_text(out, text.as_str()),
        Json::List(items) => put_items(out, items),
        Json::Dict(members) => put_members(out, members),
    }
}

#[cycle(put)]
fn put_items(out: &mut String, items: &Items) -> Result<(), AllocError>
    ensures ok { OnOk result (string_bytes out.new
        ≡ string_bytes out.old ++ 91 ∷ compact_items (chain items.now)) }
    ensures kept { Keeps (string_bytes out.old) (string_bytes out.new) }
{
    out.push('[')?;
    for (i, item) in items.values().iter().enumerate() {
        separate(out, i)?;
        put_value(out, item)?;
    }
    out.push(']')?;
    Ok(())
}

#[cycle(put)]
fn put_members(out: &mut String, members: &Members) -> Result<(), AllocError>
    ensures ok { OnOk result (string_bytes out.new
        ≡ string_bytes out.old ++ 123 ∷ compact_members (pairs members.now)) }
    ensures kept { Keeps (string_bytes out.old) (string_bytes out.new) }
{
    out.push('{')?;
    for (i, member) in members.members().iter().enumerate() {
        separate(out, i)?;
        put_text(out, member.key.as_str())?;
        out.push(':')?;
        put_value(out, &member.value)?;
    }
    out.push('}')?;
    Ok(())
}

/// The compact text of a value: no spaces, members in order, numbers as they are spelled. In texts the quote,
/// the backslash and the controls below a space are escaped. The error is that memory ran out.
pub fn write(alloc: Global, value: &Json) -> Result<String, AllocError>
    ensures text { IfOk result (λ t. string_bytes t ≡ compact (data_of value.now)) }
    // Where some text in the limits is read as the value, this one is.
    ensures round { IfOk result (λ t. IsReadable (data_of value.now)
        → ReadsAs (string_bytes t) (data_of value.now)) }
    // No text of the value is shorter.
    ensures shortest { IfOk result (λ t. (b : List ℕ) → IsText b (data_of value.now)
        → length (string_bytes t) ≤ length b) }
{
    let mut out = String::new(alloc);
    put_value(&mut out, value)?;
    Ok(out)
}

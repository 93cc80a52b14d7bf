// Reading the escapes of a text. Each function stands for a stretch of the run over a text; `left` is how many bytes there
// are from the escape's backslash on.
ghost use Rattle.std.specs.Prelude.{◌≡◌, ◌<◌, ◌+◌, ◌==◌, ◌&&◌, ◌||◌, nat_le, ◌++◌, true, false, List, ℕ, length, encode_utf8, IfOk, IfErr, MatchOption};
ghost use Rattle.std.specs.Str.{IsUtf8};
ghost use Rattle.std.specs.Char.{InScalarRange};
ghost use Rattle.std.specs.Char.Utf16.{is_high_surrogate, is_low_surrogate, surrogate_pair_char};
ghost use Rattle.asl_json_data.specs.Text.{quote, backslash, letter_u, is_plain, is_letter, letter_value, Quad};
ghost use Rattle.asl_json_scan.specs.private.Chars.{Within, bare, slash, unit_0, half, half_slash, low_0, WantsHex, text_run};
ghost use Rattle.asl_json_scan.specs.private.Machine.{fault};
ghost use Rattle.asl_json_scan.specs.private.Leads.{FirstIsNot, HexFirst, Breaks, IsUnit, IsLowUnit, IsPartner};

use crate::fault::{Fault, Kind, Stop};
use crate::front::{after_byte, first_byte, is_plain, syntax};

/// That an escape is of a half without a partner.
fn lone(left: usize) -> Stop
    ensures { result ≡ Stop.Fault (fault Kind.Lone left) }
{
    Stop::Fault(Fault {
        kind: Kind::Lone,
        left,
    })
}

/// The value of the hexadecimal digit in front, and what follows it.
#[tactic(auto, unfolding(asl_json_data::specs::Text::is_hex))]
fn digit(bytes: &[u8]) -> Result<(u32, &[u8]), Stop>
    ensures found { IfOk result (λ x. HexFirst bytes.now x.0 x.1.now) }
    ensures broken { IfErr result
        (λ e. (q : Within) (s : List ℕ) → WantsHex q → Breaks e (text_run q s bytes.now)) }
    ensures shorter { IfOk result (λ x. length x.1.now < length bytes.now) }
    ensures utf8 { IfOk result (λ x. IsUtf8 bytes.now → IsUtf8 x.1.now) }
{
    let Some((first, rest)) = first_byte(bytes) else {
        return Err(syntax(bytes));
    };
    let Some(value) = char::from(first).to_digit(16) else {
        return Err(syntax(bytes));
    };
    Ok((value, rest))
}

/// Whether a low half begins with digits of these values.
fn begins_low(first: u32, second: u32) -> bool
    ensures { result ≡ ((first == 13) && nat_le 12 second) }
{
    first == 13 && second >= 12
}

/// The code unit of the four digits in front, which is no low half, and what follows them.
fn unit(bytes: &[u8], left: usize) -> Result<(u32, &[u8]), Stop>
    requires { left ≡ length bytes.now + 2 }
    ensures found { IfOk result (λ x. IsUnit bytes.now x.0 x.1.now) }
    ensures broken { IfErr result (λ e. (s : List ℕ) → Breaks e (text_run unit_0 s bytes.now)) }
    ensures shorter { IfOk result (λ x. length x.1.now < length bytes.now) }
    ensures utf8 { IfOk result (λ x. IsUtf8 bytes.now → IsUtf8 x.1.now) }
{
    let (first, rest) = digit(bytes)?;
    let (second, rest) = digit(rest)?;
    if begins_low(first, second) {
        return Err(lone(left));
    }
    let (third, rest) = digit(rest)?;
    let (fourth, rest) = digit(rest)?;
    Ok((((first * 16 + second) * 16 + third) * 16 + fourth, rest))
}

/// The code unit of the four digits in front, which is a low half, and what follows them.
fn low_unit(bytes: &[u8], left: usize) -> Result<(u32, &[u8]), Stop>
    requires { left ≡ length bytes.now + 8 }
    ensures found { IfOk result (λ x. IsLowUnit bytes.now x.0 x.1.now) }
    ensures broken { IfErr result
        (λ e. (q : Quad) (s : List ℕ) → Breaks e (text_run (low_0 q) s bytes.now)) }
    ensures shorter { IfOk result (λ x. length x.1.now < length bytes.now) }
    ensures utf8 { IfOk result (λ x. IsUtf8 bytes.now → IsUtf8 x.1.now) }
{
    let (first, rest) = digit(bytes)?;
    if first != 13 {
        return Err(lone(left));
    }
    let (second, rest) = digit(rest)?;
    if !begins_low(first, second) {
        return Err(lone(left));
    }
    let (third, rest) = digit(rest)?;
    let (fourth, rest) = digit(rest)?;
    Ok((((first * 16 + second) * 16 + third) * 16 + fourth, rest))
}

/// Whether a text may go on over this byte, or end with it.
fn goes_on(byte: u8) -> bool
    ensures { result ≡ ((byte == quote) || is_plain byte) }
{
    byte == b'"' || is_plain(byte)
}

/// What is wrong where no backslash follows a high half.
fn no_escape(bytes: &[u8], left: usize) -> Stop
    requires left { left ≡ length bytes.now + 6 }
    requires none { FirstIsNot backslash bytes.now }
    ensures { (q : Quad) (s : List ℕ) → Breaks result (text_run (half q) s bytes.now) }
{
    let Some((first, _)) = first_byte(bytes) else {
        return syntax(bytes);
    };
    if goes_on(first) {
        return lone(left);
    }
    syntax(bytes)
}

/// What is wrong where an escape that has no digits follows a high half.
fn other_escape(bytes: &[u8], left: usize) -> Stop
    requires left { left ≡ length bytes.now + 7 }
    requires none { FirstIsNot letter_u bytes.now }
    ensures { (q : Quad) (s : List ℕ) → Breaks result (text_run (half_slash q) s bytes.now) }
{
    let Some((first, _)) = first_byte(bytes) else {
        return syntax(bytes);
    };
    let Some(_) = by_letter(first) else {
        return syntax(bytes);
    };
    lone(left)
}

/// The low half whose escape follows a high one, and what follows it.
fn partner(bytes: &[u8], left: usize) -> Result<(u32, &[u8]), Stop>
    requires { left ≡ length bytes.now + 6 }
    ensures found { IfOk result (λ x. IsPartner bytes.now x.0 x.1.now) }
    ensures broken { IfErr result
        (λ e. (q : Quad) (s : List ℕ) → Breaks e (text_run (half q) s bytes.now)) }
    ensures shorter { IfOk result (λ x. length x.1.now < length bytes.now) }
    ensures utf8 { IfOk result (λ x. IsUtf8 bytes.now → IsUtf8 x.1.now) }
{
    let Some(escape) = after_byte(bytes, b'\\') else {
        return Err(no_escape(bytes, left));
    };
    let Some(digits) = after_byte(escape, b'u') else {
        return Err(other_escape(escape, left));
    };
    low_unit(digits, left)
}

/// The character that digits behind `\u` stand for, with those of its partner, and what follows them.
fn by_digits(bytes: &[u8], left: usize) -> Result<(char, &[u8]), Stop>
    requires { left ≡ length bytes.now + 2 }
    ensures found { IfOk result (λ x. (s : List ℕ)
        → text_run unit_0 s bytes.now ≡ text_run bare (s ++ encode_utf8 x.0) x.1.now) }
    ensures broken { IfErr result (λ e. (s : List ℕ) → Breaks e (text_run unit_0 s bytes.now)) }
    ensures shorter { IfOk result (λ x. length x.1.now < length bytes.now) }
    ensures utf8 { IfOk result (λ x. IsUtf8 bytes.now → IsUtf8 x.1.now) }
{
    let (code, rest) = unit(bytes, left)?;
    if !is_high(code) {
        return Ok((scalar(code), rest));
    }
    let (low, rest) = partner(rest, left)?;
    Ok((pair(code, low), rest))
}

/// Whether a code unit is a high half.
fn is_high(code: u32) -> bool
    ensures { result ≡ is_high_surrogate code }
{
    code >= 0xd800 && code < 0xdc00
}

/// The character of two halves.
fn pair(high: u32, low: u32) -> char
    requires high { is_high_surrogate high ≡ true }
    requires low { is_low_surrogate low ≡ true }
    ensures { result ≡ surrogate_pair_char high low }
{
    scalar(0x10000 + (high - 0xd800) * 0x400 + (low - 0xdc00))
}

/// The character of a code that is no surrogate.
fn scalar(code: u32) -> char
    requires { InScalarRange code }
    ensures { result ≡ code }
{
    match char::from_u32(code) {
        Some(character) => character,
        None => unreachable!(),
    }
}

/// The character that a letter behind a backslash stands for.
#[tactic(auto, unfolding(asl_json_data::specs::Text::is_letter, asl_json_data::specs::Text::letter_value))]
fn by_letter(letter: u8) -> Option<char>
    ensures { MatchOption result (is_letter letter ≡ false)
        (λ c. (is_letter letter ≡ true) × (c ≡ letter_value letter)) }
{
    match letter {
        b'"' | b'\\' | b'/' => Some(char::from(letter)),
        b'b' => Some('\u{8}'),
        b'f' => Some('\u{c}'),
        b'n' => Some('\n'),
        b'r' => Some('\r'),
        b't' => Some('\t'),
        _ => None,
    }
}

/// The character that what follows a backslash stands for, and what follows it.
pub fn escaped(bytes: &[u8]) -> Result<(char, &[u8]), Stop>
    ensures found { IfOk result (λ x. (s : List ℕ)
        → text_run slash s bytes.now ≡ text_run bare (s ++ encode_utf8 x.0) x.1.now) }
    ensures broken { IfErr result (λ e. (s : List ℕ) → Breaks e (text_run slash s bytes.now)) }
    ensures shorter { IfOk result (λ x. length x.1.now < length bytes.now) }
    ensures utf8 { IfOk result (λ x. IsUtf8 bytes.now → IsUtf8 x.1.now) }
{
    if let Some(digits) = after_byte(bytes, b'u') {
        return by_digits(digits, bytes.len() + 1);
    }
    let Some((first, rest)) = first_byte(bytes) else {
        return Err(syntax(bytes));
    };
    let Some(character) = by_letter(first) else {
        return Err(syntax(bytes));
    };
    Ok((character, rest))
}

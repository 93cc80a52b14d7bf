// Texts that are no JSON.
ghost use Rattle.std.specs.Prelude.{◌≡◌, ◌∷◌, [], map, IfOk};
ghost use Rattle.std.specs.List.{All};
ghost use Rattle.asl_lint.specs.Places.{IsAt};

use crate::finding::Finding;
use crate::placing::alone;
use crate::rule::Rule;
use asl_json_read::JsonFault;
use asl_json_spans::Span;
use asl_lint_messages::put_name;
use std::alloc::{AllocError, Global};

/// The byte at which a text is no JSON.
fn byte_of(fault: JsonFault) -> usize {
    match fault {
        JsonFault::Syntax(at)
        | JsonFault::Duplicate(at)
        | JsonFault::Depth(at)
        | JsonFault::Number(at)
        | JsonFault::Utf8(at) => at,
        JsonFault::Size | JsonFault::OutOfMemory => 0,
    }
}

/// The last byte before a place that is no space; a space where there is none.
fn byte_before(text: &[u8], at: usize) -> u8 {
    let front = &text[..at.min(text.len())];
    for byte in front.iter().rev() {
        if !byte.is_ascii_whitespace() {
            return *byte;
        }
    }
    b' '
}

/// Whether a value may end with this byte.
fn ends_value(byte: u8) -> bool {
    matches!(byte, b'"' | b'}' | b']') || byte.is_ascii_alphanumeric()
}

/// Whether this word stands at a place of a text.
fn stands_at(text: &[u8], at: usize, word: &[u8]) -> bool {
    match text.get(at..) {
        Some(rest) => rest.starts_with(word),
        None => false,
    }
}

/// Whether a text has nothing but spaces before a place.
fn is_blank_before(text: &[u8], at: usize) -> bool {
    text[..at.min(text.len())]
        .iter()
        .all(|byte| byte.is_ascii_whitespace())
}

/// Whether a whole value stands before a place, with each list and object closed.
fn is_whole_before(text: &[u8], at: usize) -> bool {
    let mut open: usize = 0;
    let mut is_quoted = false;
    let mut is_escaped = false;
    for byte in &text[..at.min(text.len())] {
        if is_quoted {
            is_quoted = *byte != b'"' || is_escaped;
            is_escaped = *byte == b'\\' && !is_escaped;
            continue;
        }
        match *byte {
            b'"' => is_quoted = true,
            b'{' | b'[' => open = open.saturating_add(1),
            b'}' | b']' => open = open.saturating_sub(1),
            _ => {}
        }
    }
    open == 0 && !is_quoted && !is_blank_before(text, at)
}

const YAML: &str = "no JSON: this looks like YAML, which is to be converted to JSON first";

/// What a text seems to be that isn't JSON, as its first byte shows.
fn mistaken_words(text: &[u8], at: usize) -> &'static str {
    if stands_at(text, at, b"<") {
        return "no JSON: this looks like XML";
    }
    if text.contains(&b':') {
        return YAML;
    }
    "no JSON: a value begins with a brace, a bracket, a quote, a digit, true, false or null"
}

/// Whether a typographic quote stands at a place.
fn is_typographic(text: &[u8], at: usize) -> bool {
    let quotes: [&[u8]; 5] = [
        b"\xe2\x80\x98",
        b"\xe2\x80\x99",
        b"\xe2\x80\x9c",
        b"\xe2\x80\x9d",
        b"\xe2\x80\x9e",
    ];
    quotes.iter().any(|quote| stands_at(text, at, quote))
}

/// Whether one of these words stands at a place.
fn is_one_of(text: &[u8], at: usize, words: &[&str]) -> bool {
    words
        .iter()
        .any(|word| stands_at(text, at, word.as_bytes()))
}

/// What is wrong where something stands that people write in place of JSON; none where it is none of that.
fn habit_words(text: &[u8], at: usize) -> Option<&'static str> {
    if is_one_of(
        text,
        at,
        &["True", "False", "None", "TRUE", "FALSE", "NULL", "Null"],
    ) {
        return Some("true, false and null are written so, in small letters");
    }
    if is_one_of(text, at, &["NaN", "Infinity"]) {
        return Some("JSON has no such number");
    }
    if is_one_of(text, at, &["${", "{{"]) {
        return Some(
            "a placeholder that is filled in later stands in double quotes, or is filled in first",
        );
    }
    if is_typographic(text, at) {
        return Some("texts and keys stand in straight double quotes, and not in typographic ones");
    }
    None
}

/// What is wrong at a byte at which no value, key or end can begin.
fn unfit_words(text: &[u8], at: usize) -> &'static str {
    match habit_words(text, at) {
        Some(words) => words,
        None if is_blank_before(text, at) => mistaken_words(text, at),
        None => "no JSON: this can't stand here",
    }
}

/// What is wrong at a byte that no longer fits.
fn syntax_words(text: &[u8], at: usize) -> &'static str {
    let Some(byte) = text.get(at) else {
        if is_blank_before(text, at) {
            return "the text is empty: a JSON text has a value";
        }
        return "the text ends too early: a quote, a bracket or a brace isn't closed";
    };
    let before = byte_before(text, at);
    match *byte {
        b'}' | b']' if before == b',' => "no comma can stand before a closing brace or bracket",
        b'}' | b']' if before == b':' => "the value of a member is missing",
        b'/' | b'#' => "JSON has no comments; Comment is a member for one",
        b'\'' => "texts and keys stand in double quotes",
        0xef if at == 0 => "a text of JSON has no byte order mark before it",
        0 => "a byte 0: the text seems to be UTF-16, and JSON is UTF-8",
        _ if stands_at(text, 0, b"---") => YAML,
        _ if is_whole_before(text, at) =>
            "one value is a whole JSON text, and more stands behind it",
        b'"' | b'{' | b'[' if ends_value(before) => "a comma or a colon is missing before it",
        b'\\' => "half of a pair of surrogates can't be escaped alone",
        1..=31 =>
            "a line feed, a tab or another control can't stand in a text; it is escaped, as \\n",
        _ => unfit_words(text, at),
    }
}

/// What is wrong where bytes are no UTF-8.
fn utf8_words(text: &[u8]) -> &'static str {
    if stands_at(text, 0, b"\xff\xfe") || stands_at(text, 0, b"\xfe\xff") {
        return "the text is UTF-16, and JSON is UTF-8";
    }
    "these bytes are no UTF-8"
}

/// The text between the quote at a place and the next one.
fn quoted(text: &[u8], at: usize) -> &[u8] {
    let behind = match text.get(at.saturating_add(1)..) {
        Some(behind) => behind,
        None => &[],
    };
    for (end, byte) in behind.iter().enumerate() {
        if *byte == b'"' {
            return &behind[..end];
        }
    }
    behind
}

fn put_duplicate(out: &mut String, text: &[u8], at: usize) -> Result<(), AllocError> {
    out.push_str("this object has the key ")?;
    match std::str::from_utf8(quoted(text, at)) {
        Ok(key) => put_name(out, key)?,
        Err(_) => out.push_str("already")?,
    }
    out.push_str(" already")
}

fn put_unread(out: &mut String, text: &[u8], fault: JsonFault) -> Result<(), AllocError> {
    match fault {
        JsonFault::Syntax(at) => out.push_str(syntax_words(text, at)),
        JsonFault::Duplicate(at) => put_duplicate(out, text, at),
        JsonFault::Depth(_) => out.push_str("lists and objects can't stand more than 64 deep"),
        JsonFault::Number(_) => out.push_str(
            "a number has at most 40 bytes, an amount below 10^18 and nine digits behind the point",
        ),
        JsonFault::Size => out.push_str("a text has at most 1048576 bytes"),
        JsonFault::Utf8(_) => out.push_str(utf8_words(text)),
        JsonFault::OutOfMemory => out.push_str("memory ran out"),
    }
}

/// The finding of a text that is no JSON, at its byte. The error is that memory ran out.
pub fn unread(
    alloc: Global,
    rule: Rule,
    text: &[u8],
    fault: JsonFault,
) -> Result<Vec<Finding>, AllocError>
    ensures at { IfOk result (λ fs. All (IsAt text.now) fs.items) }
    ensures only { IfOk result (λ fs. map (λ f. f.rule) fs.items ≡ rule ∷ []) }
{
    let at = byte_of(fault);
    let mut message = String::new(alloc);
    put_unread(&mut message, text, fault)?;
    alone(alloc, text, rule, Span { begin: at, end: at }, message)
}

// Names and other texts in messages.
use asl_text::put_shown_char;
use std::alloc::AllocError;

/// The longest text that is shown whole, in characters.
const SHOWN: usize = 80;

/// Appends a character; one that isn't seen by its number, as `\u200f`.
fn put_character(out: &mut String, character: char) -> Result<(), AllocError> {
    match character {
        '"' => out.push_str("\\\""),
        '\\' => out.push_str("\\\\"),
        '\n' => out.push_str("\\n"),
        '\r' => out.push_str("\\r"),
        '\t' => out.push_str("\\t"),
        other => put_shown_char(out, other),
    }
}

/// Appends a text in quotes on one line; of a long one the beginning.
pub fn put_name(out: &mut String, text: &str) -> Result<(), AllocError> {
    out.push('"')?;
    for (number, character) in text.chars().enumerate() {
        if number >= SHOWN {
            out.push_str("..")?;
            break;
        }
        put_character(out, character)?;
    }
    out.push('"')
}

/// Whether a key is seen as one word without quotes.
fn is_word(key: &str) -> bool {
    !key.is_empty()
        && key.len() <= SHOWN
        && key
            .as_bytes()
            .iter()
            .all(|byte| byte.is_ascii_alphanumeric())
}

/// Appends a key; in quotes where it isn't one word.
pub(crate) fn put_key(out: &mut String, key: &str) -> Result<(), AllocError> {
    if is_word(key) {
        out.push_str(key)
    } else {
        put_name(out, key)
    }
}

/// Appends what stands between two names in a list of so many, before that of this number.
pub fn put_separator(out: &mut String, number: usize, count: usize) -> Result<(), AllocError> {
    if number == 0 {
        Ok(())
    } else if number.saturating_add(1) == count {
        out.push_str(" and ")
    } else {
        out.push_str(", ")
    }
}

/// Appends words as a list.
pub(crate) fn put_words(out: &mut String, words: &[&str]) -> Result<(), AllocError> {
    for (number, word) in words.iter().enumerate() {
        put_separator(out, number, words.len())?;
        out.push_str(word)?;
    }
    Ok(())
}

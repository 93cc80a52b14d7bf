// Names in graphs.
ghost use Rattle.std.specs.Prelude.{◌≡◌, ◌++◌, OnOk, string_bytes, length, take, nat_lt};
ghost use Rattle.std.specs.Fmt.{decimal};
ghost use Rattle.std.specs.Str.{chars};
ghost use Rattle.asl_graph.specs.Names.{is_kept, is_refused, entity_lead, numbered, entity, marks_item, shown_char, shown_behind, shown, most, more_mark, shown_short, word_char, word, state_id, box_key};

use crate::language::Language;
use asl_text::{is_hidden, put_decimal};
use std::alloc::AllocError;

/// How many characters of a text stand in a label that may be cut.
const MOST: usize = 60;

/// Whether a character stands in a label as it is, in both languages.
fn is_kept(character: char) -> bool
    ensures { result ≡ is_kept character }
{
    character.is_ascii_alphanumeric()
        || (u32::from(character) >= 128 && !is_hidden(character) && !is_refused(character))
        || character == ' '
        || character == '.'
        || character == '-'
        || character == '_'
}

/// Whether a character is a control, or one that XML has not, as which graphs are drawn.
fn is_refused(character: char) -> bool
    ensures { result ≡ is_refused character }
{
    let c = u32::from(character);
    c < 32 || (127 <= c && c <= 159) || (0xfffe <= c && c <= 0xffff)
}

/// What stands before the number of a character in a label.
fn entity_lead(language: Language) -> &'static str
    ensures { result.now ≡ entity_lead language }
{
    match language {
        Language::Mermaid => "#",
        Language::Dot => "&#",
    }
}

/// Appends a character by its number; a backslash in DOT twice, since it begins an escape there.
fn put_entity(out: &mut String, language: Language, character: char) -> Result<(), AllocError>
    ensures { OnOk result (string_bytes out.new
        ≡ string_bytes out.old ++ entity language character) }
{
    if language == Language::Dot && character == '\\' {
        put_numbered(out, language, character)?;
    }
    put_numbered(out, language, character)
}

fn put_numbered(out: &mut String, language: Language, character: char) -> Result<(), AllocError>
    ensures { OnOk result (string_bytes out.new
        ≡ string_bytes out.old ++ numbered language character) }
{
    out.push_str(entity_lead(language))?;
    put_decimal(out, u64::from(u32::from(character)))?;
    out.push(';')
}

/// Whether a character is a space behind one with which it is a list's item in Markdown, as Mermaid reads labels.
fn marks_item(language: Language, before: char, character: char) -> bool
    ensures { result ≡ marks_item language before character }
{
    match language {
        Language::Mermaid => character == ' ' && (before == '.' || before == '-'),
        Language::Dot => false,
    }
}

/// Appends a character behind another one.
fn put_shown_char(
    out: &mut String,
    language: Language,
    before: char,
    character: char,
) -> Result<(), AllocError>
    ensures { OnOk result (string_bytes out.new
        ≡ string_bytes out.old ++ shown_char language before character) }
{
    if marks_item(language, before, character) {
        return put_entity(out, language, character);
    }
    if is_kept(character) {
        return out.push(character);
    }
    if is_refused(character) {
        return out.push('\u{fffd}');
    }
    put_entity(out, language, character)
}

/// Appends a name as it stands in a label.
pub(crate) fn put_shown(out: &mut String, language: Language, name: &str) -> Result<(), AllocError>
    ensures { OnOk result (string_bytes out.new
        ≡ string_bytes out.old ++ shown language name.now) }
{
    let mut before = '\0';
    for character in name.chars() {
        put_shown_char(out, language, before, character)?;
        before = character;
    }
    Ok(())
}

/// Appends the first characters of a text as they stand in a label.
fn put_first(out: &mut String, language: Language, text: &str) -> Result<(), AllocError>
    ensures { OnOk result (string_bytes out.new
        ≡ string_bytes out.old ++ shown_behind language 0 (take most (chars text.now))) }
{
    let mut last = '\0';
    for character in text.chars().take(MOST) {
        put_shown_char(out, language, last, character)?;
        last = character;
    }
    Ok(())
}

/// Whether a text has more characters than those.
fn has_more(text: &str) -> bool
    ensures { result ≡ nat_lt most (length (chars text.now)) }
{
    text.chars().count() > MOST
}

/// Appends a text as it stands in a label, cut where it is long.
pub(crate) fn put_shown_short(
    out: &mut String,
    language: Language,
    text: &str,
) -> Result<(), AllocError>
    ensures { OnOk result (string_bytes out.new
        ≡ string_bytes out.old ++ shown_short language text.now) }
{
    put_first(out, language, text)?;
    if has_more(text) {
        out.push_str("...")?;
    }
    Ok(())
}

fn put_word_char(out: &mut String, character: char) -> Result<(), AllocError>
    ensures { OnOk result (string_bytes out.new ≡ string_bytes out.old ++ word_char character) }
{
    if character.is_ascii_alphanumeric() {
        return out.push(character);
    }
    out.push('_')?;
    put_decimal(out, u64::from(u32::from(character)))?;
    out.push('_')
}

/// Appends a name as a part of an identifier.
fn put_word(out: &mut String, name: &str) -> Result<(), AllocError>
    ensures { OnOk result (string_bytes out.new ≡ string_bytes out.old ++ word name.now) }
{
    for character in name.chars() {
        put_word_char(out, character)?;
    }
    Ok(())
}

/// Appends the identifier of a state.
pub(crate) fn put_state_id(out: &mut String, name: &str) -> Result<(), AllocError>
    ensures { OnOk result (string_bytes out.new ≡ string_bytes out.old ++ state_id name.now) }
{
    out.push_str("s_")?;
    put_word(out, name)
}

/// Appends what tells the machines inside states apart: the number of one in its state, and the state's name.
pub(crate) fn put_box_key(out: &mut String, name: &str, number: usize) -> Result<(), AllocError>
    ensures { OnOk result (string_bytes out.new
        ≡ string_bytes out.old ++ box_key name.now number) }
{
    put_decimal(out, number as u64)?;
    out.push('_')?;
    put_word(out, name)
}

// Texts of which every character shows.
ghost use Rattle.std.specs.Prelude.{◌≡◌, ◌<◌, ◌∷◌, ◌++◌, [], OnOk, string_bytes};
ghost use Rattle.std.specs.Char.{digit_char};
ghost use Rattle.asl_text.specs.Shown.{is_hidden, unit_escape, escape, shown_char, shown};

use std::alloc::AllocError;
use ucd_derived::is_default_ignorable_code_point;

/// Whether a character is a control, shows as nothing, breaks a line or changes the direction of what follows it.
pub fn is_hidden(character: char) -> bool
    ensures { result ≡ is_hidden character }
{
    character.is_control()
        || is_default_ignorable_code_point(character)
        || ('\u{2028}' <= character && character <= '\u{2029}')
        || ('\u{fff9}' <= character && character <= '\u{fffb}')
}

/// Appends the lower-case hexadecimal digit of this value.
fn put_digit(out: &mut String, value: u32) -> Result<(), AllocError>
    requires { value < 16 }
    ensures { OnOk result (string_bytes out.new ≡ string_bytes out.old ++ digit_char value ∷ []) }
{
    match char::from_digit(value, 16) {
        Some(digit) => out.push(digit),
        None => unreachable!(),
    }
}

/// Appends a unit of UTF-16 by its number.
fn put_unit(out: &mut String, unit: u16) -> Result<(), AllocError>
    ensures { OnOk result (string_bytes out.new ≡ string_bytes out.old ++ unit_escape unit) }
{
    let u = u32::from(unit);
    out.push_str("\\u")?;
    put_digit(out, u / 4096)?;
    put_digit(out, u / 256 % 16)?;
    put_digit(out, u / 16 % 16)?;
    put_digit(out, u % 16)
}

/// Appends a character by the numbers of its units of UTF-16, as a JSON text has it.
fn put_escape(out: &mut String, character: char) -> Result<(), AllocError>
    ensures { OnOk result (string_bytes out.new ≡ string_bytes out.old ++ escape character) }
{
    let mut units = [0; 2];
    for unit in character.encode_utf16(&mut units).iter() {
        put_unit(out, *unit)?;
    }
    Ok(())
}

/// Appends a character; one that is hidden by its number, as `\u000a`. The error is that memory ran out.
pub fn put_shown_char(out: &mut String, character: char) -> Result<(), AllocError>
    ensures { OnOk result (string_bytes out.new ≡ string_bytes out.old ++ shown_char character) }
{
    if is_hidden(character) {
        return put_escape(out, character);
    }
    out.push(character)
}

/// Appends a text of which every character shows: those that are hidden by their numbers. The error is that memory ran out.
pub fn put_shown(out: &mut String, text: &str) -> Result<(), AllocError>
    ensures { OnOk result (string_bytes out.new ≡ string_bytes out.old ++ shown text.now) }
{
    for character in text.chars() {
        put_shown_char(out, character)?;
    }
    Ok(())
}

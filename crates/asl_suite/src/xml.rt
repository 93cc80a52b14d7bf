// Texts of XML 1.0.
ghost use Rattle.std.specs.Prelude.{◌≡◌, OnOk, string_bytes};
ghost use Rattle.std.specs.Fmt.{decimal};
ghost use Rattle.asl_writing.specs.Appends.{Appends};
ghost use Rattle.asl_suite.specs.Xml.{xml_char, xml_text, attribute};

use asl_text::put_decimal;
use std::alloc::AllocError;

/// Appends a text as it is.
pub(crate) fn put_plain(out: &mut String, text: &str) -> Result<(), AllocError>
    ensures { OnOk result (Appends (string_bytes out.old) text.now (string_bytes out.new)) }
{
    out.push_str(text)
}

/// Appends a number in plain decimal.
pub(crate) fn put_number(out: &mut String, number: u64) -> Result<(), AllocError>
    ensures { OnOk result (Appends (string_bytes out.old) (decimal number) (string_bytes out.new)) }
{
    put_decimal(out, number)
}

fn put_character(out: &mut String, character: char) -> Result<(), AllocError>
    ensures { OnOk result (Appends (string_bytes out.old) (xml_char character) (string_bytes out.new)) }
{
    match character {
        '&' => out.push_str("&amp;"),
        '<' => out.push_str("&lt;"),
        '>' => out.push_str("&gt;"),
        '"' => out.push_str("&quot;"),
        '\t' => out.push_str("&#9;"),
        '\n' => out.push_str("&#10;"),
        '\r' => out.push_str("&#13;"),
        '\u{0}'..='\u{1f}' | '\u{fffe}' | '\u{ffff}' => out.push('\u{fffd}'),
        other => out.push(other),
    }
}

/// Appends a text as character data, which may also stand in a quoted value. A character that XML 1.0 has no way to write becomes U+FFFD, the
/// replacement character. (XML 1.0, sections 2.2 and 2.4.)
pub(crate) fn put_xml(out: &mut String, text: &str) -> Result<(), AllocError>
    ensures { OnOk result (Appends (string_bytes out.old) (xml_text text.now) (string_bytes out.new)) }
{
    for character in text.chars() {
        put_character(out, character)?;
    }
    Ok(())
}

/// Appends an attribute behind a space.
pub(crate) fn put_attribute(out: &mut String, name: &str, value: &str) -> Result<(), AllocError>
    ensures { OnOk result (Appends (string_bytes out.old) (attribute name.now (xml_text value.now))
        (string_bytes out.new)) }
{
    put_plain(out, " ")?;
    put_plain(out, name)?;
    put_plain(out, "=\"")?;
    put_xml(out, value)?;
    put_plain(out, "\"")?;
    Ok(())
}

/// Appends an attribute whose value is a number, behind a space.
pub(crate) fn put_count(out: &mut String, name: &str, count: usize) -> Result<(), AllocError>
    ensures { OnOk result (Appends (string_bytes out.old) (attribute name.now (decimal count))
        (string_bytes out.new)) }
{
    put_plain(out, " ")?;
    put_plain(out, name)?;
    put_plain(out, "=\"")?;
    put_number(out, count as u64)?;
    put_plain(out, "\"")?;
    Ok(())
}

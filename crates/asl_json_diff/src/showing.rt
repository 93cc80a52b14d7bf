// Names and values as a person reads them.
ghost use Rattle.std.specs.Prelude.{◌≡◌, ◌++◌, OnOk, string_bytes};
ghost use Rattle.std.specs.Str.{chars};
ghost use Rattle.asl_json.specs.View.{data_of};
ghost use Rattle.asl_json_diff.specs.Shown.{is_out_of_place, is_plain, name_text, first_chars, short};

use asl_json::Json;
use asl_json_write::{put, put_quoted};
use asl_text::{is_hidden, put_shown, put_shown_char};
use std::alloc::{AllocError, Global};

/// So many characters are shown of a value.
const MOST_CHARS: usize = 60;

fn is_out_of_place(character: char) -> bool
    ensures { result ≡ is_out_of_place character }
{
    is_hidden(character) || character == '"'
}

/// Whether each character of a name shows, and none is a quotation mark.
fn is_plain(name: &str) -> bool
    ensures { result ≡ is_plain name.now }
{
    let mut found = false;
    for character in name.chars() {
        found = found || is_out_of_place(character);
    }
    !found
}

/// Appends a name on one line: as it is, or as a JSON text where it has characters that don't show or a quotation mark. The error is that
/// memory ran out.
pub fn put_name(alloc: Global, out: &mut String, name: &str) -> Result<(), AllocError>
    ensures { OnOk result (string_bytes out.new ≡ string_bytes out.old ++ name_text name.now) }
{
    if is_plain(name) {
        return out.push_str(name);
    }
    let mut text = String::new(alloc);
    put_quoted(&mut text, name)?;
    put_shown(out, text.as_str())
}

/// Appends the first so many characters of a text, and two full stops where there are more.
fn put_first(out: &mut String, most: usize, text: &str) -> Result<(), AllocError>
    ensures { OnOk result (string_bytes out.new
        ≡ string_bytes out.old ++ first_chars most (chars text.now)) }
{
    let mut left = most;
    let mut cut = false;
    for character in text.chars() {
        if left > 0 {
            left -= 1;
            put_shown_char(out, character)?;
        } else if !cut {
            cut = true;
            out.push_str("..")?;
        }
    }
    Ok(())
}

/// Appends the compact text of a value, cut where it has more than 60 characters. The error is that memory ran out.
pub fn put_short(alloc: Global, out: &mut String, value: &Json) -> Result<(), AllocError>
    ensures { OnOk result (string_bytes out.new
        ≡ string_bytes out.old ++ short (data_of value.now)) }
{
    let mut text = String::new(alloc);
    put(&mut text, value)?;
    put_first(out, MOST_CHARS, text.as_str())
}

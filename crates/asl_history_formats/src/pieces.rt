// What several formats write.
ghost use Rattle.std.specs.Prelude.{◌≡◌, ◌++◌, OnOk, string_bytes};
ghost use Rattle.std.specs.Fmt.{decimal};
ghost use Rattle.asl_json_data.specs.Compact.{compact, quoted, separator};
ghost use Rattle.asl_json.specs.View.{data_of};
ghost use Rattle.asl_history_formats.specs.Keys.{stamp_key, previous_key};

use asl_json::Json;
use asl_json_write::{put, put_quoted};
use std::alloc::{AllocError, Global};

/// Appends a comma before each part but the first.
pub(crate) fn separate(out: &mut String, number: usize) -> Result<(), AllocError>
    ensures { OnOk result (string_bytes out.new ≡ string_bytes out.old ++ separator number) }
{
    if number > 0 {
        out.push(',')?;
    }
    Ok(())
}

/// Appends the compact text of a value as a text in JSON.
pub(crate) fn put_as_text(alloc: Global, out: &mut String, value: &Json) -> Result<(), AllocError>
    ensures { OnOk result (string_bytes out.new
        ≡ string_bytes out.old ++ quoted (compact (data_of value.now))) }
{
    let mut text = String::new(alloc);
    put(&mut text, value)?;
    put_quoted(out, text.as_str())
}

/// Appends the key of a moment, with the quotation mark before it.
#[tactic(auto, unfolding(crate::specs::Keys::stamp_key))]
pub(crate) fn put_stamp_key(out: &mut String) -> Result<(), AllocError>
    ensures { OnOk result (string_bytes out.new ≡ string_bytes out.old ++ stamp_key) }
{
    out.push_str("\"timestamp\":\"")
}

/// Appends the key of the number of the event before, with a comma before it.
#[tactic(auto, unfolding(crate::specs::Keys::previous_key))]
pub(crate) fn put_previous_key(out: &mut String) -> Result<(), AllocError>
    ensures { OnOk result (string_bytes out.new ≡ string_bytes out.old ++ previous_key) }
{
    out.push_str(",\"previousEventId\":")
}

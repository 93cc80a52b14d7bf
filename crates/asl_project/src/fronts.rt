// The fronts of a text, up to the ends of its lines.
ghost use Rattle.std.specs.Prelude.{◌≡◌, IfOk, IsErr};
ghost use Rattle.toml.specs.Data.{Members};
ghost use Rattle.asl_project.specs.Document.{IsDocument};
ghost use Rattle.asl_project.specs.Form.{shows};
ghost use Rattle.asl_project.specs.Places.{IsFront, IsEntryIn};

use crate::form::shows;
use crate::spot::Spot;
use std::alloc::{AllocError, Global};

/// What the front of a text is.
pub(crate) enum Front {
    /// No table, since it ends within a value.
    Cut,
    /// A table that hasn't yet what is asked for.
    Without,
    /// A table that has it.
    With,
}

fn front_of(alloc: Global, bytes: &[u8], spot: &Spot<'_>) -> Result<Front, AllocError>
    ensures { IfOk result (IsFront bytes.now (shows spot.now)) }
{
    match toml::table_from_slice(alloc, bytes) {
        Ok(table) if shows(&table, spot) => Ok(Front::With),
        Ok(_) => Ok(Front::Without),
        Err(error) if error.is_memory() => Err(AllocError),
        Err(_) => Ok(Front::Cut),
    }
}

/// Where the entry begins by which the table of a text first has what is asked for; none where it hasn't. The error is that memory ran out.
pub(crate) fn entry_in(
    alloc: Global,
    text: &[u8],
    spot: &Spot<'_>,
) -> Result<Option<usize>, AllocError>
    ensures { IfOk result (IsEntryIn text.now (shows spot.now)) }
{
    let mut begin = 0;
    for (i, byte) in text.iter().enumerate() {
        if *byte == b'\n' || i + 1 == text.len() {
            match front_of(alloc, &text[..i + 1], spot)? {
                Front::With => return Ok(Some(begin)),
                Front::Without => begin = i + 1,
                Front::Cut => {}
            }
        }
    }
    Ok(None)
}

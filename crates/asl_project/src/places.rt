// Where in a text something of its table stands.
ghost use Rattle.std.specs.Prelude.{◌≡◌, IfOk, length};
ghost use Rattle.asl_project.specs.Form.{shows};
ghost use Rattle.asl_project.specs.Places.{blanks, IsPlaceIn};

use crate::fronts::entry_in;
use crate::spot::Spot;
use asl_json_spans::Position;
use std::alloc::{AllocError, Global};

/// How many spaces and tabs a text begins with.
fn blanks(text: &[u8]) -> usize
    ensures { result ≡ blanks text.now }
{
    for (i, byte) in text.iter().enumerate() {
        if *byte != b' ' && *byte != b'\t' {
            return i;
        }
    }
    text.len()
}

/// Where the entry stands by which the table of a text first has what is at a spot, as the key of a value or the bracket of a header; none where the table
/// hasn't it, or the text is no table. Its cost is that of reading the text once for each line. The error is that memory ran out.
pub fn place_of(alloc: Global, text: &[u8], spot: &Spot<'_>) -> Result<Option<Position>, AllocError>
    ensures { IfOk result (IsPlaceIn text.now (shows spot.now)) }
{
    let Some(begin) = entry_in(alloc, text, spot)? else {
        return Ok(None);
    };
    let at = begin + blanks(&text[begin..]);
    Ok(Some(Position::start().forward(text, at)))
}

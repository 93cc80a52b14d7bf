// Whether the compact text of a value is short enough, which is found without making it.
ghost use Rattle.std.specs.Prelude.{◌≡◌, ◌∷◌, false, nat_le, length};
ghost use Rattle.asl_json.specs.View.{data_of};
ghost use Rattle.asl_json_data.specs.Data.{pairs, chain};
ghost use Rattle.asl_json_data.specs.Text.{is_plain};
ghost use Rattle.asl_json_data.specs.Compact.{separator, escaped_byte, escaped, quoted, compact, compact_items, compact_members};
ghost use Rattle.asl_json_write.specs.private.Room.{Leaves};

use crate::writing::letter;
use asl_json::{Items, Json, Members};
use asl_json_scan::{first_byte, split_plain};

/// How many bytes escape one that can't stand in a text as it is.
fn escape_len(byte: u8) -> usize
    requires { is_plain byte ≡ false }
    ensures { result ≡ length (escaped_byte byte) }
{
    match letter(byte) {
        Some(_) => 2,
        None => 6,
    }
}

/// What bytes of a text, with their escapes, leave of some room. More bytes than there is room for aren't looked at.
fn room_behind_escaped(bytes: &[u8], room: usize) -> Option<usize>
    ensures { Leaves (escaped bytes.now) room result }
{
    if bytes.len() > room {
        return None;
    }
    let mut rest = bytes;
    let mut left = room;
    loop {
        let (plain, behind) = split_plain(rest);
        left = left.checked_sub(plain.len())?;
        let Some((byte, next)) = first_byte(behind) else {
            return Some(left);
        };
        left = left.checked_sub(escape_len(byte))?;
        rest = next;
    }
}

/// What a text in quotes leaves of some room.
fn room_behind_quoted(text: &str, room: usize) -> Option<usize>
    ensures { Leaves (quoted text.now) room result }
{
    room_behind_escaped(text.as_bytes(), room.checked_sub(2)?)
}

/// What the comma before each part but the first leaves of some room.
fn room_behind_separator(i: usize, room: usize) -> Option<usize>
    ensures { Leaves (separator i) room result }
{
    if i > 0 {
        room.checked_sub(1)
    } else {
        Some(room)
    }
}

#[cycle(room)]
fn room_behind(value: &Json, room: usize) -> Option<usize>
    ensures { Leaves (compact (data_of value.now)) room result }
{
    match value {
        Json::Null | Json::Bool(true) => room.checked_sub(4),
        Json::Bool(false) => room.checked_sub(5),
        Json::Num(number) => room.checked_sub(number.spelling().len()),
        Json::Text(text) => room_behind_quoted(text.as_str(), room),
        Json::List(items) => room_behind_items(items, room),
        Json::Dict(members) => room_behind_members(members, room),
    }
}

#[cycle(room)]
fn room_behind_items(items: &Items, room: usize) -> Option<usize>
    ensures { Leaves (91 ∷ compact_items (chain items.now)) room result }
{
    let mut left = room.checked_sub(1)?;
    for (i, item) in items.values().iter().enumerate() {
        left = room_behind(item, room_behind_separator(i, left)?)?;
    }
    left.checked_sub(1)
}

#[cycle(room)]
fn room_behind_members(members: &Members, room: usize) -> Option<usize>
    ensures { Leaves (123 ∷ compact_members (pairs members.now)) room result }
{
    let mut left = room.checked_sub(1)?;
    for (i, member) in members.members().iter().enumerate() {
        let behind_key = room_behind_quoted(member.key.as_str(), room_behind_separator(i, left)?)?;
        left = room_behind(&member.value, behind_key.checked_sub(1)?)?;
    }
    left.checked_sub(1)
}

/// Whether the compact text of a value has at most so many bytes. It takes no memory, and looks no further than that
/// many bytes reach.
pub fn text_within(value: &Json, limit: usize) -> bool
    ensures { result ≡ nat_le (length (compact (data_of value.now))) limit }
{
    room_behind(value, limit).is_some()
}

// Where in a value a JSON Pointer points. (RFC 6901, section 4.)
ghost use Rattle.std.specs.Prelude.{◌≡◌, ◌<◌, ◌+◌, ◌∷◌, [], length, option_map, IfOk, IfSome, MatchOption};
ghost use Rattle.asl_json_data.specs.Data.{chain, pairs};
ghost use Rattle.asl_json.specs.View.{data_of, items_of, members_of};
ghost use Rattle.asl_json_write.specs.Pointers.{index_part, name_part};
ghost use Rattle.asl_lint_files.specs.Pointing.{after, is_end, way_among_items, way_among_members, way_in};

use asl_json::{Json, Member};
use asl_json_write::Pointer;
use std::alloc::{AllocError, Global};

/// A step of the way of a pointer: to the part of a value, of this number, and what is left of the pointer there.
#[derive(Clone, Copy)]
struct Onward<'a, 'b> {
    number: usize,
    there: &'a Json,
    left: &'b [u8],
}

fn is_end(rest: &[u8]) -> bool
    ensures { result ≡ is_end rest.now }
{
    match rest {
        [] => true,
        [byte, ..] => *byte == b'/',
    }
}

/// What stands behind a part of a pointer, where that begins with it.
fn after<'a>(part: &[u8], pointer: &'a [u8]) -> Option<&'a [u8]>
    ensures value { option_map (λ r. r.now) result ≡ after part.now pointer.now }
    ensures shorter { IfSome result (λ r. length r.now + length part.now ≡ length pointer.now) }
{
    if !pointer.starts_with(part) {
        return None;
    }
    let rest = &pointer[part.len()..];
    if is_end(rest) { Some(rest) } else { None }
}

/// What stands behind the part of an item's number.
fn after_index<'a>(
    alloc: Global,
    number: usize,
    pointer: &'a [u8],
) -> Result<Option<&'a [u8]>, AllocError>
    ensures value { IfOk result (λ o. option_map (λ r. r.now) o ≡ after (index_part number) pointer.now) }
    ensures shorter { IfOk result (λ o. IfSome o (λ r. length r.now < length pointer.now)) }
{
    let part = Pointer::whole(alloc).at_index(number)?;
    Ok(after(part.as_str().as_bytes(), pointer))
}

/// What stands behind the part of a member's key.
fn after_name<'a>(
    alloc: Global,
    key: &str,
    pointer: &'a [u8],
) -> Result<Option<&'a [u8]>, AllocError>
    ensures value { IfOk result (λ o. option_map (λ r. r.now) o ≡ after (name_part key.now) pointer.now) }
    ensures shorter { IfOk result (λ o. IfSome o (λ r. length r.now < length pointer.now)) }
{
    let part = Pointer::whole(alloc).at_name(key)?;
    Ok(after(part.as_str().as_bytes(), pointer))
}

/// The step to one of these items, if a pointer goes to one.
fn to_item<'a, 'b>(
    alloc: Global,
    items: &'a [Json],
    pointer: &'b [u8],
) -> Result<Option<Onward<'a, 'b>>, AllocError>
    ensures way { IfOk result (λ o. MatchOption o
        (way_among_items 0 (chain (items_of items.now)) pointer.now ≡ [])
        (λ s. way_among_items 0 (chain (items_of items.now)) pointer.now
        ≡ s.number ∷ way_in (data_of s.there.now) s.left.now)) }
    ensures shorter { IfOk result (λ o. IfSome o (λ s. length s.left.now < length pointer.now)) }
{
    for (number, item) in items.iter().enumerate() {
        if let Some(left) = after_index(alloc, number, pointer)? {
            return Ok(Some(Onward {
                number,
                there: item,
                left,
            }));
        }
    }
    Ok(None)
}

/// The step to one of these members, if a pointer goes to one.
fn to_member<'a, 'b>(
    alloc: Global,
    members: &'a [Member],
    pointer: &'b [u8],
) -> Result<Option<Onward<'a, 'b>>, AllocError>
    ensures way { IfOk result (λ o. MatchOption o
        (way_among_members 0 (pairs (members_of members.now)) pointer.now ≡ [])
        (λ s. way_among_members 0 (pairs (members_of members.now)) pointer.now
        ≡ s.number ∷ way_in (data_of s.there.now) s.left.now)) }
    ensures shorter { IfOk result (λ o. IfSome o (λ s. length s.left.now < length pointer.now)) }
{
    for (number, member) in members.iter().enumerate() {
        if let Some(left) = after_name(alloc, member.key.as_str(), pointer)? {
            return Ok(Some(Onward {
                number,
                there: &member.value,
                left,
            }));
        }
    }
    Ok(None)
}

/// The step that a pointer goes on by, if it goes on.
fn to_part<'a, 'b>(
    alloc: Global,
    value: &'a Json,
    pointer: &'b [u8],
) -> Result<Option<Onward<'a, 'b>>, AllocError>
    ensures way { IfOk result (λ o. MatchOption o (way_in (data_of value.now) pointer.now ≡ [])
        (λ s. way_in (data_of value.now) pointer.now
        ≡ s.number ∷ way_in (data_of s.there.now) s.left.now)) }
    ensures shorter { IfOk result (λ o. IfSome o (λ s. length s.left.now < length pointer.now)) }
{
    match value {
        Json::List(items) => to_item(alloc, items.values(), pointer),
        Json::Dict(members) => to_member(alloc, members.members(), pointer),
        _ => Ok(None),
    }
}

/// The numbers of the items and members on the way of a pointer, as far as there are any. The error is that memory ran out.
pub(crate) fn way_to(alloc: Global, value: &Json, pointer: &[u8]) -> Result<Vec<usize>, AllocError>
    ensures { IfOk result (λ way. way.items ≡ way_in (data_of value.now) pointer.now) }
{
    let mut way = Vec::new(alloc);
    let mut here = value;
    let mut rest = pointer;
    while let Some(step) = to_part(alloc, here, rest)? {
        way.push(step.number)?;
        here = step.there;
        rest = step.left;
    }
    Ok(way)
}

// Whether a text may read what stands at a chain of keys of the Context Object, by its bytes.
ghost use Rattle.std.specs.Prelude.{◌≡◌, map, option_map};
ghost use Rattle.asl_json_data.specs.Data.{chain, pairs};
ghost use Rattle.asl_json.specs.View.{data_of};
ghost use Rattle.asl_path.specs.Grammar.{is_name_byte as name_byte};
ghost use Rattle.asl_step_reads.specs.Reading.{some_text_in, some_text_among};
ghost use Rattle.asl_step_reads.specs.Mentions.{behind as left_behind, may_lead, path_may_lead, some_path_may_lead, text_may_read, may_read};

use asl_json::{Items, Json, Members};

/// What follows a key that stands in front.
fn behind<'a>(key: &[u8], bytes: &'a [u8]) -> Option<&'a [u8]>
    ensures { option_map (λ t. t.now) result ≡ left_behind key.now bytes.now }
{
    let mut rest = bytes;
    for byte in key {
        let Some((first, others)) = rest.split_first() else {
            return None;
        };
        if *byte != *first {
            return None;
        }
        rest = others;
    }
    Some(rest)
}

/// Whether a name in a path may hold the byte.
#[tactic(auto, unfolding(asl_path::specs::Grammar::is_name_byte, asl_path::specs::Grammar::is_digit))]
fn is_name_byte(byte: u8) -> bool
    ensures { result ≡ name_byte byte }
{
    byte >= 128 || byte.is_ascii_alphanumeric() || byte == b'_' || byte == b'-'
}

/// Whether a path that goes on so behind its root may lead to the keys, to what holds what stands there, or into it.
fn may_lead(keys: &[&str], bytes: &[u8]) -> bool
    ensures { result ≡ may_lead (map (λ k. k.now) keys.now) bytes.now }
{
    let mut rest = bytes;
    for key in keys {
        let Some((first, others)) = rest.split_first() else {
            return true;
        };
        if *first != b'.' {
            return !is_name_byte(*first);
        }
        let Some(further) = behind(key.as_bytes(), others) else {
            return false;
        };
        rest = further;
    }
    true
}

/// Whether two dollars stand first, and a path that goes on so may lead to the keys.
fn path_may_lead(keys: &[&str], bytes: &[u8]) -> bool
    ensures { result ≡ path_may_lead (map (λ k. k.now) keys.now) bytes.now }
{
    let Some((first, others)) = bytes.split_first() else {
        return false;
    };
    if *first != b'$' {
        return false;
    }
    let Some((second, rest)) = others.split_first() else {
        return false;
    };
    *second == b'$' && may_lead(keys, rest)
}

/// Whether such a path may begin somewhere.
fn some_path_may_lead(keys: &[&str], bytes: &[u8]) -> bool
    ensures { result ≡ some_path_may_lead (map (λ k. k.now) keys.now) bytes.now }
{
    let mut rest = bytes;
    while let Some((_first, others)) = rest.split_first() {
        if path_may_lead(keys, rest) {
            return true;
        }
        rest = others;
    }
    false
}

fn text_may_read(keys: &[&str], bytes: &[u8]) -> bool
    ensures { result ≡ text_may_read (map (λ k. k.now) keys.now) bytes.now }
{
    let Some((first, _others)) = bytes.split_first() else {
        return false;
    };
    if *first == b'$' {
        path_may_lead(keys, bytes)
    } else {
        some_path_may_lead(keys, bytes)
    }
}

/// Whether some text of a value may read what stands at a chain of keys of the Context Object. If none may, none reads it, by the law
/// `a_text_reads_what_it_spells`. Takes no memory. Its cost is the length of the texts.
#[cycle(may_read)]
pub fn may_read(keys: &[&str], value: &Json) -> bool
    ensures { result ≡ may_read (map (λ k. k.now) keys.now) (data_of value.now) }
{
    match value {
        Json::Null | Json::Bool(_) | Json::Num(_) => false,
        Json::Text(text) => text_may_read(keys, text.as_str().as_bytes()),
        Json::List(items) => some_item_may_read(keys, items),
        Json::Dict(members) => some_member_may_read(keys, members),
    }
}

#[cycle(may_read)]
fn some_item_may_read(keys: &[&str], items: &Items) -> bool
    ensures { result ≡ some_text_in (text_may_read (map (λ k. k.now) keys.now)) (chain items.now) }
{
    let values = items.values();
    for value in values {
        if may_read(keys, value) {
            return true;
        }
    }
    false
}

#[cycle(may_read)]
fn some_member_may_read(keys: &[&str], members: &Members) -> bool
    ensures { result
        ≡ some_text_among (text_may_read (map (λ k. k.now) keys.now)) (pairs members.now) }
{
    let pairs = members.members();
    for member in pairs {
        if may_read(keys, &member.value) {
            return true;
        }
    }
    false
}

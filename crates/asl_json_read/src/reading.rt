// Reading from left to right.
ghost use Rattle.std.specs.Prelude.{◌≡◌, ◌<◌, ◌+◌, ◌∷◌, ◌++◌, [], true, false, List, length, IfOk, IfErr, Ok};
ghost use Rattle.std.specs.Str.{IsUtf8};
ghost use Rattle.asl_json_data.specs.Grammar.{open_bracket, open_brace};
ghost use Rattle.asl_json_data.specs.Text.{quote};
ghost use Rattle.asl_json_data.specs.Data.{Data, list, dict, chain, pairs};
ghost use Rattle.asl_json.specs.View.{data_of, members_of};
ghost use Rattle.asl_json_data.specs.Distinct.{has_key};
ghost use Rattle.asl_json_data.specs.Limits.{max_depth};
ghost use Rattle.asl_json_scan.specs.Open.{Frame, in_list, in_dict};
ghost use Rattle.asl_json_scan.specs.private.Machine.{fault, value, key, first, after, word, run};
ghost use Rattle.asl_json_scan.specs.private.Leads.{NoSpaceFirst, begins, FirstIsNot, NotClosed, WantsValue, Leads};
ghost use Rattle.asl_json.specs.Keys.{Knows};

use crate::number::number;
use crate::quoted::quoted_text;
use asl_json::{Items, Json, Keys, Member, Members, Txt};
use asl_json_scan::{Fault, Kind, Stop, after_byte, begins_number, skip_spaces, syntax};
use std::alloc::Global;

/// How many lists and objects may stand open at once.
const MAX_DEPTH: usize = 64;

/// A key that these members lack, and what follows its colon.
fn key<'a>(
    alloc: Global,
    bytes: &'a [u8],
    members: &[Member],
    keys: &Keys,
) -> Result<(Txt, &'a [u8]), Stop>
    requires utf8 { IsUtf8 bytes.now }
    requires known { Knows keys.now (members_of members.now) }
    ensures run { (st : List Frame)
        → Leads (λ x. run true value (in_dict (members_of members.now) x.0 ∷ st) x.1.now) result
        (run true (key (members_of members.now)) st bytes.now) }
    ensures shorter { IfOk result (λ x. length x.1.now < length bytes.now) }
    ensures utf8 { IfOk result (λ x. IsUtf8 x.1.now) }
    ensures new { IfOk result (λ x. has_key x.0 (members_of members.now) ≡ false) }
{
    let rest = skip_spaces(bytes);
    let Some(inside) = after_byte(rest, b'"') else {
        return Err(syntax(rest));
    };
    let (name, behind) = quoted_text(alloc, inside)?;
    if keys.has(members, name.as_str()) {
        return Err(Stop::Fault(Fault {
            kind: Kind::Duplicate,
            left: rest.len(),
        }));
    }
    let behind = skip_spaces(behind);
    let Some(value) = after_byte(behind, b':') else {
        return Err(syntax(behind));
    };
    Ok((name, value))
}

/// What follows the letters of a word.
fn letters<'a>(bytes: &'a [u8], expected: &[u8]) -> Result<&'a [u8], Stop>
    requires some { 0 < length expected.now }
    requires utf8 { IsUtf8 bytes.now }
    requires ascii { IsUtf8 expected.now }
    ensures run { (d : Data) (st : List Frame)
        → Leads (λ x. run true (after d) st x.now) result
        (run true (word expected.now d) st bytes.now) }
    ensures shorter { IfOk result (λ x. length x.now < length bytes.now) }
    ensures utf8 { IfOk result (λ x. IsUtf8 x.now) }
{
    let mut i = 0;
    while i < expected.len() && i < bytes.len() && bytes[i] == expected[i] {
        i += 1;
    }
    if i < expected.len() {
        return Err(syntax(&bytes[i..]));
    }
    Ok(&bytes[i..])
}

/// A value that is a word, where none else begins.
fn word_value(bytes: &[u8]) -> Result<(Json, &[u8]), Stop>
    requires { IsUtf8 bytes.now }
    ensures run { (st : List Frame) → NoSpaceFirst bytes.now → FirstIsNot quote bytes.now
        → FirstIsNot open_bracket bytes.now → FirstIsNot open_brace bytes.now
        → begins bytes.now ≡ false → NotClosed st bytes.now
        → Leads (λ x. run true (after (data_of x.0)) st x.1.now) result
        (run true value st bytes.now) }
    ensures shorter { IfOk result (λ x. length x.1.now < length bytes.now) }
    ensures utf8 { IfOk result (λ x. IsUtf8 x.1.now) }
{
    if let Some(inside) = after_byte(bytes, b'n') {
        let rest = letters(inside, b"ull")?;
        return Ok((Json::Null, rest));
    }
    if let Some(inside) = after_byte(bytes, b't') {
        let rest = letters(inside, b"rue")?;
        return Ok((Json::Bool(true), rest));
    }
    if let Some(inside) = after_byte(bytes, b'f') {
        let rest = letters(inside, b"alse")?;
        return Ok((Json::Bool(false), rest));
    }
    Err(syntax(bytes))
}

/// That a bracket or brace opens a level too many where the rest begins.
fn too_deep(rest: &[u8]) -> Stop
    ensures { result ≡ Stop.Fault (fault Kind.Depth (length rest.now)) }
{
    Stop::Fault(Fault {
        kind: Kind::Depth,
        left: rest.len(),
    })
}

/// A value, with so many levels that may still open, and what follows it.
#[cycle(read)]
fn value(alloc: Global, bytes: &[u8], levels: usize) -> Result<(Json, &[u8]), Stop>
    requires { IsUtf8 bytes.now }
    ensures run { (st : List Frame) → length st + levels ≡ max_depth → WantsValue st bytes.now
        → Leads (λ x. run true (after (data_of x.0)) st x.1.now) result
        (run true value st bytes.now) }
    ensures shorter { IfOk result (λ x. length x.1.now < length bytes.now) }
    ensures utf8 { IfOk result (λ x. IsUtf8 x.1.now) }
{
    let rest = skip_spaces(bytes);
    if let Some(inside) = after_byte(rest, b'"') {
        let (content, behind) = quoted_text(alloc, inside)?;
        return Ok((Json::Text(content), behind));
    }
    if let Some(inside) = after_byte(rest, b'[') {
        if levels == 0 {
            return Err(too_deep(rest));
        }
        let (items, behind) = items(alloc, inside, levels - 1)?;
        return Ok((Json::List(items), behind));
    }
    if let Some(inside) = after_byte(rest, b'{') {
        if levels == 0 {
            return Err(too_deep(rest));
        }
        let (members, behind) = members(alloc, inside, levels - 1)?;
        return Ok((Json::Dict(members), behind));
    }
    if begins_number(rest) {
        let (found, behind) = number(rest)?;
        return Ok((Json::Num(found), behind));
    }
    word_value(rest)
}

/// The items of a list behind its opening bracket, and what follows its closing bracket.
#[cycle(read)]
fn items(alloc: Global, bytes: &[u8], levels: usize) -> Result<(Items, &[u8]), Stop>
    requires { IsUtf8 bytes.now }
    ensures run { (st : List Frame) → length st + levels + 1 ≡ max_depth
        → Leads (λ x. run true (after (list (chain x.0))) st x.1.now) result
        (run true value (in_list [] ∷ st) bytes.now) }
    ensures shorter { IfOk result (λ x. length x.1.now < length bytes.now) }
    ensures utf8 { IfOk result (λ x. IsUtf8 x.1.now) }
{
    let mut values = Vec::new(alloc);
    let mut rest = skip_spaces(bytes);
    if let Some(behind) = after_byte(rest, b']') {
        return Ok((Items::of_values(values), behind));
    }
    loop {
        let (item, behind) = value(alloc, rest, levels)?;
        values.push(item)?;
        let behind = skip_spaces(behind);
        if let Some(closed) = after_byte(behind, b']') {
            return Ok((Items::of_values(values), closed));
        }
        let Some(next) = after_byte(behind, b',') else {
            return Err(syntax(behind));
        };
        rest = next;
    }
}

/// The members of an object behind its opening brace, and what follows its closing brace.
#[cycle(read)]
fn members(alloc: Global, bytes: &[u8], levels: usize) -> Result<(Members, &[u8]), Stop>
    requires { IsUtf8 bytes.now }
    ensures run { (st : List Frame) → length st + levels + 1 ≡ max_depth
        → Leads (λ x. run true (after (dict (pairs x.0))) st x.1.now) result
        (run true first st bytes.now) }
    ensures shorter { IfOk result (λ x. length x.1.now < length bytes.now) }
    ensures utf8 { IfOk result (λ x. IsUtf8 x.1.now) }
{
    let mut members = Members::new(alloc);
    let mut keys = Keys::new();
    let mut rest = skip_spaces(bytes);
    if let Some(behind) = after_byte(rest, b'}') {
        return Ok((members, behind));
    }
    loop {
        let (name, behind) = key(alloc, rest, members.members(), &keys)?;
        let (member, behind) = value(alloc, behind, levels)?;
        keys.add(alloc, members.members(), name.as_str())?;
        members.push(name, member)?;
        let behind = skip_spaces(behind);
        if let Some(closed) = after_byte(behind, b'}') {
            return Ok((members, closed));
        }
        let Some(next) = after_byte(behind, b',') else {
            return Err(syntax(behind));
        };
        rest = next;
    }
}

/// The value that bytes are as a whole.
pub(crate) fn whole(alloc: Global, bytes: &[u8]) -> Result<Json, Stop>
    requires { IsUtf8 bytes.now }
    ensures { Leads (λ v. Ok (data_of v)) result (run true value [] bytes.now) }
{
    let (found, behind) = value(alloc, bytes, MAX_DEPTH)?;
    let rest = skip_spaces(behind);
    if rest.len() > 0 {
        return Err(syntax(rest));
    }
    Ok(found)
}

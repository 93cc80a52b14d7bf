// Paths: the least value in which one names a part, and the part that it names.
ghost use Rattle.std.specs.Prelude.{◌≡◌, ◌<◌, ◌∷◌, IfOk, IfSome, MatchOption, option_map, string_bytes};
ghost use Rattle.asl_json.specs.View.{data_of, items_of};
ghost use Rattle.asl_path.specs.Laws.{MeansNothing};
ghost use Rattle.asl_mock_sample.specs.Merging.{anything};
ghost use Rattle.asl_mock_sample.specs.Texts.{cut};
ghost use Rattle.asl_mock_sample.specs.Paths.{found, placed, digit_of, number_from, fillers, nth_item, is_quoted, in_list, below_cut, below, is_behind, stripped, behind, wants_behind, path_wants};

use crate::merging::{anything, or_anything};
use crate::texts::cut;
use asl_json::{Items, Json, Members};
use asl_path::{PathFault, PutFault, RefPath, a_path_has_one_meaning};
use std::alloc::{AllocError, Global};

/// A text as a path, where it is one.
fn path_in(alloc: Global, text: &str) -> Result<Option<RefPath>, AllocError>
    ensures { IfOk result (λ o. MatchOption o (MeansNothing text.now) (λ p. p ≡ text.now)) }
{
    a_path_has_one_meaning();
    match RefPath::read(alloc, text) {
        Ok(path) => Ok(Some(path)),
        Err(PathFault::PathProfile(_)) => Ok(None),
        Err(PathFault::OutOfMemory) => Err(AllocError),
    }
}

/// A copy of the part of a value that a path names; where there is none, what stands for anything.
pub(crate) fn found(alloc: Global, path: &str, value: &Json) -> Result<Json, AllocError>
    ensures { IfOk result (λ v. data_of v ≡ found path.now (data_of value.now)) }
{
    match path_in(alloc, path)? {
        Some(path) => or_anything(alloc, path.get(value)),
        None => anything(alloc),
    }
}

/// The value at a path of names, in objects that have nothing else.
fn placed(alloc: Global, path: &str, value: Json) -> Result<Json, AllocError>
    ensures { IfOk result (λ v. data_of v ≡ placed path.now (data_of value)) }
{
    let Some(path) = path_in(alloc, path)? else {
        return anything(alloc);
    };
    match path.put(alloc, Json::Dict(Members::new(alloc)), value) {
        Ok(value) => Ok(value),
        Err(PutFault::NoMatch(_base, _part)) => anything(alloc),
        Err(PutFault::OutOfMemory(_base, _part)) => Err(AllocError),
    }
}

/// What a digit means.
fn digit_of(byte: u8) -> Option<usize>
    ensures value { result ≡ digit_of byte }
    ensures below { IfSome result (λ d. d < 10) }
{
    if byte < 48 {
        return None;
    }
    if byte > 57 {
        return None;
    }
    Some((byte - 48) as usize)
}

/// The number that the digits in front spell; one past 63 goes no further.
fn number_in(bytes: &[u8]) -> usize
    ensures { result ≡ number_from 0 bytes.now }
{
    let mut number: usize = 0;
    for byte in bytes {
        let Some(digit) = digit_of(*byte) else {
            return number;
        };
        if number >= 64 {
            return number;
        }
        number = number * 10 + digit;
    }
    number
}

/// So many that stand for anything.
#[tactic(auto, using(crate::proofs::Filling::fillers_more))]
fn fillers(alloc: Global, count: usize) -> Result<Vec<Json>, AllocError>
    ensures { IfOk result (λ v. items_of v.items ≡ fillers count) }
{
    let mut values = Vec::new(alloc);
    for _ in 0..count {
        values.push(anything(alloc)?)?;
    }
    Ok(values)
}

/// A list in which a value is the item of this number.
pub(crate) fn nth_item(alloc: Global, number: usize, value: Json) -> Result<Json, AllocError>
    ensures { IfOk result (λ v. data_of v ≡ nth_item number (data_of value)) }
{
    let mut values = fillers(alloc, number)?;
    values.push(value)?;
    Ok(Json::List(Items::of_values(values)))
}

fn is_quoted(bytes: &[u8]) -> bool
    ensures { result ≡ is_quoted bytes.now }
{
    match bytes {
        [] => false,
        [first, ..] => *first == 39 || *first == 34,
    }
}

/// A text behind a dollar sign.
fn from_here(alloc: Global, behind: &str) -> Result<String, AllocError>
    ensures { IfOk result (λ t. string_bytes t ≡ 36 ∷ behind.now) }
{
    let mut path = String::from_str(alloc, "$")?;
    path.push_str(behind)?;
    Ok(path)
}

/// The value under the names of a path.
fn below_here(alloc: Global, behind: &str, value: Json) -> Result<Json, AllocError>
    ensures { IfOk result (λ v. data_of v ≡ placed (36 ∷ behind.now) (data_of value)) }
{
    let path = from_here(alloc, behind)?;
    placed(alloc, path.as_str(), value)
}

/// The value in a list under the names in front, at the index before the bracket closes, under the names behind it.
fn in_list(alloc: Global, front: &str, inside: &str, value: Json) -> Result<Json, AllocError>
    ensures { IfOk result (λ v. data_of v ≡ in_list front.now (cut 93 inside.now) (data_of value)) }
{
    let Some((index, behind)) = cut(inside, ']') else {
        return anything(alloc);
    };
    let part = below_here(alloc, behind, value)?;
    let list = nth_item(alloc, number_in(index.as_bytes()), part)?;
    placed(alloc, front, list)
}

/// The least value in which a path, of which one step at most is an index, names this value. A path of more than 1,000 bytes tells nothing.
fn below(alloc: Global, path: &str, value: Json) -> Result<Json, AllocError>
    ensures { IfOk result (λ v. data_of v ≡ below path.now (data_of value)) }
{
    if path.len() > 1000 {
        return anything(alloc);
    }
    let Some((front, inside)) = cut(path, '[') else {
        return placed(alloc, path, value);
    };
    if is_quoted(inside.as_bytes()) {
        return placed(alloc, path, value);
    }
    in_list(alloc, front, inside, value)
}

/// Whether these bytes begin with a step, or are none.
fn is_behind(bytes: &[u8]) -> bool
    ensures { result ≡ is_behind bytes.now }
{
    match bytes {
        [] => true,
        [first, ..] => *first == b'.' || *first == b'[',
    }
}

/// What stands behind a word that a text begins with.
pub(crate) fn stripped<'a>(word: &str, text: &'a str) -> Option<&'a str>
    ensures { option_map (λ t. t.now) result ≡ stripped word.now text.now }
{
    text.strip_prefix(word)
}

/// What stands behind the root, of a path from it.
fn behind<'a>(root: &str, path: &'a str) -> Option<&'a str>
    ensures { option_map (λ t. t.now) result ≡ behind root.now path.now }
{
    match stripped(root, path) {
        Some(rest) => {
            if is_behind(rest.as_bytes()) {
                Some(rest)
            } else {
                None
            }
        }
        None => None,
    }
}

/// What is wanted of a root, where this is wanted of the part that a path names.
pub(crate) fn path_wants(
    alloc: Global,
    root: &str,
    path: &str,
    wanted: &Json,
) -> Result<Json, AllocError>
    ensures { IfOk result (λ v. data_of v ≡ path_wants root.now path.now (data_of wanted.now)) }
{
    match behind(root, path) {
        Some(behind) => {
            let path = from_here(alloc, behind)?;
            below(alloc, path.as_str(), wanted.try_clone(alloc)?)
        }
        None => anything(alloc),
    }
}

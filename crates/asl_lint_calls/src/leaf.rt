// Arguments that are no calls.
ghost use Rattle.std.specs.Prelude.{◌≡◌, IfOk, option_map};
ghost use Rattle.asl_json.specs.View.{data_of};
ghost use Rattle.asl_intrinsic.specs.Grammar.{is_inside, is_escaped as escaped};
ghost use Rattle.asl_intrinsic.specs.private.Steps.{is_path};
ghost use Rattle.asl_lint_calls.specs.Reading.{first_is, inner_text, is_spelled, constant_value};

use crate::cutting::{after_first, before_last};
use asl_json::Json;
use asl_json_read::{JsonFault, read};
use asl_path::{PathFault, RefPath};
use std::alloc::{AllocError, Global};

/// Whether this byte stands first.
pub(crate) fn first_is(byte: u8, text: &str) -> bool
    ensures { result ≡ first_is byte text.now }
{
    let bytes = text.as_bytes();
    bytes.len() > 0 && bytes[0] == byte
}

/// Whether this byte may stand behind a backslash.
#[tactic(auto, unfolding(asl_intrinsic::specs::Grammar::is_escaped))]
fn is_escaped(byte: u8) -> bool
    ensures { result ≡ escaped byte }
{
    byte == b'\'' || byte == b'\\' || byte == b'{' || byte == b'}'
}

/// Whether a text may stand between two apostrophes.
fn is_inside(text: &str) -> bool
    ensures { result ≡ is_inside text.now }
{
    let mut is_behind = false;
    for byte in text.as_bytes() {
        if is_behind {
            if !is_escaped(*byte) {
                return false;
            }
            is_behind = false;
        } else if *byte == b'\\' {
            is_behind = true;
        } else if *byte == b'\'' {
            return false;
        }
    }
    !is_behind
}

/// The text between the apostrophes, as it is written there.
pub(crate) fn inner_text(piece: &str) -> Option<&str>
    ensures { option_map (λ t. t.now) result ≡ inner_text piece.now }
{
    let inside = before_last(after_first(piece, b'\'')?, b'\'')?;
    if is_inside(inside) {
        Some(inside)
    } else {
        None
    }
}

/// Whether a text is a path.
pub(crate) fn is_path(alloc: Global, text: &str) -> Result<bool, AllocError>
    ensures { IfOk result (λ b. b ≡ is_path text.now) }
{
    match RefPath::read(alloc, text) {
        Ok(_) => Ok(true),
        Err(PathFault::PathProfile(_)) => Ok(false),
        Err(PathFault::OutOfMemory) => Err(AllocError),
    }
}

/// Whether null, a truth value or a number is spelled so.
fn is_spelled(value: &Json, piece: &str) -> bool
    ensures { result ≡ is_spelled (data_of value.now) piece.now }
{
    match value {
        Json::Null => piece == "null",
        Json::Bool(true) => piece == "true",
        Json::Bool(false) => piece == "false",
        Json::Num(number) => piece == number.spelling(),
        _ => false,
    }
}

/// Null, a truth value or a number.
pub(crate) fn constant_value(alloc: Global, piece: &str) -> Result<Option<Json>, AllocError>
    ensures { IfOk result (λ o. option_map data_of o ≡ constant_value piece.now) }
{
    match read(alloc, piece.as_bytes()) {
        Ok(value) => {
            if is_spelled(&value, piece) {
                Ok(Some(value))
            } else {
                Ok(None)
            }
        }
        Err(JsonFault::OutOfMemory) => Err(AllocError),
        Err(_) => Ok(None),
    }
}

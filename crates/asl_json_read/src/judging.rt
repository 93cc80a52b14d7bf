// Reading bytes as a JSON value.
ghost use Rattle.std.specs.Prelude.{◌≡◌, ◌<◌, ◌≤◌, ◌↔◌, Some, ℕ, List, Option, option_map, length, take, IfOk, IfErr, IfSome};
ghost use Rattle.std.specs.Str.{IsUtf8};
ghost use Rattle.std.specs.Str.Lossy.{utf8_valid_len};
ghost use Rattle.asl_json_data.specs.Data.{Data};
ghost use Rattle.asl_json.specs.View.{data_of};
ghost use Rattle.asl_json_data.specs.Limits.{max_len};
ghost use Rattle.asl_json_data.specs.Reads.{ReadsAs};
ghost use Rattle.asl_json_read.specs.Wrong.{HasFault, IsFaultOf, IsFirstOf, IsRead, placed, FitsIn, at_end};
ghost use Rattle.asl_json_read.specs.declared.fault.JsonFault.{JsonFault};
ghost use Rattle.asl_json_read.specs.Reading.{value_read, IsReading, ReadsAtAnySize};

use crate::fault::JsonFault;
use crate::reading::whole;
use asl_json::Json;
use asl_json_scan::{Kind, Stop};
use std::alloc::{AllocError, Global};
use std::str;

const MAX_LEN: usize = 1048576;

/// The fault at its place from the start.
fn placed(len: usize, stop: Stop) -> JsonFault
    requires { FitsIn len stop }
    ensures { result ≡ placed len stop }
{
    match stop {
        Stop::Memory => JsonFault::OutOfMemory,
        Stop::Fault(fault) => {
            let at = len - fault.left;
            match fault.kind {
                Kind::Syntax | Kind::Lone => JsonFault::Syntax(at),
                Kind::Duplicate => JsonFault::Duplicate(at),
                Kind::Depth => JsonFault::Depth(at),
                Kind::Number => JsonFault::Number(at),
            }
        }
    }
}

/// Whether a fault stands at the end.
fn is_at_end(stop: Stop) -> bool
    ensures { result ≡ at_end stop }
{
    match stop {
        Stop::Memory => false,
        Stop::Fault(fault) => fault.left == 0,
    }
}

/// What is wrong with bytes of which only a front is UTF-8.
fn malformed(alloc: Global, bytes: &[u8], end: usize) -> JsonFault
    requires end_is { end ≡ utf8_valid_len bytes.now }
    requires inside { end < length bytes.now }
    requires small { length bytes.now ≤ max_len }
    requires utf8 { IsUtf8 (take end bytes.now) }
    ensures fault { IsFaultOf bytes.now result }
    ensures first { IsFirstOf bytes.now result }
{
    let Err(stop) = whole(alloc, &bytes[..end]) else {
        return JsonFault::Utf8(end);
    };
    if is_at_end(stop) {
        return JsonFault::Utf8(end);
    }
    placed(end, stop)
}

/// Reads bytes as a JSON text (RFC 8259) of this profile: at most 1,048,576 bytes in UTF-8, at most 64 lists and objects
/// in one another, numbers of at most 40 bytes, an amount below 10^18 and a whole number of units of 10^-9, and no key twice
/// in an object.
///
/// Of the faults of the bytes the answer is `J5 Size`, else the one with the least place, and at one place the first of
/// `J6 Utf8`, `J1 Syntax`, `J3 Depth`, `J4 Number` and `J2 Duplicate`.
pub fn read(alloc: Global, bytes: &[u8]) -> Result<Json, JsonFault>
    // What is read is a text of the value.
    ensures found { IfOk result (λ v. ReadsAs bytes.now (data_of v)) }
    // Each such text is read so, unless memory runs out.
    ensures only { (v : Data) → ReadsAs bytes.now v → IsRead data_of v result }
    // The fault is there.
    ensures fault { IfErr result (IsFaultOf bytes.now) }
    // None comes before it.
    ensures first { IfErr result (IsFirstOf bytes.now) }
    // A text is read as `value_read` says.
    ensures value { IsUtf8 bytes.now → IsReading data_of (value_read bytes.now) result }
    // What is read has none.
    ensures faultless { IfOk result (λ _. (f : JsonFault) → HasFault bytes.now f → ⊥) }
{
    if bytes.len() > MAX_LEN {
        return Err(JsonFault::Size);
    }
    if let Err(error) = str::from_utf8(bytes) {
        return Err(malformed(alloc, bytes, error.valid_up_to()));
    }
    match whole(alloc, bytes) {
        Ok(value) => Ok(value),
        Err(stop) => Err(placed(bytes.len(), stop)),
    }
}

/// The value that bytes spell in the limits that `read` has for values, however many bytes these are; whoever hands them in
/// limits them. The error is that memory ran out.
pub fn read_any_size(alloc: Global, bytes: &[u8]) -> Result<Option<Json>, AllocError>
    // What is read is a text of the value.
    ensures found { IfOk result (λ o. IfSome o (λ v. ReadsAtAnySize bytes.now (data_of v))) }
    // Each such text is read so.
    ensures only { IfOk result (λ o. (v : Data) → ReadsAtAnySize bytes.now v → option_map data_of o ≡ Some v) }
{
    if let Err(_) = str::from_utf8(bytes) {
        return Ok(None);
    }
    match whole(alloc, bytes) {
        Ok(value) => Ok(Some(value)),
        Err(Stop::Memory) => Err(AllocError),
        Err(Stop::Fault(_)) => Ok(None),
    }
}

/// A text is read as at most one value. The law has no code.
pub fn a_text_is_read_as_one_value()
    ensures { (b : List ℕ) (v w : Data) → ReadsAs b v → ReadsAs b w → v ≡ w }
{}

/// `value_read` has the value that a text spells in the limits, and none of other texts. The law has no code.
pub fn a_text_has_the_value_that_it_spells()
    ensures { (b : List ℕ) (v : Data) → IsUtf8 b → (value_read b ≡ Some v) ↔ ReadsAs b v }
{}

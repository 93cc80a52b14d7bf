// The functions that encode, decode and hash.
ghost use Rattle.std.specs.Prelude.{◌≡◌, Result, Ok, Err};
ghost use Rattle.asl_json_data.specs.Results.{◌>>=◌ as and_then};
ghost use Rattle.base64.specs.Engines.{standard};
ghost use Rattle.base64.specs.GeneralPurpose.{decode_of};
ghost use Rattle.asl_json.specs.View.{data_of};
ghost use Rattle.asl_intrinsic_functions.specs.Gives.{Gives};
ghost use Rattle.asl_intrinsic_functions.specs.Outcome.{or_fails};
ghost use Rattle.asl_intrinsic_functions.specs.Coding.{base64_encode, base64_decode, text_of, digest_named, in_hexadecimal, hash};
ghost use Rattle.asl_intrinsic_functions.specs.declared.fault.Reason.TheVariants.{Range};

use crate::convert::text;
use crate::fault::{EvalFault, Reason};
use asl_json::{Json, Txt};
use base64::DecodeAllocError;
use base64::engine::general_purpose::STANDARD;
use md5::{Digest as _, Md5};
use sha1::Sha1;
use sha2::{Digest, Sha256, Sha384, Sha512};
use std::alloc::Global;

/// `States.Base64Encode`
pub(crate) fn base64_encode(alloc: Global, value: &Json) -> Result<Json, EvalFault>
    ensures { Gives data_of (base64_encode (data_of value.now)) result }
{
    let text = text(value)?;
    Ok(Json::Text(Txt::new(STANDARD.encode(alloc, text.as_bytes())?)))
}

/// `States.Base64Decode`
pub(crate) fn base64_decode(alloc: Global, value: &Json) -> Result<Json, EvalFault>
    ensures { Gives data_of (base64_decode (data_of value.now)) result }
{
    let text = text(value)?;
    decoded(alloc, text)
}

/// The text that bytes are.
fn in_utf8(bytes: Vec<u8>) -> Result<Json, EvalFault>
    ensures { Gives data_of (text_of (Ok bytes.items)) result }
{
    match String::from_utf8(bytes) {
        Ok(string) => Ok(Json::Text(Txt::new(string))),
        Err(_) => Err(EvalFault::Fails(Reason::Undecoded)),
    }
}

/// The text whose coding this is.
fn decoded(alloc: Global, text: &str) -> Result<Json, EvalFault>
    ensures { Gives data_of (text_of (decode_of standard text.now)) result }
{
    match STANDARD.decode(alloc, text.as_bytes()) {
        Ok(bytes) => in_utf8(bytes),
        Err(DecodeAllocError::OutOfMemory) => Err(EvalFault::OutOfMemory),
        Err(DecodeAllocError::DecodeError(_)) => Err(EvalFault::Fails(Reason::Undecoded)),
    }
}

/// The digest of a text by the name of its algorithm, in lowercase hexadecimal.
fn digest(alloc: Global, name: &str, text: &str) -> Result<Json, EvalFault>
    ensures { Gives data_of
        (and_then (or_fails Range (digest_named name.now text.now)) in_hexadecimal) result }
{
    let bytes = text.as_bytes();
    let digest = if name == "MD5" {
        hex::encode(alloc, Md5::digest(bytes))?
    } else if name == "SHA-1" {
        hex::encode(alloc, Sha1::digest(bytes))?
    } else if name == "SHA-256" {
        hex::encode(alloc, Sha256::digest(bytes))?
    } else if name == "SHA-384" {
        hex::encode(alloc, Sha384::digest(bytes))?
    } else if name == "SHA-512" {
        hex::encode(alloc, Sha512::digest(bytes))?
    } else {
        return Err(EvalFault::Fails(Reason::Range));
    };
    Ok(Json::Text(Txt::new(digest)))
}

/// `States.Hash`
pub(crate) fn hash(alloc: Global, value: &Json, name: &Json) -> Result<Json, EvalFault>
    ensures { Gives data_of (hash (data_of value.now) (data_of name.now)) result }
{
    let text_value = text(value)?;
    let text_name = text(name)?;
    digest(alloc, text_name, text_value)
}

// What stands in front of bytes.
ghost use Rattle.std.specs.Prelude.{◌≡◌, ◌<◌, ◌≤◌, ◌∷◌, ◌++◌, [], true, false, length, take, slice_index, IfSome, IfNone, OnOk, OnErr, string_bytes};
ghost use Rattle.std.specs.Str.{IsUtf8};
ghost use Rattle.asl_json_data.specs.Grammar.{is_space, AreSpaces};
ghost use Rattle.asl_json_data.specs.Text.{is_plain, ArePlain};
ghost use Rattle.asl_json_scan.specs.private.Machine.{fault};
ghost use Rattle.asl_json_scan.specs.private.Leads.{Skips, FirstIsNot, NoPlainFirst};

use crate::fault::{Fault, Kind, Stop};
use std::alloc::AllocError;
use std::str;

#[tactic(auto, unfolding(asl_json_data::specs::Grammar::is_space))]
fn is_space(byte: u8) -> bool
    ensures { result ≡ is_space byte }
{
    byte == b' ' || byte == b'\t' || byte == b'\n' || byte == b'\r'
}

#[tactic(auto, unfolding(asl_json_data::specs::Text::is_plain))]
pub(crate) fn is_plain(byte: u8) -> bool
    ensures { result ≡ is_plain byte }
{
    byte >= b' ' && byte != b'"' && byte != b'\\'
}

const Y: bool = true;

const N: bool = false;

/// Whether each byte may stand in a text as it is.
const PLAIN: [bool; 256] = [
    N, N, N, N, N, N, N, N, N, N, N, N, N, N, N, N, N, N, N, N, N, N, N, N, N, N, N, N, N, N, N, N,
    Y, Y, N, Y, Y, Y, Y, Y, Y, Y, Y, Y, Y, Y, Y, Y, Y, Y, Y, Y, Y, Y, Y, Y, Y, Y, Y, Y, Y, Y, Y, Y,
    Y, Y, Y, Y, Y, Y, Y, Y, Y, Y, Y, Y, Y, Y, Y, Y, Y, Y, Y, Y, Y, Y, Y, Y, Y, Y, Y, Y, N, Y, Y, Y,
    Y, Y, Y, Y, Y, Y, Y, Y, Y, Y, Y, Y, Y, Y, Y, Y, Y, Y, Y, Y, Y, Y, Y, Y, Y, Y, Y, Y, Y, Y, Y, Y,
    Y, Y, Y, Y, Y, Y, Y, Y, Y, Y, Y, Y, Y, Y, Y, Y, Y, Y, Y, Y, Y, Y, Y, Y, Y, Y, Y, Y, Y, Y, Y, Y,
    Y, Y, Y, Y, Y, Y, Y, Y, Y, Y, Y, Y, Y, Y, Y, Y, Y, Y, Y, Y, Y, Y, Y, Y, Y, Y, Y, Y, Y, Y, Y, Y,
    Y, Y, Y, Y, Y, Y, Y, Y, Y, Y, Y, Y, Y, Y, Y, Y, Y, Y, Y, Y, Y, Y, Y, Y, Y, Y, Y, Y, Y, Y, Y, Y,
    Y, Y, Y, Y, Y, Y, Y, Y, Y, Y, Y, Y, Y, Y, Y, Y, Y, Y, Y, Y, Y, Y, Y, Y, Y, Y, Y, Y, Y, Y, Y, Y,
];

/// The same as `is_plain`, by a table: quicker for one byte, slower for several at once.
fn is_plain_alone(byte: u8) -> bool
    ensures { result ≡ is_plain byte }
{
    PLAIN[usize::from(byte)]
}

/// How many spaces there are at the front.
fn space_len(bytes: &[u8]) -> usize
    ensures spaces { AreSpaces (take result bytes.now) }
    ensures within { result ≤ length bytes.now }
    ensures stops { result < length bytes.now → is_space (slice_index bytes.now result) ≡ false }
{
    let mut end = 0;
    while end < bytes.len() {
        if !is_space(bytes[end]) {
            return end;
        }
        end += 1;
    }
    end
}

/// What follows the spaces at the front.
pub fn skip_spaces(bytes: &[u8]) -> &[u8]
    ensures skips { Skips bytes.now result.now }
    ensures utf8 { IsUtf8 bytes.now → IsUtf8 result.now }
{
    let end = space_len(bytes);
    &bytes[end..]
}

/// What follows this byte, where it stands first.
pub fn after_byte(bytes: &[u8], byte: u8) -> Option<&[u8]>
    requires { byte < 128 }
    ensures found { IfSome result (λ rest. bytes.now ≡ byte ∷ rest.now) }
    ensures none { IfNone result (FirstIsNot byte bytes.now) }
    ensures utf8 { IfSome result (λ rest. IsUtf8 bytes.now → IsUtf8 rest.now) }
{
    if bytes.len() > 0 && bytes[0] == byte {
        return Some(&bytes[1..]);
    }
    None
}

/// The first byte, and what follows it.
pub fn first_byte(bytes: &[u8]) -> Option<(u8, &[u8])>
    ensures found { IfSome result (λ x. bytes.now ≡ x.0 ∷ x.1.now) }
    ensures none { IfNone result (bytes.now ≡ []) }
    ensures utf8 { IfSome result (λ x. x.0 < 128 → IsUtf8 bytes.now → IsUtf8 x.1.now) }
{
    if bytes.len() > 0 {
        return Some((bytes[0], &bytes[1..]));
    }
    None
}

/// How many bytes are looked at together.
const BLOCK: usize = 16;

/// Whether all bytes may stand in a text as they are. It looks at each of them, so that the processor can look at several at once.
fn are_plain(bytes: &[u8]) -> bool
    ensures { result ≡ true → ArePlain bytes.now }
{
    let mut all = true;
    for byte in bytes {
        all &= is_plain(*byte);
    }
    all
}

/// Where the whole blocks that may stand in a text as they are end, from a place on.
fn plain_blocks_end(bytes: &[u8], from: usize) -> usize
    requires plain { ArePlain (take from bytes.now) }
    requires within { from ≤ length bytes.now }
    ensures plain { ArePlain (take result bytes.now) }
    ensures within { result ≤ length bytes.now }
{
    let mut end = from;
    while bytes.len() - end >= BLOCK {
        if !are_plain(&bytes[end..end + BLOCK]) {
            return end;
        }
        end += BLOCK;
    }
    end
}

/// Where the bytes that may stand in a text as they are end, between two places.
fn plain_end(bytes: &[u8], from: usize, to: usize) -> usize
    requires plain { ArePlain (take from bytes.now) }
    requires order { from ≤ to }
    requires within { to ≤ length bytes.now }
    ensures plain { ArePlain (take result bytes.now) }
    ensures within { result ≤ to }
    ensures stops { result < to → is_plain (slice_index bytes.now result) ≡ false }
{
    let mut end = from;
    while end < to {
        if !is_plain_alone(bytes[end]) {
            return end;
        }
        end += 1;
    }
    end
}

/// How many bytes at the front may stand in a text as they are. Most runs are short, so blocks begin behind the first bytes.
#[inline(always)]
fn plain_len(bytes: &[u8]) -> usize
    ensures plain { ArePlain (take result bytes.now) }
    ensures within { result ≤ length bytes.now }
    ensures stops { result < length bytes.now → is_plain (slice_index bytes.now result) ≡ false }
{
    let near = bytes.len().min(BLOCK);
    let end = plain_end(bytes, 0, near);
    if end < near {
        return end;
    }
    let blocks = plain_blocks_end(bytes, end);
    plain_end(bytes, blocks, bytes.len())
}

/// The bytes at the front that may stand in a text as they are, and what follows them.
#[inline(always)]
pub fn split_plain(bytes: &[u8]) -> (&[u8], &[u8])
    ensures parts { bytes.now ≡ result.0.now ++ result.1.now }
    ensures plain { ArePlain result.0.now }
    ensures stops { NoPlainFirst result.1.now }
    ensures utf8 { IsUtf8 bytes.now → IsUtf8 result.0.now × IsUtf8 result.1.now }
{
    let end = plain_len(bytes);
    (&bytes[..end], &bytes[end..])
}

/// That a text breaks off where the rest begins.
pub fn syntax(rest: &[u8]) -> Stop
    ensures { result ≡ Stop.Fault (fault Kind.Syntax (length rest.now)) }
{
    Stop::Fault(Fault {
        kind: Kind::Syntax,
        left: rest.len(),
    })
}

/// These bytes as a text. They are known to be UTF-8, and aren't looked at again.
pub fn as_text(bytes: &[u8]) -> &str
    requires { IsUtf8 bytes.now }
    ensures { result.now ≡ bytes.now }
{
    unsafe { str::from_utf8_unchecked(bytes) }
}

/// Appends bytes to a text.
pub fn append(text: &mut String, bytes: &[u8]) -> Result<(), AllocError>
    requires { IsUtf8 bytes.now }
    ensures ok { OnOk result (string_bytes text.new ≡ string_bytes text.old ++ bytes.now) }
    ensures err { OnErr result (string_bytes text.new ≡ string_bytes text.old) }
{
    text.push_str(as_text(bytes))
}

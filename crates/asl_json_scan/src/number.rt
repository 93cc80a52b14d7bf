// How far a number goes.
ghost use Rattle.std.specs.Prelude.{◌≡◌, ◌<◌, ◌≤◌, ◌+◌, ◌↔◌, true, false, List, ℕ, length, take, slice_index, Some, None, IfOk, IfErr};
ghost use Rattle.asl_json_data.specs.Number.{is_digit, IsNumeral, IsNumeralFront, is_over};
ghost use Rattle.asl_json_scan.specs.Open.{Frame};
ghost use Rattle.asl_json_scan.specs.private.Machine.{value, run};
ghost use Rattle.asl_json_data.specs.private.NumberParts.{leading, marked, pointed, next_part, part_behind, may_end, takes_digits};
ghost use Rattle.asl_json_scan.specs.private.Leads.{Fails, begins, IsNumberFront};

use crate::fault::Stop;
use crate::front::syntax;
use asl_json_data::{Part, is_mark, is_over, is_point, is_sign};

#[tactic(auto, unfolding(asl_json_data::specs::Number::is_digit))]
fn is_digit(byte: u8) -> bool
    ensures { result ≡ is_digit byte }
{
    byte >= b'0' && byte <= b'9'
}

/// Whether a number begins with the first byte.
pub fn begins_number(bytes: &[u8]) -> bool
    ensures { result ≡ begins bytes.now }
{
    match bytes.first() {
        Some(first) => *first == b'-' || is_digit(*first),
        None => false,
    }
}

/// How a number goes on with its first digit.
#[tactic(auto, unfolding(asl_json_data::specs::private::NumberParts::leading))]
fn leading(byte: u8) -> Option<Part>
    ensures { result ≡ leading byte }
{
    if byte == b'0' {
        return Some(Part::Nought);
    }
    if is_digit(byte) {
        Some(Part::Whole)
    } else {
        None
    }
}

/// How it goes on with an exponent.
#[tactic(auto, unfolding(asl_json_data::specs::private::NumberParts::marked))]
fn marked(byte: u8) -> Option<Part>
    ensures { result ≡ marked byte }
{
    if is_mark(byte) {
        Some(Part::Mark)
    } else {
        None
    }
}

/// How it goes on with a point or an exponent.
#[tactic(auto, unfolding(asl_json_data::specs::private::NumberParts::pointed))]
fn pointed(byte: u8) -> Option<Part>
    ensures { result ≡ pointed byte }
{
    if is_point(byte) {
        return Some(Part::Point);
    }
    marked(byte)
}

/// How much of a number there is behind one byte more, where a number may go on with it.
#[tactic(auto, unfolding(asl_json_data::specs::private::NumberParts::next_part))]
fn next_part(part: Part, byte: u8) -> Option<Part>
    ensures { result ≡ next_part part byte }
{
    let digit = is_digit(byte);
    match part {
        Part::Start if byte == b'-' => Some(Part::Minus),
        Part::Start | Part::Minus => leading(byte),
        Part::Whole if digit => Some(Part::Whole),
        Part::Nought | Part::Whole => pointed(byte),
        Part::Point | Part::Fraction if digit => Some(Part::Fraction),
        Part::Point => None,
        Part::Fraction => marked(byte),
        Part::Mark | Part::Sign | Part::Exponent if digit => Some(Part::Exponent),
        Part::Mark if is_sign(byte) => Some(Part::Sign),
        Part::Mark | Part::Sign | Part::Exponent => None,
    }
}

/// Whether a digit leaves this part as it is.
fn takes_digits(part: Part) -> bool
    ensures { result ≡ takes_digits part }
{
    matches!(part, Part::Whole | Part::Fraction | Part::Exponent)
}

/// Where the digits end that leave a part as it is, from behind that part on.
fn digits_end(bytes: &[u8], from: usize, part: Part) -> usize
    requires part { part_behind (Some Part.Start) (take from bytes.now) ≡ Some part }
    requires takes { takes_digits part ≡ true }
    requires within { from ≤ length bytes.now }
    ensures part { part_behind (Some Part.Start) (take result bytes.now) ≡ Some part }
    ensures within { result ≤ length bytes.now }
    ensures onwards { from ≤ result }
{
    let mut end = from;
    while end < bytes.len() && is_digit(bytes[end]) {
        end += 1;
    }
    end
}

/// How many bytes in front a number may begin with, and how much of it they are. Its cost is that number of bytes.
fn longest_number(bytes: &[u8]) -> (usize, Part)
    ensures within { result.0 ≤ length bytes.now }
    ensures part { part_behind (Some Part.Start) (take result.0 bytes.now) ≡ Some result.1 }
    ensures stops { result.0 < length bytes.now
        → next_part result.1 (slice_index bytes.now result.0) ≡ None }
{
    let mut part = Part::Start;
    let mut end = 0;
    while end < bytes.len() {
        let Some(next) = next_part(part, bytes[end]) else {
            return (end, part);
        };
        part = next;
        end += 1;
        if takes_digits(part) {
            end = digits_end(bytes, end, part);
        }
    }
    (end, part)
}

/// How many bytes in front a number may begin with, at most, and whether they are a number
/// (RFC 8259, section 6). Its cost is that number of bytes.
pub fn number_front(bytes: &[u8]) -> (usize, bool)
    ensures within { result.0 ≤ length bytes.now }
    ensures alive { IsNumeralFront (take result.0 bytes.now) }
    ensures dead { result.0 < length bytes.now
        → IsNumeralFront (take (result.0 + 1) bytes.now) → ⊥ }
    ensures whole { (result.1 ≡ true) ↔ IsNumeral (take result.0 bytes.now) }
{
    let (end, part) = longest_number(bytes);
    (end, part.may_end())
}

/// How many bytes the number in front has, and the part in which it ends.
pub fn number_len(bytes: &[u8]) -> Result<(usize, Part), Stop>
    requires { begins bytes.now ≡ true }
    ensures found { IfOk result (λ x. IsNumberFront bytes.now x.0) }
    ensures part { IfOk result (λ x. (part_behind (Some Part.Start) (take x.0 bytes.now) ≡ Some x.1)
        × (may_end x.1 ≡ true)) }
    ensures broken { IfErr result (λ e. (st : List Frame) → Fails e (run true value st bytes.now)) }
{
    let (end, part) = longest_number(bytes);
    if !part.may_end() {
        return Err(syntax(&bytes[end..]));
    }
    Ok((end, part))
}

/// Whether a number of so many bytes that ends in this part has so few digits that it keeps the limits.
fn is_small(len: usize, part: Part) -> bool
    requires { may_end part ≡ true }
    ensures { result ≡ true → (s : List ℕ) → length s ≡ len
        → part_behind (Some Part.Start) s ≡ Some part → is_over s ≡ false }
{
    match part {
        Part::Nought | Part::Whole => len <= 18,
        Part::Fraction => len <= 9,
        _ => false,
    }
}

/// Whether a number that ends in this part is past the limits. Of most numbers their length tells.
pub fn is_past(spelled: &[u8], part: Part) -> bool
    requires { (part_behind (Some Part.Start) spelled.now ≡ Some part) × (may_end part ≡ true) }
    ensures { result ≡ is_over spelled.now }
{
    if is_small(spelled.len(), part) {
        return false;
    }
    is_over(spelled)
}

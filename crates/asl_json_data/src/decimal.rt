// What numbers mean, in units of 10^-9.
ghost use Rattle.std.specs.Prelude.{◌≡◌, ℕ, ◌+◌, ◌*◌, ◌-◌, ◌^◌, ◌<◌, ◌≤◌, ◌++◌, [], min, true, false, cond, pos, neg_ℤ, length, take, drop, slice_index, IfSome, MatchOption};
ghost use Rattle.asl_json_data.specs.Number.{is_digit, is_point, is_mark, is_sign, AreDigits, IsNumeral, is_negative, magnitude, unsigned, before, behind, raised, lowered, digits_value, amount_limit, is_over, units_of, integer, fraction, exponent};
ghost use Rattle.asl_json_data.specs.private.Places.{AreZeros, EndsAboveZero, IsStripped, IsShifted, IsUnshiftable, IsAmount, IsBeyond};

/// How many bytes a number may have.
const MAX_LEN: usize = 40;

/// 10^18 in units of 10^-9: no amount is as large.
const AMOUNT_LIMIT: u128 = 1_000_000_000_000_000_000_000_000_000;

/// How many digits behind the point are in units of 10^-9.
const DECIMALS: usize = 9;

/// An exponent as large leaves nothing but 0 in the limits.
const MAX_EXPONENT: usize = 1000;

#[tactic(auto, unfolding(crate::specs::Number::is_point))]
pub fn is_point(byte: u8) -> bool
    ensures { result ≡ is_point byte }
{
    byte == b'.'
}

/// Whether an exponent begins with this byte.
#[tactic(auto, unfolding(crate::specs::Number::is_mark))]
pub fn is_mark(byte: u8) -> bool
    ensures { result ≡ is_mark byte }
{
    byte == b'e' || byte == b'E'
}

#[tactic(auto, unfolding(crate::specs::Number::is_sign))]
pub fn is_sign(byte: u8) -> bool
    ensures { result ≡ is_sign byte }
{
    byte == b'+' || byte == b'-'
}

/// Whether a minus stands in front.
fn is_negative(bytes: &[u8]) -> bool
    ensures { result ≡ is_negative bytes.now }
{
    bytes.len() > 0 && bytes[0] == b'-'
}

/// What follows the minus, where there is one.
fn behind_minus(bytes: &[u8]) -> &[u8]
    ensures { result.now ≡ magnitude bytes.now }
{
    if is_negative(bytes) {
        &bytes[1..]
    } else {
        bytes
    }
}

/// What follows the plus or minus, where there is one.
fn behind_sign(bytes: &[u8]) -> &[u8]
    ensures { result.now ≡ unsigned bytes.now }
{
    if bytes.len() > 0 && is_sign(bytes[0]) {
        &bytes[1..]
    } else {
        bytes
    }
}

/// What stands before the mark of the exponent, and what behind it.
fn at_mark(text: &[u8]) -> (&[u8], &[u8])
    ensures before { result.0.now ≡ before is_mark text.now }
    ensures behind { result.1.now ≡ behind is_mark text.now }
{
    let mut end = 0;
    while end < text.len() {
        if is_mark(text[end]) {
            return (&text[..end], &text[end + 1..]);
        }
        end += 1;
    }
    (text, &text[end..])
}

/// What stands before the point, and what behind it.
fn at_point(text: &[u8]) -> (&[u8], &[u8])
    ensures before { result.0.now ≡ before is_point text.now }
    ensures behind { result.1.now ≡ behind is_point text.now }
{
    let mut end = 0;
    while end < text.len() {
        if is_point(text[end]) {
            return (&text[..end], &text[end + 1..]);
        }
        end += 1;
    }
    (text, &text[end..])
}

#[tactic(auto, using(crate::proofs::Figures::digit_small))]
/// What a digit means.
fn digit_value(digit: u8) -> u8
    requires { is_digit digit ≡ true }
    ensures value { result ≡ digit - 48 }
    ensures small { result < 10 }
{
    digit - b'0'
}

/// The number that digits spell behind those of another, where it is below the limit.
fn number_after(front: u128, digits: &[u8]) -> Option<u128>
    requires digits { AreDigits digits.now }
    requires below { front < amount_limit }
    ensures { MatchOption result (amount_limit ≤ digits_value front digits.now)
        (λ n. (n ≡ digits_value front digits.now) × (n < amount_limit)) }
{
    let mut number = front;
    for digit in digits {
        let value = u128::from(digit_value(*digit));
        number = number * 10 + value;
        if number >= AMOUNT_LIMIT {
            return None;
        }
    }
    Some(number)
}

/// No number as large is worked with in 64 bits.
const SHORT_LIMIT: u64 = 1_000_000_000_000_000_000;

/// The number that digits spell behind those of another, where 64 bits are enough for working it out.
fn short_number(front: u64, digits: &[u8]) -> Option<u64>
    requires { AreDigits digits.now }
    ensures { IfSome result (λ n. n ≡ digits_value front digits.now) }
{
    let mut number = front;
    for digit in digits {
        if number >= SHORT_LIMIT {
            return None;
        }
        number = number * 10 + u64::from(digit_value(*digit));
    }
    Some(number)
}

/// The number that digits before and behind a point spell together, where it is below the limit.
fn digits_number(integer: &[u8], fraction: &[u8]) -> Option<u128>
    requires integer { AreDigits integer.now }
    requires fraction { AreDigits fraction.now }
    ensures { let value = digits_value (digits_value 0 integer.now) fraction.now
        in MatchOption result (amount_limit ≤ value) (λ n. (n ≡ value) × (n < amount_limit)) }
{
    if let Some(front) = short_number(0, integer) {
        if let Some(number) = short_number(front, fraction) {
            return Some(u128::from(number));
        }
    }
    let front = number_after(0, integer)?;
    number_after(front, fraction)
}

/// The number that an exponent's digits spell, or the largest one that matters where it is larger.
fn exponent_size(digits: &[u8]) -> usize
    requires { AreDigits digits.now }
    ensures { result ≡ min (digits_value 0 digits.now) 1000 }
{
    let mut size = 0;
    for digit in digits {
        let value = usize::from(digit_value(*digit));
        size = size * 10 + value;
        if size >= MAX_EXPONENT {
            return MAX_EXPONENT;
        }
    }
    size
}

/// How far an exponent is above 0, and how far below, as far as it matters.
fn exponent_parts(exponent: &[u8]) -> (usize, usize)
    requires { AreDigits (unsigned exponent.now) }
    ensures raised { result.0 ≡ min (raised exponent.now) 1000 }
    ensures lowered { result.1 ≡ min (lowered exponent.now) 1000 }
{
    let size = exponent_size(behind_sign(exponent));
    if is_negative(exponent) {
        (0, size)
    } else {
        (size, 0)
    }
}

/// How many digits there are without the zeros at the end.
fn significant_len(digits: &[u8]) -> usize
    ensures within { result ≤ length digits.now }
    ensures zeros { AreZeros (drop result digits.now) }
    ensures last { EndsAboveZero (take result digits.now) }
{
    let mut end = digits.len();
    while end > 0 && digits[end - 1] == b'0' {
        end -= 1;
    }
    end
}

/// A number above 0 with so many zeros more, where it is below the limit.
fn scaled(number: u128, zeros: usize) -> Option<u128>
    requires some { 0 < number }
    requires below { number < amount_limit }
    ensures { MatchOption result (amount_limit ≤ number * 10 ^ zeros)
        (λ n. (n ≡ number * 10 ^ zeros) × (n < amount_limit)) }
{
    let mut scaled = number;
    for _zero in 0..zeros {
        scaled *= 10;
        if scaled >= AMOUNT_LIMIT {
            return None;
        }
    }
    Some(scaled)
}

/// A number that doesn't end in a zero, its digits moved up and down, where what is made of it is whole and below the limit.
fn shifted(number: u128, up: usize, down: usize) -> Option<u128>
    requires { number < amount_limit }
    ensures { MatchOption result (IsUnshiftable number up down) (IsShifted number up down) }
{
    if number == 0 {
        return Some(0);
    }
    if up < down {
        return None;
    }
    scaled(number, up - down)
}

/// How many digits there are before the point and behind it without the zeros at the end.
fn stripped(integer: &[u8], fraction: &[u8]) -> (usize, usize)
    ensures { IsStripped integer.now fraction.now result.0 result.1 }
{
    let decimals = significant_len(fraction);
    if decimals > 0 {
        return (integer.len(), decimals);
    }
    (significant_len(integer), 0)
}

/// 10 to the power of a small number.
fn tens(zeros: usize) -> u128
    requires { zeros ≤ 9 }
    ensures { result ≡ 10 ^ zeros }
{
    match zeros {
        0 => 1,
        1 => 10,
        2 => 100,
        3 => 1_000,
        4 => 10_000,
        5 => 100_000,
        6 => 1_000_000,
        7 => 10_000_000,
        8 => 100_000_000,
        _ => 1_000_000_000,
    }
}

/// The units of 10^-9 that digits before and a few behind a point mean without an exponent, where they are below the limit.
fn plain_amount(integer: &[u8], fraction: &[u8]) -> Option<u128>
    requires integer { AreDigits integer.now }
    requires fraction { AreDigits fraction.now }
    requires few { length fraction.now ≤ 9 }
    ensures { MatchOption result (IsBeyond integer.now fraction.now [])
        (IsAmount integer.now fraction.now []) }
{
    let number = digits_number(integer, fraction)?;
    let amount = number * tens(DECIMALS - fraction.len());
    if amount >= AMOUNT_LIMIT {
        return None;
    }
    Some(amount)
}

/// The units of 10^-9 that digits before and behind a point mean with an exponent, where they are whole and below the limit.
fn amount(integer: &[u8], fraction: &[u8], exponent: &[u8]) -> Option<u128>
    requires integer { AreDigits integer.now }
    requires fraction { AreDigits fraction.now }
    requires exponent { AreDigits (unsigned exponent.now) }
    requires short { length integer.now + length fraction.now ≤ 40 }
    ensures { MatchOption result (IsBeyond integer.now fraction.now exponent.now)
        (IsAmount integer.now fraction.now exponent.now) }
{
    if exponent.len() == 0 && fraction.len() <= DECIMALS {
        return plain_amount(integer, fraction);
    }
    let (end, decimals) = stripped(integer, fraction);
    let front = number_after(0, &integer[..end])?;
    let number = number_after(front, &fraction[..decimals])?;
    let (raised, lowered) = exponent_parts(exponent);
    shifted(
        number,
        DECIMALS + (integer.len() - end) + raised,
        decimals + lowered,
    )
}

/// An amount with its sign.
fn signed_units(negative: bool, amount: u128) -> i128
    requires { amount < amount_limit }
    ensures { result ≡ cond negative (neg_ℤ (pos amount)) (pos amount) }
{
    let units = amount as i128;
    if negative { -units } else { units }
}

/// The digits of a number before and behind its point, and its exponent with the sign.
fn parts(spelled: &[u8]) -> (&[u8], &[u8], &[u8])
    ensures integer { result.0.now ≡ integer spelled.now }
    ensures fraction { result.1.now ≡ fraction spelled.now }
    ensures exponent { result.2.now ≡ exponent spelled.now }
{
    let (significand, exponent) = at_mark(behind_minus(spelled));
    let (integer, fraction) = at_point(significand);
    (integer, fraction, exponent)
}

/// The units of 10^-9 that a number spells, where it keeps the limits.
pub fn units(spelled: &[u8]) -> Option<i128>
    requires { IsNumeral spelled.now }
    ensures { MatchOption result (is_over spelled.now ≡ true)
        (λ u. (u ≡ units_of spelled.now) × (is_over spelled.now ≡ false)) }
{
    if spelled.len() > MAX_LEN {
        return None;
    }
    let (integer, fraction, exponent) = parts(spelled);
    let amount = amount(integer, fraction, exponent)?;
    Some(signed_units(is_negative(spelled), amount))
}

/// How many digits before the point keep an amount below the limit.
const INTEGER: usize = 18;

/// Whether a number may be past the limits, by its length and those of its parts.
fn may_be_over(spelled: &[u8]) -> bool
    requires { IsNumeral spelled.now }
    ensures { result ≡ false → is_over spelled.now ≡ false }
{
    if spelled.len() > MAX_LEN {
        return true;
    }
    let (integer, fraction, exponent) = parts(spelled);
    if exponent.len() > 0 {
        return true;
    }
    integer.len() > INTEGER || fraction.len() > DECIMALS
}

/// Whether a number is past the limits. Of most numbers the lengths of its parts tell.
pub fn is_over(spelled: &[u8]) -> bool
    requires { IsNumeral spelled.now }
    ensures { result ≡ is_over spelled.now }
{
    if !may_be_over(spelled) {
        return false;
    }
    match units(spelled) {
        Some(_) => false,
        None => true,
    }
}

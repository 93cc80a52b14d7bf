// A fraction of a second at the front of a text.
ghost use Rattle.std.specs.Prelude.{◌≡◌, ◌<◌, ◌≤◌, ◌+◌, ◌↔◌, ◌∷◌, ◌++◌, ℕ, ℤ, List, IfSome, IfNone, IsTrue};
ghost use Rattle.std.specs.Char.{digit_value};
ghost use Rattle.std.specs.List.{All};
ghost use Rattle.std.specs.Str.Parse.{AllDigits};
ghost use Rattle.asl_time.specs.Timestamp.{IsOffset, IsRoundedUp};
ghost use Rattle.asl_time.specs.private.Parts.{BeginsWithFraction};

use crate::digits::after_byte;

/// The digits that stand first, as many as there are, and what follows them.
fn split_digits(bytes: &[u8]) -> (&[u8], &[u8])
    ensures whole { bytes.now ≡ result.0.now ++ result.1.now }
    ensures front { All (λ c. digit_value c < 10) result.0.now }
    ensures longest { (c : ℕ) (rest : List ℕ) → digit_value c < 10 → result.1.now ≡ c ∷ rest → ⊥ }
{
    for (i, byte) in bytes.iter().enumerate() {
        if !byte.is_ascii_digit() {
            return bytes.split_at(i);
        }
    }
    bytes.split_at(bytes.len())
}

/// The number that a digit means.
fn value_of(digit: u8) -> u32
    requires { digit_value digit < 10 }
    ensures value { result ≡ digit_value digit }
    ensures small { result < 10 }
{
    u32::from(digit - b'0')
}

/// Whether each digit is a zero.
fn are_zeros(digits: &[u8]) -> bool
    ensures { IsTrue result ↔ All (λ c. c ≡ 48) digits.now }
{
    digits.iter().all(|digit| *digit == b'0')
}

/// The thousandths that the digits of a fraction come to, rounded up.
fn thousandths(fraction: &[u8]) -> u32
    requires { AllDigits 10 fraction.now }
    ensures value { IsRoundedUp fraction.now result }
    ensures bound { result ≤ 1000 }
{
    match fraction {
        [] => 0,
        [a] => value_of(*a) * 100,
        [a, b] => value_of(*a) * 100 + value_of(*b) * 10,
        [a, b, c, rest @ ..] => {
            let front = value_of(*a) * 100 + value_of(*b) * 10 + value_of(*c);
            if are_zeros(rest) { front } else { front + 1 }
        }
    }
}

/// The thousandths of a fraction behind a point, rounded up, and what follows it; 0 without a point.
pub(crate) fn read_fraction(bytes: &[u8]) -> Option<(u32, &[u8])>
    ensures found { IfSome result (λ x. BeginsWithFraction bytes.now x.0 x.1.now) }
    ensures bound { IfSome result (λ x. x.0 ≤ 1000) }
    // Where an offset follows, there is one way to read it.
    ensures one { IfSome result (λ x. (n : ℕ) (zone : List ℕ) (ahead : ℤ)
        → IsOffset ahead zone → BeginsWithFraction bytes.now n zone
        → (n ≡ x.0) × (zone ≡ x.1.now)) }
    ensures none { IfNone result ((n : ℕ) (zone : List ℕ) (ahead : ℤ)
        → IsOffset ahead zone → BeginsWithFraction bytes.now n zone → ⊥) }
{
    let Some(behind) = after_byte(bytes, b'.') else {
        return Some((0, bytes));
    };
    let (fraction, rest) = split_digits(behind);
    if fraction.is_empty() {
        return None;
    }
    Some((thousandths(fraction), rest))
}

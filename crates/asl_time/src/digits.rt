// Digits and marks at the front of a text.
ghost use Rattle.std.specs.Prelude.{◌≡◌, ◌≤◌, ◌<◌, ◌+◌, ◌^◌, ◌∷◌, ◌++◌, ℕ, List, IfSome, IfNone};
ghost use Rattle.asl_time.specs.Stamp.{digits};

/// What follows a byte that stands first.
pub(crate) fn after_byte(bytes: &[u8], byte: u8) -> Option<&[u8]>
    ensures found { IfSome result (λ rest. bytes.now ≡ byte ∷ rest.now) }
    ensures none { IfNone result ((rest : List ℕ) → bytes.now ≡ byte ∷ rest → ⊥) }
{
    let (first, rest) = bytes.split_first()?;
    if *first != byte {
        return None;
    }
    Some(rest)
}

/// What a digit that stands first means, and what follows it.
fn read_digit(bytes: &[u8]) -> Option<(u32, &[u8])>
    ensures found { IfSome result (λ x. (bytes.now ≡ (48 + x.0) ∷ x.1.now) × (x.0 < 10)) }
    ensures none { IfNone result
        ((d : ℕ) (rest : List ℕ) → d < 10 → bytes.now ≡ (48 + d) ∷ rest → ⊥) }
{
    let (first, rest) = bytes.split_first()?;
    if *first < b'0' || *first > b'9' {
        return None;
    }
    Some((u32::from(*first - b'0'), rest))
}

/// The number that so many digits spell, and what follows them.
#[tactic(auto, unfolding(crate::specs::Stamp::digits))]
pub(crate) fn read_digits(bytes: &[u8], count: u32) -> Option<(u32, &[u8])>
    requires { count ≤ 9 }
    ensures found { IfSome result (λ x. bytes.now ≡ digits count x.0 ++ x.1.now) }
    ensures small { IfSome result (λ x. x.0 < 10 ^ count) }
    // No number and no rest fit.
    ensures none { IfNone result
        ((n : ℕ) (rest : List ℕ) → bytes.now ≡ digits count n ++ rest → ⊥) }
{
    if count == 0 {
        return Some((0, bytes));
    }
    let (front, behind) = read_digits(bytes, count - 1)?;
    let (last, rest) = read_digit(behind)?;
    Some((front * 10 + last, rest))
}

/// The number that two digits behind a mark spell, and what follows them.
pub(crate) fn read_two(bytes: &[u8], mark: u8) -> Option<(u32, &[u8])>
    ensures found { IfSome result (λ x. bytes.now ≡ mark ∷ digits 2 x.0 ++ x.1.now) }
    ensures small { IfSome result (λ x. x.0 < 100) }
    ensures none { IfNone result
        ((n : ℕ) (rest : List ℕ) → bytes.now ≡ mark ∷ digits 2 n ++ rest → ⊥) }
{
    let behind = after_byte(bytes, mark)?;
    let (number, rest) = read_digits(behind, 2)?;
    Some((number, rest))
}

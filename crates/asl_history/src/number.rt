// Numbers at the front of a text.
ghost use Rattle.std.specs.Prelude.{◌≡◌, ◌≤◌, ◌<◌, ◌+◌, ◌^◌, ◌∷◌, ◌++◌, ℕ, List, IfSome, IfNone, IsSomeAnd};
ghost use Rattle.std.specs.Fmt.{decimal};
ghost use Rattle.asl_history.specs.Places.{EndsNumber, step_text};

/// What a digit that stands first means, and what follows it.
fn read_digit(bytes: &[u8]) -> Option<(u32, &[u8])>
    ensures found { IfSome result (λ x. (bytes.now ≡ (48 + x.0) ∷ x.1.now) × (x.0 < 10)) }
    ensures none { IfNone result (EndsNumber bytes.now) }
{
    let (first, rest) = bytes.split_first()?;
    if *first < b'0' || *first > b'9' {
        return None;
    }
    Some((u32::from(*first - b'0'), rest))
}

/// The number of at most nine digits that the digits of a number and those that stand first spell together, and what
/// follows them.
fn more_digits(number: u32, bytes: &[u8]) -> Option<(u32, &[u8])>
    requires positive { 0 < number }
    requires few { number < 10 ^ 9 }
    ensures found { IfSome result (λ x. decimal number ++ bytes.now ≡ decimal x.0 ++ x.1.now) }
    ensures small { IfSome result (λ x. x.0 < 10 ^ 9) }
    ensures only { (n : ℕ) (rest : List ℕ) → n < 10 ^ 9 → EndsNumber rest
        → decimal number ++ bytes.now ≡ decimal n ++ rest
        → IsSomeAnd result (λ x. (x.0 ≡ n) × (x.1.now ≡ rest)) }
{
    let Some((digit, rest)) = read_digit(bytes) else {
        return Some((number, bytes));
    };
    if number >= 100_000_000 {
        return None;
    }
    more_digits(number * 10 + digit, rest)
}

/// The number in plain decimal, of at most nine digits, that stands first, and what follows it.
fn read_number(bytes: &[u8]) -> Option<(u32, &[u8])>
    ensures found { IfSome result (λ x. bytes.now ≡ decimal x.0 ++ x.1.now) }
    ensures small { IfSome result (λ x. x.0 < 10 ^ 9) }
    ensures only { (n : ℕ) (rest : List ℕ) → n < 10 ^ 9 → EndsNumber rest
        → bytes.now ≡ decimal n ++ rest → IsSomeAnd result (λ x. (x.0 ≡ n) × (x.1.now ≡ rest)) }
{
    let (digit, rest) = read_digit(bytes)?;
    if digit == 0 {
        return Some((0, rest));
    }
    more_digits(digit, rest)
}

/// The number behind a slash that stands first, and what follows it.
pub(crate) fn read_step(bytes: &[u8]) -> Option<(u32, &[u8])>
    ensures found { IfSome result (λ x. bytes.now ≡ step_text x.0 ++ x.1.now) }
    ensures small { IfSome result (λ x. x.0 < 10 ^ 9) }
    ensures only { (n : ℕ) (rest : List ℕ) → n < 10 ^ 9 → EndsNumber rest
        → bytes.now ≡ step_text n ++ rest → IsSomeAnd result (λ x. (x.0 ≡ n) × (x.1.now ≡ rest)) }
{
    let (first, rest) = bytes.split_first()?;
    if *first != b'/' {
        return None;
    }
    read_number(rest)
}

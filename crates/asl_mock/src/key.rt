// The numbers that an answer is for.
ghost use Rattle.std.specs.Prelude.{◌≡◌, ◌≤◌, IfSome};
ghost use Rattle.std.specs.Str.{all_ascii_digits};
ghost use Rattle.asl_mock.specs.Key.{number_in, span_of, span_in};

/// The numbers from the low one to the high one, both included.
#[derive(Clone, Copy, Debug, PartialEq, Eq)]
pub struct Span {
    pub low: u32,
    pub high: u32,
}

/// Whether these are decimal digits.
fn are_digits(bytes: &[u8]) -> bool
    ensures { result ≡ all_ascii_digits bytes.now }
{
    match bytes {
        [] => true,
        [first, rest @ ..] => first.is_ascii_digit() && are_digits(rest),
    }
}

/// The number that 1 to 9 decimal digits spell.
fn number(text: &str) -> Option<u32>
    ensures { result ≡ number_in text.now }
{
    let count = text.len();
    if count == 0 || count > 9 || !are_digits(text.as_bytes()) {
        return None;
    }
    let Ok(number) = text.parse::<u32>() else {
        return None;
    };
    Some(number)
}

/// The numbers from one to the other.
fn between(low: Option<u32>, high: Option<u32>) -> Option<Span>
    ensures value { result ≡ span_of low high }
    ensures order { IfSome result (λ s. s.low ≤ s.high) }
{
    let low = low?;
    let high = high?;
    if low > high {
        return None;
    }
    Some(Span { low, high })
}

/// The numbers that a key spells: `N`, or `low-high` with low at most high, each of 1 to 9 digits.
pub fn span_in(key: &str) -> Option<Span>
    ensures value { result ≡ span_in key.now }
    ensures order { IfSome result (λ s. s.low ≤ s.high) }
{
    match key.split_once('-') {
        Some((low, high)) => between(number(low), number(high)),
        None => {
            let only = number(key);
            between(only, only)
        }
    }
}

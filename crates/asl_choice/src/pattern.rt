// Patterns of texts.
ghost use Rattle.std.specs.Prelude.{◌≡◌, ◌<◌, ◌≤◌, ◌↔◌, ◌∷◌, [], ℕ, List, true, false, length, IfSome, IsNone, IsTrue};
ghost use Rattle.asl_choice.specs.declared.pattern.Token.TheVariants.{Byte, Star};
ghost use Rattle.asl_choice.specs.Patterns.{tokens, escaped as escaped_tokens, has_open_escape as is_open, Fits, fits as decided};
ghost use Rattle.asl_choice.specs.private.Taking.{IsStopped, IsFront};

/// What stands first in a pattern.
#[derive(Clone, Copy)]
pub(crate) enum Token {
    /// This byte.
    Byte(u8),
    /// Any bytes.
    Star,
    /// A backslash that says nothing.
    OpenEscape,
}

/// What stands behind a backslash, and what follows it.
fn escaped(bytes: &[u8]) -> (Token, &[u8])
    ensures tokens { escaped_tokens bytes.now ≡ result.0 ∷ tokens result.1.now }
    ensures shorter { length result.1.now ≤ length bytes.now }
{
    let Some((first, rest)) = bytes.split_first() else {
        return (Token::OpenEscape, bytes);
    };
    if *first == b'*' || *first == b'\\' {
        return (Token::Byte(*first), rest);
    }
    (Token::OpenEscape, rest)
}

/// What stands first, and what follows it.
fn first_token(pattern: &[u8]) -> Option<(Token, &[u8])>
    ensures found { IfSome result (λ x. tokens pattern.now ≡ x.0 ∷ tokens x.1.now) }
    ensures shorter { IfSome result (λ x. length x.1.now < length pattern.now) }
    ensures none { IsNone result → pattern.now ≡ [] }
{
    let (first, rest) = pattern.split_first()?;
    if *first == b'\\' {
        return Some(escaped(rest));
    }
    if *first == b'*' {
        return Some((Token::Star, rest));
    }
    Some((Token::Byte(*first), rest))
}

fn has_open_escape(pattern: &[u8]) -> bool
    ensures { result ≡ is_open (tokens pattern.now) }
{
    let mut pattern = pattern;
    while let Some((token, rest)) = first_token(pattern) {
        if let Token::OpenEscape = token {
            return true;
        }
        pattern = rest;
    }
    false
}

/// The byte that stands first, where one does, and what follows it.
fn first_byte(pattern: &[u8]) -> Option<(u8, &[u8])>
    ensures found { IfSome result (λ x. tokens pattern.now ≡ Byte x.0 ∷ tokens x.1.now) }
    ensures shorter { IfSome result (λ x. length x.1.now < length pattern.now) }
    ensures none { IsNone result → IsStopped (tokens pattern.now) }
{
    let (token, rest) = first_token(pattern)?;
    match token {
        Token::Byte(byte) => Some((byte, rest)),
        Token::Star => None,
        Token::OpenEscape => None,
    }
}

/// What follows a star that stands first.
fn after_star(pattern: &[u8]) -> Option<&[u8]>
    ensures found { IfSome result (λ rest. tokens pattern.now ≡ Star ∷ tokens rest.now) }
    ensures shorter { IfSome result (λ rest. length rest.now < length pattern.now) }
    ensures none { IsNone result → (ts : List Token) → tokens pattern.now ≡ Star ∷ ts → ⊥ }
{
    let (token, rest) = first_token(pattern)?;
    match token {
        Token::Star => Some(rest),
        Token::Byte(_) => None,
        Token::OpenEscape => None,
    }
}

/// What follows a byte that stands first in a text.
fn after_byte(text: &[u8], byte: u8) -> Option<&[u8]>
    ensures found { IfSome result (λ rest. text.now ≡ byte ∷ rest.now) }
    ensures none { IsNone result → (rest : List ℕ) → text.now ≡ byte ∷ rest → ⊥ }
{
    let (first, rest) = text.split_first()?;
    if *first != byte {
        return None;
    }
    Some(rest)
}

fn only_text_goes_on(pattern: &[u8], text: &[u8]) -> bool
    ensures on { result ≡ true → (pattern.now ≡ []) × (text.now ≡ [] → ⊥) }
    ensures off { result ≡ false → pattern.now ≡ [] → text.now ≡ [] }
{
    pattern.is_empty() && !text.is_empty()
}

fn are_over(pattern: &[u8], text: &[u8]) -> bool
    ensures { IsTrue result ↔ (pattern.now ≡ []) × (text.now ≡ []) }
{
    pattern.is_empty() && text.is_empty()
}

/// What is left of both, where the text begins with the bytes before the pattern's first star, and with a pattern without stars
/// has no others.
fn after_front<'a>(pattern: &'a [u8], text: &'a [u8]) -> Option<(&'a [u8], &'a [u8])>
    ensures found { IfSome result
        (λ x. IsFront (tokens pattern.now) text.now (tokens x.0.now) x.1.now) }
    ensures shorter { IfSome result (λ x. length x.0.now ≤ length pattern.now) }
    ensures none { IsNone result → Fits (tokens pattern.now) text.now → ⊥ }
{
    let mut pattern = pattern;
    let mut text = text;
    while let Some((byte, behind)) = first_byte(pattern) {
        text = after_byte(text, byte)?;
        pattern = behind;
    }
    if only_text_goes_on(pattern, text) {
        return None;
    }
    Some((pattern, text))
}

/// What is left of both behind the leftmost place in the text at which the bytes before the pattern's first star stand.
fn after_leftmost<'a>(pattern: &'a [u8], text: &'a [u8]) -> Option<(&'a [u8], &'a [u8])>
    ensures found { IfSome result
        (λ x. Fits (Star ∷ tokens pattern.now) text.now ↔ Fits (tokens x.0.now) x.1.now) }
    ensures stopped { IfSome result (λ x. IsStopped (tokens x.0.now)) }
    ensures shorter { IfSome result (λ x. length x.0.now ≤ length pattern.now) }
    ensures none { IsNone result → Fits (Star ∷ tokens pattern.now) text.now → ⊥ }
{
    let mut text = text;
    loop {
        if let Some((left, behind)) = after_front(pattern, text) {
            return Some((left, behind));
        }
        let (_first, rest) = text.split_first()?;
        text = rest;
    }
}

/// Whether a text is a pattern's with some texts in the place of its stars.
fn fits(pattern: &[u8], text: &[u8]) -> bool
    ensures { IsTrue result ↔ Fits (tokens pattern.now) text.now }
{
    let Some((pattern, text)) = after_front(pattern, text) else {
        return false;
    };
    let mut pattern = pattern;
    let mut text = text;
    while let Some(behind) = after_star(pattern) {
        let Some((left, rest)) = after_leftmost(behind, text) else {
            return false;
        };
        pattern = left;
        text = rest;
    }
    are_over(pattern, text)
}

/// Whether some way of replacing the pattern's stars by texts gives this text, and `None` where the pattern has an open
/// escape (Amazon States Language, "StringMatches").
///
/// In a pattern `*` stands for zero characters or more, `\*` for a star and `\\` for a backslash. A backslash before anything else
/// or at the end is an open escape. The cost is at most the length of the pattern times that of the text, and no memory is taken.
pub fn matches(pattern: &str, text: &str) -> Option<bool>
    ensures open { IsNone result ↔ (is_open (tokens pattern.now) ≡ true) }
    ensures fits { IfSome result (λ b. IsTrue b ↔ Fits (tokens pattern.now) text.now) }
    // The same as a truth value.
    ensures value { IfSome result (λ b. b ≡ decided (tokens pattern.now) text.now) }
{
    let pattern = pattern.as_bytes();
    if has_open_escape(pattern) {
        return None;
    }
    Some(fits(pattern, text.as_bytes()))
}

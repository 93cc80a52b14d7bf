// The letters of a text, one after another.
ghost use Rattle.std.specs.Prelude.{◌≡◌, ◌∷◌, ◌<◌, [], true, length, map, IfOk, IfSome, MatchOption, string_bytes};
ghost use Rattle.std.specs.Str.{chars};
ghost use Rattle.asl_intrinsic_functions.specs.Letters.{letters, character, meant};

use std::alloc::{AllocError, Global};

/// A character of a text that has escapes or has none.
#[derive(Clone, Copy)]
pub(crate) enum Letter {
    Plain(char),
    /// Behind a backslash.
    Escaped(char),
}

impl Letter {
    pub(crate) fn character(self) -> char
        ensures { result ≡ character self }
    {
        match self {
            Letter::Plain(character) | Letter::Escaped(character) => character,
        }
    }
}

/// The first character of a text, and the text behind it.
pub(crate) fn next_char(text: &str) -> Option<(char, &str)>
    ensures parts { MatchOption result (chars text.now ≡ [])
        (λ x. chars text.now ≡ x.0 ∷ chars x.1.now) }
    ensures shorter { IfSome result (λ x. length x.1.now < length text.now) }
{
    let mut rest = text.chars();
    let first = rest.next()?;
    Some((first, rest.as_str()))
}

/// The first letter of a text, and the text behind it.
pub(crate) fn next_letter(text: &str, escapes: bool) -> Option<(Letter, &str)>
    ensures parts { MatchOption result (letters escapes (chars text.now) ≡ [])
        (λ x. letters escapes (chars text.now) ≡ x.0 ∷ letters escapes (chars x.1.now)) }
    ensures shorter { IfSome result (λ x. length x.1.now < length text.now) }
{
    let (first, behind) = next_char(text)?;
    if !(escapes && first == '\\') {
        return Some((Letter::Plain(first), behind));
    }
    let (second, rest) = next_char(behind)?;
    Some((Letter::Escaped(second), rest))
}

/// What a text between apostrophes means: a backslash before a character is left out. The error is that memory ran out.
pub fn meaning(alloc: Global, written: &str) -> Result<String, AllocError>
    ensures { IfOk result (λ t. string_bytes t ≡ meant written.now) }
{
    let mut out = String::new(alloc);
    let mut rest = written;
    while let Some((letter, behind)) = next_letter(rest, true) {
        out.push(letter.character())?;
        rest = behind;
    }
    Ok(out)
}

// How many places a template has.
ghost use Rattle.std.specs.Prelude.{◌≡◌, ◌∷◌, ◌<◌, [], length, MatchOption, IfSome};
ghost use Rattle.std.specs.Str.{chars};
ghost use Rattle.asl_lint_calls.specs.Known.{holes};
ghost use Rattle.asl_lint_calls.specs.private.Looks.{look_on, fills};

/// What stands before a character of a template.
#[derive(Clone, Copy)]
pub(crate) enum Look {
    Nothing,
    /// A backslash that makes it stand for itself.
    Backslash,
    /// A brace that opens.
    Brace,
}

/// The first character of a text, and the text behind it.
fn next_char(text: &str) -> Option<(char, &str)>
    ensures parts { MatchOption result (chars text.now ≡ [])
        (λ x. chars text.now ≡ x.0 ∷ chars x.1.now) }
    ensures shorter { IfSome result (λ x. length x.1.now < length text.now) }
{
    let mut rest = text.chars();
    let first = rest.next()?;
    Some((first, rest.as_str()))
}

/// What stands before the next character, behind this one.
fn look_on(look: Look, character: char) -> Look
    ensures { result ≡ look_on look character }
{
    match look {
        Look::Backslash => Look::Nothing,
        _ if character == '\\' => Look::Backslash,
        _ if character == '{' => Look::Brace,
        _ => Look::Nothing,
    }
}

/// Whether a character ends a place.
fn fills(look: Look, character: char) -> bool
    ensures { result ≡ fills look character }
{
    matches!(look, Look::Brace) && character == '}'
}

/// How many places a template has that is written so between apostrophes.
pub(crate) fn holes(template: &str) -> usize
    ensures { result ≡ holes template.now }
{
    let mut places = 0;
    let mut look = Look::Nothing;
    let mut rest = template;
    while let Some((character, behind)) = next_char(rest) {
        if fills(look, character) {
            places += 1;
        }
        look = look_on(look, character);
        rest = behind;
    }
    places
}

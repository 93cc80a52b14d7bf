// What stands in front of a text.
ghost use Rattle.std.specs.Prelude.{◌≡◌, ◌<◌, ◌≤◌, ◌∷◌, [], List, true, false, length, take, slice_index, nat_eq, IfOk, IfErr, IfSome, IfNone, Ok};
ghost use Rattle.asl_path.specs.Grammar.{Each};
ghost use Rattle.asl_path.specs.private.Leads.{NotFirst};
ghost use Rattle.asl_intrinsic.specs.private.Steps.{prefix, opening, run};
ghost use Rattle.asl_intrinsic.specs.Tree.{Frame};
ghost use Rattle.asl_intrinsic.specs.Grammar.{is_name_byte as name_byte, states_word};
ghost use Rattle.asl_intrinsic.specs.private.Leads.{Leads, Skips, is_ascii, after_word};

use std::alloc::{AllocError, AllocFailed};

/// Why reading ends early.
#[derive(Drop)]
pub(crate) enum Halt {
    /// At a place with so many bytes left from it on, with which the text can't go on.
    At(usize),
    Memory,
}

impl From<AllocError> for Halt {
    ghost use Rattle.std.specs.Prelude.{◌≡◌};
    ghost use Rattle.asl_intrinsic.specs.declared.front.Halt.TheVariants.{Memory};

    ghost from_gives = { λ _ e. e ≡ Memory };

    fn from(_: AllocError) -> Halt {
        Halt::Memory
    }
}

impl<T: Drop> From<AllocFailed<T>> for Halt {
    ghost use Rattle.std.specs.Prelude.{◌≡◌};
    ghost use Rattle.asl_intrinsic.specs.declared.front.Halt.TheVariants.{Memory};

    ghost from_gives = { λ _ e. e ≡ Memory };

    fn from(_: AllocFailed<T>) -> Halt {
        Halt::Memory
    }
}

/// That the first of these bytes can't go on.
pub(crate) fn stuck(rest: &str) -> Halt
    ensures { result ≡ Halt.At (length rest.now) }
{
    Halt::At(rest.len())
}

/// What follows this byte, where it stands first.
pub(crate) fn after_byte(text: &str, byte: u8) -> Option<&str>
    requires { byte < 128 }
    ensures found { IfSome result (λ rest. text.now ≡ byte ∷ rest.now) }
    ensures none { IfNone result (NotFirst (λ c. nat_eq c byte) text.now) }
{
    let bytes = text.as_bytes();
    if bytes.len() > 0 && bytes[0] == byte {
        return Some(&text[1..]);
    }
    None
}

/// What follows the spaces in front.
pub(crate) fn skip_spaces(text: &str) -> &str
    ensures skips { Skips text.now result.now }
    ensures within { length result.now ≤ length text.now }
{
    let mut rest = text;
    while let Some(behind) = after_byte(rest, b' ') {
        rest = behind;
    }
    rest
}

/// What follows a word that stands in front.
pub(crate) fn after_word<'a>(text: &'a str, word: &[u8]) -> Result<&'a str, Halt>
    requires { Each is_ascii word.now }
    ensures run { Leads (λ rest. Ok rest.now) result (after_word word.now text.now) }
    ensures within { IfOk result (λ rest. length rest.now ≤ length text.now) }
{
    let mut rest = text;
    for byte in word {
        let Some(behind) = after_byte(rest, *byte) else {
            return Err(stuck(rest));
        };
        rest = behind;
    }
    Ok(rest)
}

#[tactic(auto, unfolding(crate::specs::Grammar::is_name_byte))]
fn is_name_byte(byte: u8) -> bool
    ensures { result ≡ name_byte byte }
{
    byte >= b'a' && byte <= b'z' || byte >= b'A' && byte <= b'Z' || byte >= b'0' && byte <= b'9'
}

/// How many bytes of a name stand first.
fn name_len(bytes: &[u8]) -> usize
    ensures each { Each name_byte (take result bytes.now) }
    ensures within { result ≤ length bytes.now }
    ensures ends { result < length bytes.now → name_byte (slice_index bytes.now result) ≡ false }
{
    let mut end = 0;
    while end < bytes.len() {
        if !is_name_byte(bytes[end]) {
            return end;
        }
        end += 1;
    }
    end
}

/// The name of a call, and what follows its opening bracket.
pub(crate) fn head(text: &str) -> Result<(&str, &str), Halt>
    ensures run { (st : List Frame)
        → Leads (λ x. run opening ((x.0.now, []) ∷ st) x.1.now) result
        (run (prefix states_word) st text.now) }
    ensures shorter { IfOk result (λ x. length x.1.now < length text.now) }
{
    let rest = after_word(text, b"States.")?;
    let end = name_len(rest.as_bytes());
    if end == 0 {
        return Err(stuck(rest));
    }
    let (name, spaced) = rest.split_at(end);
    let behind = skip_spaces(spaced);
    let Some(inside) = after_byte(behind, b'(') else {
        return Err(stuck(behind));
    };
    Ok((name, inside))
}

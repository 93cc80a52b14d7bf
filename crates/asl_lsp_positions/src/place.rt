// Counting on, byte by byte.
ghost use Rattle.std.specs.Prelude.{◌≡◌, ◌<◌, ◌≤◌, ◌+◌, List, ℕ, length, min};
ghost use Rattle.asl_lsp_positions.specs.Positions.{ends_here, is_line_end, units};
ghost use Rattle.asl_lsp_positions.specs.private.Places.{behind, character_behind, IsPlace};

use crate::position::{Encoding, Position};

/// What is known of an offset in a text.
#[derive(Clone, Copy, Debug, PartialEq, Eq)]
pub(crate) struct Place {
    /// In bytes.
    pub(crate) at: usize,
    /// Whether a carriage return stands before it.
    is_behind_return: bool,
    pub(crate) position: Position,
}

fn is_line_end(byte: u8) -> bool
    ensures { result ≡ is_line_end byte }
{
    byte == b'\n' || byte == b'\r'
}

/// How many lines a byte ends, by whether a carriage return stands before it.
fn ends_here(is_behind_return: bool, byte: u8) -> usize
    ensures count { result ≡ ends_here is_behind_return byte }
    ensures one { result ≤ 1 }
{
    match byte {
        b'\r' => 1,
        b'\n' if !is_behind_return => 1,
        _ => 0,
    }
}

/// How much a byte adds to the offset in its line.
fn units(encoding: Encoding, byte: u8) -> usize
    ensures count { result ≡ units encoding byte }
    ensures two { result ≤ 2 }
{
    match encoding {
        Encoding::Utf8 => 1,
        Encoding::Utf16 => match byte {
            0..=127 => 1,
            128..=191 => 0,
            192..=239 => 1,
            _ => 2,
        },
    }
}

/// The offset in its line behind this byte, from the one before it.
fn character_behind(character: usize, encoding: Encoding, byte: u8) -> usize
    requires { character + 2 ≤ usize.MAX }
    ensures { result ≡ character_behind character encoding byte }
{
    if is_line_end(byte) {
        return 0;
    }
    character + units(encoding, byte)
}

impl Place {
    /// The beginning of a text.
    pub(crate) fn start() -> Place
        ensures at { result.at ≡ 0 }
        ensures is { (e : Encoding) (t : List ℕ) → IsPlace e t result }
    {
        Place {
            at: 0,
            is_behind_return: false,
            position: Position {
                line: 0,
                character: 0,
            },
        }
    }

    /// The offset behind this one, with this byte between.
    fn behind(self, encoding: Encoding, byte: u8) -> Place
        requires at { self.at < usize.MAX }
        requires line { self.position.line < usize.MAX }
        requires character { self.position.character + 2 ≤ usize.MAX }
        ensures { result ≡ behind self encoding byte }
    {
        Place {
            at: self.at + 1,
            is_behind_return: byte == b'\r',
            position: Position {
                line: self.position.line + ends_here(self.is_behind_return, byte),
                character: character_behind(self.position.character, encoding, byte),
            },
        }
    }

    /// The next offset of a text.
    pub(crate) fn next(self, encoding: Encoding, text: &[u8]) -> Place
        requires is { IsPlace encoding text.now self }
        requires inside { self.at < length text.now }
        ensures is { IsPlace encoding text.now result }
        ensures at { result.at ≡ self.at + 1 }
    {
        self.behind(encoding, text[self.at])
    }

    /// An offset further on, at most the end of the text. Its cost is the distance.
    pub(crate) fn forward(self, encoding: Encoding, text: &[u8], to: usize) -> Place
        requires is { IsPlace encoding text.now self }
        requires before { self.at ≤ to }
        ensures is { IsPlace encoding text.now result }
        ensures at { result.at ≡ min to (length text.now) }
    {
        let end = to.min(text.len());
        let mut here = self;
        while here.at < end {
            here = here.next(encoding, text);
        }
        here
    }
}

// Lines and columns.
ghost use Rattle.std.specs.Prelude.{◌≡◌, ◌<◌, ◌≤◌, ◌+◌, ◌∷◌, ◌++◌, [], List, ℕ, length, take};
ghost use Rattle.asl_json_spans.specs.Position.{IsPosition, begins_character};

/// Where a byte of a text is. A line ends with its line feed.
#[derive(Clone, Copy, Debug, PartialEq, Eq)]
pub struct Position {
    /// The byte, from 0.
    pub at: usize,
    /// How many line feeds stand before it.
    pub lines: usize,
    /// How many characters stand before it in its line.
    pub characters: usize,
}

/// Whether a byte of a text in UTF-8 begins a character.
fn begins_character(byte: u8) -> bool
    ensures { result ≡ begins_character byte }
{
    byte < 128 || 192 <= byte
}

impl Position {
    /// The first byte of a text.
    pub fn start() -> Position
        ensures at { result.at ≡ 0 }
        ensures position { IsPosition [] result.lines result.characters }
    {
        Position {
            at: 0,
            lines: 0,
            characters: 0,
        }
    }

    /// A byte further on, at most the end of the text. Its cost is the distance.
    pub fn forward(self, text: &[u8], to: usize) -> Position
        requires { IsPosition (take self.at text.now) self.lines self.characters }
        ensures at { self.at ≤ to → to ≤ length text.now → result.at ≡ to }
        ensures position { IsPosition (take result.at text.now) result.lines result.characters }
    {
        let end = to.min(text.len());
        let mut here = self;
        while here.at < end {
            here = here.behind(text[here.at]);
        }
        here
    }

    /// The byte behind this one, which is of this value.
    fn behind(self, byte: u8) -> Position
        requires at { self.at < usize.MAX }
        requires lines { self.lines < usize.MAX }
        requires characters { self.characters < usize.MAX }
        ensures at { result.at ≡ self.at + 1 }
        ensures position { (t : List ℕ) → IsPosition t self.lines self.characters
            → IsPosition (t ++ byte ∷ []) result.lines result.characters }
    {
        let at = self.at + 1;
        if byte == b'\n' {
            return Position {
                at,
                lines: self.lines + 1,
                characters: 0,
            };
        }
        if !begins_character(byte) {
            return Position {
                at,
                lines: self.lines,
                characters: self.characters,
            };
        }
        Position {
            at,
            lines: self.lines,
            characters: self.characters + 1,
        }
    }
}

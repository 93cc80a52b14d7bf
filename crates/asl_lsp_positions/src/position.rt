// Positions in a document.

/// What the offset in a line counts (Language Server Protocol 3.17, "Position Encoding Kind").
#[derive(Clone, Copy, Debug, PartialEq, Eq)]
pub enum Encoding {
    /// Bytes of the text in UTF-8.
    Utf8,
    /// Code units of the text in UTF-16. Every client has it.
    Utf16,
}

/// A place between two characters of a document (Language Server Protocol 3.17, "Position").
#[derive(Clone, Copy, Debug, PartialEq, Eq)]
pub struct Position {
    /// The line, from 0.
    pub line: usize,
    /// The offset in it, from 0.
    pub character: usize,
}

// Stretches of a text.

/// Where a part of a text begins and where it ends, in bytes from the start.
#[derive(Clone, Copy, Debug, PartialEq, Eq)]
pub struct Span {
    pub begin: usize,
    /// The byte behind its last one.
    pub end: usize,
}

/// Where a value stands in a text.
#[derive(Clone, Copy, Debug, PartialEq, Eq)]
pub struct Node {
    /// Its key with the quotes; empty where the value is no member.
    pub key: Span,
    pub value: Span,
    /// How many values it is, with those in it.
    pub size: usize,
}

// What stands in a stream.
ghost use Rattle.std.specs.Prelude.{◌≡◌};

use std::marker::Model;

/// The content part of a message. Contracts see it as the list of its bytes.
#[derive(Drop)]
pub struct Bytes {
    pub(crate) bytes: Vec<u8>,
}

impl Model for Bytes {
    ghost use Rattle.std.specs.Prelude.{List, ℕ};

    ghost Value = { List ℕ };

    ghost view = { λ a. a.bytes.items };
}

impl Bytes {
    /// The bytes.
    pub fn as_slice(&self) -> &[u8]
        ensures { result.now ≡ self.now }
    {
        self.bytes.as_slice()
    }
}

/// What stands in a stream.
#[derive(Drop)]
pub enum Item {
    /// The content part of a message.
    Content(Bytes),
    /// A header part that doesn't say how long a content part is, or has more than 4,096 bytes. No content part belongs to it.
    BadHeader,
    /// A message whose content part has so many bytes, more than 16,777,216, which were passed over.
    TooLong(usize),
}

// Bytes that proofs alone know of.
ghost use Rattle.std.specs.Prelude.{◌≡◌, ◌++◌, ℕ, List, []};
ghost use Rattle.std.specs.Borrow.{ftrue};

use std::marker::Model;

/// Bytes that were taken. Clauses alone see them: no memory holds them, and the calls do nothing when the program runs.
#[derive(Drop)]
pub struct Taken {
    pub ghost bytes: { List ℕ },
}

impl Model for Taken {
    ghost also_owns = { λ _. ftrue };
}

impl Taken {
    /// No bytes.
    pub(crate) fn new() -> Taken
        ensures { result.bytes ≡ [] }
    {
        Taken {}
    }

    /// These bytes and more.
    pub(crate) fn with(&self, _more: &[u8]) -> Taken
        ensures { result.bytes ≡ self.now.bytes ++ _more.now }
    {
        Taken {}
    }
}

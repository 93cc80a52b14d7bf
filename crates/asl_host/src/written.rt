// Files that proofs alone know of.
ghost use Rattle.std.specs.Prelude.{◌≡◌, ◌++◌, ◌∷◌, ℕ, List, []};
ghost use Rattle.std.specs.Borrow.{ftrue};

use std::marker::Model;

/// Files that were written, each with its name and its bytes. Clauses alone see them: no memory holds them, and the calls do nothing when
/// the program runs.
#[derive(Drop)]
pub struct Written {
    pub ghost files: { List (List ℕ × List ℕ) },
}

impl Model for Written {
    ghost also_owns = { λ _. ftrue };
}

impl Written {
    /// No files.
    pub(crate) fn new() -> Written
        ensures { result.files ≡ [] }
    {
        Written {}
    }

    /// These files, and one more behind them.
    pub(crate) fn with(&self, _name: &[u8], _bytes: &[u8]) -> Written
        ensures { result.files ≡ self.now.files ++ (_name.now, _bytes.now) ∷ [] }
    {
        Written {}
    }
}

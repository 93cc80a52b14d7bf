// How far a search is.

/// How far a search is.
#[derive(Clone, Copy)]
pub struct SoFar {
    /// So many worlds were tried.
    pub worlds: usize,
    /// So many that were met wait.
    pub waiting: usize,
    /// So many outcomes were found.
    pub outcomes: usize,
}

/// Someone who is told how far a search is.
pub trait Watch {
    /// One more world was tried.
    fn tried(&self, far: SoFar);
}

/// Nobody is told.
pub(crate) struct Unwatched;

impl Watch for Unwatched {
    fn tried(&self, _far: SoFar) {}
}

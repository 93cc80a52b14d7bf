// What is told of each piece of a worker's work.
/// Is told of each piece of work, before and after. No lock is held meanwhile, so that it may wait for another worker.
pub trait Gate {
    ghost use Rattle.std.specs.Prelude.{ℕ};

    /// That a worker told of a piece before it. Nothing else shows it, so a contract that says it shows that the gate was told.
    ghost began: { ℕ → ℕ → Type 0 } = { λ _ _. Unit {0} };

    /// The same, of a piece that is done.
    ghost ended: { ℕ → ℕ → Type 0 } = { λ _ _. Unit {0} };

    /// A worker is about to begin the piece of this number.
    fn before(&self, worker: usize, piece: usize)
        ensures { began worker piece };

    /// It has done it.
    fn after(&self, worker: usize, piece: usize)
        ensures { ended worker piece };
}

/// A gate that does nothing.
pub struct NoGate;

impl Gate for NoGate {
    fn before(&self, _worker: usize, _piece: usize) {}

    fn after(&self, _worker: usize, _piece: usize) {}
}

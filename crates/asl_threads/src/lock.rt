// What a run lies in while threads share it.
use crate::shared::Shared;
use std::sync::Mutex;

/// What holds a run's session and rows, and gives them back. Contracts see what is in it by `holds` alone, so what `Run::close` answers
/// follows from what was in it, and from nothing else.
pub trait Lock {
    ghost use Rattle.asl_threads.specs.Runs.{SharedView};

    ghost holds: { Self → SharedView → Type 0 };

    /// One with this in it. Takes no memory.
    fn of(shared: Shared) -> Self
        ensures { holds result shared };

    /// What is in it. Takes no lock and no memory.
    fn into_shared(self) -> Shared
        ensures { holds self result };
}

// std says nothing of what is in its lock, since other threads may have changed it.
impl Lock for Mutex<Shared> {
    ghost holds = { λ _ _. Unit {0} };

    fn of(shared: Shared) -> Mutex<Shared> {
        Mutex::new(shared)
    }

    fn into_shared(self) -> Shared {
        self.into_inner()
    }
}

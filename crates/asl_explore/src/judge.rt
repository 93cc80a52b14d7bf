// Judging how executions end.
ghost use Rattle.std.specs.Prelude.{◌≡◌, Bool, true, ℕ, List};
ghost use Rattle.asl_run_input.specs.declared.setup.Setup.{Setup};
ghost use Rattle.asl_run_state.specs.declared.outcome.Outcome.{Outcome};

use crate::found::{Explored, Found};
use asl_run_input::Setup;
use asl_run_state::World;

/// Someone who judges how executions end.
pub trait Judge {
    ghost accepts: { Self → Setup → Outcome → List ℕ → Bool };

    /// Whether an execution that begins so may end with the outcome of this world, each state invoked as often as there.
    fn accepts(&self, setup: &Setup, end: &World) -> bool
        ensures { result ≡ accepts self.now setup.now end.now.outcome end.now.counts };
}

/// Every end is accepted.
pub(crate) struct Unjudged;

impl Judge for Unjudged {
    ghost accepts = { λ _ _ _ _. true };

    fn accepts(&self, _setup: &Setup, _end: &World) -> bool {
        true
    }
}

/// What a search finds, and which ends judges don't accept.
#[derive(Drop)]
pub struct Judged {
    pub explored: Explored,
    /// Of each judge: an end that it doesn't accept, with steps that lead to it; none where none was met.
    pub refused: Vec<Option<Found>>,
}

// Why a step is refused.
ghost use Rattle.std.specs.Prelude.{◌≡◌};
ghost use Rattle.std.specs.Bool.{Decides};
ghost use Rattle.asl_run_state.specs.Equal.{refusal_eq};
ghost use Rattle.asl_run_state.specs.declared.refusal.Refusal.{Refusal};

use asl_time::Moment;

/// Why a step is refused. Of several reasons the first in this order is answered. A refused step changes nothing.
#[derive(Clone, Copy, Debug, PartialEq, Eq)]
pub enum Refusal {
    /// S1: the execution has ended.
    Over,
    /// S2: no branch runs at the place.
    NoSuchPlace,
    /// S3: a sibling of the place, or of a place above it, has failed.
    Stopped,
    /// S4: the branch has ended.
    Finished,
    /// S5: the branch waits for its children.
    Busy,
    /// S6: a Map runs as many iterations as it may at once.
    Slots,
    /// S7: the branch waits until this moment.
    NotYet(Moment),
    /// S8: there are more than 24,992 events.
    HistoryFull,
    /// S9: memory ran out.
    OutOfMemory,
}

/// `==` of refusals is true exactly where the two are equal as contracts see them. The law has no code.
pub fn equal_refusals_are_one()
    ensures { (x y : Refusal) → Decides (refusal_eq x y) (x ≡ y) }
{}

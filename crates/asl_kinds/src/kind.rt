// What all kinds of states have in common.
ghost use Rattle.std.specs.Prelude.{◌≡◌, ℕ, Bool, IfOk};
ghost use Rattle.asl_step.specs.declared.effect.Effect.{Effect};
ghost use Rattle.asl_step.specs.declared.facts.Facts.{Facts};
ghost use Rattle.asl_step.specs.Seen.{Seen, seen};
ghost use Rattle.asl_step.specs.Bounds.{AreFew, IsBounded};
ghost use Rattle.asl_kinds.specs.Entering.{IsEntering, IsTold};

use asl_step::{Context, Effect, Visit};
use std::alloc::{AllocError, Global};

/// A kind of state.
pub trait StateKind {
    /// What a step does, in an execution with these facts, by what it may read: its rows of the state table.
    ghost effect: { Self → Facts → Seen → Effect };

    /// Whether a step may raise the count of the state.
    ghost is_invoking: { Self → Bool };

    /// How many branches under the state run at once; 0 where there is no limit.
    ghost slots: { Self → ℕ };

    /// What a step does. It is computed aside: the Context Object alone changes, and it stays that of its execution. It makes no
    /// more children than there are numbers for. What fails is memory.
    fn visit(
        &self,
        alloc: Global,
        visit: &Visit,
        context: &mut Context,
    ) -> Result<Effect, AllocError>
        ensures effect { IfOk result (λ e. e ≡ effect self.now context.old.facts (seen visit.now)) }
        ensures fits { IfOk result (λ e. AreFew e.children) }
        ensures facts { context.new.facts ≡ context.old.facts };

    /// Whether a step may raise the count of the state.
    fn invokes(&self) -> bool
        ensures { result ≡ is_invoking self.now };

    /// How many branches under the state run at once: a Map's `MaxConcurrency`. 0 says that there is no limit.
    fn slots(&self) -> u32
        ensures { result ≡ slots self.now };

    /// At most eight events, children made or removed only with an event, a count only where the kind invokes, the outcome exactly
    /// where the branch at the root ends.
    ghost bounded: { (k : Self) (f : Facts) (v : Seen)
        → IsBounded v (is_invoking k) (effect k f v) };

    /// A state that is entered tells of it. (That a fork tells is a part of `bounded`.)
    ghost entered: { (k : Self) (f : Facts) (v : Seen) → IsEntering v.current
        → IsTold (effect k f v) };
}

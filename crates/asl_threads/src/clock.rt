// What workers ask of the time.
use asl_time::Moment;

/// Says the present moment. It is asked with no lock held.
pub trait Clock {
    ghost use Rattle.std.specs.Prelude.{ℕ};

    /// That a clock of this type said this moment. Nothing else shows it, so a contract that says it shows that the clock was asked.
    ghost says: { ℕ → Type 0 } = { λ _. Unit {0} };

    /// The present moment.
    fn now(&self) -> Moment
        ensures { says result };
}

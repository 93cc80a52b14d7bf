// Steps of an execution.
ghost use Rattle.std.specs.Prelude.{◌≡◌, IfOk};
ghost use Rattle.std.specs.Bool.{Decides};
ghost use Rattle.asl_run_input.specs.Equal.{step_eq};
ghost use Rattle.asl_run_input.specs.declared.step_at.StepAt.{StepAt};

use asl_history::Place;
use asl_time::Moment;
use std::alloc::AllocError;

/// A step of a branch.
#[derive(PartialEq, Eq)]
pub struct StepAt {
    /// The place of the branch that steps.
    pub place: Place,
    /// The moment that is given for it.
    pub moment: Moment,
}

// Written out, so that a caller's proof sees one call and not the drop of each part.
impl Drop for StepAt {
    fn drop(self) {
        let StepAt {
            place: _place,
            moment: _moment,
        } = self;
    }
}

impl StepAt {
    /// An equal step, which shares the place. It takes no memory. The error is that there are too many copies.
    pub fn try_clone(&self) -> Result<StepAt, AllocError>
        ensures { IfOk result (λ s. s ≡ self.now) }
    {
        let place = self.place.try_clone()?;
        Ok(StepAt {
            place,
            moment: self.moment,
        })
    }
}

/// `==` of steps is true exactly where the two are equal as contracts see them. The law has no code.
pub fn equal_steps_are_one()
    ensures { (x y : StepAt) → Decides (step_eq x y) (x ≡ y) }
{}

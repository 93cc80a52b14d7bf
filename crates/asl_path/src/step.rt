// The parts of a path.
ghost use Rattle.std.specs.Prelude.{◌≡◌, IfOk};

use asl_json::Txt;
use std::alloc::{AllocError, Global};

/// What a path starts from.
#[derive(Clone, Copy, Debug, PartialEq, Eq)]
pub enum Root {
    /// `$`: the state's input.
    Input,
    /// `$$`: the Context Object.
    Context,
}

/// One step down a value.
#[derive(PartialEq, Eq, Drop)]
pub enum Step {
    /// The member of this name, of an object. The text is UTF-8 and can be empty.
    Name(Txt),
    /// The item of this number, of a list, counted from 0. It is below 10^9.
    Index(usize),
}

impl Step {
    /// A step of its own, equal to this one.
    pub fn try_clone(&self, alloc: Global) -> Result<Step, AllocError>
        ensures { IfOk result (λ s. s ≡ self.now) }
    {
        match self {
            Step::Name(name) => Ok(Step::Name(name.try_clone(alloc)?)),
            Step::Index(i) => Ok(Step::Index(*i)),
        }
    }
}

/// A list of its own with the same steps.
pub(crate) fn copies(alloc: Global, steps: &[Step]) -> Result<Vec<Step>, AllocError>
    ensures { IfOk result (λ v. v.items ≡ steps.now) }
{
    let mut copied = Vec::new(alloc);
    for step in steps {
        copied.push(step.try_clone(alloc)?)?;
    }
    Ok(copied)
}

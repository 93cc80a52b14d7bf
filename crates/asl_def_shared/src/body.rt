// Machines inside states.
ghost use Rattle.std.specs.Prelude.{◌≡◌, ◌≤◌, length};

use crate::target::Target;
use asl_def_fields::{TryClone, clone_all};
use asl_json::Txt;
use std::alloc::{AllocError, Global};
use std::marker::Model;

/// A machine inside a definition: its states are those of the table with the numbers from `first` on.
#[derive(PartialEq, Eq)]
pub struct Body {
    /// Its `Comment`.
    pub comment: Option<Txt>,
    /// Its `StartAt`.
    pub start: Target,
    /// The number of its first state in the table, from 0.
    pub first: usize,
    /// How many states it has.
    pub count: usize,
}

// Written out, so that a caller's proof sees one call and not the drop of each part.
impl Drop for Body {
    fn drop(self) {
        let Body {
            comment: _comment,
            start: _start,
            first: _first,
            count: _count,
        } = self;
    }
}

/// The machines of a Parallel state, in order: at most 999,999,999.
pub struct Bodies {
    pub bodies: Vec<Body>,
}

impl Drop for Bodies {
    fn drop(self) {
        let Bodies { bodies: _bodies } = self;
    }
}

impl Model for Bodies {
    ghost use Rattle.std.specs.Prelude.{List, ◌≤◌, length};
    ghost use Rattle.asl_def_shared.specs.declared.body.Body.{Body};

    ghost Value = { List Body };

    ghost view = { λ a. a.bodies.items };

    ghost invariant = { λ a. length a.bodies.items ≤ 999_999_999 };
}

impl PartialEq for Bodies {
    ghost use Rattle.asl_def_shared.specs.Equal.{bodies_equal};
    ghost use Rattle.asl_def_shared.specs.private.EqualLaws.{bodies_laws};

    ghost eq = { bodies_equal };

    ghost laws = { bodies_laws };

    fn eq(&self, other: &Bodies) -> bool {
        self.bodies.as_slice() == other.bodies.as_slice()
    }
}

impl Eq for Bodies {
    ghost use Rattle.asl_def_shared.specs.private.EqualLaws.{bodies_equivalence};

    ghost laws = { bodies_equivalence };
}

impl Bodies {
    /// The machines.
    pub fn as_slice(&self) -> &[Body]
        ensures value { result.now ≡ self.now }
        ensures few { length result.now ≤ 999_999_999 }
    {
        &self.bodies
    }
}

impl TryClone for Body {
    fn try_clone(&self, alloc: Global) -> Result<Body, AllocError> {
        Ok(Body {
            comment: self.comment.try_clone(alloc)?,
            start: self.start.try_clone(alloc)?,
            first: self.first,
            count: self.count,
        })
    }
}

impl TryClone for Bodies {
    fn try_clone(&self, alloc: Global) -> Result<Bodies, AllocError> {
        Ok(Bodies {
            bodies: clone_all(alloc, &self.bodies)?,
        })
    }
}

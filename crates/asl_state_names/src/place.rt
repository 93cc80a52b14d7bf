// Places in a value.
ghost use Rattle.std.specs.Prelude.{◌≡◌, [], IfOk};
ghost use Rattle.asl_state_names.specs.Names.{part};

use std::alloc::{AllocError, Global};
use std::marker::Model;

/// The way to a part of a value: the numbers of the members and items on it, from 0, from the outermost value in. Contracts see it as a list.
#[derive(Drop)]
pub struct Place {
    numbers: Vec<usize>,
}

impl Model for Place {
    ghost use Rattle.std.specs.Prelude.{ℕ, List};

    ghost Value = { List ℕ };

    ghost view = { λ p. p.numbers.items };
}

impl Place {
    /// The outermost value.
    pub(crate) fn start(alloc: Global) -> Place
        ensures { result ≡ [] }
    {
        Place {
            numbers: Vec::new(alloc),
        }
    }

    /// The numbers.
    pub fn as_slice(&self) -> &[usize]
        ensures { result.now ≡ self.now }
    {
        self.numbers.as_slice()
    }

    /// The same place. The error is that memory ran out.
    pub(crate) fn try_clone(&self, alloc: Global) -> Result<Place, AllocError>
        ensures { IfOk result (λ p. p ≡ self.now) }
    {
        let mut numbers = Vec::with_capacity(alloc, self.numbers.len())?;
        numbers.extend_from_slice(self.as_slice())?;
        Ok(Place { numbers })
    }

    /// The place of the part of this number of what stands here. The error is that memory ran out.
    pub(crate) fn part(&self, alloc: Global, number: usize) -> Result<Place, AllocError>
        ensures { IfOk result (λ p. p ≡ part self.now number) }
    {
        let mut place = self.try_clone(alloc)?;
        place.numbers.push(number)?;
        Ok(place)
    }
}

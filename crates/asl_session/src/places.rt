// Places whose branches may go on from a breakpoint.
ghost use Rattle.std.specs.Prelude.{◌≡◌, [], ◌∷◌, ◌++◌, OnOk, OnErr};
ghost use Rattle.asl_session.specs.Sessions.{is_among, left_by};

use asl_history::Place;
use std::alloc::{AllocError, Global};
use std::marker::Model;

/// Places, in the order in which they came. Contracts see them as that list.
#[derive(Drop)]
pub(crate) struct Places {
    list: Vec<Place>,
}

impl Model for Places {
    ghost use Rattle.std.specs.Prelude.{List, ℕ};

    ghost Value = { List (List ℕ) };

    ghost view = { λ p. p.list.items };
}

impl Places {
    /// No places.
    pub(crate) fn new(alloc: Global) -> Places
        ensures { result ≡ [] }
    {
        Places {
            list: Vec::new(alloc),
        }
    }

    /// Whether the place is there.
    pub(crate) fn contains(&self, place: &Place) -> bool
        ensures { result ≡ is_among place.now self.now }
    {
        self.list.as_slice().contains(place)
    }

    /// One more place. The error is that memory ran out, and nothing changed.
    pub(crate) fn add(&mut self, place: &Place) -> Result<(), AllocError>
        ensures ok { OnOk result (self.new ≡ self.old ++ place.now ∷ []) }
        ensures err { OnErr result (self.new ≡ self.old) }
    {
        let place = place.try_clone()?;
        match self.list.push(place) {
            Ok(()) => Ok(()),
            Err(_) => Err(AllocError),
        }
    }

    /// The place and those under it aren't there any more.
    pub(crate) fn leave(&mut self, place: &Place)
        ensures { self.new ≡ left_by place.now self.old }
    {
        self.list.retain(|other| !place.is_prefix_of(other));
    }

    /// No place is there any more.
    pub(crate) fn clear(&mut self)
        ensures { self.new ≡ [] }
    {
        self.list.clear();
    }
}

// Where a fault is.
ghost use Rattle.std.specs.Prelude.{◌≡◌, ◌∷◌, [], reverse, IfOk};
ghost use Rattle.asl_mock.specs.Places.{pointer_text};

use asl_json::Txt;
use asl_json_write::Pointer;
use std::alloc::{AllocError, Global};
use std::marker::Model;

/// A place in a mock file: the keys on the way to it. They are kept with the innermost one first, and seen with the outermost
/// one first.
pub(crate) struct Place {
    names: Vec<Txt>,
}

// Written out, so that a caller's proof sees one call and not the drop of each part.
impl Drop for Place {
    fn drop(self) {
        let Place { names: _names } = self;
    }
}

impl Model for Place {
    ghost use Rattle.std.specs.Prelude.{List, ℕ, reverse};

    ghost Value = { List (List ℕ) };

    ghost view = { λ a. reverse a.names.items };
}

impl Place {
    /// The place of the value itself.
    pub(crate) fn here(alloc: Global) -> Place
        ensures { result ≡ [] }
    {
        Place {
            names: Vec::new(alloc),
        }
    }

    /// The place, as it is seen from the object that has the value under this key. The error is that memory ran out.
    pub(crate) fn under(self, alloc: Global, key: &str) -> Result<Place, AllocError>
        ensures { IfOk result (λ p. p ≡ key.now ∷ self) }
    {
        let Place { mut names } = self;
        names.push(Txt::of(alloc, key)?)?;
        Ok(Place { names })
    }

    /// The place as text. The error is that memory ran out.
    pub(crate) fn pointer(&self, alloc: Global) -> Result<Pointer, AllocError>
        ensures { IfOk result (λ p. p ≡ pointer_text self.now) }
    {
        pointer_of(alloc, &self.names)
    }
}

/// The pointer of these keys, of which the innermost is first.
fn pointer_of(alloc: Global, names: &[Txt]) -> Result<Pointer, AllocError>
    ensures { IfOk result (λ p. p ≡ pointer_text (reverse names.now)) }
{
    let mut place = Pointer::whole(alloc);
    let count = names.len();
    for i in 0..count {
        place = place.at_name(names[count - 1 - i].as_str())?;
    }
    Ok(place)
}

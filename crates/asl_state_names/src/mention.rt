// A name of a state.
ghost use Rattle.std.specs.Prelude.{◌≡◌};
ghost use Rattle.asl_state_names.specs.Names.{is_same_state};

use crate::place::Place;
use asl_json::Txt;

/// A name of a state, where it stands in a definition.
#[derive(Drop)]
pub struct Mention {
    /// The machine that the state belongs to.
    pub machine: Place,
    /// The value that the name is, or whose key it is.
    pub place: Place,
    pub name: Txt,
    /// Whether it is the key of the state, which declares it; else it is a text that refers to the state.
    pub is_key: bool,
}

impl Mention {
    /// Whether it is of the same state as another one.
    pub fn is_same_state(&self, other: &Mention) -> bool
        ensures { result ≡ is_same_state self.now other.now }
    {
        self.machine.as_slice() == other.machine.as_slice()
            && self.name.as_str() == other.name.as_str()
    }
}

// What of a definition and a mock file tests can cover.
ghost use Rattle.std.specs.Prelude.{◌≡◌};
ghost use Rattle.asl_suite_coverage.specs.Spots.{same_part, same_spot};

use asl_json_shared::Name;

/// A part of a state or of a response. Numbers count from 0.
#[derive(Clone, Copy)]
pub enum Part {
    /// That a state is entered.
    State,
    /// Its `Next`.
    Next,
    /// The rule of this number, of a Choice.
    Rule(usize),
    /// Its `Default`.
    Default,
    /// The retrier of this number.
    Retrier(usize),
    /// The catcher of this number.
    Catcher(usize),
    /// The answer of this number, of a response.
    Answer(usize),
}

/// Something that tests can cover: a part of the state, or of the response, of this name.
pub struct Spot {
    pub name: Name,
    pub part: Part,
}

// Written out, so that a caller's proof sees one call and not the drop of each part.
impl Drop for Spot {
    fn drop(self) {
        let Spot {
            name: _name,
            part: _part,
        } = self;
    }
}

fn is_same_part(a: Part, b: Part) -> bool
    ensures { result ≡ same_part a b }
{
    match (a, b) {
        (Part::State, Part::State) => true,
        (Part::Next, Part::Next) => true,
        (Part::Rule(i), Part::Rule(j)) => i == j,
        (Part::Default, Part::Default) => true,
        (Part::Retrier(i), Part::Retrier(j)) => i == j,
        (Part::Catcher(i), Part::Catcher(j)) => i == j,
        (Part::Answer(i), Part::Answer(j)) => i == j,
        _ => false,
    }
}

/// Whether both are one.
pub(crate) fn is_same(a: &Spot, b: &Spot) -> bool
    ensures { result ≡ same_spot a.now b.now }
{
    is_same_part(a.part, b.part) && a.name.as_str() == b.name.as_str()
}

// Where a value stands.
ghost use Rattle.std.specs.Prelude.{◌≡◌};
ghost use Rattle.asl_def_judge.specs.private.Spots.{spot_of};
ghost use Rattle.asl_def_schema.specs.Claims.{one_deeper, at_item, max_machines};

use std::collections::HashSet;

/// How many machines may stand in one another.
pub(crate) const MAX_MACHINES: usize = 16;

/// Where a value stands.
#[derive(Clone, Copy)]
pub struct Spot<'a> {
    /// The names of the states of the machine.
    pub names: &'a HashSet<String>,
    /// How many machines it stands in.
    pub level: usize,
    /// Whether what holds it is the last of its list.
    pub ends: bool,
    /// Its key.
    pub key: &'a str,
    /// Whether another member of its group stands before it.
    pub doubled: bool,
}

/// One machine further in. More than one too many aren't told apart.
pub fn one_deeper(level: usize) -> usize
    ensures { result ≡ one_deeper level }
{
    if level > MAX_MACHINES {
        return level;
    }
    level + 1
}

/// The spot of an item of a list.
pub fn at_item<'a>(spot: Spot<'a>, ends: bool) -> Spot<'a>
    ensures { spot_of result ≡ at_item (spot_of spot.entry) ends }
{
    Spot {
        names: spot.names,
        level: spot.level,
        ends,
        key: "",
        doubled: false,
    }
}

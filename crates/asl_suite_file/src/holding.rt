// Whether a value is like the one that is wanted.
ghost use Rattle.std.specs.Prelude.{◌≡◌};
ghost use Rattle.asl_json_data.specs.Data.{chain, pairs};
ghost use Rattle.asl_json.specs.View.{data_of};
ghost use Rattle.asl_suite_file.specs.Holding.{is_held, are_held, each_is_held, is_like};

use asl_json::{Items, Json, Members};
use asl_json_same::same;

/// How a value is to be like the one that is wanted.
#[derive(Clone, Copy, Debug, PartialEq, Eq)]
pub enum Likeness {
    /// It means the same.
    Same,
    /// It holds it: an object may have members more.
    Holding,
}

/// Whether a value holds the one that is wanted: an object each member, whose value holds that one's; a list as many items, each of which
/// holds the one at its place; any other value the same.
#[cycle(held)]
fn is_held(wanted: &Json, came: &Json) -> bool
    ensures { result ≡ is_held (data_of wanted.now) (data_of came.now) }
{
    match (wanted, came) {
        (Json::List(wanted), Json::List(came)) => are_held(wanted, came),
        (Json::Dict(wanted), Json::Dict(came)) => each_is_held(wanted, came),
        _ => same(wanted, came),
    }
}

#[cycle(held)]
fn are_held(wanted: &Items, came: &Items) -> bool
    ensures { result ≡ are_held (chain wanted.now) (chain came.now) }
{
    if wanted.len() != came.len() {
        return false;
    }
    let items = wanted.values();
    let others = came.values();
    for i in 0..items.len() {
        if !is_held(&items[i], &others[i]) {
            return false;
        }
    }
    true
}

#[cycle(held)]
fn each_is_held(wanted: &Members, came: &Members) -> bool
    ensures { result ≡ each_is_held (pairs wanted.now) (pairs came.now) }
{
    let members = wanted.members();
    for member in members {
        let Some(other) = came.find(member.key.as_str()) else {
            return false;
        };
        if !is_held(&member.value, other) {
            return false;
        }
    }
    true
}

/// Whether a value is like the one that is wanted.
pub fn is_like(likeness: Likeness, wanted: &Json, came: &Json) -> bool
    ensures { result ≡ is_like likeness (data_of wanted.now) (data_of came.now) }
{
    match likeness {
        Likeness::Same => same(wanted, came),
        Likeness::Holding => is_held(wanted, came),
    }
}

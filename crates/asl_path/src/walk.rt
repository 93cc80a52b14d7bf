// Going down a value by steps.
ghost use Rattle.std.specs.Prelude.{◌≡◌, option_map};
ghost use Rattle.asl_json.specs.View.{data_of};
ghost use Rattle.asl_path.specs.Walk.{child, at};

use crate::step::Step;
use asl_json::Json;

#[tactic(auto, using(crate::proofs::Walking::item_of))]
/// The part of a value that one step reaches.
fn step_into<'a>(value: &'a Json, step: &Step) -> Option<&'a Json>
    ensures { option_map (λ v. data_of v.now) result ≡ child (data_of value.now) step.now }
{
    match (value, step) {
        (Json::Dict(members), Step::Name(name)) => members.find(name.as_str()),
        (Json::List(items), Step::Index(i)) => items.get(*i),
        _ => None,
    }
}

/// The part of a value that the steps reach.
pub(crate) fn walk<'a>(value: &'a Json, steps: &[Step]) -> Option<&'a Json>
    ensures { option_map (λ v. data_of v.now) result ≡ at (data_of value.now) steps.now }
{
    let mut here = value;
    for step in steps {
        here = step_into(here, step)?;
    }
    Some(here)
}

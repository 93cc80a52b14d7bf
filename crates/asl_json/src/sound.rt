// What every value has at all depths, for contracts that ask it.
ghost use Rattle.std.specs.Prelude.{[]};
ghost use Rattle.asl_json_data.specs.Data.{chain, pairs};
ghost use Rattle.asl_json_data.specs.Distinct.{AreDistinct};
ghost use Rattle.asl_json.specs.Sound.{KeysDiffer, KeysDifferInItems, KeysDifferInMembers, IsSound, AreSoundItems, AreSoundMembers};
ghost use Rattle.asl_json.specs.View.{data_of};

use crate::value::{Items, Json, Members};

/// No object inside a value has a key twice, its numbers are in the limits, its texts and keys are UTF-8. It does nothing: it is
/// there for what its contract says of every value.
#[cycle(sound)]
pub fn every_value_is_sound(value: &Json)
    ensures keys { KeysDiffer (data_of value.now) }
    ensures sound { IsSound (data_of value.now) }
{
    match value {
        Json::Null | Json::Bool(_) => {}
        Json::Num(number) => number.is_number(),
        Json::Text(text) => text.is_utf8(),
        Json::List(items) => items_are_sound(items),
        Json::Dict(members) => members_are_sound(members),
    }
}

#[cycle(sound)]
fn items_are_sound(items: &Items)
    ensures keys { KeysDifferInItems (chain items.now) }
    ensures sound { AreSoundItems (chain items.now) }
{
    let values = items.values();
    for value in values {
        every_value_is_sound(value);
    }
}

#[cycle(sound)]
fn members_are_sound(members: &Members)
    ensures distinct { AreDistinct [] members.now }
    ensures keys { KeysDifferInMembers (pairs members.now) }
    ensures sound { AreSoundMembers (pairs members.now) }
{
    let pairs = members.members();
    for member in pairs {
        member.key.is_utf8();
        every_value_is_sound(&member.value);
    }
}

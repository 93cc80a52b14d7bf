// Whether two values mean the same.
ghost use Rattle.std.specs.Prelude.{◌≡◌, ◌&&◌, ◌==◌, false, length, option_map};
ghost use Rattle.std.specs.Option.{option_map_or};
ghost use Rattle.asl_json.specs.View.{data_of};
ghost use Rattle.asl_json_data.specs.Data.{chain, pairs};
ghost use Rattle.asl_json_data.specs.Number.{units_of};
ghost use Rattle.asl_json.specs.Meaning.{same, same_items, each_in, count, value_at};

use asl_json::{Items, Json, Members};

/// The value of the member with this key, for which number i is looked at first: like objects mostly have it there.
fn find_near<'a>(members: &'a Members, i: usize, key: &str) -> Option<&'a Json>
    ensures { option_map (λ v. data_of v.now) result ≡ value_at key.now (pairs members.now) }
{
    let all = members.members();
    if i < all.len() {
        let member = &all[i];
        if member.key.as_str() == key {
            return Some(&member.value);
        }
    }
    members.find(key)
}

/// Whether two values mean the same: numbers by their value, lists item by item, objects as sets of pairs.
#[cycle(same)]
#[tactic(auto, using(crate::proofs::Counting::count_pairs, crate::proofs::Counting::and_off))]
pub fn same(a: &Json, b: &Json) -> bool
    ensures { result ≡ same (data_of a.now) (data_of b.now) }
{
    match (a, b) {
        (Json::Null, Json::Null) => true,
        (Json::Bool(x), Json::Bool(y)) => *x == *y,
        (Json::Num(x), Json::Num(y)) => x.units() == y.units(),
        (Json::Text(x), Json::Text(y)) => *x == *y,
        (Json::List(x), Json::List(y)) => same_lists(x, y),
        (Json::Dict(x), Json::Dict(y)) => x.len() == y.len() && has_each(x, y),
        _ => false,
    }
}

#[cycle(same)]
fn same_lists(a: &Items, b: &Items) -> bool
    ensures { result ≡ same_items (chain a.now) (chain b.now) }
{
    if a.len() != b.len() {
        return false;
    }
    let items = a.values();
    let others = b.values();
    for i in 0..items.len() {
        if !same(&items[i], &others[i]) {
            return false;
        }
    }
    true
}

#[cycle(same)]
fn has_each(a: &Members, b: &Members) -> bool
    ensures { result ≡ each_in (pairs a.now) (pairs b.now) }
{
    for (i, member) in a.members().iter().enumerate() {
        let Some(other) = find_near(b, i, member.key.as_str()) else {
            return false;
        };
        if !same(&member.value, other) {
            return false;
        }
    }
    true
}

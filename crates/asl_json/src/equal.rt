// Whether two values are equal, spelling included.
ghost use Rattle.std.specs.Prelude.{◌≡◌, false};
ghost use Rattle.asl_json.specs.View.{data_of};
ghost use Rattle.asl_json_data.specs.Data.{chain, pairs};
ghost use Rattle.asl_json.specs.Same.{equal, equal_items, equal_members};

use crate::value::{Items, Json, Members};

#[cycle(equal)]
fn equals(a: &Json, b: &Json) -> bool
    ensures { result ≡ equal (data_of a.now) (data_of b.now) }
{
    match (a, b) {
        (Json::Null, Json::Null) => true,
        (Json::Bool(x), Json::Bool(y)) => *x == *y,
        (Json::Num(x), Json::Num(y)) => x.spelling() == y.spelling(),
        (Json::Text(x), Json::Text(y)) => *x == *y,
        (Json::List(x), Json::List(y)) => equals_items(x, y),
        (Json::Dict(x), Json::Dict(y)) => equals_members(x, y),
        _ => false,
    }
}

#[cycle(equal)]
fn equals_items(a: &Items, b: &Items) -> bool
    ensures { result ≡ equal_items (chain a.now) (chain b.now) }
{
    if a.values.len() != b.values.len() {
        return false;
    }
    for i in 0..a.values.len() {
        if !equals(&a.values[i], &b.values[i]) {
            return false;
        }
    }
    true
}

#[cycle(equal)]
fn equals_members(a: &Members, b: &Members) -> bool
    ensures { result ≡ equal_members (pairs a.now) (pairs b.now) }
{
    if a.members.len() != b.members.len() {
        return false;
    }
    for i in 0..a.members.len() {
        let m = &a.members[i];
        let n = &b.members[i];
        if m.key != n.key || !equals(&m.value, &n.value) {
            return false;
        }
    }
    true
}

impl PartialEq for Json {
    ghost use Rattle.asl_json.specs.Same.{json_equal};
    ghost use Rattle.asl_json.specs.private.SameLaws.{json_laws};

    ghost eq = { json_equal };

    ghost laws = { json_laws };

    fn eq(&self, other: &Json) -> bool {
        equals(self, other)
    }
}

impl Eq for Json {
    ghost use Rattle.asl_json.specs.private.SameLaws.{json_equivalence};

    ghost laws = { json_equivalence };
}

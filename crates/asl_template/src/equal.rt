// Whether two templates are equal: whether they were read from equal values, spelling included.
ghost use Rattle.std.specs.Prelude.{◌≡◌, ◌&&◌, ◌++◌};
ghost use Rattle.asl_json_data.specs.Data.{chain, pairs};
ghost use Rattle.asl_json_data.specs.Data as Data;
ghost use Rattle.asl_json.specs.Same.{equal, equal_items, equal_members, bytes_eq};
ghost use Rattle.asl_template.specs.Names.{mark};
ghost use Rattle.asl_template.specs.private.View.{part_data, field_data, Fits};

use crate::part::{Field, Fields, Part, Parts};
use asl_json::Txt;

#[cycle(equal)]
pub(crate) fn equals(a: &Part, b: &Part) -> bool
    ensures { result ≡ equal (part_data a.now) (part_data b.now) }
{
    match (a, b) {
        (Part::Null, Part::Null) => true,
        (Part::Bool(x), Part::Bool(y)) => *x == *y,
        (Part::Num(x), Part::Num(y)) => x.spelling() == y.spelling(),
        (Part::Text(x), Part::Text(y)) => *x == *y,
        (Part::List(x), Part::List(y)) => equals_parts(x, y),
        (Part::Dict(x), Part::Dict(y)) => equals_fields(x, y),
        _ => false,
    }
}

#[cycle(equal)]
fn equals_parts(a: &Parts, b: &Parts) -> bool
    ensures { result ≡ equal_items (chain a.now) (chain b.now) }
{
    if a.parts.len() != b.parts.len() {
        return false;
    }
    for i in 0..a.parts.len() {
        if !equals(&a.parts[i], &b.parts[i]) {
            return false;
        }
    }
    true
}

#[cycle(equal)]
fn equals_fields(a: &Fields, b: &Fields) -> bool
    ensures { result ≡ equal_members (pairs a.now) (pairs b.now) }
{
    if a.fields.len() != b.fields.len() {
        return false;
    }
    for i in 0..a.fields.len() {
        if !equals_field(&a.fields[i], &b.fields[i]) {
            return false;
        }
    }
    true
}

#[cycle(equal)]
fn equals_field(a: &Field, b: &Field) -> bool
    requires fits { Fits a.now }
    requires other_fits { Fits b.now }
    ensures { result ≡ (bytes_eq (field_data a.now).0 (field_data b.now).0
        && equal (field_data a.now).1 (field_data b.now).1) }
{
    match a {
        Field::Kept(key, part) => match b {
            Field::Kept(other, value) => *key == *other && equals(part, value),
            Field::Path(_, _) => false,
            Field::Call(_, _) => false,
        },
        Field::Path(name, path) => is_computed(b, name, path.text()),
        Field::Call(name, call) => is_computed(b, name, call.text()),
    }
}

/// Whether a member is the computed one of this name and text.
fn is_computed(field: &Field, name: &Txt, text: &str) -> bool
    requires { Fits field.now }
    ensures { result ≡ (bytes_eq (name.now ++ mark) (field_data field.now).0
        && equal (Data.text text.now) (field_data field.now).1) }
{
    match field {
        Field::Kept(_, _) => false,
        Field::Path(other, path) => *name == *other && text == path.text(),
        Field::Call(other, call) => *name == *other && text == call.text(),
    }
}

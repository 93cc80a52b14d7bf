// Reading parts of parameters.
ghost use Rattle.std.specs.Prelude.{◌≡◌, None, option_map};
ghost use Rattle.asl_json.specs.View.{items_of};
ghost use Rattle.asl_json_data.specs.Data.{chain};
ghost use Rattle.asl_json_rpc.specs.Calls.{seen};
ghost use Rattle.asl_lsp.specs.Members.{member_of, text_of, integer_of, uinteger_of, boolean_of, items_of_any, last_item};

use asl_json::{Dec, Json, Txt};

/// The value under a key of an object, where there is one.
pub(crate) fn member_of<'a>(value: Option<&'a Json>, key: &str) -> Option<&'a Json>
    ensures { seen result ≡ member_of key.now (seen value.entry) }
{
    match value {
        Some(value) => value.get(key),
        None => None,
    }
}

/// The text that a value is.
pub(crate) fn text_of(value: Option<&Json>) -> Option<&Txt>
    ensures { option_map (λ t. t.now) result ≡ text_of (seen value.entry) }
{
    match value {
        Some(Json::Text(text)) => Some(text),
        _ => None,
    }
}

/// The integer that a value is (Language Server Protocol 3.17, "Base Types").
pub(crate) fn integer_of(value: Option<&Json>) -> Option<&Dec>
    ensures { option_map (λ d. d.now) result ≡ integer_of (seen value.entry) }
{
    match value {
        Some(Json::Num(number)) if number.whole().is_some() => Some(number),
        _ => None,
    }
}

/// The number of the protocol that a value is: a whole number from 0 to 2147483647 (Language Server Protocol 3.17, "Base Types").
pub(crate) fn uinteger_of(value: Option<&Json>) -> Option<usize>
    ensures { result ≡ uinteger_of (seen value.entry) }
{
    let Some(Json::Num(number)) = value else {
        return None;
    };
    match number.whole() {
        Some(amount) if 0 <= amount && amount <= 2147483647 => Some(amount as usize),
        _ => None,
    }
}

/// The truth value that a value is.
pub(crate) fn boolean_of(value: Option<&Json>) -> Option<bool>
    ensures { result ≡ boolean_of (seen value.entry) }
{
    match value {
        Some(Json::Bool(b)) => Some(*b),
        _ => None,
    }
}

/// The items of a list; any other value has none.
pub(crate) fn items_of_any(value: Option<&Json>) -> &[Json]
    ensures { chain (items_of result.now) ≡ items_of_any (seen value.entry) }
{
    match value {
        Some(value) => value.items(),
        None => &[],
    }
}

/// The last one of these.
pub(crate) fn last_item(items: &[Json]) -> Option<&Json>
    ensures { seen result ≡ last_item None (chain (items_of items.now)) }
{
    let mut last = None;
    for item in items {
        last = Some(item);
    }
    last
}

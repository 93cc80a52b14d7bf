// What is read off a value by the name of a member.
ghost use Rattle.std.specs.Prelude.{◌≡◌, option_map};
ghost use Rattle.asl_json_data.specs.Data.{chain};
ghost use Rattle.asl_json.specs.View.{data_of, items_of};
ghost use Rattle.asl_graph.specs.Members.{text_in, text_at, items_at};

use asl_json::Json;

/// The text that a value is; empty for any other.
pub(crate) fn text_in<'a>(value: Option<&'a Json>) -> &'a str
    ensures { result.now ≡ text_in (option_map (λ v. data_of v.now) value.entry) }
{
    match value {
        Some(Json::Text(text)) => text.as_str(),
        _ => "",
    }
}

/// The text of the member with this key; empty where it is none.
pub(crate) fn text_at<'a>(value: &'a Json, key: &str) -> &'a str
    ensures { result.now ≡ text_at key.now (data_of value.now) }
{
    text_in(value.get(key))
}

/// The items of the member with this key; none where it is no list.
pub(crate) fn items_at<'a>(value: &'a Json, key: &str) -> &'a [Json]
    ensures { chain (items_of result.now) ≡ items_at key.now (data_of value.now) }
{
    match value.get(key) {
        Some(value) => value.items(),
        None => &[],
    }
}

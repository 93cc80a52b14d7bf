// Values far deeper than any that is read, as runs make them: with room on the stack they are measured, written, cloned, compared
// and dropped, and go through templates and functions.
use asl_json::{Items, Json, Members, Txt};
use asl_json_read::read;
use asl_json_same::same;
use asl_json_shared::Shared;
use asl_json_write::{text_within, write};
use asl_template::Template;
use std::alloc::Global;
use std::test::Fail;
use std::thread::Builder;

/// How many levels the values have.
const LEVELS: usize = 50_000;
/// The stack of the thread that handles them, in bytes.
const ROOM: usize = 1 << 30;

/// A value in an object and that in a list.
fn wrapped(alloc: Global, value: Json) -> Option<Json> {
    let mut members = Members::new(alloc);
    let key = Txt::of(alloc, "k").ok()?;
    if members.position("k").is_none() {
        members.push(key, value).ok()?;
    }
    let mut items = Vec::new(alloc);
    items.push(Json::Dict(members)).ok()?;
    Some(Json::List(Items::of_values(items)))
}

fn nested(alloc: Global) -> Option<Json> {
    let mut value = Json::Null;
    for _ in 0..LEVELS / 2 {
        value = wrapped(alloc, value)?;
    }
    Some(value)
}

/// Whether what is done with a nested value comes out right: two levels are `[{"k":` and `}]`.
fn are_right(alloc: Global) -> Option<bool> {
    let value = nested(alloc)?;
    let copy = value.try_clone(alloc).ok()?;
    let len = write(alloc, &copy).ok()?.len();
    let measured = text_within(&value, len) && !text_within(&value, len - 1);
    Some(len == 4 * LEVELS + 4 && measured && same(&value, &copy) && value == copy)
}

/// Whether a nested value that two own is had outright by the first, as a copy, and is dropped by the last.
fn is_shared(alloc: Global) -> Option<bool> {
    let one = Shared::new(alloc, nested(alloc)?).ok()?;
    let other = one.try_clone().ok()?;
    let copy = other.into_json(alloc).ok()?;
    Some(copy == *one.get())
}

/// What templates and functions make of a value that they know nothing of.
const TEMPLATE: &[u8] =
    br#"{"whole.$":"$","list.$":"States.Array($)","unique.$":"States.ArrayUnique(States.Array($, $))","there.$":"States.ArrayContains(States.Array(1, $), $)","text.$":"States.JsonToString($)"}"#;

fn filled(alloc: Global, input: &Json) -> Option<Json> {
    let template = read(alloc, TEMPLATE).ok()?;
    match Template::read(alloc, &template) {
        Ok(template) => template.fill(alloc, input, &Json::Null).ok(),
        Err(_) => None,
    }
}

fn is_list_of(list: &Json, value: &Json) -> bool {
    match list {
        Json::List(items) => match items.get(0) {
            Some(item) => items.len() == 1 && item == value,
            None => false,
        },
        _ => false,
    }
}

fn is_text_of(alloc: Global, text: &Json, value: &Json) -> Option<bool> {
    let written = write(alloc, value).ok()?;
    Some(matches!(text, Json::Text(text) if text.as_str() == written.as_str()))
}

/// Whether a template and the functions in it give of a nested value what they give of any.
fn go_through(alloc: Global) -> Option<bool> {
    let value = nested(alloc)?;
    let made = filled(alloc, &value)?;
    Some(
        made.get("whole")? == &value
            && is_list_of(made.get("list")?, &value)
            && is_list_of(made.get("unique")?, &value)
            && made.get("there")? == &Json::Bool(true)
            && is_text_of(alloc, made.get("text")?, &value)?,
    )
}

#[test]
fn values_of_fifty_thousand_levels(rt: HostRuntime) -> Result<(), Fail> {
    let alloc = rt.alloc();
    let roomy = Builder::new().stack_size(ROOM);
    let right = match roomy.spawn(
        &rt,
        move || Some(are_right(alloc)? && is_shared(alloc)? && go_through(alloc)?),
    ) {
        Ok(thread) => thread.join(&rt),
        Err(_) => None,
    };
    assert_eq!(rt; right, Some(true));
    Ok(())
}

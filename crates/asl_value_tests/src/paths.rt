// What no clause says: outside rows, and each call once with ample memory.
use asl_json::{Items, Json};
use asl_json_read::read;
use asl_json_write::write;
use asl_path::{PathFault, PutFault, RefPath, Root};
use std::alloc::Global;
use std::mem;
use std::test::Fail;

/// The value of the standard's examples of Reference Paths.
const FOO_BAR_CAR: &str = "{\"foo\":123,\"bar\":[\"a\",\"b\",\"c\"],\"car\":{\"cdr\":true}}";

fn fault_at(alloc: Global, text: &str) -> Option<usize> {
    match RefPath::read(alloc, text) {
        Err(PathFault::PathProfile(at)) => Some(at),
        _ => None,
    }
}

fn is_path(alloc: Global, text: &str) -> bool {
    RefPath::read(alloc, text).is_ok()
}

fn starts_from(alloc: Global, text: &str, root: Root) -> bool {
    match RefPath::read(alloc, text) {
        Ok(path) => path.root() == root && path.text() == text,
        Err(_) => false,
    }
}

fn are_equal(alloc: Global, one: &str, other: &str) -> bool {
    match (RefPath::read(alloc, one), RefPath::read(alloc, other)) {
        (Ok(one), Ok(other)) => one == other,
        _ => false,
    }
}

fn has_a_copy(alloc: Global, path: &RefPath) -> bool {
    match path.try_clone(alloc) {
        Ok(copy) => copy == *path && copy.text() == path.text() && copy.root() == path.root(),
        Err(_) => false,
    }
}

fn equals_its_copy(alloc: Global, text: &str) -> bool {
    match RefPath::read(alloc, text) {
        Ok(path) => has_a_copy(alloc, &path) && path.text() == text,
        Err(_) => false,
    }
}

/// The value of a text.
fn value(alloc: Global, text: &str) -> Option<Json> {
    read(alloc, text.as_bytes()).ok()
}

/// The text of the part at a path.
fn part_text(alloc: Global, text: &str, base: &str) -> Option<String> {
    let path = RefPath::read(alloc, text).ok()?;
    let base = value(alloc, base)?;
    match path.get(&base) {
        Some(part) => write(alloc, part).ok(),
        None => String::from_str(alloc, "nothing").ok(),
    }
}

/// The texts of two values, one behind the other.
fn both(alloc: Global, one: &Json, other: &Json) -> Option<String> {
    let mut text = write(alloc, one).ok()?;
    text.push(' ').ok()?;
    text.push_str(write(alloc, other).ok()?.as_str()).ok()?;
    Some(text)
}

/// The text of what is given where a value is put at a path: the whole, or both values where there is no such place.
fn put_at(alloc: Global, path: &RefPath, base: Json, part: Json) -> Option<String> {
    match path.put(alloc, base, part) {
        Ok(whole) => write(alloc, &whole).ok(),
        Err(PutFault::NoMatch(base, part)) => both(alloc, &base, &part),
        Err(PutFault::OutOfMemory(_, _)) => None,
    }
}

/// The text of a value with another at a path, or of both where there is no such place.
fn put_text(alloc: Global, text: &str, base: &str, part: &str) -> Option<String> {
    let path = RefPath::read(alloc, text).ok()?;
    put_at(alloc, &path, value(alloc, base)?, value(alloc, part)?)
}

fn names(alloc: Global, text: &str, base: &str, expected: &str) -> bool {
    match part_text(alloc, text, base) {
        Some(part) => part.as_str() == expected,
        None => false,
    }
}

fn puts(alloc: Global, text: &str, base: &str, part: &str, expected: &str) -> bool {
    match put_text(alloc, text, base, part) {
        Some(whole) => whole.as_str() == expected,
        None => false,
    }
}

/// Whether a value that is put at a path of so many names is found again.
fn leads_far(alloc: Global, count: usize) -> Option<bool> {
    let mut text = String::from_str(alloc, "$").ok()?;
    for _ in 0..count {
        text.push_str(".a").ok()?;
    }
    let path = RefPath::read(alloc, text.as_str()).ok()?;
    let whole = path.put(alloc, value(alloc, "{}")?, Json::Null).ok()?;
    let found = path.get(&whole).is_some();
    // To drop a value that nests so deep would need a deep stack.
    mem::forget(whole);
    Some(found)
}

/// A list of so many nulls.
fn nulls(alloc: Global, count: usize) -> Option<Json> {
    let mut values = Vec::new(alloc);
    for _ in 0..count {
        values.push(Json::Null).ok()?;
    }
    Some(Json::List(Items::of_values(values)))
}

/// A value with another at a path.
fn with_part(alloc: Global, text: &str, base: Json, part: Json) -> Option<Json> {
    RefPath::read(alloc, text).ok()?.put(alloc, base, part).ok()
}

/// Whether a path leads to true.
fn is_true(alloc: Global, text: &str, base: &Json) -> bool {
    match RefPath::read(alloc, text) {
        Ok(path) => matches!(path.get(base), Some(Json::Bool(true))),
        Err(_) => false,
    }
}

/// Whether of so many values that are put into a list of so many items the last one is there. (If each of them went over the
/// list, this would take hours.)
fn puts_into_a_long_list(alloc: Global, count: usize) -> Option<bool> {
    let mut whole = with_part(alloc, "$.l", value(alloc, "{}")?, nulls(alloc, count)?)?;
    for i in 0..count {
        whole = with_part(alloc, "$.l[7]", whole, Json::Bool(i + 1 == count))?;
    }
    Some(is_true(alloc, "$.l[7]", &whole))
}

/// Texts that are no paths, and their first byte that cannot go on.
const NO_PATHS: &[(&str, usize)] = &[
    ("$.a[*]", 4),
    ("$..a", 2),
    ("$[-1]", 2),
    ("$.", 2),
    ("x", 0),
    ("", 0),
    ("$[1234567890]", 11),
    ("$['a\\b']", 4),
    ("$['a", 4),
    ("$['ä'x", 6),
    ("$$$", 2),
];

#[test]
fn the_first_byte_that_cannot_go_on(rt: HostRuntime) -> Result<(), Fail> {
    for (text, at) in NO_PATHS {
        assert_eq!(rt; fault_at(rt.alloc(), text), Some(*at));
    }
    Ok(())
}

#[test]
fn texts_that_are_paths(rt: HostRuntime) -> Result<(), Fail> {
    let alloc = rt.alloc();
    assert!(rt; starts_from(alloc, "$", Root::Input));
    assert!(rt; starts_from(alloc, "$$.Task[0]", Root::Context));
    assert!(rt; is_path(alloc, "$.a-b_1.ä['']"));
    assert!(rt; is_path(alloc, "$[\"it's\"][007][999999999]['\n\"']"));
    Ok(())
}

#[test]
fn equal_paths_have_one_text(rt: HostRuntime) -> Result<(), Fail> {
    let alloc = rt.alloc();
    assert!(rt; equals_its_copy(alloc, "$$.a['b'][3]"));
    assert!(rt; !are_equal(alloc, "$.a", "$['a']"));
    Ok(())
}

/// Paths, values, and the parts that the paths name.
const PARTS: &[(&str, &str, &str)] = &[
    ("$.a['b c']", "{\"a\":{\"b c\":true}}", "true"),
    ("$.a", "{\"a\":{\"b c\":true}}", "{\"b c\":true}"),
    ("$.a.b", "{\"a\":null}", "nothing"),
    ("$[001]", "[true,null]", "null"),
    ("$[2]", "[true,null]", "nothing"),
    // The examples of the Amazon States Language, "Reference Paths".
    ("$", FOO_BAR_CAR, FOO_BAR_CAR),
    ("$.foo", FOO_BAR_CAR, "123"),
    ("$.bar", FOO_BAR_CAR, "[\"a\",\"b\",\"c\"]"),
    ("$.car.cdr", FOO_BAR_CAR, "true"),
];

#[test]
fn the_part_that_a_path_names(rt: HostRuntime) -> Result<(), Fail> {
    for (text, base, part) in PARTS {
        assert!(rt; names(rt.alloc(), text, base, part));
    }
    Ok(())
}

/// Paths, values, parts that are put there, and what comes of it: the whole, or both values where there is no such place.
const PUT: &[(&str, &str, &str, &str)] = &[
    // The examples of the Amazon States Language, "ResultPath".
    (
        "$.master.detail",
        "{\"master\":{\"detail\":[1,2,3]}}",
        "6",
        "{\"master\":{\"detail\":6}}",
    ),
    (
        "$.master.result.sum",
        "{\"master\":{\"detail\":[1,2,3]}}",
        "6",
        "{\"master\":{\"detail\":[1,2,3],\"result\":{\"sum\":6}}}",
    ),
    ("$['a b'].c", "{}", "1", "{\"a b\":{\"c\":1}}"),
    ("$.l[2]", "{\"l\":[0,1,2]}", "9", "{\"l\":[0,1,9]}"),
    (
        "$.a.b",
        "{\"a\":{\"b\":true,\"c\":true},\"d\":true}",
        "null",
        "{\"a\":{\"b\":null,\"c\":true},\"d\":true}",
    ),
    ("$", "null", "true", "true"),
    ("$[1]", "[true,null]", "false", "[true,false]"),
    ("$.l[1]", "{\"l\":[0]}", "1", "{\"l\":[0]} 1"),
    ("$.l[3]", "{\"l\":[0,1,2]}", "9", "{\"l\":[0,1,2]} 9"),
    ("$[0]", "{}", "1", "{} 1"),
    ("$.a", "5", "1", "5 1"),
    ("$.a", "null", "1", "null 1"),
    ("$[1].a", "[true,null]", "true", "[true,null] true"),
    ("$.a[0]", "{}", "true", "{} true"),
    (
        "$.a.b.c",
        "{\"a\":{\"b\":true}}",
        "null",
        "{\"a\":{\"b\":true}} null",
    ),
];

#[test]
fn a_value_is_put_where_a_path_leads(rt: HostRuntime) -> Result<(), Fail> {
    for (text, base, part, expected) in PUT {
        assert!(rt; puts(rt.alloc(), text, base, part, expected));
    }
    Ok(())
}

#[test]
fn what_a_path_goes_past_is_not_looked_at(rt: HostRuntime) -> Result<(), Fail> {
    assert_eq!(rt; puts_into_a_long_list(rt.alloc(), 300_000), Some(true));
    Ok(())
}

#[test]
fn a_long_path_needs_no_deep_stack(rt: HostRuntime) -> Result<(), Fail> {
    assert_eq!(rt; leads_far(rt.alloc(), 40), Some(true));
    assert_eq!(rt; leads_far(rt.alloc(), 300_000), Some(true));
    Ok(())
}

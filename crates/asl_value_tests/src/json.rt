// What no clause says: which values and faults texts from outside give, and that calls succeed with ample memory.
use asl_json::{Dec, Items, Json, Members};
use asl_json_read::{JsonFault, read};
use asl_json_same::same;
use asl_json_shared::{Name, Shared};
use asl_json_write::{put, put_quoted, text_within, write};
use std::alloc::Global;
use std::test::Fail;

fn fault_of(alloc: Global, text: &[u8]) -> Option<JsonFault> {
    read(alloc, text).err()
}

/// A text, or nothing where it isn't read.
fn value_of(alloc: Global, text: &str) -> Option<Json> {
    read(alloc, text.as_bytes()).ok()
}

/// The compact text of what a text is read as.
fn compact_of(alloc: Global, text: &str) -> Option<String> {
    write(alloc, &value_of(alloc, text)?).ok()
}

/// Whether a text is read as a value of this compact text.
fn has_compact(alloc: Global, text: &str, wanted: &str) -> bool {
    match compact_of(alloc, text) {
        Some(compact) => compact.as_str() == wanted,
        None => false,
    }
}

/// The units of a number at a key.
fn units_at(alloc: Global, text: &str, key: &str) -> Option<i128> {
    match value_of(alloc, text)?.get(key)? {
        Json::Num(number) => Some(number.units()),
        _ => None,
    }
}

/// Whether two texts are read as values that mean the same, and whether as equal ones.
fn compared(alloc: Global, one: &str, other: &str) -> Option<(bool, bool)> {
    let one = value_of(alloc, one)?;
    let other = value_of(alloc, other)?;
    Some((same(&one, &other), one == other))
}

/// Whether a clone of what a text is read as is equal to it.
fn clones(alloc: Global, text: &str) -> Option<bool> {
    let value = value_of(alloc, text)?;
    let copy = value.try_clone(alloc).ok()?;
    Some(copy == value)
}

/// The compact text of a clone of what a text is read as.
fn clone_text(alloc: Global, text: &str) -> Option<String> {
    let copy = value_of(alloc, text)?.try_clone(alloc).ok()?;
    write(alloc, &copy).ok()
}

/// Whether a value that two own is one value, and is had outright by the first of them and by the last.
fn is_shared(alloc: Global, text: &str) -> Option<bool> {
    let value = value_of(alloc, text)?;
    let copy = value.try_clone(alloc).ok()?;
    let one = Shared::new(alloc, value).ok()?;
    let other = one.try_clone().ok()?;
    let equal = one == other && *one.get() == copy && same(&one, &other);
    let first = other.into_json(alloc).ok()?;
    let last = one.into_json(alloc).ok()?;
    Some(equal && first == copy && last == copy)
}

/// What a buffer has after a value and a name are written behind what it held.
fn written_behind(alloc: Global, held: &str, value: &str, name: &str) -> Option<String> {
    let mut out = String::from_str(alloc, held).ok()?;
    put(&mut out, &value_of(alloc, value)?).ok()?;
    let name = Name::new(alloc, name).ok()?;
    put_quoted(&mut out, name.try_clone().ok()?.as_str()).ok()?;
    Some(out)
}

/// Whether the compact text of what a text is read as is within its own length, and not within less.
fn is_measured(alloc: Global, text: &str) -> Option<bool> {
    let value = value_of(alloc, text)?;
    let len = write(alloc, &value).ok()?.len();
    let shorter = (0..len).any(|limit| text_within(&value, limit));
    Some(text_within(&value, len) && text_within(&value, usize::MAX) && !shorter)
}

fn repeated(alloc: Global, piece: &[u8], count: usize) -> Option<Vec<u8>> {
    let mut text = Vec::new(alloc);
    for _ in 0..count {
        text.extend_from_slice(piece).ok()?;
    }
    Some(text)
}

/// The fault of a piece so many times over.
fn fault_of_repeated(alloc: Global, piece: &[u8], count: usize) -> Option<JsonFault> {
    fault_of(alloc, &repeated(alloc, piece, count)?)
}

/// So many lists in one another.
fn nested_lists(alloc: Global, count: usize) -> Option<Vec<u8>> {
    let mut text = repeated(alloc, b"[", count)?;
    text.extend_from_slice(&repeated(alloc, b"]", count)?).ok()?;
    Some(text)
}

/// Texts, and the byte of their fault J1.
const SYNTAX: &[(&[u8], usize)] = &[
    (b"", 0),
    (b"nul", 3),
    (b"null x", 5),
    (b"{x\xff", 1),
    (b"{\"a\":1,\"a", 9),
    (b"-", 1),
    (b"-x", 1),
    (b"01", 1),
    (b"{\"a\":1", 6),
    (b"[1,2", 4),
    (b"[1,]", 3),
    (b"[,", 1),
    (b"[]]", 2),
    (b"[1}", 2),
    (b"{\"a\":[}", 6),
    (b"{\"a\":1]", 6),
    (b"1e", 2),
    (b"1.", 2),
    (b"1e+", 3),
    (b"1.x", 2),
    (b"1ex", 2),
    (b"1.5.", 3),
    (b".5", 0),
    (b"\"a\x01\"", 2),
    (b"\"\\x", 2),
    (b"\"\\u12g", 5),
    (b"\"\\ud800", 7),
    (b"\"\\ud800\\u", 9),
    (b"\"\\ud800\"", 1),
    (b"\"\\ud800x", 1),
    (b"\"\\ud800\\n", 1),
    (b"\"\\ud800\\u0041", 1),
    (b"\"\\ud800\\ud8", 1),
    (b"{\"\\uDC", 2),
    (b"\"\\ud800\\udcg", 11),
    (b"\xef\xbb\xbf{}", 0),
];

#[test]
fn faults_of_syntax(rt: HostRuntime) -> Result<(), Fail> {
    let alloc = rt.alloc();
    for (text, at) in SYNTAX {
        assert_eq!(rt; fault_of(alloc, text), Some(JsonFault::Syntax(*at)));
    }
    Ok(())
}

/// Texts, and their other faults.
const LIMITS_AND_UTF8: &[(&[u8], JsonFault)] = &[
    (b"{\"a\":1,\"a\":2}", JsonFault::Duplicate(7)),
    (b"{\"a\":1,\"a\"", JsonFault::Duplicate(7)),
    (b"{\"a\":1,\"\\u0061\":2}", JsonFault::Duplicate(7)),
    (b"1000000000000000000", JsonFault::Number(0)),
    (b"-1000000000000000000", JsonFault::Number(0)),
    (b"{\"a\":1000000000000000000x", JsonFault::Number(5)),
    (b"nul\xff", JsonFault::Utf8(3)),
    (b"{\"\xff\":tru}", JsonFault::Utf8(2)),
    (b"\"\xc3", JsonFault::Utf8(1)),
    (b"1000000000000000000\xff", JsonFault::Number(0)),
];

#[test]
fn faults_of_limits_and_utf8(rt: HostRuntime) -> Result<(), Fail> {
    let alloc = rt.alloc();
    for (text, fault) in LIMITS_AND_UTF8 {
        assert_eq!(rt; fault_of(alloc, text), Some(*fault));
    }
    Ok(())
}

#[test]
fn the_sixty_fifth_level_and_a_text_too_long(rt: HostRuntime) -> Result<(), Fail> {
    let alloc = rt.alloc();
    assert_eq!(rt;
        fault_of_repeated(alloc, b"{\"k\":", 64),
        Some(JsonFault::Syntax(320))
    );
    assert_eq!(rt;
        fault_of_repeated(alloc, b"[", 65),
        Some(JsonFault::Depth(64))
    );
    assert_eq!(rt;
        fault_of_repeated(alloc, b" ", 1_048_577),
        Some(JsonFault::Size)
    );
    Ok(())
}

/// Texts, and the byte of their fault J4.
const PAST_THE_LIMITS: &[(&[u8], usize)] = &[
    (b"1e400", 0),
    (b"1e-400", 0),
    (b"1e99999999999999999999999999999999999999", 0),
    (b"0.1234567891", 0),
    (b"1e-10", 0),
    (b"1.0e19", 0),
    (b"1e18", 0),
    (b"0.000000000000000000000000000000000000000", 0),
    (b"1e400x", 0),
    (b"{\"a\":1e400", 5),
    (b" 9999999999999999999999999999999999999999", 1),
];

#[test]
fn numbers_past_the_limits(rt: HostRuntime) -> Result<(), Fail> {
    let alloc = rt.alloc();
    for (text, at) in PAST_THE_LIMITS {
        assert_eq!(rt; fault_of(alloc, text), Some(JsonFault::Number(*at)));
    }
    Ok(())
}

/// Objects, and the units of their number at `n`.
const UNITS: &[(&str, i128)] = &[
    ("{\"n\":0}", 0),
    ("{\"n\":-0}", 0),
    ("{\"n\":7}", 7_000_000_000),
    ("{\"n\":-12}", -12_000_000_000),
    (
        "{\"n\":999999999999999999}",
        999_999_999_999_999_999_000_000_000,
    ),
    ("{\"n\":0.1}", 100_000_000),
    ("{\"n\":0.000000001}", 1),
    ("{\"n\":1.0e-9}", 1),
    ("{\"n\":10e-10}", 1),
    ("{\"n\":-1.50E+2}", -150_000_000_000),
    ("{\"n\":0e999999999}", 0),
    ("{\"n\":-0.0e-99999999999999999999999999999999}", 0),
    ("{\"n\":0.00000001000000000000000000000000000000}", 10),
    (
        "{\"n\":1000000000000000000000e-4}",
        100_000_000_000_000_000_000_000_000,
    ),
    ("{\"n\":100000000000000000000000000000000e-41}", 1),
    (
        "{\"n\":0.0000000000000000000000000000000001e33}",
        100_000_000,
    ),
    ("{\"n\":1e17}", 100_000_000_000_000_000_000_000_000),
    ("{\"n\":12.0345}", 12_034_500_000),
];

#[test]
fn numbers_keep_their_value_and_spelling(rt: HostRuntime) -> Result<(), Fail> {
    let alloc = rt.alloc();
    for (text, units) in UNITS {
        assert_eq!(rt; units_at(alloc, text, "n"), Some(*units));
        assert!(rt; has_compact(alloc, text, text));
    }
    Ok(())
}

#[test]
fn the_compact_text_has_no_spaces(rt: HostRuntime) -> Result<(), Fail> {
    let text = " { \"a\" : { \"b\":\"x y\" } ,\n\"c\":true,\t\"d\": -5 } ";
    let compact = "{\"a\":{\"b\":\"x y\"},\"c\":true,\"d\":-5}";
    assert!(rt; has_compact(rt.alloc(), text, compact));
    Ok(())
}

/// Texts, and their compact texts.
const ESCAPES: &[(&str, &str)] = &[
    ("\"\\u0041\\/\\u00E9\"", "\"A/\u{e9}\""),
    ("\"\\uD83d\\uDe00\"", "\"\u{1f600}\""),
    ("\"\\u0008\\f\\n\\r\\t\\b\"", "\"\\b\\f\\n\\r\\t\\b\""),
    ("\"\\u001F\\u0000\u{7f}\"", "\"\\u001f\\u0000\u{7f}\""),
    ("\"\\\"\\\\\"", "\"\\\"\\\\\""),
    ("[\"\\ud800\\udc00\", 1 ]", "[\"\u{10000}\",1]"),
];

#[test]
fn escapes_are_read_and_written_where_they_are_needed(rt: HostRuntime) -> Result<(), Fail> {
    let alloc = rt.alloc();
    for (text, compact) in ESCAPES {
        assert!(rt; has_compact(alloc, text, compact));
    }
    Ok(())
}

#[test]
fn lists_are_read_and_written(rt: HostRuntime) -> Result<(), Fail> {
    let alloc = rt.alloc();
    let text = " [ 1 , [ ] ,\t{ \"a\" : [ null , true ] } , \"x\" ] ";
    assert!(rt; has_compact(alloc, text, "[1,[],{\"a\":[null,true]},\"x\"]"));
    let deep = nested_lists(alloc, 64).ok_or("memory")?;
    assert_eq!(rt; fault_of(alloc, &deep), None);
    Ok(())
}

/// Pairs of texts, whether they are read as values that mean the same, and whether as equal ones.
const PAIRS: &[(&str, &str, bool, bool)] = &[
    ("[1,{\"a\":2.0}]", "[1.0,{\"a\":2}]", true, false),
    (
        "{\"a\":{\"b\":\"x\"},\"c\":0}",
        "{\"c\":-0,\"a\":{\"b\":\"x\"}}",
        true,
        false,
    ),
    ("{\"a\":1}", "{\"a\":2}", false, false),
    ("{\"a\":1}", "{\"a\":1}", true, true),
];

#[test]
fn objects_in_another_order_mean_the_same(rt: HostRuntime) -> Result<(), Fail> {
    for (one, other, is_same, is_equal) in PAIRS {
        assert!(rt; compared(rt.alloc(), one, other) == Some((*is_same, *is_equal)));
    }
    Ok(())
}

#[test]
fn clones_are_equal(rt: HostRuntime) -> Result<(), Fail> {
    let text = "{\"a\":1,\"b\":{\"c\":\"x\"},\"d\":null}";
    assert!(rt; clones(rt.alloc(), text) == Some(true));
    Ok(())
}

#[test]
fn a_clone_is_written_as_what_it_is_a_clone_of(rt: HostRuntime) -> Result<(), Fail> {
    let text = "{\"a\":[1.0,\"x\"]}";
    let copied = clone_text(rt.alloc(), text).ok_or("no clone")?;
    assert_eq!(rt; copied.as_str(), text);
    Ok(())
}

/// An object with so many members, the last key of it twice where that is wanted.
fn wide(alloc: Global, count: u32, twice: bool) -> Option<String> {
    let mut text = String::new(alloc);
    text.push('{').ok()?;
    for i in 0..count {
        let member = format!(in alloc; "\"k{i}\":{i},").ok()?;
        text.push_str(member.as_str()).ok()?;
    }
    let last = if twice { "\"k7\":0}" } else { "\"end\":0}" };
    text.push_str(last).ok()?;
    Some(text)
}

#[test]
fn wide_objects_are_read_and_their_doubled_keys_found(rt: HostRuntime) -> Result<(), Fail> {
    let alloc = rt.alloc();
    let good = wide(alloc, 40, false).ok_or("memory")?;
    assert_eq!(rt; units_at(alloc, good.as_str(), "k39"), Some(39_000_000_000));
    let doubled = wide(alloc, 40, true).ok_or("memory")?;
    assert_eq!(rt;
        fault_of(alloc, doubled.as_bytes()),
        Some(JsonFault::Duplicate(341))
    );
    let wider = wide(alloc, 5_000, false).ok_or("memory")?;
    assert!(rt; has_compact(alloc, wider.as_str(), wider.as_str()));
    assert_eq!(rt; clones(alloc, wider.as_str()), Some(true));
    Ok(())
}

/// A list of two values.
fn list_of(alloc: Global, one: Json, other: Json) -> Option<Items> {
    let mut values = Vec::new(alloc);
    values.push(one).ok()?;
    values.push(other).ok()?;
    Some(Items::of_values(values))
}

/// Whether the members are `a`, of whatever value, and then `b`, which is null.
fn are_a_and_null_b(members: &Members) -> bool {
    match members.members() {
        [first, second] => {
            first.key.as_str() == "a" && second.key.as_str() == "b" && second.value == Json::Null
        }
        _ => false,
    }
}

/// Whether an object's members are found by their keys.
fn finds_its_members(value: &Json) -> bool {
    match value {
        Json::Dict(members) => {
            members.len() == 2
                && are_a_and_null_b(members)
                && members.position("b") == Some(1)
                && members.position("c") == None
                && members.find("b") == Some(&Json::Null)
        }
        _ => false,
    }
}

/// Whether the items are this value and then true.
fn are_this_and_true(items: &Items, value: &Json) -> bool {
    items.len() == 2
        && items.values().len() == 2
        && items.values()[0] == *value
        && items.get(1) == Some(&Json::Bool(true))
        && items.get(2) == None
}

/// The list of a value's copy and true.
fn with_true(alloc: Global, value: &Json) -> Option<Items> {
    list_of(alloc, value.try_clone(alloc).ok()?, Json::Bool(true))
}

#[test]
fn parts_of_lists_and_objects(rt: HostRuntime) -> Result<(), Fail> {
    let one = value_of(rt.alloc(), "{\"a\":1,\"b\":null}").ok_or("not read")?;
    assert!(rt; finds_its_members(&one));
    let items = with_true(rt.alloc(), &one).ok_or("memory")?;
    assert!(rt; are_this_and_true(&items, &one));
    Ok(())
}

/// Texts whose compact texts are measured.
const MEASURED: &[&str] = &[
    "null",
    "true",
    "false",
    "-12.50e3",
    "\"\"",
    "\"a\\u0000\\n\\\"\\\\\u{20ac}\\/\"",
    "[ ]",
    "[ 1 , [ true ] , { } ]",
    "{ }",
    "{ \"a\" : 1 , \"\\u001f\" : { \"b\" : [ ] } , \"\" : false }",
];

#[test]
fn the_length_of_the_compact_text_is_found_without_it(rt: HostRuntime) -> Result<(), Fail> {
    let alloc = rt.alloc();
    for text in MEASURED {
        assert_eq!(rt; is_measured(alloc, text), Some(true));
    }
    Ok(())
}

/// How the whole number of this amount is spelled; none from 10^18 on.
fn whole_spelled(alloc: Global, amount: i128) -> Option<String> {
    if amount.unsigned_abs() >= 1_000_000_000_000_000_000 {
        return None;
    }
    let number = Dec::of_whole(amount);
    String::from_str(alloc, number.spelling()).ok()
}

/// Whether a text is read as a number with this whole value.
fn has_whole(alloc: Global, text: &str, wanted: Option<i128>) -> bool {
    match &value_of(alloc, text) {
        Some(Json::Num(number)) => number.whole() == wanted,
        _ => false,
    }
}

/// Whole numbers with their spellings, and other numbers with their whole values.
const WHOLE: &[(i128, &str, &str, Option<i128>)] = &[
    (0, "0", "-0", Some(0)),
    (-12, "-12", "1.0", Some(1)),
    (7, "7", "1.5", None),
    (
        999_999_999_999_999_999,
        "999999999999999999",
        "999999999999999999",
        Some(999_999_999_999_999_999),
    ),
    (
        -999_999_999_999_999_999,
        "-999999999999999999",
        "-25e-1",
        None,
    ),
    (1_000, "1000", "-250e-1", Some(-25)),
];

#[test]
fn whole_numbers(rt: HostRuntime) -> Result<(), Fail> {
    let alloc = rt.alloc();
    for (amount, spelled, other, whole) in WHOLE {
        let text = whole_spelled(alloc, *amount).ok_or("no number")?;
        assert!(rt; text.as_str() == *spelled);
        assert!(rt; has_whole(alloc, other, *whole));
    }
    Ok(())
}

#[test]
fn values_are_shared(rt: HostRuntime) -> Result<(), Fail> {
    let alloc = rt.alloc();
    for text in ["null", "[1,{\"a\":[true,\"x\"]}]", "{}"] {
        assert_eq!(rt; is_shared(alloc, text), Some(true));
    }
    Ok(())
}

#[test]
fn values_and_names_stand_behind_what_a_buffer_held(rt: HostRuntime) -> Result<(), Fail> {
    let text = written_behind(rt.alloc(), "held ", "[1, {\"a\":2e0}]", "a\"b").ok_or("memory")?;
    assert_eq!(rt; text.as_str(), "held [1,{\"a\":2e0}]\"a\\\"b\"");
    Ok(())
}

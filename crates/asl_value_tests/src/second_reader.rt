// `serde_json` as a second reader of JSON texts.
use asl_json::{Items, Json};
use asl_json_read::read;
use serde_json::Value;
use std::alloc::Global;
use std::test::Fail;

/// Whether our items and the other reader's are equal, where they are no lists and objects.
fn agrees_items(ours: &Items, theirs: &Value) -> bool {
    for i in 0..ours.len() {
        let (Some(one), Some(other)) = (ours.get(i), theirs.get(i)) else {
            return false;
        };
        if !agrees_scalar(one, other) {
            return false;
        }
    }
    theirs.get(ours.len()).is_none()
}

/// Whether our number and the other reader's are one, as far as it keeps whole numbers.
fn agrees_number(ours: i128, theirs: &Value) -> bool {
    match theirs.as_i64() {
        Some(number) => i128::from(number) * 1_000_000_000 == ours,
        None => false,
    }
}

/// Whether the other reader has this value, which is no list and no object.
fn agrees_scalar(ours: &Json, theirs: &Value) -> bool {
    match ours {
        Json::Null => theirs.is_null(),
        Json::Bool(truth) => theirs.as_bool() == Some(*truth),
        Json::Num(number) => agrees_number(number.units(), theirs),
        Json::Text(text) => theirs.as_str() == Some(text.as_str()),
        _ => false,
    }
}

/// Whether the other reader has this value.
fn agrees_at(ours: &Json, theirs: &Value) -> bool {
    match ours {
        Json::List(items) => agrees_items(items, theirs),
        _ => agrees_scalar(ours, theirs),
    }
}

/// Whether both objects have equal values at these keys.
fn agree_at_keys(ours: &Json, theirs: &Value, keys: &[&str]) -> bool {
    for key in keys {
        let (Some(one), Some(other)) = (ours.get(*key), theirs.get(*key)) else {
            return false;
        };
        if !agrees_at(one, other) {
            return false;
        }
    }
    true
}

/// Whether both readers read the text, and have equal values at these keys.
fn agree(alloc: Global, text: &str, keys: &[&str]) -> bool {
    match (read(alloc, text.as_bytes()), Value::from_str(alloc, text)) {
        (Ok(ours), Ok(theirs)) => agree_at_keys(&ours, &theirs, keys),
        _ => false,
    }
}

#[test]
fn both_readers_read_one_value(rt: HostRuntime) -> Result<(), Fail> {
    let alloc = rt.alloc();
    assert!(rt; agree(alloc, "{\"a\":1,\"b\":\"x\"}", &["a", "b"]));
    let text = " { \"n\" : -12, \"t\":true,\n\"z\":null, \"u\":\"\u{e9}\" } ";
    assert!(rt; agree(alloc, text, &["n", "t", "z", "u"]));
    let text = "{\"l\":[1,\"\\u00e9\\ud83d\\ude00\",null,-20],\"e\":[],\"s\":\"\\b\\/\\\\\"}";
    assert!(rt; agree(alloc, text, &["l", "e", "s"]));
    Ok(())
}

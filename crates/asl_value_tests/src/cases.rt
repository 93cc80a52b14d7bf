// Texts in the manner of the public test suites for JSON readers (RFC 8259), for our reader and for another one.
use asl_json_read::{JsonFault, read};
use serde_json::Value;
use std::alloc::Global;
use std::test::Fail;

fn fault_of(alloc: Global, text: &str) -> Option<JsonFault> {
    read(alloc, text.as_bytes()).err()
}

/// Whether the other reader reads the text.
fn other_reads(alloc: Global, text: &str) -> bool {
    Value::from_str(alloc, text).is_ok()
}

/// Texts that both read.
const READ_BY_BOTH: &[&str] = &[
    "[[]   ]",
    "[\"\"]",
    "[]",
    "[null, 1, \"1\", {}]",
    " [1]",
    "[1]\n",
    "[0e+1]",
    "[0e1]",
    "[ 4]",
    "[-0.000000001]",
    "[20e1]",
    "[-0]",
    "[-123]",
    "[1E+2]",
    "[123.456]",
    "{\"asd\":\"sdf\", \"dfg\":\"fgh\"}",
    "{\"\":0}",
    "{\"foo\\u0000bar\": 42}",
    "[\"\\u0060\\u012a\\u12AB\"]",
    "[\"\\uD801\\udc37\"]",
    "[\"\\\"\\\\\\/\\b\\f\\n\\r\\t\"]",
    "\"\u{7f}\u{2028}\"",
    "true",
    "\"\"",
];

#[test]
fn texts_that_both_read(rt: HostRuntime) -> Result<(), Fail> {
    let alloc = rt.alloc();
    for text in READ_BY_BOTH {
        assert_eq!(rt; fault_of(alloc, text), None);
        assert_eq!(rt; other_reads(alloc, text), true);
    }
    Ok(())
}

/// Texts that neither reads, and the byte of our fault J1.
const READ_BY_NEITHER: &[(&str, usize)] = &[
    ("[1 true]", 3),
    ("[\"\": 1]", 3),
    ("[\"\"],", 4),
    ("[,1]", 1),
    ("[1,,2]", 3),
    ("[\"x\"]]", 5),
    ("[\"\",]", 4),
    ("[\"x\"", 4),
    ("[3[4]]", 2),
    ("[fals]", 5),
    ("[-01]", 3),
    ("[.123]", 1),
    ("[0.e1]", 3),
    ("[1.0e+]", 6),
    ("[1+2]", 2),
    ("[+1]", 1),
    ("[- 1]", 2),
    ("[Infinity]", 1),
    ("[0x1]", 2),
    ("[1a]", 2),
    ("{\"x\"::\"b\"}", 5),
    ("{\"a\":\"a\" 123}", 9),
    ("{key: 1}", 1),
    ("{'a':0}", 1),
    ("{\"id\":0,}", 8),
    ("{\"a\":\"b\"}#", 9),
    ("[\"\\u00A\"]", 7),
    ("[\"\\uD834\\uDd\"]", 12),
    ("[\"\\uD800\\u1x\"]", 2),
    ("[\"\\x00\"]", 3),
    ("[\"\\\\\\\"]", 7),
    ("[\"a\u{0}a\"]", 3),
    ("[\"\\uDFAA\"]", 2),
    ("[\"\\uD888\\u1234\"]", 2),
    ("[\"new\nline\"]", 5),
    ("", 0),
    (" ", 1),
    ("*", 0),
    ("{", 1),
    ("[1] x", 4),
];

#[test]
fn texts_that_neither_reads(rt: HostRuntime) -> Result<(), Fail> {
    let alloc = rt.alloc();
    for (text, at) in READ_BY_NEITHER {
        assert_eq!(rt; fault_of(alloc, text), Some(JsonFault::Syntax(*at)));
        assert_eq!(rt; other_reads(alloc, text), false);
    }
    Ok(())
}

/// Texts that are past our limits alone.
const PAST_OUR_LIMITS: &[(&str, JsonFault)] = &[
    ("[123e65]", JsonFault::Number(1)),
    ("[0.4e00669999999999999999999999999]", JsonFault::Number(1)),
    ("[100000000000000000000]", JsonFault::Number(1)),
    ("{\"a\":\"b\",\"a\":\"b\"}", JsonFault::Duplicate(9)),
];

#[test]
fn texts_past_our_limits_alone(rt: HostRuntime) -> Result<(), Fail> {
    let alloc = rt.alloc();
    for (text, fault) in PAST_OUR_LIMITS {
        assert_eq!(rt; fault_of(alloc, text), Some(*fault));
    }
    Ok(())
}

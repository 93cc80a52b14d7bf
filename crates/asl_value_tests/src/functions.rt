// What no clause says of calls: values of outside vectors and of worked examples, and that each function succeeds with ample memory.
use asl_intrinsic::{CallFault, Expr};
use asl_intrinsic_functions::{EvalFault, Reason};
use asl_json::Json;
use asl_json_read::read;
use asl_json_write::write;
use std::alloc::Global;
use std::test::Fail;

/// How many items a list has.
fn count(list: &Json) -> usize {
    match list {
        Json::List(items) => items.len(),
        _ => 0,
    }
}

/// The call of the function of this name on so many items of its input, one after another.
fn call_on_items(alloc: Global, name: &str, count: usize) -> Option<String> {
    let mut text = String::from_str(alloc, "States.").ok()?;
    text.push_str(name).ok()?;
    text.push('(').ok()?;
    for i in 0..count {
        if i > 0 {
            text.push(',').ok()?;
        }
        write!(text, "$[{i}]").ok()?;
    }
    text.push(')').ok()?;
    Some(text)
}

/// A word for what is wrong; none where memory ran out.
fn word(fault: EvalFault) -> Option<&'static str> {
    match fault {
        EvalFault::Fails(Reason::Unfit) => Some("unfit"),
        EvalFault::Fails(Reason::Range) => Some("range"),
        EvalFault::Fails(Reason::Count) => Some("count"),
        EvalFault::Fails(Reason::Undecoded) => Some("undecoded"),
        EvalFault::PathMissing => Some("path"),
        EvalFault::OutOfMemory => None,
    }
}

/// What a call gives: the compact text, or the word.
fn given(alloc: Global, call: &Expr, input: &Json, context: &Json) -> Option<String> {
    match call.eval(alloc, input, context) {
        Ok(value) => write(alloc, &value).ok(),
        Err(fault) => String::from_str(alloc, word(fault)?).ok(),
    }
}

/// The same of a text; `arity` where it is a call with too few or too many arguments.
fn given_by(alloc: Global, text: &str, input: &Json, context: &Json) -> Option<String> {
    match Expr::read(alloc, text) {
        Ok(call) => given(alloc, &call, input, context),
        Err(CallFault::Arity) => String::from_str(alloc, "arity").ok(),
        Err(_) => None,
    }
}

/// What a call gives on an input and the context `{"k":"c"}`.
fn value_on(alloc: Global, call: &str, input: &Json) -> Option<String> {
    let context = read(alloc, b"{\"k\":\"c\"}").ok()?;
    given_by(alloc, call, input, &context)
}

/// What the function of this name gives for the items of a JSON list.
fn answer(alloc: Global, name: &str, list: &str) -> Option<String> {
    let list = read(alloc, list.as_bytes()).ok()?;
    let call = call_on_items(alloc, name, count(&list))?;
    value_on(alloc, call.as_str(), &list)
}

fn gives(alloc: Global, name: &str, list: &str, wanted: &str) -> bool {
    match answer(alloc, name, list) {
        Some(text) => text.as_str() == wanted,
        None => false,
    }
}

/// Whether a call gives this on an input.
fn evaluates(alloc: Global, call: &str, input: &str, wanted: &str) -> bool {
    let Ok(input) = read(alloc, input.as_bytes()) else {
        return false;
    };
    match value_on(alloc, call, &input) {
        Some(text) => text.as_str() == wanted,
        None => false,
    }
}

/// Functions on lists: the name, the arguments as a JSON list, and what is given.
const ON_LISTS: &[(&str, &str, &str)] = &[
    ("Array", "[]", "[]"),
    (
        "Array",
        r#"["a",1.0,null,[true]]"#,
        r#"["a",1.0,null,[true]]"#,
    ),
    (
        "ArrayPartition",
        "[[1,2,3,4,5,6,7,8,9],4]",
        "[[1,2,3,4],[5,6,7,8],[9]]",
    ),
    ("ArrayPartition", "[[1,2],2.0]", "[[1,2]]"),
    ("ArrayPartition", "[[],3]", "[]"),
    ("ArrayPartition", "[[1],0]", "range"),
    ("ArrayPartition", "[[1],-1]", "range"),
    ("ArrayPartition", "[[1],1.5]", "range"),
    ("ArrayPartition", "[1,0]", "unfit"),
    ("ArrayPartition", r#"[[1],"0"]"#, "unfit"),
    ("ArrayPartition", "[[1,2],999999999999999999]", "[[1,2]]"),
    ("ArrayContains", "[[1,2,3,4,5,6,7,8,9],5]", "true"),
    (
        "ArrayContains",
        r#"[[{"a":1,"b":2}],{"b":2.0,"a":1}]"#,
        "true",
    ),
    ("ArrayContains", r#"[[1,2],"1"]"#, "false"),
    ("ArrayContains", r#"["a","a"]"#, "unfit"),
    ("ArrayRange", "[1,9,2]", "[1,3,5,7,9]"),
    ("ArrayRange", "[3,1,-1]", "[3,2,1]"),
    ("ArrayRange", "[1,0,1]", "[]"),
    ("ArrayRange", "[0,1000,1]", "range"),
    ("ArrayRange", "[1,9,0]", "range"),
    ("ArrayRange", "[1,9,0.5]", "range"),
    ("ArrayRange", "[1,9,null]", "unfit"),
    ("ArrayRange", "[-1.0,1e0,1]", "[-1,0,1]"),
    ("ArrayGetItem", "[[1,2,3,4,5,6,7,8,9],5]", "6"),
    ("ArrayGetItem", "[[1,2],2]", "range"),
    ("ArrayGetItem", "[[1,2],-1]", "range"),
    ("ArrayGetItem", r#"[{"a":1},0]"#, "unfit"),
    ("ArrayLength", "[[1,2,3,4,5,6,7,8,9]]", "9"),
    ("ArrayLength", r#"["x"]"#, "unfit"),
    ("ArrayUnique", "[[1,2,3,3,3,3,3,3,4]]", "[1,2,3,4]"),
    (
        "ArrayUnique",
        r#"[[1.0,1,"1",[1],[1.0],{},{}]]"#,
        r#"[1.0,"1",[1],{}]"#,
    ),
    // These differ, and some have the mark of another.
    (
        "ArrayUnique",
        r#"[[1,-1,0,2.147483647,null,1e-9,true,2e-9,false,3e-9,"",5e-9,[],7e-9,{},11e-9]]"#,
        r#"[1,-1,0,2.147483647,null,1e-9,true,2e-9,false,3e-9,"",5e-9,[],7e-9,{},11e-9]"#,
    ),
    (
        "ArrayUnique",
        r#"[[{"a":1,"b":[2.0,{"c":1e1,"d":null}]},{"b":[2,{"d":null,"c":10}],"a":1.0},{"a":1,"b":2},{"a":2,"b":1},{"b":2,"a":1}]]"#,
        r#"[{"a":1,"b":[2.0,{"c":1e1,"d":null}]},{"a":1,"b":2},{"a":2,"b":1}]"#,
    ),
    ("ArrayUnique", "[null]", "unfit"),
];

#[test]
fn functions_on_lists(rt: HostRuntime) -> Result<(), Fail> {
    let alloc = rt.alloc();
    for (name, list, wanted) in ON_LISTS {
        assert!(rt; gives(alloc, name, list, wanted));
    }
    Ok(())
}

/// The same of functions on texts and numbers.
const ON_TEXTS_AND_NUMBERS: &[(&str, &str, &str)] = &[
    (
        "Format",
        r#"["Hello, my name is {}.","Arnav"]"#,
        r#""Hello, my name is Arnav.""#,
    ),
    (
        "Format",
        r#"["{}{} {}",1.50,null,true]"#,
        r#""1.50null true""#,
    ),
    ("Format", r#"["{{}}",1]"#, r#""{1}""#),
    ("Format", r#"["{ } }{"]"#, r#""{ } }{""#),
    ("Format", r#"["\\{}",1]"#, r#""\\1""#),
    ("Format", r#"["é{}ü","ß"]"#, r#""éßü""#),
    ("Format", r#"["{}"]"#, "count"),
    ("Format", r#"["x",1]"#, "count"),
    ("Format", r#"["x",[1]]"#, "unfit"),
    ("Format", r#"["{}",{}]"#, "unfit"),
    ("Format", "[1]", "unfit"),
    (
        "StringToJson",
        r#"["{\"number\": 20}"]"#,
        r#"{"number":20}"#,
    ),
    ("StringToJson", r#"["[1,"]"#, "undecoded"),
    ("StringToJson", r#"[""]"#, "undecoded"),
    ("StringToJson", "[1]", "unfit"),
    (
        "JsonToString",
        r#"[{"name":"Foo","year":2020}]"#,
        r#""{\"name\":\"Foo\",\"year\":2020}""#,
    ),
    ("JsonToString", "[1.0]", r#""1.0""#),
    (
        "StringSplit",
        r#"["1,2,3,4,5",","]"#,
        r#"["1","2","3","4","5"]"#,
    ),
    (
        "StringSplit",
        r#"["This.is+a,test=string",".+,="]"#,
        r#"["This","is","a","test","string"]"#,
    ),
    ("StringSplit", r#"["abc",""]"#, r#"["abc"]"#),
    ("StringSplit", r#"["",""]"#, "[]"),
    ("StringSplit", r#"[",,a,,",","]"#, r#"["a"]"#),
    ("StringSplit", r#"["aéb","é"]"#, r#"["a","b"]"#),
    ("StringSplit", r#"["a",1]"#, "unfit"),
    ("MathAdd", "[111,-1]", "110"),
    ("MathAdd", "[1.0,2]", "3"),
    ("MathAdd", "[-0,0]", "0"),
    ("MathAdd", "[-5,2]", "-3"),
    ("MathAdd", "[999999999999999999,1]", "range"),
    ("MathAdd", "[-999999999999999999,-1]", "range"),
    ("MathAdd", "[1.5,1.5]", "range"),
    ("MathAdd", r#"["1",1.5]"#, "unfit"),
    ("MathAdd", "[1]", "arity"),
];

#[test]
fn functions_on_texts_and_numbers(rt: HostRuntime) -> Result<(), Fail> {
    let alloc = rt.alloc();
    for (name, list, wanted) in ON_TEXTS_AND_NUMBERS {
        assert!(rt; gives(alloc, name, list, wanted));
    }
    Ok(())
}

/// The same of codings, digests and merging.
const CODINGS_DIGESTS_AND_MERGING: &[(&str, &str, &str)] = &[
    // RFC 4648, section 10
    ("Base64Encode", r#"[""]"#, r#""""#),
    ("Base64Encode", r#"["f"]"#, r#""Zg==""#),
    ("Base64Encode", r#"["fo"]"#, r#""Zm8=""#),
    ("Base64Encode", r#"["foobar"]"#, r#""Zm9vYmFy""#),
    ("Base64Encode", "[1]", "unfit"),
    ("Base64Decode", r#"["Zm9vYmE="]"#, r#""fooba""#),
    ("Base64Decode", r#"[""]"#, r#""""#),
    ("Base64Decode", r#"["Zh=="]"#, "undecoded"),
    ("Base64Decode", r#"["Zg"]"#, "undecoded"),
    ("Base64Decode", r#"["Zm9v\n"]"#, "undecoded"),
    ("Base64Decode", r#"["/w=="]"#, "undecoded"),
    ("Base64Decode", "[null]", "unfit"),
    // RFC 1321, appendix A.5; FIPS 180
    (
        "Hash",
        r#"["abc","MD5"]"#,
        r#""900150983cd24fb0d6963f7d28e17f72""#,
    ),
    (
        "Hash",
        r#"["abc","SHA-1"]"#,
        r#""a9993e364706816aba3e25717850c26c9cd0d89d""#,
    ),
    (
        "Hash",
        r#"["abc","SHA-256"]"#,
        r#""ba7816bf8f01cfea414140de5dae2223b00361a396177a9cb410ff61f20015ad""#,
    ),
    (
        "Hash",
        r#"["abc","SHA-384"]"#,
        r#""cb00753f45a35e8bb5a03d699ac65007272c32ab0eded1631a8b605a43ff5bed8086072ba1e7cc2358baeca134c825a7""#,
    ),
    (
        "Hash",
        r#"["abc","SHA-512"]"#,
        r#""ddaf35a193617abacc417349ae20413112e6fa4e89a97ea20a9eeee64b55d39a2192992a274fc1a836ba3c23a3feebbd454d4423643ce80e2a9ac94fa54ca49f""#,
    ),
    ("Hash", r#"["abc","sha-1"]"#, "range"),
    ("Hash", r#"[1,"x"]"#, "unfit"),
    ("Hash", r#"["abc",1]"#, "unfit"),
    (
        "JsonMerge",
        r#"[{"x":1,"y":2},{"y":3,"z":4},false]"#,
        r#"{"x":1,"y":3,"z":4}"#,
    ),
    (
        "JsonMerge",
        r#"[{"a":{"p":1},"b":2},{"a":{"q":2}},false]"#,
        r#"{"a":{"q":2},"b":2}"#,
    ),
    ("JsonMerge", "[{},{},false]", "{}"),
    ("JsonMerge", "[{},{},true]", "unfit"),
    ("JsonMerge", "[{},[],false]", "unfit"),
    ("JsonMerge", "[{},{},0]", "unfit"),
    ("JsonMerge", "[{},{}]", "arity"),
];

#[test]
fn codings_digests_and_merging(rt: HostRuntime) -> Result<(), Fail> {
    let alloc = rt.alloc();
    for (name, list, wanted) in CODINGS_DIGESTS_AND_MERGING {
        assert!(rt; gives(alloc, name, list, wanted));
    }
    Ok(())
}

/// Calls as they are written, their inputs, and what is given.
const CALLS: &[(&str, &str, &str)] = &[
    (
        "States.Format('{} is {}', $.n, 2.50)",
        "{\"n\":\"x\"}",
        "\"x is 2.50\"",
    ),
    ("States.Format('{} is {}', $.n, 2.50)", "{}", "path"),
    ("States.Format('{}')", "{}", "count"),
    ("States.Format('{}',$)", "[1]", "unfit"),
    ("States.Format('a\\{b')", "{}", "\"a{b\""),
    ("States.Format('\\{{}\\}\\\\',7)", "{}", "\"{7}\\\\\""),
    ("States.Format('it\\'s {}',$$.k)", "{}", "\"it's c\""),
    ("States.MathAdd('x', $.missing)", "{}", "path"),
    (
        "States.MathAdd(States.MathAdd(1,2),States.ArrayLength($))",
        "[0,0]",
        "5",
    ),
    (
        "States.Array(States.StringToJson('x'),$.missing)",
        "{}",
        "undecoded",
    ),
    (
        "States.Hash('input data','SHA-1')",
        "{}",
        "\"aaff4a450a104cd177d28d18d74485e8cae074b7\"",
    ),
    (
        "States.Base64Encode('Data to encode')",
        "{}",
        "\"RGF0YSB0byBlbmNvZGU=\"",
    ),
    (
        "States.JsonMerge($.a,$.b,false)",
        "{\"a\":{\"x\":1,\"y\":2},\"b\":{\"y\":3,\"z\":4}}",
        "{\"x\":1,\"y\":3,\"z\":4}",
    ),
    (
        "States.ArrayPartition($,4)",
        "[1,2,3,4,5,6,7,8,9]",
        "[[1,2,3,4],[5,6,7,8],[9]]",
    ),
    (
        "States.StringSplit('1,2;;3',',;')",
        "{}",
        "[\"1\",\"2\",\"3\"]",
    ),
    ("States.ArrayUnique($)", "[1,1.0,\"1\"]", "[1,\"1\"]"),
    ("States.ArrayGetItem($,1)", "[5]", "range"),
];

#[test]
fn calls_as_they_are_written(rt: HostRuntime) -> Result<(), Fail> {
    let alloc = rt.alloc();
    for (call, input, wanted) in CALLS {
        assert!(rt; evaluates(alloc, call, input, wanted));
    }
    Ok(())
}

// What no clause says of templates: worked examples, and each call once with ample memory.
use asl_intrinsic::CallFault;
use asl_json::Json;
use asl_json_read::read;
use asl_json_write::write;
use asl_template::{FillFault, Template, TemplateFault, Word};
use std::alloc::Global;
use std::test::Fail;

fn word(word: Word) -> &'static str {
    match word {
        Word::Unfit => "unfit",
        Word::Range => "range",
        Word::Count => "count",
        Word::Undecoded => "undecoded",
        Word::Path => "path",
    }
}

fn call_word(fault: &CallFault) -> &'static str {
    match fault {
        CallFault::Syntax(_) => "syntax",
        CallFault::Unknown(_) => "unknown",
        CallFault::Depth => "depth",
        CallFault::Arity => "arity",
        CallFault::OutOfMemory => "memory",
    }
}

fn joined(alloc: Global, number: &str, place: &str, behind: &str) -> Option<String> {
    format!(in alloc; "{number} {place}{behind}").ok()
}

/// The text of a fault: its number, its key and its word.
fn unfilled(alloc: Global, fault: &FillFault) -> Option<String> {
    match fault {
        FillFault::PathFails(key) => joined(alloc, "L3", key.as_str(), ""),
        FillFault::IntrinsicFails(key, reason) => {
            format!(in alloc; "L4 {} {}", key.as_str(), word(*reason)).ok()
        }
        FillFault::OutOfMemory => None,
    }
}

/// The text of a fault: its number, its place, and where the text of a path goes wrong or what is wrong with a call.
fn refused(alloc: Global, fault: &TemplateFault) -> Option<String> {
    match fault {
        TemplateFault::NotText(place) => joined(alloc, "L1", place.as_str(), ""),
        TemplateFault::Both(place) => joined(alloc, "L2", place.as_str(), ""),
        TemplateFault::PathText(place, at) => {
            format!(in alloc; "L5 {} {}", place.as_str(), *at).ok()
        }
        TemplateFault::CallText(place, fault) => {
            format!(in alloc; "L6 {} {}", place.as_str(), call_word(fault)).ok()
        }
        TemplateFault::OutOfMemory => None,
    }
}

fn value(alloc: Global, text: &str) -> Option<Json> {
    read(alloc, text.as_bytes()).ok()
}

/// The compact text of what a template gives on an input and a context, or the text of its fault.
fn filled(alloc: Global, template: &Template, input: &Json, context: &Json) -> Option<String> {
    match template.fill(alloc, input, context) {
        Ok(value) => write(alloc, &value).ok(),
        Err(fault) => unfilled(alloc, &fault),
    }
}

/// The same of the value of a template.
fn filled_by(alloc: Global, template: &Json, input: &Json, context: &Json) -> Option<String> {
    match Template::read(alloc, template) {
        Ok(template) => filled(alloc, &template, input, context),
        Err(fault) => refused(alloc, &fault),
    }
}

/// The same of texts, on the context `{"n":"c"}`.
fn outcome(alloc: Global, template: &str, input: &str) -> Option<String> {
    let context = value(alloc, r#"{"n":"c"}"#)?;
    let input = value(alloc, input)?;
    filled_by(alloc, &value(alloc, template)?, &input, &context)
}

fn gives(alloc: Global, template: &str, input: &str, wanted: &str) -> bool {
    match outcome(alloc, template, input) {
        Some(text) => text.as_str() == wanted,
        None => false,
    }
}

/// The texts of a template, of an input and of what is given.
type Row = (&'static str, &'static str, &'static str);

const FILLED: [Row; 17] = [
    (r#"[{"x.$":"$.a"},3]"#, r#"{"a":[1]}"#, r#"[{"x":[1]},3]"#),
    (r#"[{"x.$":"$.a"},3]"#, "{}", "L3 x.$"),
    (
        r#"{"s.$":"States.Format('{} is {}', $.n, 2.50)"}"#,
        r#"{"n":"x"}"#,
        r#"{"s":"x is 2.50"}"#,
    ),
    (
        r#"{"s.$":"States.Format('{} is {}', $.n, 2.50)"}"#,
        "{}",
        "L4 s.$ path",
    ),
    (
        r#"{"a":1,"b.$":"$.n","c":[],"d.$":"$$.n","e.$":"States.Array($$.n,$)"}"#,
        r#"{"n":2.50}"#,
        r#"{"a":1,"b":2.50,"c":[],"d":"c","e":["c",{"n":2.50}]}"#,
    ),
    (
        r#"{"n.$":"States.MathAdd($.n, 1)"}"#,
        r#"{"n":1}"#,
        r#"{"n":2}"#,
    ),
    (
        r#"{"flagged":true,"parts":{"first.$":"$.vals[0]","last.$":"$.vals[2]"}}"#,
        r#"{"vals":[0,10,20]}"#,
        r#"{"flagged":true,"parts":{"first":0,"last":20}}"#,
    ),
    (r#"{".$":"$"}"#, "null", r#"{"":null}"#),
    (r#"{"x.$.$":"$"}"#, "1", r#"{"x.$":1}"#),
    (
        r#"{"x$":"$","$":"$",".":"$"}"#,
        "1",
        r#"{"x$":"$","$":"$",".":"$"}"#,
    ),
    (
        r#"[true,false,null,"$.a",-0.10,[],{}]"#,
        "{}",
        r#"[true,false,null,"$.a",-0.10,[],{}]"#,
    ),
    (r#"{"b":{"y.$":"$.b"},"a.$":"$.a"}"#, "{}", "L3 y.$"),
    (r#"{"s.$":"States.Format('{}')"}"#, "{}", "L4 s.$ count"),
    (r#"{"s.$":"States.Format('{}',$)"}"#, "[1]", "L4 s.$ unfit"),
    (
        r#"{"s.$":"States.ArrayGetItem($,1)"}"#,
        "[5]",
        "L4 s.$ range",
    ),
    (
        r#"{"s.$":"States.Base64Decode('Zh==')"}"#,
        "{}",
        "L4 s.$ undecoded",
    ),
    (r#"{"s.$":"States.Array()","t.$":"$.t"}"#, "{}", "L3 t.$"),
];

const REFUSED: [Row; 17] = [
    (r#"{"x":1,"x.$":"$.a"}"#, "{}", "L2 /x.$"),
    (r#"{"x.$":"$.a","x":1}"#, "{}", "L2 /x"),
    (r#"{"x.$":"$.a","x.$.$":"$.a"}"#, "{}", "L2 /x.$.$"),
    (r#"{"x.$":5}"#, "{}", "L1 /x.$"),
    (r#"{"x.$":{"y.$":5}}"#, "{}", "L1 /x.$"),
    (r#"{"x.$":5,"x":1}"#, "{}", "L1 /x.$"),
    (
        r#"[0,{"a/b~":[{"x.$":"$.a..b"}]}]"#,
        "{}",
        "L5 /1/a~1b~0/0/x.$ 4",
    ),
    (r#"{"x.$":"$$x"}"#, "{}", "L5 /x.$ 2"),
    (r#"{"x.$":"$.","y":{"z":1,"z.$":"$"}}"#, "{}", "L2 /y/z.$"),
    (r#"[{"a.$":"$x"},{"b.$":"$y"}]"#, "{}", "L5 /0/a.$ 1"),
    (r#"[{"a":1,"a.$":"$"},{"b.$":null}]"#, "{}", "L1 /1/b.$"),
    (r#"[{"b.$":[]},{"b.$":null}]"#, "{}", "L1 /0/b.$"),
    (r#"{"x.$":"States.UUID()"}"#, "{}", "L6 /x.$ unknown"),
    (r#"{"x.$":"x"}"#, "{}", "L6 /x.$ syntax"),
    (r#"{"x.$":""}"#, "{}", "L6 /x.$ syntax"),
    (r#"{"x.$":"States.ArrayLength()"}"#, "{}", "L6 /x.$ arity"),
    (r#"{"x.$":"x","y.$":"$."}"#, "{}", "L5 /y.$ 2"),
];

#[test]
fn templates_are_filled(rt: HostRuntime) -> Result<(), Fail> {
    let alloc = rt.alloc();
    for (template, input, wanted) in FILLED {
        assert!(rt; gives(alloc, template, input, wanted));
    }
    Ok(())
}

#[test]
fn faults_of_templates(rt: HostRuntime) -> Result<(), Fail> {
    let alloc = rt.alloc();
    for (template, input, wanted) in REFUSED {
        assert!(rt; gives(alloc, template, input, wanted));
    }
    Ok(())
}

/// The text that a template was read from.
fn rebuilt(alloc: Global, template: &Template) -> Option<String> {
    write(alloc, &template.rebuild(alloc).ok()?).ok()
}

/// The text of a copy of the template, which has to equal it.
fn rebuilt_from_a_copy(alloc: Global, template: &Template) -> Option<String> {
    match template.try_clone(alloc) {
        Ok(copy) if copy == *template => rebuilt(alloc, &copy),
        _ => None,
    }
}

/// The same of the template of this text.
fn rebuilt_by(alloc: Global, text: &str) -> Option<String> {
    match Template::read(alloc, &value(alloc, text)?) {
        Ok(template) => rebuilt_from_a_copy(alloc, &template),
        Err(_) => None,
    }
}

fn is_given_back(alloc: Global, text: &str) -> bool {
    match rebuilt_by(alloc, text) {
        Some(back) => back.as_str() == text,
        None => false,
    }
}

#[test]
fn templates_are_given_back(rt: HostRuntime) -> Result<(), Fail> {
    let alloc = rt.alloc();
    for text in &[
        r#"[{"x.$":"$.a"},3]"#,
        r#"{"b":1.0e1,"a.$":"$$.a['b']",".$":"States.Array ( 1.0 , '\\'' )","c":[{"d":null}]}"#,
    ] {
        assert!(rt; is_given_back(alloc, text));
    }
    Ok(())
}

/// The text of an object with so many computed members, and one member more at the end.
fn wide(alloc: Global, count: usize, last: &str) -> Option<String> {
    let mut text = String::from_str(alloc, "{").ok()?;
    for i in 0..count {
        write!(text, "\"k{i}.$\":\"$\",").ok()?;
    }
    text.push_str(last).ok()?;
    text.push('}').ok()?;
    Some(text)
}

fn wide_gives(alloc: Global, last: &str, wanted: &str) -> bool {
    match wide(alloc, 30000, last) {
        Some(text) => gives(alloc, text.as_str(), "1", wanted),
        None => false,
    }
}

// In quadratic time this takes longer than a test may.
#[test]
fn wide_objects_are_read(rt: HostRuntime) -> Result<(), Fail> {
    let alloc = rt.alloc();
    assert!(rt; wide_gives(alloc, r#""k7":1"#, "L2 /k7"));
    assert!(rt; wide_gives(alloc, r#""x.$":"$.x""#, "L3 x.$"));
    Ok(())
}

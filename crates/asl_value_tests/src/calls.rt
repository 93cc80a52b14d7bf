// Places of faults and their order, and texts that are calls.
use asl_intrinsic::{CallFault, Expr};
use std::alloc::{AllocError, Global};
use std::test::Fail;

#[derive(Drop)]
enum Answer<'a> {
    Call,
    At(usize),
    Unknown(&'a str),
    Depth,
    Arity,
}

fn is_fault(fault: &CallFault, expected: &Answer) -> bool {
    match (fault, expected) {
        (CallFault::Syntax(at), Answer::At(place)) => *at == *place,
        (CallFault::Unknown(name), Answer::Unknown(word)) => name.as_str() == *word,
        (CallFault::Depth, Answer::Depth) => true,
        (CallFault::Arity, Answer::Arity) => true,
        _ => false,
    }
}

fn answers(alloc: Global, text: &str, expected: &Answer) -> bool {
    match Expr::read(alloc, text) {
        Ok(call) => matches!(expected, Answer::Call) && call.text() == text,
        Err(fault) => is_fault(&fault, expected),
    }
}

fn has_a_copy(alloc: Global, call: &Expr) -> bool {
    match call.try_clone(alloc) {
        Ok(copy) => copy == *call && copy.text() == call.text(),
        Err(_) => false,
    }
}

fn equals_its_copy(alloc: Global, text: &str) -> bool {
    match Expr::read(alloc, text) {
        Ok(call) => has_a_copy(alloc, &call) && call.text() == text,
        Err(_) => false,
    }
}

/// So many calls in one another behind these bytes, with the brackets that close them or without.
fn nested(alloc: Global, front: &str, count: usize, closed: bool) -> Result<String, AllocError> {
    let mut text = String::from_str(alloc, front)?;
    for _ in 0..count {
        text.push_str("States.Array(")?;
    }
    if closed {
        for _ in 0..count {
            text.push_str(")")?;
        }
    }
    Ok(text)
}

fn nested_answers(
    alloc: Global,
    front: &str,
    count: usize,
    behind: &str,
    expected: &Answer,
) -> bool {
    let Ok(mut text) = nested(alloc, front, count, true) else {
        return false;
    };
    text.push_str(behind).is_ok() && answers(alloc, text.as_str(), expected)
}

fn open_answers(alloc: Global, count: usize) -> bool {
    match nested(alloc, "", count, false) {
        Ok(text) => answers(alloc, text.as_str(), &Answer::At(text.len())),
        Err(_) => false,
    }
}

#[test]
fn texts_that_are_calls(rt: HostRuntime) -> Result<(), Fail> {
    let alloc = rt.alloc();
    for text in &[
        "States.Array()",
        "States.Array ( 1 , 'x' )",
        "States.Format('a\\{b')",
        "States.Array($$.a, $['b, c'][0],-0.5e1,null,true,false)",
        "States.Array(States.MathAdd($.a,1),States.Format('{}', $))",
    ] {
        assert!(rt; answers(alloc, text, &Answer::Call));
        assert!(rt; equals_its_copy(alloc, text));
    }
    Ok(())
}

#[test]
fn the_first_place_that_is_wrong(rt: HostRuntime) -> Result<(), Fail> {
    let alloc = rt.alloc();
    for (text, at) in &[
        ("", 0),
        (" States.Array()", 0),
        ("States.Array() ", 14),
        ("States .Array()", 6),
        ("States. Array()", 7),
        ("States.Array", 12),
        ("States.Array(1,)", 15),
        ("States.Array('a", 15),
        ("States.Array('\\a')", 15),
        ("States.Array(1e400)", 13),
        ("States.Array(1e400x", 13),
        ("States.Array(1ex", 15),
        ("States.Array($.a[1234567890])", 26),
        ("States.Array($.a.)", 17),
        ("States.Array(nul)", 16),
        ("States.Nothing(", 15),
    ] {
        assert!(rt; answers(alloc, text, &Answer::At(*at)));
    }
    assert!(rt; open_answers(alloc, 100_000));
    Ok(())
}

#[test]
fn the_first_call_that_is_wrong(rt: HostRuntime) -> Result<(), Fail> {
    let alloc = rt.alloc();
    assert!(rt; answers(alloc, "States.UUID()", &Answer::Unknown("UUID")));
    assert!(rt; answers(alloc, "States.ArrayLength()", &Answer::Arity));
    assert!(rt; answers(alloc, "States.ArrayLength(1,States.UUID())", &Answer::Arity));
    assert!(rt;
        answers(
            alloc,
            "States.UUID(States.ArrayLength())",
            &Answer::Unknown("UUID")
        )
    );
    assert!(rt;
        answers(
            alloc,
            "States.Array(States.ArrayLength(),States.UUID())",
            &Answer::Arity
        )
    );
    assert!(rt;
        answers(
            alloc,
            "States.Array(States.UUID(),States.ArrayLength())",
            &Answer::Unknown("UUID")
        )
    );
    Ok(())
}

#[test]
fn calls_in_one_another(rt: HostRuntime) -> Result<(), Fail> {
    let alloc = rt.alloc();
    assert!(rt; nested_answers(alloc, "", 10, "", &Answer::Call));
    assert!(rt; nested_answers(alloc, "", 11, "", &Answer::Depth));
    assert!(rt; nested_answers(alloc, "", 100_000, "", &Answer::Depth));
    assert!(rt; nested_answers(alloc, "States.UUID(", 11, ")", &Answer::Unknown("UUID")));
    Ok(())
}

// Where values stand in texts, and the lines and columns of bytes.
use asl_json_read::read;
use asl_json_spans::{Node, Position, Span, outline};
use std::alloc::Global;
use std::test::Fail;

/// Where the value at a place stands.
fn found(alloc: Global, text: &str, place: &[usize]) -> Option<Node> {
    let value = read(alloc, text.as_bytes()).ok()?;
    let outline = outline(alloc, text.as_bytes(), &value).ok()?;
    outline.find(place)
}

fn is_spelled(text: &str, span: Span, spelled: &str) -> bool {
    match text.as_bytes().get(span.begin..span.end) {
        Some(bytes) => bytes == spelled.as_bytes(),
        None => false,
    }
}

/// Whether the value at a place is spelled so.
fn value_is(alloc: Global, text: &str, place: &[usize], spelled: &str) -> bool {
    match found(alloc, text, place) {
        Some(node) => is_spelled(text, node.value, spelled),
        None => false,
    }
}

/// Whether the key of the value at a place is spelled so.
fn key_is(alloc: Global, text: &str, place: &[usize], spelled: &str) -> bool {
    match found(alloc, text, place) {
        Some(node) => is_spelled(text, node.key, spelled),
        None => false,
    }
}

/// An object with all kinds of values, spaces of all kinds, and characters of two to four bytes.
const TEXT: &str =
    "\r\n\t{ \"a\\\"\\u0041\" : [1, -2.5e3 ,\"\u{e9}\\\\\", [] ],\r\n\t\"\u{20ac}\":{\"\u{1f600}\":null},\"\":true , \"f\":false,\"o\":{ } }\n";

#[test]
fn values_stand_where_they_are_spelled(rt: HostRuntime) -> Result<(), Fail> {
    let alloc = rt.alloc();
    assert!(rt; value_is(alloc, TEXT, &[0, 0], "1"));
    assert!(rt; value_is(alloc, TEXT, &[0, 1], "-2.5e3"));
    assert!(rt; value_is(alloc, TEXT, &[0, 2], "\"\u{e9}\\\\\""));
    assert!(rt; value_is(alloc, TEXT, &[0, 3], "[]"));
    assert!(rt; value_is(alloc, TEXT, &[1], "{\"\u{1f600}\":null}"));
    assert!(rt; value_is(alloc, TEXT, &[1, 0], "null"));
    assert!(rt; value_is(alloc, TEXT, &[4], "{ }"));
    Ok(())
}

#[test]
fn keys_stand_where_they_are_spelled(rt: HostRuntime) -> Result<(), Fail> {
    let alloc = rt.alloc();
    assert!(rt; key_is(alloc, TEXT, &[0], "\"a\\\"\\u0041\""));
    assert!(rt; key_is(alloc, TEXT, &[1, 0], "\"\u{1f600}\""));
    assert!(rt; key_is(alloc, TEXT, &[2], "\"\""));
    assert!(rt; key_is(alloc, TEXT, &[0, 1], ""));
    Ok(())
}

#[test]
fn nothing_is_found_where_no_value_is(rt: HostRuntime) -> Result<(), Fail> {
    let alloc = rt.alloc();
    assert!(rt; found(alloc, TEXT, &[5]).is_none());
    assert!(rt; found(alloc, TEXT, &[0, 4]).is_none());
    assert!(rt; found(alloc, TEXT, &[0, 3, 0]).is_none());
    assert!(rt; found(alloc, TEXT, &[2, 0]).is_none());
    Ok(())
}

/// Whether these places are found as each is by itself.
fn are_found(alloc: Global, text: &str, places: &[&[usize]]) -> bool {
    let Ok(value) = read(alloc, text.as_bytes()) else {
        return false;
    };
    let Ok(outline) = outline(alloc, text.as_bytes(), &value) else {
        return false;
    };
    let Ok(found) = outline.find_all(alloc, places) else {
        return false;
    };
    found.len() == places.len()
        && found
            .iter()
            .zip(places.iter())
            .all(|(node, place)| *node == outline.find(place))
}

#[test]
fn many_places_are_found_as_each_is(rt: HostRuntime) -> Result<(), Fail> {
    let alloc = rt.alloc();
    assert!(rt; are_found(alloc, TEXT, &[]));
    assert!(rt;
        are_found(
            alloc,
            TEXT,
            &[&[], &[0], &[0, 0], &[0, 2], &[0, 3], &[1], &[1, 0], &[4]]
        )
    );
    assert!(rt;
        are_found(
            alloc,
            TEXT,
            &[
                &[4],
                &[1, 0],
                &[1],
                &[0, 3],
                &[0, 1],
                &[0, 3],
                &[0, 4],
                &[5],
                &[2]
            ]
        )
    );
    assert!(rt;
        are_found(
            alloc,
            TEXT,
            &[&[5, 1], &[0, 9, 1], &[0, 2], &[1, 0, 0], &[1, 0], &[1, 0]]
        )
    );
    Ok(())
}

/// The line feeds before a byte, and the characters before it in its line.
fn position(text: &str, at: usize) -> (usize, usize) {
    let here = Position::start().forward(text.as_bytes(), at);
    (here.lines, here.characters)
}

#[test]
fn lines_end_with_their_line_feed(rt: HostRuntime) -> Result<(), Fail> {
    assert!(rt; position("a\r\nb\n", 0) == (0, 0));
    assert!(rt; position("a\r\nb\n", 2) == (0, 2));
    assert!(rt; position("a\r\nb\n", 3) == (1, 0));
    assert!(rt; position("a\r\nb\n", 5) == (2, 0));
    assert!(rt; position("no line feed", 3) == (0, 3));
    assert!(rt; position("a\rb", 2) == (0, 2));
    Ok(())
}

#[test]
fn columns_are_characters(rt: HostRuntime) -> Result<(), Fail> {
    assert!(rt; position("\t\u{e9}\u{20ac}\u{1f600}x", 1) == (0, 1));
    assert!(rt; position("\t\u{e9}\u{20ac}\u{1f600}x", 10) == (0, 4));
    Ok(())
}

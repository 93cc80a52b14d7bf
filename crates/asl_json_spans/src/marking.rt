// Making an outline. The value says what comes next in the text, so nothing is looked for but the ends of texts.
ghost use Rattle.std.specs.Prelude.{◌≡◌, ◌++◌, ◌-◌, length, IfOk, OnOk};
ghost use Rattle.asl_json_data.specs.Data.{chain, pairs};
ghost use Rattle.asl_json_data.specs.Grammar.{IsText};
ghost use Rattle.asl_json.specs.View.{data_of};
ghost use Rattle.asl_json_spans.specs.Standing.{IsOutline};
ghost use Rattle.asl_json_spans.specs.private.Marks.{behind, behind_list, behind_dict, span_of, marks, inner_marks, item_marks, member_marks, closed};

use crate::finding::Outline;
use crate::front::{behind_mark, behind_spaces, behind_text, skip};
use crate::span::{Node, Span};
use asl_json::{Items, Json, Members};
use std::alloc::{AllocError, Global};

/// From where the first of these bytes stand to where the others do, in a text of so many bytes that both end.
fn span_of(len: usize, from: &[u8], to: &[u8]) -> Span
    ensures { result ≡ span_of len from.now to.now }
{
    Span {
        begin: len.saturating_sub(from.len()),
        end: len.saturating_sub(to.len()),
    }
}

/// Gives a node its end, and its size: itself and all nodes behind it.
fn close(nodes: &mut Vec<Node>, number: usize, end: usize)
    ensures { nodes.new.items ≡ closed nodes.old.items number end }
{
    let count = nodes.len();
    if number < count {
        let Node { key, value, .. } = nodes[number];
        nodes[number] = Node {
            key,
            value: Span {
                begin: value.begin,
                end,
            },
            size: count - number,
        };
    }
}

/// Adds the nodes of the value that stands in front and of those in it, and gives what follows it.
#[cycle(mark)]
fn mark_value<'a>(
    len: usize,
    key: Span,
    bytes: &'a [u8],
    value: &Json,
    nodes: &mut Vec<Node>,
) -> Result<&'a [u8], AllocError>
    ensures behind { IfOk result (λ rest. rest.now ≡ behind (data_of value.now) bytes.now) }
    ensures nodes { OnOk result (nodes.new.items
        ≡ nodes.old.items ++ marks len key (data_of value.now) bytes.now) }
{
    let number = nodes.len();
    nodes.push(Node {
        key,
        value: span_of(len, bytes, bytes),
        size: 1,
    })?;
    let rest = mark_inside(len, bytes, value, nodes)?;
    close(nodes, number, len.saturating_sub(rest.len()));
    Ok(rest)
}

/// Adds the nodes of the values in the one that stands in front, and gives what follows it.
#[cycle(mark)]
fn mark_inside<'a>(
    len: usize,
    bytes: &'a [u8],
    value: &Json,
    nodes: &mut Vec<Node>,
) -> Result<&'a [u8], AllocError>
    ensures behind { IfOk result (λ rest. rest.now ≡ behind (data_of value.now) bytes.now) }
    ensures nodes { OnOk result (nodes.new.items
        ≡ nodes.old.items ++ inner_marks len (data_of value.now) bytes.now) }
{
    match value {
        Json::Null | Json::Bool(true) => Ok(skip(bytes, 4)),
        Json::Bool(false) => Ok(skip(bytes, 5)),
        Json::Num(number) => Ok(skip(bytes, number.spelling().len())),
        Json::Text(_) => Ok(behind_text(bytes)),
        Json::List(items) => mark_items(len, skip(bytes, 1), items, nodes),
        Json::Dict(members) => mark_members(len, skip(bytes, 1), members, nodes),
    }
}

/// The same of items, from behind the opening bracket to behind the closing one.
#[cycle(mark)]
fn mark_items<'a>(
    len: usize,
    bytes: &'a [u8],
    items: &Items,
    nodes: &mut Vec<Node>,
) -> Result<&'a [u8], AllocError>
    ensures behind { IfOk result (λ rest. rest.now ≡ behind_list (chain items.now) bytes.now) }
    ensures nodes { OnOk result (nodes.new.items
        ≡ nodes.old.items ++ item_marks len (chain items.now) bytes.now) }
{
    let values = items.values();
    if values.is_empty() {
        return Ok(behind_mark(bytes));
    }
    let mut rest = bytes;
    for item in values {
        let begin = behind_spaces(rest);
        let behind = mark_value(len, span_of(len, begin, begin), begin, item, nodes)?;
        rest = behind_mark(behind);
    }
    Ok(rest)
}

/// The same of members, from behind the opening brace to behind the closing one.
#[cycle(mark)]
fn mark_members<'a>(
    len: usize,
    bytes: &'a [u8],
    members: &Members,
    nodes: &mut Vec<Node>,
) -> Result<&'a [u8], AllocError>
    ensures behind { IfOk result (λ rest. rest.now ≡ behind_dict (pairs members.now) bytes.now) }
    ensures nodes { OnOk result (nodes.new.items
        ≡ nodes.old.items ++ member_marks len (pairs members.now) bytes.now) }
{
    let pairs = members.members();
    if pairs.is_empty() {
        return Ok(behind_mark(bytes));
    }
    let mut rest = bytes;
    for member in pairs {
        let begin = behind_spaces(rest);
        let end = behind_text(begin);
        let value = behind_spaces(behind_mark(end));
        let behind = mark_value(len, span_of(len, begin, end), value, &member.value, nodes)?;
        rest = behind_mark(behind);
    }
    Ok(rest)
}

/// The outline of a text that spells this value, in one pass. Its cost is the length of the text. The error is that memory ran
/// out.
pub fn outline(alloc: Global, text: &[u8], value: &Json) -> Result<Outline, AllocError>
    ensures { IfOk result (λ o. IsText text.now (data_of value.now)
        → IsOutline text.now (data_of value.now) o) }
{
    let begin = behind_spaces(text);
    let mut nodes = Vec::new(alloc);
    mark_value(
        text.len(),
        span_of(text.len(), begin, begin),
        begin,
        value,
        &mut nodes,
    )?;
    Ok(Outline { nodes })
}

// Why a path names nothing in a value.
use asl_json::{Json, Member};
use asl_json_diff::put_short;
use asl_json_write::put_quoted;
use asl_path::{PathFault, RefPath};
use asl_text::put_shown;
use std::alloc::{AllocError, Global};

/// So many names of members are listed.
const MOST_NAMES: usize = 8;

/// How far a path leads: the longest front of its text that names something, what that is, and the step behind it, which leads nowhere.
#[derive(Clone, Copy)]
struct Reached<'a> {
    front: &'a str,
    value: &'a Json,
    step: &'a str,
}

/// The path that a text spells; none where it spells none. The error is that memory ran out, here and below.
pub(crate) fn path_in(alloc: Global, text: &str) -> Result<Option<RefPath>, AllocError> {
    match RefPath::read(alloc, text) {
        Ok(path) => Ok(Some(path)),
        Err(PathFault::OutOfMemory) => Err(AllocError),
        Err(PathFault::PathProfile(_)) => Ok(None),
    }
}

/// Where a step of a path ends: before the next one, and at the end.
fn is_between(rest: &str) -> bool {
    rest.is_empty() || rest.starts_with('.') || rest.starts_with('[')
}

/// The ends of the steps that a path may have, as numbers of bytes.
fn ends_in(alloc: Global, text: &str) -> Result<Vec<usize>, AllocError> {
    let mut ends = Vec::new(alloc);
    for (at, _) in text.char_indices() {
        if is_between(text.get(at..).unwrap_or("")) {
            ends.push(at)?;
        }
    }
    ends.push(text.len())?;
    Ok(ends)
}

/// How far a path leads in a value; none where it names something, or is no path.
fn reach_in<'a>(
    alloc: Global,
    text: &'a str,
    value: &'a Json,
) -> Result<Option<Reached<'a>>, AllocError> {
    let mut found = None;
    for end in ends_in(alloc, text)? {
        let front = text.get(..end).unwrap_or("");
        let Some(path) = path_in(alloc, front)? else {
            continue;
        };
        match path.get(value) {
            Some(part) => found = Some((front, part)),
            None => {
                let Some((before, value)) = found else {
                    return Ok(None);
                };
                return Ok(Some(Reached {
                    front: before,
                    value,
                    step: front.strip_prefix(before).unwrap_or(""),
                }));
            }
        }
    }
    Ok(None)
}

/// Whether a step is an index.
fn is_index(step: &str) -> bool {
    step.starts_with('[') && !step.starts_with("['") && !step.starts_with("[\"")
}

/// The name in a step, as it is spelt.
fn name_in(step: &str) -> &str {
    match step.strip_prefix('.') {
        Some(name) => name,
        None => step.trim_start_matches('[').trim_end_matches(']'),
    }
}

/// Appends a name in quotation marks: one that is spelt in some stays as it is spelt.
fn put_step(out: &mut String, step: &str) -> Result<(), AllocError> {
    if step.starts_with('.') {
        return put_quoted(out, name_in(step));
    }
    out.push_str(name_in(step))
}

/// What a value is.
fn noun(value: &Json) -> &'static str {
    match value {
        Json::Null => "null",
        Json::Bool(_) => "a boolean",
        Json::Num(_) => "a number",
        Json::Text(_) => "a text",
        Json::List(_) => "a list",
        Json::Dict(_) => "an object",
    }
}

/// Appends which members an object has.
fn put_names(out: &mut String, members: &[Member]) -> Result<(), AllocError> {
    if members.is_empty() {
        return out.push_str("; it is empty");
    }
    out.push_str("; it has ")?;
    for (number, member) in members.iter().take(MOST_NAMES).enumerate() {
        if number > 0 {
            out.push_str(", ")?;
        }
        put_quoted(out, member.key.as_str())?;
    }
    let more = members.len().saturating_sub(MOST_NAMES);
    if more > 0 {
        return write!(out, " and {more} more");
    }
    Ok(())
}

/// Appends what there is where a step leads nowhere.
fn put_reached(alloc: Global, out: &mut String, reached: &Reached<'_>) -> Result<(), AllocError> {
    let Reached { front, value, step } = *reached;
    out.push_str(front)?;
    match value {
        Json::Dict(members) if !is_index(step) => {
            out.push_str(" has no ")?;
            put_step(out, step)?;
            put_names(out, members.members())
        }
        Json::List(items) if is_index(step) => {
            let count = items.len();
            write!(out, " has {count} items")
        }
        _ => {
            out.push_str(" is ")?;
            put_value(alloc, out, value)?;
            out.push_str(if is_index(step) {
                ", and no list"
            } else {
                ", and no object"
            })
        }
    }
}

/// Appends what a value is, and the value itself where that says more.
pub(crate) fn put_value(alloc: Global, out: &mut String, value: &Json) -> Result<(), AllocError> {
    out.push_str(noun(value))?;
    match value {
        Json::Null => Ok(()),
        _ => {
            out.push_str(": ")?;
            put_short(alloc, out, value)
        }
    }
}

/// Appends that a path names nothing in a value, and what there is instead. Nothing where it names something.
pub(crate) fn put_absent(
    alloc: Global,
    out: &mut String,
    path: &str,
    value: &Json,
) -> Result<(), AllocError> {
    let Some(reached) = reach_in(alloc, path, value)? else {
        return Ok(());
    };
    let mut words = String::new(alloc);
    words.push_str(path)?;
    words.push_str(" names nothing: ")?;
    put_reached(alloc, &mut words, &reached)?;
    put_shown(out, words.as_str())
}

// What is wrong, in one sentence on the value that is wrong.
use crate::groups::{put_both, put_neither};
use crate::near::{EFFORT, Search};
use crate::nouns::{KINDS, put_subject};
use crate::quoting::{put_key, put_name, put_separator, put_words};
use crate::ranges::put_range;
use crate::standing::Standing;
use crate::states::States;
use crate::texts::{put_call, put_path, put_unsupported};
use crate::types::put_wrong_type;
use asl_def_schema::{FaultKind, Row, Sort, shape_in};
use asl_json::{Json, Members, Txt};
use std::alloc::{AllocError, Global};

/// The most members of an object that are told one by one.
const TOLD: usize = 8;

/// Appends what is wrong at a place. Of several faults of the same kind there, `number` says which, from 0. The error is that memory ran out.
pub fn put_fault(
    alloc: Global,
    out: &mut String,
    kind: FaultKind,
    standing: &Standing<'_>,
    number: usize,
    states: &States<'_>,
    effort: &mut usize,
) -> Result<(), AllocError> {
    match kind {
        FaultKind::NotObject | FaultKind::WrongType => put_wrong_type(out, standing),
        FaultKind::Missing => put_missing(out, standing),
        FaultKind::UnknownField => put_unknown(alloc, out, standing),
        FaultKind::Unsupported => put_unsupported(alloc, out, standing),
        FaultKind::Range => put_range(out, standing),
        FaultKind::Both => put_both(alloc, out, standing),
        FaultKind::Neither => put_neither(out, standing, number),
        FaultKind::NoTarget => put_no_target(alloc, out, standing, states, effort),
        FaultKind::DuplicateState => put_duplicate(out, standing),
        FaultKind::AllNotLast => put_not_last(out, standing),
        FaultKind::Path => put_path(alloc, out, standing),
        FaultKind::Expression => put_call(alloc, out, standing),
        FaultKind::Nesting => out.push_str("a machine can't stand inside 16 others"),
    }
}

fn put_missing(out: &mut String, standing: &Standing<'_>) -> Result<(), AllocError> {
    put_key(out, standing.key)?;
    out.push_str(" is missing: ")?;
    match standing.key {
        "Type" => {
            out.push_str("a state is of one of the types ")?;
            put_words(out, &KINDS)
        }
        "Variable" => out.push_str("a rule with a test needs one, as \"$.a\""),
        _ => {
            out.push_str(standing.object_noun())?;
            out.push_str(" needs it")
        }
    }
}

/// The one of these members that takes a path where one of this key, which ends in `.$`, has a fixed value: `CausePath` for `Cause.$`.
fn path_member(absent: &[&'static str], key: &str) -> Option<&'static str> {
    let bare = key.strip_suffix(".$")?;
    for name in absent {
        if name.strip_suffix("Path") == Some(bare) {
            return Some(*name);
        }
    }
    None
}

/// Appends that an object may not have a member, and which it may mean.
fn put_unknown(alloc: Global, out: &mut String, standing: &Standing<'_>) -> Result<(), AllocError> {
    out.push_str(standing.object_noun())?;
    out.push_str(" has no member ")?;
    put_name(out, standing.key)?;
    let Some(object) = standing.around else {
        return Ok(());
    };
    if let Some(name) = path_member(&object.absent, standing.key) {
        out.push_str("; did you mean ")?;
        put_name(out, name)?;
        return out.push('?');
    }
    let mut search = Search::new(alloc, standing.key);
    let mut effort = EFFORT;
    for name in &object.absent {
        search.add(name, &mut effort)?;
    }
    if search.best().is_some() {
        return search.put(out);
    }
    if object.sort == Sort::State {
        return put_kinds_with(alloc, out, standing.key);
    }
    put_rows(out, object.shape.rows)
}

/// Appends which members an object may have, if they are few.
fn put_rows(out: &mut String, rows: &[Row]) -> Result<(), AllocError> {
    if rows.len() > TOLD {
        return Ok(());
    }
    out.push_str("; it may have ")?;
    for (number, row) in rows.iter().enumerate() {
        put_separator(out, number, rows.len())?;
        out.push_str(row.name())?;
    }
    Ok(())
}

/// Whether states of a type may have a member of this name.
fn may_have(alloc: Global, kind: &str, key: &str) -> Result<bool, AllocError> {
    let mut members = Members::new(alloc);
    members.push(Txt::of(alloc, "Type")?, Json::Text(Txt::of(alloc, kind)?))?;
    let shape = shape_in(Sort::State, members.members());
    Ok(shape.rows.iter().any(|row| row.name() == key))
}

/// What stands before a type of states.
fn lead(is_first: bool) -> &'static str {
    if is_first {
        "; it is for states of type "
    } else {
        ", "
    }
}

/// Appends which types of states have a member, where some have.
fn put_kinds_with(alloc: Global, out: &mut String, key: &str) -> Result<(), AllocError> {
    let mut is_first = true;
    for kind in KINDS {
        if may_have(alloc, kind, key)? {
            out.push_str(lead(is_first))?;
            out.push_str(kind)?;
            is_first = false;
        }
    }
    Ok(())
}

/// Appends that no state of the machine has a name, and which may be meant.
fn put_no_target(
    alloc: Global,
    out: &mut String,
    standing: &Standing<'_>,
    states: &States<'_>,
    effort: &mut usize,
) -> Result<(), AllocError> {
    let name = standing.text();
    put_subject(out, standing)?;
    out.push_str(" names ")?;
    put_name(out, name)?;
    out.push_str(", and no state of this machine has that name")?;
    if states.find(name).is_some() {
        return out.push_str(
            "; a state of another machine has it, and no transition leads from one machine into another",
        );
    }
    if name == "End" {
        return out.push_str("; a state that ends has \"End\": true in the place of Next");
    }
    let mut search = Search::new(alloc, name);
    for state in standing.states() {
        search.add(state.key.as_str(), effort)?;
    }
    search.put(out)
}

fn put_duplicate(out: &mut String, standing: &Standing<'_>) -> Result<(), AllocError> {
    out.push_str("a state before it has the name ")?;
    put_name(out, standing.key)?;
    out.push_str(" too; names of states differ in the whole definition")
}

fn put_not_last(out: &mut String, standing: &Standing<'_>) -> Result<(), AllocError> {
    let names = match standing.value {
        Some(value) => value.items(),
        None => &[],
    };
    if names.len() > 1 {
        return out.push_str("States.ALL has to stand alone in its ErrorEquals");
    }
    out.push_str("States.ALL has to be in the last ")?;
    out.push_str(match standing.object_sort() {
        Sort::Catcher => "catcher: those behind it are never asked",
        _ => "retrier: those behind it are never asked",
    })
}

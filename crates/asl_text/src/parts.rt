// The parts of a line of the tree.
use crate::paint::Paint;

/// Where a line is cut, in bytes from its beginning, and how its last part is shown.
#[derive(Clone, Copy)]
pub(crate) struct Cuts {
    /// The time and the place are before this.
    pub(crate) lead: usize,
    /// What became of the state stands from here on.
    pub(crate) outcome: usize,
    pub(crate) paint: Paint,
}

/// The types of states.
const KINDS: [&str; 8] = [
    "Task", "Pass", "Choice", "Wait", "Succeed", "Fail", "Parallel", "Map",
];

/// The words with which it is told that a state was left without an error.
const LEFT: [&str; 7] = [
    "returned",
    "passed",
    "joined",
    "waited",
    "succeeded",
    "default",
    "rule ",
];

fn begins_with_one(text: &str, words: &[&str]) -> bool {
    for word in words {
        if text.starts_with(*word) {
            return true;
        }
    }
    false
}

/// What stands behind a word and the spaces behind that.
fn behind_word(text: &str) -> &str {
    match text.split_once(' ') {
        Some((_word, rest)) => rest.trim_start(),
        None => "",
    }
}

/// What became of a state, behind its type, where there is one.
fn behind_kind(text: &str) -> &str {
    if !begins_with_one(text, &KINDS) {
        return text;
    }
    let rest = behind_word(text);
    if text.starts_with("Task") {
        behind_word(rest)
    } else {
        rest
    }
}

/// What became of the state, behind its name and type.
fn outcome_in(text: &str) -> &str {
    if text.starts_with("timed out") {
        return text;
    }
    match text.split_once("  ") {
        Some((_name, rest)) => behind_kind(rest.trim_start()),
        None => "",
    }
}

/// How it is shown what became of a state.
fn paint_of(outcome: &str) -> Paint {
    if outcome.starts_with("failed") && outcome.contains(": again at ") {
        return Paint::Yellow;
    }
    if outcome.starts_with("failed") || outcome.starts_with("timed out") {
        return Paint::Red;
    }
    if begins_with_one(outcome, &LEFT) {
        return Paint::Green;
    }
    if outcome.starts_with("stopped") {
        return Paint::Dim;
    }
    Paint::Same
}

/// Where the line of a step is cut that has a time and a place before it.
pub(crate) fn cuts_of(line: &str) -> Option<Cuts> {
    let (_time, rest) = line.split_once(' ')?;
    let (_place, rest) = rest.split_once(' ')?;
    let outcome = outcome_in(rest.trim_start());
    Some(Cuts {
        lead: line.len().saturating_sub(rest.len()),
        outcome: rest.len().saturating_sub(outcome.len()),
        paint: paint_of(outcome),
    })
}

/// How the line of a status is shown.
pub(crate) fn status_paint(line: &str) -> Paint {
    if line.starts_with("status SUCCEEDED") {
        Paint::Green
    } else if line.starts_with("status RUNNING") {
        Paint::Same
    } else {
        Paint::Red
    }
}

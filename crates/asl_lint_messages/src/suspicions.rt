// What is suspicious, in one sentence on the value that is.
use crate::calls::put_failing;
use crate::near::Search;
use crate::nouns::put_subject;
use crate::quoting::put_name;
use crate::standing::Standing;
use asl_def_schema::Sort;
use asl_lint_choices::first_contradiction;
use asl_lint_warnings::{ERRORS, PARTS, WarningKind};
use asl_text::put_decimal;
use std::alloc::{AllocError, Global};

/// Appends what is suspicious at a place. The error is that memory ran out.
pub fn put_warning(
    alloc: Global,
    out: &mut String,
    kind: WarningKind,
    standing: &Standing<'_>,
    effort: &mut usize,
) -> Result<(), AllocError> {
    match kind {
        WarningKind::UnreachableState => {
            put_state(
                out,
                "nothing leads to the state ",
                standing.key,
                " from StartAt",
            )
        }
        WarningKind::NoEnd => put_state(
            out,
            "no way leads from the state ",
            standing.key,
            " to an end",
        ),
        WarningKind::NoDefault => put_state(
            out,
            "the Choice state ",
            standing.key,
            " has no Default: where no rule holds, the execution fails with States.NoChoiceMatched",
        ),
        WarningKind::OwnDefault => out.push_str(
            "Default leads back to this Choice, where the same input meets the same rules again",
        ),
        WarningKind::RepeatedRule => out.push_str(
            "this rule never decides: one before it has the same test",
        ),
        WarningKind::ImpossibleAnd => put_impossible(alloc, out, standing),
        WarningKind::EndlessWait => put_state(
            out,
            "the Task ",
            standing.key,
            " waits for its token without end: HeartbeatSeconds or TimeoutSeconds limits that",
        ),
        WarningKind::UnsentToken => out.push_str(
            "nobody gets the token that this Task waits for: no path in its Parameters reaches $$.Task.Token",
        ),
        WarningKind::HeartbeatNotShorter => out.push_str(
            "HeartbeatSeconds is not shorter than TimeoutSeconds, so no heartbeat is ever missed first",
        ),
        WarningKind::LimitBelowWait => out.push_str(
            "TimeoutSeconds is not above the Seconds of a Wait, so an execution that comes to it is timed out there",
        ),
        WarningKind::UnaskedHandler => out.push_str(unasked(standing.sort)),
        WarningKind::UnknownError => {
            put_near_name(
                alloc,
                out,
                "no error is named ",
                standing.text(),
                ERRORS,
                effort,
            )
        }
        WarningKind::RepeatedError => {
            put_name(out, standing.text())?;
            out.push_str(" stands in this ErrorEquals before")
        }
        WarningKind::UnusedDelay => out.push_str(
            "MaxAttempts is 0, so this retrier never retries, and its delays are never used",
        ),
        WarningKind::MaxDelayBelowInterval => out.push_str(
            "MaxDelaySeconds is below IntervalSeconds, so IntervalSeconds and BackoffRate have no effect",
        ),
        WarningKind::ForgottenDollar => put_forgotten(alloc, out, standing),
        WarningKind::NotComputed => put_not_computed(out, standing),
        WarningKind::UnknownContextMember => put_near_name(
            alloc,
            out,
            "the Context Object never has ",
            standing.text(),
            PARTS,
            effort,
        ),
        WarningKind::FailingCall => put_failing(alloc, out, standing.text()),
    }
}

fn put_state(out: &mut String, before: &str, name: &str, behind: &str) -> Result<(), AllocError> {
    out.push_str(before)?;
    put_name(out, name)?;
    out.push_str(behind)
}

fn put_rule(out: &mut String, number: usize) -> Result<(), AllocError> {
    out.push_str("rule ")?;
    put_decimal(out, number as u64)
}

/// Appends which two rules of an And never hold both.
fn put_impossible(
    alloc: Global,
    out: &mut String,
    standing: &Standing<'_>,
) -> Result<(), AllocError> {
    let Some(rules) = first_contradiction(alloc, standing.items())? else {
        return out.push_str("this And never holds");
    };
    put_rule(out, rules.first)?;
    out.push_str(" and ")?;
    put_rule(out, rules.second)?;
    out.push_str(
        " of this And never hold both, so it never holds; an Or holds where one of them does",
    )
}

fn unasked(sort: Sort) -> &'static str {
    match sort {
        Sort::Catcher =>
            "this catcher is never asked: those before it are for each error that it names",
        _ => "this retrier is never asked: those before it are for each error that it names",
    }
}

/// Appends that there is no such name, and which is like it.
fn put_near_name(
    alloc: Global,
    out: &mut String,
    before: &str,
    name: &str,
    names: &[&'static str],
    effort: &mut usize,
) -> Result<(), AllocError> {
    out.push_str(before)?;
    put_name(out, name)?;
    let mut search = Search::new(alloc, name);
    for other in names {
        search.add(other, effort)?;
    }
    search.put(out)
}

/// Appends that a text stays as it is.
fn put_stays(out: &mut String, standing: &Standing<'_>) -> Result<(), AllocError> {
    put_subject(out, standing)?;
    out.push_str(" stays the text ")?;
    put_name(out, standing.text())
}

/// What a text is that looks computed.
fn computed_noun(text: &str) -> &'static str {
    if text.starts_with('$') {
        "at this path"
    } else {
        "of this call"
    }
}

/// Appends that a text of a template stays as it is, and how its value is named.
fn put_forgotten(
    alloc: Global,
    out: &mut String,
    standing: &Standing<'_>,
) -> Result<(), AllocError> {
    put_stays(out, standing)?;
    if standing.is_item {
        return out.push_str("; an intrinsic function as States.Array puts values into a list");
    }
    if standing.object_sort() == Sort::State {
        return out.push_str(
            "; a template is an object, and its keys with \".$\" have values that are computed",
        );
    }
    out.push_str("; the value ")?;
    out.push_str(computed_noun(standing.text()))?;
    out.push_str(" has the key ")?;
    let mut key = String::new(alloc);
    key.push_str(standing.key)?;
    key.push_str(".$")?;
    put_name(out, key.as_str())
}

/// Whether the value is a text that a Fail puts out.
fn is_of_fail(standing: &Standing<'_>) -> bool {
    standing.object_sort() == Sort::State && (standing.key == "Error" || standing.key == "Cause")
}

/// Appends that a value stays as it is, and what computes one.
fn put_not_computed(out: &mut String, standing: &Standing<'_>) -> Result<(), AllocError> {
    if is_of_fail(standing) {
        put_stays(out, standing)?;
        out.push_str("; ")?;
        out.push_str(standing.key)?;
        return out.push_str("Path takes a path or a call");
    }
    if !standing.is_item && standing.key.ends_with(".$") {
        put_subject(out, standing)?;
        out.push_str(" stays a key")?;
    } else {
        put_stays(out, standing)?;
    }
    out.push_str(": a Pass puts out its Result as it stands, and what its Parameters compute")
}

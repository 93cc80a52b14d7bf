// Texts that name what isn't there, and calls that fail.
ghost use Rattle.std.specs.Prelude.{◌≡◌, IfOk, map};
ghost use Rattle.std.specs.Str.{str_eq_ignore_ascii_case};
ghost use Rattle.asl_def_schema.specs.Members.{is_among};
ghost use Rattle.asl_lint_warnings.specs.Texts.{begins, begins_any, error_names, status_front, are_digits, is_status, is_status_error, is_near, is_near_any, is_unknown_error, context_parts, context_fronts, is_unknown_part, computed_fronts, seems_computed, is_root, call_kind, computed_kind, text_kind};

use crate::warning::{WarningKind, kind_if};
use asl_def_schema::{Sort, is_among};
use asl_lint_calls::failing;
use std::alloc::{AllocError, Global};

/// The errors of the language. (Amazon States Language, "Errors", appendix A; Developer Guide, "Handling errors".)
pub const ERRORS: &[&str] = &[
    "States.ALL",
    "States.HeartbeatTimeout",
    "States.Timeout",
    "States.TaskFailed",
    "States.Permissions",
    "States.ResultPathMatchFailure",
    "States.ParameterPathFailure",
    "States.QueryEvaluationError",
    "States.BranchFailed",
    "States.NoChoiceMatched",
    "States.IntrinsicFailure",
    "States.ExceedToleratedFailureThreshold",
    "States.ItemReaderFailed",
    "States.ResultWriterFailed",
    "States.DataLimitExceeded",
    "States.Runtime",
    "States.Http.Socket",
];

/// The parts of the Context Object.
pub const PARTS: &[&str] = &[
    "$$.Execution",
    "$$.Execution.Id",
    "$$.Execution.Name",
    "$$.Execution.Input",
    "$$.Execution.StartTime",
    "$$.State",
    "$$.State.Name",
    "$$.State.EnteredTime",
    "$$.State.RetryCount",
    "$$.StateMachine",
    "$$.StateMachine.Id",
    "$$.StateMachine.Name",
    "$$.Task",
    "$$.Task.Token",
    "$$.Map",
    "$$.Map.Item",
    "$$.Map.Item.Index",
    "$$.Map.Item.Value",
];

/// What a path may begin with whose parts aren't known by their names: the input and an item have any shape, and a step in brackets isn't
/// judged.
const FRONTS: &[&str] = &[
    "$$.Execution.Input.",
    "$$.Execution.Input[",
    "$$.Map.Item.Value.",
    "$$.Map.Item.Value[",
    "$$.Execution[",
    "$$.State[",
    "$$.StateMachine[",
    "$$.Task[",
    "$$.Map[",
    "$$.Map.Item[",
];

/// How paths and calls of the intrinsic functions begin. (Amazon States Language, "Paths", "Intrinsic Functions".)
const COMPUTED_FRONTS: &[&str] = &[
    "$.",
    "$[",
    "$$.",
    "$$[",
    "States.Array(",
    "States.ArrayContains(",
    "States.ArrayGetItem(",
    "States.ArrayLength(",
    "States.ArrayPartition(",
    "States.ArrayRange(",
    "States.ArrayUnique(",
    "States.Base64Decode(",
    "States.Base64Encode(",
    "States.Format(",
    "States.Hash(",
    "States.JsonMerge(",
    "States.JsonToString(",
    "States.MathAdd(",
    "States.MathRandom(",
    "States.StringSplit(",
    "States.StringToJson(",
    "States.UUID(",
];

pub(crate) fn begins(text: &str, front: &str) -> bool
    ensures { result ≡ begins text.now front.now }
{
    text.as_bytes().starts_with(front.as_bytes())
}

fn begins_any(text: &str, fronts: &[&str]) -> bool
    ensures { result ≡ begins_any text.now (map (λ l. l.now) fronts.now) }
{
    for front in fronts {
        if begins(text, front) {
            return true;
        }
    }
    false
}

#[tactic(auto, unfolding(crate::specs::Texts::error_names))]
fn is_error(name: &str) -> bool
    ensures { result ≡ is_among name.now error_names }
{
    is_among(name, ERRORS)
}

fn are_digits(bytes: &[u8]) -> bool
    ensures { result ≡ are_digits bytes.now }
{
    match bytes {
        [] => true,
        [c, cs @ ..] => c.is_ascii_digit() && are_digits(cs),
    }
}

/// Whether these are the digits of a status of HTTP.
fn is_status(digits: &[u8]) -> bool
    ensures { result ≡ is_status digits.now }
{
    digits.len() == 3 && are_digits(digits)
}

/// Whether a name is of the error of an answer over HTTP: `States.Http.StatusCode.404`.
#[tactic(auto, unfolding(crate::specs::Texts::status_front))]
fn is_status_error(name: &str) -> bool
    ensures { result ≡ is_status_error name.now }
{
    match name
        .as_bytes()
        .strip_prefix("States.Http.StatusCode.".as_bytes())
    {
        Some(digits) => is_status(digits),
        None => false,
    }
}

fn is_same(name: &[u8], other: &[u8]) -> bool
    ensures { result ≡ str_eq_ignore_ascii_case name.now other.now }
{
    name.eq_ignore_ascii_case(other)
}

/// Whether two names are the same but for the case of ASCII letters, and but for one byte that only one of them has.
fn is_near(name: &[u8], other: &[u8]) -> bool
    ensures { result ≡ is_near name.now other.now }
{
    match name {
        [] => other.len() < 2,
        [c, cs @ ..] => match other {
            [] => name.len() < 2,
            [d, ds @ ..] => {
                if c.eq_ignore_ascii_case(d) {
                    is_near(cs, ds)
                } else {
                    is_same(name, ds) || is_same(cs, other)
                }
            }
        },
    }
}

fn is_near_any(name: &str, others: &[&str]) -> bool
    ensures { result ≡ is_near_any name.now (map (λ l. l.now) others.now) }
{
    for other in others {
        if is_near(name.as_bytes(), other.as_bytes()) {
            return true;
        }
    }
    false
}

#[tactic(auto, unfolding(crate::specs::Texts::error_names))]
fn is_near_error(name: &str) -> bool
    ensures { result ≡ is_near_any name.now error_names }
{
    is_near_any(name, ERRORS)
}

/// Whether no error has a name that is of the language's own, or that is near one of these.
pub(crate) fn is_unknown_error(name: &str) -> bool
    ensures { result ≡ is_unknown_error name.now }
{
    (begins(name, "States.") || is_near_error(name)) && !is_error(name) && !is_status_error(name)
}

#[tactic(auto, unfolding(crate::specs::Texts::context_parts))]
fn is_part(text: &str) -> bool
    ensures { result ≡ is_among text.now context_parts }
{
    is_among(text, PARTS)
}

#[tactic(auto, unfolding(crate::specs::Texts::context_fronts))]
fn has_front(text: &str) -> bool
    ensures { result ≡ begins_any text.now context_fronts }
{
    begins_any(text, FRONTS)
}

/// Whether a path on the Context Object names a part that it never has.
fn is_unknown_part(text: &str) -> bool
    ensures { result ≡ is_unknown_part text.now }
{
    begins(text, "$$.") && !is_part(text) && !has_front(text)
}

/// Whether a text looks like a path or a call.
#[tactic(auto, unfolding(crate::specs::Texts::computed_fronts))]
pub(crate) fn seems_computed(text: &str) -> bool
    ensures { result ≡ seems_computed text.now }
{
    begins_any(text, COMPUTED_FRONTS)
}

/// Whether a text is the path of the whole input, or of the whole Context Object.
fn is_root(text: &str) -> bool
    ensures { result ≡ is_root text.now }
{
    text == "$" || text == "$$"
}

/// What a call is warned of.
fn call_kind(alloc: Global, text: &str) -> Result<Option<WarningKind>, AllocError>
    ensures { IfOk result (λ kind. kind ≡ call_kind text.now) }
{
    let failure = failing(alloc, text)?;
    Ok(kind_if(failure.is_some(), WarningKind::FailingCall))
}

/// What a path or a call is warned of.
fn computed_kind(alloc: Global, text: &str) -> Result<Option<WarningKind>, AllocError>
    ensures { IfOk result (λ kind. kind ≡ computed_kind text.now) }
{
    if is_unknown_part(text) {
        return Ok(Some(WarningKind::UnknownContextMember));
    }
    call_kind(alloc, text)
}

/// What a text of this sort is warned of.
pub(crate) fn text_kind(
    alloc: Global,
    sort: Sort,
    text: &str,
) -> Result<Option<WarningKind>, AllocError>
    ensures { IfOk result (λ kind. kind ≡ text_kind sort text.now) }
{
    match sort {
        Sort::Template => {
            let forgotten = is_root(text) || seems_computed(text);
            Ok(kind_if(forgotten, WarningKind::ForgottenDollar))
        }
        Sort::Path | Sort::PathOrNull => {
            Ok(kind_if(is_unknown_part(text), WarningKind::UnknownContextMember))
        }
        Sort::PathOrCall | Sort::Computed => computed_kind(alloc, text),
        _ => Ok(None),
    }
}

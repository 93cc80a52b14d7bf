// What became of an error that a state raised.
ghost use Rattle.std.specs.Prelude.{◌≡◌, ◌++◌, ◌<◌, OnOk, string_bytes};
ghost use Rattle.asl_json_data.specs.Data.{chain};
ghost use Rattle.asl_def_shared.specs.Parts.{catcher_object};
ghost use Rattle.asl_handle.specs.Decisions.{handlers_in, used};
ghost use Rattle.asl_handle.specs.Seen.{seen as decision_seen, retry_of, catch_of};
ghost use Rattle.asl_trace_lines.specs.Handling.{decision_on, first_decision_on, attempts_at, number_of, use_text, attempts_text, retried_text, retrier_in, spent_text, caught_text, decided_text, handles, failure_text, is_unhandled, why_text, tells_why, unhandled_text, failed_text};
ghost use Rattle.asl_trace_lines.specs.Views.{seen_in};

use crate::columns::put_since;
use crate::happening::Happening;
use asl_def_fields::Retriers;
use asl_def_shared::{Catcher, Catchers};
use asl_handle::{Decision, Policy};
use asl_history::Place;
use asl_step::ErrorOut;
use asl_time::Moment;
use std::alloc::AllocError;

/// What becomes of an error of the state.
fn decision_on<'a>(step: &Happening<'a>, error: &ErrorOut) -> Decision<'a>
    ensures { decision_seen result ≡ decision_on (seen_in step.now) error.now }
{
    step.policy
        .decide(error.name(), step.before.uses(), step.moment)
}

/// What would become of it, had no retrier been used.
fn first_decision_on<'a>(step: &Happening<'a>, error: &ErrorOut) -> Decision<'a>
    ensures { decision_seen result ≡ first_decision_on (seen_in step.now) error.now }
{
    step.policy.decide(error.name(), &[], step.moment)
}

/// `MaxAttempts` of the retrier of this number; 0 where there is none.
#[tactic(auto, using(crate::proofs::Handlers::attempts_found, crate::proofs::Handlers::attempts_missing))]
fn attempts_in(retriers: &Retriers, retrier: usize) -> u32
    ensures { result ≡ attempts_at retrier (chain retriers.now) }
{
    let all = retriers.as_slice();
    if retrier < all.len() {
        return all[retrier].max_attempts();
    }
    0
}

/// The same of a state's retriers.
fn attempts_at(policy: &Policy, retrier: usize) -> u32
    ensures { result ≡ attempts_at retrier (handlers_in (retry_of policy.now)) }
{
    match policy.retriers {
        Some(retriers) => attempts_in(retriers, retrier),
        None => 0,
    }
}

/// How often the retrier of this number was used.
fn uses_at(uses: &[u32], retrier: usize) -> u32
    ensures { result ≡ used uses.now retrier }
{
    match uses.get(retrier) {
        Some(uses) => *uses,
        None => 0,
    }
}

/// The number of the first catcher that is equal to this one; so many as there are, where none is.
#[tactic(auto, using(crate::proofs::Handlers::it_is, crate::proofs::Handlers::it_is_not, crate::proofs::Handlers::none_is))]
fn number_in(catchers: &Catchers, decides: &Catcher) -> usize
    ensures { result ≡ number_of (catcher_object decides.now) (chain catchers.now) }
{
    let all = catchers.as_slice();
    for number in 0..all.len() {
        if all[number] == *decides {
            return number;
        }
    }
    all.len()
}

/// The same of a state's catchers.
fn number_of(policy: &Policy, decides: &Catcher) -> usize
    ensures { result ≡ number_of (catcher_object decides.now) (handlers_in (catch_of policy.now)) }
{
    match policy.catchers {
        Some(catchers) => number_in(catchers, decides),
        None => 0,
    }
}

/// Appends the number of a retrier, and how often it is used now.
fn put_use(out: &mut String, step: &Happening, retrier: usize) -> Result<(), AllocError>
    ensures { OnOk result (string_bytes out.new
        ≡ string_bytes out.old ++ use_text (seen_in step.now) retrier) }
{
    let uses = u64::from(uses_at(step.before.uses(), retrier)) + 1;
    write!(out, "retrier {retrier}, use {uses}")
}

/// Appends how often a retrier may be used.
fn put_attempts(out: &mut String, step: &Happening, retrier: usize) -> Result<(), AllocError>
    ensures { OnOk result (string_bytes out.new
        ≡ string_bytes out.old ++ attempts_text (seen_in step.now) retrier) }
{
    let attempts = attempts_at(&step.policy, retrier);
    write!(out, " of {attempts}")
}

fn put_retried(
    out: &mut String,
    step: &Happening,
    retrier: usize,
    until: Moment,
) -> Result<(), AllocError>
    ensures { OnOk result (string_bytes out.new
        ≡ string_bytes out.old ++ retried_text (seen_in step.now) retrier until) }
{
    put_use(out, step, retrier)?;
    put_attempts(out, step, retrier)?;
    out.push_str(": again at ")?;
    put_since(out, step.start, until)
}

/// The number of the retrier that is for an error.
fn retrier_for(step: &Happening, error: &ErrorOut) -> Option<usize>
    ensures { result ≡ retrier_in (first_decision_on (seen_in step.now) error.now) }
{
    match first_decision_on(step, error) {
        Decision::Again {
            retrier,
            until: _until,
        } => Some(retrier),
        Decision::Caught { catcher: _catcher } => None,
        Decision::Unhandled => None,
    }
}

/// Appends that the retrier is used up that is for an error, where there is one.
fn put_spent(out: &mut String, otherwise: &str, retrier: Option<usize>) -> Result<(), AllocError>
    ensures { OnOk result (string_bytes out.new
        ≡ string_bytes out.old ++ spent_text otherwise.now retrier) }
{
    match retrier {
        Some(retrier) => write!(out, "retrier {retrier} is used up, "),
        None => out.push_str(otherwise),
    }
}

fn put_caught(
    out: &mut String,
    step: &Happening,
    error: &ErrorOut,
    catcher: &Catcher,
) -> Result<(), AllocError>
    ensures { OnOk result (string_bytes out.new ≡ string_bytes out.old
        ++ caught_text (seen_in step.now) error.now (catcher_object catcher.now)) }
{
    put_spent(out, "", retrier_for(step, error))?;
    write!(out, "catcher {}", number_of(&step.policy, catcher))
}

/// Appends what decided on an error that was handled.
pub(crate) fn put_decided(
    out: &mut String,
    step: &Happening,
    error: &ErrorOut,
) -> Result<(), AllocError>
    ensures { OnOk result (string_bytes out.new ≡ string_bytes out.old
        ++ decided_text (seen_in step.now) error.now (decision_on (seen_in step.now) error.now)) }
{
    match decision_on(step, error) {
        Decision::Again { retrier, until } => put_retried(out, step, retrier, until),
        Decision::Caught { catcher } => put_caught(out, step, error, catcher),
        Decision::Unhandled => Ok(()),
    }
}

/// Whether a state of this type may have `Retry` and `Catch`.
fn handles(kind: &str) -> bool
    ensures { result ≡ handles kind.now }
{
    kind == "Task" || kind == "Parallel" || kind == "Map"
}

fn failure(place: &Place) -> &'static str
    ensures { result.now ≡ failure_text place.now }
{
    if place.is_root() {
        "the execution fails"
    } else {
        "the branch fails"
    }
}

/// Whether nothing handles an error.
fn is_unhandled(step: &Happening, error: &ErrorOut) -> bool
    ensures { result ≡ is_unhandled (decision_on (seen_in step.now) error.now) }
{
    match decision_on(step, error) {
        Decision::Again {
            retrier: _retrier,
            until: _until,
        } => false,
        Decision::Caught { catcher: _catcher } => false,
        Decision::Unhandled => true,
    }
}

/// Whether it is told why nothing handled an error.
fn tells_why(step: &Happening, error: &ErrorOut) -> bool
    ensures { result ≡ tells_why (seen_in step.now) error.now }
{
    handles(step.kind) && is_unhandled(step, error)
}

/// Appends why nothing handled an error that this retrier is for, where one is.
#[tactic(auto, unfolding(crate::specs::Handling::why_text))]
fn put_why(out: &mut String, retrier: Option<usize>) -> Result<(), AllocError>
    ensures { OnOk result (string_bytes out.new ≡ string_bytes out.old ++ why_text retrier) }
{
    put_spent(out, "no retrier, ", retrier)?;
    out.push_str("no catcher: ")
}

/// Appends why nothing handled an error, where that is told.
fn put_unhandled(out: &mut String, step: &Happening, error: &ErrorOut) -> Result<(), AllocError>
    ensures { OnOk result (string_bytes out.new
        ≡ string_bytes out.old ++ unhandled_text (seen_in step.now) error.now) }
{
    if tells_why(step, error) {
        return put_why(out, retrier_for(step, error));
    }
    Ok(())
}

/// Appends that a branch failed with an error.
pub(crate) fn put_failed(
    out: &mut String,
    step: &Happening,
    error: &ErrorOut,
) -> Result<(), AllocError>
    ensures { OnOk result (string_bytes out.new
        ≡ string_bytes out.old ++ failed_text (seen_in step.now) error.now) }
{
    put_unhandled(out, step, error)?;
    out.push_str(failure(step.place))
}

// Why a test that is `ok` may not mean what it says.
ghost use Rattle.std.specs.Prelude.{◌≡◌, ◌≤◌, [], IfOk, map, vec_len, vec_capacity};
ghost use Rattle.asl_suite.specs.Cases.{strict_report};
ghost use Rattle.asl_suite.specs.Doubts.{is_accident_name, accident_named, accident_in, accident_on, unless_unanswered, doubt_on, doubt_of, strict_verdict};

use crate::case_report::{CaseReport, Doubt, Verdict};
use asl_exec::unanswered;
use asl_json::Txt;
use asl_mock::Case;
use asl_run_state::{Outcome, World};
use asl_suite_file::{Expectation, WantedText};
use std::alloc::{AllocError, Global};

fn is_accident_name(name: &str) -> bool
    ensures { result ≡ is_accident_name name.now }
{
    match name {
        "States.Runtime"
        | "States.ParameterPathFailure"
        | "States.IntrinsicFailure"
        | "States.ResultPathMatchFailure"
        | "States.DataLimitExceeded" => true,
        _ => false,
    }
}

fn accident_named(alloc: Global, name: &Option<Txt>) -> Result<Doubt, AllocError>
    ensures { IfOk result (λ d. d ≡ accident_named name.now) }
{
    match name {
        Some(name) if is_accident_name(name.as_str()) => {
            Ok(Doubt::Accident(name.try_clone(alloc)?))
        }
        _ => Ok(Doubt::None),
    }
}

fn accident_in(alloc: Global, wanted: &WantedText, name: &Option<Txt>) -> Result<Doubt, AllocError>
    ensures { IfOk result (λ d. d ≡ accident_in wanted.now name.now) }
{
    match wanted {
        WantedText::Any => accident_named(alloc, name),
        _ => Ok(Doubt::None),
    }
}

fn accident_on(alloc: Global, test: &Expectation, outcome: &Outcome) -> Result<Doubt, AllocError>
    ensures { IfOk result (λ d. d ≡ accident_on test.now outcome.now) }
{
    match outcome {
        Outcome::Failed(error) => accident_in(alloc, &test.end.error, &error.error),
        _ => Ok(Doubt::None),
    }
}

fn doubt_on(
    alloc: Global,
    test: &Expectation,
    case: &Case,
    world: &World,
) -> Result<Doubt, AllocError>
    ensures { IfOk result (λ d. d ≡ doubt_on test.now case.now world.now) }
{
    match unanswered(alloc, case, world.history().events(), world.outcome())? {
        Some(invocation) => Ok(Doubt::Unanswered(invocation)),
        None => accident_on(alloc, test, world.outcome()),
    }
}

/// Why a test with this verdict may not mean what it says. The error is that memory ran out.
pub(crate) fn doubt_of(
    alloc: Global,
    verdict: Verdict,
    test: &Expectation,
    case: &Case,
    world: &World,
) -> Result<Doubt, AllocError>
    ensures { IfOk result (λ d. d ≡ doubt_of verdict (doubt_on test.now case.now world.now)) }
{
    match verdict {
        Verdict::Passed => doubt_on(alloc, test, case, world),
        _ => Ok(Doubt::None),
    }
}

fn strict_verdict(doubt: &Doubt, verdict: Verdict) -> Verdict
    ensures { result ≡ strict_verdict doubt.now verdict }
{
    match doubt {
        Doubt::None => verdict,
        Doubt::Unanswered(_) => Verdict::Unanswered,
        Doubt::Accident(_) => Verdict::Accident,
    }
}

fn strict_report(report: CaseReport) -> CaseReport
    ensures { result ≡ strict_report report }
{
    let mut report = report;
    report.verdict = strict_verdict(&report.doubt, report.verdict);
    report
}

/// Puts the reports, where a doubt is a failure, into a list that has room for all.
fn put_strict(reports: Vec<CaseReport>, strict: &mut Vec<CaseReport>)
    requires none { strict.old.items ≡ [] }
    requires len { vec_len strict.old ≡ 0 }
    requires room { vec_len reports ≤ vec_capacity strict.old }
    ensures { strict.new.items ≡ map strict_report reports.items }
{
    for report in reports {
        strict.push_reserved(strict_report(report));
    }
}

/// The reports, where a test that may not mean what it says fails: with `unanswered` or `accident`. The error is that memory ran out.
pub fn strictly(alloc: Global, reports: Vec<CaseReport>) -> Result<Vec<CaseReport>, AllocError>
    ensures { IfOk result (λ v. v.items ≡ map strict_report reports.items) }
{
    let mut strict = Vec::with_capacity(alloc, reports.len())?;
    put_strict(reports, &mut strict);
    Ok(strict)
}

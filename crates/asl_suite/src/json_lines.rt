// Reports as lines of JSON.
ghost use Rattle.std.specs.Prelude.{◌≡◌, ◌++◌, IfOk, OnOk, string_bytes};
ghost use Rattle.asl_suite.specs.JsonLines.{text_member, name_member, test_members, report_members, search_members, maybe_reason, reason_members, json_line, json_text};

use crate::case_report::Search;
use crate::finding::{Finding, is_good};
use asl_json::Txt;
use asl_json_write::put_quoted;
use asl_text::put_decimal;
use std::alloc::{AllocError, Global};

/// Appends a member behind a comma.
fn put_text(out: &mut String, name: &str, text: &str) -> Result<(), AllocError>
    ensures { OnOk result (string_bytes out.new
        ≡ string_bytes out.old ++ text_member name.now text.now) }
{
    out.push(',')?;
    put_quoted(out, name)?;
    out.push(':')?;
    put_quoted(out, text)
}

fn put_name(out: &mut String, name: &Option<Txt>) -> Result<(), AllocError>
    ensures { OnOk result (string_bytes out.new ≡ string_bytes out.old ++ name_member name.now) }
{
    match name {
        Some(name) => put_text(out, "name", name.as_str()),
        None => Ok(()),
    }
}

#[tactic(auto, unfolding(crate::specs::JsonLines::test_members))]
fn put_test(out: &mut String, finding: &Finding<'_>) -> Result<(), AllocError>
    ensures { OnOk result (string_bytes out.new
        ≡ string_bytes out.old ++ test_members finding.now) }
{
    out.push_str("{\"test\":")?;
    put_decimal(out, finding.number as u64)?;
    put_text(out, "machine", finding.report.machine.as_str())?;
    put_text(out, "case", finding.report.case.as_str())?;
    put_name(out, &finding.report.name)
}

#[tactic(auto, unfolding(crate::specs::JsonLines::report_members))]
fn put_report(out: &mut String, finding: &Finding<'_>) -> Result<(), AllocError>
    ensures { OnOk result (string_bytes out.new
        ≡ string_bytes out.old ++ report_members finding.now) }
{
    put_text(out, "verdict", finding.report.verdict.word())?;
    put_text(out, "status", finding.report.status.word())?;
    out.push_str(",\"events\":")?;
    put_decimal(out, finding.report.events)
}

/// Appends how much was found where every order was tried.
#[tactic(auto, unfolding(crate::specs::JsonLines::search_members))]
fn put_search(out: &mut String, search: &Option<Search>) -> Result<(), AllocError>
    ensures { OnOk result (string_bytes out.new
        ≡ string_bytes out.old ++ search_members search.now) }
{
    match search {
        Some(search) => {
            out.push_str(",\"outcomes\":")?;
            put_decimal(out, search.outcomes as u64)?;
            out.push_str(",\"worlds\":")?;
            put_decimal(out, search.worlds as u64)
        }
        None => Ok(()),
    }
}

fn put_reason(out: &mut String, finding: &Finding<'_>) -> Result<(), AllocError>
    ensures { OnOk result (string_bytes out.new
        ≡ string_bytes out.old ++ reason_members finding.now) }
{
    put_text(out, "difference", finding.difference.as_str())?;
    put_text(out, "alone", finding.alone.as_str())
}

/// Appends why a test isn't `ok`, if it isn't.
#[tactic(auto, unfolding(crate::specs::JsonLines::maybe_reason))]
fn put_maybe_reason(out: &mut String, finding: &Finding<'_>) -> Result<(), AllocError>
    ensures { OnOk result (string_bytes out.new
        ≡ string_bytes out.old ++ maybe_reason finding.now) }
{
    if is_good(finding) {
        Ok(())
    } else {
        put_reason(out, finding)
    }
}

fn put_line(out: &mut String, finding: &Finding<'_>) -> Result<(), AllocError>
    ensures { OnOk result (string_bytes out.new ≡ string_bytes out.old ++ json_line finding.now) }
{
    put_test(out, finding)?;
    put_report(out, finding)?;
    put_search(out, &finding.report.search)?;
    put_maybe_reason(out, finding)?;
    out.push_str("}\n")
}

fn put_lines(out: &mut String, findings: &[Finding<'_>]) -> Result<(), AllocError>
    ensures { OnOk result (string_bytes out.new ≡ string_bytes out.old ++ json_text findings.now) }
{
    for finding in findings {
        put_line(out, finding)?;
    }
    Ok(())
}

/// The reports, a JSON object each on a line: `test`, `machine`, `case`, `name` if the test has one, `verdict`, `status` and `events`, where every
/// order was tried `outcomes` and `worlds`, and, where the test isn't `ok`, `difference` and `alone`. (JSON Lines.) The error is that memory ran out.
pub fn json(alloc: Global, findings: &[Finding<'_>]) -> Result<String, AllocError>
    ensures { IfOk result (λ t. string_bytes t ≡ json_text findings.now) }
{
    let mut text = String::new(alloc);
    put_lines(&mut text, findings)?;
    Ok(text)
}

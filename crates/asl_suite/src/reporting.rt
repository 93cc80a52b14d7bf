// The text of reports.
ghost use Rattle.std.specs.Prelude.{◌≡◌, ◌++◌, IfOk, OnOk, string_bytes};
ghost use Rattle.std.specs.Fmt.{decimal};
ghost use Rattle.std.specs.List.{flat_map, list_all};
ghost use Rattle.asl_suite.specs.Reports.{verdict_word, status_word, report_head, report_name, report_tail, report_line, is_good, is_passed, passed, report_text};

use crate::case_report::{CaseReport, Status, Verdict};
use asl_json::Txt;
use asl_json_write::put_quoted;
use asl_text::{put_decimal, put_shown};
use std::alloc::{AllocError, Global};

impl Verdict {
    /// The word for it, as `nocase`.
    pub fn word(self) -> &'static str
        ensures { result.now ≡ verdict_word self }
    {
        match self {
            Verdict::NoCase => "nocase",
            Verdict::Limit => "limit",
            Verdict::Status => "status",
            Verdict::Output => "output",
            Verdict::Match => "match",
            Verdict::Error => "error",
            Verdict::Cause => "cause",
            Verdict::Visits => "visits",
            Verdict::Invocations => "invocations",
            Verdict::Calls => "calls",
            Verdict::Endless => "endless",
            Verdict::Cut => "cut",
            Verdict::Unanswered => "unanswered",
            Verdict::Accident => "accident",
            Verdict::Passed => "ok",
        }
    }

    /// Whether it is `ok`.
    #[tactic(auto, unfolding(crate::specs::Reports::is_good))]
    fn is_good(self) -> bool
        ensures { result ≡ is_good self }
    {
        match self {
            Verdict::Passed => true,
            _ => false,
        }
    }
}

impl Status {
    /// The word for it, as `SUCCEEDED`.
    pub fn word(self) -> &'static str
        ensures { result.now ≡ status_word self }
    {
        match self {
            Status::None => "NONE",
            Status::Unfinished => "UNFINISHED",
            Status::Succeeded => "SUCCEEDED",
            Status::Failed => "FAILED",
            Status::TimedOut => "TIMED_OUT",
        }
    }
}

fn put_head(out: &mut String, report: &CaseReport) -> Result<(), AllocError>
    ensures { OnOk result (string_bytes out.new ≡ string_bytes out.old ++ report_head report.now) }
{
    out.push_str(report.verdict.word())?;
    out.push(' ')?;
    put_shown(out, report.machine.as_str())?;
    out.push('#')?;
    put_shown(out, report.case.as_str())
}

/// Appends a name as a JSON text behind a space, if there is one.
pub(crate) fn put_name(out: &mut String, name: &Option<Txt>) -> Result<(), AllocError>
    ensures { OnOk result (string_bytes out.new ≡ string_bytes out.old ++ report_name name.now) }
{
    match name {
        Some(name) => {
            out.push(' ')?;
            put_quoted(out, name.as_str())
        }
        None => Ok(()),
    }
}

fn put_tail(out: &mut String, report: &CaseReport) -> Result<(), AllocError>
    ensures { OnOk result (string_bytes out.new ≡ string_bytes out.old ++ report_tail report.now) }
{
    out.push_str(report.status.word())?;
    out.push(' ')?;
    put_decimal(out, report.events)?;
    put_name(out, &report.name)?;
    out.push('\n')
}

/// Appends the line of a report. The error is that memory ran out.
fn put_line(out: &mut String, report: &CaseReport) -> Result<(), AllocError>
    ensures { OnOk result (string_bytes out.new ≡ string_bytes out.old ++ report_line report.now) }
{
    put_head(out, report)?;
    out.push(' ')?;
    put_tail(out, report)
}

fn put_lines(out: &mut String, reports: &[CaseReport]) -> Result<(), AllocError>
    ensures { OnOk result (string_bytes out.new ≡ string_bytes out.old
        ++ flat_map report_line reports.now) }
{
    for report in reports {
        put_line(out, report)?;
    }
    Ok(())
}

/// Whether a test is `ok`.
pub fn is_passed(report: &CaseReport) -> bool
    ensures { result ≡ is_passed report.now }
{
    report.verdict.is_good()
}

fn passed(reports: &[CaseReport]) -> usize
    ensures { result ≡ passed reports.now }
{
    reports.iter().filter(|report| is_passed(report)).count()
}

/// Whether all tests are `ok`.
pub fn all_passed(reports: &[CaseReport]) -> bool
    ensures { result ≡ list_all is_passed reports.now }
{
    reports.iter().all(|report| is_passed(report))
}

/// The text of reports: a line for each, and how many passed and failed. The error is that memory ran out.
pub fn report(alloc: Global, reports: &[CaseReport]) -> Result<String, AllocError>
    ensures { IfOk result (λ t. string_bytes t ≡ report_text reports.now) }
{
    let mut text = String::new(alloc);
    put_lines(&mut text, reports)?;
    let good = passed(reports);
    put_decimal(&mut text, good as u64)?;
    text.push_str(" passed, ")?;
    put_decimal(&mut text, (reports.len() - good) as u64)?;
    text.push_str(" failed\n")?;
    Ok(text)
}

// What is told of a test.
ghost use Rattle.std.specs.Prelude.{◌≡◌, ◌<◌, length, IfOk};
ghost use Rattle.asl_suite.specs.Findings.{is_good, reports_in};

use crate::alone::{put_alone, put_search};
use crate::case_report::{CaseReport, Search, Unmet, Verdict};
use crate::difference::put_difference;
use crate::explaining::{explain, explain_order};
use crate::ordering::for_orders;
use crate::reporting::is_passed;
use crate::suite::Suite;
use crate::telling::put_doubt;
use asl_suite_file::Expectation;
use asl_text::put_decimal;
use std::alloc::{AllocError, Global};

/// Where the tests of a suite come from: the names of its files, and which tests of the file of expectations it has: that of the number `first`,
/// from 1, and each that stands `apart` behind one of them; or those of these numbers.
#[derive(Clone, Copy)]
pub struct Source<'a> {
    pub definition: &'a str,
    pub mocks: &'a str,
    pub expectations: &'a str,
    pub first: usize,
    pub apart: usize,
    pub numbers: Option<&'a [usize]>,
}

impl Source<'_> {
    /// The number of the test at a place of the suite.
    fn number_at(&self, place: usize) -> usize {
        if let Some(numbers) = self.numbers
            && let Some(number) = numbers.get(place)
        {
            return *number;
        }
        self.first.saturating_add(self.apart.saturating_mul(place))
    }
}

/// What is told of a test: its report and, where it isn't `ok`, why, and how it is run alone.
#[derive(Drop)]
pub struct Finding<'a> {
    /// The number of the test in its file, from 1.
    pub number: usize,
    /// What is reported of it.
    pub report: &'a CaseReport,
    /// The first difference between what was wanted and what came; empty where the test is `ok`.
    pub difference: String,
    /// A command line that runs the test by itself; empty where the test is `ok`.
    pub alone: String,
}

/// Whether the test is `ok`.
pub(crate) fn is_good(finding: &Finding<'_>) -> bool
    ensures { result ≡ is_good finding.now }
{
    is_passed(finding.report)
}

/// What is told of each test of a suite, of which these are the reports. Each test that isn't `ok` is run once more. The error is that memory ran
/// out.
pub fn findings<'a>(
    alloc: Global,
    source: &Source<'_>,
    suite: &Suite,
    reports: &'a [CaseReport],
) -> Result<Vec<Finding<'a>>, AllocError>
    ensures { IfOk result (λ fs. reports_in fs.items ≡ reports.now) }
{
    let mut findings = Vec::with_capacity(alloc, reports.len())?;
    for report in reports {
        let place = findings.len();
        findings.push(finding_of(alloc, source, suite, place, report)?)?;
    }
    Ok(findings)
}

/// The search that decides on a test; none where its driven run does.
fn deciding(report: &CaseReport) -> Option<&Search> {
    match report.verdict {
        Verdict::Unanswered | Verdict::Accident => None,
        _ => report.search.as_ref(),
    }
}

/// Appends why the test at a place of the suite isn't `ok`, behind the verdict that is reported of it.
fn put_why(
    alloc: Global,
    out: &mut String,
    suite: &Suite,
    place: usize,
    report: &CaseReport,
) -> Result<(), AllocError>
    requires { place < length suite.now.tests.list.items }
{
    out.push_str(report.verdict.word())?;
    out.push_str(": ")?;
    let test = &suite.tests.list[place];
    if let Some(search) = deciding(report) {
        return put_order(alloc, out, suite, test, report, search);
    }
    match report.verdict {
        Verdict::Unanswered | Verdict::Accident => put_doubt(out, &report.doubt),
        _ => put_difference(alloc, out, test, report, &explain(alloc, suite, place)?),
    }
}

/// Appends what was found where every order of a test's branches was tried, and it isn't `ok`.
fn put_order(
    alloc: Global,
    out: &mut String,
    suite: &Suite,
    test: &Expectation,
    report: &CaseReport,
    search: &Search,
) -> Result<(), AllocError> {
    match &search.unmet {
        Some(unmet) => put_unmet(alloc, out, suite, test, report, unmet),
        None => match report.verdict {
            Verdict::Endless => out.push_str("an order of its branches never ends"),
            Verdict::Cut => put_cut(out, search),
            Verdict::Invocations => put_other_counts(out),
            _ => Ok(()),
        },
    }
}

fn put_other_counts(out: &mut String) -> Result<(), AllocError> {
    out.push_str(
        "orders of its branches that end alike invoke a Task more or less often; explore --calls tells how often",
    )
}

fn put_cut(out: &mut String, search: &Search) -> Result<(), AllocError> {
    out.push_str("the search was cut behind ")?;
    put_decimal(out, search.worlds as u64)?;
    out.push_str(" worlds; --limit tries more")
}

/// Appends why a test isn't passed in the order that decides.
fn put_unmet(
    alloc: Global,
    out: &mut String,
    suite: &Suite,
    test: &Expectation,
    report: &CaseReport,
    unmet: &Unmet,
) -> Result<(), AllocError> {
    out.push_str("in another order of its branches, ")?;
    let own = for_orders(alloc, test)?;
    let reason = explain_order(alloc, suite, &own, &unmet.steps)?;
    put_difference(alloc, out, &own, report, &reason)
}

/// What is told of the test at a place of the suite.
fn finding_of<'a>(
    alloc: Global,
    source: &Source<'_>,
    suite: &Suite,
    place: usize,
    report: &'a CaseReport,
) -> Result<Finding<'a>, AllocError>
    ensures { IfOk result (λ f. f.report.now ≡ report.now) }
{
    let number = source.number_at(place);
    let mut difference = String::new(alloc);
    let mut alone = String::new(alloc);
    if !is_passed(report) && place < suite.tests.list.len() {
        put_why(alloc, &mut difference, suite, place, report)?;
        match deciding(report) {
            Some(search) => put_search(&mut alone, source, number, search)?,
            None => put_alone(&mut alone, source, number)?,
        }
    }
    Ok(Finding {
        number,
        report,
        difference,
        alone,
    })
}

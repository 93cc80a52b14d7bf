// The command `test`.
ghost use Rattle.std.specs.Prelude.{◌≡◌, ◌≤◌, ℕ, List, [], true, is_some, IfOk, IfErr, OnOk, OnErr, string_bytes};
ghost use Rattle.std.specs.List.{list_all};
ghost use Rattle.asl_check.specs.Judged.{IsMachineOf};
ghost use Rattle.asl_mock.specs.Told.{IsMockFile};
ghost use Rattle.asl_suite_file.specs.Told.{IsExpectationsFile};
ghost use Rattle.asl_suite.specs.Findings.{reports_in};
ghost use Rattle.asl_suite.specs.Reports.{is_passed};
ghost use Rattle.asl_host.specs.Outcomes.{sink_use};
ghost use Rattle.asl_cli.specs.Streams.{file_system, output_use, io};
ghost use Rattle.asl_cli.specs.Choosing.{list_text, meant};
ghost use Rattle.asl_cli.specs.Inputs.{AreTestsOn, IsFirstLost, Unless};
ghost use Rattle.asl_cli.specs.Faults.{IsTestsTextReason};
ghost use Rattle.asl_cli.specs.Suites.{AreDraftsOf, IsSpelled, IsListOf, IsListReason, IsUndone, IsListing, IsShown, IsSuiteOf, AreRemarks, IsGood, IsCovered, chosen, IsDefinitionTextReason, IsMocksTextReason, IsSuiteTextReason, IsSuiteReason, IsReportText, AreFileTexts, AreReportsOf, judged, IsReport, IsReported, junit_part, leaving, leaving_of, IsTested};

use crate::choosing::{keep_meant, list_of, numbers_of};
use crate::command::{FAILED, GOOD, REFUSED};
use crate::covering::{coverage_of, coverage_shown};
use crate::exploring::orders_for;
use crate::failing::failures;
use crate::fault::CommandFault;
use crate::inputs::with_inputs;
use crate::leaving::{Left, leave};
use crate::misnaming::misnamed;
use crate::ordering::searched;
use crate::reading::{SuiteTexts, read_suite};
use asl_check::{Fault, accept};
use asl_def::Machine;
use asl_history::Sink;
use asl_host::{Files, Outputs};
use asl_lint_files::{of_definition, of_expectations, of_mocks};
use asl_mock::{MockFault, Mocks};
use asl_run_input::EmulateFault;
use asl_suite::{
    CaseReport, Finding, Source, Suite, all_passed, findings, json, junit, junit_suite, notes,
    remarks as remarks_of, report, strictly,
};
use asl_suite_file::{Drafts, ExpectFault};
use asl_suite_orders::run_suite_in_orders;
use asl_suite_workers::{SuiteFault, run_suite};
use asl_threads_base::Gate;
use asl_words::{OrderWords, ReportFormat, TestWords};
use std::alloc::{AllocError, Global};
use std::sync::Wait;
use std::thread::Threads;

/// The most workers that run a suite.
const MOST_WORKERS: usize = 64;

/// What is printed of a suite, what is written to files in JUnit's format and in JSON, where that is asked for, what is told of the tests
/// that aren't `ok` and of what they cover, and whether all is good: all tests are `ok`, and they cover as much as they are to.
#[derive(Drop)]
pub(crate) struct Reported {
    pub(crate) text: String,
    pub(crate) junit: String,
    pub(crate) json: String,
    pub(crate) remarks: String,
    pub(crate) good: bool,
}

/// The command `test`: runs the tests of a suite, prints a report of each, writes the reports to files that are named for them, and tells of
/// each test that isn't `ok` why.
pub fn test<R: Threads + Wait + Sync, G: Gate + Sync, F: Files, K: Outputs, O: Sink, E: Sink>(
    rt: &R,
    gate: &G,
    alloc: Global,
    words: &TestWords<'_>,
    quiet: bool,
    files: &mut F,
    outputs: &mut K,
    out: &mut O,
    err: &mut E,
) -> u8
    ensures { IsTested (file_system (F.gives files.old) (F.lacks files.old))
        (output_use K.written outputs.old outputs.new)
        (io (sink_use O.taken O.failures out.old out.new)
        (sink_use E.taken E.failures err.old err.new) result) quiet words.now }
{
    match report_files(rt, gate, alloc, words, quiet, files) {
        Ok(reported) => {
            let left = left_of(&*words, &reported);
            leave(alloc, quiet, &left, outputs, out, err)
        }
        Err(refusal) => {
            refusal.write(alloc, quiet, err);
            REFUSED
        }
    }
}

/// What the test of these words leaves.
fn left_of<'a>(words: &TestWords<'a>, reported: &'a Reported) -> Left<'a>
    ensures { leaving_of result ≡ leaving words.now (string_bytes reported.now.text) (string_bytes reported.now.remarks)
        reported.now.good (string_bytes reported.now.junit) (string_bytes reported.now.json) }
{
    Left {
        text: reported.text.as_str(),
        remarks: reported.remarks.as_str(),
        status: if reported.good { GOOD } else { FAILED },
        list: words.list,
        junit_file: words.junit,
        junit: reported.junit.as_str(),
        json_file: words.json,
        json: reported.json.as_str(),
    }
}

/// Reads the files, in the order of the words, and runs the tests, or lists them.
pub(crate) fn report_files<'a, R: Threads + Wait + Sync, G: Gate + Sync, F: Files>(
    rt: &R,
    gate: &G,
    alloc: Global,
    words: &TestWords<'a>,
    quiet: bool,
    files: &mut F,
) -> Result<Reported, CommandFault<'a>>
    ensures reported { IfOk result (λ r. IsShown words.now.list (F.gives files.old) quiet words.now
        (string_bytes r.text) (string_bytes r.remarks) r.good (string_bytes r.junit) (string_bytes r.json)) }
    ensures refused { IfErr result
        (IsUndone words.now.list (F.gives files.old) (F.lacks files.old) words.now) }
{
    if words.list {
        list_files(alloc, words, files)
    } else {
        run_files(rt, gate, alloc, words, quiet, files)
    }
}

/// Lists the tests.
fn list_files<'a, F: Files>(
    alloc: Global,
    words: &TestWords<'a>,
    files: &mut F,
) -> Result<Reported, CommandFault<'a>>
    ensures listed { IfOk result (λ r. IsListing (F.gives files.old) words.now (string_bytes r.text)
        × (string_bytes r.remarks ≡ []) × (r.good ≡ true)) }
    ensures refused { IfErr result
        (IsListReason (F.gives files.old) (F.lacks files.old) words.now) }
{
    let texts = read_suite(
        alloc,
        files,
        words.definition,
        words.mocks,
        words.expectations,
    )?;
    let text = list_in(alloc, words, &texts)?;
    Ok(Reported {
        text,
        junit: String::new(alloc),
        json: String::new(alloc),
        remarks: String::new(alloc),
        good: true,
    })
}

/// The list of the tests that texts spell. They are refused where those of a run are.
fn list_in<'a>(
    alloc: Global,
    words: &TestWords<'_>,
    texts: &SuiteTexts,
) -> Result<String, CommandFault<'a>>
    ensures list { IfOk result (λ t. IsListOf texts.now.expectations.items words.now (string_bytes t)) }
    ensures refused { IfErr result (IsSuiteTextReason texts.now.definition.items
        texts.now.mocks.items texts.now.expectations.items) }
{
    let _machine = machine_of(alloc, words, texts.definition.as_slice())?;
    let _mocks = mocks_of(alloc, words, texts)?;
    list_text_of(alloc, words, texts.expectations.as_slice())
}

fn list_text_of<'a>(
    alloc: Global,
    words: &TestWords<'_>,
    text: &[u8],
) -> Result<String, CommandFault<'a>>
    ensures list { IfOk result (λ t. IsListOf text.now words.now (string_bytes t)) }
    ensures refused { IfErr result (IsTestsTextReason text.now) }
{
    let tests = all_drafts_of(alloc, words.expectations, text)?;
    let (first, apart) = (words.shard.first, words.shard.apart);
    match list_of(alloc, words.filter, first, apart, tests.list.as_slice()) {
        Ok(list) => Ok(list),
        Err(_) => Err(CommandFault::OutOfMemory),
    }
}

/// Runs the tests.
fn run_files<'a, R: Threads + Wait + Sync, G: Gate + Sync, F: Files>(
    rt: &R,
    gate: &G,
    alloc: Global,
    words: &TestWords<'a>,
    quiet: bool,
    files: &mut F,
) -> Result<Reported, CommandFault<'a>>
    ensures reported { IfOk result (λ r. IsReported (F.gives files.old) quiet words.now
        (string_bytes r.text) (string_bytes r.remarks) r.good (string_bytes r.junit) (string_bytes r.json)) }
    ensures refused { IfErr result
        (IsSuiteReason (F.gives files.old) (F.lacks files.old) words.now) }
{
    let texts = read_suite(
        alloc,
        files,
        words.definition,
        words.mocks,
        words.expectations,
    )?;
    let spelled = spelled_of(alloc, words, &texts)?;
    let suite = suite_of(alloc, words, files, spelled)?;
    let Ok(reported) = reported_of(rt, gate, alloc, words, quiet, &texts, &suite) else {
        return Err(CommandFault::OutOfMemory);
    };
    match covered(alloc, words, reported, &suite, &texts) {
        Ok(reported) => Ok(reported),
        Err(_) => Err(CommandFault::OutOfMemory),
    }
}

/// The same; where a least percent is given, what the tests cover is told behind the rest, and all is good only if it is no less. The
/// texts spell the suite. The error is that memory ran out.
fn covered(
    alloc: Global,
    words: &TestWords<'_>,
    reported: Reported,
    suite: &Suite,
    texts: &SuiteTexts,
) -> Result<Reported, AllocError>
    ensures text { IfOk result (λ r. string_bytes r.text ≡ string_bytes reported.text) }
    ensures good { IfOk result (λ r. IsGood words.now texts.now.definition.items texts.now.mocks.items
        suite.now words.now.coverage (string_bytes reported.remarks) reported.good r.good
        (string_bytes r.remarks)) }
    ensures files { IfOk result (λ r. (string_bytes r.junit ≡ string_bytes reported.junit)
        × (string_bytes r.json ≡ string_bytes reported.json)) }
{
    match words.coverage {
        Some(least) => {
            let (definition, mocks) = (texts.definition.as_slice(), texts.mocks.as_slice());
            with_coverage(alloc, words, least, reported, suite, definition, mocks)
        }
        None => Ok(reported),
    }
}

/// The same where a least percent is given.
fn with_coverage(
    alloc: Global,
    words: &TestWords<'_>,
    least: u32,
    reported: Reported,
    suite: &Suite,
    definition: &[u8],
    mocks: &[u8],
) -> Result<Reported, AllocError>
    ensures text { IfOk result (λ r. string_bytes r.text ≡ string_bytes reported.text) }
    ensures good { IfOk result (λ r. IsCovered words.now definition.now mocks.now suite.now least
        (string_bytes reported.remarks) reported.good r.good (string_bytes r.remarks)) }
    ensures files { IfOk result (λ r. (string_bytes r.junit ≡ string_bytes reported.junit)
        × (string_bytes r.json ≡ string_bytes reported.json)) }
{
    let coverage = coverage_of(alloc, suite, mocks)?;
    let percent = coverage.percent();
    let shown = coverage_shown(alloc, words, &coverage, least, definition, mocks)?;
    let Reported {
        text,
        junit,
        json,
        remarks,
        good,
    } = reported;
    let mut remarks = remarks;
    remarks.push_str(shown.as_str())?;
    Ok(Reported {
        text,
        junit,
        json,
        remarks,
        good: good && !(percent < least),
    })
}

/// The reports of the tests of a suite by so many workers: of the driven run of each, or of all its orders. The fault is that memory ran out.
fn reports_of<R: Threads + Wait + Sync, G: Gate + Sync>(
    rt: &R,
    gate: &G,
    alloc: Global,
    orders: Option<OrderWords>,
    workers: usize,
    suite: &Suite,
) -> Result<Vec<CaseReport>, SuiteFault>
    requires { (1 ≤ workers) × (workers ≤ 64) }
    ensures { IfOk result (λ v. AreReportsOf orders suite.now v.items) }
{
    match orders {
        None => run_suite(rt, alloc, suite, workers, gate),
        Some(words) => {
            let orders = orders_for(!words.every);
            run_suite_in_orders(rt, alloc, suite, orders, words.limit, workers, gate)
        }
    }
}

/// Runs the tests of a suite that these texts spell. The fault is that memory ran out.
fn reported_of<R: Threads + Wait + Sync, G: Gate + Sync>(
    rt: &R,
    gate: &G,
    alloc: Global,
    words: &TestWords<'_>,
    quiet: bool,
    texts: &SuiteTexts,
    suite: &Suite,
) -> Result<Reported, SuiteFault>
    ensures report { IfOk result (λ r. IsReport words.now suite.now (string_bytes r.text) r.good
        (string_bytes r.junit) (string_bytes r.json)) }
    ensures remarks { IfOk result (λ r. AreRemarks quiet (string_bytes r.remarks)) }
{
    // The command line's reader takes no other number.
    let workers = words.workers.clamp(1, MOST_WORKERS);
    let reports = reports_of(rt, gate, alloc, words.orders, workers, suite)?;
    let reports = judged(alloc, words.strict, reports)?;
    Ok(told_of(alloc, words, quiet, texts, suite, &reports)?)
}

/// These reports; where that is asked, a test that may not mean what it says fails. The error is that memory ran out.
fn judged(
    alloc: Global,
    strict: bool,
    reports: Vec<CaseReport>,
) -> Result<Vec<CaseReport>, AllocError>
    ensures { IfOk result (λ v. v.items ≡ judged strict reports.items) }
{
    if strict {
        return strictly(alloc, reports);
    }
    Ok(reports)
}

/// What is printed and told of the tests of a suite that these texts spell, and of which these are the reports. The error is that memory ran out.
fn told_of(
    alloc: Global,
    words: &TestWords<'_>,
    quiet: bool,
    texts: &SuiteTexts,
    suite: &Suite,
    reports: &[CaseReport],
) -> Result<Reported, AllocError>
    ensures report { IfOk result (λ r. IsReportText words.now.among words.now.format reports.now (string_bytes r.text)
        × (r.good ≡ list_all is_passed reports.now)) }
    ensures files { IfOk result (λ r. AreFileTexts words.now reports.now (string_bytes r.junit) (string_bytes r.json)) }
    ensures remarks { IfOk result (λ r. AreRemarks quiet (string_bytes r.remarks)) }
{
    let numbers = numbers_in(alloc, words, texts)?;
    let source = source_of(words, numbers.as_deref());
    let findings = findings(alloc, &source, suite, reports)?;
    // Why tests aren't `ok`, what may be other than it is meant, which names no state has, and how much was tried.
    let mut remarks = String::new(alloc);
    if !quiet {
        remarks.push_str(remarks_of(alloc, &findings)?.as_str())?;
        remarks.push_str(notes(alloc, &findings)?.as_str())?;
        remarks.push_str(misnamed(alloc, suite, texts.definition.as_slice(), &findings)?.as_str())?;
        remarks.push_str(failures(alloc, suite, &findings)?.as_str())?;
        remarks.push_str(searched(alloc, reports)?.as_str())?;
    }
    reported_in(alloc, words, remarks, reports, &findings)
}

/// The texts of reports of which these are the findings. The error is that memory ran out.
fn reported_in(
    alloc: Global,
    words: &TestWords<'_>,
    remarks: String,
    reports: &[CaseReport],
    findings: &[Finding<'_>],
) -> Result<Reported, AllocError>
    requires { reports_in findings.now ≡ reports.now }
    ensures report { IfOk result (λ r. IsReportText words.now.among words.now.format reports.now (string_bytes r.text)
        × (r.good ≡ list_all is_passed reports.now)) }
    ensures files { IfOk result (λ r. AreFileTexts words.now reports.now (string_bytes r.junit) (string_bytes r.json)) }
    ensures remarks { IfOk result (λ r. string_bytes r.remarks ≡ string_bytes remarks) }
{
    let text = text_of(alloc, words.format, words, reports, findings)?;
    let junit = text_if(
        alloc,
        words.junit,
        ReportFormat::JUnit,
        words,
        reports,
        findings,
    )?;
    let json = text_if(
        alloc,
        words.json,
        ReportFormat::Json,
        words,
        reports,
        findings,
    )?;
    Ok(Reported {
        text,
        junit,
        json,
        remarks,
        good: all_passed(reports),
    })
}

/// The number of each test in the file, where a word chose the tests. The error is that memory ran out.
fn numbers_in(
    alloc: Global,
    words: &TestWords<'_>,
    texts: &SuiteTexts,
) -> Result<Option<Vec<usize>>, AllocError> {
    if words.filter.is_none() {
        return Ok(None);
    }
    let tests = match Drafts::read(alloc, texts.expectations.as_slice()) {
        Ok(tests) => tests,
        Err(ExpectFault::OutOfMemory) => return Err(AllocError),
        // It isn't so: the suite's tests were read from these bytes.
        Err(_) => return Ok(None),
    };
    let (first, apart) = (words.shard.first, words.shard.apart);
    let numbers = numbers_of(alloc, words.filter, first, apart, tests.list.as_slice())?;
    Ok(Some(numbers))
}

/// Where the tests come from, of which these are the numbers where a word chose them.
fn source_of<'a>(words: &TestWords<'a>, numbers: Option<&'a [usize]>) -> Source<'a> {
    Source {
        definition: words.definition,
        mocks: words.mocks,
        expectations: words.expectations,
        first: words.shard.first,
        apart: words.shard.apart,
        numbers,
    }
}

/// The reports in a format, where a file is named for them; else nothing. The error is that memory ran out.
fn text_if(
    alloc: Global,
    name: Option<&str>,
    format: ReportFormat,
    words: &TestWords<'_>,
    reports: &[CaseReport],
    findings: &[Finding<'_>],
) -> Result<String, AllocError>
    requires { reports_in findings.now ≡ reports.now }
    ensures { IfOk result (λ t. is_some name.entry ≡ true → IsReportText words.now.among format reports.now (string_bytes t)) }
{
    match name {
        Some(_) => text_of(alloc, format, words, reports, findings),
        None => Ok(String::new(alloc)),
    }
}

/// The reports in a format. The error is that memory ran out.
fn text_of(
    alloc: Global,
    format: ReportFormat,
    words: &TestWords<'_>,
    reports: &[CaseReport],
    findings: &[Finding<'_>],
) -> Result<String, AllocError>
    requires { reports_in findings.now ≡ reports.now }
    ensures { IfOk result (λ t. IsReportText words.now.among format reports.now (string_bytes t)) }
{
    match format {
        ReportFormat::Text => report(alloc, reports),
        ReportFormat::JUnit => junit_of(alloc, words, findings),
        ReportFormat::Json => json(alloc, findings),
    }
}

/// The reports in JUnit's format: an element among others, or a document.
fn junit_of(
    alloc: Global,
    words: &TestWords<'_>,
    findings: &[Finding<'_>],
) -> Result<String, AllocError>
    ensures { IfOk result (λ t. string_bytes t ≡ junit_part words.now.among words.now.expectations.now findings.now) }
{
    if words.among {
        return junit_suite(alloc, words.expectations, findings);
    }
    junit(alloc, words.expectations, findings)
}

/// A suite of which inputs may stand in files.
#[derive(Drop)]
pub(crate) struct SpelledSuite {
    pub(crate) machine: Machine,
    pub(crate) mocks: Mocks,
    pub(crate) drafts: Drafts,
}

/// The suite that texts spell.
fn spelled_of<'a>(
    alloc: Global,
    words: &TestWords<'_>,
    texts: &SuiteTexts,
) -> Result<SpelledSuite, CommandFault<'a>>
    ensures spelled { IfOk result (IsSpelled texts.now.definition.items texts.now.mocks.items
        texts.now.expectations.items words.now) }
    ensures refused { IfErr result (IsSuiteTextReason texts.now.definition.items
        texts.now.mocks.items texts.now.expectations.items) }
{
    let machine = machine_of(alloc, words, texts.definition.as_slice())?;
    let mocks = mocks_of(alloc, words, texts)?;
    let drafts = drafts_of(alloc, words, texts.expectations.as_slice())?;
    Ok(SpelledSuite {
        machine,
        mocks,
        drafts,
    })
}

/// The same with its inputs, of which each file is read.
fn suite_of<'a, F: Files>(
    alloc: Global,
    words: &TestWords<'_>,
    files: &mut F,
    spelled: SpelledSuite,
) -> Result<Suite, CommandFault<'a>>
    ensures machine { IfOk result (λ s. s.machine ≡ spelled.machine) }
    ensures mocks { IfOk result (λ s. s.mocks ≡ spelled.mocks) }
    ensures tests { IfOk result (λ s. AreTestsOn (F.gives files.old) words.now.expectations.now
        spelled.drafts.list.items s.tests.list.items) }
    ensures lost { IfErr result (Unless (IsFirstLost (F.gives files.old) (F.lacks files.old)
        words.now.expectations.now spelled.drafts.list.items)) }
{
    let SpelledSuite {
        machine,
        mocks,
        drafts,
    } = spelled;
    let tests = with_inputs(alloc, files, words.expectations, drafts)?;
    Ok(Suite {
        machine,
        mocks,
        tests,
    })
}

fn machine_of<'a>(
    alloc: Global,
    words: &TestWords<'_>,
    text: &[u8],
) -> Result<Machine, CommandFault<'a>>
    ensures machine { IfOk result (IsMachineOf text.now) }
    ensures refused { IfErr result (IsDefinitionTextReason text.now) }
{
    match accept(alloc, text) {
        Ok(machine) => Ok(machine),
        Err(Fault::OutOfMemory) => Err(CommandFault::OutOfMemory),
        Err(fault) => match of_definition(alloc, words.definition, text) {
            Ok(lines) => Err(CommandFault::Definition(fault, lines)),
            Err(AllocError) => Err(CommandFault::OutOfMemory),
        },
    }
}

fn mocks_of<'a>(
    alloc: Global,
    words: &TestWords<'_>,
    texts: &SuiteTexts,
) -> Result<Mocks, CommandFault<'a>>
    ensures mocks { IfOk result (IsMockFile texts.now.mocks.items) }
    ensures refused { IfErr result (IsMocksTextReason texts.now.mocks.items) }
{
    let text = texts.mocks.as_slice();
    match Mocks::read(alloc, text) {
        Ok(mocks) => Ok(mocks),
        Err(MockFault::OutOfMemory) => Err(CommandFault::OutOfMemory),
        Err(fault) => match of_mocks(alloc, words.mocks, text, &texts.definition) {
            Ok(lines) => Err(CommandFault::Emulation(EmulateFault::Mocks(fault), lines)),
            Err(AllocError) => Err(CommandFault::OutOfMemory),
        },
    }
}

/// The tests of a file.
pub(crate) fn all_drafts_of<'a>(
    alloc: Global,
    file: &str,
    text: &[u8],
) -> Result<Drafts, CommandFault<'a>>
    ensures tests { IfOk result (λ t. IsExpectationsFile text.now t.list.items) }
    ensures refused { IfErr result (IsTestsTextReason text.now) }
{
    match Drafts::read(alloc, text) {
        Ok(tests) => Ok(tests),
        Err(ExpectFault::OutOfMemory) => Err(CommandFault::OutOfMemory),
        Err(fault) => match of_expectations(alloc, file, text, &fault) {
            Ok(lines) => Err(CommandFault::Expectations(fault, lines)),
            Err(AllocError) => Err(CommandFault::OutOfMemory),
        },
    }
}

/// The tests of a file that the words choose.
fn drafts_of<'a>(
    alloc: Global,
    words: &TestWords<'_>,
    text: &[u8],
) -> Result<Drafts, CommandFault<'a>>
    ensures drafts { IfOk result (λ t. AreDraftsOf text.now words.now t.list.items) }
    ensures refused { IfErr result (IsTestsTextReason text.now) }
{
    let mut tests = all_drafts_of(alloc, words.expectations, text)?;
    match keep_chosen(alloc, words, &mut tests) {
        Ok(()) => Ok(tests),
        Err(_) => Err(CommandFault::OutOfMemory),
    }
}

/// Keeps the tests that the words choose. The error is that memory ran out.
fn keep_chosen(alloc: Global, words: &TestWords<'_>, tests: &mut Drafts) -> Result<(), AllocError>
    ensures { OnOk result (tests.new.list.items ≡ chosen words.now tests.old.list.items) }
{
    tests.keep_every(alloc, words.shard.first, words.shard.apart)?;
    keep_meant(alloc, words.filter, tests)
}

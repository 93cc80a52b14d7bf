// The command `test` on a project: one report of all its files of tests.
ghost use Rattle.std.specs.Prelude.{◌≡◌, ◌⊎◌, ◌++◌, ◌∷◌, ◌==◌, max, List, [], map, fold, count_by, IfOk, OnOk, string_bytes};
ghost use Rattle.asl_suite.specs.Junit.{junit_suites};
ghost use Rattle.asl_host.specs.Outcomes.{sink_use, status_of};
ghost use Rattle.asl_cli.specs.declared.fault.CommandFault.TheVariants.{OutOfMemory};
ghost use Rattle.asl_cli.specs.Streams.{file_use, file_system, output_use, io, IsUnused};
ghost use Rattle.asl_cli.specs.Faults.{Tells};
ghost use Rattle.asl_cli.specs.Answers.{IsRefusedFor};
ghost use Rattle.asl_cli.specs.Suites.{leaving_of, IsLeft};
ghost use Rattle.asl_cli.specs.Projects.{suite_seen, suite_by, suites_of, suites_in, IsTestOf, Added, added_by, IsPart, AreParts, files_word, passed_word, failed_word, refused_word, passed_part, failed_part, refused_part, counts_line, summary, together, together_seen, report_all, shown_all, leaving_by, leaving_all, AreAllTested};

use crate::command::{FAILED, GOOD, REFUSED};
use crate::fault::CommandFault;
use crate::leaving::{Left, leave};
use crate::projects::{highest, project_in};
use crate::testing::{Reported, report_files};
use asl_history::Sink;
use asl_host::{Files, Outputs};
use asl_json::Txt;
use asl_project::Workflow;
use asl_suite::junit_suites;
use asl_text::put_decimal;
use asl_threads_base::Gate;
use asl_words::{ReportFormat, TestAllWords, TestWords};
use std::alloc::{AllocError, Global};
use std::sync::Wait;
use std::thread::Threads;

// ---- the files of tests

/// A file of tests of a workflow, and the files beside it.
#[derive(Clone, Copy)]
pub(crate) struct SuiteNames<'a> {
    definition: &'a str,
    mocks: &'a str,
    tests: &'a str,
}

/// Appends these files of tests of a definition with this mock file. The error is that memory ran out.
fn add_files<'a>(
    suites: &mut Vec<SuiteNames<'a>>,
    definition: &'a str,
    mocks: &'a str,
    files: &'a [Txt],
) -> Result<(), AllocError>
    ensures { OnOk result (map suite_seen suites.new.items ≡ map suite_seen suites.old.items
        ++ map (suite_by definition.now mocks.now) files.now) }
{
    for file in files {
        suites.push(SuiteNames {
            definition,
            mocks,
            tests: file.as_str(),
        })?;
    }
    Ok(())
}

/// Appends those of a workflow. The error is that memory ran out.
fn add_workflow<'a>(
    suites: &mut Vec<SuiteNames<'a>>,
    workflow: &'a Workflow,
) -> Result<(), AllocError>
    ensures { OnOk result (map suite_seen suites.new.items ≡ map suite_seen suites.old.items
        ++ suites_of workflow.now) }
{
    match &workflow.mocks {
        Some(mocks) => {
            let definition = workflow.definition.as_str();
            add_files(suites, definition, mocks.as_str(), workflow.tests.names())
        }
        None => Ok(()),
    }
}

/// Those of all workflows. The error is that memory ran out.
fn suites_in<'a>(
    alloc: Global,
    workflows: &'a [Workflow],
) -> Result<Vec<SuiteNames<'a>>, AllocError>
    ensures { IfOk result (λ v. map suite_seen v.items ≡ suites_in workflows.now) }
{
    let mut suites = Vec::new(alloc);
    for workflow in workflows {
        add_workflow(&mut suites, workflow)?;
    }
    Ok(suites)
}

/// The words of `test` for a file of tests.
fn words_of<'a>(words: &TestAllWords<'a>, suite: &SuiteNames<'a>) -> TestWords<'a>
    ensures { IsTestOf words.now (suite_seen suite.now) result }
{
    TestWords {
        definition: suite.definition,
        mocks: suite.mocks,
        expectations: suite.tests,
        workers: words.workers,
        format: words.format,
        junit: words.junit,
        json: words.json,
        shard: words.shard,
        filter: words.filter,
        list: words.list,
        coverage: words.coverage,
        coverage_format: words.coverage_format,
        strict: words.strict,
        orders: words.orders,
        among: true,
    }
}

// ---- what each of them adds

/// What a file of tests adds to the report.
#[derive(Drop)]
pub(crate) struct Part {
    pub(crate) text: String,
    pub(crate) told: String,
    pub(crate) junit: String,
    pub(crate) json: String,
    pub(crate) status: u8,
}

/// What tests that were run, or listed, add.
fn part_of(reported: Reported) -> Part
    ensures texts { (string_bytes result.text ≡ string_bytes reported.text)
        × (string_bytes result.told ≡ string_bytes reported.remarks)
        × (string_bytes result.junit ≡ string_bytes reported.junit)
        × (string_bytes result.json ≡ string_bytes reported.json) }
    ensures status { result.status ≡ status_of reported.good }
{
    let Reported {
        text,
        junit,
        json,
        remarks,
        good,
    } = reported;
    Part {
        text,
        told: remarks,
        junit,
        json,
        status: if good { GOOD } else { FAILED },
    }
}

/// What those add that were refused. The error is that memory ran out.
fn refused_part(alloc: Global, quiet: bool, refusal: &CommandFault<'_>) -> Result<Part, AllocError>
    ensures told { IfOk result (λ p. Tells quiet refusal.now (string_bytes p.told)) }
    ensures rest { IfOk result (λ p. (string_bytes p.text ≡ []) × (string_bytes p.junit ≡ [])
        × (string_bytes p.json ≡ []) × (p.status ≡ 2)) }
{
    Ok(Part {
        text: String::new(alloc),
        told: refusal.told(alloc, quiet)?,
        junit: String::new(alloc),
        json: String::new(alloc),
        status: REFUSED,
    })
}

/// What a file of tests adds.
fn test_part<R: Threads + Wait + Sync, G: Gate + Sync, F: Files>(
    rt: &R,
    gate: &G,
    alloc: Global,
    words: &TestWords<'_>,
    quiet: bool,
    files: &mut F,
) -> Result<Part, AllocError>
    ensures { IfOk result (λ p. IsPart (file_system (F.gives files.old) (F.lacks files.old)) quiet words.now
        (added_by p)) }
{
    match report_files(rt, gate, alloc, words, quiet, files) {
        Ok(reported) => Ok(part_of(reported)),
        Err(refusal) => match refused_part(alloc, quiet, &refusal) {
            Ok(part) => Ok(part),
            Err(AllocError) => Err(AllocError),
        },
    }
}

// ---- all of them

/// What the files of tests of a project add, one behind another.
#[derive(Drop)]
pub(crate) struct Together {
    pub(crate) text: String,
    pub(crate) told: String,
    pub(crate) junit: String,
    pub(crate) json: String,
    /// The status of each file, in order.
    pub(crate) statuses: Vec<u8>,
}

impl Together {
    fn new(alloc: Global) -> Together
        ensures { together_seen result ≡ together [] }
    {
        Together {
            text: String::new(alloc),
            told: String::new(alloc),
            junit: String::new(alloc),
            json: String::new(alloc),
            statuses: Vec::new(alloc),
        }
    }

    /// Adds one more behind them. The error is that memory ran out.
    fn add(&mut self, part: &Part) -> Result<(), AllocError>
        ensures { OnOk result ((ps : List Added) → together_seen self.old ≡ together ps
            → together_seen self.new ≡ together (ps ++ added_by part.now ∷ [])) }
    {
        self.text.push_str(part.text.as_str())?;
        self.told.push_str(part.told.as_str())?;
        self.junit.push_str(part.junit.as_str())?;
        self.json.push_str(part.json.as_str())?;
        self.statuses.push(part.status)?;
        Ok(())
    }

    /// How many files have this status.
    fn count(&self, status: u8) -> usize
        ensures { result ≡ count_by (λ s. s == status) self.now.statuses.items }
    {
        self.statuses.iter().filter(|one| **one == status).count()
    }

    /// The highest status; that of success where there is no file.
    fn status(&self) -> u8
        ensures { result ≡ fold max 0 self.now.statuses.items }
    {
        let mut status = GOOD;
        for one in &self.statuses {
            status = highest(status, *one);
        }
        status
    }
}

/// What these files of tests add.
fn together_of<'a, R: Threads + Wait + Sync, G: Gate + Sync, F: Files>(
    rt: &R,
    gate: &G,
    alloc: Global,
    words: &TestAllWords<'a>,
    suites: &[SuiteNames<'a>],
    quiet: bool,
    files: &mut F,
) -> Result<Together, AllocError>
    ensures { IfOk result (λ t. (ps : List Added) × AreParts quiet words.now (file_use F.gives F.lacks files.old)
        (map suite_seen suites.now) ps × (together_seen t ≡ together ps)) }
{
    let mut together = Together::new(alloc);
    for suite in suites {
        let words = words_of(words, suite);
        let part = test_part(rt, gate, alloc, &words, quiet, files)?;
        together.add(&part)?;
    }
    Ok(together)
}

// ---- the report

#[tactic(auto, unfolding(crate::specs::Projects::files_word))]
fn put_files_word(out: &mut String) -> Result<(), AllocError>
    ensures { OnOk result (string_bytes out.new ≡ string_bytes out.old ++ files_word) }
{
    out.push_str("files: ")
}

#[tactic(auto, unfolding(crate::specs::Projects::passed_word))]
fn put_passed_word(out: &mut String) -> Result<(), AllocError>
    ensures { OnOk result (string_bytes out.new ≡ string_bytes out.old ++ passed_word) }
{
    out.push_str(" passed, ")
}

#[tactic(auto, unfolding(crate::specs::Projects::failed_word))]
fn put_failed_word(out: &mut String) -> Result<(), AllocError>
    ensures { OnOk result (string_bytes out.new ≡ string_bytes out.old ++ failed_word) }
{
    out.push_str(" failed, ")
}

#[tactic(auto, unfolding(crate::specs::Projects::refused_word))]
fn put_refused_word(out: &mut String) -> Result<(), AllocError>
    ensures { OnOk result (string_bytes out.new ≡ string_bytes out.old ++ refused_word) }
{
    out.push_str(" refused\n")
}

/// Appends how many files passed.
fn put_passed(out: &mut String, together: &Together) -> Result<(), AllocError>
    ensures { OnOk result (string_bytes out.new ≡ string_bytes out.old ++ passed_part together.now.statuses.items) }
{
    put_files_word(out)?;
    put_decimal(out, together.count(GOOD) as u64)?;
    put_passed_word(out)
}

/// Appends how many failed.
fn put_failed(out: &mut String, together: &Together) -> Result<(), AllocError>
    ensures { OnOk result (string_bytes out.new ≡ string_bytes out.old ++ failed_part together.now.statuses.items) }
{
    put_decimal(out, together.count(FAILED) as u64)?;
    put_failed_word(out)
}

/// Appends how many were refused.
fn put_refused(out: &mut String, together: &Together) -> Result<(), AllocError>
    ensures { OnOk result (string_bytes out.new ≡ string_bytes out.old ++ refused_part together.now.statuses.items) }
{
    put_decimal(out, together.count(REFUSED) as u64)?;
    put_refused_word(out)
}

/// Appends how many files passed, failed and were refused.
fn put_counts(out: &mut String, together: &Together) -> Result<(), AllocError>
    ensures { OnOk result (string_bytes out.new ≡ string_bytes out.old ++ counts_line together.now.statuses.items) }
{
    put_passed(out, together)?;
    put_failed(out, together)?;
    put_refused(out, together)
}

/// Appends the same where there are several files.
fn put_summary(out: &mut String, together: &Together) -> Result<(), AllocError>
    ensures { OnOk result (string_bytes out.new ≡ string_bytes out.old ++ summary together.now.statuses.items) }
{
    if together.statuses.len() < 2 {
        return Ok(());
    }
    put_counts(out, together)
}

/// The reports as text, and how many files passed, failed and were refused.
fn text_of(alloc: Global, together: &Together) -> Result<String, AllocError>
    ensures { IfOk result (λ t. string_bytes t ≡ string_bytes together.now.text ++ summary together.now.statuses.items) }
{
    let mut text = String::from_str(alloc, together.text.as_str())?;
    put_summary(&mut text, together)?;
    Ok(text)
}

/// The report of them all.
fn report_of(alloc: Global, format: ReportFormat, together: &Together) -> Result<String, AllocError>
    ensures { IfOk result (λ t. string_bytes t ≡ report_all format (together_seen together.now)) }
{
    match format {
        ReportFormat::Text => text_of(alloc, together),
        ReportFormat::JUnit => junit_suites(alloc, together.text.as_str()),
        ReportFormat::Json => String::from_str(alloc, together.text.as_str()),
    }
}

/// What is printed of them all.
fn shown_of(
    alloc: Global,
    words: &TestAllWords<'_>,
    together: &Together,
) -> Result<String, AllocError>
    ensures { IfOk result (λ t. string_bytes t ≡ shown_all words.now.list words.now.format (together_seen together.now)) }
{
    if words.list {
        return String::from_str(alloc, together.text.as_str());
    }
    report_of(alloc, words.format, together)
}

/// What the tests of a project leave.
#[derive(Drop)]
struct Whole {
    text: String,
    junit: String,
    together: Together,
}

/// Runs, or lists, the tests of these workflows.
fn whole_of<R: Threads + Wait + Sync, G: Gate + Sync, F: Files>(
    rt: &R,
    gate: &G,
    alloc: Global,
    words: &TestAllWords<'_>,
    workflows: &[Workflow],
    quiet: bool,
    files: &mut F,
) -> Result<Whole, AllocError>
    ensures parts { IfOk result (λ w. (ps : List Added) × AreParts quiet words.now (file_use F.gives F.lacks files.old)
        (suites_in workflows.now) ps × (together_seen w.together ≡ together ps)) }
    ensures text { IfOk result (λ w. string_bytes w.text
        ≡ shown_all words.now.list words.now.format (together_seen w.together)) }
    ensures junit { IfOk result (λ w. string_bytes w.junit ≡ junit_suites (string_bytes w.together.junit)) }
{
    let suites = suites_in(alloc, workflows)?;
    let together = together_of(rt, gate, alloc, &*words, &suites, quiet, files)?;
    Ok(Whole {
        text: shown_of(alloc, words, &together)?,
        junit: junit_suites(alloc, together.junit.as_str())?,
        together,
    })
}

fn left_of<'a>(words: &TestAllWords<'a>, whole: &'a Whole) -> Left<'a>
    ensures { leaving_of result ≡ leaving_by words.now (string_bytes whole.now.text) (string_bytes whole.now.junit)
        (together_seen whole.now.together) }
{
    let together = &whole.together;
    Left {
        text: whole.text.as_str(),
        remarks: together.told.as_str(),
        status: together.status(),
        list: words.list,
        junit_file: words.junit,
        junit: whole.junit.as_str(),
        json_file: words.json,
        json: together.json.as_str(),
    }
}

/// The command `test` on a project: it is done for each file of tests of each workflow, and there is one report.
pub fn test_all<R: Threads + Wait + Sync, G: Gate + Sync, F: Files, K: Outputs, O: Sink, E: Sink>(
    rt: &R,
    gate: &G,
    alloc: Global,
    words: &TestAllWords<'_>,
    quiet: bool,
    files: &mut F,
    outputs: &mut K,
    out: &mut O,
    err: &mut E,
) -> u8
    ensures { AreAllTested (file_use F.gives F.lacks files.old) (output_use K.written outputs.old outputs.new)
        (io (sink_use O.taken O.failures out.old out.new)
        (sink_use E.taken E.failures err.old err.new) result) quiet words.now }
{
    match project_in(alloc, &words.project, files) {
        Ok(project) => {
            let workflows = project.workflows.as_slice();
            test_workflows(
                rt, gate, alloc, words, workflows, quiet, files, outputs, out, err,
            )
        }
        Err(refusal) => {
            refusal.write(alloc, quiet, err);
            REFUSED
        }
    }
}

/// The same of these workflows, which are those of the project.
fn test_workflows<R: Threads + Wait + Sync, G: Gate + Sync, F: Files, K: Outputs, O: Sink, E: Sink>(
    rt: &R,
    gate: &G,
    alloc: Global,
    words: &TestAllWords<'_>,
    workflows: &[Workflow],
    quiet: bool,
    files: &mut F,
    outputs: &mut K,
    out: &mut O,
    err: &mut E,
) -> u8
    ensures { ((ps : List Added) × AreParts quiet words.now (file_use F.gives F.lacks files.old) (suites_in workflows.now) ps
        × IsLeft (output_use K.written outputs.old outputs.new)
        (io (sink_use O.taken O.failures out.old out.new)
        (sink_use E.taken E.failures err.old err.new) result) quiet (leaving_all words.now ps))
        ⊎ (IsUnused (output_use K.written outputs.old outputs.new)
        × IsRefusedFor (io (sink_use O.taken O.failures out.old out.new)
        (sink_use E.taken E.failures err.old err.new) result) quiet (λ r. r ≡ OutOfMemory)) }
{
    match whole_of(rt, gate, alloc, words, workflows, quiet, files) {
        Ok(whole) => {
            let left = left_of(&*words, &whole);
            leave(alloc, quiet, &left, outputs, out, err)
        }
        Err(AllocError) => {
            CommandFault::OutOfMemory.write(alloc, quiet, err);
            REFUSED
        }
    }
}

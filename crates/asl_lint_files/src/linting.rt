// What is found in several files beside one another.
ghost use Rattle.std.specs.Prelude.{◌≡◌, Some, option_map, if◌then◌else◌, IfOk};
ghost use Rattle.std.specs.List.{All, list_any};
ghost use Rattle.asl_json.specs.View.{data_of};
ghost use Rattle.asl_lint.specs.Places.{IsAt};
ghost use Rattle.asl_lint_files.specs.Linted.{chosen, is_definition, is_mocks, is_other, mocks_beside, only, texts_of, AreAllLinted, AreMocksBeside, AreTestsBeside, Each, IsJudged, IsReported, IsTaken, IsValueOf};

use crate::judging::{lint_expectations, lint_input, lint_script, lint_steps, lint_unclear};
use crate::kinds::{Kind, Role, kind_in};
use asl_json::Json;
use asl_json_read::{JsonFault, read};
use asl_lint::{FileReport, Finding, Source, lint, lint_mocks};
use std::alloc::{AllocError, Global};

/// A file that is judged.
#[derive(Drop)]
pub struct LintFile<'a> {
    pub name: &'a str,
    pub text: Vec<u8>,
    /// What it is said to be; none where nothing is said.
    pub role: Option<Role>,
    /// What it is taken for where it doesn't show what it is; none for nothing.
    pub otherwise: Option<Role>,
}

/// A file, and what it is taken for.
#[derive(Clone, Copy)]
pub(crate) struct Taken<'a, 'b> {
    name: &'a str,
    text: &'b [u8],
    kind: Option<Kind>,
}

/// The files that others are judged beside, and the name of the machine that the definition is.
#[derive(Clone, Copy)]
struct Beside<'a> {
    definition: Option<&'a [u8]>,
    mocks: Option<&'a [u8]>,
    machine: Option<&'a str>,
}

/// What is found in some files.
#[derive(Drop)]
pub struct LintedFiles<'a> {
    pub files: Vec<FileReport<'a>>,
    /// Whether one of them is neither a definition nor a mock file.
    pub has_others: bool,
}

/// What a file is taken for, which shows that it is of this kind.
fn chosen(role: Option<Role>, shown: Option<Kind>, otherwise: Option<Role>) -> Option<Kind>
    ensures { result ≡ chosen role shown otherwise }
{
    match (role, shown, otherwise) {
        (Some(role), _, _) => Some(Kind::Ours(role)),
        (None, Some(kind), _) => Some(kind),
        (None, None, Some(role)) => Some(Kind::Ours(role)),
        (None, None, None) => None,
    }
}

/// A file with what it is taken for.
fn take_file<'a, 'b>(alloc: Global, file: &'b LintFile<'a>) -> Result<Taken<'a, 'b>, AllocError>
    ensures { IfOk result (IsTaken file.now) }
{
    let shown = kind_in(alloc, file.text.as_slice())?;
    Ok(Taken {
        name: file.name,
        text: file.text.as_slice(),
        kind: chosen(file.role, shown, file.otherwise),
    })
}

/// Each of these files with what it is taken for.
fn taken_all<'a, 'b>(
    alloc: Global,
    files: &'b [LintFile<'a>],
) -> Result<Vec<Taken<'a, 'b>>, AllocError>
    ensures { IfOk result (λ ts. Each IsTaken files.now ts.items) }
{
    let mut all = Vec::with_capacity(alloc, files.len())?;
    for file in files {
        all.push(take_file(alloc, file)?)?;
    }
    Ok(all)
}

fn is_definition(kind: Option<Kind>) -> bool
    ensures { result ≡ is_definition kind }
{
    matches!(kind, Some(Kind::Ours(Role::Definition)))
}

fn is_mocks(kind: Option<Kind>) -> bool
    ensures { result ≡ is_mocks kind }
{
    matches!(kind, Some(Kind::Ours(Role::Mocks)))
}

fn is_other(kind: Option<Kind>) -> bool
    ensures { result ≡ is_other kind }
{
    !matches!(kind, Some(Kind::Ours(Role::Definition | Role::Mocks)))
}

/// The text of the only definition, where there is exactly one.
fn only_definition<'b>(files: &[Taken<'_, 'b>]) -> Option<&'b [u8]>
    ensures { option_map (λ b. b.now) result ≡ only (texts_of is_definition files.now) }
{
    let mut found = None;
    for file in files {
        if is_definition(file.kind) {
            if found.is_some() {
                return None;
            }
            found = Some(file.text);
        }
    }
    found
}

/// The text of the only mock file, where there is exactly one.
fn only_mocks<'b>(files: &[Taken<'_, 'b>]) -> Option<&'b [u8]>
    ensures { option_map (λ b. b.now) result ≡ only (texts_of is_mocks files.now) }
{
    let mut found = None;
    for file in files {
        if is_mocks(file.kind) {
            if found.is_some() {
                return None;
            }
            found = Some(file.text);
        }
    }
    found
}

/// Whether one of these is neither.
fn has_other(files: &[Taken<'_, '_>]) -> bool
    ensures { result ≡ list_any (λ t. is_other t.kind) files.now }
{
    for file in files {
        if is_other(file.kind) {
            return true;
        }
    }
    false
}

/// The mock file that a definition stands beside.
fn mocks_beside<'a>(beside: &Beside<'a>) -> Option<&'a [u8]>
    ensures { option_map (λ b. b.now) result
        ≡ mocks_beside (option_map (λ b. b.now) beside.now.definition)
        (option_map (λ b. b.now) beside.now.mocks) }
{
    match beside.definition {
        Some(_) => beside.mocks,
        None => None,
    }
}

/// What is found in a definition.
fn lint_definition(
    alloc: Global,
    beside: &Beside<'_>,
    text: &[u8],
) -> Result<Vec<Finding>, AllocError>
    ensures at { IfOk result (λ fs. All (IsAt text.now) fs.items) }
    ensures judged { IfOk result (λ fs. IsJudged (option_map (λ k. k.now) beside.now.machine)
        (option_map (λ b. b.now) beside.now.definition) (option_map (λ b. b.now) beside.now.mocks)
        (Some (Kind.Ours Role.Definition)) text.now fs.items) }
{
    let source = Source {
        definition: text,
        mocks: mocks_beside(beside),
        machine: beside.machine,
    };
    let report = lint(alloc, &source)?;
    Ok(report.definition)
}

/// What is found in a mock file.
fn lint_mock_file(
    alloc: Global,
    beside: &Beside<'_>,
    text: &[u8],
) -> Result<Vec<Finding>, AllocError>
    ensures at { IfOk result (λ fs. All (IsAt text.now) fs.items) }
    ensures judged { IfOk result (λ fs. AreMocksBeside (option_map (λ k. k.now) beside.now.machine)
        (option_map (λ b. b.now) beside.now.definition) text.now fs.items) }
{
    let Some(definition) = beside.definition else {
        return lint_mocks(alloc, text, beside.machine);
    };
    let source = Source {
        definition,
        mocks: Some(text),
        machine: beside.machine,
    };
    let report = lint(alloc, &source)?;
    Ok(report.mocks)
}

/// The value of a text, where there is one that is JSON.
fn value_of(alloc: Global, text: Option<&[u8]>) -> Result<Option<Json>, AllocError>
    ensures { IfOk result (λ o. IsValueOf (option_map (λ b. b.now) text.entry) (option_map data_of o)) }
{
    let Some(text) = text else {
        return Ok(None);
    };
    match read(alloc, text) {
        Ok(value) => Ok(Some(value)),
        Err(JsonFault::OutOfMemory) => Err(AllocError),
        Err(_) => Ok(None),
    }
}

/// What is found in an expectation file.
fn lint_tests(alloc: Global, beside: &Beside<'_>, text: &[u8]) -> Result<Vec<Finding>, AllocError>
    ensures at { IfOk result (λ fs. All (IsAt text.now) fs.items) }
    ensures judged { IfOk result (λ fs. AreTestsBeside (option_map (λ b. b.now) beside.now.mocks)
        text.now fs.items) }
{
    let mocks = value_of(alloc, beside.mocks)?;
    let findings = lint_expectations(alloc, text, mocks.as_ref())?;
    Ok(findings)
}

/// What is found in a file.
fn judged(
    alloc: Global,
    beside: &Beside<'_>,
    file: &Taken<'_, '_>,
) -> Result<Vec<Finding>, AllocError>
    ensures at { IfOk result (λ fs. All (IsAt file.now.text.now) fs.items) }
    ensures judged { IfOk result (λ fs. IsJudged (option_map (λ k. k.now) beside.now.machine)
        (option_map (λ b. b.now) beside.now.definition) (option_map (λ b. b.now) beside.now.mocks)
        file.now.kind file.now.text.now fs.items) }
{
    match file.kind {
        Some(Kind::Ours(Role::Definition)) => lint_definition(alloc, beside, file.text),
        Some(Kind::Ours(Role::Mocks)) => lint_mock_file(alloc, beside, file.text),
        Some(Kind::Ours(Role::Expectations)) => lint_tests(alloc, beside, file.text),
        Some(Kind::Ours(Role::Steps)) => lint_steps(alloc, file.text),
        Some(Kind::Ours(Role::Script)) => lint_script(alloc, file.text),
        Some(Kind::Ours(Role::Input)) => lint_input(alloc, file.text),
        kind => lint_unclear(alloc, file.text, kind),
    }
}

/// What is told of a file.
fn reported<'a>(
    alloc: Global,
    beside: &Beside<'_>,
    file: &Taken<'a, '_>,
) -> Result<FileReport<'a>, AllocError>
    ensures { IfOk result (IsReported (option_map (λ k. k.now) beside.now.machine)
        (option_map (λ b. b.now) beside.now.definition) (option_map (λ b. b.now) beside.now.mocks)
        file.now) }
{
    Ok(FileReport {
        name: file.name,
        findings: judged(alloc, beside, file)?,
    })
}

/// What is told of each of these files.
fn reported_all<'a>(
    alloc: Global,
    beside: &Beside<'_>,
    files: &[Taken<'a, '_>],
) -> Result<Vec<FileReport<'a>>, AllocError>
    ensures { IfOk result (λ rs. Each (IsReported (option_map (λ k. k.now) beside.now.machine)
        (option_map (λ b. b.now) beside.now.definition) (option_map (λ b. b.now) beside.now.mocks))
        files.now rs.items) }
{
    let mut all = Vec::with_capacity(alloc, files.len())?;
    for file in files {
        all.push(reported(alloc, beside, file)?)?;
    }
    Ok(all)
}

/// Everything that is wrong or suspicious in these files: a mock file is judged beside the only definition, and a definition and an expectation file beside the
/// only mock file, of which the machine of this name is meant, or the only one. The error is that memory ran out.
pub fn lint_files<'a>(
    alloc: Global,
    machine: Option<&str>,
    files: &[LintFile<'a>],
) -> Result<LintedFiles<'a>, AllocError>
    ensures { IfOk result (λ l. AreAllLinted (option_map (λ k. k.now) machine.entry) files.now
        l.files.items l.has_others) }
{
    let taken = taken_all(alloc, files)?;
    let beside = Beside {
        definition: only_definition(&taken),
        mocks: only_mocks(&taken),
        machine,
    };
    let has_others = has_other(&taken);
    let files = reported_all(alloc, &beside, &taken)?;
    Ok(LintedFiles { files, has_others })
}

// The command `lint`.
ghost use Rattle.std.specs.Prelude.{◌≡◌, ◌∷◌, ◌++◌, [], map, option_map, IfOk, IfErr, OnOk, List, ℕ, string_bytes};
ghost use Rattle.std.specs.List.{list_any};
ghost use Rattle.std.specs.Str.{bytes_eq};
ghost use Rattle.asl_host.specs.Outcomes.{sink_use, status_of, IsPrinted};
ghost use Rattle.asl_host.specs.declared.files.Unreadable.{Unreadable};
ghost use Rattle.asl_lint_files.specs.Linted.{Each};
ghost use Rattle.asl_arguments.specs.Given.{said_all};
ghost use Rattle.asl_cli.specs.Streams.{file_system, io};
ghost use Rattle.asl_cli.specs.Linting.{by_place, heeded, is_file_mark, is_file_name, is_ignored, machine_in, names_machine, plain_names, role_file, rules_in, seen, text_in, wanted_in, words_from, IsHeeded, IsJudged, IsLintOf, IsLinted, IsLintedBut, IsMannerOf, IsReadAs, IsTold};
ghost use Rattle.asl_cli.specs.Faults.{AreUnread};

use crate::command::{FAILED, GOOD, REFUSED};
use crate::fault::CommandFault;
use crate::reading::read_file;
use asl_arguments::Lists;
use asl_history::Sink;
use asl_host::{Files, write_piece};
use asl_json::Txt;
use asl_lint::{FileReport, Finding, github, gitlab, is_good, json, sarif, text};
use asl_lint_files::{LintFile, LintedFiles, Role};
use asl_words::{LintFormat, LintWords};
use std::alloc::{AllocError, Global};

/// What is printed, and whether nothing is wrong.
#[derive(Drop)]
pub struct Linted {
    pub text: String,
    pub good: bool,
}

/// A file that is to be judged.
#[derive(Clone, Copy)]
pub(crate) struct Wanted<'a> {
    pub(crate) name: &'a str,
    /// What it is said to be; none where nothing is said.
    pub(crate) role: Option<Role>,
    /// What it is taken for where it doesn't show what it is; none for nothing.
    pub(crate) otherwise: Option<Role>,
}

/// How files are judged, and how what is found is told.
#[derive(Clone, Copy)]
pub(crate) struct Manner<'a> {
    /// The name of the machine in the mock file; none where that has only one.
    pub(crate) machine: Option<&'a str>,
    pub(crate) format: LintFormat,
    /// Whether warnings count as errors.
    pub(crate) strict: bool,
}

/// The rules whose warnings aren't told: those that a workflow of a project ignores, and those that the command line names.
#[derive(Clone, Copy)]
pub(crate) struct Ignored<'a> {
    pub(crate) of_workflow: &'a [Txt],
    pub(crate) named: &'a [&'a str],
}

/// The command `lint`: prints everything that is wrong or suspicious in files, without the warnings of rules that are ignored.
pub fn lint<F: Files, O: Sink, E: Sink>(
    alloc: Global,
    words: &LintWords<'_>,
    lists: &Lists<'_>,
    quiet: bool,
    files: &mut F,
    out: &mut O,
    err: &mut E,
) -> u8
    ensures { IsLinted (file_system (F.gives files.old) (F.lacks files.old))
        (io (sink_use O.taken O.failures out.old out.new)
        (sink_use E.taken E.failures err.old err.new) result) quiet words.now lists.now }
{
    let names = lists.files.as_slice();
    match wanted_of(alloc, words, names) {
        Ok(wanted) => {
            let manner = manner_of(words, names);
            let ignored = Ignored {
                of_workflow: &[],
                named: lists.ignored.as_slice(),
            };
            lint_but(alloc, &wanted, &manner, &ignored, quiet, files, out, err)
        }
        Err(AllocError) => {
            CommandFault::OutOfMemory.write(alloc, quiet, err);
            REFUSED
        }
    }
}

/// Judges these files, without the warnings of rules that are ignored.
pub(crate) fn lint_but<F: Files, O: Sink, E: Sink>(
    alloc: Global,
    wanted: &[Wanted<'_>],
    manner: &Manner<'_>,
    ignored: &Ignored<'_>,
    quiet: bool,
    files: &mut F,
    out: &mut O,
    err: &mut E,
) -> u8
    ensures { IsLintedBut (rules_in ignored.now) (file_system (F.gives files.old) (F.lacks files.old))
        (io (sink_use O.taken O.failures out.old out.new)
        (sink_use E.taken E.failures err.old err.new) result) quiet manner.now (map seen wanted.now) }
{
    match lint_wanted(alloc, wanted, manner, ignored, files) {
        Ok(linted) => print_linted(&linted, out),
        Err(refusal) => {
            refusal.write(alloc, quiet, err);
            REFUSED
        }
    }
}

// ---- what is named

/// Whether a word may be the name of a file: it has a dot, a slash or what a JSON text begins with, or is that of standard input.
fn is_file_name(word: &str) -> bool
    ensures { result ≡ is_file_name word.now }
{
    word == "-" || has_mark(word.as_bytes())
}

fn has_mark(bytes: &[u8]) -> bool
    ensures { result ≡ list_any is_file_mark bytes.now }
{
    for byte in bytes {
        if matches!(*byte, b'.' | b'/' | b'{' | b'[' | b'"') {
            return true;
        }
    }
    false
}

/// Whether the last of three words is the name of the machine.
fn names_machine(words: &LintWords<'_>, names: &[&str]) -> bool
    ensures { result ≡ names_machine words.now (map (λ n. n.now) names.now) }
{
    match names {
        [_, _, last] => words.machine.is_none() && !is_file_name(*last),
        _ => false,
    }
}

/// The words that are names of files.
fn plain_names<'a, 'b>(words: &LintWords<'_>, names: &'b [&'a str]) -> &'b [&'a str]
    ensures { map (λ n. n.now) result.now ≡ plain_names words.now (map (λ n. n.now) names.now) }
{
    match names {
        [_, _, _] if names_machine(words, names) => &names[..2],
        _ => names,
    }
}

/// The name of the machine.
fn machine_in<'a>(words: &LintWords<'a>, names: &[&'a str]) -> Option<&'a str>
    ensures { option_map (λ k. k.now) result ≡ machine_in words.now (map (λ n. n.now) names.now) }
{
    match names {
        [_, _, last] if names_machine(words, names) => Some(*last),
        _ => words.machine,
    }
}

fn manner_of<'a>(words: &LintWords<'a>, names: &[&'a str]) -> Manner<'a>
    ensures { IsMannerOf words.now (map (λ n. n.now) names.now) result }
{
    Manner {
        machine: machine_in(words, names),
        format: words.format,
        strict: words.strict,
    }
}

/// What the file of this number is taken for where it doesn't show what it is.
fn by_place(number: usize) -> Option<Role>
    ensures { result ≡ by_place number }
{
    match number {
        0 => Some(Role::Definition),
        1 => Some(Role::Mocks),
        _ => None,
    }
}

/// The files that stand one after another.
fn words_of<'a>(alloc: Global, names: &[&'a str]) -> Result<Vec<Wanted<'a>>, AllocError>
    ensures { IfOk result (λ ws. map seen ws.items ≡ words_from 0 (map (λ n. n.now) names.now)) }
{
    let mut all = Vec::with_capacity(alloc, names.len())?;
    for (number, name) in names.iter().enumerate() {
        all.push(Wanted {
            name: *name,
            role: None,
            otherwise: by_place(number),
        })?;
    }
    Ok(all)
}

/// Adds a file of which it is said what it is, where one is named.
fn add_role<'a>(
    all: &mut Vec<Wanted<'a>>,
    name: Option<&'a str>,
    role: Role,
) -> Result<(), AllocError>
    ensures { OnOk result (map seen all.new.items ≡ map seen all.old.items
        ++ role_file role (option_map (λ n. n.now) name.entry)) }
{
    let Some(name) = name else {
        return Ok(());
    };
    all.push(Wanted {
        name,
        role: Some(role),
        otherwise: None,
    })?;
    Ok(())
}

/// The files that the words name.
fn wanted_of<'a>(
    alloc: Global,
    words: &LintWords<'a>,
    names: &[&'a str],
) -> Result<Vec<Wanted<'a>>, AllocError>
    ensures { IfOk result (λ ws. map seen ws.items ≡ wanted_in words.now (map (λ n. n.now) names.now)) }
{
    let mut all = words_of(alloc, plain_names(words, names))?;
    add_role(&mut all, words.mocks, Role::Mocks)?;
    add_role(&mut all, words.expectations, Role::Expectations)?;
    add_role(&mut all, words.input, Role::Input)?;
    add_role(&mut all, words.steps, Role::Steps)?;
    add_role(&mut all, words.script, Role::Script)?;
    Ok(all)
}

// ---- what is found

/// Reads the files, in their order.
fn read_wanted<'a, F: Files>(
    alloc: Global,
    wanted: &[Wanted<'a>],
    files: &mut F,
) -> Result<Vec<LintFile<'a>>, CommandFault<'a>>
    ensures given { IfOk result (λ fs. Each (IsReadAs (F.gives files.old)) (map seen wanted.now) fs.items) }
    ensures unread { IfErr result (AreUnread (F.gives files.old) (F.lacks files.old)
        (map (λ w. w.0) (map seen wanted.now))) }
{
    let mut all = Vec::new(alloc);
    for one in wanted {
        let text = read_file(alloc, files, one.name)?;
        let file = LintFile {
            name: one.name,
            text,
            role: one.role,
            otherwise: one.otherwise,
        };
        add_file(&mut all, file)?;
    }
    Ok(all)
}

/// Adds a file behind these. The error is that memory ran out.
fn add_file<'a>(all: &mut Vec<LintFile<'a>>, file: LintFile<'a>) -> Result<(), AllocError>
    ensures { OnOk result (all.new.items ≡ all.old.items ++ file.entry ∷ []) }
{
    all.push(file)?;
    Ok(())
}

/// Reads the files and judges what they hold.
fn lint_wanted<'a, F: Files>(
    alloc: Global,
    wanted: &[Wanted<'a>],
    manner: &Manner<'_>,
    ignored: &Ignored<'_>,
    files: &mut F,
) -> Result<Linted, CommandFault<'a>>
    ensures linted { IfOk result (IsLintOf (F.gives files.old) manner.now (rules_in ignored.now) (map seen wanted.now)) }
    ensures unread { IfErr result (AreUnread (F.gives files.old) (F.lacks files.old)
        (map (λ w. w.0) (map seen wanted.now))) }
{
    let read = read_wanted(alloc, wanted, files)?;
    match lint_read(alloc, manner, ignored, &read) {
        Ok(linted) => Ok(linted),
        Err(AllocError) => Err(CommandFault::OutOfMemory),
    }
}

/// Judges what was read.
fn lint_read(
    alloc: Global,
    manner: &Manner<'_>,
    ignored: &Ignored<'_>,
    read: &[LintFile<'_>],
) -> Result<Linted, AllocError>
    ensures { IfOk result (IsJudged manner.now (rules_in ignored.now) read.now) }
{
    let LintedFiles { files, has_others } = asl_lint_files::lint_files(
        alloc,
        manner.machine,
        read,
    )?;
    let left = heeded_all(alloc, ignored, files)?;
    told(alloc, manner, has_others, &left)
}

/// What is printed of these, and whether nothing is wrong.
fn told(
    alloc: Global,
    manner: &Manner<'_>,
    has_others: bool,
    files: &[FileReport<'_>],
) -> Result<Linted, AllocError>
    ensures { IfOk result (IsTold manner.now has_others files.now) }
{
    let good = is_good(files, manner.strict);
    let text = text_of(alloc, manner.format, has_others, files)?;
    Ok(Linted { text, good })
}

/// What is found, without the warnings of rules that are ignored. The error is that memory ran out.
fn heeded_all<'a>(
    alloc: Global,
    ignored: &Ignored<'_>,
    files: Vec<FileReport<'a>>,
) -> Result<Vec<FileReport<'a>>, AllocError>
    ensures { IfOk result (λ left. Each (IsHeeded (rules_in ignored.now)) files.entry.items left.items) }
{
    let mut all = Vec::with_capacity(alloc, files.len())?;
    for file in files {
        all.push(heeded_file(alloc, ignored, file)?)?;
    }
    Ok(all)
}

fn heeded_file<'a>(
    alloc: Global,
    ignored: &Ignored<'_>,
    file: FileReport<'a>,
) -> Result<FileReport<'a>, AllocError>
    ensures { IfOk result (IsHeeded (rules_in ignored.now) file.entry) }
{
    let FileReport { name, findings } = file;
    Ok(FileReport {
        name,
        findings: heeded_of(alloc, ignored, findings)?,
    })
}

fn heeded_of(
    alloc: Global,
    ignored: &Ignored<'_>,
    findings: Vec<Finding>,
) -> Result<Vec<Finding>, AllocError>
    ensures { IfOk result (λ v. v.items ≡ heeded (rules_in ignored.now) findings.items) }
{
    let mut kept = Vec::new(alloc);
    for finding in findings {
        if !is_ignored(ignored, &finding) {
            kept.push(finding)?;
        }
    }
    Ok(kept)
}

/// Whether a finding is a warning of one of these rules.
fn is_ignored(ignored: &Ignored<'_>, finding: &Finding) -> bool
    ensures { result ≡ is_ignored (rules_in ignored.now) finding.now }
{
    !finding.rule.is_error() && is_any(ignored, finding.rule.name())
}

/// Whether a rule of this name is one of them.
fn is_any(ignored: &Ignored<'_>, name: &str) -> bool
    ensures { result ≡ list_any (λ r. bytes_eq r name.now) (rules_in ignored.now) }
{
    is_among(ignored.of_workflow, name) || is_named(ignored.named, name)
}

fn is_among(rules: &[Txt], name: &str) -> bool
    ensures { result ≡ list_any (λ r. bytes_eq r name.now) rules.now }
{
    for rule in rules {
        if rule.as_str() == name {
            return true;
        }
    }
    false
}

fn is_named(rules: &[&str], name: &str) -> bool
    ensures { result ≡ list_any (λ r. bytes_eq r name.now) (said_all rules.now) }
{
    for rule in rules {
        if *rule == name {
            return true;
        }
    }
    false
}

/// The findings in the format that is asked for.
fn text_of(
    alloc: Global,
    format: LintFormat,
    has_others: bool,
    files: &[FileReport<'_>],
) -> Result<String, AllocError>
    ensures { IfOk result (λ t. string_bytes t ≡ text_in format has_others files.now) }
{
    match format {
        LintFormat::Text => text(alloc, files),
        LintFormat::Json => json(alloc, files),
        LintFormat::Sarif => sarif(alloc, has_others, files),
        LintFormat::Github => github(alloc, files),
        LintFormat::Gitlab => gitlab(alloc, files),
    }
}

/// Prints what was found, and tells whether nothing is wrong.
fn print_linted<O: Sink>(linted: &Linted, out: &mut O) -> u8
    ensures { IsPrinted (sink_use O.taken O.failures out.old out.new) (string_bytes linted.now.text)
        (status_of linted.now.good) result }
{
    match write_piece(out, linted.text.as_str()) {
        Ok(()) if linted.good => GOOD,
        Ok(()) => FAILED,
        Err(_) => REFUSED,
    }
}

// The workflows of a project: what is done for each, one after another.
ghost use Rattle.std.specs.Prelude.{◌≡◌, ℕ, List, max, option_map, Some, None, IfOk, IfErr};
ghost use Rattle.asl_host.specs.Outcomes.{sink_use};
ghost use Rattle.asl_cli.specs.Streams.{file_use, file_system, io};
ghost use Rattle.asl_host.specs.declared.files.Unreadable.{Unreadable};
ghost use Rattle.asl_cli.specs.Choices.{project_name, IsProjectIn, IsProjectReason};
ghost use Rattle.asl_cli.specs.Projects.{AreDone, IsWorkflowChecked, AreAllChecked, IsWorkflowLinted, AreAllLinted};
ghost use Rattle.asl_cli.specs.Linting.{seen};

use crate::checking::check;
use crate::command::{GOOD, REFUSED};
use crate::fault::CommandFault;
use crate::linting::{Ignored, Manner, Wanted, lint_but};
use crate::mending::of_project;
use crate::reading::read_file;
use asl_arguments::Lists;
use asl_history::Sink;
use asl_host::Files;
use asl_json::Txt;
use asl_lint_files::Role;
use asl_project::{Project, ProjectFault, Workflow};
use asl_words::{DefinitionWords, LintAllWords, ProjectWords};
use std::alloc::{AllocError, Global};

/// The name of the project's file.
pub(crate) fn name_of<'a>(words: &ProjectWords<'a>) -> &'a str
    ensures { result.now ≡ project_name words.now }
{
    match words.project {
        Some(name) => name,
        None => "asl.toml",
    }
}

/// Reads the project.
pub(crate) fn project_in<'a, F: Files>(
    alloc: Global,
    words: &ProjectWords<'_>,
    files: &mut F,
) -> Result<Project, CommandFault<'a>>
    ensures read { IfOk result (λ p. IsProjectIn (F.gives files.old) words.now p.workflows.items) }
    ensures kept { (n b : List ℕ) → F.gives files.new n b → F.gives files.old n b }
    ensures lacking { (n : List ℕ) (u : Unreadable) → F.lacks files.new n u
        → F.lacks files.old n u }
    ensures refused { IfErr result
        (IsProjectReason (file_system (F.gives files.old) (F.lacks files.old)) words.now) }
{
    let name = name_of(words);
    let text = read_file(alloc, files, name)?;
    match Project::read(alloc, name, text.as_slice()) {
        Ok(project) => Ok(project),
        Err(ProjectFault::OutOfMemory) => Err(CommandFault::OutOfMemory),
        Err(fault) => match of_project(alloc, name, &fault) {
            Ok(lines) => Err(CommandFault::Project(fault, lines)),
            Err(AllocError) => Err(CommandFault::OutOfMemory),
        },
    }
}

/// The higher of two statuses.
pub(crate) fn highest(one: u8, other: u8) -> u8
    ensures { result ≡ max one other }
{
    if one < other { other } else { one }
}

/// The command `check` on a project: it is done for the definition of each workflow.
pub fn check_all<F: Files, O: Sink, E: Sink>(
    alloc: Global,
    words: &ProjectWords<'_>,
    quiet: bool,
    files: &mut F,
    out: &mut O,
    err: &mut E,
) -> u8
    ensures { AreAllChecked (file_use F.gives F.lacks files.old)
        (io (sink_use O.taken O.failures out.old out.new)
        (sink_use E.taken E.failures err.old err.new) result) quiet words.now }
{
    match project_in(alloc, words, files) {
        Ok(project) => check_each(alloc, project.workflows.as_slice(), quiet, files, out, err),
        Err(refusal) => {
            refusal.write(alloc, quiet, err);
            REFUSED
        }
    }
}

fn check_each<F: Files, O: Sink, E: Sink>(
    alloc: Global,
    workflows: &[Workflow],
    quiet: bool,
    files: &mut F,
    out: &mut O,
    err: &mut E,
) -> u8
    ensures { AreDone (IsWorkflowChecked quiet) (file_use F.gives F.lacks files.old)
        (io (sink_use O.taken O.failures out.old out.new)
        (sink_use E.taken E.failures err.old err.new) result) workflows.now }
{
    let mut status = GOOD;
    for workflow in workflows {
        status = highest(status, check_one(alloc, workflow, quiet, files, out, err));
    }
    status
}

fn check_one<F: Files, O: Sink, E: Sink>(
    alloc: Global,
    workflow: &Workflow,
    quiet: bool,
    files: &mut F,
    out: &mut O,
    err: &mut E,
) -> u8
    ensures { IsWorkflowChecked quiet (file_use F.gives F.lacks files.old)
        (io (sink_use O.taken O.failures out.old out.new)
        (sink_use E.taken E.failures err.old err.new) result) workflow.now }
{
    let words = DefinitionWords {
        definition: workflow.definition.as_str(),
    };
    check(alloc, &words, quiet, files, out, err)
}

/// The command `lint` on a project: it is done for the definition and the mock file of each workflow, without the warnings of the rules that
/// it ignores, and of those that are named.
pub fn lint_all<F: Files, O: Sink, E: Sink>(
    alloc: Global,
    words: &LintAllWords<'_>,
    lists: &Lists<'_>,
    quiet: bool,
    files: &mut F,
    out: &mut O,
    err: &mut E,
) -> u8
    ensures { AreAllLinted (file_use F.gives F.lacks files.old)
        (io (sink_use O.taken O.failures out.old out.new)
        (sink_use E.taken E.failures err.old err.new) result) quiet words.now lists.now }
{
    match project_in(alloc, &words.project, files) {
        Ok(project) => lint_each(
            alloc,
            words,
            lists,
            project.workflows.as_slice(),
            quiet,
            files,
            out,
            err,
        ),
        Err(refusal) => {
            refusal.write(alloc, quiet, err);
            REFUSED
        }
    }
}

fn lint_each<F: Files, O: Sink, E: Sink>(
    alloc: Global,
    words: &LintAllWords<'_>,
    lists: &Lists<'_>,
    workflows: &[Workflow],
    quiet: bool,
    files: &mut F,
    out: &mut O,
    err: &mut E,
) -> u8
    ensures { AreDone (IsWorkflowLinted quiet words.now lists.now) (file_use F.gives F.lacks files.old)
        (io (sink_use O.taken O.failures out.old out.new)
        (sink_use E.taken E.failures err.old err.new) result) workflows.now }
{
    let mut status = GOOD;
    for workflow in workflows {
        status = highest(
            status,
            lint_one(alloc, &*words, lists, workflow, quiet, files, out, err),
        );
    }
    status
}

fn lint_one<'a, F: Files, O: Sink, E: Sink>(
    alloc: Global,
    words: &LintAllWords<'a>,
    lists: &Lists<'_>,
    workflow: &'a Workflow,
    quiet: bool,
    files: &mut F,
    out: &mut O,
    err: &mut E,
) -> u8
    ensures { IsWorkflowLinted quiet words.now lists.now (file_use F.gives F.lacks files.old)
        (io (sink_use O.taken O.failures out.old out.new)
        (sink_use E.taken E.failures err.old err.new) result) workflow.now }
{
    let manner = Manner {
        machine: text_of(&workflow.machine),
        format: words.format,
        strict: words.strict,
    };
    let ignored = Ignored {
        of_workflow: workflow.ignore.names(),
        named: lists.ignored.as_slice(),
    };
    let definition = wanted_as(workflow.definition.as_str(), Role::Definition);
    match text_of(&workflow.mocks) {
        Some(mocks) => {
            let both = [definition, wanted_as(mocks, Role::Mocks)];
            lint_but(alloc, &both, &manner, &ignored, quiet, files, out, err)
        }
        None => {
            let one = [definition];
            lint_but(alloc, &one, &manner, &ignored, quiet, files, out, err)
        }
    }
}

/// A file of which it is said what it is.
fn wanted_as<'a>(name: &'a str, role: Role) -> Wanted<'a>
    ensures { seen result ≡ (name.entry.now, Some role, None) }
{
    Wanted {
        name,
        role: Some(role),
        otherwise: None,
    }
}

pub(crate) fn text_of(name: &Option<Txt>) -> Option<&str>
    ensures { option_map (λ n. n.now) result ≡ name.now }
{
    match name {
        Some(name) => Some(name.as_str()),
        None => None,
    }
}

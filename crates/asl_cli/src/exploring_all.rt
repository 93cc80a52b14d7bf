// The command `explore` on a project: every order of each test case of its workflows.
ghost use Rattle.std.specs.Prelude.{◌≡◌, ◌++◌, IfOk, Some, None, option_map, string_bytes};
ghost use Rattle.asl_explore.specs.Reports.{is_good};
ghost use Rattle.asl_host.specs.Outcomes.{sink_use};
ghost use Rattle.asl_cli.specs.Streams.{file_use, file_system, io};
ghost use Rattle.asl_cli.specs.Exploring.{AreTextsShown};
ghost use Rattle.asl_cli.specs.Projects.{AreDone};
ghost use Rattle.asl_cli.specs.ExploringAll.{AreAllExplored, AreChosenOf, IsCaseExplored, IsCaseShown, IsExploredBy, IsWordsOf, IsWorkflowExplored, case_text, input_of};

use crate::cases::{alone, choices_in};
use crate::command::{GOOD, REFUSED};
use crate::exploring::{Searched, explore_files, print_all};
use crate::fault::CommandFault;
use crate::noting::tell_notes;
use crate::projects::{highest, project_in, text_of};
use crate::reading::read_file;
use asl_explore::{Explored, Watch, is_good, put_explored};
use asl_history::Sink;
use asl_host::{Files, tell_fault};
use asl_json::Txt;
use asl_json_write::put_quoted;
use asl_project::Workflow;
use asl_words::{Begin, ExploreAllWords, ExploreWords, SetupWords, WitnessFormat};
use std::alloc::{AllocError, Global};

/// The command `explore` on a project: it is done for each test case of each workflow that has a mock file.
pub fn explore_all<W: Watch, F: Files, O: Sink, E: Sink>(
    watch: &W,
    alloc: Global,
    words: &ExploreAllWords<'_>,
    quiet: bool,
    files: &mut F,
    out: &mut O,
    err: &mut E,
) -> u8
    ensures { AreAllExplored (file_use F.gives F.lacks files.old)
        (io (sink_use O.taken O.failures out.old out.new)
        (sink_use E.taken E.failures err.old err.new) result) quiet words.now }
{
    match project_in(alloc, &words.project, files) {
        Ok(project) => explore_each(
            watch,
            alloc,
            words,
            project.workflows.as_slice(),
            quiet,
            files,
            out,
            err,
        ),
        Err(refusal) => {
            refusal.write(alloc, quiet, err);
            REFUSED
        }
    }
}

fn explore_each<W: Watch, F: Files, O: Sink, E: Sink>(
    watch: &W,
    alloc: Global,
    words: &ExploreAllWords<'_>,
    workflows: &[Workflow],
    quiet: bool,
    files: &mut F,
    out: &mut O,
    err: &mut E,
) -> u8
    ensures { AreDone (IsWorkflowExplored quiet words.now) (file_use F.gives F.lacks files.old)
        (io (sink_use O.taken O.failures out.old out.new)
        (sink_use E.taken E.failures err.old err.new) result) workflows.now }
{
    let mut status = GOOD;
    for workflow in workflows {
        status = highest(
            status,
            explore_workflow(watch, alloc, words, workflow, quiet, files, out, err),
        );
    }
    status
}

fn explore_workflow<W: Watch, F: Files, O: Sink, E: Sink>(
    watch: &W,
    alloc: Global,
    words: &ExploreAllWords<'_>,
    workflow: &Workflow,
    quiet: bool,
    files: &mut F,
    out: &mut O,
    err: &mut E,
) -> u8
    ensures { IsWorkflowExplored quiet words.now (file_use F.gives F.lacks files.old)
        (io (sink_use O.taken O.failures out.old out.new)
        (sink_use E.taken E.failures err.old err.new) result) workflow.now }
{
    match &workflow.mocks {
        Some(mocks) => {
            let mocks = mocks.as_str();
            explore_by(watch, alloc, words, workflow, mocks, quiet, files, out, err)
        }
        None => GOOD,
    }
}

/// What is chosen of a workflow with this mock file, one after another. The error is that memory ran out.
fn chosen_of<F: Files>(
    alloc: Global,
    workflow: &Workflow,
    mocks: &str,
    files: &mut F,
) -> Result<Vec<Txt>, AllocError>
    ensures { IfOk result (λ v. AreChosenOf (file_system (F.gives files.old) (F.lacks files.old)) workflow.now mocks.now v.items) }
{
    match read_file(alloc, files, mocks) {
        Ok(text) => choices_in(alloc, text_of(&workflow.machine), text.as_slice()),
        Err(CommandFault::File(_, _)) => alone(alloc, text_of(&workflow.machine)),
        Err(_) => Err(AllocError),
    }
}

fn explore_by<W: Watch, F: Files, O: Sink, E: Sink>(
    watch: &W,
    alloc: Global,
    words: &ExploreAllWords<'_>,
    workflow: &Workflow,
    mocks: &str,
    quiet: bool,
    files: &mut F,
    out: &mut O,
    err: &mut E,
) -> u8
    ensures { IsExploredBy quiet words.now (file_use F.gives F.lacks files.old)
        (io (sink_use O.taken O.failures out.old out.new)
        (sink_use E.taken E.failures err.old err.new) result) workflow.now (Some mocks.now) }
{
    match chosen_of(alloc, workflow, mocks, files) {
        Ok(chosen) => explore_cases(
            watch, alloc, words, workflow, mocks, &chosen, quiet, files, out, err,
        ),
        Err(AllocError) => {
            tell_fault(err, "OutOfMemory");
            REFUSED
        }
    }
}

fn explore_cases<W: Watch, F: Files, O: Sink, E: Sink>(
    watch: &W,
    alloc: Global,
    words: &ExploreAllWords<'_>,
    workflow: &Workflow,
    mocks: &str,
    chosen: &[Txt],
    quiet: bool,
    files: &mut F,
    out: &mut O,
    err: &mut E,
) -> u8
    ensures { AreDone (IsCaseExplored quiet words.now workflow.now mocks.now) (file_use F.gives F.lacks files.old)
        (io (sink_use O.taken O.failures out.old out.new)
        (sink_use E.taken E.failures err.old err.new) result) chosen.now }
{
    let mut status = GOOD;
    for one in chosen {
        status = highest(
            status,
            explore_one(
                watch, alloc, words, workflow, mocks, one, quiet, files, out, err,
            ),
        );
    }
    status
}

/// The input of an execution of a workflow: an empty object where none is named.
fn input_of(workflow: &Workflow) -> &str
    ensures { result.now ≡ input_of workflow.now }
{
    match &workflow.input {
        Some(input) => input.as_str(),
        None => "{}",
    }
}

/// The words of `explore` for what is chosen of a workflow.
fn words_of<'a>(
    words: &ExploreAllWords<'_>,
    workflow: &'a Workflow,
    mocks: &'a str,
    chosen: &'a str,
) -> ExploreWords<'a>
    ensures { IsWordsOf words.now workflow.entry.now mocks.entry.now chosen.entry.now result }
{
    let begin = Begin::Files(SetupWords {
        definition: workflow.definition.as_str(),
        mocks,
        chosen,
        input: input_of(workflow),
    });
    ExploreWords {
        begin,
        limit: words.limit,
        prompt: words.prompt,
        calls: words.calls,
        witness: None,
        format: WitnessFormat::Steps,
        coloured: false,
    }
}

fn explore_one<W: Watch, F: Files, O: Sink, E: Sink>(
    watch: &W,
    alloc: Global,
    words: &ExploreAllWords<'_>,
    workflow: &Workflow,
    mocks: &str,
    chosen: &Txt,
    quiet: bool,
    files: &mut F,
    out: &mut O,
    err: &mut E,
) -> u8
    ensures { IsCaseExplored quiet words.now workflow.now mocks.now (file_use F.gives F.lacks files.old)
        (io (sink_use O.taken O.failures out.old out.new)
        (sink_use E.taken E.failures err.old err.new) result) chosen.now }
{
    let chosen = chosen.as_str();
    let words = words_of(words, workflow, mocks, chosen);
    explore_case(watch, alloc, &words, chosen, quiet, files, out, err)
}

/// Explores what is chosen by one word.
fn explore_case<W: Watch, F: Files, O: Sink, E: Sink>(
    watch: &W,
    alloc: Global,
    words: &ExploreWords<'_>,
    chosen: &str,
    quiet: bool,
    files: &mut F,
    out: &mut O,
    err: &mut E,
) -> u8
    ensures { IsCaseShown (file_system (F.gives files.old) (F.lacks files.old))
        (io (sink_use O.taken O.failures out.old out.new)
        (sink_use E.taken E.failures err.old err.new) result) quiet chosen.now words.now }
{
    match explore_files(watch, alloc, words, files) {
        Ok(searched) => show_case(alloc, chosen, &searched, quiet, out, err),
        Err(refusal) => {
            refusal.write(alloc, quiet, err);
            REFUSED
        }
    }
}

/// Prints what was found of what is chosen, and tells the notes on it.
fn show_case<O: Sink, E: Sink>(
    alloc: Global,
    chosen: &str,
    searched: &Searched,
    quiet: bool,
    out: &mut O,
    err: &mut E,
) -> u8
    ensures { AreTextsShown (io (sink_use O.taken O.failures out.old out.new)
        (sink_use E.taken E.failures err.old err.new) result) quiet (case_text chosen.now searched.now.explored)
        (is_good searched.now.explored) (string_bytes searched.now.notes) }
{
    match text_of_case(alloc, chosen, &searched.explored) {
        Ok(text) => {
            let status = print_all(text.as_str(), is_good(&searched.explored), out);
            tell_notes(searched.notes.as_str(), quiet, err);
            status
        }
        Err(AllocError) => {
            tell_fault(err, "OutOfMemory");
            REFUSED
        }
    }
}

/// What is chosen, and what was found of it. The error is that memory ran out.
fn text_of_case(alloc: Global, chosen: &str, explored: &Explored) -> Result<String, AllocError>
    ensures { IfOk result (λ t. string_bytes t ≡ case_text chosen.now explored.now) }
{
    let mut text = String::new(alloc);
    text.push_str("case ")?;
    put_quoted(&mut text, chosen)?;
    text.push('\n')?;
    put_explored(alloc, &mut text, explored)?;
    text.push('\n')?;
    Ok(text)
}

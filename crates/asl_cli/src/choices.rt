// Which workflow of a project is chosen, and its files.
ghost use Rattle.std.specs.Prelude.{◌≡◌, option_map, IfOk, IfErr};
ghost use Rattle.std.specs.List.{find};
ghost use Rattle.asl_cli.specs.Choices.{machine_in, is_of, is_unnamed, workflow_of, input_for, IsSetupOf, IsUnchosen};

use crate::fault::CommandFault;
use crate::mending::of_machine;
use asl_mock::CaseFault;
use asl_project::Workflow;
use asl_run_input::EmulateFault;
use asl_words::{ChosenWords, SetupWords};
use std::alloc::{AllocError, Global};

/// The machine of what is chosen.
fn machine_in(chosen: &str) -> &str
    ensures { result.now ≡ machine_in chosen.now }
{
    match chosen.split_once('#') {
        Some((machine, _)) => machine,
        None => chosen,
    }
}

/// Whether a workflow says that it is of this machine.
fn is_of(workflow: &Workflow, machine: &str) -> bool
    ensures { result ≡ is_of machine.now workflow.now }
{
    match &workflow.machine {
        Some(name) => name.as_str() == machine,
        None => false,
    }
}

/// The first workflow that says so.
fn named<'a>(workflows: &'a [Workflow], machine: &str) -> Option<&'a Workflow>
    ensures { option_map (λ w. w.now) result ≡ find (is_of machine.now) workflows.now }
{
    match workflows {
        [] => None,
        [first, rest @ ..] => {
            if is_of(first, machine) {
                Some(first)
            } else {
                named(rest, machine)
            }
        }
    }
}

/// The first that doesn't say of which it is.
fn unnamed(workflows: &[Workflow]) -> Option<&Workflow>
    ensures { option_map (λ w. w.now) result ≡ find is_unnamed workflows.now }
{
    match workflows {
        [] => None,
        [first, rest @ ..] => {
            if first.machine.is_none() {
                Some(first)
            } else {
                unnamed(rest)
            }
        }
    }
}

/// The workflow of a machine.
fn workflow_of<'a>(workflows: &'a [Workflow], machine: &str) -> Option<&'a Workflow>
    ensures { option_map (λ w. w.now) result ≡ workflow_of machine.now workflows.now }
{
    match named(workflows, machine) {
        Some(workflow) => Some(workflow),
        None => unnamed(workflows),
    }
}

/// The input of an execution: an empty object where none is named.
fn input_for<'a>(words: &ChosenWords<'a>, workflow: &'a Workflow) -> &'a str
    ensures { result.now ≡ input_for words.now workflow.now }
{
    match (words.input, &workflow.input) {
        (Some(input), _) => input,
        (None, Some(input)) => input.as_str(),
        (None, None) => "{}",
    }
}

/// The files of what is chosen of these workflows, which come from the file of this name.
pub(crate) fn setup_in<'a, 'b>(
    alloc: Global,
    file: &str,
    words: &ChosenWords<'a>,
    workflows: &'a [Workflow],
) -> Result<SetupWords<'a>, CommandFault<'b>>
    ensures found { IfOk result (IsSetupOf words.now workflows.now) }
    ensures refused { IfErr result (IsUnchosen words.now workflows.now) }
{
    if let Some(workflow) = workflow_of(workflows, machine_in(words.chosen)) {
        if let Some(mocks) = &workflow.mocks {
            return Ok(SetupWords {
                definition: workflow.definition.as_str(),
                mocks: mocks.as_str(),
                chosen: words.chosen,
                input: input_for(words, workflow),
            });
        }
    }
    match of_machine(alloc, file, words.chosen, workflows) {
        Ok(lines) => Err(CommandFault::Emulation(EmulateFault::Case(CaseFault::NoMachine), lines)),
        Err(AllocError) => Err(CommandFault::OutOfMemory),
    }
}

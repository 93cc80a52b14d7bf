// What stands behind the line of a fault that isn't one of a file that `lint` judges: where in a project it is, and which names there are.
use crate::beginning::Names;
use asl_explain::{Explanation, families};
use asl_json_spans::Position;
use asl_lint_files::{RunNames, put_file, put_names};
use asl_lint_messages::{put_name, put_near};
use asl_project::{ProjectFault, Workflow};
use asl_rules::{RuleFault, Task};
use asl_run_input::{EmulateFault, RunTexts};
use asl_text::put_shown;
use std::alloc::{AllocError, Global};

// ---- project files

/// What is wrong at the place of a fault of a project.
fn wrong_at(fault: &ProjectFault) -> Option<(&Position, &'static str)> {
    match fault {
        ProjectFault::Syntax(place) => Some((place, "this is no TOML")),
        ProjectFault::Key(place) => Some((
            place,
            "a project has workflows, as [[workflow]], and a workflow has definition; it may have mocks, machine, tests, input and ignore, and no other key; where it has tests, it has mocks, too",
        )),
        ProjectFault::WrongType(place) => Some((
            place,
            "definition, mocks, machine and input are texts, tests and ignore lists of texts",
        )),
        ProjectFault::Machine(place) => {
            Some((place, "another workflow is of this machine, too"))
        }
        ProjectFault::File(place) => Some((place, "this file can't be read")),
        ProjectFault::OutOfMemory => None,
    }
}

/// The line on a project file that is refused. The error is that memory ran out.
pub(crate) fn of_project(
    alloc: Global,
    file: &str,
    fault: &ProjectFault,
) -> Result<String, AllocError> {
    let mut out = String::new(alloc);
    let Some((place, wrong)) = wrong_at(fault) else {
        return Ok(out);
    };
    let (line, column) = (place.lines as u128 + 1, place.characters as u128 + 1);
    put_shown(&mut out, file)?;
    write!(out, ":{line}:{column}: error: ")?;
    out.push_str(wrong)?;
    out.push('\n')?;
    Ok(out)
}

// ---- names that aren't there

/// The line on a test that a file of so many doesn't have. The error is that memory ran out.
pub(crate) fn of_test(alloc: Global, file: &str, count: usize) -> Result<String, AllocError> {
    let mut out = String::new(alloc);
    put_file(&mut out, file)?;
    match count {
        0 => out.push_str("error: the file has no test\n")?,
        1 => out.push_str("error: the file has one test: 1\n")?,
        _ => write!(out, "error: the file has the tests 1 to {count}\n")?,
    }
    Ok(out)
}

/// The line on what is chosen of a project that has no such machine. The error is that memory ran out.
pub(crate) fn of_machine(
    alloc: Global,
    file: &str,
    chosen: &str,
    workflows: &[Workflow],
) -> Result<String, AllocError> {
    let mut names = Vec::new(alloc);
    for workflow in workflows {
        add_machine(&mut names, workflow)?;
    }
    let mut out = String::new(alloc);
    put_file(&mut out, file)?;
    out.push_str("error: no workflow with mocks is of the machine of ")?;
    put_name(&mut out, chosen)?;
    put_near(alloc, &mut out, chosen, &names)?;
    if names.is_empty() {
        out.push_str("; none names its machine\n")?;
        return Ok(out);
    }
    out.push_str("; there are ")?;
    put_names(&mut out, &names)?;
    out.push('\n')?;
    Ok(out)
}

/// Appends the machine of a workflow, where that is named.
fn add_machine<'a>(names: &mut Vec<&'a str>, workflow: &'a Workflow) -> Result<(), AllocError> {
    if let Some(machine) = &workflow.machine {
        names.push(machine.as_str())?;
    }
    Ok(())
}

// ---- rules

/// The lines on a rule that isn't read. The error is that memory ran out.
pub(crate) fn of_rule(
    alloc: Global,
    fault: &RuleFault,
    tasks: &[Task],
    rule: &str,
) -> Result<String, AllocError> {
    let mut out = String::new(alloc);
    put_shown(&mut out, rule)?;
    match fault {
        RuleFault::Syntax(at) => put_syntax(&mut out, *at)?,
        RuleFault::NoSuchState(_) => put_tasks(alloc, &mut out, tasks)?,
        RuleFault::OutOfMemory => {}
    }
    out.push('\n')?;
    Ok(out)
}

/// Appends how rules are written.
fn put_syntax(out: &mut String, at: usize) -> Result<(), AllocError> {
    write!(
        out,
        ": error: the rule doesn't go on so at its byte {at}, from 0; "
    )?;
    out.push_str(
        "a rule is made of done(\"Task\"), returned(\"Task\", 2), failed(\"Task\"), invoked(\"Task\"), status(FAILED) and error(\"Name\"), of not, and, or and =>, and of parentheses; a pair is \"Task\"=\"Task\"",
    )
}

/// Appends which Tasks there are.
fn put_tasks(alloc: Global, out: &mut String, tasks: &[Task]) -> Result<(), AllocError> {
    out.push_str(": error: no Task of the definition has this name")?;
    let mut names = Vec::new(alloc);
    for task in tasks {
        names.push(task.name.as_str())?;
    }
    if names.is_empty() {
        return out.push_str("; it has no Task");
    }
    out.push_str("; there are ")?;
    put_names(out, &names)
}

/// The line on a word under which nothing is explained. The error is that memory ran out.
pub(crate) fn of_code(alloc: Global, word: &str) -> Result<String, AllocError> {
    let mut out = String::new(alloc);
    out.push_str("asl explain: error: nothing is explained under ")?;
    put_name(&mut out, word)?;
    put_like_code(alloc, &mut out, word)?;
    out.push_str("; without a code it lists all\n")?;
    Ok(out)
}

/// Appends the code, or the name behind its number, that is most like a word, as a question, where there is one.
fn put_like_code(alloc: Global, out: &mut String, word: &str) -> Result<(), AllocError> {
    let mut codes = Vec::new(alloc);
    for family in &families() {
        add_codes(&mut codes, family)?;
    }
    put_near(alloc, out, word, &codes)
}

/// Appends the codes of a family, and the names behind their numbers.
fn add_codes(
    codes: &mut Vec<&'static str>,
    family: &'static [Explanation],
) -> Result<(), AllocError> {
    for one in family {
        codes.push(one.code())?;
        if let Some(name) = one.name() {
            codes.push(name)?;
        }
    }
    Ok(())
}

// ---- the texts of a run

/// The lines on why the texts of a run are refused, which come from files of these names. The error is that memory ran out.
pub(crate) fn of_run(
    alloc: Global,
    names: &Names,
    steps: Option<&str>,
    texts: &RunTexts<'_>,
    fault: &EmulateFault,
) -> Result<String, AllocError> {
    let names = RunNames {
        definition: names.definition.as_str(),
        mocks: names.mocks.as_str(),
        chosen: names.chosen.as_str(),
        input: names.input.as_str(),
        steps: steps.unwrap_or(""),
    };
    asl_lint_files::of_run(alloc, &names, texts, fault)
}

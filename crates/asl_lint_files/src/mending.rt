// What stands behind the line of a fault: where in a file it is, in the words of `lint`, and which names there are.
use crate::judging::{lint_expectations, lint_script, lint_steps};
use crate::kinds::{Role, put_if_other};
use asl_json::{Json, Member};
use asl_json_read::{JsonFault, read};
use asl_lint::{Finding, Source, errors, lint, unread_in};
use asl_lint_messages::{put_name, put_near};
use asl_run_input::{EmulateFault, RunTexts};
use asl_suite_file::ExpectFault;
use asl_text::put_shown;
use std::alloc::{AllocError, Global};
use std::convert::AsStr;

/// So many names are told at most.
const MOST_NAMES: usize = 20;

/// Appends the name of a file, and a colon behind it. The error is that memory ran out.
pub fn put_file(out: &mut String, file: &str) -> Result<(), AllocError> {
    put_shown(out, file)?;
    out.push_str(": ")
}

/// The errors of a definition, behind a line on a file that is another one. The error is that memory ran out.
pub fn of_definition(alloc: Global, file: &str, text: &[u8]) -> Result<String, AllocError> {
    let mut out = String::new(alloc);
    put_if_other(alloc, &mut out, file, text, Role::Definition)?;
    let source = Source {
        definition: text,
        mocks: None,
        machine: None,
    };
    let report = lint(alloc, &source)?;
    out.push_str(errors(alloc, file, &report.definition)?.as_str())?;
    Ok(out)
}

/// The errors of a mock file beside a definition, behind a line on a file that is another one. The error is that memory ran out.
pub fn of_mocks<'a>(
    alloc: Global,
    file: &str,
    text: &'a [u8],
    definition: &'a [u8],
) -> Result<String, AllocError> {
    let mut out = String::new(alloc);
    put_if_other(alloc, &mut out, file, text, Role::Mocks)?;
    let source = Source {
        definition,
        mocks: Some(text),
        machine: None,
    };
    let report = lint(alloc, &source)?;
    out.push_str(errors(alloc, file, &report.mocks)?.as_str())?;
    Ok(out)
}

/// Why a text is no JSON, if it isn't. The error is that memory ran out.
pub fn of_json(alloc: Global, file: &str, text: &[u8]) -> Result<String, AllocError> {
    let findings: Vec<Finding> = unread_in(alloc, text)?;
    errors(alloc, file, &findings)
}

/// Appends a finding on a line, without its rule.
fn put_plainly(out: &mut String, file: &str, finding: &Finding) -> Result<(), AllocError> {
    let line = finding.position.lines as u128 + 1;
    let column = finding.position.characters as u128 + 1;
    put_shown(out, file)?;
    write!(out, ":{line}:{column}: error: ")?;
    out.push_str(finding.message.as_str())?;
    out.push('\n')
}

/// Appends each finding on a line, without its rule.
fn put_all(out: &mut String, file: &str, findings: &[Finding]) -> Result<(), AllocError> {
    for finding in findings {
        put_plainly(out, file, finding)?;
    }
    Ok(())
}

/// The lines on an expectation file in which a value doesn't fit.
fn misfit(alloc: Global, file: &str, text: &[u8]) -> Result<String, AllocError> {
    let mut out = String::new(alloc);
    put_if_other(alloc, &mut out, file, text, Role::Expectations)?;
    put_all(&mut out, file, &lint_expectations(alloc, text, None)?)?;
    Ok(out)
}

/// The lines on an expectation file that is refused. The error is that memory ran out.
pub fn of_expectations(
    alloc: Global,
    file: &str,
    text: &[u8],
    fault: &ExpectFault,
) -> Result<String, AllocError> {
    match fault {
        ExpectFault::Json(_) => of_json(alloc, file, text),
        ExpectFault::Shape(_) => misfit(alloc, file, text),
        ExpectFault::OutOfMemory => Ok(String::new(alloc)),
    }
}

/// The line on the first line of a file of steps that is none.
fn of_step(alloc: Global, file: &str, text: &[u8]) -> Result<String, AllocError> {
    let mut out = String::new(alloc);
    put_all(&mut out, file, &lint_steps(alloc, text)?)?;
    Ok(out)
}

/// The line on the first line of a script that is no command. The error is that memory ran out.
pub fn of_command(alloc: Global, file: &str, text: &[u8]) -> Result<String, AllocError> {
    let mut out = String::new(alloc);
    put_all(&mut out, file, &lint_script(alloc, text)?)?;
    Ok(out)
}

// ---- names that aren't there

/// Appends the name of a case of a machine, as it is chosen.
fn put_case(out: &mut String, machine: &str, case: &str) -> Result<(), AllocError> {
    out.push_str(machine)?;
    out.push('#')?;
    out.push_str(case)
}

/// Appends the names of the cases of a machine, as they are chosen.
fn add_cases(alloc: Global, names: &mut Vec<String>, machine: &Member) -> Result<(), AllocError> {
    for case in machine.value.members_at("TestCases") {
        let mut name = String::new(alloc);
        put_case(&mut name, machine.key.as_str(), case.key.as_str())?;
        names.push(name)?;
    }
    Ok(())
}

/// The names of all cases of a mock file, as they are chosen.
fn cases_in(alloc: Global, mocks: &Json) -> Result<Vec<String>, AllocError> {
    let mut names = Vec::new(alloc);
    for machine in mocks.members_at("StateMachines") {
        add_cases(alloc, &mut names, machine)?;
    }
    Ok(names)
}

/// Appends the first of these names, and whether there are more. The error is that memory ran out.
pub fn put_names<S: AsStr>(out: &mut String, names: &[S]) -> Result<(), AllocError> {
    for (number, name) in names.iter().enumerate() {
        if number >= MOST_NAMES {
            return out.push_str(", ..");
        }
        if number > 0 {
            out.push_str(", ")?;
        }
        put_name(out, name.as_str())?;
    }
    Ok(())
}

/// Appends that no test case of a mock file is chosen so, and which there are.
fn put_lost(alloc: Global, out: &mut String, mocks: &Json, chosen: &str) -> Result<(), AllocError> {
    let names = cases_in(alloc, mocks)?;
    out.push_str("no test case is named ")?;
    put_name(out, chosen)?;
    put_near(alloc, out, chosen, &names)?;
    if names.is_empty() {
        return out.push_str("; the file has none");
    }
    out.push_str("; there are ")?;
    put_names(out, &names)
}

/// That a mock file doesn't have this case of a machine, and which it has. The error is that memory ran out.
pub(crate) fn lost_words(
    alloc: Global,
    mocks: &Json,
    machine: &str,
    case: &str,
) -> Result<String, AllocError> {
    let mut chosen = String::new(alloc);
    put_case(&mut chosen, machine, case)?;
    let mut out = String::new(alloc);
    put_lost(alloc, &mut out, mocks, chosen.as_str())?;
    Ok(out)
}

/// The line on a test case that a mock file doesn't have.
fn lost_case(alloc: Global, file: &str, mocks: &[u8], chosen: &str) -> Result<String, AllocError> {
    let mut out = String::new(alloc);
    put_if_other(alloc, &mut out, file, mocks, Role::Mocks)?;
    match read(alloc, mocks) {
        Ok(mocks) => {
            put_file(&mut out, file)?;
            out.push_str("error: ")?;
            put_lost(alloc, &mut out, &mocks, chosen)?;
            out.push('\n')?;
            Ok(out)
        }
        Err(JsonFault::OutOfMemory) => Err(AllocError),
        Err(_) => Ok(out),
    }
}

// ---- the texts of a run

/// The names of the files of a run, and what is chosen of the mock file.
#[derive(Clone, Copy)]
pub struct RunNames<'a> {
    pub definition: &'a str,
    pub mocks: &'a str,
    pub chosen: &'a str,
    pub input: &'a str,
    /// Empty where no file of steps is named.
    pub steps: &'a str,
}

/// The lines on why the texts of a run are refused, which come from files of these names. The error is that memory ran out.
pub fn of_run(
    alloc: Global,
    names: &RunNames<'_>,
    texts: &RunTexts<'_>,
    fault: &EmulateFault,
) -> Result<String, AllocError> {
    match fault {
        EmulateFault::Definition(_) => of_definition(alloc, names.definition, texts.definition),
        EmulateFault::Mocks(_) => of_mocks(alloc, names.mocks, texts.mocks, texts.definition),
        EmulateFault::Case(_) => lost_case(alloc, names.mocks, texts.mocks, names.chosen),
        EmulateFault::Input(_) => of_json(alloc, names.input, texts.input),
        EmulateFault::StepLine(_) => of_step(alloc, names.steps, texts.steps.unwrap_or(&[])),
        EmulateFault::OutOfMemory => Ok(String::new(alloc)),
    }
}

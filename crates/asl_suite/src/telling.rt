// What is told of tests to people.
ghost use Rattle.std.specs.Prelude.{◌≡◌, ◌++◌, ◌∷◌, IfOk, OnOk, string_bytes};
ghost use Rattle.std.specs.Fmt.{decimal};
ghost use Rattle.asl_suite.specs.Remarks.{test_head, remark_line, maybe_remark, remarks_text, unanswered_head, accident_head, task_head, unanswered_words, accident_words, doubt_words, note_line, is_doubtful, maybe_note, notes_text};

use crate::case_report::Doubt;
use crate::finding::{Finding, is_good};
use crate::reporting::put_name;
use asl_exec::Invocation;
use asl_json_write::put_quoted;
use asl_text::put_decimal;
use std::alloc::{AllocError, Global};

/// The machine and the case of a test, as `M#A`.
fn name_of(alloc: Global, finding: &Finding<'_>) -> Result<String, AllocError>
    ensures { IfOk result (λ t. string_bytes t
        ≡ finding.now.report.now.machine ++ 35 ∷ finding.now.report.now.case) }
{
    let mut name = String::from_str(alloc, finding.report.machine.as_str())?;
    name.push('#')?;
    name.push_str(finding.report.case.as_str())?;
    Ok(name)
}

/// Appends which test it is, as `test 4 "M#A": `. The error is that memory ran out.
#[tactic(auto, unfolding(crate::specs::Remarks::test_head))]
pub fn put_test(alloc: Global, out: &mut String, finding: &Finding<'_>) -> Result<(), AllocError>
    ensures { OnOk result (string_bytes out.new ≡ string_bytes out.old ++ test_head finding.now) }
{
    let name = name_of(alloc, finding)?;
    out.push_str("test ")?;
    put_decimal(out, finding.number as u64)?;
    out.push(' ')?;
    put_quoted(out, name.as_str())?;
    put_name(out, &finding.report.name)?;
    out.push_str(": ")
}

fn put_remark(alloc: Global, out: &mut String, finding: &Finding<'_>) -> Result<(), AllocError>
    ensures { OnOk result (string_bytes out.new ≡ string_bytes out.old ++ remark_line finding.now) }
{
    put_test(alloc, out, finding)?;
    out.push_str(finding.difference.as_str())?;
    out.push('\n')
}

/// Appends the line of a test that isn't `ok`.
fn put_maybe_remark(
    alloc: Global,
    out: &mut String,
    finding: &Finding<'_>,
) -> Result<(), AllocError>
    ensures { OnOk result (string_bytes out.new
        ≡ string_bytes out.old ++ maybe_remark finding.now) }
{
    if is_good(finding) {
        Ok(())
    } else {
        put_remark(alloc, out, finding)
    }
}

fn put_remarks(alloc: Global, out: &mut String, findings: &[Finding<'_>]) -> Result<(), AllocError>
    ensures { OnOk result (string_bytes out.new
        ≡ string_bytes out.old ++ remarks_text findings.now) }
{
    for finding in findings {
        put_maybe_remark(alloc, out, finding)?;
    }
    Ok(())
}

/// A line for each test that isn't `ok`, as `test 4 "M#A": output: wanted 2, came 1`; a name stands behind the case. Names are JSON texts, so
/// a line stays a line. The error is that memory ran out.
pub fn remarks(alloc: Global, findings: &[Finding<'_>]) -> Result<String, AllocError>
    ensures { IfOk result (λ t. string_bytes t ≡ remarks_text findings.now) }
{
    let mut text = String::new(alloc);
    put_remarks(alloc, &mut text, findings)?;
    Ok(text)
}

#[tactic(auto, unfolding(crate::specs::Remarks::unanswered_head))]
fn put_unanswered_head(out: &mut String) -> Result<(), AllocError>
    ensures { OnOk result (string_bytes out.new ≡ string_bytes out.old ++ unanswered_head) }
{
    out.push_str("its run lacked an answer: no answer ")
}

#[tactic(auto, unfolding(crate::specs::Remarks::task_head))]
fn put_task_head(out: &mut String) -> Result<(), AllocError>
    ensures { OnOk result (string_bytes out.new ≡ string_bytes out.old ++ task_head) }
{
    out.push_str(" of the Task ")
}

#[tactic(auto, unfolding(crate::specs::Remarks::unanswered_words))]
fn put_unanswered(out: &mut String, invocation: &Invocation) -> Result<(), AllocError>
    ensures { OnOk result (string_bytes out.new
        ≡ string_bytes out.old ++ unanswered_words invocation.now) }
{
    put_unanswered_head(out)?;
    put_decimal(out, invocation.number)?;
    put_task_head(out)?;
    put_quoted(out, invocation.state.as_str())
}

#[tactic(auto, unfolding(crate::specs::Remarks::accident_head))]
fn put_accident_head(out: &mut String) -> Result<(), AllocError>
    ensures { OnOk result (string_bytes out.new ≡ string_bytes out.old ++ accident_head) }
{
    out.push_str("it names no error, and failed by accident: ")
}

#[tactic(auto, unfolding(crate::specs::Remarks::accident_words))]
fn put_accident(out: &mut String, name: &str) -> Result<(), AllocError>
    ensures { OnOk result (string_bytes out.new ≡ string_bytes out.old ++ accident_words name.now) }
{
    put_accident_head(out)?;
    put_quoted(out, name)
}

/// Appends which answer the run of a test lacked, or in which error it failed by accident.
pub(crate) fn put_doubt(out: &mut String, doubt: &Doubt) -> Result<(), AllocError>
    ensures { OnOk result (string_bytes out.new ≡ string_bytes out.old ++ doubt_words doubt.now) }
{
    match doubt {
        Doubt::None => Ok(()),
        Doubt::Unanswered(invocation) => put_unanswered(out, invocation),
        Doubt::Accident(name) => put_accident(out, name.as_str()),
    }
}

fn put_note(alloc: Global, out: &mut String, finding: &Finding<'_>) -> Result<(), AllocError>
    ensures { OnOk result (string_bytes out.new ≡ string_bytes out.old ++ note_line finding.now) }
{
    out.push_str("note: ")?;
    put_test(alloc, out, finding)?;
    put_doubt(out, &finding.report.doubt)?;
    out.push('\n')
}

fn is_doubtful(doubt: &Doubt) -> bool
    ensures { result ≡ is_doubtful doubt.now }
{
    match doubt {
        Doubt::None => false,
        _ => true,
    }
}

/// Appends the line of a test that is `ok` and may not mean what it says.
fn put_maybe_note(alloc: Global, out: &mut String, finding: &Finding<'_>) -> Result<(), AllocError>
    ensures { OnOk result (string_bytes out.new ≡ string_bytes out.old ++ maybe_note finding.now) }
{
    if is_good(finding) && is_doubtful(&finding.report.doubt) {
        put_note(alloc, out, finding)
    } else {
        Ok(())
    }
}

fn put_notes(alloc: Global, out: &mut String, findings: &[Finding<'_>]) -> Result<(), AllocError>
    ensures { OnOk result (string_bytes out.new ≡ string_bytes out.old ++ notes_text findings.now) }
{
    for finding in findings {
        put_maybe_note(alloc, out, finding)?;
    }
    Ok(())
}

/// A line for each test that is `ok` and may not mean what it says, as `note: test 3 "M#C": its run lacked an answer: no answer 0 of the Task "T"`.
/// The error is that memory ran out.
pub fn notes(alloc: Global, findings: &[Finding<'_>]) -> Result<String, AllocError>
    ensures { IfOk result (λ t. string_bytes t ≡ notes_text findings.now) }
{
    let mut text = String::new(alloc);
    put_notes(alloc, &mut text, findings)?;
    Ok(text)
}

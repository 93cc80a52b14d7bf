// Reports as JUnit XML.
ghost use Rattle.std.specs.Prelude.{◌≡◌, ◌++◌, IfOk, OnOk, string_bytes, codes, length};
ghost use Rattle.std.specs.List.{flat_map};
ghost use Rattle.asl_writing.specs.Appends.{Appends};
ghost use Rattle.asl_suite.specs.Xml.{xml_text};
ghost use Rattle.asl_suite.specs.Junit.{count_attribute, class, type_attribute, message, own_name, case_name, case_head, failure_head, failure, case_tail, case_element, failed, counts, suite_head, suite_element, document_head, document_tail, junit_text, junit_suites};

use crate::finding::{Finding, is_good};
use crate::xml::{put_attribute, put_count, put_number, put_plain, put_xml};
use asl_json::Txt;
use std::alloc::{AllocError, Global};

// ---- a test

fn put_class(out: &mut String, finding: &Finding<'_>) -> Result<(), AllocError>
    ensures { OnOk result (Appends (string_bytes out.old) (class finding.now) (string_bytes out.new)) }
{
    put_attribute(out, "classname", finding.report.machine.as_str())
}

fn put_text(out: &mut String, text: &Txt) -> Result<(), AllocError>
    ensures { OnOk result (Appends (string_bytes out.old) (xml_text text.now) (string_bytes out.new)) }
{
    put_xml(out, text.as_str())
}

fn put_behind_space(out: &mut String, text: &Txt) -> Result<(), AllocError>
    ensures { OnOk result (Appends (string_bytes out.old) (codes " " ++ xml_text text.now)
        (string_bytes out.new)) }
{
    put_plain(out, " ")?;
    put_text(out, text)?;
    Ok(())
}

/// Appends what the test is called, if it has a name.
#[tactic(auto, unfolding(crate::specs::Junit::own_name))]
fn put_own_name(out: &mut String, name: &Option<Txt>) -> Result<(), AllocError>
    ensures { OnOk result (Appends (string_bytes out.old) (own_name name.now) (string_bytes out.new)) }
{
    match name {
        Some(name) => put_behind_space(out, name),
        None => Ok(()),
    }
}

fn put_case_name(out: &mut String, finding: &Finding<'_>) -> Result<(), AllocError>
    ensures { OnOk result (Appends (string_bytes out.old) (case_name finding.now) (string_bytes out.new)) }
{
    put_number(out, finding.number as u64)?;
    put_behind_space(out, &finding.report.case)?;
    put_own_name(out, &finding.report.name)?;
    Ok(())
}

/// Appends which test it is; the last quote is left open.
fn put_case_head(out: &mut String, finding: &Finding<'_>) -> Result<(), AllocError>
    ensures { OnOk result (Appends (string_bytes out.old) (case_head finding.now) (string_bytes out.new)) }
{
    put_plain(out, "    <testcase")?;
    put_class(out, finding)?;
    put_plain(out, " name=\"")?;
    put_case_name(out, finding)?;
    Ok(())
}

fn put_type(out: &mut String, finding: &Finding<'_>) -> Result<(), AllocError>
    ensures { OnOk result (Appends (string_bytes out.old) (type_attribute finding.now)
        (string_bytes out.new)) }
{
    put_attribute(out, "type", finding.report.verdict.word())
}

fn put_message(out: &mut String, finding: &Finding<'_>) -> Result<(), AllocError>
    ensures { OnOk result (Appends (string_bytes out.old) (message finding.now) (string_bytes out.new)) }
{
    put_attribute(out, "message", finding.difference.as_str())
}

/// Appends the verdict, and why the test isn't `ok`.
fn put_failure_head(out: &mut String, finding: &Finding<'_>) -> Result<(), AllocError>
    ensures { OnOk result (Appends (string_bytes out.old) (failure_head finding.now)
        (string_bytes out.new)) }
{
    put_plain(out, "\">\n      <failure")?;
    put_type(out, finding)?;
    put_message(out, finding)?;
    put_plain(out, ">")?;
    Ok(())
}

fn put_alone(out: &mut String, finding: &Finding<'_>) -> Result<(), AllocError>
    ensures { OnOk result (Appends (string_bytes out.old) (xml_text (string_bytes finding.now.alone))
        (string_bytes out.new)) }
{
    put_xml(out, finding.alone.as_str())
}

fn put_failure(out: &mut String, finding: &Finding<'_>) -> Result<(), AllocError>
    ensures { OnOk result (Appends (string_bytes out.old) (failure finding.now) (string_bytes out.new)) }
{
    put_failure_head(out, finding)?;
    put_alone(out, finding)?;
    put_plain(out, "</failure>\n    </testcase>\n")?;
    Ok(())
}

fn put_case_tail(out: &mut String, finding: &Finding<'_>) -> Result<(), AllocError>
    ensures { OnOk result (Appends (string_bytes out.old) (case_tail finding.now) (string_bytes out.new)) }
{
    if is_good(finding) {
        put_plain(out, "\"/>\n")
    } else {
        put_failure(out, finding)
    }
}

fn put_case(out: &mut String, finding: &Finding<'_>) -> Result<(), AllocError>
    ensures { OnOk result (Appends (string_bytes out.old) (case_element finding.now)
        (string_bytes out.new)) }
{
    put_case_head(out, finding)?;
    put_case_tail(out, finding)?;
    Ok(())
}

fn put_cases(out: &mut String, findings: &[Finding<'_>]) -> Result<(), AllocError>
    ensures { OnOk result (Appends (string_bytes out.old) (flat_map case_element findings.now)
        (string_bytes out.new)) }
{
    for finding in findings {
        put_case(out, finding)?;
    }
    Ok(())
}

// ---- the suite

/// How many tests aren't `ok`.
fn failed(findings: &[Finding<'_>]) -> usize
    ensures { result ≡ failed findings.now }
{
    findings.iter().filter(|finding| !is_good(finding)).count()
}

fn put_tests(out: &mut String, findings: &[Finding<'_>]) -> Result<(), AllocError>
    ensures { OnOk result (Appends (string_bytes out.old)
        (count_attribute (codes "tests") (length findings.now)) (string_bytes out.new)) }
{
    put_count(out, "tests", findings.len())
}

fn put_failures(out: &mut String, findings: &[Finding<'_>]) -> Result<(), AllocError>
    ensures { OnOk result (Appends (string_bytes out.old)
        (count_attribute (codes "failures") (failed findings.now)) (string_bytes out.new)) }
{
    put_count(out, "failures", failed(findings))
}

/// Appends how many tests there are, and how many failed.
fn put_counts(out: &mut String, findings: &[Finding<'_>]) -> Result<(), AllocError>
    ensures { OnOk result (Appends (string_bytes out.old) (counts findings.now) (string_bytes out.new)) }
{
    put_tests(out, findings)?;
    put_failures(out, findings)?;
    put_count(out, "errors", 0)?;
    Ok(())
}

/// Appends what stands before the test cases of a suite of this name.
fn put_suite_head(out: &mut String, name: &str, findings: &[Finding<'_>]) -> Result<(), AllocError>
    ensures { OnOk result (Appends (string_bytes out.old) (suite_head name.now findings.now)
        (string_bytes out.new)) }
{
    put_plain(out, "  <testsuite")?;
    put_attribute(out, "name", name)?;
    put_counts(out, findings)?;
    put_plain(out, ">\n")?;
    Ok(())
}

fn put_suite(out: &mut String, name: &str, findings: &[Finding<'_>]) -> Result<(), AllocError>
    ensures { OnOk result (Appends (string_bytes out.old) (suite_element name.now findings.now)
        (string_bytes out.new)) }
{
    put_suite_head(out, name, findings)?;
    put_cases(out, findings)?;
    put_plain(out, "  </testsuite>\n")?;
    Ok(())
}

// ---- the document

#[tactic(auto, unfolding(crate::specs::Junit::document_head))]
fn put_head(out: &mut String) -> Result<(), AllocError>
    ensures { OnOk result (Appends (string_bytes out.old) document_head (string_bytes out.new)) }
{
    put_plain(
        out,
        "<?xml version=\"1.0\" encoding=\"UTF-8\"?>\n<testsuites",
    )
}

#[tactic(auto, unfolding(crate::specs::Junit::document_tail))]
fn put_tail(out: &mut String) -> Result<(), AllocError>
    ensures { OnOk result (Appends (string_bytes out.old) document_tail (string_bytes out.new)) }
{
    put_plain(out, "</testsuites>\n")
}

fn put_document(out: &mut String, name: &str, findings: &[Finding<'_>]) -> Result<(), AllocError>
    ensures { OnOk result (Appends (string_bytes out.old) (junit_text name.now findings.now)
        (string_bytes out.new)) }
{
    put_head(out)?;
    put_counts(out, findings)?;
    put_plain(out, ">\n")?;
    put_suite(out, name, findings)?;
    put_tail(out)?;
    Ok(())
}

/// The reports as JUnit XML: a test suite of this name with a test case for each report. Of a test that isn't `ok`, the failure has the
/// verdict as its type, the first difference as its message, and a command line that runs the test alone as its text. (The format of Apache Ant's
/// task JUnitReport, as Jenkins, GitLab and GitHub's actions read it.) The error is that memory ran out.
pub fn junit(alloc: Global, name: &str, findings: &[Finding<'_>]) -> Result<String, AllocError>
    ensures { IfOk result (λ t. string_bytes t ≡ junit_text name.now findings.now) }
{
    let mut text = String::new(alloc);
    put_document(&mut text, name, findings)?;
    Ok(text)
}

/// The element of a test suite alone, as it stands among those of others. The error is that memory ran out.
pub fn junit_suite(
    alloc: Global,
    name: &str,
    findings: &[Finding<'_>],
) -> Result<String, AllocError>
    ensures { IfOk result (λ t. string_bytes t ≡ suite_element name.now findings.now) }
{
    let mut text = String::new(alloc);
    put_suite(&mut text, name, findings)?;
    Ok(text)
}

fn put_suites(out: &mut String, elements: &str) -> Result<(), AllocError>
    ensures { OnOk result (Appends (string_bytes out.old) (junit_suites elements.now) (string_bytes out.new)) }
{
    put_head(out)?;
    put_plain(out, ">\n")?;
    put_plain(out, elements)?;
    put_tail(out)?;
    Ok(())
}

/// The document of test suites of which these are the elements. The error is that memory ran out.
pub fn junit_suites(alloc: Global, elements: &str) -> Result<String, AllocError>
    ensures { IfOk result (λ t. string_bytes t ≡ junit_suites elements.now) }
{
    let mut text = String::new(alloc);
    put_suites(&mut text, elements)?;
    Ok(text)
}

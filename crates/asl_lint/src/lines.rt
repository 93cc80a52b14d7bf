// Findings as lines for people.
ghost use Rattle.std.specs.Prelude.{◌≡◌, ◌++◌, IfOk, OnOk, string_bytes};
ghost use Rattle.std.specs.List.{flat_map};
ghost use Rattle.asl_lint.specs.Lines.{counted, error_line, error_lines, file_lines, finding_line, lines_of, place_text, told_text, total_line};

use crate::finding::Finding;
use crate::pieces::{column_of, line_of};
use crate::report::{FileReport, count, is_of};
use crate::rule::Severity;
use asl_text::put_shown;
use std::alloc::{AllocError, Global};

/// Appends where a finding is: `FILE:LINE:COLUMN: `.
fn put_place(out: &mut String, file: &str, finding: &Finding) -> Result<(), AllocError>
    ensures { OnOk result (string_bytes out.new
        ≡ string_bytes out.old ++ place_text file.now finding.now) }
{
    let line = line_of(finding);
    let column = column_of(finding);
    put_shown(out, file)?;
    write!(out, ":{line}:{column}: ")
}

/// Appends what it is: `error F10: ..`.
fn put_told(out: &mut String, finding: &Finding) -> Result<(), AllocError>
    ensures { OnOk result (string_bytes out.new ≡ string_bytes out.old ++ told_text finding.now) }
{
    out.push_str(finding.rule.severity().word())?;
    out.push_str(" ")?;
    out.push_str(finding.rule.name())?;
    out.push_str(": ")?;
    out.push_str(finding.message.as_str())
}

/// Appends a finding on a line.
#[tactic(auto, unfolding(crate::specs::Lines::finding_line))]
fn put_finding(out: &mut String, file: &str, finding: &Finding) -> Result<(), AllocError>
    ensures { OnOk result (string_bytes out.new
        ≡ string_bytes out.old ++ finding_line file.now finding.now) }
{
    put_place(out, file, finding)?;
    put_told(out, finding)?;
    out.push('\n')
}

/// Appends each of these findings of a file on a line.
fn put_findings(out: &mut String, file: &str, findings: &[Finding]) -> Result<(), AllocError>
    ensures { OnOk result (string_bytes out.new
        ≡ string_bytes out.old ++ flat_map (finding_line file.now) findings.now) }
{
    for finding in findings {
        put_finding(out, file, finding)?;
    }
    Ok(())
}

/// Appends a finding on a line, if it is an error.
fn put_error(out: &mut String, file: &str, finding: &Finding) -> Result<(), AllocError>
    ensures { OnOk result (string_bytes out.new
        ≡ string_bytes out.old ++ error_line file.now finding.now) }
{
    if is_of(finding, Severity::Error) {
        return put_finding(out, file, finding);
    }
    Ok(())
}

/// The errors among these findings of a file of this name, each on a line. The error is that memory ran out.
pub fn errors(alloc: Global, file: &str, findings: &[Finding]) -> Result<String, AllocError>
    ensures { IfOk result (λ t. string_bytes t ≡ error_lines file.now findings.now) }
{
    let mut out = String::new(alloc);
    for finding in findings {
        put_error(&mut out, file, finding)?;
    }
    Ok(out)
}

/// Appends a number of things.
fn put_count(out: &mut String, count: u128, word: &str) -> Result<(), AllocError>
    ensures { OnOk result (string_bytes out.new ≡ string_bytes out.old ++ counted count word.now) }
{
    write!(out, "{count} ")?;
    out.push_str(word)?;
    if count != 1 {
        out.push_str("s")?;
    }
    Ok(())
}

/// Appends how many errors and warnings there are.
#[tactic(auto, unfolding(crate::specs::Lines::total_line))]
fn put_total(out: &mut String, errors: u128, warnings: u128) -> Result<(), AllocError>
    ensures { OnOk result (string_bytes out.new
        ≡ string_bytes out.old ++ total_line errors warnings) }
{
    if errors == 0 && warnings == 0 {
        return out.push_str("no findings\n");
    }
    put_count(out, errors, "error")?;
    out.push_str(", ")?;
    put_count(out, warnings, "warning")?;
    out.push('\n')
}

/// Appends each finding of each of these files on a line.
fn put_files(out: &mut String, files: &[FileReport<'_>]) -> Result<(), AllocError>
    ensures { OnOk result (string_bytes out.new ≡ string_bytes out.old ++ flat_map file_lines files.now) }
{
    for file in files {
        put_findings(out, file.name, &file.findings)?;
    }
    Ok(())
}

/// The findings, each on a line, and a line that says how many there are. The error is that memory ran out.
pub fn text(alloc: Global, files: &[FileReport<'_>]) -> Result<String, AllocError>
    ensures { IfOk result (λ t. string_bytes t ≡ lines_of files.now) }
{
    let mut out = String::new(alloc);
    put_files(&mut out, files)?;
    let errors = count(files, Severity::Error);
    let warnings = count(files, Severity::Warning);
    put_total(&mut out, errors, warnings)?;
    Ok(out)
}

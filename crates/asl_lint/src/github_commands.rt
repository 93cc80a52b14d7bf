// Findings as workflow commands of GitHub Actions. (GitHub Docs, "Workflow commands for GitHub Actions".)
ghost use Rattle.std.specs.Prelude.{◌≡◌, IfOk, OnOk, string_bytes};
ghost use Rattle.std.specs.Fmt.{decimal};
ghost use Rattle.std.specs.List.{flat_map};
ghost use Rattle.asl_writing.specs.Appends.{Appends};
ghost use Rattle.asl_lint.specs.Github.{command_line, data_char, data_text, file_commands, github_text, properties, property_char, property_text};
ghost use Rattle.asl_lint.specs.Lines.{column_of, line_of};
ghost use Rattle.asl_lint.specs.Rules.{rule_name, severity_of, word_of};

use crate::finding::Finding;
use crate::pieces::{column_of, line_of, put_char, put_plain};
use crate::report::FileReport;
use crate::rule::Rule;
use std::alloc::{AllocError, Global};

/// Appends a character of a message.
fn put_data_char(out: &mut String, c: char) -> Result<(), AllocError>
    ensures { OnOk result (Appends (string_bytes out.old) (data_char c) (string_bytes out.new)) }
{
    match c {
        '%' => out.push_str("%25"),
        '\r' => out.push_str("%0D"),
        '\n' => out.push_str("%0A"),
        other => out.push(other),
    }
}

/// Appends a character of the value of a property.
fn put_property_char(out: &mut String, c: char) -> Result<(), AllocError>
    ensures { OnOk result (Appends (string_bytes out.old) (property_char c) (string_bytes out.new)) }
{
    match c {
        ':' => out.push_str("%3A"),
        ',' => out.push_str("%2C"),
        other => put_data_char(out, other),
    }
}

/// Appends a message.
fn put_data(out: &mut String, text: &str) -> Result<(), AllocError>
    ensures { OnOk result (Appends (string_bytes out.old) (data_text text.now) (string_bytes out.new)) }
{
    for c in text.chars() {
        put_data_char(out, c)?;
    }
    Ok(())
}

/// Appends the value of a property.
fn put_property(out: &mut String, text: &str) -> Result<(), AllocError>
    ensures { OnOk result (Appends (string_bytes out.old) (property_text text.now) (string_bytes out.new)) }
{
    for c in text.chars() {
        put_property_char(out, c)?;
    }
    Ok(())
}

fn put_number(out: &mut String, number: u128) -> Result<(), AllocError>
    ensures { OnOk result (Appends (string_bytes out.old) (decimal number) (string_bytes out.new)) }
{
    write!(out, "{number}")
}

/// Appends the line of a finding.
fn put_line(out: &mut String, finding: &Finding) -> Result<(), AllocError>
    ensures { OnOk result (Appends (string_bytes out.old) (decimal (line_of finding.now)) (string_bytes out.new)) }
{
    let line = line_of(finding);
    put_number(out, line)
}

/// Appends its column.
fn put_column(out: &mut String, finding: &Finding) -> Result<(), AllocError>
    ensures { OnOk result (Appends (string_bytes out.old) (decimal (column_of finding.now)) (string_bytes out.new)) }
{
    let column = column_of(finding);
    put_number(out, column)
}

/// Appends the name of a rule, the value of a property.
fn put_title(out: &mut String, rule: Rule) -> Result<(), AllocError>
    ensures { OnOk result (Appends (string_bytes out.old) (property_text (rule_name rule)) (string_bytes out.new)) }
{
    put_property(out, rule.name())
}

/// Appends how bad a finding of a rule is, the name of a command.
fn put_level(out: &mut String, rule: Rule) -> Result<(), AllocError>
    ensures { OnOk result (Appends (string_bytes out.old) (word_of (severity_of rule)) (string_bytes out.new)) }
{
    put_plain(out, rule.severity().word())
}

/// Appends the message of a finding.
fn put_message(out: &mut String, finding: &Finding) -> Result<(), AllocError>
    ensures { OnOk result (Appends (string_bytes out.old) (data_text (string_bytes finding.now.message)) (string_bytes out.new)) }
{
    put_data(out, finding.message.as_str())
}

/// Appends where a finding is, and its rule: `file=FILE,line=LINE,col=COLUMN,title=NAME`.
fn put_properties(out: &mut String, file: &str, finding: &Finding) -> Result<(), AllocError>
    ensures { OnOk result (Appends (string_bytes out.old) (properties file.now finding.now) (string_bytes out.new)) }
{
    put_plain(out, "file=")?;
    put_property(out, file)?;
    put_plain(out, ",line=")?;
    put_line(out, finding)?;
    put_plain(out, ",col=")?;
    put_column(out, finding)?;
    put_plain(out, ",title=")?;
    put_title(out, finding.rule)?;
    Ok(())
}

/// Appends a finding as a command, on a line of its own.
fn put_finding(out: &mut String, file: &str, finding: &Finding) -> Result<(), AllocError>
    ensures { OnOk result (Appends (string_bytes out.old) (command_line file.now finding.now) (string_bytes out.new)) }
{
    put_plain(out, "::")?;
    put_level(out, finding.rule)?;
    put_plain(out, " ")?;
    put_properties(out, file, finding)?;
    put_plain(out, "::")?;
    put_message(out, finding)?;
    put_char(out, '\n')?;
    Ok(())
}

fn put_findings(out: &mut String, file: &str, findings: &[Finding]) -> Result<(), AllocError>
    ensures { OnOk result (Appends (string_bytes out.old) (flat_map (command_line file.now) findings.now) (string_bytes out.new)) }
{
    for finding in findings {
        put_finding(out, file, finding)?;
    }
    Ok(())
}

fn put_files(out: &mut String, files: &[FileReport<'_>]) -> Result<(), AllocError>
    ensures { OnOk result (Appends (string_bytes out.old) (flat_map file_commands files.now) (string_bytes out.new)) }
{
    for file in files {
        put_findings(out, file.name, &file.findings)?;
    }
    Ok(())
}

/// The findings as workflow commands of GitHub Actions, each on a line: `::error file=FILE,line=LINE,col=COLUMN,title=NAME::MESSAGE`. The error is that
/// memory ran out.
pub fn github(alloc: Global, files: &[FileReport<'_>]) -> Result<String, AllocError>
    ensures { IfOk result (λ t. string_bytes t ≡ github_text files.now) }
{
    let mut out = String::new(alloc);
    put_files(&mut out, files)?;
    Ok(out)
}

// Findings as lines of JSON.
ghost use Rattle.std.specs.Prelude.{◌≡◌, ◌++◌, IfOk, OnOk, string_bytes};
ghost use Rattle.std.specs.List.{flat_map};
ghost use Rattle.asl_json_data.specs.Compact.{compact};
ghost use Rattle.asl_writing.specs.Appends.{Appends};
ghost use Rattle.asl_lint.specs.JsonLines.{file_json_lines, finding_object, json_line, json_lines};

use crate::finding::Finding;
use crate::pieces::{
    put_char, put_column, put_level, put_line, put_name, put_offset, put_text, put_words,
};
use crate::report::FileReport;
use std::alloc::{AllocError, Global};

/// Appends the object of a finding in a file of this name.
fn put_object(out: &mut String, file: &str, finding: &Finding) -> Result<(), AllocError>
    ensures { OnOk result (Appends (string_bytes out.old)
        (compact (finding_object file.now finding.now)) (string_bytes out.new)) }
{
    put_char(out, '{')?;
    put_text(out, "file", file)?;
    put_char(out, ',')?;
    put_line(out, "line", finding)?;
    put_char(out, ',')?;
    put_column(out, "column", finding)?;
    put_char(out, ',')?;
    put_offset(out, "begin", finding.span.begin)?;
    put_char(out, ',')?;
    put_offset(out, "end", finding.span.end)?;
    put_char(out, ',')?;
    put_level(out, "severity", finding.rule)?;
    put_char(out, ',')?;
    put_name(out, "name", finding.rule)?;
    put_char(out, ',')?;
    put_words(out, "message", finding)?;
    put_char(out, '}')?;
    Ok(())
}

/// Appends it on a line of its own.
fn put_finding(out: &mut String, file: &str, finding: &Finding) -> Result<(), AllocError>
    ensures { OnOk result (Appends (string_bytes out.old) (json_line file.now finding.now)
        (string_bytes out.new)) }
{
    put_object(out, file, finding)?;
    put_char(out, '\n')?;
    Ok(())
}

fn put_findings(out: &mut String, file: &str, findings: &[Finding]) -> Result<(), AllocError>
    ensures { OnOk result (Appends (string_bytes out.old) (flat_map (json_line file.now) findings.now) (string_bytes out.new)) }
{
    for finding in findings {
        put_finding(out, file, finding)?;
    }
    Ok(())
}

fn put_files(out: &mut String, files: &[FileReport<'_>]) -> Result<(), AllocError>
    ensures { OnOk result (Appends (string_bytes out.old) (flat_map file_json_lines files.now) (string_bytes out.new)) }
{
    for file in files {
        put_findings(out, file.name, &file.findings)?;
    }
    Ok(())
}

/// The findings, a JSON object each on a line: `file`, `line` and `column` from 1, `begin` and `end` in bytes from 0, `severity`, `name` and
/// `message`. (JSON Lines.) The error is that memory ran out.
pub fn json(alloc: Global, files: &[FileReport<'_>]) -> Result<String, AllocError>
    ensures { IfOk result (λ t. string_bytes t ≡ json_lines files.now) }
{
    let mut out = String::new(alloc);
    put_files(&mut out, files)?;
    Ok(out)
}

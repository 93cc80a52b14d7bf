// All that is told, and how much.
ghost use Rattle.std.specs.Prelude.{◌≡◌, ◌≤◌, ◌+◌, ◌*◌, ◌^◌, length, count_by};
ghost use Rattle.std.specs.List.{list_any};
ghost use Rattle.asl_lint.specs.Reports.{count, counts, is_good, is_of, has_any};

use crate::finding::Finding;
use crate::rule::Severity;

/// All that is found in a definition, and in the mock file beside it.
#[derive(Drop)]
pub struct Report {
    /// In the order of their places.
    pub definition: Vec<Finding>,
    /// The same of the mock file.
    pub mocks: Vec<Finding>,
}

/// All that is found in a file of this name.
#[derive(Drop)]
pub struct FileReport<'a> {
    pub name: &'a str,
    /// In the order of their places.
    pub findings: Vec<Finding>,
}

/// Whether a finding is so bad.
pub(crate) fn is_of(finding: &Finding, severity: Severity) -> bool
    ensures { result ≡ is_of severity finding.now }
{
    match severity {
        Severity::Error => finding.rule.is_error(),
        Severity::Warning => !finding.rule.is_error(),
    }
}

fn count_in(findings: &[Finding], severity: Severity) -> usize
    ensures { result ≡ count_by (is_of severity) findings.now }
{
    findings
        .iter()
        .filter(|finding| is_of(finding, severity))
        .count()
}

/// Whether one of these counts as an error.
fn has_any(findings: &[Finding], strict: bool) -> bool
    ensures { result ≡ has_any strict findings.now }
{
    for finding in findings {
        if strict || finding.rule.is_error() {
            return true;
        }
    }
    false
}

/// How many findings in these files are so bad.
pub(crate) fn count(files: &[FileReport<'_>], severity: Severity) -> u128
    ensures { result ≡ count severity files.now }
{
    let mut total: u128 = 0;
    for file in files {
        total += count_in(&file.findings, severity) as u128;
    }
    total
}

/// Whether nothing is wrong in these files: no error and, where warnings count as errors, no warning.
pub fn is_good(files: &[FileReport<'_>], strict: bool) -> bool
    ensures { result ≡ is_good strict files.now }
{
    for file in files {
        if has_any(&file.findings, strict) {
            return false;
        }
    }
    true
}

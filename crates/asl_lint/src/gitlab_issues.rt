// Findings as issues of Code Quality. (GitLab Docs, "Code Quality report format".)
ghost use Rattle.std.specs.Prelude.{◌<◌, ◌≡◌, ◌∷◌, ◌++◌, ◌+◌, ◌^◌, [], false, Some, ℕ, List, cond, unwrap_or, IfOk, OnOk, map, string_bytes};
ghost use Rattle.std.specs.HashMap.{get_by_text};
ghost use Rattle.std.specs.Str.{bytes_eq};
ghost use Rattle.asl_json_data.specs.Data.{chain};
ghost use Rattle.asl_json_data.specs.Compact.{compact, compact_items, quoted};
ghost use Rattle.asl_json_data.specs.Grammar.{colon};
ghost use Rattle.asl_writing.specs.Appends.{Appends};
ghost use Rattle.asl_lint.specs.Gitlab.{all_findings, file_findings, fingerprint, gitlab_text, grade, identity, issue_object, issues_behind, lines, place};
ghost use Rattle.asl_lint.specs.Rules.{severity_of};
ghost use Rattle.asl_lint.specs.private.Issues.{issue_seen, placed};
ghost use Rattle.asl_lint.specs.private.Writing.{more_items};

use crate::finding::Finding;
use crate::pieces::{put_char, put_key, put_line, put_name, put_text, put_words, separate};
use crate::report::FileReport;
use crate::rule::{Rule, Severity};
use sha1::Sha1;
use std::alloc::{AllocError, Global};
use std::collections::HashMap;

/// A finding in a file of this name.
#[derive(Clone, Copy)]
struct Placed<'a, 'b> {
    file: &'b str,
    finding: &'a Finding,
}

/// The same with what tells it apart from others, and stays where lines move.
#[derive(Drop)]
struct Issue<'a, 'b> {
    file: &'b str,
    finding: &'a Finding,
    fingerprint: String,
}

// ---- fingerprints

/// Appends the findings of a file. The error is that memory ran out.
fn add_findings<'a, 'b>(
    all: &mut Vec<Placed<'a, 'b>>,
    file: &'b str,
    findings: &'a [Finding],
) -> Result<(), AllocError>
    ensures { OnOk result (map placed all.new.items ≡ map placed all.old.items
        ++ map (λ f. (file.entry.now, f)) findings.entry.now) }
{
    for finding in findings {
        all.push(Placed { file, finding })?;
    }
    Ok(())
}

/// The findings of each file. The error is that memory ran out.
fn findings_of<'a, 'b>(
    alloc: Global,
    files: &'a [FileReport<'b>],
) -> Result<Vec<Placed<'a, 'b>>, AllocError>
    ensures { IfOk result (λ v. map placed v.items ≡ all_findings files.entry.now) }
{
    let mut all = Vec::new(alloc);
    for file in files {
        add_findings(&mut all, file.name, &file.findings)?;
    }
    Ok(all)
}

/// What a finding keeps where lines move. The error is that memory ran out.
#[tactic(auto, unfolding(crate::specs::Gitlab::identity))]
fn identity_of(alloc: Global, one: &Placed<'_, '_>) -> Result<String, AllocError>
    ensures { IfOk result (λ t. string_bytes t ≡ identity (placed one.now)) }
{
    let mut out = String::new(alloc);
    out.push_str(one.finding.rule.name())?;
    out.push_str("\n")?;
    out.push_str(one.file)?;
    out.push_str("\n")?;
    out.push_str(one.finding.message.as_str())?;
    Ok(out)
}

/// The digest of a number and of what a finding keeps. The error is that memory ran out.
#[tactic(auto, unfolding(crate::specs::Gitlab::fingerprint))]
fn fingerprint(alloc: Global, number: usize, kept: &str) -> Result<String, AllocError>
    ensures { IfOk result (λ t. string_bytes t ≡ fingerprint number kept.now) }
{
    let mut out = String::new(alloc);
    write!(out, "{number}\n")?;
    out.push_str(kept)?;
    hex::encode(alloc, Sha1::digest(out.as_bytes()))
}

/// How often a text was there.
fn count_of(counts: &HashMap<String, usize>, text: &str) -> usize
    ensures { result ≡ unwrap_or (get_by_text counts.now text.now) 0 }
{
    match counts.get(text) {
        Some(count) => *count,
        None => 0,
    }
}

/// How often a text was there before; it is there once more. The error is that memory ran out.
fn numbered(counts: &mut HashMap<String, usize>, text: String) -> Result<usize, AllocError>
    requires { unwrap_or (get_by_text counts.now (string_bytes text)) 0 + 1 < 2 ^ 64 }
    ensures number { IfOk result (λ n. n ≡ unwrap_or (get_by_text counts.old (string_bytes text)) 0) }
    ensures counts { IfOk result (λ n. (t : List ℕ) → get_by_text counts.new t
        ≡ cond (bytes_eq (string_bytes text) t) (Some (n + 1)) (get_by_text counts.old t)) }
{
    let number = count_of(counts, text.as_str());
    counts.insert(text, number + 1)?;
    Ok(number)
}

/// A finding behind so many that keep the same. The error is that memory ran out.
fn issue_of<'a, 'b>(
    alloc: Global,
    one: &Placed<'a, 'b>,
    number: usize,
    kept: &str,
) -> Result<Issue<'a, 'b>, AllocError>
    ensures { IfOk result (λ i. issue_seen i ≡ record {
      file = one.now.file.now;
      finding = one.now.finding.now;
      fingerprint = fingerprint number kept.now;
    }) }
{
    let Placed { file, finding } = *one;
    let fingerprint = fingerprint(alloc, number, kept)?;
    Ok(Issue {
        file,
        finding,
        fingerprint,
    })
}

/// The issues of these findings. The error is that memory ran out.
fn issues_of<'a, 'b>(
    alloc: Global,
    found: &[Placed<'a, 'b>],
) -> Result<Vec<Issue<'a, 'b>>, AllocError>
    ensures { IfOk result (λ v. map issue_seen v.items ≡ issues_behind [] (map placed found.now)) }
{
    let mut counts = HashMap::new(alloc);
    let mut issues = Vec::new(alloc);
    for one in found {
        let kept = identity_of(alloc, one)?;
        let number = numbered(&mut counts, identity_of(alloc, one)?)?;
        issues.push(issue_of(alloc, one, number, kept.as_str())?)?;
    }
    Ok(issues)
}

// ---- the report

/// How bad a finding is, in the words of Code Quality.
#[tactic(auto, unfolding(crate::specs::Gitlab::grade))]
fn grade(severity: Severity) -> &'static str
    ensures { result.now ≡ grade severity }
{
    match severity {
        Severity::Error => "major",
        Severity::Warning => "minor",
    }
}

/// Appends a member whose value is this.
fn put_grade(out: &mut String, name: &str, rule: Rule) -> Result<(), AllocError>
    ensures { OnOk result (Appends (string_bytes out.old) (quoted name.now ++ colon ∷ quoted (grade (severity_of rule))) (string_bytes out.new)) }
{
    put_text(out, name, grade(rule.severity()))
}

fn put_lines(out: &mut String, finding: &Finding) -> Result<(), AllocError>
    ensures { OnOk result (Appends (string_bytes out.old) (compact (lines finding.now)) (string_bytes out.new)) }
{
    put_char(out, '{')?;
    put_line(out, "begin", finding)?;
    put_char(out, '}')?;
    Ok(())
}

fn put_place(out: &mut String, file: &str, finding: &Finding) -> Result<(), AllocError>
    ensures { OnOk result (Appends (string_bytes out.old) (compact (place file.now finding.now)) (string_bytes out.new)) }
{
    put_char(out, '{')?;
    put_text(out, "path", file)?;
    put_char(out, ',')?;
    put_key(out, "lines")?;
    put_lines(out, finding)?;
    put_char(out, '}')?;
    Ok(())
}

/// Appends a member whose value is the fingerprint of an issue.
fn put_fingerprint(out: &mut String, name: &str, issue: &Issue<'_, '_>) -> Result<(), AllocError>
    ensures { OnOk result (Appends (string_bytes out.old) (quoted name.now ++ colon ∷ quoted (issue_seen issue.now).fingerprint) (string_bytes out.new)) }
{
    put_text(out, name, issue.fingerprint.as_str())
}

fn put_issue(out: &mut String, issue: &Issue<'_, '_>) -> Result<(), AllocError>
    ensures { OnOk result (Appends (string_bytes out.old) (compact (issue_object (issue_seen issue.now))) (string_bytes out.new)) }
{
    put_char(out, '{')?;
    put_words(out, "description", issue.finding)?;
    put_char(out, ',')?;
    put_name(out, "check_name", issue.finding.rule)?;
    put_char(out, ',')?;
    put_fingerprint(out, "fingerprint", issue)?;
    put_char(out, ',')?;
    put_grade(out, "severity", issue.finding.rule)?;
    put_char(out, ',')?;
    put_key(out, "location")?;
    put_place(out, issue.file, issue.finding)?;
    put_char(out, '}')?;
    Ok(())
}

/// Appends each of these issues, with commas between.
fn put_each(out: &mut String, issues: &[Issue<'_, '_>]) -> Result<(), AllocError>
    ensures { OnOk result (Appends (string_bytes out.old) (more_items issue_object false (map issue_seen issues.now)) (string_bytes out.new)) }
{
    let mut is_begun = false;
    for issue in issues {
        separate(out, is_begun)?;
        put_issue(out, issue)?;
        is_begun = true;
    }
    Ok(())
}

/// Appends the issues as a list, on a line of its own.
fn put_issues(out: &mut String, issues: &[Issue<'_, '_>]) -> Result<(), AllocError>
    ensures { OnOk result (Appends (string_bytes out.old) (91 ∷ compact_items (chain (map issue_object (map issue_seen issues.now)))) (string_bytes out.new)) }
{
    put_char(out, '[')?;
    put_each(out, issues)?;
    put_char(out, ']')?;
    Ok(())
}

/// The findings as a report of Code Quality, on one line: a list of objects with `description`, `check_name`, `fingerprint`, `severity` and `location`. A
/// fingerprint is that of the rule, the file and the message, and of how many findings before it have the same. The error is that memory ran out.
pub fn gitlab(alloc: Global, files: &[FileReport<'_>]) -> Result<String, AllocError>
    ensures { IfOk result (λ t. string_bytes t ≡ gitlab_text files.now) }
{
    let found = findings_of(alloc, files)?;
    let issues = issues_of(alloc, &found)?;
    let mut out = String::new(alloc);
    put_issues(&mut out, &issues)?;
    put_char(&mut out, '\n')?;
    Ok(out)
}

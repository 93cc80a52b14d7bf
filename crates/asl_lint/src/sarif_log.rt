// Findings in SARIF. (Static Analysis Results Interchange Format, version 2.1.0, OASIS.)
ghost use Rattle.std.specs.Prelude.{◌≡◌, ◌<◌, ◌∷◌, ◌++◌, ◌||◌, true, false, IfOk, OnOk, map, string_bytes};
ghost use Rattle.asl_json_data.specs.Data.{chain};
ghost use Rattle.asl_json_data.specs.Compact.{compact, compact_items};
ghost use Rattle.asl_writing.specs.Appends.{Appends};
ghost use Rattle.asl_lint.specs.Rules.{sentence};
ghost use Rattle.asl_lint.specs.Sarif.{artifact, configuration, driver, file_rules, is_unreserved, location, locations, log, message, more_rules, region, result_object, results, rule_object, rules, rules_told, run, runs, sarif_text, stretch, tool, upper_digit, uri, uri_byte};
ghost use Rattle.asl_lint.specs.Told.{has_some};
ghost use Rattle.asl_lint.specs.private.Writing.{more_items, more_results};

use crate::finding::Finding;
use crate::pieces::{
    put_char, put_column, put_key, put_level, put_line, put_name, put_text, separate,
};
use crate::report::FileReport;
use crate::rule::{FileRule, MockRule, Rule};
use asl_def_schema::FaultKind;
use asl_lint_warnings::WarningKind;
use std::alloc::{AllocError, Global};

const RULES: &[Rule] = &[
    Rule::Json,
    Rule::Fault(FaultKind::NotObject),
    Rule::Fault(FaultKind::Missing),
    Rule::Fault(FaultKind::UnknownField),
    Rule::Fault(FaultKind::Unsupported),
    Rule::Fault(FaultKind::WrongType),
    Rule::Fault(FaultKind::Range),
    Rule::Fault(FaultKind::Both),
    Rule::Fault(FaultKind::Neither),
    Rule::Fault(FaultKind::NoTarget),
    Rule::Fault(FaultKind::DuplicateState),
    Rule::Fault(FaultKind::AllNotLast),
    Rule::Fault(FaultKind::Path),
    Rule::Fault(FaultKind::Expression),
    Rule::Fault(FaultKind::Nesting),
    Rule::Warning(WarningKind::UnreachableState),
    Rule::Warning(WarningKind::NoEnd),
    Rule::Warning(WarningKind::NoDefault),
    Rule::Warning(WarningKind::OwnDefault),
    Rule::Warning(WarningKind::RepeatedRule),
    Rule::Warning(WarningKind::ImpossibleAnd),
    Rule::Warning(WarningKind::EndlessWait),
    Rule::Warning(WarningKind::UnsentToken),
    Rule::Warning(WarningKind::HeartbeatNotShorter),
    Rule::Warning(WarningKind::LimitBelowWait),
    Rule::Warning(WarningKind::UnaskedHandler),
    Rule::Warning(WarningKind::UnknownError),
    Rule::Warning(WarningKind::RepeatedError),
    Rule::Warning(WarningKind::UnusedDelay),
    Rule::Warning(WarningKind::MaxDelayBelowInterval),
    Rule::Warning(WarningKind::ForgottenDollar),
    Rule::Warning(WarningKind::NotComputed),
    Rule::Warning(WarningKind::UnknownContextMember),
    Rule::Warning(WarningKind::FailingCall),
    Rule::Mock(MockRule::Json),
    Rule::Mock(MockRule::Shape),
    Rule::Mock(MockRule::Key),
    Rule::Mock(MockRule::Overlap),
    Rule::Mock(MockRule::NoResponse),
    Rule::Mock(MockRule::NoMachine),
    Rule::Mock(MockRule::UnknownState),
    Rule::Mock(MockRule::NotTask),
    Rule::Mock(MockRule::UnansweredTask),
    Rule::Mock(MockRule::UnusedResponse),
    Rule::Mock(MockRule::MissingAnswer),
];

const FILE_RULES: &[Rule] = &[
    Rule::File(FileRule::Kind),
    Rule::File(FileRule::Syntax),
    Rule::File(FileRule::Duplicate),
    Rule::File(FileRule::Depth),
    Rule::File(FileRule::Number),
    Rule::File(FileRule::Size),
    Rule::File(FileRule::Utf8),
    Rule::File(FileRule::ExpectJson),
    Rule::File(FileRule::ExpectShape),
    Rule::File(FileRule::NoCase),
    Rule::File(FileRule::StepLine),
    Rule::File(FileRule::ScriptLine),
];

/// The rules of definitions and mock files.
#[tactic(auto, unfolding(crate::specs::Sarif::rules))]
fn rules() -> &'static [Rule]
    ensures { result.now ≡ rules }
{
    RULES
}

/// The rules of other files, where there are such.
#[tactic(auto, unfolding(crate::specs::Sarif::file_rules))]
fn more_rules(has_others: bool) -> &'static [Rule]
    ensures { result.now ≡ more_rules has_others }
{
    if has_others { FILE_RULES } else { &[] }
}

/// Appends a text as an object.
fn put_message(out: &mut String, text: &str) -> Result<(), AllocError>
    ensures { OnOk result (Appends (string_bytes out.old) (compact (message text.now)) (string_bytes out.new)) }
{
    put_char(out, '{')?;
    put_text(out, "text", text)?;
    put_char(out, '}')?;
    Ok(())
}

/// Appends the sentence of a rule as an object.
fn put_sentence(out: &mut String, rule: Rule) -> Result<(), AllocError>
    ensures { OnOk result (Appends (string_bytes out.old) (compact (message (sentence rule))) (string_bytes out.new)) }
{
    put_message(out, rule.sentence())
}

/// Appends its level as an object.
fn put_configuration(out: &mut String, rule: Rule) -> Result<(), AllocError>
    ensures { OnOk result (Appends (string_bytes out.old) (compact (configuration rule)) (string_bytes out.new)) }
{
    put_char(out, '{')?;
    put_level(out, "level", rule)?;
    put_char(out, '}')?;
    Ok(())
}

fn put_rule(out: &mut String, rule: Rule) -> Result<(), AllocError>
    ensures { OnOk result (Appends (string_bytes out.old) (compact (rule_object rule)) (string_bytes out.new)) }
{
    put_char(out, '{')?;
    put_name(out, "id", rule)?;
    put_char(out, ',')?;
    put_key(out, "shortDescription")?;
    put_sentence(out, rule)?;
    put_char(out, ',')?;
    put_key(out, "defaultConfiguration")?;
    put_configuration(out, rule)?;
    put_char(out, '}')?;
    Ok(())
}

/// Appends each of these rules, with commas between, and one before where something stands before.
fn put_each_rule(out: &mut String, is_begun: bool, rules: &[Rule]) -> Result<(), AllocError>
    ensures { OnOk result (Appends (string_bytes out.old) (more_items rule_object is_begun rules.now) (string_bytes out.new)) }
{
    let mut is_begun = is_begun;
    for rule in rules {
        separate(out, is_begun)?;
        put_rule(out, *rule)?;
        is_begun = true;
    }
    Ok(())
}

/// Appends the rules as a list.
#[tactic(auto, unfolding(crate::specs::Sarif::rules))]
fn put_rules(out: &mut String, has_others: bool) -> Result<(), AllocError>
    ensures { OnOk result (Appends (string_bytes out.old) (91 ∷ compact_items (chain (rules_told has_others))) (string_bytes out.new)) }
{
    put_char(out, '[')?;
    put_each_rule(out, false, rules())?;
    put_each_rule(out, true, more_rules(has_others))?;
    put_char(out, ']')?;
    Ok(())
}

/// Appends what the program is, with its rules.
fn put_driver(out: &mut String, has_others: bool) -> Result<(), AllocError>
    ensures { OnOk result (Appends (string_bytes out.old) (compact (driver has_others)) (string_bytes out.new)) }
{
    put_char(out, '{')?;
    put_text(out, "name", "asl")?;
    put_char(out, ',')?;
    put_text(out, "version", "0.1.0")?;
    put_char(out, ',')?;
    put_key(out, "rules")?;
    put_rules(out, has_others)?;
    put_char(out, '}')?;
    Ok(())
}

/// Whether a byte stands for itself in a URI. (RFC 3986, section 2.3, and the slash.)
#[tactic(auto, unfolding(crate::specs::Sarif::is_unreserved))]
fn is_unreserved(byte: u8) -> bool
    ensures { result ≡ is_unreserved byte }
{
    byte.is_ascii_alphanumeric()
        || byte == b'-'
        || byte == b'.'
        || byte == b'_'
        || byte == b'~'
        || byte == b'/'
}

/// The upper-case hexadecimal digit of this value.
fn digit(value: u8) -> char
    requires { value < 16 }
    ensures value { result ≡ upper_digit value }
    ensures ascii { result < 128 }
{
    if value < 10 {
        (b'0' + value) as char
    } else {
        (b'7' + value) as char
    }
}

/// Appends a byte of the name of a file as it stands in a URI. (RFC 3986, section 2.1.)
#[tactic(auto, unfolding(crate::specs::Sarif::uri_byte))]
fn put_uri_byte(out: &mut String, byte: u8) -> Result<(), AllocError>
    ensures { OnOk result (Appends (string_bytes out.old) (uri_byte byte) (string_bytes out.new)) }
{
    if is_unreserved(byte) {
        return out.push(byte as char);
    }
    put_char(out, '%')?;
    out.push(digit(byte / 16))?;
    out.push(digit(byte % 16))
}

/// The name of a file as a reference to a URI.
fn uri_of(alloc: Global, file: &str) -> Result<String, AllocError>
    ensures { IfOk result (λ t. string_bytes t ≡ uri file.now) }
{
    let mut out = String::new(alloc);
    for byte in file.as_bytes() {
        put_uri_byte(&mut out, *byte)?;
    }
    Ok(out)
}

fn put_region(out: &mut String, finding: &Finding) -> Result<(), AllocError>
    ensures { OnOk result (Appends (string_bytes out.old) (compact (region finding.now)) (string_bytes out.new)) }
{
    put_char(out, '{')?;
    put_line(out, "startLine", finding)?;
    put_char(out, ',')?;
    put_column(out, "startColumn", finding)?;
    put_char(out, '}')?;
    Ok(())
}

/// Appends the file of this URI.
fn put_artifact(out: &mut String, uri: &str) -> Result<(), AllocError>
    ensures { OnOk result (Appends (string_bytes out.old) (compact (artifact uri.now)) (string_bytes out.new)) }
{
    put_char(out, '{')?;
    put_text(out, "uri", uri)?;
    put_char(out, '}')?;
    Ok(())
}

/// Appends where a finding is, in the file of this URI.
fn put_stretch(out: &mut String, uri: &str, finding: &Finding) -> Result<(), AllocError>
    ensures { OnOk result (Appends (string_bytes out.old) (compact (stretch uri.now finding.now)) (string_bytes out.new)) }
{
    put_char(out, '{')?;
    put_key(out, "artifactLocation")?;
    put_artifact(out, uri)?;
    put_char(out, ',')?;
    put_key(out, "region")?;
    put_region(out, finding)?;
    put_char(out, '}')?;
    Ok(())
}

fn put_location(out: &mut String, uri: &str, finding: &Finding) -> Result<(), AllocError>
    ensures { OnOk result (Appends (string_bytes out.old) (compact (location uri.now finding.now)) (string_bytes out.new)) }
{
    put_char(out, '{')?;
    put_key(out, "physicalLocation")?;
    put_stretch(out, uri, finding)?;
    put_char(out, '}')?;
    Ok(())
}

/// Appends a list of its one place.
fn put_locations(out: &mut String, uri: &str, finding: &Finding) -> Result<(), AllocError>
    ensures { OnOk result (Appends (string_bytes out.old) (compact (locations uri.now finding.now)) (string_bytes out.new)) }
{
    put_char(out, '[')?;
    put_location(out, uri, finding)?;
    put_char(out, ']')?;
    Ok(())
}

/// Appends its message as an object.
fn put_finding(out: &mut String, finding: &Finding) -> Result<(), AllocError>
    ensures { OnOk result (Appends (string_bytes out.old) (compact (message (string_bytes finding.now.message))) (string_bytes out.new)) }
{
    put_message(out, finding.message.as_str())
}

fn put_result(out: &mut String, uri: &str, finding: &Finding) -> Result<(), AllocError>
    ensures { OnOk result (Appends (string_bytes out.old) (compact (result_object uri.now finding.now)) (string_bytes out.new)) }
{
    put_char(out, '{')?;
    put_name(out, "ruleId", finding.rule)?;
    put_char(out, ',')?;
    put_level(out, "level", finding.rule)?;
    put_char(out, ',')?;
    put_key(out, "message")?;
    put_finding(out, finding)?;
    put_char(out, ',')?;
    put_key(out, "locations")?;
    put_locations(out, uri, finding)?;
    put_char(out, '}')?;
    Ok(())
}

/// Appends each of these findings in the file of this URI, with commas between, and one before where something stands before.
fn put_each_result(
    out: &mut String,
    is_begun: bool,
    uri: &str,
    findings: &[Finding],
) -> Result<(), AllocError>
    ensures { OnOk result (Appends (string_bytes out.old) (more_items (result_object uri.now) is_begun findings.now) (string_bytes out.new)) }
{
    let mut is_begun = is_begun;
    for finding in findings {
        separate(out, is_begun)?;
        put_result(out, uri, finding)?;
        is_begun = true;
    }
    Ok(())
}

fn has_some(findings: &[Finding]) -> bool
    ensures { result ≡ has_some findings.now }
{
    match findings {
        [] => false,
        _ => true,
    }
}

/// Appends each finding of a file, with commas between, and one before where something stands before.
fn put_file(
    alloc: Global,
    out: &mut String,
    is_begun: bool,
    file: &FileReport<'_>,
) -> Result<(), AllocError>
    ensures { OnOk result (Appends (string_bytes out.old) (more_items (result_object (uri file.now.name.now)) is_begun file.now.findings.items) (string_bytes out.new)) }
{
    let uri = uri_of(alloc, file.name)?;
    put_each_result(out, is_begun, uri.as_str(), &file.findings)
}

/// Whether something stands before what comes behind a file.
fn is_begun_behind(is_begun: bool, file: &FileReport<'_>) -> bool
    ensures { result ≡ (is_begun || has_some file.now.findings.items) }
{
    is_begun || has_some(&file.findings)
}

/// Appends each finding of each of these files, with commas between.
fn put_files(alloc: Global, out: &mut String, files: &[FileReport<'_>]) -> Result<(), AllocError>
    ensures { OnOk result (Appends (string_bytes out.old) (more_results false files.now) (string_bytes out.new)) }
{
    let mut is_begun = false;
    for file in files {
        put_file(alloc, out, is_begun, file)?;
        is_begun = is_begun_behind(is_begun, file);
    }
    Ok(())
}

/// Appends the findings as a list.
fn put_results(alloc: Global, out: &mut String, files: &[FileReport<'_>]) -> Result<(), AllocError>
    ensures { OnOk result (Appends (string_bytes out.old) (91 ∷ compact_items (chain (results files.now))) (string_bytes out.new)) }
{
    put_char(out, '[')?;
    put_files(alloc, out, files)?;
    put_char(out, ']')?;
    Ok(())
}

/// Appends the program that made the log, with its rules.
fn put_tool(out: &mut String, has_others: bool) -> Result<(), AllocError>
    ensures { OnOk result (Appends (string_bytes out.old) (compact (tool has_others)) (string_bytes out.new)) }
{
    put_char(out, '{')?;
    put_key(out, "driver")?;
    put_driver(out, has_others)?;
    put_char(out, '}')?;
    Ok(())
}

/// Appends the run, with the rules.
fn put_run(
    alloc: Global,
    out: &mut String,
    has_others: bool,
    files: &[FileReport<'_>],
) -> Result<(), AllocError>
    ensures { OnOk result (Appends (string_bytes out.old) (compact (run has_others (results files.now))) (string_bytes out.new)) }
{
    put_char(out, '{')?;
    put_key(out, "tool")?;
    put_tool(out, has_others)?;
    put_char(out, ',')?;
    put_text(out, "columnKind", "unicodeCodePoints")?;
    put_char(out, ',')?;
    put_key(out, "results")?;
    put_results(alloc, out, files)?;
    put_char(out, '}')?;
    Ok(())
}

/// Appends a list of the one run, with the rules.
fn put_runs(
    alloc: Global,
    out: &mut String,
    has_others: bool,
    files: &[FileReport<'_>],
) -> Result<(), AllocError>
    ensures { OnOk result (Appends (string_bytes out.old)
        (compact (runs has_others (results files.now))) (string_bytes out.new)) }
{
    put_char(out, '[')?;
    put_run(alloc, out, has_others, files)?;
    put_char(out, ']')?;
    Ok(())
}

/// Appends the log, with the rules.
fn put_log(
    alloc: Global,
    out: &mut String,
    has_others: bool,
    files: &[FileReport<'_>],
) -> Result<(), AllocError>
    ensures { OnOk result (Appends (string_bytes out.old) (compact (log has_others (results files.now))) (string_bytes out.new)) }
{
    put_char(out, '{')?;
    put_text(
        out,
        "$schema",
        "https://json.schemastore.org/sarif-2.1.0.json",
    )?;
    put_char(out, ',')?;
    put_text(out, "version", "2.1.0")?;
    put_char(out, ',')?;
    put_key(out, "runs")?;
    put_runs(alloc, out, has_others, files)?;
    put_char(out, '}')?;
    Ok(())
}

/// The findings as a log of one run in SARIF 2.1.0, on one line, with the rules of definitions and mock files, and with those of other files, if
/// there are such. The error is that memory ran out.
pub fn sarif(
    alloc: Global,
    has_others: bool,
    files: &[FileReport<'_>],
) -> Result<String, AllocError>
    ensures { IfOk result (λ t. string_bytes t ≡ sarif_text has_others files.now) }
{
    let mut out = String::new(alloc);
    put_log(alloc, &mut out, has_others, files)?;
    put_char(&mut out, '\n')?;
    Ok(out)
}

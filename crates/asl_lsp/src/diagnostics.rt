// What is told of what is found in a document.
ghost use Rattle.std.specs.Prelude.{◌≡◌, [], None, IfOk, string_bytes};
ghost use Rattle.asl_json.specs.View.{data_of};
ghost use Rattle.asl_lint.specs.Linted.{AreLinted};
ghost use Rattle.asl_lsp.specs.Diagnostics.{severity_number, diagnostic, diagnostics, published, cleared};
ghost use Rattle.asl_lsp.specs.Replies.{AreDiagnosed, published_text};

use crate::document::Document;
use crate::reply::publish;
use asl_json::{Items, Json, Members};
use asl_lint::{Finding, Severity, Source, lint};
use asl_lsp_features::{range, told, uinteger, with};
use asl_lsp_positions::{Encoding, Positions};
use std::alloc::{AllocError, Global};

/// (Language Server Protocol 3.17, "DiagnosticSeverity".)
fn severity_number(severity: Severity) -> usize
    ensures { result ≡ severity_number severity }
{
    match severity {
        Severity::Error => 1,
        Severity::Warning => 2,
    }
}

fn diagnostic(
    alloc: Global,
    positions: &Positions<'_>,
    finding: &Finding,
) -> Result<Json, AllocError>
    ensures { IfOk result (λ v. data_of v ≡ diagnostic positions.now.0 positions.now.1 finding.now) }
{
    let severity = uinteger(severity_number(finding.rule.severity()));
    let range = range(alloc, positions, finding.span)?;
    let members = with(alloc, Members::new(alloc), "range", range)?;
    let members = with(alloc, members, "severity", severity)?;
    let members = with(alloc, members, "code", told(alloc, finding.rule.name())?)?;
    let members = with(alloc, members, "source", told(alloc, "asl")?)?;
    let members = with(
        alloc,
        members,
        "message",
        told(alloc, finding.message.as_str())?,
    )?;
    Ok(Json::Dict(members))
}

fn diagnostics(
    alloc: Global,
    positions: &Positions<'_>,
    findings: &[Finding],
) -> Result<Json, AllocError>
    ensures { IfOk result (λ v. data_of v ≡ diagnostics positions.now.0 positions.now.1 findings.now) }
{
    let mut items = Vec::with_capacity(alloc, findings.len())?;
    for finding in findings {
        items.push(diagnostic(alloc, positions, finding)?)?;
    }
    Ok(Json::List(Items::of_values(items)))
}

/// What is published of these findings in a document.
fn published(
    alloc: Global,
    encoding: Encoding,
    document: &Document,
    findings: &[Finding],
) -> Result<Json, AllocError>
    ensures { IfOk result (λ v. data_of v ≡ published encoding document.now findings.now) }
{
    let positions = Positions::of(alloc, encoding, document.text.as_str())?;
    let diagnostics = diagnostics(alloc, &positions, findings)?;
    let uri = told(alloc, document.uri.as_str())?;
    let members = with(alloc, Members::new(alloc), "uri", uri)?;
    let members = with(
        alloc,
        members,
        "version",
        Json::Num(document.version.copy()),
    )?;
    let members = with(alloc, members, "diagnostics", diagnostics)?;
    Ok(Json::Dict(members))
}

/// Everything that is wrong or suspicious in the text of a document.
fn findings_in(alloc: Global, document: &Document) -> Result<Vec<Finding>, AllocError>
    ensures { IfOk result (λ fs. AreLinted None None document.now.text fs.items []) }
{
    let source = Source {
        definition: document.text.as_str().as_bytes(),
        mocks: None,
        machine: None,
    };
    let report = lint(alloc, &source)?;
    Ok(report.definition)
}

/// The message with what is found in a document. The error is that memory ran out.
pub(crate) fn diagnose(
    alloc: Global,
    encoding: Encoding,
    document: &Document,
) -> Result<String, AllocError>
    ensures { IfOk result (λ t. AreDiagnosed encoding document.now (string_bytes t)) }
{
    let findings = findings_in(alloc, document)?;
    let params = published(alloc, encoding, document, &findings)?;
    publish(alloc, &params)
}

/// What is published of a document that isn't open any more.
fn cleared(alloc: Global, uri: &str) -> Result<Json, AllocError>
    ensures { IfOk result (λ v. data_of v ≡ cleared uri.now) }
{
    let none = Json::List(Items::of_values(Vec::new(alloc)));
    let members = with(alloc, Members::new(alloc), "uri", told(alloc, uri)?)?;
    let members = with(alloc, members, "diagnostics", none)?;
    Ok(Json::Dict(members))
}

/// The message that nothing is told of the document with this URI any more. The error is that memory ran out.
pub(crate) fn clear(alloc: Global, uri: &str) -> Result<String, AllocError>
    ensures { IfOk result (λ t. string_bytes t ≡ published_text (cleared uri.now)) }
{
    let params = cleared(alloc, uri)?;
    publish(alloc, &params)
}

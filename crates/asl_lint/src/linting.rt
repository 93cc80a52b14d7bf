// Everything that is found in some texts.
ghost use Rattle.std.specs.Prelude.{◌≡◌, None, Some, option_map, map, IfOk, IfErr, OnOk};
ghost use Rattle.std.specs.List.{All};
ghost use Rattle.asl_json.specs.View.{data_of};
ghost use Rattle.asl_json_data.specs.Reads.{ReadsAs};
ghost use Rattle.asl_lint.specs.Linted.{AreApart, AreJudged, AreLinted, AreMocksJudged, AreMocksLinted, AreUnanswered, IsUnread};
ghost use Rattle.asl_lint.specs.Places.{IsAt, AreIn};
ghost use Rattle.asl_lint.specs.private.Founds.{Adds, noted};

use crate::definition::found_in;
use crate::finding::{Finding, Found};
use crate::json_faults::unread;
use crate::mock_words::Beside;
use crate::mocks::{add_unanswered, found_in_mocks};
use crate::placing::placed;
use crate::report::Report;
use crate::rule::{MockRule, Rule};
use asl_json::Json;
use asl_json_read::{JsonFault, read};
use asl_lint_messages::States;
use std::alloc::{AllocError, Global};

/// What is judged: the text of a definition, and that of a mock file where there is one, of which the machine of this name is meant, or the only
/// one.
#[derive(Clone, Copy)]
pub struct Source<'a> {
    pub definition: &'a [u8],
    pub mocks: Option<&'a [u8]>,
    pub machine: Option<&'a str>,
}

/// The value of a text, or the finding that it is no JSON.
fn value_of(
    alloc: Global,
    rule: Rule,
    text: &[u8],
) -> Result<Result<Json, Vec<Finding>>, AllocError>
    ensures at { IfOk result (λ r. IfErr r (λ fs. All (IsAt text.now) fs.items)) }
    ensures value { IfOk result (λ r. IfOk r (λ v. ReadsAs text.now (data_of v))) }
    ensures unread { IfOk result (λ r. IfErr r (λ fs. IsUnread rule text.now fs.items)) }
{
    match read(alloc, text) {
        Ok(value) => Ok(Ok(value)),
        Err(JsonFault::OutOfMemory) => Err(AllocError),
        Err(fault) => {
            let findings = unread(alloc, rule, text, fault)?;
            Ok(Err(findings))
        }
    }
}

/// The finding that a text is no JSON; none where it is. The error is that memory ran out.
pub fn unread_in(alloc: Global, text: &[u8]) -> Result<Vec<Finding>, AllocError>
    ensures { IfOk result (λ fs. All (IsAt text.now) fs.items) }
{
    match value_of(alloc, Rule::Json, text)? {
        Ok(_value) => Ok(Vec::new(alloc)),
        Err(findings) => Ok(findings),
    }
}

/// Everything that is wrong or suspicious in a definition and in the mock file beside it, in the order of their places. The error is that
/// memory ran out.
pub fn lint(alloc: Global, source: &Source<'_>) -> Result<Report, AllocError>
    ensures definition { IfOk result (λ r. All (IsAt source.now.definition.now) r.definition.items) }
    ensures mocks { IfOk result (λ r. AreIn (option_map (λ b. b.now) source.now.mocks) r.mocks.items) }
    // Each fault and each warning is told once, at its place, of the definition and of the mock file, and nothing else.
    ensures told { IfOk result (λ r. AreLinted (option_map (λ k. k.now) source.now.machine)
        (option_map (λ b. b.now) source.now.mocks) source.now.definition.now r.definition.items
        r.mocks.items) }
{
    match value_of(alloc, Rule::Json, source.definition)? {
        Ok(definition) => lint_definition(alloc, source, &definition),
        Err(findings) => lint_apart(alloc, source, findings),
    }
}

/// What is told of a definition that is no JSON text, and of the mock file by itself.
fn lint_apart(
    alloc: Global,
    source: &Source<'_>,
    findings: Vec<Finding>,
) -> Result<Report, AllocError>
    requires at { All (IsAt source.now.definition.now) findings.items }
    requires unread { IsUnread Rule.Json source.now.definition.now findings.items }
    ensures definition { IfOk result (λ r. All (IsAt source.now.definition.now) r.definition.items) }
    ensures mocks { IfOk result (λ r. AreIn (option_map (λ b. b.now) source.now.mocks) r.mocks.items) }
    ensures told { IfOk result (λ r. AreApart (option_map (λ k. k.now) source.now.machine)
        (option_map (λ b. b.now) source.now.mocks) source.now.definition.now r.definition.items
        r.mocks.items) }
{
    let mocks = lint_alone(alloc, source.mocks, source.machine)?;
    Ok(Report {
        definition: findings,
        mocks,
    })
}

/// What is wrong with a mock file by itself, where there is one.
fn lint_alone(
    alloc: Global,
    mocks: Option<&[u8]>,
    machine: Option<&str>,
) -> Result<Vec<Finding>, AllocError>
    ensures at { IfOk result (λ fs. AreIn (option_map (λ b. b.now) mocks.entry) fs.items) }
    ensures told { IfOk result (λ fs. AreMocksLinted (option_map (λ k. k.now) machine.entry) None
        (option_map (λ b. b.now) mocks.entry) fs.items) }
{
    match mocks {
        Some(text) => lint_mocks(alloc, text, machine),
        None => Ok(Vec::new(alloc)),
    }
}

/// Everything that is wrong or suspicious in a mock file by itself, in the order of their places. The error is that memory ran out.
pub fn lint_mocks(
    alloc: Global,
    text: &[u8],
    machine: Option<&str>,
) -> Result<Vec<Finding>, AllocError>
    ensures at { IfOk result (λ fs. All (IsAt text.now) fs.items) }
    ensures told { IfOk result (λ fs. AreMocksLinted (option_map (λ k. k.now) machine.entry) None
        (Some text.now) fs.items) }
{
    match value_of(alloc, Rule::Mock(MockRule::Json), text)? {
        Ok(file) => {
            let beside = Beside {
                states: None,
                machine,
            };
            lint_value(alloc, text, &file, beside)
        }
        Err(findings) => Ok(findings),
    }
}

/// What is wrong with a mock file that a text spells.
fn lint_value(
    alloc: Global,
    text: &[u8],
    file: &Json,
    beside: Beside<'_>,
) -> Result<Vec<Finding>, AllocError>
    requires { ReadsAs text.now (data_of file.now) }
    ensures at { IfOk result (λ fs. All (IsAt text.now) fs.items) }
    ensures told { IfOk result (λ fs. AreMocksJudged (option_map (λ k. k.now) beside.entry.machine)
        (option_map (λ s. s.now.list.items) beside.entry.states) text.now fs.items) }
{
    let found = found_in_mocks(alloc, file, beside)?;
    let findings = placed(alloc, text, file, found)?;
    Ok(findings)
}

/// What is told of a definition that a text spells, and of the mock file beside it.
fn lint_definition(
    alloc: Global,
    source: &Source<'_>,
    definition: &Json,
) -> Result<Report, AllocError>
    requires { ReadsAs source.now.definition.now (data_of definition.now) }
    ensures definition { IfOk result (λ r. All (IsAt source.now.definition.now) r.definition.items) }
    ensures mocks { IfOk result (λ r. AreIn (option_map (λ b. b.now) source.now.mocks) r.mocks.items) }
    ensures judged { IfOk result (λ r. AreJudged (option_map (λ k. k.now) source.now.machine)
        (option_map (λ b. b.now) source.now.mocks) source.now.definition.now r.definition.items
        r.mocks.items) }
{
    let states = States::of(alloc, definition)?;
    let mut found = found_in(alloc, definition, &states)?;
    let mocks = lint_beside(alloc, source, &states, &mut found)?;
    let findings = placed(alloc, source.definition, definition, found)?;
    Ok(Report {
        definition: findings,
        mocks,
    })
}

/// What is wrong with the mock file beside a definition with these states, where there is one. The Tasks that it doesn't answer are added to what is
/// found in the definition.
fn lint_beside(
    alloc: Global,
    source: &Source<'_>,
    states: &States<'_>,
    found: &mut Vec<Found>,
) -> Result<Vec<Finding>, AllocError>
    ensures at { IfOk result (λ fs. AreIn (option_map (λ b. b.now) source.now.mocks) fs.items) }
    ensures told { IfOk result (λ fs. AreMocksLinted (option_map (λ k. k.now) source.now.machine)
        (Some states.now.list.items) (option_map (λ b. b.now) source.now.mocks) fs.items) }
    ensures found { OnOk result (Adds (AreUnanswered (option_map (λ k. k.now) source.now.machine)
        states.now.list.items (option_map (λ b. b.now) source.now.mocks))
        (map noted found.old.items) (map noted found.new.items)) }
{
    match source.mocks {
        Some(text) => lint_file(alloc, source.machine, states, found, text),
        None => Ok(Vec::new(alloc)),
    }
}

/// The same of the text of a mock file.
fn lint_file(
    alloc: Global,
    machine: Option<&str>,
    states: &States<'_>,
    found: &mut Vec<Found>,
    text: &[u8],
) -> Result<Vec<Finding>, AllocError>
    ensures at { IfOk result (λ fs. All (IsAt text.now) fs.items) }
    ensures told { IfOk result (λ fs. AreMocksLinted (option_map (λ k. k.now) machine.entry)
        (Some states.now.list.items) (Some text.now) fs.items) }
    ensures found { OnOk result (Adds (AreUnanswered (option_map (λ k. k.now) machine.entry)
        states.now.list.items (Some text.now))
        (map noted found.old.items) (map noted found.new.items)) }
{
    match value_of(alloc, Rule::Mock(MockRule::Json), text)? {
        Ok(file) => {
            add_unanswered(alloc, found, &file, machine, &states.list)?;
            let beside = Beside {
                states: Some(states),
                machine,
            };
            lint_value(alloc, text, &file, beside)
        }
        Err(findings) => Ok(findings),
    }
}

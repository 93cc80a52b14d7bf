// What is found in a file that is neither a definition nor a mock file.
ghost use Rattle.std.specs.Prelude.{◌≡◌, ◌⊎◌, ◌∷◌, [], map, option_map, IfOk};
ghost use Rattle.std.specs.List.{All};
ghost use Rattle.asl_json_data.specs.Reads.{ReadsAs};
ghost use Rattle.asl_json.specs.View.{data_of};
ghost use Rattle.asl_lint.specs.Places.{IsAt, noted};
ghost use Rattle.asl_lint_files.specs.Pointing.{way_in};
ghost use Rattle.asl_lint_files.specs.Judged.{rule_of_text, tests_told, AreExpectationsJudged, AreStepsJudged, AreTestsJudged, IsInputJudged, IsScriptJudged, IsUnclear};

use crate::casing::lost_cases;
use crate::cutting::line_span;
use crate::kinds::Kind;
use crate::pointing::way_to;
use crate::wanting::{command_words, misfit_words, step_words, unclear_words};
use asl_json::Json;
use asl_json_read::{JsonFault, read};
use asl_json_spans::Span;
use asl_lint::{FileRule, Finding, Found, Rule, alone, placed, told_at, unread};
use asl_run_input::{StepsFault, read_steps};
use asl_session::{ScriptFault, read_script};
use asl_suite_file::{Drafts, ExpectFault};
use std::alloc::{AllocError, Global};

/// The rule of a fault of a text.
fn rule_of_text(fault: &JsonFault) -> Rule
    ensures { result ≡ rule_of_text fault.now }
{
    match fault {
        JsonFault::Syntax(_) => Rule::File(FileRule::Syntax),
        JsonFault::Duplicate(_) => Rule::File(FileRule::Duplicate),
        JsonFault::Depth(_) => Rule::File(FileRule::Depth),
        JsonFault::Number(_) => Rule::File(FileRule::Number),
        JsonFault::Size | JsonFault::OutOfMemory => Rule::File(FileRule::Size),
        JsonFault::Utf8(_) => Rule::File(FileRule::Utf8),
    }
}

/// What is wrong with an input: that it is no JSON text, or nothing. The error is that memory ran out.
pub fn lint_input(alloc: Global, text: &[u8]) -> Result<Vec<Finding>, AllocError>
    ensures at { IfOk result (λ fs. All (IsAt text.now) fs.items) }
    ensures judged { IfOk result (λ fs. IsInputJudged text.now fs.items) }
{
    match read(alloc, text) {
        Ok(_value) => Ok(Vec::new(alloc)),
        Err(JsonFault::OutOfMemory) => Err(AllocError),
        Err(fault) => unread(alloc, rule_of_text(&fault), text, fault),
    }
}

// ---- expectation files

/// What is found of the value that a pointer points at, which doesn't fit.
fn misfit_at(alloc: Global, value: &Json, pointer: &str) -> Result<Vec<Found>, AllocError>
    ensures { IfOk result (λ fs. map noted fs.items
        ≡ (Rule.File FileRule.ExpectShape, way_in (data_of value.now) pointer.now) ∷ []) }
{
    let place = way_to(alloc, value, pointer.as_bytes())?;
    let words = misfit_words(alloc, pointer)?;
    let mut found = Vec::new(alloc);
    found.push(told_at(Rule::File(FileRule::ExpectShape), place, words)?)?;
    Ok(found)
}

/// What is found in the value of an expectation file of this text, beside a mock file.
fn found_in_tests(
    alloc: Global,
    text: &[u8],
    value: &Json,
    mocks: Option<&Json>,
) -> Result<Vec<Found>, AllocError>
    requires { ReadsAs text.now (data_of value.now) }
    ensures { IfOk result (λ fs. map noted fs.items
        ≡ tests_told (option_map (λ v. data_of v.now) mocks.entry) (data_of value.now)) }
{
    match Drafts::read(alloc, text) {
        Ok(_drafts) => lost_cases(alloc, value, mocks),
        Err(ExpectFault::Shape(place)) => misfit_at(alloc, value, place.as_str()),
        // It is a JSON text.
        Err(ExpectFault::Json(_) | ExpectFault::OutOfMemory) => Err(AllocError),
    }
}

/// What is wrong with an expectation file that a text spells, beside a mock file.
fn lint_tests(
    alloc: Global,
    text: &[u8],
    value: &Json,
    mocks: Option<&Json>,
) -> Result<Vec<Finding>, AllocError>
    requires { ReadsAs text.now (data_of value.now) }
    ensures at { IfOk result (λ fs. All (IsAt text.now) fs.items) }
    ensures judged { IfOk result (λ fs. AreTestsJudged (option_map (λ v. data_of v.now) mocks.entry)
        text.now fs.items) }
{
    let found = found_in_tests(alloc, text, value, mocks)?;
    let findings = placed(alloc, text, value, found)?;
    Ok(findings)
}

/// What is wrong with an expectation file: that it is no JSON text, or the first value that doesn't fit; where all fits, each test whose case the mock file
/// beside it doesn't have. The error is that memory ran out.
pub fn lint_expectations(
    alloc: Global,
    text: &[u8],
    mocks: Option<&Json>,
) -> Result<Vec<Finding>, AllocError>
    ensures at { IfOk result (λ fs. All (IsAt text.now) fs.items) }
    ensures judged { IfOk result (λ fs. AreExpectationsJudged
        (option_map (λ v. data_of v.now) mocks.entry) text.now fs.items) }
{
    match read(alloc, text) {
        Ok(value) => lint_tests(alloc, text, &value, mocks),
        Err(JsonFault::OutOfMemory) => Err(AllocError),
        Err(fault) => unread(alloc, Rule::File(FileRule::ExpectJson), text, fault),
    }
}

// ---- files of lines

/// What is wrong with a steps file: its first line that is no step, or nothing. The error is that memory ran out.
pub fn lint_steps(alloc: Global, text: &[u8]) -> Result<Vec<Finding>, AllocError>
    ensures at { IfOk result (λ fs. All (IsAt text.now) fs.items) }
    ensures judged { IfOk result (λ fs. AreStepsJudged text.now fs.items) }
{
    match read_steps(alloc, text) {
        Ok(_steps) => Ok(Vec::new(alloc)),
        Err(StepsFault::OutOfMemory) => Err(AllocError),
        Err(StepsFault::Line(number)) => {
            let words = step_words(alloc, text, number)?;
            let span = line_span(text, number);
            alone(alloc, text, Rule::File(FileRule::StepLine), span, words)
        }
    }
}

/// What is wrong with a script: its first line that is no command, or nothing. The error is that memory ran out.
pub fn lint_script(alloc: Global, text: &[u8]) -> Result<Vec<Finding>, AllocError>
    ensures at { IfOk result (λ fs. All (IsAt text.now) fs.items) }
    ensures judged { IfOk result (λ fs. IsScriptJudged text.now fs.items) }
{
    match read_script(alloc, text) {
        Ok(_commands) => Ok(Vec::new(alloc)),
        Err(ScriptFault::OutOfMemory) => Err(AllocError),
        Err(ScriptFault::Line(number)) => {
            let words = command_words(alloc, text, number)?;
            let span = line_span(text, number);
            alone(alloc, text, Rule::File(FileRule::ScriptLine), span, words)
        }
    }
}

// ---- other files

/// That it isn't clear what a file is, or is what nobody judges. The error is that memory ran out.
pub(crate) fn lint_unclear(
    alloc: Global,
    text: &[u8],
    kind: Option<Kind>,
) -> Result<Vec<Finding>, AllocError>
    ensures at { IfOk result (λ fs. All (IsAt text.now) fs.items) }
    ensures judged { IfOk result (λ fs. IsUnclear text.now fs.items) }
{
    match read(alloc, text) {
        Ok(_value) => {
            let words = unclear_words(alloc, kind)?;
            let span = Span { begin: 0, end: 0 };
            alone(alloc, text, Rule::File(FileRule::Kind), span, words)
        }
        Err(JsonFault::OutOfMemory) => Err(AllocError),
        Err(fault) => unread(alloc, Rule::File(FileRule::Kind), text, fault),
    }
}

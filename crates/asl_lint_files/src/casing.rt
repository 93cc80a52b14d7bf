// The test cases that tests name, and a mock file doesn't have.
ghost use Rattle.std.specs.Prelude.{◌≡◌, ◌∷◌, ◌++◌, [], IfOk, OnOk, map, option_and_then, option_map};
ghost use Rattle.asl_json.specs.Meaning.{value_in};
ghost use Rattle.asl_json_data.specs.Data.{chain};
ghost use Rattle.asl_json.specs.View.{data_of, items_of};
ghost use Rattle.asl_lint.specs.Places.{noted};
ghost use Rattle.asl_lint_files.specs.Judged.{has_case, is_case, lost_cases, lost_from, lost_if, text_at, text_in};

use crate::mending::lost_words;
use asl_json::Json;
use asl_lint::{FileRule, Found, Rule, told_at};
use std::alloc::{AllocError, Global};

/// The text that a value is.
fn text_in(value: &Json) -> Option<&str>
    ensures { option_map (λ t. t.now) result ≡ text_in (data_of value.now) }
{
    match value {
        Json::Text(text) => Some(text.as_str()),
        _ => None,
    }
}

/// The text under a key.
fn text_at<'a>(value: &'a Json, key: &str) -> Option<&'a str>
    ensures { option_map (λ t. t.now) result ≡ text_at key.now (data_of value.now) }
{
    text_in(value.get(key)?)
}

/// The value under a key of a value, where there is one.
fn under<'a>(value: Option<&'a Json>, key: &str) -> Option<&'a Json>
    ensures { option_map (λ v. data_of v.now) result
        ≡ option_and_then (value_in key.now) (option_map (λ v. data_of v.now) value.entry) }
{
    value?.get(key)
}

/// Whether a machine of a mock file has a case.
fn is_case(mocks: &Json, machine: &str, case: &str) -> bool
    ensures { result ≡ is_case (data_of mocks.now) machine.now case.now }
{
    let machines = mocks.get("StateMachines");
    let cases = under(under(machines, machine), "TestCases");
    under(cases, case).is_some()
}

/// Whether a mock file has the case that a test names.
fn has_case(mocks: &Json, test: &Json) -> bool
    ensures { result ≡ has_case (data_of mocks.now) (data_of test.now) }
{
    match (text_at(test, "machine"), text_at(test, "case")) {
        (Some(machine), Some(case)) => is_case(mocks, machine, case),
        _ => true,
    }
}

/// What is found of the test of this number.
fn lost_at(alloc: Global, mocks: &Json, test: &Json, number: usize) -> Result<Found, AllocError>
    ensures { IfOk result (λ f. noted f ≡ (Rule.File FileRule.NoCase, number ∷ [])) }
{
    let machine = text_at(test, "machine").unwrap_or("");
    let case = text_at(test, "case").unwrap_or("");
    let words = lost_words(alloc, mocks, machine, case)?;
    let mut place = Vec::new(alloc);
    place.push(number)?;
    told_at(Rule::File(FileRule::NoCase), place, words)
}

/// Adds the test of this number, if the mock file lacks its case.
fn add_lost(
    alloc: Global,
    found: &mut Vec<Found>,
    mocks: &Json,
    test: &Json,
    number: usize,
) -> Result<(), AllocError>
    ensures { OnOk result (map noted found.new.items ≡ map noted found.old.items
        ++ lost_if (has_case (data_of mocks.now) (data_of test.now)) number) }
{
    if !has_case(mocks, test) {
        found.push(lost_at(alloc, mocks, test, number)?)?;
    }
    Ok(())
}

/// What is found of each of these tests.
fn lost_of(alloc: Global, mocks: &Json, tests: &[Json]) -> Result<Vec<Found>, AllocError>
    ensures { IfOk result (λ fs. map noted fs.items
        ≡ lost_from 0 (data_of mocks.now) (chain (items_of tests.now))) }
{
    let mut found = Vec::new(alloc);
    for (number, test) in tests.iter().enumerate() {
        add_lost(alloc, &mut found, mocks, test, number)?;
    }
    Ok(found)
}

/// What is found of the tests of a file whose case isn't in the mock file, where there is one. The error is that memory ran out.
pub(crate) fn lost_cases(
    alloc: Global,
    value: &Json,
    mocks: Option<&Json>,
) -> Result<Vec<Found>, AllocError>
    ensures { IfOk result (λ fs. map noted fs.items
        ≡ lost_cases (option_map (λ v. data_of v.now) mocks.entry) (data_of value.now)) }
{
    match (mocks, value) {
        (Some(mocks), Json::List(tests)) => lost_of(alloc, mocks, tests.values()),
        _ => Ok(Vec::new(alloc)),
    }
}

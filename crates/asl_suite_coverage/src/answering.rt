// Which answer of a mock file an invocation has.
ghost use Rattle.std.specs.Prelude.{◌≡◌, option_map};
ghost use Rattle.asl_json.specs.View.{data_of, members_of};
ghost use Rattle.asl_suite_coverage.specs.Answers.{case_in, case_named, has_number, answer_number, response_of, answer_of};

use asl_json::{Json, Member};
use asl_mock::span_in;

/// The case of these names in a mock file, where it has one.
fn case_named<'a>(mocks: &'a Json, machine: &str, case: &str) -> Option<&'a Json>
    ensures { option_map (λ v. data_of v.now) result ≡ case_named (data_of mocks.now) machine.now case.now }
{
    mocks
        .get("StateMachines")?
        .get(machine)?
        .get("TestCases")?
        .get(case)
}

/// The same; none where no case is named, as then nothing is looked up.
pub(crate) fn case_in<'a>(mocks: &'a Json, machine: &str, case: &str) -> Option<&'a Json>
    ensures { option_map (λ v. data_of v.now) result ≡ case_in (data_of mocks.now) machine.now case.now }
{
    if case.is_empty() {
        return None;
    }
    case_named(mocks, machine, case)
}

/// The name of the response that a case has for a state.
pub(crate) fn response_of<'a>(case: Option<&'a Json>, state: &str) -> Option<&'a str>
    ensures { option_map (λ t. t.now) result
        ≡ response_of (option_map (λ v. data_of v.now) case.entry) state.now }
{
    match case?.get(state) {
        Some(Json::Text(response)) => Some(response.as_str()),
        _ => None,
    }
}

/// Whether an answer with this key is for the invocation of this number.
fn has_number(key: &str, number: u32) -> bool
    ensures { result ≡ has_number key.now number }
{
    match span_in(key) {
        Some(span) => span.low <= number && number <= span.high,
        None => false,
    }
}

/// The number of the first of these answers that is for the invocation of this number.
fn number_of(answers: &[Member], number: u32) -> Option<usize>
    ensures { result ≡ answer_number 0 number (members_of answers.now) }
{
    for i in 0..answers.len() {
        if has_number(answers[i].key.as_str(), number) {
            return Some(i);
        }
    }
    None
}

/// The number of the answer to the invocation of this number, among those of a response.
pub(crate) fn answer_number(mocks: &Json, response: &str, number: u32) -> Option<usize>
    ensures { result ≡ answer_of (data_of mocks.now) response.now number }
{
    match mocks.get("MockedResponses") {
        Some(responses) => number_of(responses.members_at(response), number),
        None => None,
    }
}

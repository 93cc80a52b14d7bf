// What `explore` asks for.
ghost use Rattle.std.specs.Prelude.{◌≡◌};
ghost use Rattle.asl_words.specs.Asked.{all_cases_asked, all_orders_asked, errors_asked, errors_begin, errors_format, errors_shown, explore_asked, is_json, is_mocks, names_definition_alone, names_plans, names_project_alone, plans_format, witness_format};

use crate::given::Given;
use crate::meaning::{begin_of, names_chosen, names_run, number_if, number_of};
use crate::screen::Screen;
use crate::words::{
    ErrorsBegin, ErrorsFormat, ErrorsShown, ErrorsWords, ExploreAllWords, ExploreWords,
    PlansFormat, ProjectWords, SampleWords, WitnessFormat, Words,
};

/// Whether something is named of plans of errors.
fn names_plans(given: &Given<'_>) -> bool
    ensures { result ≡ names_plans given.now }
{
    given.error.is_some() || given.always.is_some() || given.undo.is_some()
}

/// Which errors are put in, and which rules are to hold then, is named only where some are.
pub(crate) fn explore_of<'a>(given: &Given<'a>, screen: Screen) -> Option<Words<'a>>
    ensures { result ≡ explore_asked given.now screen }
{
    if given.errors.is_some() {
        return errors_of(given, screen);
    }
    if names_plans(given) {
        return None;
    }
    if names_project_alone(given) {
        return all_cases_of(given);
    }
    all_orders_of(given, screen)
}

/// Whether nothing that an execution begins with is named, and no outcome; a project may be.
fn names_project_alone(given: &Given<'_>) -> bool
    ensures { result ≡ names_project_alone given.now }
{
    given.definition.is_none()
        && given.test.is_none()
        && !names_run(given)
        && given.witness.is_none()
        && given.format.is_none()
}

fn all_cases_of<'a>(given: &Given<'a>) -> Option<Words<'a>>
    ensures { result ≡ all_cases_asked given.now }
{
    let limit = number_of(given.limit, 1, 1_000_000)?;
    Some(Words::ExploreAll(ExploreAllWords {
        project: ProjectWords {
            project: given.project,
        },
        limit,
        prompt: given.prompt,
        calls: given.calls,
    }))
}

fn all_orders_of<'a>(given: &Given<'a>, screen: Screen) -> Option<Words<'a>>
    ensures { result ≡ all_orders_asked given.now screen }
{
    Some(Words::Explore(ExploreWords {
        begin: begin_of(given)?,
        limit: number_of(given.limit, 1, 1_000_000)?,
        prompt: given.prompt,
        calls: given.calls,
        witness: number_if(given.witness, 1, 1_000_000)?,
        format: witness_format_of(given.witness, given.format)?,
        coloured: screen.coloured,
    }))
}

/// Whether nothing but a definition is named, and perhaps its input.
pub(crate) fn names_definition_alone(given: &Given<'_>) -> bool
    ensures { result ≡ names_definition_alone given.now }
{
    !names_chosen(given)
        && given.test.is_none()
        && given.mocks.is_none()
        && given.mocks_option.is_none()
        && given.chosen.is_none()
        && given.case_option.is_none()
        && given.input.is_none()
}

fn errors_begin_of<'a>(given: &Given<'a>) -> Option<ErrorsBegin<'a>>
    ensures { result ≡ errors_begin given.now }
{
    if names_definition_alone(given) {
        return Some(ErrorsBegin::Sample(SampleWords {
            definition: given.definition?,
            input: given.input_option,
        }));
    }
    Some(ErrorsBegin::Case(begin_of(given)?))
}

/// How what comes of all plans is printed.
fn plans_format_of(word: Option<&str>) -> Option<PlansFormat>
    ensures { result ≡ plans_format word.entry }
{
    if word.is_none() {
        return Some(PlansFormat::Text);
    }
    if is_json(word) {
        return Some(PlansFormat::Json);
    }
    None
}

/// How an outcome is printed where errors are put in.
fn errors_format_of(witness: Option<&str>, word: Option<&str>) -> Option<ErrorsFormat>
    ensures { result ≡ errors_format witness.entry word.entry }
{
    if is_mocks(word) {
        return Some(ErrorsFormat::Mocks);
    }
    Some(ErrorsFormat::Steps(witness_format_of(witness, word)?))
}

/// What is printed where errors are put in: the outcome that is named, or what comes of all plans.
fn errors_shown_of(witness: Option<&str>, word: Option<&str>) -> Option<ErrorsShown>
    ensures { result ≡ errors_shown witness.entry word.entry }
{
    if witness.is_none() {
        return Some(ErrorsShown::Plans(plans_format_of(word)?));
    }
    let number = number_of(witness, 1, 1_000_000)?;
    Some(ErrorsShown::Outcome(number, errors_format_of(witness, word)?))
}

/// Whether a word names the format of lines of JSON.
pub(crate) fn is_json(word: Option<&str>) -> bool
    ensures { result ≡ is_json word.entry }
{
    match word {
        Some(word) => word == "json",
        None => false,
    }
}

/// Whether a word names the format of mock files.
pub(crate) fn is_mocks(word: Option<&str>) -> bool
    ensures { result ≡ is_mocks word.entry }
{
    match word {
        Some(word) => word == "mocks",
        None => false,
    }
}

/// Where errors are put in, it isn't told how often Tasks are invoked.
fn errors_of<'a>(given: &Given<'a>, screen: Screen) -> Option<Words<'a>>
    ensures { result ≡ errors_asked given.now screen }
{
    if given.calls {
        return None;
    }
    let limit = number_of(given.limit, 1, 1_000_000)?;
    Some(Words::Errors(ErrorsWords {
        begin: errors_begin_of(given)?,
        errors: number_of(given.errors, 0, 2)?,
        limit,
        prompt: given.prompt,
        shown: errors_shown_of(given.witness, given.format)?,
        coloured: screen.coloured,
    }))
}

/// The format that a word names for the steps of one outcome; there is no such word where all outcomes are printed.
fn witness_format_of(witness: Option<&str>, word: Option<&str>) -> Option<WitnessFormat>
    ensures { result ≡ witness_format witness.entry word.entry }
{
    let Some(word) = word else {
        return Some(WitnessFormat::Steps);
    };
    witness?;
    match word {
        "steps" => Some(WitnessFormat::Steps),
        "tree" => Some(WitnessFormat::Tree),
        "data" => Some(WitnessFormat::Data),
        "test" => Some(WitnessFormat::Test),
        _ => None,
    }
}

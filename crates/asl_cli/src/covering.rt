// What the tests of a suite cover.
ghost use Rattle.std.specs.Prelude.{◌≡◌, ◌++◌, IfOk, OnOk, option_map, string_bytes};
ghost use Rattle.asl_json_data.specs.Data.{Data};
ghost use Rattle.asl_json_data.specs.Reads.{ReadsAs};
ghost use Rattle.asl_json.specs.View.{data_of};
ghost use Rattle.asl_suite.specs.Cases.{setup_in};
ghost use Rattle.asl_suite_coverage.specs.Views.{points_of, mocks_of};
ghost use Rattle.asl_cli.specs.Covers.{with_test, with_tests, suite_points, ArePointsOf, AreSites, IsJsonTold, IsLcovTold};
ghost use Rattle.asl_cli.specs.Suites.{below, coverage_told, lacking, least_words, percent_words, IsCoverageTold};

use asl_json::Json;
use asl_json_read::{JsonFault, read};
use asl_run_input::StepAt;
use asl_suite::{Suite, setup_in};
use asl_suite_coverage::{Coverage, File, Point, Sited, json_text, lcov_text, sites_of};
use asl_suite_file::{Expectation, Steps};
use asl_text::put_decimal;
use asl_words::{CoverageFormat, TestWords};
use std::alloc::{AllocError, Global};

/// The value of the mock file that bytes spell. The error is that memory ran out.
fn value_of(alloc: Global, mocks: &[u8]) -> Result<Json, AllocError>
    ensures { (d : Data) → ReadsAs mocks.now d → IfOk result (λ v. data_of v ≡ d) }
{
    match read(alloc, mocks) {
        Ok(value) => Ok(value),
        Err(JsonFault::OutOfMemory) => Err(AllocError),
        // It isn't so: the suite's mock file was read from these bytes.
        Err(_) => Ok(Json::Null),
    }
}

/// These steps, if there are any.
fn steps_of(steps: &Option<Steps>) -> Option<&[StepAt]>
    ensures { option_map (λ s. s.now) result ≡ steps.now }
{
    match steps {
        Some(steps) => Some(steps.steps()),
        None => None,
    }
}

/// Covers what a test covers. The error is that memory ran out.
fn cover(
    alloc: Global,
    coverage: &mut Coverage,
    suite: &Suite,
    test: &Expectation,
) -> Result<(), AllocError>
    ensures points { OnOk result (points_of coverage.new ≡ with_test (mocks_of coverage.old) test.now
        (setup_in suite.now test.now) (points_of coverage.old)) }
    ensures mocks { mocks_of coverage.new ≡ mocks_of coverage.old }
{
    let Some(setup) = setup_in(alloc, suite, test)? else {
        return Ok(());
    };
    let steps = steps_of(&test.steps);
    coverage.run(alloc, setup, steps, test.case.as_str())
}

/// Covers what these tests of a suite cover. The error is that memory ran out.
fn cover_all(
    alloc: Global,
    coverage: &mut Coverage,
    suite: &Suite,
    tests: &[Expectation],
) -> Result<(), AllocError>
    ensures points { OnOk result (points_of coverage.new ≡ with_tests suite.now
        (mocks_of coverage.old) tests.now (points_of coverage.old)) }
{
    for test in tests {
        cover(alloc, coverage, suite, test)?;
    }
    Ok(())
}

/// What the tests of a suite cover, whose mock file has this value. The error is that memory ran out.
fn covered_by(alloc: Global, suite: &Suite, mocks: Json) -> Result<Coverage, AllocError>
    ensures { IfOk result (λ c. points_of c ≡ suite_points suite.now (data_of mocks)) }
{
    let mut coverage = Coverage::new(alloc, &suite.machine, mocks)?;
    cover_all(alloc, &mut coverage, suite, &suite.tests.list)?;
    Ok(coverage)
}

/// What the tests of a suite cover, whose mock file these bytes spell. The error is that memory ran out.
pub(crate) fn coverage_of(
    alloc: Global,
    suite: &Suite,
    mocks: &[u8],
) -> Result<Coverage, AllocError>
    ensures { IfOk result (λ c. ArePointsOf mocks.now suite.now (points_of c)) }
{
    let value = value_of(alloc, mocks)?;
    covered_by(alloc, suite, value)
}

/// Where the points of a file stand in the text that these bytes spell. The error is that memory ran out.
fn sites_in<'a>(
    alloc: Global,
    file: File,
    points: &'a [Point],
    bytes: &[u8],
) -> Result<Vec<Sited<'a>>, AllocError>
    ensures { IfOk result (λ ss. AreSites file bytes.now points.now ss.items) }
{
    let value = value_of(alloc, bytes)?;
    let sites = sites_of(alloc, file, points, bytes, &value)?;
    Ok(sites)
}

/// What is told in JSON. The error is that memory ran out, here and below.
fn json_told(
    alloc: Global,
    words: &TestWords<'_>,
    points: &[Point],
    definition: &[u8],
    mocks: &[u8],
) -> Result<String, AllocError>
    ensures { IfOk result (λ t. IsJsonTold words.now definition.now mocks.now points.now
        (string_bytes t)) }
{
    let in_definition = sites_in(alloc, File::Definition, points, definition)?;
    let in_mocks = sites_in(alloc, File::Mocks, points, mocks)?;
    let text = json_text(
        alloc,
        words.definition,
        words.mocks,
        points,
        &in_definition,
        &in_mocks,
    )?;
    Ok(text)
}

/// What is told as LCOV does.
fn lcov_told(
    alloc: Global,
    words: &TestWords<'_>,
    points: &[Point],
    definition: &[u8],
    mocks: &[u8],
) -> Result<String, AllocError>
    ensures { IfOk result (λ t. IsLcovTold words.now definition.now mocks.now points.now
        (string_bytes t)) }
{
    let in_definition = sites_in(alloc, File::Definition, points, definition)?;
    let in_mocks = sites_in(alloc, File::Mocks, points, mocks)?;
    let text = lcov_text(
        alloc,
        words.definition,
        words.mocks,
        &in_definition,
        &in_mocks,
    )?;
    Ok(text)
}

/// What is told of what tests cover, in the format that the words name; these are the bytes of the definition and of the mock file.
pub(crate) fn coverage_shown(
    alloc: Global,
    words: &TestWords<'_>,
    coverage: &Coverage,
    least: u32,
    definition: &[u8],
    mocks: &[u8],
) -> Result<String, AllocError>
    ensures { IfOk result (λ t. IsCoverageTold words.now.coverage_format words.now definition.now
        mocks.now (points_of coverage.now) least (string_bytes t)) }
{
    match words.coverage_format {
        CoverageFormat::Text => coverage_told(alloc, coverage, least),
        CoverageFormat::Json => json_told(alloc, words, coverage.points(), definition, mocks),
        CoverageFormat::Lcov => lcov_told(alloc, words, coverage.points(), definition, mocks),
    }
}

/// What is told of what tests cover: how much, what not, and that it is less than the least percent, where it is. The error is that memory ran
/// out.
fn coverage_told(alloc: Global, coverage: &Coverage, least: u32) -> Result<String, AllocError>
    ensures { IfOk result (λ t. string_bytes t ≡ coverage_told (points_of coverage.now) least) }
{
    let mut text = coverage.text(alloc)?;
    put_lacking(&mut text, coverage.percent(), least)?;
    Ok(text)
}

/// Appends that a percent is below the least one, where it is.
fn put_lacking(out: &mut String, percent: u32, least: u32) -> Result<(), AllocError>
    ensures { OnOk result (string_bytes out.new ≡ string_bytes out.old ++ lacking percent least) }
{
    if percent < least {
        return put_below(out, percent, least);
    }
    Ok(())
}

fn put_below(out: &mut String, percent: u32, least: u32) -> Result<(), AllocError>
    ensures { OnOk result (string_bytes out.new ≡ string_bytes out.old ++ below percent least) }
{
    put_percent(out, percent)?;
    put_least(out, least)
}

#[tactic(auto, unfolding(crate::specs::Suites::percent_words))]
fn put_percent(out: &mut String, percent: u32) -> Result<(), AllocError>
    ensures { OnOk result (string_bytes out.new ≡ string_bytes out.old ++ percent_words percent) }
{
    out.push_str("coverage ")?;
    put_decimal(out, u64::from(percent))?;
    out.push('%')
}

#[tactic(auto, unfolding(crate::specs::Suites::least_words))]
fn put_least(out: &mut String, least: u32) -> Result<(), AllocError>
    ensures { OnOk result (string_bytes out.new ≡ string_bytes out.old ++ least_words least) }
{
    out.push_str(" is below ")?;
    put_decimal(out, u64::from(least))?;
    out.push_str("%\n")
}

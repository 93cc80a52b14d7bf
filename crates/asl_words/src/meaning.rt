// What is asked for by what is given.
ghost use Rattle.std.specs.Prelude.{◌≡◌};
ghost use Rattle.std.specs.List.{list_any};
ghost use Rattle.std.specs.Str.{all_ascii_digits};
ghost use Rattle.asl_words.specs.Asked.{subject_asked, check_asked, lint_all_asked, lint_files_asked, names_files, test_all_asked, test_one_asked};
ghost use Rattle.asl_words.specs.Asked.{asked, words_asked, definition_asked, print_asked, mocks_file, setup_asked, lint_asked, graph_asked, mocks_asked};
ghost use Rattle.asl_words.specs.Asked.{run_asked, debug_asked, test_asked, names_run, marked_run, most_asked, lists_reports};
ghost use Rattle.asl_words.specs.Asked.{format_asked, lint_formats, graph_formats, run_formats, report_formats};
ghost use Rattle.asl_words.specs.Asked.{tells_of_states, either_asked, debug_format, debugs_by_script, coverage_asked, covers, coverage_format_asked, limit_asked, orders_asked, run_format_asked, is_of_service};
ghost use Rattle.asl_words.specs.Asked.{has_case, is_case_mark, names_chosen, names_more, names_beside_test, chosen_asked, number_from_one, test_number, tested_asked, begin_asked};
ghost use Rattle.asl_words.specs.Asked.{number_in, number_asked, number_if_asked, digits_in, shard_between, shard_by, shard_in, shard_asked};

use crate::exploring::explore_of;
use crate::given::Given;
use crate::screen::Screen;
use crate::verbs::Verb;
use crate::words::{
    Asked, Begin, ChosenWords, CoverageFormat, DebugFormat, DebugWords, DefinitionWords,
    ExplainWords, GraphFormat, GraphWords, LintAllWords, LintFormat, LintWords, MocksWords,
    OrderWords, PrintWords, ProjectWords, ReportFormat, RunFormat, RunWords, SetupWords, Shard,
    Subject, TestAllWords, TestWords, TestedWords, Words,
};

/// What a command asks for, where answers are read on this screen; none where what is given doesn't fit together.
pub fn asked<'a>(verb: Verb, given: &Given<'a>, screen: Screen) -> Option<Asked<'a>>
    ensures { result ≡ asked verb given.now screen }
{
    Some(Asked {
        words: words_of(verb, given, screen)?,
        quiet: given.quiet,
    })
}

/// What it is to do.
fn words_of<'a>(verb: Verb, given: &Given<'a>, screen: Screen) -> Option<Words<'a>>
    ensures { result ≡ words_asked verb given.now screen }
{
    match verb {
        Verb::Check => check_of(given),
        Verb::Lint => lint_of(given),
        Verb::Print => Some(Words::Print(print_of(given)?)),
        Verb::Upgrade => Some(Words::Upgrade(print_of(given)?)),
        Verb::Graph => graph_of(given),
        Verb::Mocks => mocks_of(given),
        Verb::Run => run_of(given, screen),
        Verb::Debug => debug_of(given, screen),
        Verb::Test => test_of(given),
        Verb::Explore => explore_of(given, screen),
        Verb::Explain => Some(Words::Explain(ExplainWords { code: given.code })),
        Verb::Lsp => Some(Words::Lsp),
    }
}

/// What is named: a definition, or else a project; not both.
fn subject_of<'a>(given: &Given<'a>) -> Option<Subject<'a>>
    ensures { result ≡ subject_asked given.now }
{
    match (given.definition, given.project) {
        (Some(definition), None) => Some(Subject::Definition(DefinitionWords { definition })),
        (Some(_), Some(_)) => None,
        (None, project) => Some(Subject::Project(ProjectWords { project })),
    }
}

fn check_of<'a>(given: &Given<'a>) -> Option<Words<'a>>
    ensures { result ≡ check_asked given.now }
{
    match subject_of(given)? {
        Subject::Definition(definition) => Some(Words::Check(definition)),
        Subject::Project(project) => Some(Words::CheckAll(project)),
    }
}

fn definition_of<'a>(given: &Given<'a>) -> Option<DefinitionWords<'a>>
    ensures { result ≡ definition_asked given.now }
{
    Some(DefinitionWords {
        definition: given.definition?,
    })
}

fn print_of<'a>(given: &Given<'a>) -> Option<PrintWords<'a>>
    ensures { result ≡ print_asked given.now }
{
    Some(PrintWords {
        definition: definition_of(given)?,
        pretty: given.pretty,
    })
}

/// The mock file, as a word or as the option that stands for it.
fn mocks_file_of<'a>(given: &Given<'a>) -> Option<&'a str>
    ensures { result ≡ mocks_file given.now }
{
    given.mocks.xor(given.mocks_option)
}

/// What a run begins with: each of its texts as a word or as the option that stands for it.
fn setup_of<'a>(given: &Given<'a>) -> Option<SetupWords<'a>>
    ensures { result ≡ setup_asked given.now }
{
    Some(SetupWords {
        definition: given.definition?,
        mocks: mocks_file_of(given)?,
        chosen: given.chosen.xor(given.case_option)?,
        input: given.input.xor(given.input_option)?,
    })
}

/// What a run begins with, where a project may name the files, and a test its case and its input.
pub(crate) fn begin_of<'a>(given: &Given<'a>) -> Option<Begin<'a>>
    ensures { result ≡ begin_asked given.now }
{
    if let Some(test) = given.test {
        return Some(Begin::Test(tested_of(given, test)?));
    }
    if names_chosen(given) {
        return Some(Begin::Project(chosen_of(given)?));
    }
    Some(Begin::Files(setup_of(given)?))
}

/// Whether a workflow of a project is meant: the project is named, or the first word is a case of a machine and nothing else is chosen.
pub(crate) fn names_chosen(given: &Given<'_>) -> bool
    ensures { result ≡ names_chosen given.now }
{
    given.project.is_some()
        || given.chosen.is_none() && given.case_option.is_none() && has_case(given.definition)
}

/// Whether a word has the mark that stands between a machine and a case.
fn has_case(word: Option<&str>) -> bool
    ensures { result ≡ has_case word.entry }
{
    match word {
        Some(text) => has_case_mark(text.as_bytes()),
        None => false,
    }
}

fn has_case_mark(bytes: &[u8]) -> bool
    ensures { result ≡ list_any is_case_mark bytes.now }
{
    match bytes {
        [] => false,
        [first, rest @ ..] => *first == b'#' || has_case_mark(rest),
    }
}

/// What is chosen of a project: the first word, behind which the input may stand.
fn chosen_of<'a>(given: &Given<'a>) -> Option<ChosenWords<'a>>
    ensures { result ≡ chosen_asked given.now }
{
    if names_more(given) {
        return None;
    }
    Some(ChosenWords {
        project: ProjectWords {
            project: given.project,
        },
        chosen: given.definition.xor(given.case_option)?,
        input: either_of(given.mocks, given.input_option)?,
    })
}

/// Whether something is named that a project names.
pub(crate) fn names_more(given: &Given<'_>) -> bool
    ensures { result ≡ names_more given.now }
{
    given.chosen.is_some() || given.input.is_some() || given.mocks_option.is_some()
}

/// Whether a file is named that `lint` is to judge.
pub(crate) fn names_files(given: &Given<'_>) -> bool
    ensures { result ≡ names_files given.now }
{
    given.file.is_some()
        || given.mocks_option.is_some()
        || given.expect_option.is_some()
        || given.input_option.is_some()
        || given.steps.is_some()
        || given.script_option.is_some()
}

/// What the execution of a test begins with.
fn tested_of<'a>(given: &Given<'a>, test: &'a str) -> Option<TestedWords<'a>>
    ensures { result ≡ tested_asked given.now test.entry }
{
    if names_beside_test(given) {
        return None;
    }
    Some(TestedWords {
        definition: given.definition?,
        mocks: mocks_file_of(given)?,
        test,
        number: test_number(test)?,
    })
}

/// Whether something is named that a test names, or a project.
pub(crate) fn names_beside_test(given: &Given<'_>) -> bool
    ensures { result ≡ names_beside_test given.now }
{
    given.chosen.is_some()
        || given.case_option.is_some()
        || given.input.is_some()
        || given.input_option.is_some()
        || given.project.is_some()
}

/// The number of the test that `SUITE#N` names.
pub(crate) fn test_number(text: &str) -> Option<usize>
    ensures { result ≡ test_number text.now }
{
    match text.split_once('#') {
        Some((_, number)) => number_from_one(number),
        None => None,
    }
}

/// The number from 1 that decimal digits spell.
fn number_from_one(digits: &str) -> Option<usize>
    ensures { result ≡ number_from_one digits.now }
{
    match digits_in(digits)? {
        0 => None,
        number => Some(number),
    }
}

fn lint_of<'a>(given: &Given<'a>) -> Option<Words<'a>>
    ensures { result ≡ lint_asked given.now }
{
    if names_files(given) {
        lint_files_of(given)
    } else {
        lint_all_of(given)
    }
}

/// All workflows of a project.
fn lint_all_of<'a>(given: &Given<'a>) -> Option<Words<'a>>
    ensures { result ≡ lint_all_asked given.now }
{
    if given.machine_option.is_some() {
        return None;
    }
    Some(Words::LintAll(LintAllWords {
        project: ProjectWords {
            project: given.project,
        },
        format: lint_format_of(given.format)?,
        strict: given.strict,
    }))
}

/// The files that are named.
fn lint_files_of<'a>(given: &Given<'a>) -> Option<Words<'a>>
    ensures { result ≡ lint_files_asked given.now }
{
    if given.project.is_some() {
        return None;
    }
    Some(Words::Lint(LintWords {
        mocks: given.mocks_option,
        expectations: given.expect_option,
        input: given.input_option,
        steps: given.steps,
        script: given.script_option,
        machine: given.machine_option,
        format: lint_format_of(given.format)?,
        strict: given.strict,
    }))
}

fn lint_format_of(word: Option<&str>) -> Option<LintFormat>
    ensures { result ≡ format_asked lint_formats word.entry }
{
    match word? {
        "text" => Some(LintFormat::Text),
        "json" => Some(LintFormat::Json),
        "sarif" => Some(LintFormat::Sarif),
        "github" => Some(LintFormat::Github),
        "gitlab" => Some(LintFormat::Gitlab),
        _ => None,
    }
}

fn graph_of<'a>(given: &Given<'a>) -> Option<Words<'a>>
    ensures { result ≡ graph_asked given.now }
{
    Some(Words::Graph(GraphWords {
        definition: definition_of(given)?,
        format: graph_format_of(given.format)?,
        run: marked_run(given)?,
    }))
}

fn graph_format_of(word: Option<&str>) -> Option<GraphFormat>
    ensures { result ≡ format_asked graph_formats word.entry }
{
    match word? {
        "mermaid" => Some(GraphFormat::Mermaid),
        "markdown" => Some(GraphFormat::Markdown),
        "dot" => Some(GraphFormat::Dot),
        _ => None,
    }
}

/// The run of which a graph marks the states, where one is asked for.
fn marked_run<'a>(given: &Given<'a>) -> Option<Option<SetupWords<'a>>>
    ensures { result ≡ marked_run given.now }
{
    if given.run {
        return Some(Some(setup_of(given)?));
    }
    if names_run(given) {
        return None;
    }
    Some(None)
}

/// Whether something is named that only a run needs.
pub(crate) fn names_run(given: &Given<'_>) -> bool
    ensures { result ≡ names_run given.now }
{
    given.mocks.is_some()
        || given.chosen.is_some()
        || given.input.is_some()
        || given.mocks_option.is_some()
        || given.case_option.is_some()
        || given.input_option.is_some()
}

fn mocks_of<'a>(given: &Given<'a>) -> Option<Words<'a>>
    ensures { result ≡ mocks_asked given.now }
{
    Some(Words::Mocks(MocksWords {
        definition: definition_of(given)?,
        machine: given.machine?,
        pretty: given.pretty,
    }))
}

fn run_of<'a>(given: &Given<'a>, screen: Screen) -> Option<Words<'a>>
    ensures { result ≡ run_asked given.now screen }
{
    let format = run_format_of(given.format, given.region)?;
    Some(Words::Run(RunWords {
        begin: begin_of(given)?,
        steps: given.steps,
        most_steps: most_of(given.steps, given.most_steps)?,
        format,
        coloured: screen.coloured && tells_of_states(format),
    }))
}

/// How many of the steps that come next are taken at most, where that is said; it can't be where a file names the steps.
fn most_of(steps: Option<&str>, word: Option<&str>) -> Option<Option<u32>>
    ensures { result ≡ most_asked steps.entry word.entry }
{
    match (steps, word) {
        (Some(_), Some(_)) => None,
        (_, word) => number_if(word, 1, 1_000_000),
    }
}

/// The format that a word names; a region is named beside that of the service alone.
fn run_format_of<'a>(word: Option<&str>, region: Option<&'a str>) -> Option<RunFormat<'a>>
    ensures { result ≡ run_format_asked word.entry region.entry }
{
    let format = run_format_named(word, region)?;
    if region.is_some() && !is_of_service(format) {
        return None;
    }
    Some(format)
}

/// Whether a run is printed in the shape in which the service tells one.
fn is_of_service(format: RunFormat<'_>) -> bool
    ensures { result ≡ is_of_service format.entry }
{
    matches!(format, RunFormat::Aws(_))
}

fn run_format_named<'a>(word: Option<&str>, region: Option<&'a str>) -> Option<RunFormat<'a>>
    ensures { result ≡ format_asked (run_formats region.entry) word.entry }
{
    match word? {
        "text" => Some(RunFormat::Text),
        "json" => Some(RunFormat::Json),
        "aws" => Some(RunFormat::Aws(region)),
        "steps" => Some(RunFormat::Steps),
        "tree" => Some(RunFormat::Tree),
        "data" => Some(RunFormat::Data),
        _ => None,
    }
}

/// Whether a run is printed by what happened at each state.
fn tells_of_states(format: RunFormat<'_>) -> bool
    ensures { result ≡ tells_of_states format.entry }
{
    matches!(format, RunFormat::Tree | RunFormat::Data)
}

fn debug_of<'a>(given: &Given<'a>, screen: Screen) -> Option<Words<'a>>
    ensures { result ≡ debug_asked given.now screen }
{
    if debugs_by_script(given) {
        return None;
    }
    let script = either_of(given.script, given.script_option)?;
    Some(Words::Debug(DebugWords {
        begin: begin_of(given)?,
        script,
        format: debug_format_of(given.format, screen.typed, script.is_some())?,
        coloured: screen.coloured,
        strict: given.strict,
    }))
}

/// What is named by a word or by the option that stands for it, where it may be left out.
fn either_of<'a>(word: Option<&'a str>, option: Option<&'a str>) -> Option<Option<&'a str>>
    ensures { result ≡ either_asked word.entry option.entry }
{
    match (word, option) {
        (Some(_), Some(_)) => None,
        (Some(said), None) => Some(Some(said)),
        (None, option) => Some(option),
    }
}

/// The format that a word names; without a word it is the tree where a person types and reads.
fn debug_format_of(word: Option<&str>, typed: bool, has_script: bool) -> Option<DebugFormat>
    ensures { result ≡ debug_format word.entry typed has_script }
{
    match word {
        None if typed && !has_script => Some(DebugFormat::Tree),
        None => Some(DebugFormat::Text),
        Some("text") => Some(DebugFormat::Text),
        Some("tree") if !has_script => Some(DebugFormat::Tree),
        Some(_) => None,
    }
}

/// Whether lines are to end a talk, and a script is named in their place.
pub(crate) fn debugs_by_script(given: &Given<'_>) -> bool
    ensures { result ≡ debugs_by_script given.now }
{
    given.strict && (given.script.is_some() || given.script_option.is_some())
}

/// Whether reports are to be written of tests that are listed alone.
pub(crate) fn lists_reports(given: &Given<'_>) -> bool
    ensures { result ≡ lists_reports given.now }
{
    given.list && (given.junit.is_some() || given.json.is_some())
}

fn test_of<'a>(given: &Given<'a>) -> Option<Words<'a>>
    ensures { result ≡ test_asked given.now }
{
    if lists_reports(given) {
        return None;
    }
    match subject_of(given)? {
        Subject::Definition(definition) => test_one(given, definition),
        Subject::Project(project) => test_all(given, project),
    }
}

/// The tests of all workflows of a project.
fn test_all<'a>(given: &Given<'a>, project: ProjectWords<'a>) -> Option<Words<'a>>
    ensures { result ≡ test_all_asked given.now project.entry }
{
    let (filter, list) = (given.filter, given.list);
    Some(Words::TestAll(TestAllWords {
        project,
        workers: workers_of(given.workers)?,
        format: report_format_of(given.format)?,
        junit: given.junit,
        json: given.json,
        shard: shard_of(given.shard)?,
        filter,
        list,
        coverage: coverage_of(given.least, given.coverage)?,
        coverage_format: coverage_format_of(given.coverage_format, covers(given))?,
        strict: given.strict,
        orders: orders_of(given.orders, given.every, given.limit)?,
    }))
}

/// How many workers run tests.
fn workers_of(word: Option<&str>) -> Option<usize>
    ensures { result ≡ number_asked 1 64 word.entry }
{
    Some(number_of(word, 1, 64)? as usize)
}

fn test_one<'a>(given: &Given<'a>, definition: DefinitionWords<'a>) -> Option<Words<'a>>
    ensures { result ≡ test_one_asked given.now definition.entry }
{
    Some(Words::Test(TestWords {
        definition: definition.definition,
        mocks: given.mocks?,
        expectations: given.expectations?,
        workers: workers_of(given.workers)?,
        format: report_format_of(given.format)?,
        junit: given.junit,
        json: given.json,
        shard: shard_of(given.shard)?,
        filter: given.filter,
        list: given.list,
        coverage: coverage_of(given.least, given.coverage)?,
        coverage_format: coverage_format_of(given.coverage_format, covers(given))?,
        strict: given.strict,
        orders: orders_of(given.orders, given.every, given.limit)?,
        among: false,
    }))
}

fn report_format_of(word: Option<&str>) -> Option<ReportFormat>
    ensures { result ≡ format_asked report_formats word.entry }
{
    match word? {
        "text" => Some(ReportFormat::Text),
        "junit" => Some(ReportFormat::JUnit),
        "json" => Some(ReportFormat::Json),
        _ => None,
    }
}

/// The least percent that is to be covered; 0 where only the flag is there.
fn coverage_of(least: Option<&str>, flag: bool) -> Option<Option<u32>>
    ensures { result ≡ coverage_asked least.entry flag }
{
    match least {
        Some(text) => Some(Some(number_in(text, 0, 100)?)),
        None if flag => Some(Some(0)),
        None => Some(None),
    }
}

/// Whether it is told what tests cover.
pub(crate) fn covers(given: &Given<'_>) -> bool
    ensures { result ≡ covers given.now }
{
    given.coverage || given.least.is_some()
}

/// The format that a word names for what tests cover; there is no such word where that isn't told.
fn coverage_format_of(word: Option<&str>, covers: bool) -> Option<CoverageFormat>
    ensures { result ≡ coverage_format_asked word.entry covers }
{
    let Some(word) = word else {
        return Some(CoverageFormat::Text);
    };
    if !covers {
        return None;
    }
    match word {
        "text" => Some(CoverageFormat::Text),
        "json" => Some(CoverageFormat::Json),
        "lcov" => Some(CoverageFormat::Lcov),
        _ => None,
    }
}

/// In which orders each test has to hold, where they are asked for; nothing is said of them where they aren't.
fn orders_of(orders: bool, every: bool, limit: Option<&str>) -> Option<Option<OrderWords>>
    ensures { result ≡ orders_asked orders every limit.entry }
{
    if orders {
        let limit = limit_of(limit)?;
        return Some(Some(OrderWords { every, limit }));
    }
    if every || limit.is_some() {
        return None;
    }
    Some(None)
}

/// How many worlds are tried at most for each test.
fn limit_of(word: Option<&str>) -> Option<u32>
    ensures { result ≡ limit_asked word.entry }
{
    match word {
        Some(text) => number_in(text, 1, 1_000_000),
        None => Some(100_000),
    }
}

/// The part of a suite that a word names; the whole where none does.
fn shard_of(word: Option<&str>) -> Option<Shard>
    ensures { result ≡ shard_asked word.entry }
{
    match word {
        Some(text) => shard_in(text),
        None => Some(Shard { first: 1, apart: 1 }),
    }
}

/// The part of a suite that `I/N` names.
fn shard_in(text: &str) -> Option<Shard>
    ensures { result ≡ shard_in text.now }
{
    match text.split_once('/') {
        Some((first, apart)) => shard_by(first, apart),
        None => None,
    }
}

/// The part of a suite that two numbers name.
fn shard_by(first: &str, apart: &str) -> Option<Shard>
    ensures { result ≡ shard_by first.now apart.now }
{
    shard_between(digits_in(first)?, digits_in(apart)?)
}

fn shard_between(first: usize, apart: usize) -> Option<Shard>
    ensures { result ≡ shard_between first apart }
{
    if 1 <= first && first <= apart {
        Some(Shard { first, apart })
    } else {
        None
    }
}

/// The number that decimal digits spell.
fn digits_in(digits: &str) -> Option<usize>
    ensures { result ≡ digits_in digits.now }
{
    if !are_digits(digits.as_bytes()) {
        return None;
    }
    match digits.parse::<usize>() {
        Ok(number) => Some(number),
        Err(_) => None,
    }
}

/// Whether these are decimal digits.
fn are_digits(bytes: &[u8]) -> bool
    ensures { result ≡ all_ascii_digits bytes.now }
{
    match bytes {
        [] => true,
        [first, rest @ ..] => first.is_ascii_digit() && are_digits(rest),
    }
}

/// The number of a word, from a least to a greatest.
pub(crate) fn number_of(word: Option<&str>, least: u32, greatest: u32) -> Option<u32>
    ensures { result ≡ number_asked least greatest word.entry }
{
    number_in(word?, least, greatest)
}

/// The number that a text spells, from a least to a greatest.
#[tactic(auto, unfolding(crate::specs::Asked::number_in))]
fn number_in(text: &str, least: u32, greatest: u32) -> Option<u32>
    ensures { result ≡ number_in least greatest text.now }
{
    let Ok(number) = text.parse::<u64>() else {
        return None;
    };
    if number < u64::from(least) || u64::from(greatest) < number {
        return None;
    }
    Some(number as u32)
}

/// The same where there is a word.
pub(crate) fn number_if(word: Option<&str>, least: u32, greatest: u32) -> Option<Option<u32>>
    ensures { result ≡ number_if_asked least greatest word.entry }
{
    match word {
        Some(text) => Some(Some(number_in(text, least, greatest)?)),
        None => Some(None),
    }
}

// The command `explore` where errors are put in.
ghost use Rattle.std.specs.Prelude.{◌≡◌, List, ℕ, Some, None, Ok, IfOk, IfErr, map, option_map, string_bytes, codes};
ghost use Rattle.asl_json_data.specs.Data.{Data};
ghost use Rattle.asl_check.specs.Judged.{IsMachineOf};
ghost use Rattle.asl_mock_sample.specs.Files.{sample_text};
ghost use Rattle.asl_run_input.specs.Emulations.{Accepts};
ghost use Rattle.asl_host.specs.Outcomes.{sink_use};
ghost use Rattle.asl_host.specs.declared.files.Unreadable.{Unreadable};
ghost use Rattle.asl_explore_errors.specs.Searches.{witness_of};
ghost use Rattle.asl_explore_errors.specs.Under.{case_file, IsUnder};
ghost use Rattle.asl_cli.specs.Beginnings.{texts_in, without_steps};
ghost use Rattle.asl_cli.specs.Faults.{named, AreUnread, IsDefinitionTextReason, IsTextsReason};
ghost use Rattle.asl_cli.specs.Injecting.{all_is_good, errors_report, rules_named, AreErrorsExplored, AreErrorsTexts, AreNoErrorsTexts, IsErrorsReason, IsErrorsShown, IsInputOrEmpty, IsNoSampleBeginning, IsPlanIn, IsPlanShown, IsSampleBeginning, IsSetupOrRuleReason, IsShownOf, IsTried, IsTriedFor};
ghost use Rattle.asl_cli.specs.Ruling.{IsRuleReason};
ghost use Rattle.asl_cli.specs.Streams.{file_system, io};

use crate::beginning::{Beginning, Names, begin};
use crate::checking::machine_of;
use crate::command::REFUSED;
use crate::debugging::setup_of;
use crate::exploring::{orders_for, print_all, refuse_number, shown_of};
use crate::fault::CommandFault;
use crate::reading::{SetupTexts, read_file, read_named};
use crate::ruling::{Ruled, rule_texts, rules_of};
use asl_arguments::Lists;
use asl_def::Machine;
use asl_error_plans::{PlanOutcomes, are_good, put_plans};
use asl_explore::{Found, Watch};
use asl_explore_errors::{
    ErrorsFound, are_kept, explore_with_errors, filled_setup, put_case, put_json_lines, put_rules,
    setup_under, witness_of,
};
use asl_history::Sink;
use asl_host::Files;
use asl_mock_sample::sample;
use asl_run_input::Setup;
use asl_words::{ErrorsBegin, ErrorsFormat, ErrorsShown, ErrorsWords, PlansFormat, SampleWords};
use std::alloc::{AllocError, Global};

/// The machine's name in a mock file to begin with.
const MACHINE: &str = "Machine";
/// Its case in which all goes well.
const GOOD_CASE: &str = "Machine#good";

/// The command `explore` where errors are put in, those that are named where any are: tries every order of an execution's branches under every plan of
/// errors, and prints what was found of the rules that are named, and each outcome with the plans that give it, or a plan of one alone.
pub fn inject<W: Watch, F: Files, O: Sink, E: Sink>(
    watch: &W,
    alloc: Global,
    words: &ErrorsWords<'_>,
    lists: &Lists<'_>,
    quiet: bool,
    files: &mut F,
    out: &mut O,
    err: &mut E,
) -> u8
    ensures { AreErrorsExplored (file_system (F.gives files.old) (F.lacks files.old))
        (io (sink_use O.taken O.failures out.old out.new)
        (sink_use E.taken E.failures err.old err.new) result) quiet words.now lists.now }
{
    match try_files(watch, alloc, words, lists, files) {
        Ok(tried) => show(alloc, &tried, out, err),
        Err(refusal) => {
            refusal.write(alloc, quiet, err);
            REFUSED
        }
    }
}

/// How an outcome is shown.
#[derive(Clone, Copy)]
struct Shown<'a> {
    format: ErrorsFormat,
    /// Whether what happened at each state is told in colours.
    coloured: bool,
    /// What was chosen of the mock file.
    chosen: &'a str,
}

/// What is shown, and whether all is good.
#[derive(Drop)]
pub(crate) struct Tried {
    /// None where no outcome has the number that is wanted.
    text: Option<String>,
    good: bool,
}

/// Prints what is shown; where no outcome has the number, that is told.
fn show<O: Sink, E: Sink>(alloc: Global, tried: &Tried, out: &mut O, err: &mut E) -> u8
    ensures { IsErrorsShown (io (sink_use O.taken O.failures out.old out.new)
        (sink_use E.taken E.failures err.old err.new) result) (option_map string_bytes tried.now.text)
        tried.now.good }
{
    match &tried.text {
        Some(text) => print_all(text.as_str(), tried.good, out),
        None => refuse_number(alloc, err),
    }
}

// ---- what an execution begins with

/// A mock file to begin with for the machine. The error is that memory ran out.
fn sample_for(alloc: Global, machine: &Machine) -> Result<String, AllocError>
    ensures { IfOk result (λ t. string_bytes t ≡ sample_text (codes "Machine") machine.now) }
{
    let definition = machine.json(alloc)?;
    sample(alloc, MACHINE, &definition)
}

/// The same for the definition of a text, which comes from a file of this name.
fn sample_of<'a>(alloc: Global, file: &str, text: &[u8]) -> Result<String, CommandFault<'a>>
    ensures sample { IfOk result (λ t. (m : Data) × IsMachineOf text.now m
        × (string_bytes t ≡ sample_text (codes "Machine") m)) }
    ensures refused { IfErr result (IsDefinitionTextReason text.now) }
{
    match machine_of(alloc, file, text) {
        Ok(machine) => match sample_for(alloc, &machine) {
            Ok(sample) => Ok(sample),
            Err(AllocError) => Err(CommandFault::OutOfMemory),
        },
        Err(refusal) => Err(refusal),
    }
}

/// Reads the input; it is an empty object where no file is named.
fn input_of<'a, F: Files>(
    alloc: Global,
    files: &mut F,
    name: Option<&str>,
) -> Result<Vec<u8>, CommandFault<'a>>
    ensures given { IfOk result (λ b. IsInputOrEmpty (F.gives files.old) (option_map (λ n. n.now) name.entry) b.items) }
    ensures unread { IfErr result (AreUnread (F.gives files.old) (F.lacks files.old)
        (named (option_map (λ n. n.now) name.entry))) }
{
    match read_named(alloc, files, name)? {
        Some(bytes) => Ok(bytes),
        None => Ok(String::from_str(alloc, "{}")?.into_bytes()),
    }
}

/// What the files are called; the mock file has none.
fn names_of(alloc: Global, words: &SampleWords<'_>) -> Result<Names, AllocError> {
    Ok(Names {
        definition: String::from_str(alloc, words.definition)?,
        mocks: String::new(alloc),
        chosen: String::from_str(alloc, GOOD_CASE)?,
        input: String::from_str(alloc, words.input.unwrap_or(""))?,
    })
}

/// What an execution begins with of a definition and an input that were read.
fn begin_with<'a>(
    alloc: Global,
    words: &SampleWords<'_>,
    definition: Vec<u8>,
    input: Vec<u8>,
) -> Result<Beginning, CommandFault<'a>>
    ensures definition { IfOk result (λ b. b.texts.definition.items ≡ definition.items) }
    ensures sample { IfOk result (λ b. (m : Data) × IsMachineOf definition.items m
        × (b.texts.mocks.items ≡ sample_text (codes "Machine") m)) }
    ensures chosen { IfOk result (λ b. string_bytes b.texts.chosen ≡ codes "Machine#good") }
    ensures input { IfOk result (λ b. b.texts.input.items ≡ input.items) }
    ensures steps { IfOk result (λ b. b.steps ≡ None) }
    ensures refused { IfErr result (IsDefinitionTextReason definition.items) }
{
    let mocks = sample_of(alloc, words.definition, definition.as_slice())?.into_bytes();
    let names = names_of(alloc, words)?;
    let chosen = String::from_str(alloc, GOOD_CASE)?;
    Ok(Beginning {
        names,
        texts: SetupTexts {
            definition,
            mocks,
            chosen,
            input,
        },
        steps: None,
    })
}

/// Reads the definition and its input, where no mock file is named.
fn begin_sample<'a, F: Files>(
    alloc: Global,
    files: &mut F,
    words: &SampleWords<'_>,
) -> Result<Beginning, CommandFault<'a>>
    ensures begins { IfOk result (λ b. IsSampleBeginning (F.gives files.old) words.now (texts_in b)) }
    ensures refused { IfErr result (IsNoSampleBeginning (F.gives files.old) (F.lacks files.old) words.now) }
{
    let definition = read_file(alloc, files, words.definition)?;
    match input_of(alloc, files, words.input) {
        Ok(input) => begin_with(alloc, words, definition, input),
        Err(refusal) => Err(refusal),
    }
}

/// Reads what an execution begins with.
fn begin_errors<'a, F: Files>(
    alloc: Global,
    files: &mut F,
    words: &ErrorsBegin<'_>,
) -> Result<Beginning, CommandFault<'a>>
    ensures begins { IfOk result (λ b. AreErrorsTexts (F.gives files.old) words.now (texts_in b)) }
    ensures refused { IfErr result (AreNoErrorsTexts (F.gives files.old) (F.lacks files.old) words.now) }
{
    match words {
        ErrorsBegin::Case(words) => begin(alloc, files, words),
        ErrorsBegin::Sample(words) => begin_sample(alloc, files, words),
    }
}

// ---- what is found

/// Reads the files, in the order of the words, and tries the orders under each plan.
fn try_files<'a, W: Watch, F: Files>(
    watch: &W,
    alloc: Global,
    words: &ErrorsWords<'_>,
    lists: &Lists<'_>,
    files: &mut F,
) -> Result<Tried, CommandFault<'a>>
    ensures tried { IfOk result (λ r. IsTriedFor (F.gives files.old) words.now lists.now
        (option_map string_bytes r.text) r.good) }
    ensures refused { IfErr result (IsErrorsReason (F.gives files.old) (F.lacks files.old) words.now.begin lists.now) }
{
    match begin_errors(alloc, files, &words.begin) {
        Ok(beginning) => try_from(watch, alloc, words, lists, &beginning),
        Err(refusal) => Err(refusal),
    }
}

/// Tries the orders of what begins so.
fn try_from<'a, W: Watch>(
    watch: &W,
    alloc: Global,
    words: &ErrorsWords<'_>,
    lists: &Lists<'_>,
    beginning: &Beginning,
) -> Result<Tried, CommandFault<'a>>
    ensures tried { IfOk result (λ r. (s : Setup) × Accepts (without_steps (texts_in beginning.now)) s None
        × IsTried words.now lists.now (texts_in beginning.now).mocks (texts_in beginning.now).chosen s
        (option_map string_bytes r.text) r.good) }
    ensures refused { IfErr result (IsSetupOrRuleReason (texts_in beginning.now) lists.now) }
{
    match setup_of(alloc, beginning) {
        Ok(setup) => try_ruled(watch, alloc, words, lists, beginning, &setup),
        Err(refusal) => Err(refusal),
    }
}

/// Reads the rules, and tries the orders of an execution of what begins so.
fn try_ruled<'a, W: Watch>(
    watch: &W,
    alloc: Global,
    words: &ErrorsWords<'_>,
    lists: &Lists<'_>,
    beginning: &Beginning,
    setup: &Setup,
) -> Result<Tried, CommandFault<'a>>
    ensures tried { IfOk result (λ r. IsTried words.now lists.now (texts_in beginning.now).mocks
        (texts_in beginning.now).chosen setup.now (option_map string_bytes r.text) r.good) }
    ensures refused { IfErr result (IsRuleReason (rules_named setup.now lists.now)) }
{
    let rules = rules_of(alloc, &setup.machine, lists)?;
    let texts = &beginning.texts;
    let (mocks, chosen) = (texts.mocks.as_slice(), texts.chosen.as_str());
    match try_setup(watch, alloc, words, lists, &rules, mocks, chosen, setup) {
        Ok(tried) => Ok(tried),
        Err(AllocError) => Err(CommandFault::OutOfMemory),
    }
}

/// Tries the orders of an execution under each plan, and judges them by these rules. It is of this mock file, and of a case that was chosen by these words.
/// The error is that memory ran out.
fn try_setup<W: Watch>(
    watch: &W,
    alloc: Global,
    words: &ErrorsWords<'_>,
    lists: &Lists<'_>,
    rules: &[Ruled],
    mocks: &[u8],
    chosen: &str,
    setup: &Setup,
) -> Result<Tried, AllocError>
    ensures { rules_named setup.now lists.now ≡ Ok rules.now → IfOk result (λ r. IsTried words.now lists.now
        mocks.now chosen.now setup.now (option_map string_bytes r.text) r.good) }
{
    let filled = filled_setup(alloc, setup, mocks)?;
    let orders = orders_for(words.prompt);
    let (errors, limit) = (words.errors, words.limit);
    let names = &lists.errors;
    let found = explore_with_errors(alloc, &filled, errors, names, orders, limit, rules, watch)?;
    let told = rule_texts(alloc, lists)?;
    shown_of_all(alloc, words, chosen, &filled, &told, &found)
}

/// What is shown of what was found. The error is that memory ran out.
fn shown_of_all(
    alloc: Global,
    words: &ErrorsWords<'_>,
    chosen: &str,
    setup: &Setup,
    rules: &[String],
    found: &ErrorsFound,
) -> Result<Tried, AllocError>
    ensures { IfOk result (λ r. IsShownOf words.now.shown words.now.coloured chosen.now setup.now found.now
        (map string_bytes rules.now) (option_map string_bytes r.text) r.good) }
{
    match words.shown {
        ErrorsShown::Plans(format) => report_of(alloc, format, rules, found),
        ErrorsShown::Outcome(number, format) => {
            let how = Shown {
                format,
                coloured: words.coloured,
                chosen,
            };
            Ok(Tried {
                text: witness_in(alloc, how, setup, found, number)?,
                good: true,
            })
        }
    }
}

/// What was found of the rules, and the outcomes with the plans that give them; or what comes of each plan. The error is that memory ran out.
fn report_text(
    alloc: Global,
    format: PlansFormat,
    rules: &[String],
    found: &ErrorsFound,
) -> Result<String, AllocError>
    ensures { IfOk result (λ t. string_bytes t ≡ errors_report format (map string_bytes rules.now) found.now) }
{
    let mut text = String::new(alloc);
    match format {
        PlansFormat::Text => {
            put_rules(&mut text, rules, found)?;
            put_plans(alloc, &mut text, &found.plans)?;
        }
        PlansFormat::Json => put_json_lines(alloc, &mut text, rules, found)?,
    }
    Ok(text)
}

/// The same; and whether nothing was left out, the execution goes well where nothing is put in, and no order ends against a rule. The error is that memory ran out.
fn report_of(
    alloc: Global,
    format: PlansFormat,
    rules: &[String],
    found: &ErrorsFound,
) -> Result<Tried, AllocError>
    ensures text { IfOk result (λ r. option_map string_bytes r.text
        ≡ Some (errors_report format (map string_bytes rules.now) found.now)) }
    ensures good { IfOk result (λ r. r.good ≡ all_is_good (map string_bytes rules.now) found.now) }
{
    let text = report_text(alloc, format, rules, found)?;
    Ok(Tried {
        text: Some(text),
        good: are_good(&found.plans) && are_kept(rules.len(), found),
    })
}

/// What is shown of the outcome of a number and a plan that gives it; none where there is none. The error is that memory ran out.
fn witness_in(
    alloc: Global,
    how: Shown<'_>,
    setup: &Setup,
    found: &ErrorsFound,
    number: u32,
) -> Result<Option<String>, AllocError>
    ensures { IfOk result (λ o. IsPlanShown how.entry.format how.entry.coloured how.entry.chosen.now setup.now (witness_of number found.now)
        (option_map string_bytes o)) }
{
    match witness_of(alloc, found, number)? {
        Some((plan, found)) => Ok(Some(plan_text(alloc, how, setup, plan, found)?)),
        None => Ok(None),
    }
}

/// What is shown of an outcome and the plan that gives it. The error is that memory ran out.
fn plan_text(
    alloc: Global,
    how: Shown<'_>,
    setup: &Setup,
    plan: &PlanOutcomes,
    found: &Found,
) -> Result<String, AllocError>
    ensures { IfOk result (λ t. (u : Setup) × IsUnder setup.now plan.now.plan.items u
        × IsPlanIn how.entry.format how.entry.coloured how.entry.chosen.now u found.now (string_bytes t)) }
{
    let under = setup_under(alloc, setup, &plan.plan)?;
    text_under(alloc, how, under, found)
}

/// The mock file of an execution under a plan, or the steps of an outcome. The error is that memory ran out.
fn text_under(
    alloc: Global,
    how: Shown<'_>,
    under: Setup,
    found: &Found,
) -> Result<String, AllocError>
    ensures { IfOk result (λ t. IsPlanIn how.entry.format how.entry.coloured how.entry.chosen.now under found.now (string_bytes t)) }
{
    match how.format {
        ErrorsFormat::Mocks => mock_file_of(alloc, &under),
        ErrorsFormat::Steps(format) => {
            shown_of(alloc, format, how.coloured, how.chosen, under, found)
        }
    }
}

/// The mock file of an execution. The error is that memory ran out.
fn mock_file_of(alloc: Global, setup: &Setup) -> Result<String, AllocError>
    ensures { IfOk result (λ t. string_bytes t ≡ case_file setup.now) }
{
    let mut text = String::new(alloc);
    put_case(alloc, &mut text, setup)?;
    Ok(text)
}

// What is wrong with words that clap takes.
use crate::exploring::{is_json, is_mocks, names_definition_alone};
use crate::given::Given;
use crate::meaning::{
    covers, debugs_by_script, lists_reports, names_beside_test, names_chosen, names_files,
    names_more, names_run, test_number,
};
use crate::verbs::Verb;
use std::alloc::AllocError;

/// Why nothing is asked for.
#[derive(Clone, Copy)]
pub enum Misuse {
    /// Texts of a run are lacking: the definition, the mock file, what is chosen, the input.
    Lacking(bool, bool, bool, bool),
    /// Two words are both there of which one excludes the other, as a word and the option that stands for it.
    Twice(&'static str, &'static str),
    /// Texts of a suite are lacking: the mock file, the expectations.
    Suiteless(bool, bool),
    /// Texts of a run are named, and none is asked for.
    Runless,
    /// A machine is named, and no file of it.
    Fileless,
    /// A shard isn't two numbers.
    Shard,
    /// A test isn't a file and a number.
    Test,
    /// A script is to be told as a tree.
    TreeOfScript,
    /// The steps of one outcome are to be told in a format, and none is named.
    Witnessless,
    /// This says something of plans of errors, and none are put in.
    Planless(&'static str),
    /// A region is named, and the run isn't printed in the service's format.
    Regional,
    /// What tests cover is to be told in a format, and it isn't told.
    Coverless,
    /// This option says something of orders, and none is asked for.
    Orderless(&'static str),
    /// A word isn't UTF-8.
    Malformed,
    /// A word names an outcome that isn't there.
    Outcome,
}

/// Whether it is said how an outcome is printed, and none is named.
fn lacks_witness(given: &Given<'_>) -> bool {
    given.witness.is_none() && given.format.is_some() && !is_json(given.format)
}

/// Why a command asks for nothing.
pub fn misuse_of(verb: Verb, given: &Given<'_>) -> Misuse {
    match verb {
        Verb::Test if lists_reports(given) => misuse_of_list(given),
        Verb::Lint => misuse_of_lint(given),
        Verb::Check | Verb::Test if are_both(given.definition, given.project) => {
            Misuse::Twice("[DEF]", "--project <FILE>")
        }
        Verb::Test if given.definition.is_some() => misuse_of_suite(given),
        Verb::Test => misuse_of_rest(given),
        Verb::Explore if given.errors.is_none() && is_json(given.format) => {
            Misuse::Planless("value 'json' of '--format'")
        }
        Verb::Explore if given.witness.is_some() && is_json(given.format) => {
            Misuse::Twice("--format json", "--witness <I>")
        }
        Verb::Explore if lacks_witness(given) => Misuse::Witnessless,
        Verb::Explore if given.errors.is_some() && given.calls => {
            Misuse::Twice("--calls", "--errors <K>")
        }
        Verb::Explore if given.errors.is_none() && given.error.is_some() => {
            Misuse::Planless("argument '--error <NAME>'")
        }
        Verb::Explore if given.errors.is_none() && given.always.is_some() => {
            Misuse::Planless("argument '--always <RULE>'")
        }
        Verb::Explore if given.errors.is_none() && given.undo.is_some() => {
            Misuse::Planless("argument '--undo <PAIR>'")
        }
        Verb::Explore if given.errors.is_none() && is_mocks(given.format) => {
            Misuse::Planless("value 'mocks' of '--format'")
        }
        Verb::Explore if given.errors.is_some() && names_definition_alone(given) => {
            Misuse::Lacking(true, false, false, false)
        }
        Verb::Run if are_both(given.steps, given.most_steps) => {
            Misuse::Twice("--steps <FILE>", "--max-steps <N>")
        }
        Verb::Run if given.region.is_some() && !is_aws(given.format) => Misuse::Regional,
        Verb::Debug if debugs_by_script(given) => misuse_of_strict(given),
        Verb::Graph if !given.run && names_run(given) => Misuse::Runless,
        Verb::Run | Verb::Debug | Verb::Explore => misuse_of_begin(given),
        _ => misuse_of_run(given),
    }
}

fn misuse_of_lint(given: &Given<'_>) -> Misuse {
    if names_files(given) {
        Misuse::Twice("[FILE]...", "--project <FILE>")
    } else {
        Misuse::Fileless
    }
}

fn misuse_of_begin(given: &Given<'_>) -> Misuse {
    match given.test {
        Some(test) => misuse_of_test(given, test),
        None if names_chosen(given) => misuse_of_chosen(given),
        None => misuse_of_run(given),
    }
}

fn misuse_of_test(given: &Given<'_>, test: &str) -> Misuse {
    if names_beside_test(given) {
        Misuse::Twice(named_beside_test(given), "--test <SUITE#N>")
    } else if test_number(test).is_none() {
        Misuse::Test
    } else if are_both(given.mocks, given.mocks_option) {
        Misuse::Twice("[MOCKS]", "--mocks <FILE>")
    } else if are_both(given.script, given.script_option) {
        Misuse::Twice("[SCRIPT]", "--script <FILE>")
    } else if given.definition.is_none() || is_neither(given.mocks, given.mocks_option) {
        lacking_of_test(given)
    } else {
        Misuse::TreeOfScript
    }
}

fn lacking_of_test(given: &Given<'_>) -> Misuse {
    let mocks = is_neither(given.mocks, given.mocks_option);
    Misuse::Lacking(given.definition.is_none(), mocks, false, false)
}

/// The first argument that a test stands for.
fn named_beside_test(given: &Given<'_>) -> &'static str {
    if given.chosen.is_some() {
        "[CHOSEN]"
    } else if given.case_option.is_some() {
        "--case <CHOSEN>"
    } else if given.input.is_some() {
        "[INPUT]"
    } else if given.input_option.is_some() {
        "--input <FILE>"
    } else {
        "--project <FILE>"
    }
}

fn misuse_of_list(given: &Given<'_>) -> Misuse {
    match given.junit {
        Some(_) => Misuse::Twice("--list", "--junit <FILE>"),
        None => Misuse::Twice("--list", "--json <FILE>"),
    }
}

fn misuse_of_suite(given: &Given<'_>) -> Misuse {
    let mocks = given.mocks.is_none();
    let expectations = given.expectations.is_none();
    if mocks || expectations {
        Misuse::Suiteless(mocks, expectations)
    } else {
        misuse_of_rest(given)
    }
}

/// What is wrong with the options of tests that are named.
fn misuse_of_rest(given: &Given<'_>) -> Misuse {
    if given.coverage_format.is_some() && !covers(given) {
        Misuse::Coverless
    } else if given.every && !given.orders {
        Misuse::Orderless("--every")
    } else if given.limit.is_some() && !given.orders {
        Misuse::Orderless("--limit <N>")
    } else {
        Misuse::Shard
    }
}

fn misuse_of_strict(given: &Given<'_>) -> Misuse {
    match given.script {
        Some(_) => Misuse::Twice("--strict", "[SCRIPT]"),
        None => Misuse::Twice("--strict", "--script <FILE>"),
    }
}

/// Whether a word names the format of the service.
fn is_aws(word: Option<&str>) -> bool {
    match word {
        Some(text) => text == "aws",
        None => false,
    }
}

fn misuse_of_chosen(given: &Given<'_>) -> Misuse {
    if names_more(given) {
        misuse_of_more(given)
    } else if are_both(given.definition, given.case_option) {
        Misuse::Twice("[DEF]", "--case <CHOSEN>")
    } else if are_both(given.mocks, given.input_option) {
        Misuse::Twice("[MOCKS]", "--input <FILE>")
    } else if are_both(given.script, given.script_option) {
        Misuse::Twice("[SCRIPT]", "--script <FILE>")
    } else if is_neither(given.definition, given.case_option) {
        Misuse::Lacking(false, false, true, false)
    } else {
        Misuse::TreeOfScript
    }
}

fn misuse_of_more(given: &Given<'_>) -> Misuse {
    match (given.chosen, given.mocks_option) {
        (None, Some(_)) => Misuse::Twice("--mocks <FILE>", "--project <FILE>"),
        _ => Misuse::Twice("[CHOSEN]", "--project <FILE>"),
    }
}

fn misuse_of_run(given: &Given<'_>) -> Misuse {
    if are_both(given.mocks, given.mocks_option) {
        Misuse::Twice("[MOCKS]", "--mocks <FILE>")
    } else if are_both(given.chosen, given.case_option) {
        Misuse::Twice("[CHOSEN]", "--case <CHOSEN>")
    } else if are_both(given.input, given.input_option) {
        Misuse::Twice("[INPUT]", "--input <FILE>")
    } else if are_both(given.script, given.script_option) {
        Misuse::Twice("[SCRIPT]", "--script <FILE>")
    } else {
        lacking_in(given)
    }
}

/// Whether a word and the option that stands for it are both there.
fn are_both(word: Option<&str>, option: Option<&str>) -> bool {
    word.is_some() && option.is_some()
}

fn lacking_in(given: &Given<'_>) -> Misuse {
    let mocks = is_neither(given.mocks, given.mocks_option);
    let chosen = is_neither(given.chosen, given.case_option);
    let input = is_neither(given.input, given.input_option);
    let definition = given.definition.is_none();
    if definition || mocks || chosen || input {
        Misuse::Lacking(definition, mocks, chosen, input)
    } else {
        Misuse::TreeOfScript
    }
}

/// Whether neither a word nor the option that stands for it is there.
fn is_neither(word: Option<&str>, option: Option<&str>) -> bool {
    word.is_none() && option.is_none()
}

/// Appends what is wrong.
pub fn put_misuse(out: &mut String, misuse: Misuse) -> Result<(), AllocError> {
    match misuse {
        Misuse::Lacking(definition, mocks, chosen, input) => {
            put_lacking(out, definition, mocks, chosen, input)
        }
        Misuse::Twice(word, option) => {
            write!(out, "the argument '{word}' cannot be used with '{option}'")
        }
        Misuse::Suiteless(mocks, expectations) => put_suiteless(out, mocks, expectations),
        Misuse::Runless => out.push_str(
            "the following required arguments were not provided:\n  --run",
        ),
        Misuse::Fileless => out.push_str(
            "the following required arguments were not provided:\n  <FILE>...",
        ),
        Misuse::Witnessless => out.push_str(
            "the following required arguments were not provided:\n  --witness <I>",
        ),
        Misuse::Coverless => out.push_str(
            "the following required arguments were not provided:\n  --coverage",
        ),
        Misuse::Orderless(option) => write!(out, "the argument '{option}' is for --orders"),
        Misuse::Planless(what) => write!(out, "the {what} is for --errors"),
        Misuse::Regional => out.push_str("the argument '--region <NAME>' is for --format aws"),
        Misuse::Shard => {
            out.push_str("a shard is I/N: two numbers from 1, the first at most the second")
        }
        Misuse::Test => {
            out.push_str("a test is SUITE#N: the file of tests, and the number of one, from 1")
        }
        Misuse::TreeOfScript => {
            out.push_str("a script is told as text: --format tree is for lines that are typed")
        }
        Misuse::Malformed => { out.push_str("invalid UTF-8 was detected in one or more arguments") }
        Misuse::Outcome => out.push_str("no outcome has the number that --witness names"),
    }
}

fn put_lacking(
    out: &mut String,
    definition: bool,
    mocks: bool,
    chosen: bool,
    input: bool,
) -> Result<(), AllocError> {
    out.push_str("the following required arguments were not provided:")?;
    put_if(out, definition, "\n  <DEF>")?;
    put_if(out, mocks, "\n  <MOCKS>")?;
    put_if(out, chosen, "\n  <CHOSEN>")?;
    put_if(out, input, "\n  <INPUT>")
}

fn put_suiteless(out: &mut String, mocks: bool, expectations: bool) -> Result<(), AllocError> {
    out.push_str("the following required arguments were not provided:")?;
    put_if(out, mocks, "\n  <MOCKS>")?;
    put_if(out, expectations, "\n  <EXPECT>")
}

/// Appends a text where it is wanted.
fn put_if(out: &mut String, is_wanted: bool, text: &str) -> Result<(), AllocError> {
    if is_wanted {
        out.push_str(text)
    } else {
        Ok(())
    }
}

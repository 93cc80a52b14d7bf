// What an execution begins with: the texts of its files, and what they are called.
ghost use Rattle.std.specs.Prelude.{◌≡◌, ℕ, List, Some, option_map, string_bytes, IfOk, IfErr};
ghost use Rattle.std.specs.Option.{option_copied};
ghost use Rattle.asl_run_input.specs.StepsFile.{steps_file};
ghost use Rattle.asl_suite_file.specs.declared.expectation.Draft.{Draft};
ghost use Rattle.asl_words.specs.declared.words.SetupWords.{SetupWords};
ghost use Rattle.asl_cli.specs.Choices.{IsSetupOf};
ghost use Rattle.asl_host.specs.declared.files.Unreadable.{Unreadable};
ghost use Rattle.asl_run_input.specs.Views.{texts_of};
ghost use Rattle.asl_cli.specs.Faults.{AreGiven, AreUnread, names_in};
ghost use Rattle.asl_cli.specs.Beginnings.{suite_name, test_of, chosen_by, IsInputText, IsInputUnread, IsOfTest, IsNoTest, IsTestReason, AreGivenIn, IsUnchosenIn, AreUngivenIn, AreGivenBy, AreUngivenBy, IsBeginning, IsNoBeginning, texts_in, by_steps};

use crate::choices::setup_in;
use crate::fault::CommandFault;
use crate::mending::of_test;
use crate::projects::{name_of, project_in};
use crate::reading::{SetupTexts, SuiteTexts, read_file, read_suite, read_texts};
use crate::testing::all_drafts_of;
use asl_host::{Files, beside};
use asl_json_write::write;
use asl_project::Workflow;
use asl_run_input::{RunTexts, put_steps};
use asl_suite_file::{Draft, InputSource, Steps};
use asl_words::{Begin, ChosenWords, SetupWords, TestedWords};
use std::alloc::{AllocError, Global};

/// What the files are called that an execution begins with, and what is chosen of the mock file.
#[derive(Drop)]
pub(crate) struct Names {
    pub(crate) definition: String,
    pub(crate) mocks: String,
    pub(crate) chosen: String,
    pub(crate) input: String,
}

/// The texts of what an execution begins with, and what they are called.
#[derive(Drop)]
pub(crate) struct Beginning {
    pub(crate) names: Names,
    pub(crate) texts: SetupTexts,
    /// The steps of a test, as a steps file.
    pub(crate) steps: Option<String>,
}

impl Beginning {
    /// The texts of a run by these steps, where they are named; else by those of the test, where it has some.
    pub(crate) fn of_run<'a>(&'a self, steps: Option<&'a [u8]>) -> RunTexts<'a>
        ensures { texts_of result ≡ by_steps (texts_in self.now) (option_map (λ b. b.now) steps.entry) }
    {
        match steps {
            Some(steps) => self.texts.of_run(Some(steps)),
            None => self.texts.of_run(self.own_steps()),
        }
    }

    /// What is chosen of the mock file.
    pub(crate) fn into_chosen(self) -> String
        ensures { string_bytes result ≡ string_bytes self.texts.chosen }
    {
        let Beginning {
            names: _names,
            texts,
            steps: _steps,
        } = self;
        texts.into_chosen()
    }

    /// The steps of the test.
    fn own_steps(&self) -> Option<&[u8]>
        ensures { option_map (λ b. b.now) result ≡ option_map string_bytes self.now.steps }
    {
        match &self.steps {
            Some(text) => Some(text.as_bytes()),
            None => None,
        }
    }
}

/// Reads what an execution begins with.
pub(crate) fn begin<'a, F: Files>(
    alloc: Global,
    files: &mut F,
    begin: &Begin<'_>,
) -> Result<Beginning, CommandFault<'a>>
    ensures begins { IfOk result (λ b. IsBeginning (F.gives files.old) begin.now (texts_in b)) }
    ensures kept { (n b : List ℕ) → F.gives files.new n b → F.gives files.old n b }
    ensures lacking { (n : List ℕ) (u : Unreadable) → F.lacks files.new n u
        → F.lacks files.old n u }
    ensures refused { IfErr result (IsNoBeginning (F.gives files.old) (F.lacks files.old) begin.now) }
{
    match begin {
        Begin::Files(words) => begin_by(alloc, files, words),
        Begin::Project(words) => begin_chosen(alloc, files, words),
        Begin::Test(words) => begin_test(alloc, files, words),
    }
}

// ---- files that are named

/// Reads the files, in the order of the words.
pub(crate) fn begin_by<'a, F: Files>(
    alloc: Global,
    files: &mut F,
    words: &SetupWords<'_>,
) -> Result<Beginning, CommandFault<'a>>
    ensures given { IfOk result (λ b. AreGiven (F.gives files.old) words.now (texts_in b)) }
    ensures kept { (n b : List ℕ) → F.gives files.new n b → F.gives files.old n b }
    ensures lacking { (n : List ℕ) (u : Unreadable) → F.lacks files.new n u
        → F.lacks files.old n u }
    ensures unread { IfErr result
        (AreUnread (F.gives files.old) (F.lacks files.old) (names_in words.now)) }
{
    let texts = read_texts(alloc, files, words)?;
    let names = names_of(alloc, words)?;
    Ok(Beginning {
        names,
        texts,
        steps: None,
    })
}

fn names_of(alloc: Global, words: &SetupWords<'_>) -> Result<Names, AllocError> {
    Ok(Names {
        definition: String::from_str(alloc, words.definition)?,
        mocks: String::from_str(alloc, words.mocks)?,
        chosen: String::from_str(alloc, words.chosen)?,
        input: String::from_str(alloc, words.input)?,
    })
}

// ---- a workflow of a project

/// Reads the project, and the files of what is chosen.
fn begin_chosen<'a, F: Files>(
    alloc: Global,
    files: &mut F,
    words: &ChosenWords<'_>,
) -> Result<Beginning, CommandFault<'a>>
    ensures given { IfOk result (λ b. AreGivenIn (F.gives files.old) words.now (texts_in b)) }
    ensures kept { (n b : List ℕ) → F.gives files.new n b → F.gives files.old n b }
    ensures lacking { (n : List ℕ) (u : Unreadable) → F.lacks files.new n u
        → F.lacks files.old n u }
    ensures refused { IfErr result (AreUngivenIn (F.gives files.old) (F.lacks files.old) words.now) }
{
    match project_in(alloc, &words.project, files) {
        Ok(project) => begin_in(alloc, files, words, project.workflows.as_slice()),
        Err(refusal) => Err(refusal),
    }
}

/// Reads the files of what is chosen of these workflows, which are those of the project.
fn begin_in<'a, F: Files>(
    alloc: Global,
    files: &mut F,
    words: &ChosenWords<'_>,
    workflows: &[Workflow],
) -> Result<Beginning, CommandFault<'a>>
    ensures given { IfOk result (λ b. (s : SetupWords) × IsSetupOf words.now workflows.now s
        × AreGiven (F.gives files.old) s (texts_in b)) }
    ensures kept { (n b : List ℕ) → F.gives files.new n b → F.gives files.old n b }
    ensures lacking { (n : List ℕ) (u : Unreadable) → F.lacks files.new n u
        → F.lacks files.old n u }
    ensures refused { IfErr result
        (IsUnchosenIn (F.gives files.old) (F.lacks files.old) words.now workflows.now) }
{
    match setup_in(alloc, name_of(&words.project), words, workflows) {
        Ok(setup) => match begin_by(alloc, files, &setup) {
            Ok(beginning) => Ok(beginning),
            Err(refusal) => Err(refusal),
        },
        Err(refusal) => Err(refusal),
    }
}

// ---- a test of a file of tests

/// The name of the file of a test.
fn suite_of<'a>(words: &TestedWords<'a>) -> &'a str
    ensures { result.now ≡ suite_name words.now }
{
    match words.test.split_once('#') {
        Some((suite, _)) => suite,
        None => words.test,
    }
}

/// The test of a number, from 1, among these.
fn test_of(tests: &[Draft], number: usize) -> Option<&Draft>
    ensures { option_copied result ≡ test_of tests.now number }
{
    if number == 0 {
        return None;
    }
    tests.get(number - 1)
}

/// What a test chooses: its machine, and its case where that has a name.
fn chosen_by(alloc: Global, test: &Draft) -> Result<String, AllocError>
    ensures { IfOk result (λ t. string_bytes t ≡ chosen_by test.now.machine test.now.case) }
{
    let mut chosen = String::from_str(alloc, test.machine.as_str())?;
    let case = test.case.as_str();
    if !case.is_empty() {
        chosen.push('#')?;
        chosen.push_str(case)?;
    }
    Ok(chosen)
}

/// The text of the input of a test, of which the file has this name.
fn input_of<'a, F: Files>(
    alloc: Global,
    files: &mut F,
    file: &str,
    source: &InputSource,
) -> Result<Vec<u8>, CommandFault<'a>>
    ensures input { IfOk result (λ b. IsInputText (F.gives files.old) file.now source.now b.items) }
    ensures kept { (n b : List ℕ) → F.gives files.new n b → F.gives files.old n b }
    ensures lacking { (n : List ℕ) (u : Unreadable) → F.lacks files.new n u
        → F.lacks files.old n u }
    ensures unread { IfErr result (IsInputUnread (F.lacks files.old) file.now source.now) }
{
    match source {
        InputSource::Here(value) => Ok(write(alloc, value.get())?.into_bytes()),
        InputSource::File(name) => {
            let whole = beside(alloc, file, name.as_str())?;
            read_file(alloc, files, whole.as_str())
        }
    }
}

/// The steps of a test as a steps file, where it has some. The error is that memory ran out.
fn steps_of(alloc: Global, steps: &Option<Steps>) -> Result<Option<String>, AllocError>
    ensures { IfOk result (λ o. option_map string_bytes o ≡ option_map steps_file steps.now) }
{
    match steps {
        Some(steps) => Ok(Some(steps_text(alloc, steps)?)),
        None => Ok(None),
    }
}

fn steps_text(alloc: Global, steps: &Steps) -> Result<String, AllocError>
    ensures { IfOk result (λ t. string_bytes t ≡ steps_file steps.now) }
{
    let mut text = String::new(alloc);
    put_steps(&mut text, steps.steps())?;
    Ok(text)
}

/// What the files of a test are called.
fn names_of_test(
    alloc: Global,
    words: &TestedWords<'_>,
    chosen: &str,
    source: &InputSource,
) -> Result<Names, AllocError> {
    let file = suite_of(words);
    let input = match source {
        InputSource::Here(_) => String::from_str(alloc, file)?,
        InputSource::File(name) => beside(alloc, file, name.as_str())?,
    };
    Ok(Names {
        definition: String::from_str(alloc, words.definition)?,
        mocks: String::from_str(alloc, words.mocks)?,
        chosen: String::from_str(alloc, chosen)?,
        input,
    })
}

/// What a test begins with, of which these are the files and this is the input. The error is that memory ran out.
fn with_input(
    alloc: Global,
    words: &TestedWords<'_>,
    texts: SuiteTexts,
    test: &Draft,
    input: Vec<u8>,
) -> Result<Beginning, AllocError>
    ensures definition { IfOk result (λ b. b.texts.definition.items ≡ texts.definition.items) }
    ensures mocks { IfOk result (λ b. b.texts.mocks.items ≡ texts.mocks.items) }
    ensures chosen { IfOk result (λ b. string_bytes b.texts.chosen ≡ chosen_by test.now.machine test.now.case) }
    ensures input { IfOk result (λ b. b.texts.input.items ≡ input.items) }
    ensures steps { IfOk result (λ b. option_map string_bytes b.steps ≡ option_map steps_file test.now.steps) }
{
    let chosen = chosen_by(alloc, test)?;
    let names = names_of_test(alloc, words, chosen.as_str(), &test.input)?;
    let steps = steps_of(alloc, &test.steps)?;
    let SuiteTexts {
        definition,
        mocks,
        expectations: _expectations,
    } = texts;
    Ok(Beginning {
        names,
        texts: SetupTexts {
            definition,
            mocks,
            chosen,
            input,
        },
        steps,
    })
}

/// That there is no test of a number among so many.
fn no_test<'a>(alloc: Global, words: &TestedWords<'_>, count: usize) -> CommandFault<'a>
    ensures { IsNoTest words.now.number result }
{
    match of_test(alloc, suite_of(words), count) {
        Ok(lines) => CommandFault::Test(words.number, lines),
        Err(AllocError) => CommandFault::OutOfMemory,
    }
}

/// What a test begins with, of which these are the files.
fn begin_with<'a, F: Files>(
    alloc: Global,
    files: &mut F,
    words: &TestedWords<'_>,
    texts: SuiteTexts,
    test: &Draft,
) -> Result<Beginning, CommandFault<'a>>
    ensures definition { IfOk result (λ b. b.texts.definition.items ≡ texts.definition.items) }
    ensures mocks { IfOk result (λ b. b.texts.mocks.items ≡ texts.mocks.items) }
    ensures chosen { IfOk result (λ b. string_bytes b.texts.chosen ≡ chosen_by test.now.machine test.now.case) }
    ensures input { IfOk result (λ b. IsInputText (F.gives files.old) (suite_name words.now) test.now.input b.texts.input.items) }
    ensures steps { IfOk result (λ b. option_map string_bytes b.steps ≡ option_map steps_file test.now.steps) }
    ensures kept { (n b : List ℕ) → F.gives files.new n b → F.gives files.old n b }
    ensures lacking { (n : List ℕ) (u : Unreadable) → F.lacks files.new n u
        → F.lacks files.old n u }
    ensures unread { IfErr result (IsInputUnread (F.lacks files.old) (suite_name words.now) test.now.input) }
{
    let input = input_of(alloc, files, suite_of(words), &test.input)?;
    match with_input(alloc, words, texts, test, input) {
        Ok(beginning) => Ok(beginning),
        Err(AllocError) => Err(CommandFault::OutOfMemory),
    }
}

/// What the test of a number begins with, of which these are the files, and these the tests.
fn begin_one<'a, F: Files>(
    alloc: Global,
    files: &mut F,
    words: &TestedWords<'_>,
    texts: SuiteTexts,
    tests: &[Draft],
) -> Result<Beginning, CommandFault<'a>>
    ensures definition { IfOk result (λ b. b.texts.definition.items ≡ texts.definition.items) }
    ensures mocks { IfOk result (λ b. b.texts.mocks.items ≡ texts.mocks.items) }
    ensures test { IfOk result (λ b. (d : Draft) × (test_of tests.now words.now.number ≡ Some d)
        × IsOfTest (F.gives files.old) words.now d (texts_in b)) }
    ensures kept { (n b : List ℕ) → F.gives files.new n b → F.gives files.old n b }
    ensures lacking { (n : List ℕ) (u : Unreadable) → F.lacks files.new n u
        → F.lacks files.old n u }
    ensures refused { IfErr result (IsTestReason (F.lacks files.old) words.now tests.now) }
{
    match test_of(tests, words.number) {
        Some(test) => match begin_with(alloc, files, words, texts, test) {
            Ok(beginning) => Ok(beginning),
            Err(refusal) => Err(refusal),
        },
        None => Err(no_test(alloc, words, tests.len())),
    }
}

/// Reads the files of a test, its file of tests behind the others, and then that of its input.
fn begin_test<'a, F: Files>(
    alloc: Global,
    files: &mut F,
    words: &TestedWords<'_>,
) -> Result<Beginning, CommandFault<'a>>
    ensures given { IfOk result (λ b. AreGivenBy (F.gives files.old) words.now (texts_in b)) }
    ensures kept { (n b : List ℕ) → F.gives files.new n b → F.gives files.old n b }
    ensures lacking { (n : List ℕ) (u : Unreadable) → F.lacks files.new n u
        → F.lacks files.old n u }
    ensures refused { IfErr result (AreUngivenBy (F.gives files.old) (F.lacks files.old) words.now) }
{
    let file = suite_of(words);
    let texts = match read_suite(alloc, files, words.definition, words.mocks, file) {
        Ok(texts) => texts,
        Err(refusal) => return Err(refusal),
    };
    match all_drafts_of(alloc, file, texts.expectations.as_slice()) {
        Ok(tests) => match begin_one(alloc, files, words, texts, tests.list.as_slice()) {
            Ok(beginning) => Ok(beginning),
            Err(refusal) => Err(refusal),
        },
        Err(refusal) => Err(refusal),
    }
}

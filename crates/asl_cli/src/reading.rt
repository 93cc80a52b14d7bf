// What a command reads: the files that its words name.
ghost use Rattle.std.specs.Prelude.{◌≡◌, ◌∷◌, List, [], ℕ, None, option_map, string_bytes, IfOk, IfErr};
ghost use Rattle.asl_run_input.specs.Views.{texts_of};
ghost use Rattle.asl_mock.specs.Chosen.{IsChosen};
ghost use Rattle.asl_host.specs.declared.files.Unreadable.{Unreadable};
ghost use Rattle.asl_cli.specs.declared.fault.CommandFault.TheVariants.{OutOfMemory};
ghost use Rattle.asl_cli.specs.Faults.{IsUnread, IsGiven, AreUnread, AreGiven, named, names_in, read_texts};

use crate::fault::CommandFault;
use asl_host::{Files, ReadFault};
use asl_mock::chosen;
use asl_run_input::RunTexts;
use asl_words::SetupWords;
use std::alloc::{AllocError, Global};

/// Reads a file that a word names.
pub(crate) fn read_file<'a, F: Files>(
    alloc: Global,
    files: &mut F,
    name: &str,
) -> Result<Vec<u8>, CommandFault<'a>>
    ensures given { IfOk result (λ r. F.gives files.old name.now r.items) }
    ensures kept { (n b : List ℕ) → F.gives files.new n b → F.gives files.old n b }
    ensures lacking { (n : List ℕ) (u : Unreadable) → F.lacks files.new n u
        → F.lacks files.old n u }
    ensures unread { IfErr result (λ r. IsUnread (F.lacks files.old) name.now r) }
{
    match files.read(alloc, name) {
        Ok(bytes) => Ok(bytes),
        Err(ReadFault::Unreadable(why)) => match String::from_str(alloc, name) {
            Ok(name) => Err(CommandFault::File(name, why)),
            Err(AllocError) => Err(CommandFault::OutOfMemory),
        },
        Err(ReadFault::OutOfMemory) => Err(CommandFault::OutOfMemory),
    }
}

/// Reads a file, where a word names one.
pub(crate) fn read_named<'a, F: Files>(
    alloc: Global,
    files: &mut F,
    name: Option<&str>,
) -> Result<Option<Vec<u8>>, CommandFault<'a>>
    ensures given { IfOk result (λ o. IsGiven (F.gives files.old) (option_map (λ n. n.now) name.entry)
        (option_map (λ b. b.items) o)) }
    ensures unread { IfErr result (AreUnread (F.gives files.old) (F.lacks files.old)
        (named (option_map (λ n. n.now) name.entry))) }
{
    let Some(name) = name else {
        return Ok(None);
    };
    let bytes = read_file(alloc, files, name)?;
    Ok(Some(bytes))
}

/// The texts of what an execution begins with.
#[derive(Drop)]
pub(crate) struct SetupTexts {
    pub(crate) definition: Vec<u8>,
    pub(crate) mocks: Vec<u8>,
    /// What is chosen of the mock file, as `Machine#Case`.
    pub(crate) chosen: String,
    pub(crate) input: Vec<u8>,
}

impl SetupTexts {
    /// What is chosen of the mock file.
    pub(crate) fn into_chosen(self) -> String
        ensures { string_bytes result ≡ string_bytes self.chosen }
    {
        let SetupTexts {
            definition: _definition,
            mocks: _mocks,
            chosen,
            input: _input,
        } = self;
        chosen
    }

    /// The texts of a run with this file of steps, where there is one.
    pub(crate) fn of_run<'a>(&'a self, steps: Option<&'a [u8]>) -> RunTexts<'a>
        ensures { texts_of result ≡ read_texts self.now (option_map (λ b. b.now) steps.entry) }
    {
        RunTexts {
            definition: self.definition.as_slice(),
            mocks: self.mocks.as_slice(),
            chosen: self.chosen.as_str(),
            input: self.input.as_slice(),
            steps,
        }
    }
}

/// What a word chooses of a mock file.
fn choose<'a>(alloc: Global, mocks: &[u8], word: &str) -> Result<String, CommandFault<'a>>
    ensures chosen { IfOk result (λ t. IsChosen mocks.now word.now (string_bytes t)) }
    ensures refused { IfErr result (λ e. e ≡ OutOfMemory) }
{
    match chosen(alloc, mocks, word) {
        Ok(chosen) => Ok(chosen),
        Err(AllocError) => Err(CommandFault::OutOfMemory),
    }
}

/// Reads the files, in the order of the words, and looks what is chosen there.
pub(crate) fn read_texts<'a, F: Files>(
    alloc: Global,
    files: &mut F,
    words: &SetupWords<'_>,
) -> Result<SetupTexts, CommandFault<'a>>
    ensures given { IfOk result (λ t. AreGiven (F.gives files.old) words.now (read_texts t None)) }
    ensures kept { (n b : List ℕ) → F.gives files.new n b → F.gives files.old n b }
    ensures lacking { (n : List ℕ) (u : Unreadable) → F.lacks files.new n u
        → F.lacks files.old n u }
    ensures unread { IfErr result
        (AreUnread (F.gives files.old) (F.lacks files.old) (names_in words.now)) }
{
    let definition = read_file(alloc, files, words.definition)?;
    let mocks = read_file(alloc, files, words.mocks)?;
    let input = read_file(alloc, files, words.input)?;
    let chosen = choose(alloc, mocks.as_slice(), words.chosen)?;
    Ok(SetupTexts {
        definition,
        mocks,
        chosen,
        input,
    })
}

/// The texts of a suite.
#[derive(Drop)]
pub(crate) struct SuiteTexts {
    pub(crate) definition: Vec<u8>,
    pub(crate) mocks: Vec<u8>,
    pub(crate) expectations: Vec<u8>,
}

/// Reads the files of a suite, in this order.
pub(crate) fn read_suite<'a, F: Files>(
    alloc: Global,
    files: &mut F,
    definition: &str,
    mocks: &str,
    expectations: &str,
) -> Result<SuiteTexts, CommandFault<'a>>
    ensures given { IfOk result (λ t. F.gives files.old definition.now t.definition.items
        × F.gives files.old mocks.now t.mocks.items × F.gives files.old expectations.now t.expectations.items) }
    ensures kept { (n b : List ℕ) → F.gives files.new n b → F.gives files.old n b }
    ensures lacking { (n : List ℕ) (u : Unreadable) → F.lacks files.new n u
        → F.lacks files.old n u }
    ensures unread { IfErr result (AreUnread (F.gives files.old) (F.lacks files.old)
        (definition.now ∷ mocks.now ∷ expectations.now ∷ [])) }
{
    let definition = read_file(alloc, files, definition)?;
    let mocks = read_file(alloc, files, mocks)?;
    let expectations = read_file(alloc, files, expectations)?;
    Ok(SuiteTexts {
        definition,
        mocks,
        expectations,
    })
}

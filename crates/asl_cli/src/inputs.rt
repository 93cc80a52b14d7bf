// The inputs of tests that stand in files.
ghost use Rattle.std.specs.Prelude.{◌≡◌, ◌++◌, ◌∷◌, ℕ, List, [], IfOk, IfErr, IfSome, OnOk, string_bytes};
ghost use Rattle.asl_json.specs.View.{data_of};
ghost use Rattle.asl_json.specs.declared.value.Json.{Json};
ghost use Rattle.asl_json_data.specs.Reads.{ReadsAs};
ghost use Rattle.asl_host.specs.Naming.{beside};
ghost use Rattle.asl_host.specs.declared.files.Unreadable.{Unreadable};
ghost use Rattle.asl_cli.specs.Inputs.{AreTestsOn, IsFirstLost, IsHeld, IsInputFrom, IsKnown, IsKnownOrHeld, IsLost, IsNoValue, IsTestFrom, IsUnheld, Unless};

use crate::fault::CommandFault;
use asl_host::{Files, ReadFault, beside};
use asl_json::{Json, Txt};
use asl_json_read::{JsonFault, read};
use asl_json_shared::Shared;
use asl_lint_files::of_json;
use asl_run_input::EmulateFault;
use asl_suite_file::{Draft, Drafts, Expectation, Expectations, InputSource};
use std::alloc::{AllocError, Global};

/// The value of a file that was read.
#[derive(Drop)]
pub(crate) struct Known {
    /// The file's name, as tests have it.
    pub(crate) name: Txt,
    pub(crate) value: Shared,
}

/// The value among these of the file of a name. The error is that it has too many owners.
fn known_of(known: &[Known], name: &str) -> Result<Option<Shared>, AllocError>
    ensures { IfOk result (λ o. IfSome o (IsKnown known.now name.now)) }
{
    for one in known {
        if one.name.as_str() == name {
            return Ok(Some(one.value.try_clone()?));
        }
    }
    Ok(None)
}

/// Keeps the value of the file of a name. The error is that memory ran out.
fn keep(alloc: Global, known: &mut Vec<Known>, name: &str, value: &Shared) -> Result<(), AllocError>
    ensures { OnOk result ((n : List ℕ) (v : Json) → IsKnown known.new.items n v
        → IsKnownOrHeld (λ m w. (m ≡ name.now) × (w ≡ value.now)) known.old.items n v) }
{
    known.push(Known {
        name: Txt::of(alloc, name)?,
        value: value.try_clone()?,
    })?;
    Ok(())
}

/// The value that bytes spell, which come from a file of this name.
fn value_in<'a>(alloc: Global, name: &str, bytes: &[u8]) -> Result<Json, CommandFault<'a>>
    ensures value { IfOk result (λ v. ReadsAs bytes.now (data_of v)) }
    ensures fault { IfErr result (Unless (IsNoValue bytes.now)) }
{
    match read(alloc, bytes) {
        Ok(value) => Ok(value),
        Err(JsonFault::OutOfMemory) => Err(CommandFault::OutOfMemory),
        Err(fault) => {
            let lines = of_json(alloc, name, bytes)?;
            Err(CommandFault::Emulation(EmulateFault::Input(fault), lines))
        }
    }
}

/// Reads the input that the file of this name holds.
fn read_input<'a, F: Files>(
    alloc: Global,
    files: &mut F,
    name: String,
) -> Result<Shared, CommandFault<'a>>
    ensures held { IfOk result (IsHeld (F.gives files.old) (string_bytes name)) }
    ensures kept { (n b : List ℕ) → F.gives files.new n b → F.gives files.old n b }
    ensures lacking { (n : List ℕ) (u : Unreadable) → F.lacks files.new n u
        → F.lacks files.old n u }
    ensures unheld { IfErr result
        (Unless (IsUnheld (F.gives files.old) (F.lacks files.old) (string_bytes name))) }
{
    let bytes = match files.read(alloc, name.as_str()) {
        Ok(bytes) => bytes,
        Err(ReadFault::Unreadable(why)) => return Err(CommandFault::File(name, why)),
        Err(ReadFault::OutOfMemory) => return Err(CommandFault::OutOfMemory),
    };
    let value = value_in(alloc, name.as_str(), bytes.as_slice())?;
    match Shared::new(alloc, value) {
        Ok(input) => Ok(input),
        Err(_) => Err(CommandFault::OutOfMemory),
    }
}

/// Reads the input that the file of a name holds which stands in a file.
fn read_beside<'a, F: Files>(
    alloc: Global,
    files: &mut F,
    file: &str,
    name: &str,
) -> Result<Shared, CommandFault<'a>>
    ensures held { IfOk result (IsHeld (F.gives files.old) (beside file.now name.now)) }
    ensures kept { (n b : List ℕ) → F.gives files.new n b → F.gives files.old n b }
    ensures lacking { (n : List ℕ) (u : Unreadable) → F.lacks files.new n u
        → F.lacks files.old n u }
    ensures unheld { IfErr result
        (Unless (IsUnheld (F.gives files.old) (F.lacks files.old) (beside file.now name.now))) }
{
    let whole = beside(alloc, file, name)?;
    read_input(alloc, files, whole)
}

/// The input that the file of a name holds, which is read where it isn't known.
fn input_named<'a, F: Files>(
    alloc: Global,
    files: &mut F,
    file: &str,
    known: &mut Vec<Known>,
    name: &str,
) -> Result<Shared, CommandFault<'a>>
    ensures input { IfOk result (IsKnownOrHeld (λ n. IsHeld (F.gives files.old) (beside file.now n))
        known.old.items name.now) }
    ensures known { OnOk result ((n : List ℕ) (v : Json) → IsKnown known.new.items n v
        → IsKnownOrHeld (λ m. IsHeld (F.gives files.old) (beside file.now m)) known.old.items n v) }
    ensures kept { (n b : List ℕ) → F.gives files.new n b → F.gives files.old n b }
    ensures lacking { (n : List ℕ) (u : Unreadable) → F.lacks files.new n u
        → F.lacks files.old n u }
    ensures unheld { IfErr result
        (Unless (IsUnheld (F.gives files.old) (F.lacks files.old) (beside file.now name.now))) }
{
    if let Some(input) = known_of(known, name)? {
        return Ok(input);
    }
    let input = read_beside(alloc, files, file, name)?;
    keep(alloc, known, name, &input)?;
    Ok(input)
}

/// The input of a test, from where it stands.
fn input_from<'a, F: Files>(
    alloc: Global,
    files: &mut F,
    file: &str,
    known: &mut Vec<Known>,
    source: &InputSource,
) -> Result<Shared, CommandFault<'a>>
    ensures input { IfOk result (IsInputFrom (F.gives files.old) file.now known.old.items source.now) }
    ensures known { OnOk result ((n : List ℕ) (v : Json) → IsKnown known.new.items n v
        → IsKnownOrHeld (λ m. IsHeld (F.gives files.old) (beside file.now m)) known.old.items n v) }
    ensures kept { (n b : List ℕ) → F.gives files.new n b → F.gives files.old n b }
    ensures lacking { (n : List ℕ) (u : Unreadable) → F.lacks files.new n u
        → F.lacks files.old n u }
    ensures lost { IfErr result
        (Unless (IsLost (F.gives files.old) (F.lacks files.old) file.now source.now)) }
{
    match source {
        InputSource::Here(input) => Ok(input.try_clone()?),
        InputSource::File(name) => input_named(alloc, files, file, known, name.as_str()),
    }
}

/// The test that a draft is with its input.
fn test_of<'a, F: Files>(
    alloc: Global,
    files: &mut F,
    file: &str,
    known: &mut Vec<Known>,
    draft: Draft,
) -> Result<Expectation, CommandFault<'a>>
    ensures test { IfOk result (IsTestFrom (F.gives files.old) file.now known.old.items draft) }
    ensures known { OnOk result ((n : List ℕ) (v : Json) → IsKnown known.new.items n v
        → IsKnownOrHeld (λ m. IsHeld (F.gives files.old) (beside file.now m)) known.old.items n v) }
    ensures kept { (n b : List ℕ) → F.gives files.new n b → F.gives files.old n b }
    ensures lacking { (n : List ℕ) (u : Unreadable) → F.lacks files.new n u
        → F.lacks files.old n u }
    ensures lost { IfErr result
        (Unless (IsLost (F.gives files.old) (F.lacks files.old) file.now draft.input)) }
{
    let input = input_from(alloc, files, file, known, &draft.input)?;
    Ok(draft.with_input(input))
}

/// Adds a test behind these. The error is that memory ran out.
fn add(list: &mut Vec<Expectation>, test: Expectation) -> Result<(), AllocError>
    ensures { OnOk result (list.new.items ≡ list.old.items ++ test ∷ []) }
{
    list.push(test)?;
    Ok(())
}

/// The tests that drafts of a file are with their inputs. Each file in which inputs stand is read once.
pub(crate) fn with_inputs<'a, F: Files>(
    alloc: Global,
    files: &mut F,
    file: &str,
    drafts: Drafts,
) -> Result<Expectations, CommandFault<'a>>
    ensures tests { IfOk result (λ t. AreTestsOn (F.gives files.old) file.now drafts.list.items
        t.list.items) }
    ensures lost { IfErr result
        (Unless (IsFirstLost (F.gives files.old) (F.lacks files.old) file.now drafts.list.items)) }
{
    let mut known = Vec::new(alloc);
    let mut list = Vec::new(alloc);
    for draft in drafts.into_list() {
        let test = test_of(alloc, files, file, &mut known, draft)?;
        add(&mut list, test)?;
    }
    Ok(Expectations { list })
}

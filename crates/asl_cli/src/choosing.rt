// Which tests of a suite are run, and how they are listed.
ghost use Rattle.std.specs.Prelude.{◌≡◌, ◌++◌, ◌∷◌, IfOk, string_bytes};
ghost use Rattle.std.specs.Prelude.{ℕ, List, OnOk};
ghost use Rattle.std.specs.List.{filter, flat_map};
ghost use Rattle.std.specs.Fmt.{decimal};
ghost use Rattle.asl_suite_file.specs.declared.expectation.Draft.{Draft};
ghost use Rattle.asl_cli.specs.Choosing.{has, is_in_name, is_meant, is_meant_by, list_text, listed, lines, listed_name, maybe_listed, meant, numbered, shown_case};

use asl_json::Txt;
use asl_json_write::put_quoted;
use asl_suite_file::{Draft, Drafts};
use asl_text::{put_decimal, put_shown};
use std::alloc::{AllocError, Global};
use std::mem;

/// Keeps the tests that a word means; all where there is none. The error is that memory ran out.
pub(crate) fn keep_meant(
    alloc: Global,
    word: Option<&str>,
    tests: &mut Drafts,
) -> Result<(), AllocError>
    ensures { OnOk result (tests.new.list.items ≡ meant word.entry tests.old.list.items) }
{
    let all = mem::replace(&mut tests.list, Vec::new(alloc));
    tests.list = meant(alloc, word, all)?;
    Ok(())
}

fn meant(alloc: Global, word: Option<&str>, tests: Vec<Draft>) -> Result<Vec<Draft>, AllocError>
    ensures { IfOk result (λ v. v.items ≡ meant word.entry tests.items) }
{
    match word {
        Some(word) => meant_by(alloc, word, tests),
        None => Ok(tests),
    }
}

fn meant_by(alloc: Global, word: &str, tests: Vec<Draft>) -> Result<Vec<Draft>, AllocError>
    ensures { IfOk result (λ v. v.items ≡ filter (is_meant word.now) tests.items) }
{
    let mut kept = Vec::new(alloc);
    for test in tests {
        if is_meant(alloc, word, &test)? {
            kept.push(test)?;
        }
    }
    Ok(kept)
}

/// Whether a word stands in the machine and the case of a test, as `MACHINE#CASE`, or in its name.
fn is_meant(alloc: Global, word: &str, test: &Draft) -> Result<bool, AllocError>
    ensures { IfOk result (λ b. b ≡ is_meant word.now test.now) }
{
    let called = called(alloc, test)?;
    Ok(has(called.as_str(), word) || is_in_name(word, &test.name))
}

/// The machine and the case of a test, as `MACHINE#CASE`.
fn called(alloc: Global, test: &Draft) -> Result<String, AllocError>
    ensures { IfOk result (λ t. string_bytes t ≡ test.now.machine ++ 35 ∷ test.now.case) }
{
    let mut name = String::from_str(alloc, test.machine.as_str())?;
    name.push('#')?;
    name.push_str(test.case.as_str())?;
    Ok(name)
}

fn is_in_name(word: &str, name: &Option<Txt>) -> bool
    ensures { result ≡ is_in_name word.now name.now }
{
    match name {
        Some(name) => has(name.as_str(), word),
        None => false,
    }
}

/// Whether a word stands somewhere in a text.
fn has(text: &str, word: &str) -> bool
    ensures { result ≡ has word.now text.now }
{
    text.contains(word)
}

// ---- the list of the tests that would be run

/// A line for each of the tests of a file that would be run: of the number `first`, from 1, and each that stands `apart` behind one of them, those
/// that a word means. The error is that memory ran out.
pub(crate) fn list_of(
    alloc: Global,
    word: Option<&str>,
    first: usize,
    apart: usize,
    tests: &[Draft],
) -> Result<String, AllocError>
    ensures { IfOk result (λ t. string_bytes t ≡ list_text word.entry first apart tests.now) }
{
    let mut out = String::new(alloc);
    let mut skipped = first.saturating_sub(1);
    for (place, test) in tests.iter().enumerate() {
        skipped = put_next(
            alloc,
            &mut out,
            word,
            apart,
            skipped,
            place as u64 + 1,
            test,
        )?;
    }
    Ok(out)
}

/// Appends the line of a test before which so many are still skipped, if it has one: how many are skipped before the next.
fn put_next(
    alloc: Global,
    out: &mut String,
    word: Option<&str>,
    apart: usize,
    skipped: usize,
    number: u64,
    test: &Draft,
) -> Result<usize, AllocError>
    ensures { (rest : List (ℕ × Draft)) → IfOk result (λ s. string_bytes out.new
        ++ lines word.entry s apart rest ≡ string_bytes out.old
        ++ lines word.entry skipped apart ((number, test.now) ∷ rest)) }
{
    if skipped != 0 {
        return Ok(skipped - 1);
    }
    put_maybe_listed(alloc, out, word, number, test)?;
    Ok(apart.saturating_sub(1))
}

/// Appends the line of a test that the word means.
fn put_maybe_listed(
    alloc: Global,
    out: &mut String,
    word: Option<&str>,
    number: u64,
    test: &Draft,
) -> Result<(), AllocError>
    ensures { OnOk result (string_bytes out.new ≡ string_bytes out.old ++ maybe_listed word.entry (number, test.now)) }
{
    if is_meant_by(alloc, word, test)? {
        return put_listed(out, number, test);
    }
    Ok(())
}

fn is_meant_by(alloc: Global, word: Option<&str>, test: &Draft) -> Result<bool, AllocError>
    ensures { IfOk result (λ b. b ≡ is_meant_by word.entry test.now) }
{
    match word {
        Some(word) => is_meant(alloc, word, test),
        None => Ok(true),
    }
}

/// Appends the number of a test in its file, its machine and its case, and its name.
fn put_listed(out: &mut String, number: u64, test: &Draft) -> Result<(), AllocError>
    ensures { OnOk result (string_bytes out.new ≡ string_bytes out.old ++ listed (number, test.now)) }
{
    put_decimal(out, number)?;
    out.push(' ')?;
    put_shown_case(out, test)?;
    put_listed_name(out, &test.name)?;
    out.push('\n')
}

/// Appends the machine and the case of a test, as `MACHINE#CASE`.
fn put_shown_case(out: &mut String, test: &Draft) -> Result<(), AllocError>
    ensures { OnOk result (string_bytes out.new ≡ string_bytes out.old ++ shown_case test.now) }
{
    put_shown(out, test.machine.as_str())?;
    out.push('#')?;
    put_shown(out, test.case.as_str())
}

/// Appends a name as a JSON text behind a space, if there is one.
fn put_listed_name(out: &mut String, name: &Option<Txt>) -> Result<(), AllocError>
    ensures { OnOk result (string_bytes out.new ≡ string_bytes out.old ++ listed_name name.now) }
{
    match name {
        Some(name) => {
            out.push(' ')?;
            put_quoted(out, name.as_str())
        }
        None => Ok(()),
    }
}

/// The numbers of the tests of a file that would be run. The error is that memory ran out.
pub(crate) fn numbers_of(
    alloc: Global,
    word: Option<&str>,
    first: usize,
    apart: usize,
    tests: &[Draft],
) -> Result<Vec<usize>, AllocError> {
    let mut numbers = Vec::new(alloc);
    let mut skipped = first.saturating_sub(1);
    for (place, test) in tests.iter().enumerate() {
        if skipped > 0 {
            skipped -= 1;
            continue;
        }
        skipped = apart.saturating_sub(1);
        if is_meant_by(alloc, word, test)? {
            numbers.push(place.saturating_add(1))?;
        }
    }
    Ok(numbers)
}

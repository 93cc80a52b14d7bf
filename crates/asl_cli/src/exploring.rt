// The command `explore`.
ghost use Rattle.std.specs.Prelude.{◌≡◌, List, ℕ, None, option_map, IfOk, IfErr, string_bytes};
ghost use Rattle.std.specs.Option.{option_copied};
ghost use Rattle.asl_explore.specs.Finding.{IsFound};
ghost use Rattle.asl_explore.specs.Reports.{explored_text};
ghost use Rattle.asl_host.specs.Outcomes.{status_of, sink_use, IsTold, IsPrinted};
ghost use Rattle.asl_cli.specs.Streams.{file_system, io};
ghost use Rattle.asl_cli.specs.Exploring.{IsExplored, IsFoundFor, IsShown, AreAllShown, IsOneShown, IsWitness, IsWitnessOf, numbered, orders_for, format_for, has_colours, witness_text};
ghost use Rattle.asl_cli.specs.Beginnings.{IsSetupReason};
ghost use Rattle.asl_cli.specs.Formats.{IsShown as IsShownIn};
ghost use Rattle.asl_cli.specs.Noting.{notes_for};

use crate::command::{FAILED, GOOD, REFUSED, print_good, tell_answer};
use crate::debugging::setup_in;
use crate::fault::CommandFault;
use crate::formatting::shown_as;
use crate::noting::tell_notes;
use asl_command_line::missing_outcome;
use asl_explore::{Explored, Found, Orders, Watch, explore as search, is_good, put_explored};
use asl_history::Sink;
use asl_host::{Files, tell_fault, write_piece};
use asl_run_formats::{Format, printed_steps};
use asl_run_input::Setup;
use asl_run_notes::{case_name, notes_of_search};
use asl_suite_orders::kept_test;
use asl_words::{ExploreWords, WitnessFormat};
use std::alloc::{AllocError, Global};

/// The command `explore`: tries every order of an execution's branches, and prints each outcome with an order that ends in it, or the
/// steps of one alone.
pub fn explore<W: Watch, F: Files, O: Sink, E: Sink>(
    watch: &W,
    alloc: Global,
    words: &ExploreWords<'_>,
    quiet: bool,
    files: &mut F,
    out: &mut O,
    err: &mut E,
) -> u8
    ensures { IsExplored (file_system (F.gives files.old) (F.lacks files.old))
        (io (sink_use O.taken O.failures out.old out.new)
        (sink_use E.taken E.failures err.old err.new) result) quiet words.now }
{
    match explore_files(watch, alloc, words, files) {
        Ok(searched) => show(alloc, &searched, quiet, words.witness, out, err),
        Err(refusal) => {
            refusal.write(alloc, quiet, err);
            REFUSED
        }
    }
}

/// What was found, what is told of answers that were lacking, and what is shown of the outcome that is wanted alone.
#[derive(Drop)]
pub struct Searched {
    pub explored: Explored,
    pub notes: String,
    /// None where all outcomes are wanted, or none has the number.
    pub witness: Option<String>,
}

/// The orders that are tried: those in which no branch is late, if only these are wanted.
pub(crate) fn orders_for(prompt: bool) -> Orders
    ensures { result ≡ orders_for prompt }
{
    if prompt {
        Orders::Prompt
    } else {
        Orders::Every
    }
}

/// Reads the files, in the order of the words, and tries the orders.
pub(crate) fn explore_files<'a, W: Watch, F: Files>(
    watch: &W,
    alloc: Global,
    words: &ExploreWords<'a>,
    files: &mut F,
) -> Result<Searched, CommandFault<'a>>
    ensures found { IfOk result (λ r. IsFoundFor (F.gives files.old) words.now r.explored
        (string_bytes r.notes) (option_map string_bytes r.witness)) }
    ensures refused { IfErr result
        (IsSetupReason (F.gives files.old) (F.lacks files.old) words.now.begin) }
{
    match setup_in(alloc, &words.begin, files) {
        Ok((setup, chosen)) => match search_from(watch, alloc, words, chosen.as_str(), setup) {
            Ok(searched) => Ok(searched),
            Err(AllocError) => Err(CommandFault::OutOfMemory),
        },
        Err(refusal) => Err(refusal),
    }
}

/// Tries the orders of an execution that begins so, of a case that was chosen by these words.
fn search_from<W: Watch>(
    watch: &W,
    alloc: Global,
    words: &ExploreWords<'_>,
    chosen: &str,
    setup: Setup,
) -> Result<Searched, AllocError>
    ensures found { IfOk result (λ r. IsFound (orders_for words.now.prompt) words.now.calls
        words.now.limit setup r.explored) }
    ensures notes { IfOk result (λ r. string_bytes r.notes
        ≡ notes_for words.now.witness chosen.now setup r.explored.found.items) }
    ensures witness { IfOk result (λ r. IsWitness words.now chosen.now setup r.explored.found.items
        words.now.witness (option_map string_bytes r.witness)) }
{
    let again = setup.try_clone(alloc)?;
    let orders = orders_for(words.prompt);
    let explored = search(alloc, setup, orders, words.calls, words.limit, watch)?;
    let (notes, witness) = told_of(alloc, words, chosen, again, &explored.found)?;
    Ok(Searched {
        explored,
        notes,
        witness,
    })
}

/// What is told of the outcomes, where all are wanted; else what is shown of one. The execution begins so.
fn told_of(
    alloc: Global,
    words: &ExploreWords<'_>,
    chosen: &str,
    setup: Setup,
    found: &[Found],
) -> Result<(String, Option<String>), AllocError>
    ensures notes { IfOk result (λ r. string_bytes r.0
        ≡ notes_for words.now.witness chosen.now setup found.now) }
    ensures witness { IfOk result (λ r. IsWitness words.now chosen.now setup found.now words.now.witness
        (option_map string_bytes r.1)) }
{
    match words.witness {
        None => Ok((notes_of_search(alloc, chosen, setup, found)?, None)),
        Some(number) => Ok((
            String::new(alloc),
            witness_of(alloc, words, chosen, setup, found, number)?,
        )),
    }
}

/// What is shown of the outcome of a number; none where there is none.
fn witness_of(
    alloc: Global,
    words: &ExploreWords<'_>,
    chosen: &str,
    setup: Setup,
    found: &[Found],
    number: u32,
) -> Result<Option<String>, AllocError>
    ensures { IfOk result (λ o. IsWitnessOf words.now chosen.now setup (numbered found.now number)
        (option_map string_bytes o)) }
{
    let Some(found) = outcome_of(found, number) else {
        return Ok(None);
    };
    let text = shown_of(alloc, words.format, words.coloured, chosen, setup, found)?;
    Ok(Some(text))
}

/// What is shown of an outcome of an execution that begins so.
pub(crate) fn shown_of(
    alloc: Global,
    format: WitnessFormat,
    coloured: bool,
    chosen: &str,
    setup: Setup,
    found: &Found,
) -> Result<String, AllocError>
    ensures { IfOk result (λ t. IsShownIn (has_colours format coloured)
        (witness_text format chosen.now setup found.now) (string_bytes t)) }
{
    let text = witness_text(alloc, format, chosen, setup, found)?;
    shown_as(alloc, has_colours(format, coloured), text)
}

/// The steps of an outcome in a format, or the outcome as a test.
fn witness_text(
    alloc: Global,
    format: WitnessFormat,
    chosen: &str,
    setup: Setup,
    found: &Found,
) -> Result<String, AllocError>
    ensures { IfOk result (λ t. string_bytes t ≡ witness_text format chosen.now setup found.now) }
{
    match format_for(format) {
        Some(format) => printed_steps(alloc, format, setup, &found.steps),
        None => kept_test(alloc, case_name(chosen), &setup, found),
    }
}

/// The format of a run in which steps are printed; none where they are a test's.
fn format_for(format: WitnessFormat) -> Option<Format<'static>>
    ensures { result ≡ format_for format }
{
    match format {
        WitnessFormat::Steps => Some(Format::Steps),
        WitnessFormat::Tree => Some(Format::Tree),
        WitnessFormat::Data => Some(Format::Data),
        WitnessFormat::Test => None,
    }
}

/// Whether what is shown in this format has colours.
fn has_colours(format: WitnessFormat, coloured: bool) -> bool
    ensures { result ≡ has_colours format coloured }
{
    match format {
        WitnessFormat::Steps | WitnessFormat::Test => false,
        WitnessFormat::Tree | WitnessFormat::Data => coloured,
    }
}

/// Prints what was found, or the outcome that is wanted alone.
fn show<O: Sink, E: Sink>(
    alloc: Global,
    searched: &Searched,
    quiet: bool,
    witness: Option<u32>,
    out: &mut O,
    err: &mut E,
) -> u8
    ensures { IsShown (io (sink_use O.taken O.failures out.old out.new)
        (sink_use E.taken E.failures err.old err.new) result) quiet searched.now.explored
        (string_bytes searched.now.notes) (option_map string_bytes searched.now.witness) witness }
{
    match witness {
        None => show_all(alloc, searched, quiet, out, err),
        Some(_) => show_one(alloc, &searched.witness, out, err),
    }
}

/// Prints all outcomes and tells the notes on them, and whether nothing was left out, each is a success and no order is endless.
fn show_all<O: Sink, E: Sink>(
    alloc: Global,
    searched: &Searched,
    quiet: bool,
    out: &mut O,
    err: &mut E,
) -> u8
    ensures { AreAllShown (io (sink_use O.taken O.failures out.old out.new)
        (sink_use E.taken E.failures err.old err.new) result) quiet searched.now.explored
        (string_bytes searched.now.notes) }
{
    match report_of(alloc, &searched.explored) {
        Ok(text) => {
            let status = print_all(text.as_str(), is_good(&searched.explored), out);
            tell_notes(searched.notes.as_str(), quiet, err);
            status
        }
        Err(AllocError) => {
            tell_fault(err, "OutOfMemory");
            REFUSED
        }
    }
}

/// The text of what was found.
fn report_of(alloc: Global, explored: &Explored) -> Result<String, AllocError>
    ensures { IfOk result (λ t. string_bytes t ≡ explored_text explored.now) }
{
    let mut text = String::new(alloc);
    put_explored(alloc, &mut text, explored)?;
    Ok(text)
}

/// Prints a text, and tells whether all is good.
pub(crate) fn print_all<O: Sink>(text: &str, good: bool, out: &mut O) -> u8
    ensures { IsPrinted (sink_use O.taken O.failures out.old out.new) text.now (status_of good) result }
{
    match write_piece(out, text) {
        Ok(()) if good => GOOD,
        Ok(()) => FAILED,
        Err(_) => REFUSED,
    }
}

/// Prints what is shown of an outcome; where there is none, that is told.
fn show_one<O: Sink, E: Sink>(
    alloc: Global,
    witness: &Option<String>,
    out: &mut O,
    err: &mut E,
) -> u8
    ensures { IsOneShown (io (sink_use O.taken O.failures out.old out.new)
        (sink_use E.taken E.failures err.old err.new) result) (option_map string_bytes witness.now) }
{
    match witness {
        Some(text) => print_good(text.as_str(), out),
        None => refuse_number(alloc, err),
    }
}

/// The outcome of a number, from 1; none where there is none.
fn outcome_of(found: &[Found], number: u32) -> Option<&Found>
    ensures { option_copied result ≡ numbered found.now number }
{
    if number == 0 {
        return None;
    }
    found.get(number as usize - 1)
}

/// Tells that the command line names an outcome that isn't there.
pub(crate) fn refuse_number<E: Sink>(alloc: Global, err: &mut E) -> u8
    ensures status { result ≡ 2 }
    ensures told { (t : List ℕ) × IsTold (sink_use E.taken E.failures err.old err.new) t }
{
    tell_answer(&missing_outcome(alloc), err);
    REFUSED
}

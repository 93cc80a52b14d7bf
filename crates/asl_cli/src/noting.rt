// What is told of a run.
ghost use Rattle.std.specs.Prelude.{◌≡◌, ◌++◌, List, [], ℕ, true, IfOk, OnOk, option_map, string_bytes};
ghost use Rattle.std.specs.Fmt.{decimal};
ghost use Rattle.asl_run_notes.specs.Notes.{note_text};
ghost use Rattle.asl_host.specs.Outcomes.{sink_use};
ghost use Rattle.asl_cli.specs.Noting.{full_note, limit_lead, limit_end, limit_note, end_note, IsNoted};
ghost use Rattle.asl_cli.specs.Streams.{unless_quiet};

use crate::command::tell_text;
use asl_exec::{Emulated, Ended};
use asl_history::Sink;
use asl_run_formats::why_of;
use asl_run_input::RunTexts;
use asl_run_notes::note_of;
use asl_text::put_decimal;
use std::alloc::{AllocError, Global};

/// What a run prints, and what is told of it.
#[derive(Drop)]
pub struct Ran {
    pub emulated: Emulated,
    pub note: String,
}

/// Appends what stands before the number of steps.
#[tactic(auto, unfolding(crate::specs::Noting::limit_lead))]
fn put_limit_lead(out: &mut String) -> Result<(), AllocError>
    ensures { OnOk result (string_bytes out.new ≡ string_bytes out.old ++ limit_lead) }
{
    out.push_str("note: the execution still runs: ")
}

/// Appends what stands behind it.
#[tactic(auto, unfolding(crate::specs::Noting::limit_end))]
fn put_limit_end(out: &mut String) -> Result<(), AllocError>
    ensures { OnOk result (string_bytes out.new ≡ string_bytes out.old ++ limit_end) }
{
    out.push_str(" steps were taken, and --max-steps takes more\n")
}

/// Appends what is told of a run that took so many steps.
fn put_limit(out: &mut String, limit: u32) -> Result<(), AllocError>
    ensures { OnOk result (string_bytes out.new ≡ string_bytes out.old
        ++ (limit_lead ++ (decimal limit ++ limit_end))) }
{
    put_limit_lead(out)?;
    put_decimal(out, u64::from(limit))?;
    put_limit_end(out)
}

/// The same, where no steps are named.
fn put_limit_note(out: &mut String, steps: Option<&[u8]>, limit: u32) -> Result<(), AllocError>
    ensures { OnOk result (string_bytes out.new ≡ string_bytes out.old
        ++ limit_note (option_map (λ b. b.now) steps.entry) limit) }
{
    match steps {
        Some(_) => Ok(()),
        None => put_limit(out, limit),
    }
}

/// Appends that the history is full.
#[tactic(auto, unfolding(crate::specs::Noting::full_note))]
fn put_full_note(out: &mut String) -> Result<(), AllocError>
    ensures { OnOk result (string_bytes out.new ≡ string_bytes out.old ++ full_note) }
{
    out.push_str("note: the execution still runs, and takes no more steps: its history is full\n")
}

/// Appends why an execution isn't over.
fn put_end_note(
    out: &mut String,
    steps: Option<&[u8]>,
    limit: u32,
    end: Ended,
) -> Result<(), AllocError>
    ensures { OnOk result (string_bytes out.new ≡ string_bytes out.old
        ++ end_note (option_map (λ b. b.now) steps.entry) limit end) }
{
    match end {
        Ended::Over => Ok(()),
        Ended::Full => put_full_note(out),
        Ended::Limit => put_limit_note(out, steps, limit),
    }
}

/// The line on why the run of these texts failed; empty where nothing more is to say of that. The error is that memory ran out, here and below.
fn why_line(alloc: Global, texts: &RunTexts<'_>, limit: u32) -> Result<String, AllocError> {
    let words = why_of(alloc, texts, limit)?;
    let mut line = String::new(alloc);
    if !words.is_empty() {
        line.push_str("note: ")?;
        line.push_str(words.as_str())?;
        line.push('\n')?;
    }
    Ok(line)
}

/// The same of a run; of one that ended in success, or that lacked an answer, nothing.
fn why_note(
    alloc: Global,
    texts: &RunTexts<'_>,
    limit: u32,
    emulated: &Emulated,
) -> Result<String, AllocError>
    ensures { IfOk result (λ w. emulated.now.good ≡ true → string_bytes w ≡ []) }
{
    if emulated.good || emulated.lacking.is_some() {
        return Ok(String::new(alloc));
    }
    why_line(alloc, texts, limit)
}

/// A run of these texts, by their steps, where they name some, else by at most so many, with what is told of it.
pub(crate) fn with_note(
    alloc: Global,
    texts: &RunTexts<'_>,
    limit: u32,
    emulated: Emulated,
) -> Result<Ran, AllocError>
    ensures emulated { IfOk result (λ r. r.emulated ≡ emulated) }
    ensures note { IfOk result (λ r. (why : List ℕ) × (emulated.good ≡ true → why ≡ [])
        × string_bytes r.note ≡ note_text texts.now.chosen.now emulated.lacking
        ++ (end_note (option_map (λ b. b.now) texts.now.steps) limit emulated.end ++ why)) }
{
    let mut note = note_of(alloc, texts.chosen, &emulated.lacking)?;
    put_end_note(&mut note, texts.steps, limit, emulated.end)?;
    let why = why_note(alloc, texts, limit, &emulated)?;
    note.push_str(why.as_str())?;
    Ok(Ran { emulated, note })
}

/// A text, unless it isn't wanted.
pub(crate) fn unless_quiet<'a>(quiet: bool, text: &'a str) -> &'a str
    ensures { result.now ≡ unless_quiet quiet text.now }
{
    if quiet { "" } else { text }
}

/// Tells what is to be told, unless that isn't wanted; of nothing, nothing.
pub(crate) fn tell_notes<E: Sink>(notes: &str, quiet: bool, err: &mut E)
    ensures { IsNoted (sink_use E.taken E.failures err.old err.new) (unless_quiet quiet notes.now) }
{
    tell_all(unless_quiet(quiet, notes), err);
}

fn tell_all<E: Sink>(notes: &str, err: &mut E)
    ensures { IsNoted (sink_use E.taken E.failures err.old err.new) notes.now }
{
    if notes.is_empty() {
        return;
    }
    tell_text(err, notes)
}

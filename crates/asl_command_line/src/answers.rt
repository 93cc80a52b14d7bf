// What is answered to words that ask for no command.
ghost use Rattle.std.specs.Prelude.{◌≡◌, OnOk, ◌++◌, string_bytes, IfOk, map};
ghost use Rattle.asl_text.specs.Shown.{shown};

use asl_arguments::{CommandRow, line_of};
use asl_text::put_shown;
use asl_words::{Misuse, put_misuse};
use clap::Error;
use clap::error::ErrorKind;
use std::alloc::{AllocError, Global};
use std::convert::AsStr;

/// What is answered in place of a command: texts of which every character shows but line feeds.
#[derive(Drop)]
pub enum Answer {
    /// Help or the version, which was asked for.
    Help(String),
    /// What is wrong with the words.
    Wrong(String),
    OutOfMemory,
}

/// The words of help.
const HELP: &str = "--help";

/// What is answered to words that clap doesn't take, of which the first is the command's name, or the program's.
pub(crate) fn answer_to<S: AsStr>(alloc: Global, row: Option<&CommandRow>, words: &[S]) -> Answer {
    match answer_in(alloc, row, words) {
        Ok(answer) => answer,
        Err(_) => Answer::OutOfMemory,
    }
}

/// The help of a command.
pub(crate) fn help_of(alloc: Global, row: &CommandRow) -> Answer {
    let words = [row.name, HELP];
    answer_to(alloc, Some(row), words.as_slice())
}

/// What clap answers to the words with every character shown, so that none of them is obeyed by a terminal, or passes for a line of the answer.
fn answer_in<S: AsStr>(
    alloc: Global,
    row: Option<&CommandRow>,
    words: &[S],
) -> Result<Answer, AllocError> {
    let shown = shown_words(alloc, words)?;
    match told(alloc, row, shown.as_slice()) {
        Some(error) => answer_of(alloc, &error),
        None => Ok(Answer::OutOfMemory),
    }
}

/// The words with every character shown.
fn shown_words<S: AsStr>(alloc: Global, words: &[S]) -> Result<Vec<String>, AllocError> {
    let mut shown = Vec::new(alloc);
    for word in words {
        shown.push(shown_word(alloc, word.as_str())?)?;
    }
    Ok(shown)
}

fn shown_word(alloc: Global, word: &str) -> Result<String, AllocError> {
    let mut shown = String::new(alloc);
    put_shown(&mut shown, word)?;
    Ok(shown)
}

/// What clap says of words; none where it takes them.
fn told<S: AsStr>(alloc: Global, row: Option<&CommandRow>, words: &[S]) -> Option<Error> {
    match line_of(alloc, row) {
        Ok(command) => command.try_get_matches_from(words).err(),
        Err(error) => Some(Error::from(error)),
    }
}

fn answer_of(alloc: Global, error: &Error) -> Result<Answer, AllocError> {
    let text = error.to_string(alloc)?;
    match error.kind() {
        ErrorKind::DisplayHelp | ErrorKind::DisplayVersion => Ok(Answer::Help(text)),
        ErrorKind::OutOfMemory => Ok(Answer::OutOfMemory),
        _ => Ok(Answer::Wrong(text)),
    }
}

/// What is answered to words that clap takes and that don't fit together.
pub(crate) fn refusal_of(alloc: Global, row: Option<&CommandRow>, misuse: Misuse) -> Answer {
    match refusal_in(alloc, row, misuse) {
        Ok(text) => Answer::Wrong(text),
        Err(_) => Answer::OutOfMemory,
    }
}

fn refusal_in(
    alloc: Global,
    row: Option<&CommandRow>,
    misuse: Misuse,
) -> Result<String, AllocError> {
    let mut text = String::from_str(alloc, "error: ")?;
    put_misuse(&mut text, misuse)?;
    put_usage(alloc, &mut text, row)?;
    text.push_str("\n\nFor more information, try '--help'.\n")?;
    Ok(text)
}

/// Appends how a command is used, or the program: a line of its help.
fn put_usage(alloc: Global, out: &mut String, row: Option<&CommandRow>) -> Result<(), AllocError> {
    let words = [HELP, HELP];
    if let Some(help) = told(alloc, row, words.as_slice()) {
        let help = help.to_string(alloc)?;
        out.push_str("\n\n")?;
        out.push_str(usage_in(help.as_str()))?;
    }
    Ok(())
}

/// The line of a help that says how a command is used.
fn usage_in(help: &str) -> &str {
    for line in help.lines() {
        if line.starts_with("Usage: ") {
            return line;
        }
    }
    ""
}

// What is read from the command line.
ghost use Rattle.std.specs.Prelude.{◌≡◌, ◌⊎◌, true, map, option_map, Some, None, IfOk, IfErr, IfSome};
ghost use Rattle.asl_words.specs.Asked.{asked};
ghost use Rattle.clap.specs.Words.{is_simple_and_free};
ghost use Rattle.asl_arguments.specs.Grammar.{app_for, command_seen};
ghost use Rattle.asl_command_line.specs.Read.{command_named, IsRead, IsReadBehind, IsReadBy, DoesNotRead, IsUnread, IsUnreadBehind};

use crate::answers::{Answer, answer_to, help_of, refusal_of};
use asl_arguments::{CommandRow, Lists, Taken, Ungiven, commands, given_in};
use asl_words::{Asked, Misuse, Screen, asked, misuse_of};
use std::alloc::Global;
use std::convert::AsStr;

/// What is read from a command line: what it asks for, and what it names one after another.
#[derive(Drop)]
pub struct Line<'a> {
    pub asked: Asked<'a>,
    pub lists: Lists<'a>,
}

/// Reads the words, of which the first is the program's name, where answers are read on this screen. The answer tells of a wrong command
/// line, is help that was asked for, or want of memory.
pub fn read_words<'a, S: AsStr>(
    alloc: Global,
    words: &'a [S],
    screen: Screen,
) -> Result<Line<'a>, Answer>
    ensures ok { IfOk result (IsRead (map S.text words.entry.now) screen) }
    ensures err { IfErr result (λ a. (a ≡ Answer.OutOfMemory)
        ⊎ IsUnread (map S.text words.entry.now) screen) }
{
    match words {
        [_, words @ ..] => read_behind(alloc, words, screen),
        [] => Err(answer_to(alloc, None, words)),
    }
}

/// Reads the words behind the program's name.
fn read_behind<'a, S: AsStr>(
    alloc: Global,
    words: &'a [S],
    screen: Screen,
) -> Result<Line<'a>, Answer>
    ensures ok { IfOk result (IsReadBehind (map S.text words.entry.now) screen) }
    ensures err { IfErr result (λ a. (a ≡ Answer.OutOfMemory)
        ⊎ IsUnreadBehind (map S.text words.entry.now) screen) }
{
    match words {
        [name, ..] => match row_named(name.as_str()) {
            Some(row) => read_command(alloc, row, words, screen),
            None => Err(answer_program(alloc, words)),
        },
        [] => Err(answer_to(alloc, None, words)),
    }
}

/// What is answered where the first word names no command: `help` with one is that command's help.
fn answer_program<S: AsStr>(alloc: Global, words: &[S]) -> Answer {
    match words {
        [help, word] if help.as_str() == "help" => match row_named(word.as_str()) {
            Some(row) => help_of(alloc, row),
            None => answer_to(alloc, None, words),
        },
        _ => answer_to(alloc, None, words),
    }
}

/// Reads the words of a command, of which the first is its name.
fn read_command<'a, S: AsStr>(
    alloc: Global,
    row: &CommandRow,
    words: &'a [S],
    screen: Screen,
) -> Result<Line<'a>, Answer>
    requires { is_simple_and_free (app_for row.now) ≡ true }
    ensures ok { IfOk result (IsReadBy row.now (map S.text words.entry.now) screen) }
    ensures err { IfErr result (λ a. (a ≡ Answer.OutOfMemory)
        ⊎ DoesNotRead row.now (map S.text words.entry.now) screen) }
{
    match given_in(alloc, row, words) {
        Ok(taken) => line_by(alloc, row, taken, screen),
        Err(Ungiven::OutOfMemory) => Err(Answer::OutOfMemory),
        Err(Ungiven::Refused) => Err(answer_to(alloc, Some(row), words)),
    }
}

/// What the words ask for that give this.
fn line_by<'a>(
    alloc: Global,
    row: &CommandRow,
    taken: Taken<'a>,
    screen: Screen,
) -> Result<Line<'a>, Answer>
    ensures ok { IfOk result (λ l. (asked row.now.verb taken.entry.given screen ≡ Some l.asked)
        × (l.lists ≡ taken.entry.lists)) }
    ensures err { IfErr result (λ _. asked row.now.verb taken.entry.given screen ≡ None) }
{
    let Taken { given, lists } = taken;
    match asked(row.verb, &given, screen) {
        Some(asked) => Ok(Line { asked, lists }),
        None => Err(refusal_of(alloc, Some(row), misuse_of(row.verb, &given))),
    }
}

/// The command of a name.
fn row_named(name: &str) -> Option<&'static CommandRow>
    ensures named { option_map (λ c. command_seen c.now) result ≡ command_named name.now }
    ensures plain { IfSome result (λ c. is_simple_and_free (app_for c.now) ≡ true) }
{
    for row in commands() {
        if row.name == name {
            return Some(row);
        }
    }
    None
}

/// What is answered where a word isn't UTF-8.
pub fn malformed_word(alloc: Global) -> Answer {
    refusal_of(alloc, None, Misuse::Malformed)
}

/// What is answered where no outcome has the number that is named.
pub fn missing_outcome(alloc: Global) -> Answer {
    refusal_of(alloc, None, Misuse::Outcome)
}

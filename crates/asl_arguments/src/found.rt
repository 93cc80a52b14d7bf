// What is given for each argument of a command, as clap finds it.
ghost use Rattle.std.specs.Prelude.{◌≡◌, ◌≢◌, [], true, Err, IfOk, map};
ghost use Rattle.clap.specs.Words.{app_of, kind_of, fault_of, first_value, found_of, is_simple_and_free};
ghost use Rattle.asl_arguments.specs.Grammar.{app_for};
ghost use Rattle.asl_arguments.specs.Given.{AreListed, IsGiven, IsTaken, IsTakenBy, all_found, is_set, said_all};

use crate::arguments::CommandRow;
use crate::lines::command_of;
use asl_words::Given;
use clap::error::ErrorKind;
use clap::{ArgMatches, Command, Error};
use std::alloc::{AllocError, Global};
use std::convert::AsStr;

/// What is named one after another.
#[derive(Drop)]
pub struct Lists<'a> {
    pub files: Vec<&'a str>,
    pub errors: Vec<&'a str>,
    /// The rules that are to hold.
    pub always: Vec<&'a str>,
    /// Pairs of Tasks, of which the second undoes the first.
    pub undo: Vec<&'a str>,
    /// The rules whose warnings aren't told.
    pub ignored: Vec<&'a str>,
}

/// What is given for each argument, and all that is for those that may be given more than once.
#[derive(Drop)]
pub struct Taken<'a> {
    pub given: Given<'a>,
    pub lists: Lists<'a>,
}

/// Why nothing is given.
#[derive(Clone, Copy)]
pub enum Ungiven {
    /// clap refuses the words, or answers them with help.
    Refused,
    OutOfMemory,
}

/// What is given in words, of which the first is the command's name.
pub fn given_in<'a, S: AsStr>(
    alloc: Global,
    row: &CommandRow,
    words: &'a [S],
) -> Result<Taken<'a>, Ungiven>
    requires { is_simple_and_free (app_for row.now) ≡ true }
    ensures ok { IfOk result (λ t. (fault_of (app_for row.now) (map S.text words.entry.now) ≡ [])
        × IsTaken (app_for row.now) (map S.text words.entry.now) t) }
    ensures err { result ≡ Err Ungiven.Refused
        → fault_of (app_for row.now) (map S.text words.entry.now) ≢ [] }
{
    match command_of(alloc, row) {
        Ok(command) => given_to(alloc, command, words),
        Err(_) => Err(Ungiven::OutOfMemory),
    }
}

fn given_to<'a, S: AsStr>(
    alloc: Global,
    command: Command<'a>,
    words: &'a [S],
) -> Result<Taken<'a>, Ungiven>
    requires { is_simple_and_free (app_of command) ≡ true }
    ensures ok { IfOk result (λ t. (fault_of (app_of command.entry) (map S.text words.entry.now) ≡ [])
        × IsTaken (app_of command.entry) (map S.text words.entry.now) t) }
    ensures err { result ≡ Err Ungiven.Refused
        → fault_of (app_of command.entry) (map S.text words.entry.now) ≢ [] }
{
    match command.try_get_matches_from(words) {
        Ok(matches) => taken_by(alloc, &matches),
        Err(error) => Err(ungiven_by(&error)),
    }
}

/// What is given by these matches.
fn taken_by<'a>(alloc: Global, matches: &ArgMatches<'a>) -> Result<Taken<'a>, Ungiven>
    ensures ok { IfOk result (IsTakenBy (found_of matches.now)) }
    ensures err { result ≢ Err Ungiven.Refused }
{
    match lists_by(alloc, matches) {
        Ok(lists) => Ok(Taken {
            given: given_by(matches),
            lists,
        }),
        Err(_) => Err(Ungiven::OutOfMemory),
    }
}

/// What is named one after another. The error is that memory ran out.
fn lists_by<'a>(alloc: Global, matches: &ArgMatches<'a>) -> Result<Lists<'a>, AllocError>
    ensures { IfOk result (AreListed (all_found (found_of matches.now))) }
{
    Ok(Lists {
        files: named_by(alloc, matches, "FILE")?,
        errors: named_by(alloc, matches, "error")?,
        always: named_by(alloc, matches, "always")?,
        undo: named_by(alloc, matches, "undo")?,
        ignored: named_by(alloc, matches, "ignore")?,
    })
}

/// All values of an argument. The error is that memory ran out.
fn named_by<'a>(
    alloc: Global,
    matches: &ArgMatches<'a>,
    name: &str,
) -> Result<Vec<&'a str>, AllocError>
    ensures { IfOk result (λ vs. said_all vs.items ≡ all_found (found_of matches.now) name.now) }
{
    match matches.get_strs(name) {
        Some(values) => copied(alloc, values),
        None => Ok(Vec::new(alloc)),
    }
}

fn copied<'a>(alloc: Global, names: &[&'a str]) -> Result<Vec<&'a str>, AllocError>
    ensures { IfOk result (λ fs. said_all fs.items ≡ said_all names.now) }
{
    let mut all = Vec::with_capacity(alloc, names.len())?;
    for name in names {
        all.push(*name)?;
    }
    Ok(all)
}

fn ungiven_by(error: &Error) -> Ungiven
    ensures { result ≡ Ungiven.Refused → kind_of error.now ≢ ErrorKind.OutOfMemory }
{
    match error.kind() {
        ErrorKind::OutOfMemory => Ungiven::OutOfMemory,
        _ => Ungiven::Refused,
    }
}

fn given_by<'a>(matches: &ArgMatches<'a>) -> Given<'a>
    ensures { IsGiven (first_value (found_of matches.now)) result }
{
    Given {
        definition: matches.get_str("DEF"),
        mocks: matches.get_str("MOCKS"),
        chosen: matches.get_str("CHOSEN"),
        input: matches.get_str("INPUT"),
        script: matches.get_str("SCRIPT"),
        machine: matches.get_str("MACHINE"),
        file: matches.get_str("FILE"),
        expectations: matches.get_str("EXPECT"),
        code: matches.get_str("CODE"),
        mocks_option: matches.get_str("mocks"),
        case_option: matches.get_str("case"),
        input_option: matches.get_str("input"),
        script_option: matches.get_str("script"),
        expect_option: matches.get_str("expect"),
        machine_option: matches.get_str("machine"),
        steps: matches.get_str("steps"),
        format: matches.get_str("format"),
        shard: matches.get_str("shard"),
        filter: matches.get_str("filter"),
        workers: matches.get_str("workers"),
        least: matches.get_str("min"),
        limit: matches.get_str("limit"),
        witness: matches.get_str("witness"),
        errors: matches.get_str("errors"),
        error: matches.get_str("error"),
        always: matches.get_str("always"),
        undo: matches.get_str("undo"),
        most_steps: matches.get_str("max-steps"),
        junit: matches.get_str("junit"),
        json: matches.get_str("json"),
        region: matches.get_str("region"),
        coverage_format: matches.get_str("coverage-format"),
        project: matches.get_str("project"),
        test: matches.get_str("test"),
        strict: is_set(matches, "strict"),
        run: is_set(matches, "run"),
        coverage: is_set(matches, "coverage"),
        prompt: is_set(matches, "prompt"),
        calls: is_set(matches, "calls"),
        orders: is_set(matches, "orders"),
        every: is_set(matches, "every"),
        list: is_set(matches, "list"),
        pretty: is_set(matches, "pretty"),
        quiet: is_set(matches, "quiet"),
    }
}

fn is_set(matches: &ArgMatches<'_>, name: &str) -> bool
    ensures { result ≡ is_set (first_value (found_of matches.now) name.now) }
{
    match matches.get_str(name) {
        Some(value) => value == "true",
        None => false,
    }
}

// A command's line as clap reads it, made from its row of the table.
ghost use Rattle.std.specs.Prelude.{◌≡◌, false, IfOk, Some};
ghost use Rattle.clap.specs.Words.{app_of, new_app, new_rule, rule_of};
ghost use Rattle.asl_arguments.specs.Grammar.{app_for, kind_rule, rule_for};

use crate::arguments::{Argument, CommandRow, Kind, commands};
use crate::helps::examples_of;
use clap::builder::ValueParser;
use clap::{Arg, ArgAction, Command};
use std::alloc::{AllocError, Global};

// No function here owns an argument or a command where it branches, so that none is dropped: what adds to one takes it and hands it back.

/// The line of a command, or of the program.
pub fn line_of<'a>(alloc: Global, row: Option<&CommandRow>) -> Result<Command<'a>, AllocError> {
    match row {
        Some(row) => command_of(alloc, row),
        None => program(alloc, commands()),
    }
}

/// A command's line, under the name of the program.
pub(crate) fn command_of<'a>(alloc: Global, row: &CommandRow) -> Result<Command<'a>, AllocError>
    ensures { IfOk result (λ c. app_of c ≡ app_for row.now) }
{
    let called = format!(in alloc; "asl {}", row.name)?;
    with_arguments(alloc, called.as_str(), row)
}

fn with_arguments<'a>(
    alloc: Global,
    called: &str,
    row: &CommandRow,
) -> Result<Command<'a>, AllocError>
    ensures { IfOk result (λ c. app_of c ≡ app_for row.now) }
{
    let mut command = called_so(alloc, row, called)?;
    for argument in row.arguments {
        command = command.arg(argument_of(alloc, argument))?;
    }
    Ok(command)
}

fn called_so<'a>(alloc: Global, row: &CommandRow, called: &str) -> Result<Command<'a>, AllocError>
    ensures { IfOk result (λ c. app_of c ≡ new_app row.now.name.now) }
{
    described(alloc, row.name, row.verb.about())
        .after_help(examples_of(row.verb))
        .bin_name(called)
}

/// The program itself, with its commands without what they take. It reads the words behind its name.
fn program<'a>(alloc: Global, rows: &[CommandRow]) -> Result<Command<'a>, AllocError> {
    let mut command = versioned(alloc).bin_name("asl")?;
    for row in rows {
        command = command.subcommand(described(alloc, row.name, row.verb.about()))?;
    }
    Ok(command)
}

fn versioned<'a>(alloc: Global) -> Command<'a> {
    described(
        alloc,
        "asl",
        "Emulates state machines of the Amazon States Language",
    )
    .version("0.1.0")
    .no_binary_name(true)
    .subcommand_required(true)
}

fn described<'a>(alloc: Global, name: &'a str, about: &'a str) -> Command<'a>
    ensures { app_of result ≡ new_app name.entry.now }
{
    Command::new(alloc, name).about(about)
}

fn argument_of<'a>(alloc: Global, row: &Argument) -> Arg<'a>
    ensures rule { rule_of result ≡ rule_for row.now }
    ensures global { result.global ≡ false }
{
    of_kind(alloc, row)
        .help(row.help.text())
        .required(row.presence.is_required())
        .default_values(row.presence.defaults())
}

fn of_kind<'a>(alloc: Global, row: &Argument) -> Arg<'a>
    ensures rule { rule_of result ≡ kind_rule row.now.name.now row.now.kind }
    ensures global { result.global ≡ false }
{
    match row.kind {
        Kind::Word => Arg::new(alloc, row.name),
        Kind::Words => Arg::new(alloc, row.name).action(ArgAction::Append),
        Kind::Flag => Arg::new(alloc, row.name)
            .long(row.name)
            .action(ArgAction::SetTrue),
        Kind::Text(value) => option(alloc, row.name, value, ValueParser::String),
        Kind::Texts(value) => {
            let option = option(alloc, row.name, value, ValueParser::String);
            option.action(ArgAction::Append)
        }
        Kind::Choice(names) => option(alloc, row.name, "FORMAT", ValueParser::Names(names)),
        Kind::Number(value, least, greatest) => {
            option(
                alloc,
                row.name,
                value,
                ValueParser::Unsigned(least, greatest),
            )
        }
    }
}

/// An option with a value.
fn option<'a>(alloc: Global, name: &'a str, value: &'a str, parser: ValueParser<'a>) -> Arg<'a>
    ensures rule { rule_of result ≡ record (new_rule name.entry.now) {
      long = Some name.entry.now;
      value_names = 1;
      parser = Some parser.entry;
    } }
    ensures global { result.global ≡ false }
{
    Arg::new(alloc, name)
        .long(name)
        .value_name(value)
        .value_parser(parser)
}

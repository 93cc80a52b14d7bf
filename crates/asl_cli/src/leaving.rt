// What the command `test` leaves: what it prints and tells, and the files that it writes.
ghost use Rattle.std.specs.Prelude.{◌≡◌, option_map, IfErr, OnOk, OnErr};
ghost use Rattle.asl_host.specs.Outcomes.{sink_use, IsTold, IsPrinted};
ghost use Rattle.asl_cli.specs.Streams.{output_use, Writes, io};
ghost use Rattle.asl_cli.specs.Suites.{leaving_of, kept_file, kept_files, IsUnkept, IsFirstUnkept, IsLeft};

use crate::command::REFUSED;
use crate::fault::CommandFault;
use asl_history::Sink;
use asl_host::{Outputs, write_piece};
use std::alloc::Global;

/// What is left of tests that were run, or listed.
#[derive(Clone, Copy)]
pub(crate) struct Left<'a> {
    /// What is printed.
    pub(crate) text: &'a str,
    /// What is told on standard error.
    pub(crate) remarks: &'a str,
    /// The status, if nothing fails that is still to be done.
    pub(crate) status: u8,
    /// Whether tests were listed, of which no file is written.
    pub(crate) list: bool,
    /// The file for the reports in JUnit's format, where one is named, and what it is to hold.
    pub(crate) junit_file: Option<&'a str>,
    pub(crate) junit: &'a str,
    /// The same in JSON.
    pub(crate) json_file: Option<&'a str>,
    pub(crate) json: &'a str,
}

/// Writes, prints and tells what is to be; the status says whether all is good.
pub(crate) fn leave<K: Outputs, O: Sink, E: Sink>(
    alloc: Global,
    quiet: bool,
    left: &Left<'_>,
    outputs: &mut K,
    out: &mut O,
    err: &mut E,
) -> u8
    ensures { IsLeft (output_use K.written outputs.old outputs.new)
        (io (sink_use O.taken O.failures out.old out.new)
        (sink_use E.taken E.failures err.old err.new) result) quiet (leaving_of left.now) }
{
    let kept = keep(left, outputs);
    let status = show(left, out, err);
    match kept {
        Ok(()) => status,
        Err(refusal) => {
            refusal.write(alloc, quiet, err);
            REFUSED
        }
    }
}

/// Writes the reports to the files that are named for them. The error is the first of these that can't be written.
fn keep<'a, K: Outputs>(left: &Left<'a>, outputs: &mut K) -> Result<(), CommandFault<'a>>
    ensures ok { OnOk result (Writes (output_use K.written outputs.old outputs.new) (kept_files (leaving_of left.now))) }
    ensures err { IfErr result (IsFirstUnkept (output_use K.written outputs.old outputs.new) (leaving_of left.now)) }
{
    if left.list {
        return Ok(());
    }
    keep_file(left.junit_file, left.junit, outputs)?;
    keep_file(left.json_file, left.json, outputs)
}

/// Writes a text to a file, where one is named.
fn keep_file<'a, K: Outputs>(
    name: Option<&'a str>,
    text: &str,
    outputs: &mut K,
) -> Result<(), CommandFault<'a>>
    ensures ok { OnOk result (Writes (output_use K.written outputs.old outputs.new)
        (kept_file (option_map (λ n. n.now) name.entry) text.now)) }
    ensures err { IfErr result (IsUnkept (option_map (λ n. n.now) name.entry)) }
    ensures kept { OnErr result (K.written outputs.new ≡ K.written outputs.old) }
{
    let Some(name) = name else {
        return Ok(());
    };
    match outputs.write(name, text) {
        Ok(()) => Ok(()),
        Err(why) => Err(CommandFault::Output(name, why)),
    }
}

/// Prints the text, and tells what is to be told.
fn show<O: Sink, E: Sink>(left: &Left<'_>, out: &mut O, err: &mut E) -> u8
    ensures printed { IsPrinted (sink_use O.taken O.failures out.old out.new) left.now.text.now left.now.status result }
    ensures told { IsTold (sink_use E.taken E.failures err.old err.new) left.now.remarks.now }
{
    let printed = write_piece(out, left.text);
    // A sink that fails has no other way to tell it: the status is the same.
    let _ = write_piece(err, left.remarks);
    match printed {
        Ok(()) => left.status,
        Err(_) => REFUSED,
    }
}

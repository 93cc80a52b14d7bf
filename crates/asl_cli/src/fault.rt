// Why a command isn't done, and the line that tells it.
ghost use Rattle.std.specs.Prelude.{◌≡◌, ◌++◌, List, ℕ, IfOk, OnErr, OnOk, string_bytes};
ghost use Rattle.asl_host.specs.Outcomes.{sink_use, fault_line, IsTold, IsBroken, IsWhole};
ghost use Rattle.asl_text.specs.Shown.{shown};
ghost use Rattle.asl_cli.specs.Faults.{mending, reason_text, Tells};

use crate::noting::unless_quiet;
use asl_check::Fault;
use asl_history::{Sink, SinkFault};
use asl_host::{Unreadable, Unwritable, tell_fault, write_fault, write_piece};
use asl_project::ProjectFault;
use asl_rules::RuleFault;
use asl_run_input::EmulateFault;
use asl_session::ScriptFault;
use asl_suite_file::ExpectFault;
use asl_text::put_shown;
use std::alloc::{AllocError, Global};
use std::error::Error;
use std::fmt;

/// Writes the line of a fault with this text, and lines behind it, as far as the sink takes them.
fn tell<E: Sink>(err: &mut E, text: &str, lines: &str)
    ensures { IsTold (sink_use E.taken E.failures err.old err.new) (fault_line text.now ++ lines.now) }
{
    // A sink that fails has no other way to tell it: the status is the same.
    let _ = write_refusal(err, text, lines);
}

fn write_refusal<E: Sink>(err: &mut E, text: &str, lines: &str) -> Result<(), SinkFault>
    ensures ok { OnOk result (IsWhole (sink_use E.taken E.failures err.old err.new)
        (fault_line text.now ++ lines.now)) }
    ensures err { OnErr result (IsBroken (sink_use E.taken E.failures err.old err.new)
        (fault_line text.now ++ lines.now)) }
{
    write_fault(err, text)?;
    write_piece(err, lines)
}

/// The line of a fault with this text, and lines behind it. The error is that memory ran out.
fn told_by(alloc: Global, text: &str, lines: &str) -> Result<String, AllocError>
    ensures { IfOk result (λ t. string_bytes t ≡ fault_line text.now ++ lines.now) }
{
    let mut told = String::from_str(alloc, "fault: ")?;
    told.push_str(text)?;
    told.push('\n')?;
    told.push_str(lines)?;
    Ok(told)
}

/// Why a command isn't done.
#[derive(Debug, Drop)]
pub enum CommandFault<'a> {
    /// The file of this name can't be read.
    File(String, Unreadable),
    /// What was read is no definition. Behind it, here and below, what stands behind the fault's line: lines for a person.
    Definition(Fault, String),
    /// What an execution was to begin with, its file of steps, or the mock file of a suite, is refused.
    Emulation(EmulateFault, String),
    /// What was read is no script.
    Script(ScriptFault, String),
    /// What was read is no file of expectations.
    Expectations(ExpectFault, String),
    /// What was read is no project.
    Project(ProjectFault, String),
    /// A rule that orders are to hold isn't read.
    Rule(RuleFault, String),
    /// Nothing is explained under this word.
    Code(&'a str, String),
    /// A file of expectations has no test of this number.
    Test(usize, String),
    /// The file of this name can't be written.
    Output(&'a str, Unwritable),
    OutOfMemory,
}

impl<'a> CommandFault<'a> {
    /// Writes the refusal's line, and what stands behind it, unless that isn't wanted.
    pub fn write<E: Sink>(&self, alloc: Global, quiet: bool, err: &mut E)
        ensures { (t : List ℕ) × Tells quiet self.now t
            × IsTold (sink_use E.taken E.failures err.old err.new) t }
    {
        match self.text(alloc) {
            Ok(text) => tell(err, text.as_str(), unless_quiet(quiet, self.mending())),
            Err(_) => tell_fault(err, "OutOfMemory"),
        }
    }

    /// The same as a text. The error is that memory ran out.
    pub(crate) fn told(&self, alloc: Global, quiet: bool) -> Result<String, AllocError>
        ensures { IfOk result (λ t. Tells quiet self.now (string_bytes t)) }
    {
        let text = self.text(alloc)?;
        let lines = unless_quiet(quiet, self.mending());
        told_by(alloc, text.as_str(), lines)
    }

    /// What stands behind its line.
    fn mending(&self) -> &str
        ensures { result.now ≡ mending self.now }
    {
        match self {
            CommandFault::Definition(_, lines)
            | CommandFault::Emulation(_, lines)
            | CommandFault::Script(_, lines)
            | CommandFault::Expectations(_, lines)
            | CommandFault::Project(_, lines)
            | CommandFault::Test(_, lines)
            | CommandFault::Rule(_, lines)
            | CommandFault::Code(_, lines) => lines.as_str(),
            CommandFault::File(_, _) | CommandFault::Output(_, _) | CommandFault::OutOfMemory => "",
        }
    }

    /// What stands behind `fault: `, on one line whatever the names are.
    fn text(&self, alloc: Global) -> Result<String, AllocError>
        ensures { IfOk result (λ t. string_bytes t ≡ shown (reason_text self.now)) }
    {
        let reason = self.to_string(alloc)?;
        let mut text = String::new(alloc);
        put_shown(&mut text, reason.as_str())?;
        Ok(text)
    }
}

impl From<AllocError> for CommandFault<'_> {
    ghost use Rattle.std.specs.Prelude.{◌≡◌};
    ghost use Rattle.asl_cli.specs.declared.fault.CommandFault.TheVariants.{OutOfMemory};

    ghost from_gives = { λ _ e. e ≡ OutOfMemory };

    fn from(_: AllocError) -> Self {
        CommandFault::OutOfMemory
    }
}

impl fmt::Display for CommandFault<'_> {
    ghost use Rattle.std.specs.Prelude.{Some};

    ghost output = { λ e. Some (reason_text e) };

    fn fmt<W: fmt::Write>(&self, f: &mut fmt::Formatter<W>) -> fmt::Result {
        match self {
            CommandFault::File(name, why) => write!(f, "file {name}{}", why.words()),
            CommandFault::Definition(fault, _) => write!(f, "definition: {fault}"),
            CommandFault::Emulation(fault, _) => write!(f, "{fault}"),
            CommandFault::Script(fault, _) => write!(f, "{fault}"),
            CommandFault::Expectations(fault, _) => write!(f, "expectations: {fault}"),
            CommandFault::Test(number, _) => write!(f, "expectations: X4 NoTest {number}"),
            CommandFault::Project(fault, _) => write!(f, "project: {fault}"),
            CommandFault::Rule(fault, _) => write!(f, "rule: {fault}"),
            CommandFault::Code(word, _) => write!(f, "code {word}"),
            CommandFault::Output(name, why) => write!(f, "file {name}{}", why.words()),
            CommandFault::OutOfMemory => f.write_str("OutOfMemory"),
        }
    }
}

impl Error for CommandFault<'_> {}

// The text of a run by a script.
ghost use Rattle.std.specs.Prelude.{◌≡◌, ◌++◌, List, IfOk, IfErr, OnOk, string_bytes};
ghost use Rattle.asl_session.specs.declared.command.Command.{Command};
ghost use Rattle.asl_session.specs.Sessions.{opened, world_in, session_after};
ghost use Rattle.asl_session.specs.Scripts.{IsScript, IsScriptRun, IsScriptFault, start_among, started, answer_lines, script_text};

use crate::answers::put_answer;
use crate::command::Command;
use crate::script_file::{ScriptFault, read_script};
use crate::session::{Session, begun_at};
use asl_run_input::Setup;
use asl_run_state::put_end;
use asl_time::Moment;
use std::alloc::{AllocError, Global};

/// The moment of the first step among these commands; this one, where there is none.
fn start_among(start: Moment, commands: &[Command]) -> Moment
    ensures { result ≡ start_among start commands.now }
{
    for command in commands {
        if let Command::Step(at) = command {
            return at.moment;
        }
    }
    start
}

/// Carries out commands in order, with a line for the reply to each. The error is that memory ran out.
fn put_answers(
    alloc: Global,
    out: &mut String,
    session: &mut Session,
    commands: &[Command],
) -> Result<(), AllocError>
    ensures text { OnOk result (string_bytes out.new
        ≡ string_bytes out.old ++ answer_lines session.old commands.now) }
    ensures session { OnOk result (session.new ≡ session_after session.old commands.now) }
{
    for command in commands {
        let reply = session.apply(command)?;
        put_answer(alloc, out, &reply)?;
    }
    Ok(())
}

/// The text of a run by these commands. The error is that memory ran out.
fn run(alloc: Global, setup: Setup, commands: &[Command]) -> Result<String, AllocError>
    ensures { IfOk result (λ t. string_bytes t ≡ script_text setup commands.now) }
{
    let start = start_among(setup.start, commands);
    let mut session = Session::open(alloc, begun_at(start, setup))?;
    let mut text = String::new(alloc);
    put_answers(alloc, &mut text, &mut session, commands)?;
    put_end(alloc, &mut text, session.execution().world())?;
    Ok(text)
}

/// Runs a session by a script. The execution starts at the moment of the script's first step, if it has one.
///
/// The text has a line for the reply to each command, then the lines of the history, then the status. Nothing is run where a line of the
/// script is no command.
pub fn run_script(alloc: Global, setup: Setup, script: &[u8]) -> Result<String, ScriptFault>
    ensures run { IfOk result (λ t. IsScriptRun setup script.now (string_bytes t)) }
    ensures fault { IfErr result (IsScriptFault script.now) }
    // A script isn't refused.
    ensures only { (cs : List Command) → IsScript script.now cs
        → IfErr result (λ e. e ≡ ScriptFault.OutOfMemory) }
{
    let commands = read_script(alloc, script)?;
    Ok(run(alloc, setup, &commands)?)
}

// The command `debug`.
ghost use Rattle.std.specs.Prelude.{◌≡◌, ◌⊎◌, ℕ, List, None, IfOk, IfErr, string_bytes};
ghost use Rattle.asl_run_input.specs.Emulations.{Accepts};
ghost use Rattle.asl_run_input.specs.declared.setup.Setup.{Setup};
ghost use Rattle.asl_session_repl.specs.Answers.{first_console};
ghost use Rattle.asl_host.specs.Outcomes.{sink_use};
ghost use Rattle.asl_cli.specs.Streams.{file_system, input_use, io};
ghost use Rattle.asl_cli.specs.Answers.{look_of, IsScripted, IsTyped, IsDebugged};
ghost use Rattle.asl_session.specs.Scripts.{IsScriptRun};
ghost use Rattle.asl_cli.specs.Faults.{IsTextsReason};
ghost use Rattle.asl_cli.specs.Beginnings.{texts_in, without_steps, IsBegun, IsSetupReason};
ghost use Rattle.asl_cli.specs.Debugging.{IsScriptReason, IsDebugText, IsDebugReasonFrom, IsDebugReason};

use crate::beginning::{Beginning, begin};
use crate::command::{REFUSED, print_good};
use crate::fault::CommandFault;
use crate::mending::of_run;
use crate::reading::read_file;
use crate::talking::converse;
use asl_history::Sink;
use asl_host::{Files, Input};
use asl_lint_files::of_command;
use asl_run_input::{EmulateFault, Setup};
use asl_session::{ScriptFault, run_script};
use asl_session_repl::{Look, Teller};
use asl_words::{Begin, DebugFormat, DebugWords};
use std::alloc::{AllocError, Global};

/// The command `debug`: runs an execution by the commands of a script and prints what it replied and did. Without a script, it answers
/// lines one after another, and then prints what the execution did.
pub fn debug<F: Files, I: Input, O: Sink, E: Sink>(
    alloc: Global,
    words: &DebugWords<'_>,
    quiet: bool,
    files: &mut F,
    input: &mut I,
    out: &mut O,
    err: &mut E,
) -> u8
    ensures { IsDebugged (file_system (F.gives files.old) (F.lacks files.old))
        (input_use I.given I.ended input.old input.new)
        (io (sink_use O.taken O.failures out.old out.new)
        (sink_use E.taken E.failures err.old err.new) result) quiet words.now }
{
    match words.script {
        Some(script) => debug_by(alloc, &words.begin, quiet, script, files, out, err),
        None => {
            let look = look_of(words.format, words.coloured);
            let (begin, strict) = (&words.begin, words.strict);
            debug_typed(alloc, begin, quiet, strict, look, files, input, out, err)
        }
    }
}

/// How the steps of lines are told.
fn look_of(format: DebugFormat, coloured: bool) -> Look
    ensures { result ≡ look_of format coloured }
{
    match format {
        DebugFormat::Text => Look::Transcript,
        DebugFormat::Tree if coloured => Look::Colours,
        DebugFormat::Tree => Look::Tree,
    }
}

/// The same by a script.
fn debug_by<F: Files, O: Sink, E: Sink>(
    alloc: Global,
    words: &Begin<'_>,
    quiet: bool,
    script: &str,
    files: &mut F,
    out: &mut O,
    err: &mut E,
) -> u8
    ensures { IsScripted (file_system (F.gives files.old) (F.lacks files.old))
        (io (sink_use O.taken O.failures out.old out.new)
        (sink_use E.taken E.failures err.old err.new) result) quiet words.now script.now }
{
    match debug_files(alloc, words, script, files) {
        Ok(text) => print_good(text.as_str(), out),
        Err(refusal) => {
            refusal.write(alloc, quiet, err);
            REFUSED
        }
    }
}

/// Reads the files, in the order of the words, and runs the execution.
fn debug_files<'a, F: Files>(
    alloc: Global,
    words: &Begin<'_>,
    script: &str,
    files: &mut F,
) -> Result<String, CommandFault<'a>>
    ensures text { IfOk result
        (λ t. IsDebugText (F.gives files.old) words.now script.now (string_bytes t)) }
    ensures refused { IfErr result
        (IsDebugReason (F.gives files.old) (F.lacks files.old) words.now script.now) }
{
    match begin(alloc, files, words) {
        Ok(beginning) => debug_from(alloc, &beginning, script, files),
        Err(refusal) => Err(refusal),
    }
}

/// Reads the script, and runs the execution that begins so.
fn debug_from<'a, F: Files>(
    alloc: Global,
    beginning: &Beginning,
    script: &str,
    files: &mut F,
) -> Result<String, CommandFault<'a>>
    ensures text { IfOk result (λ t. (s : Setup) × Accepts (without_steps (texts_in beginning.now)) s None
        × (b : List ℕ) × F.gives files.old script.now b × IsScriptRun s b (string_bytes t)) }
    ensures refused { IfErr result (IsDebugReasonFrom (F.gives files.old) (F.lacks files.old)
        (without_steps (texts_in beginning.now)) script.now) }
{
    match read_file(alloc, files, script) {
        Ok(commands) => debug_with(alloc, beginning, script, commands.as_slice()),
        Err(refusal) => Err(refusal),
    }
}

/// Runs the execution that begins so by a script, which comes from a file of this name.
fn debug_with<'a>(
    alloc: Global,
    beginning: &Beginning,
    file: &str,
    script: &[u8],
) -> Result<String, CommandFault<'a>>
    ensures text { IfOk result (λ t. (s : Setup) × Accepts (without_steps (texts_in beginning.now)) s None
        × IsScriptRun s script.now (string_bytes t)) }
    ensures refused { IfErr result (λ r. IsTextsReason (without_steps (texts_in beginning.now)) r
        ⊎ (((s : Setup) × Accepts (without_steps (texts_in beginning.now)) s None) × IsScriptReason script.now r)) }
{
    match setup_of(alloc, beginning) {
        Ok(setup) => match run_by(alloc, setup, file, script) {
            Ok(text) => Ok(text),
            Err(refusal) => Err(refusal),
        },
        Err(refusal) => Err(refusal),
    }
}

/// Runs the execution by a script, which comes from a file of this name.
fn run_by<'a>(
    alloc: Global,
    setup: Setup,
    file: &str,
    script: &[u8],
) -> Result<String, CommandFault<'a>>
    ensures run { IfOk result (λ t. IsScriptRun setup script.now (string_bytes t)) }
    ensures refused { IfErr result (IsScriptReason script.now) }
{
    match run_script(alloc, setup, script) {
        Ok(text) => Ok(text),
        Err(ScriptFault::OutOfMemory) => Err(CommandFault::OutOfMemory),
        Err(ScriptFault::Line(number)) => match of_command(alloc, file, script) {
            Ok(lines) => Err(CommandFault::Script(ScriptFault::Line(number), lines)),
            Err(AllocError) => Err(CommandFault::OutOfMemory),
        },
    }
}

/// The same by lines that are typed.
fn debug_typed<F: Files, I: Input, O: Sink, E: Sink>(
    alloc: Global,
    words: &Begin<'_>,
    quiet: bool,
    strict: bool,
    look: Look,
    files: &mut F,
    input: &mut I,
    out: &mut O,
    err: &mut E,
) -> u8
    ensures { IsTyped (file_system (F.gives files.old) (F.lacks files.old))
        (input_use I.given I.ended input.old input.new)
        (io (sink_use O.taken O.failures out.old out.new)
        (sink_use E.taken E.failures err.old err.new) result) quiet words.now strict look }
{
    match open_session(alloc, words, files) {
        Ok(console) => converse(alloc, console, strict, look, input, out, err),
        Err(fault) => {
            fault.write(alloc, quiet, err);
            REFUSED
        }
    }
}

/// Reads the files, in the order of the words, and opens a session.
fn open_session<'a, F: Files>(
    alloc: Global,
    words: &Begin<'_>,
    files: &mut F,
) -> Result<Teller, CommandFault<'a>>
    ensures opened { IfOk result (λ c. (s : Setup)
        × IsBegun (F.gives files.old) words.now s × (c ≡ first_console s)) }
    ensures refused { IfErr result
        (IsSetupReason (F.gives files.old) (F.lacks files.old) words.now) }
{
    match setup_in(alloc, words, files) {
        Ok((setup, _)) => match Teller::open(alloc, setup) {
            Ok(console) => Ok(console),
            Err(AllocError) => Err(CommandFault::OutOfMemory),
        },
        Err(refusal) => Err(refusal),
    }
}

/// What an execution begins with, from the files of the words, and what they choose.
pub(crate) fn setup_in<'a, F: Files>(
    alloc: Global,
    words: &Begin<'_>,
    files: &mut F,
) -> Result<(Setup, String), CommandFault<'a>>
    ensures found { IfOk result (λ s. (b : IsBegun (F.gives files.old) words.now s.0)
        × (string_bytes s.1 ≡ b.texts.chosen)) }
    ensures refused { IfErr result
        (IsSetupReason (F.gives files.old) (F.lacks files.old) words.now) }
{
    match begin(alloc, files, words) {
        Ok(beginning) => match setup_of(alloc, &beginning) {
            Ok(setup) => Ok((setup, beginning.into_chosen())),
            Err(refusal) => Err(refusal),
        },
        Err(refusal) => Err(refusal),
    }
}

/// What an execution begins with, from its texts; no steps are taken yet.
pub(crate) fn setup_of<'a>(alloc: Global, beginning: &Beginning) -> Result<Setup, CommandFault<'a>>
    ensures found { IfOk result (λ s. Accepts (without_steps (texts_in beginning.now)) s None) }
    ensures refused { IfErr result (IsTextsReason (without_steps (texts_in beginning.now))) }
{
    let texts = &beginning.texts;
    let answer = Setup::read(
        alloc,
        texts.definition.as_slice(),
        texts.mocks.as_slice(),
        texts.chosen.as_str(),
        texts.input.as_slice(),
    );
    match answer {
        Ok(setup) => Ok(setup),
        Err(EmulateFault::OutOfMemory) => Err(CommandFault::OutOfMemory),
        Err(fault) => {
            match of_run(alloc, &beginning.names, None, &texts.of_run(None), &fault) {
                Ok(lines) => Err(CommandFault::Emulation(fault, lines)),
                Err(AllocError) => Err(CommandFault::OutOfMemory),
            }
        }
    }
}

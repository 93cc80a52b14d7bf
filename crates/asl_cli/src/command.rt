// The program behind its words, files and streams.
ghost use Rattle.std.specs.Prelude.{◌≡◌, ◌⊎◌, List, ℕ, map, option_map, string_bytes, IfOk, IfErr};
ghost use Rattle.asl_host.specs.Outcomes.{status_of, sink_use, IsTold, IsPrinted};
ghost use Rattle.asl_command_line.specs.Read.{IsRead, IsUnread};
ghost use Rattle.asl_run_input.specs.Views.{texts_of};
ghost use Rattle.asl_exec.specs.Emulations.{IsEndIn};
ghost use Rattle.asl_exec.specs.Lacking.{IsLackingIn};
ghost use Rattle.asl_cli.specs.Streams.{file_system, file_use, input_use, output_use, io, unless_quiet};
ghost use Rattle.asl_cli.specs.Answers.{IsRan, IsAnswered, text_told};
ghost use Rattle.asl_cli.specs.Formats.{format_of, IsRunIn};
ghost use Rattle.asl_cli.specs.Faults.{IsTextsReason};
ghost use Rattle.asl_cli.specs.Beginnings.{by_steps, IsReasonFrom, IsRunReason, texts_in};
ghost use Rattle.asl_cli.specs.Running.{most_of, steps_name, IsToldRun, IsEmulatedFrom, IsEmulated};
ghost use Rattle.asl_cli.specs.Noting.{IsNoted};
ghost use Rattle.asl_cli.specs.Obeyed.{AreObeyed, IsObeyed};

use crate::beginning::{Beginning, Names, begin};
use crate::checking::check;
use crate::debugging::debug;
use crate::explaining::explain;
use crate::exploring::explore;
use crate::exploring_all::explore_all;
use crate::fault::CommandFault;
use crate::formatting::emulate_in;
use crate::graphing::graph;
use crate::injecting::inject;
use crate::linting::lint;
use crate::mending::of_run;
use crate::mocking::mocks;
use crate::noting::{Ran, tell_notes, with_note};
use crate::printing::print;
use crate::projects::{check_all, lint_all};
use crate::reading::read_named;
use crate::serving::serve;
use crate::suites::test_all;
use crate::testing::test;
use crate::upgrading::upgrade;
use asl_command_line::{Answer, Line, malformed_word, read_words};
use asl_exec::{Emulated, most_steps};
use asl_explore::Watch;
use asl_history::Sink;
use asl_host::{Files, GivenFault, Input, Outputs, tell_fault, write_piece};
use asl_run_input::{EmulateFault, RunTexts};
use asl_threads_base::Gate;
use asl_words::{RunWords, Screen, Words};
use std::alloc::{AllocError, Global};
use std::convert::AsStr;
use std::sync::Wait;
use std::thread::Threads;

/// The status where all is good, or help was asked for.
pub(crate) const GOOD: u8 = 0;
/// The status where an execution didn't end in success, or a test isn't `ok`.
pub(crate) const FAILED: u8 = 1;
/// The status where a command line, a file or its content is refused, or a write fails.
pub(crate) const REFUSED: u8 = 2;

/// The whole program: does what the words ask for, of which the first is the program's name, where answers are read on this screen, and
/// tells its status.
pub fn run_words<
    R: Threads + Wait + Sync,
    G: Gate + Watch + Sync,
    S: AsStr,
    F: Files,
    I: Input,
    K: Outputs,
    O: Sink,
    E: Sink,
>(
    rt: &R,
    gate: &G,
    alloc: Global,
    words: &[S],
    screen: Screen,
    files: &mut F,
    input: &mut I,
    outputs: &mut K,
    out: &mut O,
    err: &mut E,
) -> u8
    // What the words ask for was done; or they ask for nothing, or memory ran out: they were answered, and no file was read.
    ensures { ((l : Line) × IsRead (map S.text words.now) screen l
        × IsObeyed (file_use F.gives F.lacks files.old)
        (input_use I.given I.ended input.old input.new)
        (output_use K.written outputs.old outputs.new)
        (io (sink_use O.taken O.failures out.old out.new)
        (sink_use E.taken E.failures err.old err.new) result) l)
        ⊎ ((a : Answer) × ((a ≡ Answer.OutOfMemory) ⊎ IsUnread (map S.text words.now) screen)
        × (files.new ≡ files.old) × (outputs.new ≡ outputs.old) × IsAnswered (io (sink_use O.taken O.failures out.old out.new)
        (sink_use E.taken E.failures err.old err.new) result) a) }
{
    match read_words(alloc, words, screen) {
        Ok(line) => obey(rt, gate, alloc, &line, files, input, outputs, out, err),
        Err(answer) => answer_words(&answer, out, err),
    }
}

/// Does what words ask for, and tells the status of the program.
pub fn obey<
    R: Threads + Wait + Sync,
    G: Gate + Watch + Sync,
    F: Files,
    I: Input,
    K: Outputs,
    O: Sink,
    E: Sink,
>(
    rt: &R,
    gate: &G,
    alloc: Global,
    line: &Line<'_>,
    files: &mut F,
    input: &mut I,
    outputs: &mut K,
    out: &mut O,
    err: &mut E,
) -> u8
    ensures { IsObeyed (file_use F.gives F.lacks files.old)
        (input_use I.given I.ended input.old input.new)
        (output_use K.written outputs.old outputs.new)
        (io (sink_use O.taken O.failures out.old out.new)
        (sink_use E.taken E.failures err.old err.new) result) line.now }
{
    let quiet = line.asked.quiet;
    match &line.asked.words {
        Words::Check(words) => check(alloc, words, quiet, files, out, err),
        Words::CheckAll(words) => check_all(alloc, words, quiet, files, out, err),
        Words::Lint(words) => lint(alloc, words, &line.lists, quiet, files, out, err),
        Words::LintAll(words) => lint_all(alloc, words, &line.lists, quiet, files, out, err),
        Words::Print(words) => print(alloc, words, quiet, files, out, err),
        Words::Upgrade(words) => upgrade(alloc, words, quiet, files, out, err),
        Words::Graph(words) => graph(alloc, words, quiet, files, out, err),
        Words::Mocks(words) => mocks(alloc, words, quiet, files, out, err),
        Words::Run(words) => run(alloc, words, quiet, files, out, err),
        Words::Debug(words) => debug(alloc, words, quiet, files, input, out, err),
        Words::Test(words) => test(rt, gate, alloc, words, quiet, files, outputs, out, err),
        Words::TestAll(words) => test_all(rt, gate, alloc, words, quiet, files, outputs, out, err),
        Words::Explore(words) => explore(gate, alloc, words, quiet, files, out, err),
        Words::ExploreAll(words) => explore_all(gate, alloc, words, quiet, files, out, err),
        Words::Errors(words) => inject(gate, alloc, words, &line.lists, quiet, files, out, err),
        Words::Explain(words) => explain(alloc, words, quiet, out, err),
        Words::Lsp => serve(alloc, input, out, err),
    }
}

/// Tells that the program's words can't be had.
pub fn refuse_words<E: Sink>(alloc: Global, fault: GivenFault, err: &mut E) -> u8
    ensures status { result ≡ 2 }
    ensures told { (t : List ℕ) × IsTold (sink_use E.taken E.failures err.old err.new) t }
{
    match fault {
        GivenFault::Malformed => tell_answer(&malformed_word(alloc), err),
        GivenFault::OutOfMemory => tell_fault(err, "OutOfMemory"),
    }
    REFUSED
}

/// The command `run`: emulates an execution and prints what it did.
pub fn run<F: Files, O: Sink, E: Sink>(
    alloc: Global,
    words: &RunWords<'_>,
    quiet: bool,
    files: &mut F,
    out: &mut O,
    err: &mut E,
) -> u8
    ensures { IsRan (file_system (F.gives files.old) (F.lacks files.old))
        (io (sink_use O.taken O.failures out.old out.new)
        (sink_use E.taken E.failures err.old err.new) result) quiet words.now }
{
    match emulate_files(alloc, words, files) {
        Ok(ran) => show(&ran, quiet, out, err),
        Err(refusal) => {
            refusal.write(alloc, quiet, err);
            REFUSED
        }
    }
}

/// Reads the files, in the order of the words, and emulates.
fn emulate_files<'a, F: Files>(
    alloc: Global,
    words: &RunWords<'a>,
    files: &mut F,
) -> Result<Ran, CommandFault<'a>>
    ensures emulated { IfOk result (λ r. IsEmulated (F.gives files.old) words.now
        (string_bytes r.emulated.text) r.emulated.good (string_bytes r.note)) }
    ensures refused { IfErr result (IsRunReason (F.gives files.old) (F.lacks files.old)
        words.now.begin (steps_name words.now)) }
{
    match begin(alloc, files, &words.begin) {
        Ok(beginning) => emulate_from(alloc, words, files, &beginning),
        Err(refusal) => Err(refusal),
    }
}

/// Reads the file of steps, where one is named, and emulates what begins so.
fn emulate_from<'a, F: Files>(
    alloc: Global,
    words: &RunWords<'_>,
    files: &mut F,
    beginning: &Beginning,
) -> Result<Ran, CommandFault<'a>>
    ensures emulated { IfOk result (λ r. IsEmulatedFrom (F.gives files.old) (texts_in beginning.now) words.now
        (string_bytes r.emulated.text) r.emulated.good (string_bytes r.note)) }
    ensures refused { IfErr result (IsReasonFrom (F.gives files.old) (F.lacks files.old)
        (texts_in beginning.now) (steps_name words.now)) }
{
    match read_named(alloc, files, words.steps) {
        Ok(steps) => emulate_by(alloc, words, beginning, steps.as_deref()),
        Err(refusal) => Err(refusal),
    }
}

/// Emulates what begins so, by these steps where they are named.
fn emulate_by<'a>(
    alloc: Global,
    words: &RunWords<'_>,
    beginning: &Beginning,
    steps: Option<&[u8]>,
) -> Result<Ran, CommandFault<'a>>
    ensures emulated { IfOk result (λ r. IsToldRun (by_steps (texts_in beginning.now) (option_map (λ b. b.now) steps.entry))
        words.now (string_bytes r.emulated.text) r.emulated.good (string_bytes r.note)) }
    ensures refused { IfErr result
        (IsTextsReason (by_steps (texts_in beginning.now) (option_map (λ b. b.now) steps.entry))) }
{
    let given = beginning.of_run(steps);
    let emulated = match emulate_given(alloc, words, &beginning.names, &given) {
        Ok(emulated) => emulated,
        Err(refusal) => return Err(refusal),
    };
    match with_note(alloc, &given, most_of(words), emulated) {
        Ok(ran) => Ok(ran),
        Err(AllocError) => Err(CommandFault::OutOfMemory),
    }
}

/// So many steps are taken at most where no file names them.
fn most_of(words: &RunWords<'_>) -> u32
    ensures { result ≡ most_of words.now }
{
    words.most_steps.unwrap_or(most_steps())
}

/// Emulates what was read.
fn emulate_given<'a>(
    alloc: Global,
    words: &RunWords<'_>,
    names: &Names,
    texts: &RunTexts<'_>,
) -> Result<Emulated, CommandFault<'a>>
    ensures run { IfOk result (λ e. IsRunIn (format_of words.now.format) words.now.coloured
        (texts_of texts.now) (most_of words.now) (string_bytes e.text) e.good) }
    ensures lacking { IfOk result (λ e. IsLackingIn (texts_of texts.now) (most_of words.now) e.lacking) }
    ensures end { IfOk result (λ e. IsEndIn (texts_of texts.now) (most_of words.now) e.end) }
    ensures refused { IfErr result (IsTextsReason (texts_of texts.now)) }
{
    match emulate_in(alloc, words.format, words.coloured, texts, most_of(words)) {
        Ok(emulated) => Ok(emulated),
        Err(EmulateFault::OutOfMemory) => Err(CommandFault::OutOfMemory),
        Err(fault) => match of_run(alloc, names, words.steps, texts, &fault) {
            Ok(lines) => Err(CommandFault::Emulation(fault, lines)),
            Err(AllocError) => Err(CommandFault::OutOfMemory),
        },
    }
}

/// Prints what was emulated, tells what is to be told of it, and whether it ended in success.
fn show<O: Sink, E: Sink>(ran: &Ran, quiet: bool, out: &mut O, err: &mut E) -> u8
    ensures printed { IsPrinted (sink_use O.taken O.failures out.old out.new) (string_bytes ran.now.emulated.text)
        (status_of ran.now.emulated.good) result }
    ensures noted { IsNoted (sink_use E.taken E.failures err.old err.new)
        (unless_quiet quiet (string_bytes ran.now.note)) }
{
    let status = print_run(&ran.emulated, out);
    tell_notes(ran.note.as_str(), quiet, err);
    status
}

/// Prints what was emulated, and tells whether it ended in success.
fn print_run<O: Sink>(emulated: &Emulated, out: &mut O) -> u8
    ensures { IsPrinted (sink_use O.taken O.failures out.old out.new) (string_bytes emulated.now.text)
        (status_of emulated.now.good) result }
{
    match write_piece(out, emulated.text.as_str()) {
        Ok(()) if emulated.good => GOOD,
        Ok(()) => FAILED,
        Err(_) => REFUSED,
    }
}

/// Prints what is answered in place of a command: help that was asked for, or what is wrong with the words.
fn answer_words<O: Sink, E: Sink>(answer: &Answer, out: &mut O, err: &mut E) -> u8
    ensures { IsAnswered (io (sink_use O.taken O.failures out.old out.new)
        (sink_use E.taken E.failures err.old err.new) result) answer.now }
{
    match answer {
        Answer::Help(text) => print_good(text.as_str(), out),
        _ => {
            tell_answer(answer, err);
            REFUSED
        }
    }
}

/// Prints what was asked for, where all is good.
pub(crate) fn print_good<O: Sink>(text: &str, out: &mut O) -> u8
    ensures { IsPrinted (sink_use O.taken O.failures out.old out.new) text.now 0 result }
{
    match write_piece(out, text) {
        Ok(()) => GOOD,
        Err(_) => REFUSED,
    }
}

/// Tells an answer on standard error: its text, or that memory ran out.
pub(crate) fn tell_answer<E: Sink>(answer: &Answer, err: &mut E)
    ensures { IsTold (sink_use E.taken E.failures err.old err.new) (text_told answer.now) }
{
    match answer {
        Answer::Help(text) => tell_text(err, text.as_str()),
        Answer::Wrong(text) => tell_text(err, text.as_str()),
        Answer::OutOfMemory => tell_fault(err, "OutOfMemory"),
    }
}

/// Writes a text as far as the sink takes it.
pub(crate) fn tell_text<E: Sink>(err: &mut E, text: &str)
    ensures { IsTold (sink_use E.taken E.failures err.old err.new) text.now }
{
    let _ = write_piece(err, text);
}

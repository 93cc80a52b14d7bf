// The command `debug` without a script: lines that are typed, each answered at once.
ghost use Rattle.std.specs.Prelude.{◌≡◌, ◌&&◌, List, ℕ, true, false, IfOk, IfErr, OnErr, string_bytes};
ghost use Rattle.asl_session_repl.specs.Telling.{Answers};
ghost use Rattle.asl_session_repl.specs.Talks.{IsReplied};
ghost use Rattle.asl_host.specs.Outcomes.{sink_use, IsBroken, IsPrinted, IsWhole};
ghost use Rattle.asl_cli.specs.Streams.{input_use, io};
ghost use Rattle.asl_cli.specs.Talking.{IsStop, IsHeard, IsTalkedTo, IsTalkedUntil, IsEnd, IsStopEnd, IsStopTold, IsConversed, stop_line};

use crate::command::{FAILED, REFUSED, print_good, tell_text};
use asl_history::{Sink, SinkFault};
use asl_host::{Input, ReadFault, Unreadable, tell_fault, write_piece};
use asl_session_repl::{Look, Teller};
use asl_text::put_decimal;
use std::alloc::{AllocError, Global};

/// Why a talk isn't gone on with.
#[derive(Clone, Copy)]
enum TalkFault {
    /// The sink of the answers failed.
    Sink,
    /// No further line can be read, for this reason.
    Input(ReadFault),
}

/// What a line came to.
#[derive(Clone, Copy)]
enum Answered {
    /// Further lines may come.
    More,
    /// It was the last one.
    Last,
    /// It wasn't carried out, and ends a strict talk.
    Stop,
}

/// Whether a line ends a strict talk.
fn ends(strict: bool, refused: bool) -> bool
    ensures { result ≡ (strict && refused) }
{
    strict && refused
}

/// Answers a line. The fault is that the sink failed.
fn reply<O: Sink>(
    console: &mut Teller,
    strict: bool,
    look: Look,
    out: &mut O,
    line: &[u8],
) -> Result<Answered, SinkFault>
    ensures more { IfOk result (λ r. r ≡ Answered.More
        → (t : List ℕ) × IsReplied strict look console.old line.now t console.new
        × IsWhole (sink_use O.taken O.failures out.old out.new) t) }
    ensures last { IfOk result (λ r. r ≡ Answered.Last
        → (t : List ℕ) × Answers look console.old line.now t true console.new
        × IsWhole (sink_use O.taken O.failures out.old out.new) t) }
    ensures stop { IfOk result (λ r. r ≡ Answered.Stop
        → (t : List ℕ) × IsStop strict look console.old line.now t console.new
        × IsWhole (sink_use O.taken O.failures out.old out.new) t) }
    ensures err { OnErr result ((t : List ℕ)
        × IsHeard strict look console.old line.now t console.new
        × IsBroken (sink_use O.taken O.failures out.old out.new) t) }
{
    let Ok(answer) = console.answer(look, line) else {
        write_piece(out, "OutOfMemory\n")?;
        return Ok(Answered::More);
    };
    write_piece(out, answer.text.as_str())?;
    if answer.quits {
        return Ok(Answered::Last);
    }
    if ends(strict, answer.refused) {
        return Ok(Answered::Stop);
    }
    Ok(Answered::More)
}

/// Answers lines until there is none, or one ends the talk; the number of the line, from 1, that wasn't carried out and ends a strict one. The
/// fault is that the sink failed, or that a line can't be read.
fn talk<I: Input, O: Sink>(
    alloc: Global,
    console: &mut Teller,
    strict: bool,
    look: Look,
    input: &mut I,
    out: &mut O,
) -> Result<Option<u64>, TalkFault>
    ensures whole { IfOk result (IsTalkedTo (input_use I.given I.ended input.old input.new)
        (sink_use O.taken O.failures out.old out.new) strict look console.old console.new) }
    ensures fault { IfErr result (IsTalkedUntil (input_use I.given I.ended input.old input.new)
        (sink_use O.taken O.failures out.old out.new) strict look console.old console.new) }
{
    for number in 0..u64::MAX {
        let line = match input.line(alloc) {
            Ok(Some(line)) => line,
            Ok(None) => return Ok(None),
            Err(fault) => return Err(TalkFault::Input(fault)),
        };
        match reply(console, strict, look, out, line.as_slice()) {
            Ok(Answered::More) => {}
            Ok(Answered::Last) => return Ok(None),
            Ok(Answered::Stop) => return Ok(Some(number + 1)),
            Err(SinkFault) => return Err(TalkFault::Sink),
        }
    }
    Err(TalkFault::Input(ReadFault::Unreadable(Unreadable::TooLong)))
}

/// Prints what stands behind all answers.
fn print_end<O: Sink, E: Sink>(console: &Teller, look: Look, out: &mut O, err: &mut E) -> u8
    ensures { IsEnd (io (sink_use O.taken O.failures out.old out.new)
        (sink_use E.taken E.failures err.old err.new) result) look console.now }
{
    match console.end(look) {
        Ok(text) => print_good(text.as_str(), out),
        Err(AllocError) => {
            tell_fault(err, "OutOfMemory");
            REFUSED
        }
    }
}

/// The line that tells which line ended a strict talk. The error is that memory ran out.
#[tactic(auto, unfolding(crate::specs::Talking::stop_line))]
fn stop_line(alloc: Global, number: u64) -> Result<String, AllocError>
    ensures { IfOk result (λ t. string_bytes t ≡ stop_line number) }
{
    let mut line = String::from_str(alloc, "debug: line ")?;
    put_decimal(&mut line, number)?;
    line.push_str(": not carried out, and --strict ends here\n")?;
    Ok(line)
}

/// Prints a text, where not all is good.
fn print_failed<O: Sink>(text: &str, out: &mut O) -> u8
    ensures { IsPrinted (sink_use O.taken O.failures out.old out.new) text.now 1 result }
{
    match write_piece(out, text) {
        Ok(()) => FAILED,
        Err(_) => REFUSED,
    }
}

/// Tells that the line of this number ended a strict talk, and prints what stands behind all answers.
fn print_stopped<O: Sink, E: Sink>(
    alloc: Global,
    number: u64,
    end: &str,
    out: &mut O,
    err: &mut E,
) -> u8
    ensures { IsStopTold (io (sink_use O.taken O.failures out.old out.new)
        (sink_use E.taken E.failures err.old err.new) result) number end.now }
{
    match stop_line(alloc, number) {
        Ok(line) => {
            tell_text(err, line.as_str());
            print_failed(end, out)
        }
        Err(AllocError) => {
            tell_fault(err, "OutOfMemory");
            REFUSED
        }
    }
}

/// The same with what stands behind these answers.
fn print_stop<O: Sink, E: Sink>(
    alloc: Global,
    console: &Teller,
    look: Look,
    number: u64,
    out: &mut O,
    err: &mut E,
) -> u8
    ensures { IsStopEnd (io (sink_use O.taken O.failures out.old out.new)
        (sink_use E.taken E.failures err.old err.new) result) look console.now number }
{
    match console.end(look) {
        Ok(text) => print_stopped(alloc, number, text.as_str(), out, err),
        Err(AllocError) => {
            tell_fault(err, "OutOfMemory");
            REFUSED
        }
    }
}

/// Shows whoever types where the execution stands, and which words lead on; nothing where memory runs out for it.
fn greet<I: Input>(console: &Teller, input: &mut I)
    ensures { I.given input.new ≡ I.given input.old }
{
    if let Ok(text) = console.greeting() {
        input.greet(text.as_str());
    }
}

/// Greets, answers lines until there is none, or one ends the talk, then prints what stands behind all answers.
pub(crate) fn converse<I: Input, O: Sink, E: Sink>(
    alloc: Global,
    console: Teller,
    strict: bool,
    look: Look,
    input: &mut I,
    out: &mut O,
    err: &mut E,
) -> u8
    ensures { IsConversed (input_use I.given I.ended input.old input.new)
        (io (sink_use O.taken O.failures out.old out.new)
        (sink_use E.taken E.failures err.old err.new) result) strict look console }
{
    greet(&console, input);
    converse_on(alloc, console, strict, look, input, out, err)
}

/// The same, without greeting.
fn converse_on<I: Input, O: Sink, E: Sink>(
    alloc: Global,
    console: Teller,
    strict: bool,
    look: Look,
    input: &mut I,
    out: &mut O,
    err: &mut E,
) -> u8
    ensures { IsConversed (input_use I.given I.ended input.old input.new)
        (io (sink_use O.taken O.failures out.old out.new)
        (sink_use E.taken E.failures err.old err.new) result) strict look console }
{
    let mut console = console;
    match talk(alloc, &mut console, strict, look, input, out) {
        Ok(None) => print_end(&console, look, out, err),
        Ok(Some(number)) => print_stop(alloc, &console, look, number, out, err),
        Err(TalkFault::Sink) => REFUSED,
        Err(TalkFault::Input(ReadFault::Unreadable(_))) => {
            tell_fault(err, "file standard input");
            REFUSED
        }
        Err(TalkFault::Input(ReadFault::OutOfMemory)) => {
            tell_fault(err, "OutOfMemory");
            REFUSED
        }
    }
}

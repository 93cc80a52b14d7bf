// Reading a call from left to right, with the open calls in a list.
ghost use Rattle.std.specs.Prelude.{◌≡◌, ◌<◌, ◌≤◌, ◌+◌, ◌*◌, ◌∷◌, ◌++◌, [], ℕ, List, suc, length, reverse, false, IfOk, IfErr, MatchResult, Result, Ok};
ghost use Rattle.asl_path.specs.private.Leads.{NotFirst};
ghost use Rattle.asl_intrinsic.specs.Tree.{Argument as Tree, call, arguments, Frame};
ghost use Rattle.asl_intrinsic.specs.private.Steps.{opening, ended, heard, run};
ghost use Rattle.asl_intrinsic.specs.private.Leads.{Fails, begun};
ghost use Rattle.asl_intrinsic.specs.Grammar.{is_space};
ghost use Rattle.asl_intrinsic.specs.private.Keeps.{KeepsOne, KeepsAll};
ghost use Rattle.asl_intrinsic.specs.private.Hears.{Hears, HearsTree, waits};
ghost use Rattle.asl_intrinsic.specs.declared.front.Halt.{Halt};

use crate::call::Argument;
use crate::frame::{Open, Wrong};
use crate::front::{Halt, after_byte, head, skip_spaces, stuck};
use crate::leaf::{begins_with, leaf};
use std::alloc::Global;

/// Where a reader stands.
#[derive(Drop)]
pub(crate) enum Place<'a> {
    /// Behind an opening bracket.
    Opening,
    /// Behind a comma.
    Wanting,
    /// Behind an argument.
    Ended(Result<Argument, Wrong<'a>>),
}

/// The open calls, the outermost first, where the reader stands, and what is left of the text.
#[derive(Drop)]
pub(crate) struct Reader<'a> {
    calls: Vec<Open<'a>>,
    place: Place<'a>,
    rest: &'a str,
}

/// Opens a call.
fn opened<'a>(
    alloc: Global,
    calls: Vec<Open<'a>>,
    name: &'a str,
    rest: &'a str,
) -> Result<Reader<'a>, Halt>
    ensures hears { (o : Result Tree ℕ) (st : List Frame) → KeepsAll (reverse calls.entry.items) st
        → o ≡ run opening ((name.now, []) ∷ st) rest.now → IfOk result (Hears o) }
    ensures memory { IfErr result (λ e. e ≡ Halt.Memory) }
    ensures rest { IfOk result (λ r. waits r ≤ 2 * length rest.now + 1) }
{
    let mut calls = calls;
    calls.push(Open::new(alloc, name))?;
    Ok(Reader {
        calls,
        place: Place::Opening,
        rest,
    })
}

/// Ends the innermost open call.
fn close<'a>(calls: Vec<Open<'a>>, rest: &'a str) -> Reader<'a>
    requires { 0 < length calls.items }
    ensures hears { (o : Result Tree ℕ) (f : Frame) (st : List Frame)
        → KeepsAll (reverse calls.entry.items) (f ∷ st)
        → o ≡ run (ended (call f.0 (arguments f.1))) st rest.now → Hears o result }
    ensures rest { waits result ≤ 2 * length rest.now }
{
    let mut calls = calls;
    let level = calls.len();
    let Some(innermost) = calls.pop() else {
        unreachable!()
    };
    let kept = innermost.closed(level);
    Reader {
        calls,
        place: Place::Ended(kept),
        rest,
    }
}

/// The open calls with an argument more of the innermost one.
fn added<'a>(calls: Vec<Open<'a>>, kept: Result<Argument, Wrong<'a>>) -> Result<Vec<Open<'a>>, Halt>
    requires { 0 < length calls.items }
    ensures keeps { (f : Frame) (st : List Frame) (a : Tree)
        → KeepsAll (reverse calls.entry.items) (f ∷ st)
        → KeepsOne (suc (suc (length st))) kept.entry a
        → IfOk result (λ cs. KeepsAll (reverse cs.items) ((f.0, f.1 ++ a ∷ []) ∷ st)) }
    ensures some { IfOk result (λ cs. 0 < length cs.items) }
    ensures memory { IfErr result (λ e. e ≡ Halt.Memory) }
{
    let mut calls = calls;
    let Some(innermost) = calls.pop() else {
        unreachable!()
    };
    let grown = innermost.with(kept)?;
    calls.push(grown)?;
    Ok(calls)
}

/// Reads an argument, or the head of one that is a call.
fn argument<'a>(alloc: Global, calls: Vec<Open<'a>>, rest: &'a str) -> Result<Reader<'a>, Halt>
    ensures hears { (o : Result Tree ℕ) (st : List Frame) → KeepsAll (reverse calls.entry.items) st
        → o ≡ begun st rest.now → MatchResult result (Hears o) (λ e. Fails e o) }
    ensures rest { IfOk result (λ r. waits r ≤ 2 * length rest.now) }
{
    if begins_with(rest, b'S') {
        let (name, inside) = head(rest)?;
        return opened(alloc, calls, name, inside);
    }
    let (kept, behind) = leaf(alloc, rest)?;
    Ok(Reader {
        calls,
        place: Place::Ended(Ok(kept)),
        rest: behind,
    })
}

/// Goes on behind an argument.
fn behind<'a>(
    calls: Vec<Open<'a>>,
    kept: Result<Argument, Wrong<'a>>,
    rest: &'a str,
) -> Result<Reader<'a>, Halt>
    requires { 0 < length calls.items }
    ensures hears { (o : Result Tree ℕ) (f : Frame) (st : List Frame) (a : Tree)
        → KeepsAll (reverse calls.entry.items) (f ∷ st)
        → KeepsOne (suc (suc (length st))) kept.entry a → NotFirst is_space rest.now
        → o ≡ run (ended a) (f ∷ st) rest.now → MatchResult result (Hears o) (λ e. Fails e o) }
    ensures rest { IfOk result (λ r. waits r < 2 * length rest.now) }
{
    let calls = added(calls, kept)?;
    if let Some(inside) = after_byte(rest, b',') {
        return Ok(Reader {
            calls,
            place: Place::Wanting,
            rest: inside,
        });
    }
    if let Some(outside) = after_byte(rest, b')') {
        return Ok(close(calls, outside));
    }
    Err(stuck(rest))
}

/// Reads on by an argument, the head of a call, a comma or a closing bracket.
fn turn(alloc: Global, reader: Reader) -> Result<Reader, Halt>
    requires { 0 < length reader.calls.items }
    ensures hears { (o : Result Tree ℕ) → Hears o reader.entry
        → MatchResult result (Hears o) (λ e. Fails e o) }
    ensures shorter { IfOk result (λ r. waits r < waits reader.entry) }
{
    let Reader { calls, place, rest } = reader;
    let rest = skip_spaces(rest);
    match place {
        Place::Opening => {
            if let Some(outside) = after_byte(rest, b')') {
                return Ok(close(calls, outside));
            }
            argument(alloc, calls, rest)
        }
        Place::Wanting => argument(alloc, calls, rest),
        Place::Ended(kept) => behind(calls, kept, rest),
    }
}

/// The call that a text spells, or what is wrong first with its calls.
pub(crate) fn spelled(alloc: Global, text: &str) -> Result<Result<Argument, Wrong>, Halt>
    ensures { MatchResult result (HearsTree (heard text.now)) (λ e. Fails e (heard text.now)) }
{
    let (name, inside) = head(text)?;
    let mut reader = opened(alloc, Vec::new(alloc), name, inside)?;
    while reader.calls.len() > 0 {
        reader = turn(alloc, reader)?;
    }
    let Reader { place, rest, .. } = reader;
    let Place::Ended(kept) = place else {
        unreachable!()
    };
    if rest.len() > 0 {
        return Err(stuck(rest));
    }
    Ok(kept)
}

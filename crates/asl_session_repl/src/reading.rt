// What a line asks for, and what is told of a line that asks for nothing.
ghost use Rattle.std.specs.Prelude.{IsUtf8, ◌≡◌, ◌∷◌, ◌++◌, List, ℕ, Option, Some, None, IfOk, IfSome, OnOk, option_map, string_bytes};
ghost use Rattle.asl_session.specs.Scripts.{IsPlaceText};
ghost use Rattle.asl_session_repl.specs.declared.request.Request.{Request};
ghost use Rattle.asl_session_repl.specs.declared.timed.Timed.{Timed};
ghost use Rattle.asl_session_repl.specs.declared.timed.When.{When};
ghost use Rattle.asl_session_repl.specs.Moments.{IsWhen, IsStepText, AreSteps};
ghost use Rattle.asl_session_repl.specs.Requests.{IsSpaced, count_or, IsTold, IsStateNamed, IsNaming, plain_name, alone, IsAsked, IsRequest, complaint_on, complaint};

use crate::naming::Naming;
use crate::request::Request;
use crate::timed::{Timed, When, read_moment, read_step_text, read_steps};
use crate::word::Word;
use asl_history::Place;
use asl_json_shared::Name;
use asl_session::{read_command, read_count, read_place};
use std::alloc::{AllocError, Global};
use std::str;

/// So many events are shown where no number is given.
const FEW: u32 = 10;

/// What stands behind a space.
fn behind_space(text: &[u8]) -> Option<&[u8]>
    ensures found { IfSome result (λ r. text.now ≡ 32 ∷ r.now) }
    ensures none { result ≡ None → (rest : List ℕ) → text.now ≡ 32 ∷ rest → ⊥ }
{
    match text.split_first() {
        Some((first, rest)) if *first == b' ' => Some(rest),
        _ => None,
    }
}

/// The number behind a space; this one, where nothing stands there.
fn read_count_or(otherwise: u32, text: &[u8]) -> Option<u32>
    ensures { result ≡ count_or otherwise text.now }
{
    match text.split_first() {
        None => Some(otherwise),
        Some((first, rest)) if *first == b' ' => read_count(rest),
        Some(_) => None,
    }
}

/// The moment that is named behind a space.
fn read_spaced_moment(text: &[u8]) -> Option<When>
    ensures found { IfSome result (λ w. IsSpaced (λ s. IsWhen s w) text.now) }
    ensures only { (w : When) → IsSpaced (λ s. IsWhen s w) text.now → result ≡ Some w }
{
    let Some(text) = behind_space(text) else {
        return None;
    };
    read_moment(text)
}

/// The place that stands behind a space. The error is that memory ran out.
fn read_spaced_place(alloc: Global, text: &[u8]) -> Result<Option<Place>, AllocError>
    ensures found { IfOk result (λ o. IfSome o
        (λ p. IsSpaced (λ s. IsPlaceText s p) text.now)) }
    ensures only { IfOk result (λ o. (p : List ℕ)
        → IsSpaced (λ s. IsPlaceText s p) text.now → o ≡ Some p) }
{
    let Some(text) = behind_space(text) else {
        return Ok(None);
    };
    read_place(alloc, text)
}

/// The step that is named behind a space. The error is that memory ran out.
fn read_spaced_step(alloc: Global, text: &[u8]) -> Result<Option<(Place, Option<When>)>, AllocError>
    ensures found { IfOk result (λ o. IfSome o
        (λ x. IsSpaced (λ s. IsStepText s x.0 x.1) text.now)) }
    ensures only { IfOk result (λ o. (p : List ℕ) (w : Option When)
        → IsSpaced (λ s. IsStepText s p w) text.now → o ≡ Some (p, w)) }
{
    let Some(text) = behind_space(text) else {
        return Ok(None);
    };
    read_step_text(alloc, text)
}

/// The two steps that are named behind a space. The error is that memory ran out.
fn read_spaced_steps(alloc: Global, text: &[u8]) -> Result<Option<(Timed, Timed)>, AllocError>
    ensures found { IfOk result (λ o. IfSome o
        (λ x. IsSpaced (λ s. AreSteps s x.0 x.1) text.now)) }
    ensures only { IfOk result (λ o. (a b : Timed)
        → IsSpaced (λ s. AreSteps s a b) text.now → o ≡ Some (a, b)) }
{
    let Some(text) = behind_space(text) else {
        return Ok(None);
    };
    read_steps(alloc, text)
}

/// A request that has nothing behind its word.
fn alone(text: &[u8], request: Request) -> Option<Request>
    ensures { result ≡ alone text.now request }
{
    if text.is_empty() { Some(request) } else { None }
}

/// The command of a script that a line is. The error is that memory ran out.
fn read_told(alloc: Global, line: &[u8]) -> Result<Option<Request>, AllocError>
    ensures found { IfOk result (λ o. IfSome o (IsTold line.now)) }
    ensures only { IfOk result (λ o. (r : Request) → IsTold line.now r → o ≡ Some r) }
{
    match read_command(alloc, line)? {
        Some(command) => Ok(Some(Request::Told(command))),
        None => Ok(None),
    }
}

/// The name behind a space, where it stands as it is: it begins with neither a quotation mark nor a space.
fn plain_name(text: &[u8]) -> Option<&[u8]>
    ensures { option_map (λ n. n.now) result ≡ plain_name text.now }
{
    let (first, name) = text.split_first()?;
    let (second, _others) = name.split_first()?;
    if *first == b' ' && *second != b'"' && *second != b' ' {
        Some(name)
    } else {
        None
    }
}

/// The name that these bytes are; none where they are no UTF-8. The error is that memory ran out.
fn name_of(alloc: Global, bytes: &[u8]) -> Result<Option<Name>, AllocError>
    ensures found { IfOk result (λ o. IfSome o (λ n. (n ≡ bytes.now) × IsUtf8 bytes.now)) }
    ensures only { IfOk result (λ o. IsUtf8 bytes.now → o ≡ Some bytes.now) }
{
    match str::from_utf8(bytes) {
        Ok(name) => Ok(Some(Name::new(alloc, name)?)),
        Err(_) => Ok(None),
    }
}

/// What a line asks for that names a state. The error is that memory ran out.
fn read_named(
    alloc: Global,
    naming: Naming,
    line: &[u8],
    text: &[u8],
) -> Result<Option<Request>, AllocError>
    ensures found { IfOk result (λ o. IfSome o (IsStateNamed naming line.now (plain_name text.now))) }
    ensures only { IfOk result (λ o. (r : Request)
        → IsStateNamed naming line.now (plain_name text.now) r → o ≡ Some r) }
{
    let Some(name) = plain_name(text) else {
        return read_told(alloc, line);
    };
    match name_of(alloc, name)? {
        Some(name) => Ok(Some(Request::Told(naming.of(name)))),
        None => Ok(None),
    }
}

/// The same, or what `on error` asks for.
fn read_naming(
    alloc: Global,
    naming: Naming,
    line: &[u8],
    text: &[u8],
) -> Result<Option<Request>, AllocError>
    ensures found { IfOk result (λ o. IfSome o (IsNaming naming line.now text.now)) }
    ensures only { IfOk result (λ o. (r : Request)
        → IsNaming naming line.now text.now r → o ≡ Some r) }
{
    if text == " on error".as_bytes() {
        return Ok(Some(naming.halt()));
    }
    read_named(alloc, naming, line, text)
}

/// What a line asks for that begins with a word, behind which this text stands. The error is that memory ran out.
fn read_asked(
    alloc: Global,
    word: Word,
    line: &[u8],
    text: &[u8],
) -> Result<Option<Request>, AllocError>
    ensures found { IfOk result (λ o. IfSome o (IsAsked word line.now text.now)) }
    ensures only { IfOk result (λ o. (r : Request)
        → IsAsked word line.now text.now r → o ≡ Some r) }
{
    match word {
        Word::Step => match read_spaced_step(alloc, text)? {
            Some((place, when)) => Ok(Some(Request::Step(place, when))),
            None => Ok(None),
        },
        Word::Break => read_naming(alloc, Naming::Break, line, text),
        Word::Clear => read_naming(alloc, Naming::Clear, line, text),
        Word::Resume | Word::Show | Word::Back => read_told(alloc, line),
        Word::Next => match read_count_or(1, text) {
            Some(count) => Ok(Some(Request::Next(count))),
            None => Ok(None),
        },
        Word::Continue => Ok(alone(text, Request::Continue)),
        Word::Until => match read_spaced_moment(text) {
            Some(when) => Ok(Some(Request::Until(when))),
            None => Ok(None),
        },
        Word::Places => Ok(alone(text, Request::Places)),
        Word::Data => match read_spaced_place(alloc, text)? {
            Some(place) => Ok(Some(Request::Data(place))),
            None => Ok(None),
        },
        Word::Events => match read_count_or(FEW, text) {
            Some(count) => Ok(Some(Request::Events(count))),
            None => Ok(None),
        },
        Word::Steps => Ok(alone(text, Request::Steps)),
        Word::Swap => match read_spaced_steps(alloc, text)? {
            Some((one, other)) => Ok(Some(Request::Swap(one, other))),
            None => Ok(None),
        },
        Word::Help => Ok(alone(text, Request::Help)),
        Word::Quit => Ok(alone(text, Request::Quit)),
    }
}

/// What a line asks for; none where it asks for nothing. The error is that memory ran out.
pub(crate) fn read_request(alloc: Global, line: &[u8]) -> Result<Option<Request>, AllocError>
    ensures found { IfOk result (λ o. IfSome o (IsRequest line.now)) }
    ensures only { IfOk result (λ o. (r : Request) → IsRequest line.now r → o ≡ Some r) }
{
    let Some(word) = Word::beginning(line) else {
        return Ok(None);
    };
    read_asked(alloc, word, line, &line[word.name().len()..])
}

/// Appends two texts. The error is that memory ran out.
fn put_two(out: &mut String, one: &str, other: &str) -> Result<(), AllocError>
    ensures { OnOk result (string_bytes out.new
        ≡ string_bytes out.old ++ (one.now ++ other.now)) }
{
    out.push_str(one)?;
    out.push_str(other)
}

/// Appends how a line is written that begins with this word, or which words there are. The error is that memory ran out.
fn put_complaint_on(out: &mut String, word: Option<Word>) -> Result<(), AllocError>
    ensures { OnOk result (string_bytes out.new ≡ string_bytes out.old ++ complaint_on word) }
{
    match word {
        None => put_two(
            out,
            "no such command; there are next, continue, until, steps, step, break, clear, ",
            "resume, back, places, show, data, events, swap, help, quit",
        ),
        Some(word) => put_two(out, "write it as: ", word.usage()),
    }
}

/// Appends what is told of a line that asks for nothing. The error is that memory ran out.
pub(crate) fn put_complaint(out: &mut String, line: &[u8]) -> Result<(), AllocError>
    ensures { OnOk result (string_bytes out.new ≡ string_bytes out.old ++ complaint line.now) }
{
    put_complaint_on(out, Word::beginning(line))?;
    out.push('\n')
}

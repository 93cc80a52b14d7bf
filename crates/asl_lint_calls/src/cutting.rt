// A call cut into its function and its arguments.
ghost use Rattle.std.specs.Prelude.{◌≡◌, ◌<◌, [], IfOk, option_map};
ghost use Rattle.asl_intrinsic_functions.specs.declared.function.Function.{Function};
ghost use Rattle.asl_lint_calls.specs.Cutting.{after_first, before_last, without_front, without_end, trimmed, at_bracket, behind_word, head, next_plain, next_quoted, next, is_blank, pieces, arguments_in};
ghost use Rattle.asl_lint_calls.specs.private.Views.{texts};

use asl_intrinsic_functions::Function;
use std::alloc::{AllocError, Global};

/// How many brackets may stand open in an argument: ten calls may stand in one another.
const MAX_OPEN: usize = 10;

/// Where a byte of the arguments stands: behind so many brackets that are open, and there in a text between these quotes,
/// and in it behind a backslash.
#[derive(Clone, Copy)]
pub(crate) enum Mode {
    Plain(usize),
    Quoted(usize, u8),
    Escaped(usize, u8),
}

/// What a byte does.
#[derive(Clone, Copy)]
pub(crate) enum Move {
    /// It belongs to an argument.
    On(Mode),
    /// It stands between two arguments.
    Cut,
    /// It closes the call.
    Close,
    /// More calls would stand in one another than may.
    Stop,
}

/// What follows this byte, where it stands first.
pub(crate) fn after_first(text: &str, byte: u8) -> Option<&str>
    requires { byte < 128 }
    ensures { option_map (λ t. t.now) result ≡ after_first byte text.now }
{
    let bytes = text.as_bytes();
    if bytes.len() > 0 && bytes[0] == byte {
        return Some(&text[1..]);
    }
    None
}

/// What stands before this byte, where it stands last.
pub(crate) fn before_last(text: &str, byte: u8) -> Option<&str>
    requires { byte < 128 }
    ensures { option_map (λ t. t.now) result ≡ before_last byte text.now }
{
    let bytes = text.as_bytes();
    if bytes.len() > 0 && bytes[bytes.len() - 1] == byte {
        return Some(&text[..bytes.len() - 1]);
    }
    None
}

fn without_front(text: &str) -> &str
    ensures { result.now ≡ without_front text.now }
{
    let mut rest = text;
    while let Some(behind) = after_first(rest, b' ') {
        rest = behind;
    }
    rest
}

pub(crate) fn without_end(text: &str) -> &str
    ensures { result.now ≡ without_end text.now }
{
    let mut rest = text;
    while let Some(before) = before_last(rest, b' ') {
        rest = before;
    }
    rest
}

/// A text without the spaces round it.
pub(crate) fn trimmed(text: &str) -> &str
    ensures { result.now ≡ trimmed text.now }
{
    without_end(without_front(text))
}

/// What stands before the first opening bracket, and what behind it.
fn at_bracket(text: &str) -> Option<(&str, &str)>
    ensures { option_map (λ x. (x.0.now, x.1.now)) result ≡ at_bracket text.now }
{
    let bytes = text.as_bytes();
    for i in 0..bytes.len() {
        if bytes[i] == b'(' {
            return Some((&text[..i], &text[i + 1..]));
        }
    }
    None
}

/// What follows `States.`, where a text begins so.
fn behind_word(text: &str) -> Option<&str>
    ensures { option_map (λ t. t.now) result ≡ behind_word text.now }
{
    if text.as_bytes().starts_with("States.".as_bytes()) {
        return Some(&text[7..]);
    }
    None
}

/// The function of a call, and what follows its opening bracket.
pub(crate) fn head(text: &str) -> Option<(Function, &str)>
    ensures { option_map (λ x. (x.0, x.1.now)) result ≡ head text.now }
{
    let (name, inside) = at_bracket(behind_word(text)?)?;
    let function = Function::named(without_end(name))?;
    Some((function, inside))
}

/// What a byte does outside of texts.
fn next_plain(brackets: usize, byte: u8) -> Move
    ensures { result ≡ next_plain brackets byte }
{
    if byte == b'\'' || byte == b'"' {
        Move::On(Mode::Quoted(brackets, byte))
    } else if byte == b'(' {
        if brackets < MAX_OPEN {
            Move::On(Mode::Plain(brackets + 1))
        } else {
            Move::Stop
        }
    } else if byte == b')' {
        if brackets == 0 {
            Move::Close
        } else {
            Move::On(Mode::Plain(brackets - 1))
        }
    } else if byte == b',' && brackets == 0 {
        Move::Cut
    } else {
        Move::On(Mode::Plain(brackets))
    }
}

/// What a byte does in a text.
fn next_quoted(brackets: usize, quote: u8, byte: u8) -> Mode
    ensures { result ≡ next_quoted brackets quote byte }
{
    if byte == quote {
        Mode::Plain(brackets)
    } else if byte == b'\\' {
        Mode::Escaped(brackets, quote)
    } else {
        Mode::Quoted(brackets, quote)
    }
}

fn next(mode: Mode, byte: u8) -> Move
    ensures { result ≡ next mode byte }
{
    match mode {
        Mode::Plain(brackets) => next_plain(brackets, byte),
        Mode::Quoted(brackets, quote) => Move::On(next_quoted(brackets, quote, byte)),
        Mode::Escaped(brackets, quote) => Move::On(Mode::Quoted(brackets, quote)),
    }
}

/// What stands between the commas of a call, behind its opening bracket, where its closing one ends the text.
fn between_commas<'a>(alloc: Global, text: &'a str) -> Result<Option<Vec<&'a str>>, AllocError>
    ensures { IfOk result (λ o. option_map (λ v. texts v.items) o ≡ pieces (Mode.Plain 0) [] text.now) }
{
    let bytes = text.as_bytes();
    let mut found = Vec::new(alloc);
    let mut start = 0;
    let mut mode = Mode::Plain(0);
    for i in 0..bytes.len() {
        match next(mode, bytes[i]) {
            Move::On(further) => mode = further,
            Move::Cut => {
                found.push(&text[start..i])?;
                start = i + 1;
                mode = Mode::Plain(0);
            }
            Move::Close => {
                if i + 1 < bytes.len() {
                    return Ok(None);
                }
                found.push(&text[start..i])?;
                return Ok(Some(found));
            }
            Move::Stop => return Ok(None),
        }
    }
    Ok(None)
}

/// Whether this is what stands between the brackets of a call without arguments.
fn is_blank(pieces: &[&str]) -> bool
    ensures { result ≡ is_blank (texts pieces.now) }
{
    match pieces {
        [only] => trimmed(only).len() == 0,
        _ => false,
    }
}

/// The arguments of a call as they are written, behind its opening bracket, with the spaces round them.
pub(crate) fn arguments<'a>(
    alloc: Global,
    text: &'a str,
) -> Result<Option<Vec<&'a str>>, AllocError>
    ensures { IfOk result (λ o. option_map (λ v. texts v.items) o ≡ arguments_in text.now) }
{
    let Some(pieces) = between_commas(alloc, text)? else {
        return Ok(None);
    };
    if is_blank(&pieces) {
        return Ok(Some(Vec::new(alloc)));
    }
    Ok(Some(pieces))
}

// Reading an argument that is no call.
ghost use Rattle.std.specs.Prelude.{◌≡◌, ◌<◌, ◌≤◌, ◌∷◌, [], List, Bool, true, false, length, take, drop, slice_index, slice_get, nat_eq, IfOk, IfErr, Some, None, Ok, ℕ};
ghost use Rattle.asl_json_data.specs.Data.{null, boolean};
ghost use Rattle.asl_json_data.specs.Grammar.{null_word};
ghost use Rattle.asl_path.specs.Grammar.{Each};
ghost use Rattle.asl_intrinsic.specs.private.Steps.{chars, word, figure, along, ended, run};
ghost use Rattle.asl_intrinsic.specs.Tree.{Frame};
ghost use Rattle.asl_intrinsic.specs.Grammar.{is_escaped as escaped};
ghost use Rattle.asl_intrinsic.specs.private.View.{tree_of};
ghost use Rattle.asl_intrinsic.specs.Faults.{first_fault};
ghost use Rattle.asl_intrinsic.specs.private.Leads.{Leads, Fails, IsQuotedLen, IsPathLen, is_behind as behind_argument, is_stray as stray, is_ascii, begun, first_is};
ghost use Rattle.asl_intrinsic.specs.declared.front.Halt.{Halt};

use crate::call::Argument;
use crate::front::{Halt, after_byte, after_word, stuck};
use asl_json::{Dec, Json, Txt};
use asl_json_scan::number_front;
use asl_path::{PathFault, RefPath};
use std::alloc::Global;

/// Whether this byte may stand behind a backslash.
#[tactic(auto, unfolding(crate::specs::Grammar::is_escaped))]
fn is_escaped(byte: u8) -> bool
    ensures { result ≡ escaped byte }
{
    byte == b'\'' || byte == b'\\' || byte == b'{' || byte == b'}'
}

/// How many bytes stand before the apostrophe that closes a text.
fn quoted_len(bytes: &[u8]) -> Result<usize, Halt>
    ensures found { IfOk result (IsQuotedLen bytes.now) }
    ensures broken { IfErr result (λ e. (st : List Frame) → Fails e (run (chars []) st bytes.now)) }
{
    let mut end = 0;
    while end < bytes.len() {
        let byte = bytes[end];
        if byte == b'\'' {
            return Ok(end);
        }
        end += 1;
        if byte != b'\\' {
            continue;
        }
        if end == bytes.len() {
            return Err(Halt::At(0));
        }
        if !is_escaped(bytes[end]) {
            return Err(Halt::At(bytes.len() - end));
        }
        end += 1;
    }
    Err(Halt::At(0))
}

/// A text behind its opening apostrophe, and what follows the closing one.
fn quoted(alloc: Global, text: &str) -> Result<(Argument, &str), Halt>
    ensures run { (st : List Frame)
        → Leads (λ x. run (ended (tree_of x.0)) st x.1.now) result (run (chars []) st text.now) }
    ensures within { IfOk result (λ x. length x.1.now ≤ length text.now) }
    ensures sound { IfOk result (λ x. (level : ℕ) → first_fault level (tree_of x.0) ≡ None) }
{
    let end = quoted_len(text.as_bytes())?;
    let (inside, rest) = text.split_at(end);
    let spelled = Txt::of(alloc, inside)?;
    Ok((Argument::Quoted(spelled), &rest[1..]))
}

/// The longest number in front, and what follows it.
fn number(alloc: Global, text: &str) -> Result<(Argument, &str), Halt>
    ensures run { (st : List Frame)
        → Leads (λ x. run (ended (tree_of x.0)) st x.1.now) result (run (figure []) st text.now) }
    ensures within { IfOk result (λ x. length x.1.now ≤ length text.now) }
    ensures sound { IfOk result (λ x. (level : ℕ) → first_fault level (tree_of x.0) ≡ None) }
{
    let (end, whole) = number_front(text.as_bytes());
    if !whole {
        return Err(Halt::At(text.len() - end));
    }
    let (spelled, rest) = text.split_at(end);
    let Some(number) = Dec::of_numeral(alloc, spelled)? else {
        return Err(stuck(text));
    };
    Ok((Argument::Constant(Json::Num(number)), rest))
}

/// How many bytes in front a path may begin with.
fn path_len(alloc: Global, text: &str) -> Result<usize, Halt>
    ensures found { IfOk result (IsPathLen text.now) }
    ensures memory { IfErr result (λ e. e ≡ Halt.Memory) }
{
    let Err(fault) = RefPath::read(alloc, text) else {
        return Ok(text.len());
    };
    match fault {
        PathFault::PathProfile(end) => Ok(end),
        PathFault::OutOfMemory => Err(Halt::Memory),
    }
}

/// Whether this byte may follow an argument.
fn is_behind(byte: u8) -> bool
    ensures { result ≡ behind_argument byte }
{
    byte == b' ' || byte == b',' || byte == b')'
}

/// Whether the byte of this number is there and may follow no argument.
fn is_stray(text: &str, at: usize) -> bool
    ensures { result ≡ stray text.now at }
{
    let bytes = text.as_bytes();
    at < bytes.len() && !is_behind(bytes[at])
}

/// The longest path in front, and what follows it.
fn path(alloc: Global, text: &str) -> Result<(Argument, &str), Halt>
    ensures run { (st : List Frame)
        → Leads (λ x. run (ended (tree_of x.0)) st x.1.now) result (run (along []) st text.now) }
    ensures within { IfOk result (λ x. length x.1.now ≤ length text.now) }
    ensures sound { IfOk result (λ x. (level : ℕ) → first_fault level (tree_of x.0) ≡ None) }
{
    let end = path_len(alloc, text)?;
    if is_stray(text, end) {
        return Err(Halt::At(text.len() - end));
    }
    let (spelled, rest) = text.split_at(end);
    match RefPath::read(alloc, spelled) {
        Ok(path) => Ok((Argument::Path(path), rest)),
        Err(PathFault::PathProfile(_)) => Err(stuck(rest)),
        Err(PathFault::OutOfMemory) => Err(Halt::Memory),
    }
}

/// `null`, and what follows it.
fn null(text: &str) -> Result<(Argument, &str), Halt>
    ensures run { (st : List Frame)
        → Leads (λ x. run (ended (tree_of x.0)) st x.1.now) result
        (run (word null_word null) st text.now) }
    ensures within { IfOk result (λ x. length x.1.now ≤ length text.now) }
    ensures sound { IfOk result (λ x. (level : ℕ) → first_fault level (tree_of x.0) ≡ None) }
{
    let rest = after_word(text, b"null")?;
    Ok((Argument::Constant(Json::Null), rest))
}

/// A truth value of these letters, and what follows it.
fn truth<'a>(text: &'a str, letters: &[u8], value: bool) -> Result<(Argument, &'a str), Halt>
    requires some { 0 < length letters.now }
    requires ascii { Each is_ascii letters.now }
    ensures run { (st : List Frame)
        → Leads (λ x. run (ended (tree_of x.0)) st x.1.now) result
        (run (word letters.now (boolean value)) st text.now) }
    ensures within { IfOk result (λ x. length x.1.now ≤ length text.now) }
    ensures sound { IfOk result (λ x. (level : ℕ) → first_fault level (tree_of x.0) ≡ None) }
{
    let rest = after_word(text, letters)?;
    Ok((Argument::Constant(Json::Bool(value)), rest))
}

/// Whether this byte stands first.
pub(crate) fn begins_with(text: &str, byte: u8) -> bool
    ensures { result ≡ first_is byte text.now }
{
    let bytes = text.as_bytes();
    bytes.len() > 0 && bytes[0] == byte
}

/// An argument that is no call, and what follows it.
pub(crate) fn leaf(alloc: Global, text: &str) -> Result<(Argument, &str), Halt>
    requires { first_is 83 text.now ≡ false }
    ensures run { (st : List Frame)
        → Leads (λ x. run (ended (tree_of x.0)) st x.1.now) result (begun st text.now) }
    ensures within { IfOk result (λ x. length x.1.now ≤ length text.now) }
    ensures sound { IfOk result (λ x. (level : ℕ) → first_fault level (tree_of x.0) ≡ None) }
{
    if let Some(inside) = after_byte(text, b'\'') {
        return quoted(alloc, inside);
    }
    if begins_with(text, b'$') {
        return path(alloc, text);
    }
    if begins_with(text, b'n') {
        return null(text);
    }
    if begins_with(text, b't') {
        return truth(text, b"true", true);
    }
    if begins_with(text, b'f') {
        return truth(text, b"false", false);
    }
    number(alloc, text)
}

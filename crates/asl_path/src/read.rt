// Reading the steps of a path from left to right.
ghost use Rattle.std.specs.Prelude.{◌≡◌, ◌<◌, ◌≤◌, ◌+◌, ◌^◌, ◌∷◌, ◌++◌, [], ℕ, List, true, false, length, take, slice_index, nat_eq, IfOk, IfErr, IfSome, IfNone, Ok};
ghost use Rattle.std.specs.Str.{IsUtf8};
ghost use Rattle.asl_path.specs.Grammar.{is_name_byte as name_byte, is_digit, is_between as between_quotes};
ghost use Rattle.asl_path.specs.private.Steps.{digits, run, between, dot, bracket, quoted as mode_quoted, steps};
ghost use Rattle.asl_path.specs.Grammar.{Each};
ghost use Rattle.asl_path.specs.private.Leads.{Leads, NotFirst};
ghost use Rattle.asl_path.specs.declared.step.Step.{Step};

use crate::step::{Root, Step};
use asl_json::Txt;
use std::alloc::{AllocError, AllocFailed, Global};

/// Why reading ends early.
#[derive(Drop)]
pub(crate) enum Halt {
    /// A byte can't go on, with so many left from it on.
    At(usize),
    Memory,
}

impl From<AllocError> for Halt {
    ghost use Rattle.std.specs.Prelude.{◌≡◌};
    ghost use Rattle.asl_path.specs.declared.read.Halt.TheVariants.{Memory};

    ghost from_gives = { λ _ s. s ≡ Memory };

    fn from(_error: AllocError) -> Halt {
        Halt::Memory
    }
}

impl From<AllocFailed<Step>> for Halt {
    ghost use Rattle.std.specs.Prelude.{◌≡◌};
    ghost use Rattle.asl_path.specs.declared.read.Halt.TheVariants.{Memory};

    ghost from_gives = { λ _ s. s ≡ Memory };

    fn from(_error: AllocFailed<Step>) -> Halt {
        Halt::Memory
    }
}

#[tactic(auto, unfolding(crate::specs::Grammar::is_name_byte, crate::specs::Grammar::is_digit))]
fn is_name_byte(byte: u8) -> bool
    ensures { result ≡ name_byte byte }
{
    byte >= 128
        || byte >= b'a' && byte <= b'z'
        || byte >= b'A' && byte <= b'Z'
        || byte >= b'0' && byte <= b'9'
        || byte == b'_'
        || byte == b'-'
}

#[tactic(auto, unfolding(crate::specs::Grammar::is_between))]
fn is_between(quote: u8, byte: u8) -> bool
    ensures { result ≡ between_quotes quote byte }
{
    byte != quote && byte != b'\\'
}

/// How many bytes of a name stand first.
fn name_len(bytes: &[u8]) -> usize
    ensures each { Each name_byte (take result bytes.now) }
    ensures within { result ≤ length bytes.now }
    ensures ends { result < length bytes.now → name_byte (slice_index bytes.now result) ≡ false }
{
    let mut end = 0;
    while end < bytes.len() {
        if !is_name_byte(bytes[end]) {
            return end;
        }
        end += 1;
    }
    end
}

/// How many bytes stand before the quote or a backslash.
fn quoted_len(bytes: &[u8], quote: u8) -> usize
    ensures each { Each (between_quotes quote) (take result bytes.now) }
    ensures within { result ≤ length bytes.now }
    ensures ends { result < length bytes.now
        → between_quotes quote (slice_index bytes.now result) ≡ false }
{
    let mut end = 0;
    while end < bytes.len() {
        if !is_between(quote, bytes[end]) {
            return end;
        }
        end += 1;
    }
    end
}

/// That the first of these bytes can't go on.
fn stuck(rest: &[u8]) -> Halt
    ensures { result ≡ Halt.At (length rest.now) }
{
    Halt::At(rest.len())
}

/// A text of these bytes.
fn txt(alloc: Global, bytes: &[u8]) -> Result<Txt, Halt>
    requires { IsUtf8 bytes.now }
    ensures found { IfOk result (λ t. t ≡ bytes.now) }
    ensures memory { IfErr result (λ e. e ≡ Halt.Memory) }
{
    match String::from_utf8(bytes.to_vec(alloc)?) {
        Ok(string) => Ok(Txt::new(string)),
        Err(_) => unreachable!(),
    }
}

/// A name behind its dot, and what follows it.
fn dotted(alloc: Global, bytes: &[u8]) -> Result<(Step, &[u8]), Halt>
    requires { IsUtf8 bytes.now }
    ensures run { (done : List Step)
        → Leads (λ x. run between (done ++ x.0 ∷ []) x.1.now) result (run dot done bytes.now) }
    ensures utf8 { IfOk result (λ x. IsUtf8 x.1.now) }
    ensures within { IfOk result (λ x. length x.1.now ≤ length bytes.now) }
{
    let end = name_len(bytes);
    if end == 0 {
        return Err(stuck(bytes));
    }
    let name = txt(alloc, &bytes[..end])?;
    Ok((Step::Name(name), &bytes[end..]))
}

/// What follows this byte, where it stands first.
fn after_byte(bytes: &[u8], byte: u8) -> Option<&[u8]>
    requires { byte < 128 }
    ensures found { IfSome result (λ rest. bytes.now ≡ byte ∷ rest.now) }
    ensures none { IfNone result (NotFirst (λ c. nat_eq c byte) bytes.now) }
    ensures utf8 { IfSome result (λ rest. IsUtf8 bytes.now → IsUtf8 rest.now) }
{
    if bytes.len() > 0 && bytes[0] == byte {
        return Some(&bytes[1..]);
    }
    None
}

/// A text behind its opening quote, and what follows the bracket.
fn quoted(alloc: Global, bytes: &[u8], quote: u8) -> Result<(Step, &[u8]), Halt>
    requires utf8 { IsUtf8 bytes.now }
    requires ascii { quote < 128 }
    ensures run { (done : List Step)
        → Leads (λ x. run between (done ++ x.0 ∷ []) x.1.now) result
        (run (mode_quoted quote []) done bytes.now) }
    ensures utf8 { IfOk result (λ x. IsUtf8 x.1.now) }
    ensures within { IfOk result (λ x. length x.1.now ≤ length bytes.now) }
{
    let end = quoted_len(bytes, quote);
    let name = txt(alloc, &bytes[..end])?;
    let rest = &bytes[end..];
    let Some(behind) = after_byte(rest, quote) else {
        return Err(stuck(rest));
    };
    let Some(next) = after_byte(behind, b']') else {
        return Err(stuck(behind));
    };
    Ok((Step::Name(name), next))
}

#[tactic(auto, unfolding(crate::specs::Grammar::is_digit))]
fn is_digit(byte: u8) -> bool
    ensures { result ≡ is_digit byte }
{
    byte >= b'0' && byte <= b'9'
}

/// What a digit that stands first means, and what follows it.
fn first_digit(bytes: &[u8]) -> Option<(usize, &[u8])>
    ensures found { IfSome result (λ x. bytes.now ≡ (48 + x.0) ∷ x.1.now) }
    ensures small { IfSome result (λ x. x.0 < 10) }
    ensures none { IfNone result (NotFirst is_digit bytes.now) }
    ensures utf8 { IfSome result (λ x. IsUtf8 bytes.now → IsUtf8 x.1.now) }
{
    if bytes.len() == 0 {
        return None;
    }
    let first = bytes[0];
    if !is_digit(first) {
        return None;
    }
    Some((usize::from(first - b'0'), &bytes[1..]))
}

/// An index of which so many digits were read, and what follows its bracket.
fn index(bytes: &[u8], count: u32, value: usize) -> Result<(Step, &[u8]), Halt>
    requires utf8 { IsUtf8 bytes.now }
    requires few { count ≤ 9 }
    requires small { value < 10 ^ count }
    ensures run { (done : List Step)
        → Leads (λ x. run between (done ++ x.0 ∷ []) x.1.now) result
        (run (digits count value) done bytes.now) }
    ensures utf8 { IfOk result (λ x. IsUtf8 x.1.now) }
    ensures within { IfOk result (λ x. length x.1.now ≤ length bytes.now) }
{
    if let Some(next) = after_byte(bytes, b']') {
        return Ok((Step::Index(value), next));
    }
    if count == 9 {
        return Err(stuck(bytes));
    }
    let Some((digit, behind)) = first_digit(bytes) else {
        return Err(stuck(bytes));
    };
    index(behind, count + 1, value * 10 + digit)
}

/// A name or an index behind its bracket, and what follows it.
fn bracketed(alloc: Global, bytes: &[u8]) -> Result<(Step, &[u8]), Halt>
    requires { IsUtf8 bytes.now }
    ensures run { (done : List Step)
        → Leads (λ x. run between (done ++ x.0 ∷ []) x.1.now) result (run bracket done bytes.now) }
    ensures utf8 { IfOk result (λ x. IsUtf8 x.1.now) }
    ensures within { IfOk result (λ x. length x.1.now ≤ length bytes.now) }
{
    if let Some(behind) = after_byte(bytes, b'\'') {
        return quoted(alloc, behind, b'\'');
    }
    if let Some(behind) = after_byte(bytes, b'"') {
        return quoted(alloc, behind, b'"');
    }
    let Some((digit, behind)) = first_digit(bytes) else {
        return Err(stuck(bytes));
    };
    index(behind, 1, digit)
}

/// A step, and what follows it.
fn step(alloc: Global, bytes: &[u8]) -> Result<(Step, &[u8]), Halt>
    requires utf8 { IsUtf8 bytes.now }
    requires some { 0 < length bytes.now }
    ensures run { (done : List Step)
        → Leads (λ x. run between (done ++ x.0 ∷ []) x.1.now) result (run between done bytes.now) }
    ensures utf8 { IfOk result (λ x. IsUtf8 x.1.now) }
    ensures shorter { IfOk result (λ x. length x.1.now < length bytes.now) }
{
    if let Some(behind) = after_byte(bytes, b'.') {
        return dotted(alloc, behind);
    }
    if let Some(behind) = after_byte(bytes, b'[') {
        return bracketed(alloc, behind);
    }
    Err(stuck(bytes))
}

/// The steps that a text is.
fn all_steps(alloc: Global, bytes: &[u8]) -> Result<Vec<Step>, Halt>
    requires { IsUtf8 bytes.now }
    ensures { Leads (λ v. Ok v.items) result (run between [] bytes.now) }
{
    let mut steps = Vec::new(alloc);
    let mut rest = bytes;
    while rest.len() > 0 {
        let (next, behind) = step(alloc, rest)?;
        steps.push(next)?;
        rest = behind;
    }
    Ok(steps)
}

/// The root and the steps that a text spells.
pub(crate) fn compile(alloc: Global, text: &str) -> Result<(Root, Vec<Step>), Halt>
    ensures { Leads (λ x. Ok (x.0, x.1.items)) result (steps text.now) }
{
    let bytes = text.as_bytes();
    let Some(behind) = after_byte(bytes, b'$') else {
        return Err(stuck(bytes));
    };
    if let Some(rest) = after_byte(behind, b'$') {
        return Ok((Root::Context, all_steps(alloc, rest)?));
    }
    Ok((Root::Input, all_steps(alloc, behind)?))
}

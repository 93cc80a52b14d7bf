// Scripts: files of commands.
ghost use Rattle.std.specs.Prelude.{◌≡◌, ◌∷◌, ◌++◌, [], List, ℕ, true, IfOk, IfErr, IfSome, IsSomeAnd, MatchResult, None, Some, string_bytes};
ghost use Rattle.asl_json_data.specs.Data.{text};
ghost use Rattle.asl_json.specs.View.{data_of};
ghost use Rattle.asl_json_read.specs.declared.fault.JsonFault.{JsonFault};
ghost use Rattle.asl_session.specs.declared.command.Command.{Command};
ghost use Rattle.asl_session.specs.declared.script_file.ScriptFault.{ScriptFault};
ghost use Rattle.asl_session.specs.declared.script_file.ScriptFault.TheVariants.{OutOfMemory};
ghost use Rattle.asl_session.specs.Scripts.{IsNamed, IsPlaceText, count_in, IsCommandLine, IsScript, IsScriptFault, script_refusal};

use crate::command::Command;
use asl_history::Place;
use asl_json::Json;
use asl_json_read::{JsonFault, read};
use asl_json_shared::Name;
use asl_run_input::{read_step, split_line};
use std::alloc::{AllocError, AllocFailed, Global};
use std::error::Error;
use std::{fmt, str};

/// Why a file is no script.
#[derive(Debug, Drop)]
pub enum ScriptFault {
    /// E2 ScriptLine: the number, from 1, of the first line that is no command.
    Line(usize),
    /// Memory ran out.
    OutOfMemory,
}

impl fmt::Display for ScriptFault {
    ghost use Rattle.std.specs.Prelude.{Some};

    ghost output = { λ e. Some (script_refusal e) };

    fn fmt<W: fmt::Write>(&self, f: &mut fmt::Formatter<W>) -> fmt::Result {
        match self {
            ScriptFault::Line(number) => write!(f, "script: E2 ScriptLine {number}"),
            ScriptFault::OutOfMemory => f.write_str("OutOfMemory"),
        }
    }
}

impl Error for ScriptFault {}

impl ScriptFault {
    /// The text of the fault, as `script: E2 ScriptLine 2`. The error is that memory ran out.
    pub fn text(&self, alloc: Global) -> Result<String, AllocError>
        ensures { IfOk result (λ t. string_bytes t ≡ script_refusal self.now) }
    {
        self.to_string(alloc)
    }
}

impl From<AllocError> for ScriptFault {
    ghost use Rattle.std.specs.Prelude.{◌≡◌};
    ghost use Rattle.asl_session.specs.declared.script_file.ScriptFault.TheVariants.{OutOfMemory};

    ghost from_gives = { λ _ e. e ≡ OutOfMemory };

    fn from(_: AllocError) -> ScriptFault {
        ScriptFault::OutOfMemory
    }
}

impl From<AllocFailed<Command>> for ScriptFault {
    ghost use Rattle.std.specs.Prelude.{◌≡◌};
    ghost use Rattle.asl_session.specs.declared.script_file.ScriptFault.TheVariants.{OutOfMemory};

    ghost from_gives = { λ _ e. e ≡ OutOfMemory };

    fn from(_: AllocFailed<Command>) -> ScriptFault {
        ScriptFault::OutOfMemory
    }
}

/// A file spells at most one script. The law has no code.
pub fn files_spell_one_script()
    ensures { (bytes : List ℕ) (cs ds : List Command) → IsScript bytes cs → IsScript bytes ds
        → cs ≡ ds }
{}

/// What stands behind a word.
fn behind<'a>(line: &'a [u8], word: &str) -> Option<&'a [u8]>
    ensures found { IfSome result (λ r. line.now ≡ word.now ++ r.now) }
    ensures only { (rest : List ℕ) → line.now ≡ word.now ++ rest
        → IsSomeAnd result (λ r. r.now ≡ rest) }
{
    line.strip_prefix(word.as_bytes())
}

/// Whether a text stands in quotes.
fn is_quoted(text: &[u8]) -> bool
    ensures found { result ≡ true → (inner : List ℕ) × (text.now ≡ 34 ∷ (inner ++ 34 ∷ [])) }
    ensures only { (inner : List ℕ) → text.now ≡ 34 ∷ (inner ++ 34 ∷ []) → result ≡ true }
{
    let Some((first, rest)) = text.split_first() else {
        return false;
    };
    let Some((last, _)) = rest.split_last() else {
        return false;
    };
    *first == b'"' && *last == b'"'
}

/// The name that a value is; none where it is no text. The error is that memory ran out.
fn named(alloc: Global, value: &Json) -> Result<Option<Name>, AllocError>
    ensures found { IfOk result (λ o. IfSome o (λ n. data_of value.now ≡ text n)) }
    ensures only { IfOk result (λ o. (n : List ℕ) → data_of value.now ≡ text n → o ≡ Some n) }
{
    match value {
        Json::Text(name) => Ok(Some(Name::new(alloc, name.as_str())?)),
        _ => Ok(None),
    }
}

/// No name, where that is why a text isn't read; an error where memory ran out.
fn unread(fault: &JsonFault) -> Result<Option<Name>, AllocError>
    ensures { IfOk result (λ o. (o ≡ None) × (fault.now ≡ JsonFault.OutOfMemory → ⊥)) }
{
    match fault {
        JsonFault::OutOfMemory => Err(AllocError),
        _ => Ok(None),
    }
}

/// The name that a JSON text is, with no space round it. The error is that memory ran out.
fn read_name(alloc: Global, text: &[u8]) -> Result<Option<Name>, AllocError>
    ensures found { IfOk result (λ o. IfSome o (IsNamed text.now)) }
    ensures only { IfOk result (λ o. (n : List ℕ) → IsNamed text.now n → o ≡ Some n) }
{
    if !is_quoted(text) {
        return Ok(None);
    }
    match read(alloc, text) {
        Ok(value) => named(alloc, &value),
        Err(fault) => unread(&fault),
    }
}

/// The place that a text spells. The error is that memory ran out.
pub fn read_place(alloc: Global, text: &[u8]) -> Result<Option<Place>, AllocError>
    ensures found { IfOk result (λ o. IfSome o (IsPlaceText text.now)) }
    ensures only { IfOk result (λ o. (p : List ℕ) → IsPlaceText text.now p → o ≡ Some p) }
{
    let Ok(text) = str::from_utf8(text) else {
        return Ok(None);
    };
    let place = Place::read(alloc, text)?;
    if let Some(place) = &place {
        // That each number is below 10^9.
        let _bound = place.numbers();
    }
    Ok(place)
}

/// The number that 1 to 9 digits spell.
pub fn read_count(text: &[u8]) -> Option<u32>
    ensures { result ≡ count_in text.now }
{
    if text.is_empty() || text.len() > 9 {
        return None;
    }
    let mut number = 0u32;
    for digit in text {
        if *digit < b'0' || *digit > b'9' {
            return None;
        }
        number = number * 10 + u32::from(*digit - b'0');
    }
    Some(number)
}

/// The command that a line of a script spells, without its line feed, and `None` for every other line. The error is that memory ran out.
pub fn read_command(alloc: Global, line: &[u8]) -> Result<Option<Command>, AllocError>
    ensures found { IfOk result (λ o. IfSome o (IsCommandLine line.now)) }
    ensures only { IfOk result (λ o. (c : Command) → IsCommandLine line.now c → o ≡ Some c) }
{
    if let Some(text) = behind(line, "step ") {
        let Some(at) = read_step(alloc, text)? else {
            return Ok(None);
        };
        return Ok(Some(Command::Step(at)));
    }
    if let Some(text) = behind(line, "break ") {
        let Some(name) = read_name(alloc, text)? else {
            return Ok(None);
        };
        return Ok(Some(Command::Break(name)));
    }
    if let Some(text) = behind(line, "clear ") {
        let Some(name) = read_name(alloc, text)? else {
            return Ok(None);
        };
        return Ok(Some(Command::Clear(name)));
    }
    if let Some(text) = behind(line, "resume ") {
        let Some(place) = read_place(alloc, text)? else {
            return Ok(None);
        };
        return Ok(Some(Command::Resume(place)));
    }
    if let Some(text) = behind(line, "show ") {
        let Some(place) = read_place(alloc, text)? else {
            return Ok(None);
        };
        return Ok(Some(Command::Show(place)));
    }
    if let Some(text) = behind(line, "back ") {
        let Some(count) = read_count(text) else {
            return Ok(None);
        };
        return Ok(Some(Command::Back(count)));
    }
    Ok(None)
}

/// The commands of a script, whose lines are each one. A line ends before a line feed; the last one may go without. A file of no bytes
/// has no lines. Takes time linear in the file.
///
/// # Errors
///
/// The number of the first line that is no command, or that memory ran out.
pub fn read_script(alloc: Global, bytes: &[u8]) -> Result<Vec<Command>, ScriptFault>
    ensures found { IfOk result (λ commands. IsScript bytes.now commands.items) }
    // A file of these commands is read as these commands.
    ensures only { (cs : List Command) → IsScript bytes.now cs
        → MatchResult result (λ commands. commands.items ≡ cs) (λ e. e ≡ OutOfMemory) }
    ensures fault { IfErr result (IsScriptFault bytes.now) }
{
    let mut commands = Vec::new(alloc);
    let mut rest = bytes;
    while !rest.is_empty() {
        let (line, behind) = split_line(rest);
        let Some(command) = read_command(alloc, line)? else {
            return Err(ScriptFault::Line(commands.len() + 1));
        };
        commands.push(command)?;
        rest = behind;
    }
    Ok(commands)
}

// What a file is, as its members or its first line show.
ghost use Rattle.std.specs.Prelude.{◌≡◌, IfOk};
ghost use Rattle.asl_json_data.specs.Data.{chain};
ghost use Rattle.asl_json.specs.View.{data_of, items_of};
ghost use Rattle.asl_lint_files.specs.Kinds.{begins, foreign_kind_of, has_either, is_script, kind_by_line, kind_of, kind_of_items, kind_of_object, kind_of_test, IsKindOf};

use asl_json::Json;
use asl_json_read::{JsonFault, read};
use asl_text::put_shown;
use std::alloc::{AllocError, Global};

/// What a file is for.
#[derive(Clone, Copy, PartialEq, Eq)]
pub enum Role {
    Definition,
    Mocks,
    Expectations,
    /// A list of steps, one a line.
    Steps,
    /// A list of commands of the debugger, one a line.
    Script,
    /// An input of an execution: any JSON.
    Input,
}

/// What a file is.
#[derive(Clone, Copy, PartialEq, Eq)]
pub enum Kind {
    /// What this program reads.
    Ours(Role),
    /// What `describe-state-machine` of the service's command line prints.
    Description,
    /// What `get-execution-history` prints.
    History,
    /// A template of CloudFormation, as the CDK writes it, too.
    Template,
}

impl Role {
    /// What it is called.
    pub fn words(self) -> &'static str {
        match self {
            Role::Definition => "a definition",
            Role::Mocks => "a mock file",
            Role::Expectations => "an expectation file",
            Role::Steps => "a steps file",
            Role::Script => "a script",
            Role::Input => "an input",
        }
    }
}

impl Kind {
    /// What it is called.
    pub fn words(self) -> &'static str {
        match self {
            Kind::Ours(role) => role.words(),
            Kind::Description => {
                "what describe-state-machine prints, which has the definition as the text of its member \"definition\""
            }
            Kind::History => "what get-execution-history prints",
            Kind::Template => {
                "a template of CloudFormation, of which a resource has the definition"
            }
        }
    }
}

/// Whether an object has a member with one of two keys.
fn has_either(value: &Json, one: &str, other: &str) -> bool
    ensures { result ≡ has_either one.now other.now (data_of value.now) }
{
    value.get(one).is_some() || value.get(other).is_some()
}

/// What an object is, where a member shows it.
fn kind_of_object(value: &Json) -> Option<Kind>
    ensures { result ≡ kind_of_object (data_of value.now) }
{
    if has_either(value, "StartAt", "States") {
        return Some(Kind::Ours(Role::Definition));
    }
    if has_either(value, "StateMachines", "MockedResponses") {
        return Some(Kind::Ours(Role::Mocks));
    }
    foreign_kind_of(value)
}

/// What an object is that this program doesn't read, where a member shows it.
fn foreign_kind_of(value: &Json) -> Option<Kind>
    ensures { result ≡ foreign_kind_of (data_of value.now) }
{
    if has_either(value, "stateMachineArn", "definition") {
        return Some(Kind::Description);
    }
    if has_either(value, "Resources", "AWSTemplateFormatVersion") {
        return Some(Kind::Template);
    }
    if value.get("events").is_some() {
        return Some(Kind::History);
    }
    None
}

/// What a value is, where that shows.
pub(crate) fn kind_of(value: &Json) -> Option<Kind>
    ensures { result ≡ kind_of (data_of value.now) }
{
    match value {
        Json::Dict(_) => kind_of_object(value),
        Json::List(items) => kind_of_list(items.values()),
        _ => None,
    }
}

/// What a list is: its first item shows it.
fn kind_of_list(items: &[Json]) -> Option<Kind>
    ensures { result ≡ kind_of_items (chain (items_of items.now)) }
{
    match items {
        [] => None,
        [test, ..] => kind_of_test(test),
    }
}

fn kind_of_test(test: &Json) -> Option<Kind>
    ensures { result ≡ kind_of_test (data_of test.now) }
{
    if has_either(test, "machine", "case") {
        Some(Kind::Ours(Role::Expectations))
    } else {
        None
    }
}

/// Whether a text begins with a word.
fn begins(text: &[u8], word: &str) -> bool
    ensures { result ≡ begins word.now text.now }
{
    text.starts_with(word.as_bytes())
}

/// Whether a text begins as a script does.
fn is_script(text: &[u8]) -> bool
    ensures { result ≡ is_script text.now }
{
    begins(text, "step ")
        || begins(text, "break ")
        || begins(text, "clear ")
        || begins(text, "resume ")
        || begins(text, "show ")
        || begins(text, "back ")
}

/// What a text that is no JSON is, where its beginning shows it.
fn kind_by_line(text: &[u8]) -> Option<Kind>
    ensures { result ≡ kind_by_line text.now }
{
    if begins(text, "/") {
        return Some(Kind::Ours(Role::Steps));
    }
    if is_script(text) {
        return Some(Kind::Ours(Role::Script));
    }
    None
}

/// What a text is, where that shows. The error is that memory ran out.
pub(crate) fn kind_in(alloc: Global, text: &[u8]) -> Result<Option<Kind>, AllocError>
    ensures { IfOk result (IsKindOf text.now) }
{
    match read(alloc, text) {
        Ok(value) => Ok(kind_of(&value)),
        Err(JsonFault::OutOfMemory) => Err(AllocError),
        Err(_) => Ok(kind_by_line(text)),
    }
}

/// Appends that a file is another one than is wanted.
fn put_other(out: &mut String, file: &str, kind: Kind, wanted: Role) -> Result<(), AllocError> {
    put_shown(out, file)?;
    out.push_str(": error: this is ")?;
    out.push_str(kind.words())?;
    out.push_str(", and ")?;
    out.push_str(wanted.words())?;
    out.push_str(" is wanted\n")
}

/// Appends the line on a file that is another one than is wanted, if it is. The error is that memory ran out.
pub(crate) fn put_if_other(
    alloc: Global,
    out: &mut String,
    file: &str,
    text: &[u8],
    wanted: Role,
) -> Result<(), AllocError> {
    let value = match read(alloc, text) {
        Ok(value) => value,
        Err(JsonFault::OutOfMemory) => return Err(AllocError),
        Err(_) => return Ok(()),
    };
    match kind_of(&value) {
        Some(Kind::Ours(role)) if role == wanted => Ok(()),
        Some(kind) => put_other(out, file, kind, wanted),
        None => Ok(()),
    }
}

// Writing the text for a person.
ghost use Rattle.std.specs.Prelude.{◌≡◌, ◌≤◌, ◌∷◌, [], ◌++◌, ℕ, length, IfOk, OnOk, string_bytes};
ghost use Rattle.asl_json.specs.View.{data_of};
ghost use Rattle.asl_json_data.specs.Compact.{separator, IsReadable};
ghost use Rattle.asl_json_data.specs.Data.{chain, pairs};
ghost use Rattle.asl_json_data.specs.Limits.{max_len};
ghost use Rattle.asl_json_data.specs.Reads.{ReadsAs};
ghost use Rattle.asl_json_pretty.specs.Pretty.{deeper, pretty, pretty_at, pretty_items, pretty_members};
ghost use Rattle.asl_json_pretty.specs.private.Ends.{end_of};

use asl_json::{Items, Json, Members};
use asl_json_write::put_quoted;
use std::alloc::{AllocError, Global};

/// A comma before each part but the first.
fn separate(out: &mut String, i: usize) -> Result<(), AllocError>
    ensures { OnOk result (string_bytes out.new ≡ string_bytes out.old ++ separator i) }
{
    if i > 0 {
        out.push(',')?;
    }
    Ok(())
}

/// The line feed and the spaces of the level inside this one.
fn deeper(alloc: Global, line: &str) -> Result<String, AllocError>
    ensures { IfOk result (λ t. string_bytes t ≡ deeper line.now) }
{
    let mut deeper = String::new(alloc);
    deeper.push_str(line)?;
    deeper.push_str("  ")?;
    Ok(deeper)
}

/// Goes back to the line of what held so many parts, if it held any.
fn close(out: &mut String, line: &str, parts: usize) -> Result<(), AllocError>
    ensures { OnOk result (string_bytes out.new ≡ string_bytes out.old ++ end_of line.now parts) }
{
    if parts > 0 {
        out.push_str(line)?;
    }
    Ok(())
}

/// Appends a value that stands on such a line.
#[cycle(put)]
fn put_at(alloc: Global, out: &mut String, line: &str, value: &Json) -> Result<(), AllocError>
    ensures { OnOk result (string_bytes out.new
        ≡ string_bytes out.old ++ pretty_at line.now (data_of value.now)) }
{
    match value {
        Json::Null => out.push_str("null"),
        Json::Bool(true) => out.push_str("true"),
        Json::Bool(false) => out.push_str("false"),
        Json::Num(number) => out.push_str(number.spelling()),
        Json::Text(text) => put_quoted(out, text.as_str()),
        Json::List(items) => put_items(alloc, out, line, items),
        Json::Dict(members) => put_members(alloc, out, line, members),
    }
}

#[cycle(put)]
fn put_items(alloc: Global, out: &mut String, line: &str, items: &Items) -> Result<(), AllocError>
    ensures { OnOk result (string_bytes out.new
        ≡ string_bytes out.old ++ 91 ∷ pretty_items line.now (chain items.now)) }
{
    let inner = deeper(alloc, line)?;
    out.push('[')?;
    for (i, item) in items.values().iter().enumerate() {
        separate(out, i)?;
        out.push_str(inner.as_str())?;
        put_at(alloc, out, inner.as_str(), item)?;
    }
    close(out, line, items.values().len())?;
    out.push(']')
}

#[cycle(put)]
fn put_members(
    alloc: Global,
    out: &mut String,
    line: &str,
    members: &Members,
) -> Result<(), AllocError>
    ensures { OnOk result (string_bytes out.new
        ≡ string_bytes out.old ++ 123 ∷ pretty_members line.now (pairs members.now)) }
{
    let inner = deeper(alloc, line)?;
    out.push('{')?;
    for (i, member) in members.members().iter().enumerate() {
        separate(out, i)?;
        out.push_str(inner.as_str())?;
        put_quoted(out, member.key.as_str())?;
        out.push_str(": ")?;
        put_at(alloc, out, inner.as_str(), &member.value)?;
    }
    close(out, line, members.members().len())?;
    out.push('}')
}

/// The text of a value for a person: each item and each member on a line of its own, two spaces deeper than what holds it. The error is
/// that memory ran out.
pub fn pretty(alloc: Global, value: &Json) -> Result<String, AllocError>
    ensures text { IfOk result (λ t. string_bytes t ≡ pretty (data_of value.now)) }
    // It is read as the value, where some text is, unless it is too long.
    ensures round { IfOk result (λ t. IsReadable (data_of value.now)
        → length (string_bytes t) ≤ max_len → ReadsAs (string_bytes t) (data_of value.now)) }
{
    let mut out = String::new(alloc);
    put_at(alloc, &mut out, "\n", value)?;
    Ok(out)
}

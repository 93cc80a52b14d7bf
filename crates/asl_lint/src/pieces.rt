// What several formats write.
ghost use Rattle.std.specs.Prelude.{◌<◌, ◌≡◌, ◌∷◌, ◌++◌, [], OnOk, string_bytes};
ghost use Rattle.std.specs.Fmt.{decimal};
ghost use Rattle.asl_json_data.specs.Compact.{quoted};
ghost use Rattle.asl_json_data.specs.Grammar.{colon};
ghost use Rattle.asl_writing.specs.Appends.{Appends};
ghost use Rattle.asl_lint.specs.Lines.{column_of, line_of};
ghost use Rattle.asl_lint.specs.Rules.{rule_name, severity_of, word_of};
ghost use Rattle.asl_lint.specs.private.Writing.{comma_if};

use crate::finding::Finding;
use crate::rule::Rule;
use asl_json_write::put_quoted;
use std::alloc::AllocError;

/// The line of a finding, from 1.
pub(crate) fn line_of(finding: &Finding) -> u128
    ensures { result ≡ line_of finding.now }
{
    finding.position.lines as u128 + 1
}

/// Its column, from 1.
pub(crate) fn column_of(finding: &Finding) -> u128
    ensures { result ≡ column_of finding.now }
{
    finding.position.characters as u128 + 1
}

/// Appends a character of ASCII.
pub(crate) fn put_char(out: &mut String, c: char) -> Result<(), AllocError>
    requires { c < 128 }
    ensures { OnOk result (Appends (string_bytes out.old) (c ∷ []) (string_bytes out.new)) }
{
    out.push(c)
}

/// Appends a text as it is.
pub(crate) fn put_plain(out: &mut String, text: &str) -> Result<(), AllocError>
    ensures { OnOk result (Appends (string_bytes out.old) text.now (string_bytes out.new)) }
{
    out.push_str(text)
}

/// Appends a comma where something stands before.
pub(crate) fn separate(out: &mut String, is_begun: bool) -> Result<(), AllocError>
    ensures { OnOk result (Appends (string_bytes out.old) (comma_if is_begun) (string_bytes out.new)) }
{
    if is_begun {
        put_char(out, ',')?;
    }
    Ok(())
}

/// Appends the name of a member.
pub(crate) fn put_key(out: &mut String, name: &str) -> Result<(), AllocError>
    ensures { OnOk result (Appends (string_bytes out.old) (quoted name.now ++ colon ∷ []) (string_bytes out.new)) }
{
    put_quoted(out, name)?;
    put_char(out, ':')
}

/// Appends a member whose value is a text.
pub(crate) fn put_text(out: &mut String, name: &str, text: &str) -> Result<(), AllocError>
    ensures { OnOk result (Appends (string_bytes out.old) (quoted name.now ++ colon ∷ quoted text.now) (string_bytes out.new)) }
{
    put_key(out, name)?;
    put_quoted(out, text)
}

/// Appends a member whose value is a number.
pub(crate) fn put_number(out: &mut String, name: &str, number: u128) -> Result<(), AllocError>
    ensures { OnOk result (Appends (string_bytes out.old) (quoted name.now ++ colon ∷ decimal number) (string_bytes out.new)) }
{
    put_key(out, name)?;
    write!(out, "{number}")
}

/// Appends a member whose value is the line of a finding.
pub(crate) fn put_line(out: &mut String, name: &str, finding: &Finding) -> Result<(), AllocError>
    ensures { OnOk result (Appends (string_bytes out.old) (quoted name.now ++ colon ∷ decimal (line_of finding.now)) (string_bytes out.new)) }
{
    let line = line_of(finding);
    put_number(out, name, line)
}

/// Appends a member whose value is its column.
pub(crate) fn put_column(out: &mut String, name: &str, finding: &Finding) -> Result<(), AllocError>
    ensures { OnOk result (Appends (string_bytes out.old) (quoted name.now ++ colon ∷ decimal (column_of finding.now)) (string_bytes out.new)) }
{
    let column = column_of(finding);
    put_number(out, name, column)
}

/// Appends a member whose value is an offset in bytes.
pub(crate) fn put_offset(out: &mut String, name: &str, offset: usize) -> Result<(), AllocError>
    ensures { OnOk result (Appends (string_bytes out.old) (quoted name.now ++ colon ∷ decimal offset) (string_bytes out.new)) }
{
    let number = offset as u128;
    put_number(out, name, number)
}

/// Appends a member whose value is how bad a finding of this rule is.
pub(crate) fn put_level(out: &mut String, name: &str, rule: Rule) -> Result<(), AllocError>
    ensures { OnOk result (Appends (string_bytes out.old) (quoted name.now ++ colon ∷ quoted (word_of (severity_of rule))) (string_bytes out.new)) }
{
    put_text(out, name, rule.severity().word())
}

/// Appends a member whose value is the name of this rule.
pub(crate) fn put_name(out: &mut String, name: &str, rule: Rule) -> Result<(), AllocError>
    ensures { OnOk result (Appends (string_bytes out.old) (quoted name.now ++ colon ∷ quoted (rule_name rule)) (string_bytes out.new)) }
{
    put_text(out, name, rule.name())
}

/// Appends a member whose value is the message of a finding.
pub(crate) fn put_words(out: &mut String, name: &str, finding: &Finding) -> Result<(), AllocError>
    ensures { OnOk result (Appends (string_bytes out.old) (quoted name.now ++ colon ∷ quoted (string_bytes finding.now.message)) (string_bytes out.new)) }
{
    put_text(out, name, finding.message.as_str())
}

// `States.Format`.
ghost use Rattle.std.specs.Prelude.{◌≡◌, ◌∷◌, ◌++◌, ◌<◌, length, map, OnOk, IfErr, IfSome, MatchOption, option_map, string_bytes};
ghost use Rattle.std.specs.List.{list_all};
ghost use Rattle.std.specs.Str.{chars};
ghost use Rattle.asl_json.specs.View.{data_of};
ghost use Rattle.asl_intrinsic_functions.specs.Gives.{Gives};
ghost use Rattle.asl_intrinsic_functions.specs.Outcome.{or_fails};
ghost use Rattle.asl_intrinsic_functions.specs.Seen.{seen, all_seen};
ghost use Rattle.asl_intrinsic_functions.specs.Letters.{letters};
ghost use Rattle.asl_intrinsic_functions.specs.Format.{letter as token, hole, tokens, filled, is_fit, is_open, is_close, shown, format, formatted};
ghost use Rattle.asl_intrinsic_functions.specs.declared.fault.Reason.TheVariants.{Count};

use crate::convert::text;
use crate::fault::{EvalFault, Reason};
use crate::letter::{Letter, next_letter};
use crate::value::Value;
use asl_json::{Json, Txt};
use asl_json_write::write;
use std::alloc::Global;

fn is_open(letter: Letter) -> bool
    ensures { result ≡ is_open letter }
{
    matches!(letter, Letter::Plain('{'))
}

fn is_close(letter: Letter) -> bool
    ensures { result ≡ is_close letter }
{
    matches!(letter, Letter::Plain('}'))
}

/// What stands behind a hole that begins with this letter, where one does.
fn behind_hole<'a>(letter: Letter, behind: &'a str, escapes: bool) -> Option<&'a str>
    ensures hole { MatchOption result
        (tokens (letter ∷ letters escapes (chars behind.now))
        ≡ token letter ∷ tokens (letters escapes (chars behind.now)))
        (λ rest. tokens (letter ∷ letters escapes (chars behind.now))
        ≡ hole ∷ tokens (letters escapes (chars rest.now))) }
    ensures shorter { IfSome result (λ rest. length rest.now < length behind.now) }
{
    if !is_open(letter) {
        return None;
    }
    let (next, rest) = next_letter(behind, escapes)?;
    if is_close(next) { Some(rest) } else { None }
}

/// Whether a value can stand in a text.
fn is_fit(value: &Json) -> bool
    ensures { result ≡ is_fit (data_of value.now) }
{
    match value {
        Json::List(_) | Json::Dict(_) => false,
        _ => true,
    }
}

fn all_fit(values: &[Value<'_>]) -> bool
    ensures { result ≡ list_all is_fit (all_seen values.now) }
{
    for value in values {
        if !is_fit(value.json()) {
            return false;
        }
    }
    true
}

/// Appends a value; a text without quotes.
fn put_shown(alloc: Global, out: &mut String, value: &Json) -> Result<(), EvalFault>
    ensures shown { OnOk result (string_bytes out.new
        ≡ string_bytes out.old ++ shown (data_of value.now)) }
    ensures memory { IfErr result (λ e. e ≡ EvalFault.OutOfMemory) }
{
    if let Json::Text(text) = value {
        out.push_str(text.as_str())?;
        return Ok(());
    }
    out.push_str(write(alloc, value)?.as_str())?;
    Ok(())
}

/// The template with each `{}` replaced by the next value.
fn fill(
    alloc: Global,
    template: &str,
    escapes: bool,
    values: &[Value<'_>],
) -> Result<String, EvalFault>
    ensures { Gives (λ t. string_bytes t)
        (or_fails Count
        (filled (tokens (letters escapes (chars template.now))) (map shown (all_seen values.now))))
        result }
{
    let mut out = String::new(alloc);
    let mut next = 0;
    let mut rest = template;
    while let Some((letter, behind)) = next_letter(rest, escapes) {
        match behind_hole(letter, behind, escapes) {
            Some(after) => {
                if next == values.len() {
                    return Err(EvalFault::Fails(Reason::Count));
                }
                put_shown(alloc, &mut out, values[next].json())?;
                next += 1;
                rest = after;
            }
            None => {
                out.push(letter.character())?;
                rest = behind;
            }
        }
    }
    if next < values.len() {
        return Err(EvalFault::Fails(Reason::Count));
    }
    Ok(out)
}

/// A template with or without escapes.
fn formatted(
    alloc: Global,
    template: &str,
    escapes: bool,
    values: &[Value<'_>],
) -> Result<Json, EvalFault>
    ensures { Gives data_of
        (formatted (tokens (letters escapes (chars template.now))) (all_seen values.now)) result }
{
    if !all_fit(values) {
        return Err(EvalFault::Fails(Reason::Unfit));
    }
    Ok(Json::Text(Txt::new(fill(alloc, template, escapes, values)?)))
}

/// `States.Format`, with the template as it is written where it stands between apostrophes.
pub(crate) fn format(
    alloc: Global,
    written: Option<&str>,
    template: &Json,
    values: &[Value<'_>],
) -> Result<Json, EvalFault>
    ensures { Gives data_of
        (format (option_map (λ t. t.now) written.entry) (data_of template.now)
        (all_seen values.now)) result }
{
    let template = text(template)?;
    match written {
        Some(written) => formatted(alloc, written, true, values),
        None => formatted(alloc, template, false, values),
    }
}

// Lines in colours.
ghost use Rattle.std.specs.Prelude.{◌≡◌, ◌++◌, ◌∷◌, [], IfOk, IfSome, OnOk, string_bytes};
ghost use Rattle.asl_text.specs.Painted.{Adds, IsPainted};

use crate::paint::{Paint, put_piece};
use crate::parts::{Cuts, cuts_of, status_paint};
use std::alloc::{AllocError, Global};

/// Appends the line of a step in three parts: time and place, name and type, and what became of the state.
fn put_three(
    out: &mut String,
    lead: &str,
    state: &str,
    paint: Paint,
    outcome: &str,
) -> Result<(), AllocError>
    ensures { OnOk result
        (Adds (lead.now ++ (state.now ++ outcome.now)) (string_bytes out.old) (string_bytes out.new)) }
{
    put_piece(out, Paint::Dim, lead)?;
    put_piece(out, Paint::Plain, state)?;
    put_piece(out, paint, outcome)?;
    put_piece(out, Paint::Plain, "")
}

/// Appends a line that is cut there; one that can't be is shown as it is.
fn put_cut(out: &mut String, line: &str, cuts: Cuts) -> Result<(), AllocError>
    ensures { OnOk result (Adds line.now (string_bytes out.old) (string_bytes out.new)) }
{
    let Some((lead, rest)) = line.split_at_checked(cuts.lead) else {
        return put_piece(out, Paint::Same, line);
    };
    let Some((state, outcome)) = rest.split_at_checked(cuts.outcome) else {
        return put_piece(out, Paint::Same, line);
    };
    put_three(out, lead, state, cuts.paint, outcome)
}

/// Appends the line of a status.
fn put_status(out: &mut String, line: &str) -> Result<(), AllocError>
    ensures { OnOk result (Adds line.now (string_bytes out.old) (string_bytes out.new)) }
{
    put_piece(out, status_paint(line), line)?;
    put_piece(out, Paint::Plain, "")
}

/// Whether the line is that of a step or of a stop: a time stands at its beginning.
fn has_time(line: &str) -> bool {
    match line.as_bytes().first() {
        Some(byte) => byte.is_ascii_digit(),
        None => false,
    }
}

/// Appends a line.
fn put_line(out: &mut String, line: &str) -> Result<(), AllocError>
    ensures { OnOk result (Adds line.now (string_bytes out.old) (string_bytes out.new)) }
{
    if line.starts_with("status ") {
        return put_status(out, line);
    }
    if !has_time(line) {
        return put_piece(out, Paint::Same, line);
    }
    match cuts_of(line) {
        Some(cuts) => put_cut(out, line, cuts),
        None => put_piece(out, Paint::Same, line),
    }
}

/// Appends a line and its line feed.
fn put_whole_line(out: &mut String, line: &str) -> Result<(), AllocError>
    ensures { OnOk result (Adds (line.now ++ 10 ∷ []) (string_bytes out.old) (string_bytes out.new)) }
{
    put_line(out, line)?;
    put_piece(out, Paint::Same, "\n")
}

/// The first line, and what stands behind its line feed; none where there is no line feed.
fn first_line(text: &str) -> Option<(&str, &str)>
    ensures { IfSome result (λ x. text.now ≡ x.0.now ++ 10 ∷ x.1.now) }
{
    text.split_once('\n')
}

/// Appends lines of the tree in colours: errors red, retries yellow, states that were left green, times and places dim. The error is that
/// memory ran out.
pub fn put_coloured(out: &mut String, text: &str) -> Result<(), AllocError>
    ensures { OnOk result (Adds text.now (string_bytes out.old) (string_bytes out.new)) }
{
    let mut rest = text;
    for _ in 0..text.len() {
        let Some((line, more)) = first_line(rest) else {
            return put_line(out, rest);
        };
        put_whole_line(out, line)?;
        rest = more;
    }
    put_line(out, rest)
}

/// The same as a text of its own.
pub fn coloured(alloc: Global, text: &str) -> Result<String, AllocError>
    ensures { IfOk result (λ t. IsPainted text.now (string_bytes t)) }
{
    let mut out = String::new(alloc);
    put_coloured(&mut out, text)?;
    Ok(out)
}

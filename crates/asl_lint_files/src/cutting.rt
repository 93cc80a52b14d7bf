// The lines of a file.
ghost use Rattle.std.specs.Prelude.{◌≡◌, ◌≤◌, ◌-◌, length};
ghost use Rattle.asl_lint_files.specs.Lines.{behind_line, behind_lines, line_span, place_of};

use asl_json_spans::Span;

/// What stands behind the first line feed.
fn behind_line(bytes: &[u8]) -> &[u8]
    ensures { result.now ≡ behind_line bytes.now }
{
    let mut rest = bytes;
    while let [byte, behind @ ..] = rest {
        rest = behind;
        if *byte == b'\n' {
            return rest;
        }
    }
    rest
}

/// What stands behind so many.
fn behind_lines(bytes: &[u8], count: usize) -> &[u8]
    ensures { result.now ≡ behind_lines count bytes.now }
{
    let mut rest = bytes;
    let mut left = count;
    while left > 0 {
        rest = behind_line(rest);
        left -= 1;
    }
    rest
}

/// Where what is left of some bytes begins.
fn place_of(bytes: &[u8], rest: &[u8]) -> usize
    ensures { result ≡ place_of bytes.now rest.now }
{
    bytes.len().saturating_sub(rest.len())
}

/// The stretch of the line of this number, from 1, with the line feed that ends it.
pub(crate) fn line_span(text: &[u8], number: usize) -> Span
    ensures { result ≡ line_span number text.now }
{
    let line = behind_lines(text, number.saturating_sub(1));
    Span {
        begin: place_of(text, line),
        end: place_of(text, behind_line(line)),
    }
}

/// The line of this number, from 1, without its line feed; nothing where there is none.
pub(crate) fn line_at(text: &[u8], number: usize) -> &[u8] {
    let rest = behind_lines(text, number.saturating_sub(1));
    match rest.iter().position(|byte| *byte == b'\n') {
        Some(end) if end < rest.len() => &rest[..end],
        _ => rest,
    }
}

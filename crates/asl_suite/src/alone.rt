// A command line that runs a test by itself.
use crate::case_report::Search;
use crate::finding::Source;
use std::alloc::AllocError;

/// Appends a command line that runs the test of a number by itself, and shows what its execution does. A POSIX shell reads it.
pub(crate) fn put_alone(
    out: &mut String,
    source: &Source<'_>,
    number: usize,
) -> Result<(), AllocError> {
    put_command(out, "asl run ", source, number)
}

/// Appends a command line that tries the orders of the branches of the test of a number, or prints one in which it isn't as expected.
pub(crate) fn put_search(
    out: &mut String,
    source: &Source<'_>,
    number: usize,
    search: &Search,
) -> Result<(), AllocError> {
    put_command(out, "asl explore ", source, number)?;
    if search.prompt {
        out.push_str(" --prompt")?;
    }
    if search.calls {
        out.push_str(" --calls")?;
    }
    match &search.unmet {
        Some(unmet) => write!(out, " --witness {}", unmet.number),
        None => Ok(()),
    }
}

/// Appends a command on the execution of the test of a number.
fn put_command(
    out: &mut String,
    command: &str,
    source: &Source<'_>,
    number: usize,
) -> Result<(), AllocError> {
    out.push_str(command)?;
    put_word(out, source.definition)?;
    out.push(' ')?;
    put_word(out, source.mocks)?;
    out.push_str(" --test '")?;
    put_quoted(out, source.expectations)?;
    write!(out, "#{number}'")
}

/// Appends a text as one word of a POSIX shell.
fn put_word(out: &mut String, text: &str) -> Result<(), AllocError> {
    out.push('\'')?;
    put_quoted(out, text)?;
    out.push('\'')
}

/// Appends a text that stands between single quotes.
fn put_quoted(out: &mut String, text: &str) -> Result<(), AllocError> {
    for character in text.chars() {
        match character {
            '\'' => out.push_str("'\\''")?,
            other => out.push(other)?,
        }
    }
    Ok(())
}

// Runs in the format that is asked for.
ghost use Rattle.std.specs.Prelude.{◌≡◌, IfOk, IfErr, string_bytes};
ghost use Rattle.asl_run_input.specs.Emulations.{IsRefused};
ghost use Rattle.asl_run_input.specs.Texts.{Unless};
ghost use Rattle.asl_run_input.specs.Views.{texts_of};
ghost use Rattle.asl_exec.specs.Emulations.{IsEndIn};
ghost use Rattle.asl_exec.specs.Lacking.{IsLackingIn};
ghost use Rattle.asl_cli.specs.Formats.{format_of, IsPlainRunIn, IsShown, IsRunIn};

use asl_exec::{Emulated, emulate_texts};
use asl_run_formats::{Format, emulate_as};
use asl_run_input::{EmulateFault, RunTexts};
use asl_text::coloured;
use asl_words::RunFormat;
use std::alloc::{AllocError, Global};

/// The format that isn't the usual text, where one is asked for.
fn format_of<'a>(format: RunFormat<'a>) -> Option<Format<'a>>
    ensures { result ≡ format_of format.entry }
{
    match format {
        RunFormat::Text => None,
        RunFormat::Json => Some(Format::Json),
        RunFormat::Aws(region) => Some(Format::Aws(region)),
        RunFormat::Steps => Some(Format::Steps),
        RunFormat::Tree => Some(Format::Tree),
        RunFormat::Data => Some(Format::Data),
    }
}

/// Runs an execution by the steps of a file, where there is one, else by those that come next, at most so many.
fn emulate_plain(
    alloc: Global,
    format: RunFormat<'_>,
    texts: &RunTexts<'_>,
    limit: u32,
) -> Result<Emulated, EmulateFault>
    ensures run { IfOk result (λ e. IsPlainRunIn (format_of format.entry) (texts_of texts.now) limit
        (string_bytes e.text) e.good) }
    ensures lacking { IfOk result (λ e. IsLackingIn (texts_of texts.now) limit e.lacking) }
    ensures end { IfOk result (λ e. IsEndIn (texts_of texts.now) limit e.end) }
    ensures fault { IfErr result (Unless (IsRefused (texts_of texts.now))) }
{
    match format_of(format) {
        None => emulate_texts(alloc, texts, limit),
        Some(format) => emulate_as(alloc, format, texts, limit),
    }
}

/// A text in colours, or as it is.
pub(crate) fn shown_as(alloc: Global, is_coloured: bool, text: String) -> Result<String, AllocError>
    ensures { IfOk result (λ t. IsShown is_coloured (string_bytes text) (string_bytes t)) }
{
    if is_coloured {
        coloured(alloc, text.as_str())
    } else {
        Ok(text)
    }
}

/// Runs an execution so, and shows what it prints in colours, or as it is.
pub(crate) fn emulate_in(
    alloc: Global,
    format: RunFormat<'_>,
    is_coloured: bool,
    texts: &RunTexts<'_>,
    limit: u32,
) -> Result<Emulated, EmulateFault>
    ensures run { IfOk result (λ e. IsRunIn (format_of format.entry) is_coloured (texts_of texts.now)
        limit (string_bytes e.text) e.good) }
    ensures lacking { IfOk result (λ e. IsLackingIn (texts_of texts.now) limit e.lacking) }
    ensures end { IfOk result (λ e. IsEndIn (texts_of texts.now) limit e.end) }
    ensures fault { IfErr result (Unless (IsRefused (texts_of texts.now))) }
{
    let Emulated {
        text,
        good,
        lacking,
        end,
    } = emulate_plain(alloc, format, texts, limit)?;
    let text = shown_as(alloc, is_coloured, text)?;
    Ok(Emulated {
        text,
        good,
        lacking,
        end,
    })
}

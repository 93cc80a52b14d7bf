// Colours.
ghost use Rattle.std.specs.Prelude.{◌≡◌, OnOk, string_bytes};
ghost use Rattle.asl_text.specs.Painted.{control, Adds};

use std::alloc::AllocError;

/// How a piece of a text is shown.
#[derive(Clone, Copy, Debug, PartialEq, Eq)]
pub enum Paint {
    /// As what stands before it.
    Same,
    /// As the terminal shows texts.
    Plain,
    Dim,
    Red,
    Green,
    Yellow,
}

/// What lets a terminal show what follows so.
#[tactic(auto, unfolding(crate::specs::Painted::control))]
fn control(paint: Paint) -> &'static str
    ensures { result.now ≡ control paint }
{
    match paint {
        Paint::Same => "",
        Paint::Plain => "\x1b[0m",
        Paint::Dim => "\x1b[2m",
        Paint::Red => "\x1b[31m",
        Paint::Green => "\x1b[32m",
        Paint::Yellow => "\x1b[33m",
    }
}

/// Appends a piece of a text. The error is that memory ran out.
pub(crate) fn put_piece(out: &mut String, paint: Paint, text: &str) -> Result<(), AllocError>
    ensures { OnOk result (Adds text.now (string_bytes out.old) (string_bytes out.new)) }
{
    out.push_str(control(paint))?;
    out.push_str(text)
}

// The positions of the offsets of a document.
ghost use Rattle.std.specs.Prelude.{◌≡◌, ◌≤◌, IfOk, take};
ghost use Rattle.std.specs.List.{All};
ghost use Rattle.asl_lsp_positions.specs.Positions.{position, is_up_to, offset};
ghost use Rattle.asl_lsp_positions.specs.private.Places.{IsPlace};

use crate::place::Place;
use crate::position::{Encoding, Position};
use std::alloc::{AllocError, Global};
use std::marker::Model;

/// How far the offsets whose places are kept are from one another, in bytes.
const STRIDE: usize = 256;

/// The offsets of a text. Contracts see the encoding and the text.
#[derive(Drop)]
pub struct Positions<'a> {
    encoding: Encoding,
    text: &'a [u8],
    /// The place of each offset that is a multiple of the stride.
    marks: Vec<Place>,
}

impl<'a> Model for Positions<'a> {
    ghost use Rattle.std.specs.Prelude.{ℕ, List};
    ghost use Rattle.std.specs.List.{All};
    ghost use Rattle.asl_lsp_positions.specs.declared.position.Encoding.{Encoding};
    ghost use Rattle.asl_lsp_positions.specs.private.Places.{IsPlace};

    ghost Value = { Encoding × List ℕ };

    ghost view = { λ a. (a.encoding, a.text.now) };

    ghost invariant = { λ a. All (IsPlace a.encoding a.text.now) a.marks.items };
}

fn marks_of(alloc: Global, encoding: Encoding, text: &[u8]) -> Result<Vec<Place>, AllocError>
    ensures { IfOk result (λ ms. All (IsPlace encoding text.now) ms.items) }
{
    let mut marks = Vec::with_capacity(alloc, text.len() / STRIDE + 1)?;
    let mut here = Place::start();
    marks.push(here)?;
    while here.at < text.len() {
        here = here.forward(encoding, text, here.at.saturating_add(STRIDE));
        marks.push(here)?;
    }
    Ok(marks)
}

/// The last of these places that isn't behind an offset, where they are a stride from one another; else one before it.
fn before(encoding: Encoding, text: &[u8], marks: &[Place], offset: usize) -> Place
    requires { All (IsPlace encoding text.now) marks.now }
    ensures is { IsPlace encoding text.now result }
    ensures before { result.at ≤ offset }
{
    match marks.get(offset / STRIDE) {
        Some(mark) if mark.at <= offset => *mark,
        _ => Place::start(),
    }
}

/// Whether a position isn't behind another one.
fn is_up_to(position: Position, other: Position) -> bool
    ensures { result ≡ is_up_to position other }
{
    position.line < other.line
        || (position.line == other.line && position.character <= other.character)
}

/// The last offset of a text whose position isn't behind this one.
fn offset(encoding: Encoding, text: &[u8], position: Position) -> usize
    ensures { result ≡ offset encoding text.now position }
{
    let mut last = 0;
    let mut here = Place::start();
    while here.at < text.len() {
        here = here.next(encoding, text);
        if is_up_to(here.position, position) {
            last = here.at;
        }
    }
    last
}

impl<'a> Positions<'a> {
    /// Reads a text once. The error is that memory ran out.
    pub fn of(alloc: Global, encoding: Encoding, text: &'a str) -> Result<Self, AllocError>
        ensures { IfOk result (λ p. p ≡ (encoding, text.now)) }
    {
        let text = text.as_bytes();
        let marks = marks_of(alloc, encoding, text)?;
        Ok(Positions {
            encoding,
            text,
            marks,
        })
    }

    /// The position of an offset in bytes; of one past the end, that of the end. It takes a few hundred steps at most, however long the text is.
    pub fn at(&self, offset: usize) -> Position
        ensures { result ≡ position self.now.0 (take offset self.now.1) }
    {
        let here = before(self.encoding, self.text, &self.marks, offset);
        here.forward(self.encoding, self.text, offset).position
    }

    /// The offset of a position in bytes: the last one whose position isn't behind it. It is the end of its line where the position is behind that, and the
    /// end of the text where there is no such line. Its cost is the length of the text.
    pub fn offset(&self, position: Position) -> usize
        ensures { result ≡ offset self.now.0 self.now.1 position }
    {
        offset(self.encoding, self.text, position)
    }
}

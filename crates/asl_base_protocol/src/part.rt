// What has come of an item that isn't whole yet.
ghost use Rattle.std.specs.Prelude.{◌<◌};

use crate::item::Item;
use crate::said::Said;
use std::alloc::Global;

/// What has come of a header part.
#[derive(Drop)]
pub(crate) struct Header {
    /// The line that hasn't ended.
    pub(crate) line: Vec<u8>,
    /// How many bytes the header part has so far.
    pub(crate) len: usize,
    /// What its whole lines say.
    pub(crate) said: Said,
}

/// What has come of a content part.
#[derive(Drop)]
pub(crate) struct Filling {
    pub(crate) bytes: Vec<u8>,
    /// How many bytes are still to come.
    pub(crate) left: usize,
    ghost some: { 0 < left },
}

/// A content part that is passed over.
#[derive(Drop)]
pub(crate) struct Passing {
    /// How many bytes it has.
    pub(crate) length: usize,
    /// How many of them are still to come.
    pub(crate) left: usize,
    ghost some: { 0 < left },
}

/// What has come of an item that isn't whole yet.
#[derive(Drop)]
pub(crate) enum Part {
    Header(Header),
    Content(Filling),
    Passed(Passing),
}

/// What more bytes lead to.
#[derive(Drop)]
pub(crate) enum Turn {
    /// The item is whole.
    Item(Item),
    /// It isn't yet.
    Part(Part),
}

impl Part {
    ghost use Rattle.std.specs.Prelude.{◌≡◌, ◌≤◌, []};
    ghost use Rattle.asl_base_protocol.specs.Standing.{wanted, Stands};

    /// Nothing has come yet.
    pub(crate) fn new(alloc: Global) -> Part
        ensures { Stands [] result }
    {
        Part::Header(Header {
            line: Vec::new(alloc),
            len: 0,
            said: Said::Nothing,
        })
    }

    /// How many bytes it takes at once.
    pub(crate) fn wanted(&self) -> usize
        ensures count { result ≡ wanted self.now }
        ensures some { 1 ≤ result }
    {
        match self {
            Part::Header(_) => 1,
            Part::Content(filling) => filling.left,
            Part::Passed(passing) => passing.left,
        }
    }
}

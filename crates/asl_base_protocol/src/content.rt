// Going on with a content part.
ghost use Rattle.std.specs.Prelude.{◌≡◌, ◌≤◌, ◌++◌, List, ℕ, length, IfOk};
ghost use Rattle.asl_base_protocol.specs.Fields.{said as said_of};
ghost use Rattle.asl_base_protocol.specs.Grammar.{longest_header, AreLines, header_text, IsHeaded};
ghost use Rattle.asl_base_protocol.specs.Standing.{IsFilling, IsPassing, TurnIs};

use crate::item::{Bytes, Item};
use crate::part::{Filling, Part, Passing, Turn};
use crate::said::Said;
use std::alloc::{AllocError, Global};

/// How many bytes a content part may have.
const LONGEST_CONTENT: usize = 16_777_216;

/// Behind a header part that says this.
pub(crate) fn opened(alloc: Global, said: Said) -> Turn
    ensures { (ls : List (List ℕ)) → AreLines ls → length (header_text ls) ≤ longest_header
        → said ≡ said_of ls → TurnIs (header_text ls) result }
{
    match said {
        Said::Nothing | Said::Fault => Turn::Item(Item::BadHeader),
        Said::Length(0) => Turn::Item(Item::Content(Bytes {
            bytes: Vec::new(alloc),
        })),
        Said::Length(length) if length > LONGEST_CONTENT => Turn::Part(Part::Passed(Passing {
            length,
            left: length,
        })),
        Said::Length(left) => Turn::Part(Part::Content(Filling {
            bytes: Vec::new(alloc),
            left,
        })),
    }
}

impl Filling {
    /// Behind these bytes. The error is that memory ran out.
    pub(crate) fn with(self, more: &[u8]) -> Result<Turn, AllocError>
        ensures { (t : List ℕ) → IsHeaded (IsFilling self) t → length more.now ≤ self.left
            → IfOk result (TurnIs (t ++ more.now)) }
    {
        let Filling { mut bytes, left } = self;
        bytes.extend_from_slice(more)?;
        Ok(if more.len() < left {
            Turn::Part(Part::Content(Filling {
                bytes,
                left: left - more.len(),
            }))
        } else {
            Turn::Item(Item::Content(Bytes { bytes }))
        })
    }
}

impl Passing {
    /// Behind these bytes.
    pub(crate) fn with(self, more: &[u8]) -> Turn
        ensures { (t : List ℕ) → IsHeaded (IsPassing self) t → length more.now ≤ self.left
            → TurnIs (t ++ more.now) result }
    {
        let Passing { length, left } = self;
        if more.len() < left {
            Turn::Part(Part::Passed(Passing {
                length,
                left: left - more.len(),
            }))
        } else {
            Turn::Item(Item::TooLong(length))
        }
    }
}

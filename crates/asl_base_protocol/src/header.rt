// Going on with a header part.
ghost use Rattle.std.specs.Prelude.{◌≡◌, ◌≤◌, ◌∷◌, ◌++◌, ◌&&◌, ◌==◌, [], true, false, List, ℕ, length, IfOk};
ghost use Rattle.asl_base_protocol.specs.Grammar.{longest_header};
ghost use Rattle.asl_base_protocol.specs.private.Ends.{cr_behind};
ghost use Rattle.asl_base_protocol.specs.Standing.{Grows, IsHeader, TurnIs};

use crate::content::opened;
use crate::item::Item;
use crate::part::{Header, Part, Turn};
use std::alloc::{AllocError, Global};

/// How many bytes a header part may have.
const LONGEST_HEADER: usize = 4096;

/// Whether a carriage return is the last of these bytes.
fn ends_with_cr(bytes: &[u8]) -> bool
    ensures { result ≡ cr_behind false bytes.now }
{
    match bytes {
        [] => false,
        [.., last] => *last == b'\r',
    }
}

impl Header {
    /// The header part, or that it is too long to go on.
    fn bounded(self) -> Turn
        ensures { (t : List ℕ) → Grows t self → length t ≤ longest_header → TurnIs t result }
    {
        if self.len < LONGEST_HEADER {
            Turn::Part(Part::Header(self))
        } else {
            Turn::Item(Item::BadHeader)
        }
    }

    /// Behind the line feed that terminates the line.
    fn with_line(self, alloc: Global) -> Turn
        ensures { (t : List ℕ) → IsHeader t self → cr_behind false self.line.items ≡ true
            → TurnIs (t ++ 10 ∷ []) result }
    {
        let Header {
            mut line,
            len,
            said,
        } = self;
        let _cr = line.pop();
        if line.is_empty() {
            return opened(alloc, said);
        }
        let said = said.with(&line);
        line.clear();
        Header {
            line,
            len: len.saturating_add(1),
            said,
        }
        .bounded()
    }

    /// Behind a byte that terminates no line.
    fn with_inner(self, byte: u8) -> Result<Turn, AllocError>
        ensures { (t : List ℕ) → IsHeader t self
            → (cr_behind false self.line.items && (byte == 10)) ≡ false
            → IfOk result (TurnIs (t ++ byte ∷ [])) }
    {
        let Header {
            mut line,
            len,
            said,
        } = self;
        line.push(byte)?;
        Ok(Header {
            line,
            len: len.saturating_add(1),
            said,
        }
        .bounded())
    }

    /// Behind one more byte. The error is that memory ran out.
    pub(crate) fn with(self, alloc: Global, byte: u8) -> Result<Turn, AllocError>
        ensures { (t : List ℕ) → IsHeader t self → IfOk result (TurnIs (t ++ byte ∷ [])) }
    {
        if byte == b'\n' && ends_with_cr(&self.line) {
            Ok(self.with_line(alloc))
        } else {
            self.with_inner(byte)
        }
    }
}

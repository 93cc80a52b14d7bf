// Why bytes aren't read.
ghost use Rattle.std.specs.Prelude.{◌≡◌, IfOk, string_bytes};
ghost use Rattle.asl_json_read.specs.FaultText.{fault_text};

use std::alloc::{AllocError, Global};
use std::error::Error;
use std::fmt;

/// Why bytes aren't read as a JSON text. Places are offsets in bytes from 0.
#[derive(Clone, Copy, Debug, PartialEq, Eq)]
pub enum JsonFault {
    /// J1: the first byte with which the text is no longer the front of a JSON text, or the length where it ends early; the
    /// backslash of an escape of a surrogate half that is none of a pair.
    Syntax(usize),
    /// J2: the opening quote of a key that the object has already.
    Duplicate(usize),
    /// J3: the bracket that opens a level too many.
    Depth(usize),
    /// J4: the first byte of a number past the limits.
    Number(usize),
    /// J5: there are more bytes than a text may have.
    Size,
    /// J6: the first byte of the first malformed UTF-8 sequence.
    Utf8(usize),
    /// J7: memory ran out.
    OutOfMemory,
}

impl fmt::Display for JsonFault {
    ghost use Rattle.std.specs.Prelude.{Some};

    ghost output = { λ e. Some (fault_text e) };

    fn fmt<W: fmt::Write>(&self, f: &mut fmt::Formatter<W>) -> fmt::Result {
        match *self {
            JsonFault::Syntax(at) => write!(f, "J1 Syntax {at}"),
            JsonFault::Duplicate(at) => write!(f, "J2 Duplicate {at}"),
            JsonFault::Depth(at) => write!(f, "J3 Depth {at}"),
            JsonFault::Number(at) => write!(f, "J4 Number {at}"),
            JsonFault::Size => f.write_str("J5 Size"),
            JsonFault::Utf8(at) => write!(f, "J6 Utf8 {at}"),
            JsonFault::OutOfMemory => f.write_str("J7 OutOfMemory"),
        }
    }
}

impl Error for JsonFault {}

impl JsonFault {
    /// The text of the fault, as `J1 Syntax 5`. The error is that memory ran out.
    pub fn text(&self, alloc: Global) -> Result<String, AllocError>
        ensures { IfOk result (λ t. string_bytes t ≡ fault_text self.now) }
    {
        self.to_string(alloc)
    }
}

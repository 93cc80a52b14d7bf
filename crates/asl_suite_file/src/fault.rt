// Why bytes are no expectations file.
ghost use Rattle.std.specs.Prelude.{◌≡◌, IfOk, string_bytes};
ghost use Rattle.asl_suite_file.specs.Lines.{expect_line};
ghost use Rattle.asl_suite_file.specs.Told.{unread};

use asl_json_read::JsonFault;
use asl_json_write::Pointer;
use std::alloc::{AllocError, Global};
use std::error::Error;
use std::fmt;

/// Why bytes are no expectations file. Places are JSON Pointers, as `/0/visits/A`.
#[derive(Debug, Drop)]
pub enum ExpectFault {
    /// X1: they are no JSON text.
    Json(JsonFault),
    /// X2: the value at this place doesn't fit; the first one in document order. A missing or unknown member has the place of
    /// its test.
    Shape(Pointer),
    /// X3: memory ran out.
    OutOfMemory,
}

/// The fault of bytes that aren't read.
pub(crate) fn unread(fault: JsonFault) -> ExpectFault
    ensures { result ≡ unread fault }
{
    match fault {
        JsonFault::OutOfMemory => ExpectFault::OutOfMemory,
        fault => ExpectFault::Json(fault),
    }
}

impl fmt::Display for ExpectFault {
    ghost use Rattle.std.specs.Prelude.{Some};

    ghost output = { λ e. Some (expect_line e) };

    fn fmt<W: fmt::Write>(&self, f: &mut fmt::Formatter<W>) -> fmt::Result {
        match self {
            ExpectFault::Json(fault) => write!(f, "X1 Json {fault}"),
            ExpectFault::Shape(place) => place.write_behind("X2 Shape", f),
            ExpectFault::OutOfMemory => f.write_str("X3 OutOfMemory"),
        }
    }
}

impl Error for ExpectFault {}

impl ExpectFault {
    /// The text of the fault, as `X2 Shape /0/status` or `X1 Json J1 Syntax 5`. The error is that memory ran out.
    pub fn text(&self, alloc: Global) -> Result<String, AllocError>
        ensures { IfOk result (λ t. string_bytes t ≡ expect_line self.now) }
    {
        self.to_string(alloc)
    }
}

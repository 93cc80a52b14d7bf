// Why bytes are no mock file, and why a case isn't found.
ghost use Rattle.std.specs.Prelude.{◌≡◌, IfOk, string_bytes};
ghost use Rattle.asl_mock.specs.Lines.{mock_line, case_line};
ghost use Rattle.asl_mock.specs.Told.{unread};

use asl_json_read::JsonFault;
use asl_json_write::Pointer;
use std::alloc::{AllocError, Global};
use std::error::Error;
use std::fmt;

/// Why bytes are no mock file. The lowest number is answered, and of several places of one number the first in document order.
/// Places are JSON Pointers, as `/MockedResponses/R/0-1`.
#[derive(Debug, Drop)]
pub enum MockFault {
    /// M1: they are no JSON text.
    Json(JsonFault),
    /// M2: the value at this place doesn't fit. A missing or unknown member has the place of its object.
    Shape(Pointer),
    /// M3: the key at this place is neither `N` nor `low-high` with low at most high.
    Key(Pointer),
    /// M4: the key at this place has a number of an earlier key of its response.
    Overlap(Pointer),
    /// M5: the response that is named at this place isn't there.
    NoResponse(Pointer),
    /// M6: memory ran out.
    OutOfMemory,
}

/// Why a case isn't found.
#[derive(Clone, Copy, Debug, PartialEq, Eq)]
pub enum CaseFault {
    /// M7: no machine has this name.
    NoMachine,
    /// M8: the machine has no case of this name.
    NoCase,
}

/// The fault of bytes that aren't read.
pub(crate) fn unread(fault: JsonFault) -> MockFault
    ensures { result ≡ unread fault }
{
    match fault {
        JsonFault::OutOfMemory => MockFault::OutOfMemory,
        fault => MockFault::Json(fault),
    }
}

impl fmt::Display for MockFault {
    ghost use Rattle.std.specs.Prelude.{Some};

    ghost output = { λ e. Some (mock_line e) };

    fn fmt<W: fmt::Write>(&self, f: &mut fmt::Formatter<W>) -> fmt::Result {
        match self {
            MockFault::Json(fault) => write!(f, "M1 Json {fault}"),
            MockFault::Shape(place) => place.write_behind("M2 Shape", f),
            MockFault::Key(place) => place.write_behind("M3 Key", f),
            MockFault::Overlap(place) => place.write_behind("M4 Overlap", f),
            MockFault::NoResponse(place) => place.write_behind("M5 NoResponse", f),
            MockFault::OutOfMemory => f.write_str("M6 OutOfMemory"),
        }
    }
}

impl Error for MockFault {}

impl MockFault {
    /// The text of the fault, as `M4 Overlap /MockedResponses/R/2` or `M1 Json J1 Syntax 5`. The error is that memory ran out.
    pub fn text(&self, alloc: Global) -> Result<String, AllocError>
        ensures { IfOk result (λ t. string_bytes t ≡ mock_line self.now) }
    {
        self.to_string(alloc)
    }
}

impl fmt::Display for CaseFault {
    ghost use Rattle.std.specs.Prelude.{Some};

    ghost output = { λ e. Some (case_line e) };

    fn fmt<W: fmt::Write>(&self, f: &mut fmt::Formatter<W>) -> fmt::Result {
        f.write_str(self.text())
    }
}

impl Error for CaseFault {}

impl CaseFault {
    /// The text of the fault, as `M7 NoMachine`.
    pub fn text(self) -> &'static str
        ensures { result.now ≡ case_line self }
    {
        match self {
            CaseFault::NoMachine => "M7 NoMachine",
            CaseFault::NoCase => "M8 NoCase",
        }
    }
}

// Appending to a text as a whole or not at all, where memory may run out in between.
ghost use Rattle.std.specs.Prelude.{◌≡◌, take, OnOk, OnErr, string_bytes};
ghost use Rattle.std.specs.String.Boundary.{IsSplitPoint};

use std::alloc::AllocError;

/// Takes back what was appended to a text of this length, where memory ran out before it was whole, and answers as the
/// appending did.
pub fn whole_or_none(
    out: &mut String,
    len: usize,
    appended: Result<(), AllocError>,
) -> Result<(), AllocError>
    requires { IsSplitPoint (string_bytes out.old) len }
    ensures same { result ≡ appended }
    ensures ok { OnOk appended (string_bytes out.new ≡ string_bytes out.old) }
    ensures err { OnErr appended (string_bytes out.new ≡ take len (string_bytes out.old)) }
{
    if appended.is_err() {
        out.truncate(len);
    }
    appended
}

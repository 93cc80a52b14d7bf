// Reading numbers.
ghost use Rattle.std.specs.Prelude.{◌≡◌, ◌<◌, true, List, length, IfOk};
ghost use Rattle.std.specs.Str.{IsUtf8};
ghost use Rattle.asl_json_data.specs.Data.{number};
ghost use Rattle.asl_json_scan.specs.Open.{Frame};
ghost use Rattle.asl_json_scan.specs.private.Machine.{value, after, run};
ghost use Rattle.asl_json_scan.specs.private.Leads.{Leads, begins};

use asl_json::Dec;
use asl_json_scan::{Fault, Kind, Stop, as_text, is_past, number_len};

/// The number that stands in front, and what follows it.
pub(crate) fn number(bytes: &[u8]) -> Result<(Dec, &[u8]), Stop>
    requires utf8 { IsUtf8 bytes.now }
    requires begins { begins bytes.now ≡ true }
    ensures run { (st : List Frame)
        → Leads (λ x. run true (after (number x.0)) st x.1.now) result
        (run true value st bytes.now) }
    ensures shorter { IfOk result (λ x. length x.1.now < length bytes.now) }
    ensures utf8 { IfOk result (λ x. IsUtf8 x.1.now) }
{
    let (end, part) = number_len(bytes)?;
    if is_past(&bytes[..end], part) {
        return Err(Stop::Fault(Fault {
            kind: Kind::Number,
            left: bytes.len(),
        }));
    }
    let text = as_text(&bytes[..end]);
    Ok((Dec::of_number(text), &bytes[end..]))
}

// The moment of a timestamp.
ghost use Rattle.std.specs.Prelude.{◌≡◌, ◌≤◌, ◌<◌, ◌↔◌, ℕ, List, IfSome, pos, ◌+ℤ◌, ◌-ℤ◌, ◌*ℤ◌};
ghost use Rattle.jiff_core.specs.Calendar.{IsWithin};
ghost use Rattle.asl_time.specs.Timestamp.{IsTimestamp};
ghost use Rattle.asl_time.specs.Fields.{moment_in};

use crate::calendar::{read_date, read_time};
use crate::fraction::read_fraction;
use crate::moment::Moment;
use crate::offset::read_offset;
use jiff_core::civil::DateTime;

/// The moment so many seconds and thousandths after 1970-01-01T00:00:00 on a clock that stands so many minutes
/// ahead of UTC, where there is one.
fn moment_at(local: i64, ahead: i64, thousandths: u32) -> Option<Moment>
    requires local_in { IsWithin 1_000_000_000_000 local }
    requires ahead_in { IsWithin 1440 ahead }
    requires thousandths_in { thousandths ≤ 1000 }
    ensures found { IfSome result
        (λ m. pos m ≡ (local -ℤ ahead *ℤ pos 60) *ℤ pos 1000 +ℤ pos thousandths) }
    ensures bound { IfSome result (λ m. m ≤ Moment.LAST_MILLIS) }
    ensures only { (m : ℕ) → m ≤ Moment.LAST_MILLIS
        → pos m ≡ (local -ℤ ahead *ℤ pos 60) *ℤ pos 1000 +ℤ pos thousandths → result ≡ Some m }
{
    let millis = (local - ahead * 60) * 1000 + i64::from(thousandths);
    if millis < 0 {
        return None;
    }
    Moment::of_millis(millis as u64)
}

/// The moment of a timestamp, rounded up to the millisecond, and `None` for every other text.
///
/// A timestamp is a date-time of RFC 3339, section 5.6: `YYYY-MM-DDThh:mm:ss`, then a fraction of one digit or more
/// behind a point, or none, then `Z` or an offset from UTC, `+hh:mm` or `-hh:mm`. `T` and `Z` are upper case, as the
/// Amazon States Language asks; seconds go to 59, hours of an offset to 23. A text whose moment, so rounded, is
/// before 1970 or after 9999 in UTC has none.
pub fn read_stamp(text: &str) -> Option<Moment>
    ensures found { IfSome result (IsTimestamp text.now) }
    // No other moment, and `None` only where there is none.
    ensures only { (m : ℕ) → IsTimestamp text.now m → result ≡ Some m }
    // It is the moment of the fields at their places.
    ensures value { result ≡ moment_in text.now }
{
    let (date, rest) = read_date(text.as_bytes())?;
    let (time, rest) = read_time(rest)?;
    let (thousandths, rest) = read_fraction(rest)?;
    let ahead = read_offset(rest)?;
    let local = DateTime { date, time };
    moment_at(local.to_second(), ahead, thousandths)
}

/// A text is a timestamp of the moment that the fields at their places come to, and of no other. The law has no code.
pub fn a_text_has_the_moment_of_its_fields()
    ensures { (t : List ℕ) (m : ℕ) → IsTimestamp t m ↔ (moment_in t ≡ Some m) }
{}

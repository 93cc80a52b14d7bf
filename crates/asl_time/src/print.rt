// The text of a moment.
ghost use Rattle.std.specs.Prelude.{◌≡◌, List, ℕ, ◌≤◌, ◌<◌, ◌++◌, ◌*ℤ◌, IfOk, OnOk, OnErr, string_bytes, IsAscii, pos, ◌+◌, ◌%◌};
ghost use Rattle.jiff.specs.Words.{civil_nanos};
ghost use Rattle.asl_time.specs.Stamp.{spelled, HasForm, IsStampOf};
ghost use Rattle.asl_time.specs.StampText.{stamp_of};
ghost use Rattle.asl_time.specs.Timestamp.{IsTimestamp};

use crate::moment::Moment;
use jiff_core::civil::DateTime;
use std::alloc::{AllocError, Global};
use std::fmt;

/// The last decimal digit of a number, as its ASCII code.
fn digit(number: u32) -> u8
    ensures value { result ≡ 48 + number % 10 }
    ensures ascii { result < 128 }
{
    b'0' + (number % 10) as u8
}

/// What calendar and clock show at a moment, in UTC.
fn shown(moment: Moment) -> DateTime
    ensures value { civil_nanos result ≡ pos moment *ℤ pos 1_000_000 }
    ensures bound { moment ≤ Moment.LAST_MILLIS }
{
    DateTime::from_nanosecond_in_range(i128::from(moment.millis()) * 1_000_000)
}

/// The text of what calendar and clock show, as bytes.
#[tactic(auto, unfolding(crate::specs::Stamp::digits))]
fn bytes_of(shown: DateTime) -> [u8; 24]
    ensures value { result ≡ spelled shown }
    ensures ascii { IsAscii result }
{
    let (date, time) = (shown.date, shown.time);
    let year = u32::from(date.year.unsigned_abs());
    let (month, day) = (u32::from(date.month), u32::from(date.day));
    let (hour, minute, second) = (
        u32::from(time.hour),
        u32::from(time.minute),
        u32::from(time.second),
    );
    let milli = time.subsec_nanosecond / 1_000_000;
    [
        digit(year / 10 / 10 / 10),
        digit(year / 10 / 10),
        digit(year / 10),
        digit(year),
        b'-',
        digit(month / 10),
        digit(month),
        b'-',
        digit(day / 10),
        digit(day),
        b'T',
        digit(hour / 10),
        digit(hour),
        b':',
        digit(minute / 10),
        digit(minute),
        b':',
        digit(second / 10),
        digit(second),
        b'.',
        digit(milli / 10 / 10),
        digit(milli / 10),
        digit(milli),
        b'Z',
    ]
}

/// Appends the text of what calendar and clock show. The error is that memory ran out, and then nothing is appended.
fn put_shown(out: &mut String, shown: DateTime) -> Result<(), AllocError>
    ensures ok { OnOk result (string_bytes out.new ≡ string_bytes out.old ++ spelled shown) }
    ensures err { OnErr result (string_bytes out.new ≡ string_bytes out.old) }
{
    let bytes = bytes_of(shown);
    let Ok(text) = str::from_utf8(&bytes) else {
        unreachable!();
    };
    out.push_str(text)
}

/// The text of what calendar and clock show.
fn spell(alloc: Global, shown: DateTime) -> Result<String, AllocError>
    ensures { IfOk result (λ text. string_bytes text ≡ spelled shown) }
{
    let mut out = String::new(alloc);
    put_shown(&mut out, shown)?;
    Ok(out)
}

/// Appends the text of a moment, as `print_stamp` gives it. The error is that memory ran out, and then nothing is appended.
pub fn put_stamp(out: &mut String, moment: Moment) -> Result<(), AllocError>
    ensures ok { OnOk result (string_bytes out.new ≡ string_bytes out.old ++ stamp_of moment) }
    ensures err { OnErr result (string_bytes out.new ≡ string_bytes out.old) }
{
    put_shown(out, shown(moment))
}

/// The text of a moment in UTC, to the millisecond, as `2024-01-01T00:00:00.000Z`: 24 bytes.
///
/// `read_stamp` reads the moment back from it.
pub fn print_stamp(alloc: Global, moment: Moment) -> Result<String, AllocError>
    ensures text { IfOk result (λ t. IsStampOf moment (string_bytes t)) }
    ensures stamp { IfOk result (λ t. string_bytes t ≡ stamp_of moment) }
    // It reads back.
    ensures back { IfOk result (λ t. IsTimestamp (string_bytes t) moment) }
    // There is no other.
    ensures one { IfOk result (λ t. (u : List ℕ) → IsStampOf moment u → u ≡ string_bytes t) }
    // It has the form, and no other text of the form reads back as the moment.
    ensures form { IfOk result (λ t. HasForm (string_bytes t)) }
    ensures only { IfOk result (λ t. (u : List ℕ) → HasForm u → IsTimestamp u moment
        → u ≡ string_bytes t) }
{
    spell(alloc, shown(moment))
}

/// The text of a moment as bytes, as `print_stamp` gives it.
fn stamp(moment: Moment) -> [u8; 24]
    ensures value { result ≡ stamp_of moment }
    ensures ascii { IsAscii result }
{
    bytes_of(shown(moment))
}

/// As `print_stamp` gives it.
impl fmt::Display for Moment {
    ghost use Rattle.std.specs.Prelude.{Some};

    ghost output = { λ moment. Some (stamp_of moment) };

    fn fmt<W: fmt::Write>(&self, f: &mut fmt::Formatter<W>) -> fmt::Result {
        let bytes = stamp(*self);
        let Ok(text) = str::from_utf8(&bytes) else {
            unreachable!();
        };
        f.write_str(text)
    }
}

/// The text of each moment, computed from its day, is what calendar and clock show at that moment. The law has no code.
pub fn stamps_show_their_moments()
    ensures { (moment : ℕ) → moment ≤ 253402300799999 → IsStampOf moment (stamp_of moment) }
{}

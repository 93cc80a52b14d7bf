// Dates and times of day at the front of a text.
ghost use Rattle.std.specs.Prelude.{◌≡◌, ◌≤◌, ◌<◌, ◌+◌, ◌^◌, ℕ, List, IfSome, IfNone, pos};
ghost use Rattle.jiff_core.specs.declared.civil.date.Date.{Date};
ghost use Rattle.jiff_core.specs.declared.civil.time.Time.{Time};
ghost use Rattle.asl_time.specs.private.Parts.{BeginsWithDate, BeginsWithTime};

use crate::digits::{read_digits, read_two};
use jiff_core::civil::{Date, Time};

/// The date with this year, month and day, where the calendar has it.
fn date_of(year: u32, month: u32, day: u32) -> Option<Date>
    requires year_in { year < 10_000 }
    requires month_in { month < 100 }
    requires day_in { day < 100 }
    ensures found { IfSome result (λ date.
        (date.year ≡ pos year) × (date.month ≡ month) × (date.day ≡ day)) }
    ensures none { IfNone result ((date : Date)
        → date.year ≡ pos year → date.month ≡ month → date.day ≡ day → ⊥) }
{
    Date::new(year as i16, month as i8, day as i8).ok()
}

/// The time on a clock with these whole seconds, where a clock shows them.
fn time_of(hour: u32, minute: u32, second: u32) -> Option<Time>
    requires hour_in { hour < 100 }
    requires minute_in { minute < 100 }
    requires second_in { second < 100 }
    ensures found { IfSome result (λ time.
        (time.hour ≡ hour) × (time.minute ≡ minute) × (time.second ≡ second)) }
    ensures none { IfNone result ((time : Time)
        → time.hour ≡ hour → time.minute ≡ minute → time.second ≡ second → ⊥) }
{
    Time::new(hour as i8, minute as i8, second as i8, 0).ok()
}

/// A date from year 0 on, as `2024-01-31`, and what follows it.
pub(crate) fn read_date(bytes: &[u8]) -> Option<(Date, &[u8])>
    ensures found { IfSome result (λ x. BeginsWithDate bytes.now x.0 x.1.now) }
    ensures none { IfNone result
        ((date : Date) (rest : List ℕ) → BeginsWithDate bytes.now date rest → ⊥) }
{
    let (year, rest) = read_digits(bytes, 4)?;
    let (month, rest) = read_two(rest, b'-')?;
    let (day, rest) = read_two(rest, b'-')?;
    let date = date_of(year, month, day)?;
    Some((date, rest))
}

/// What a clock shows in whole seconds, as `T23:59:00`, and what follows it.
pub(crate) fn read_time(bytes: &[u8]) -> Option<(Time, &[u8])>
    ensures found { IfSome result (λ x. BeginsWithTime bytes.now x.0 x.1.now) }
    ensures none { IfNone result
        ((time : Time) (rest : List ℕ) → BeginsWithTime bytes.now time rest → ⊥) }
{
    let (hour, rest) = read_two(bytes, b'T')?;
    let (minute, rest) = read_two(rest, b':')?;
    let (second, rest) = read_two(rest, b':')?;
    let time = time_of(hour, minute, second)?;
    Some((time, rest))
}

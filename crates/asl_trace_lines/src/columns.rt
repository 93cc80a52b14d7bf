// Times and columns.
ghost use Rattle.std.specs.Prelude.{◌≡◌, ◌++◌, ◌-◌, IfOk, OnOk, string_bytes};
ghost use Rattle.asl_trace_lines.specs.Columns.{two, three, seconds, minutes, elapsed, spaces, padded, place_column, lead, under, state_column, ended};

use asl_history::Place;
use asl_time::Moment;
use std::alloc::{AllocError, Global};

/// The milliseconds of an hour.
const HOUR: u64 = 3_600_000;

fn put_two(out: &mut String, n: u64) -> Result<(), AllocError>
    ensures { OnOk result (string_bytes out.new ≡ string_bytes out.old ++ two n) }
{
    write!(out, "{}{}", n / 10 % 10, n % 10)
}

fn put_three(out: &mut String, n: u64) -> Result<(), AllocError>
    ensures { OnOk result (string_bytes out.new ≡ string_bytes out.old ++ three n) }
{
    write!(out, "{}", n / 100 % 10)?;
    put_two(out, n)
}

fn put_seconds(out: &mut String, n: u64) -> Result<(), AllocError>
    ensures { OnOk result (string_bytes out.new ≡ string_bytes out.old ++ seconds n) }
{
    out.push(':')?;
    put_two(out, n / 1000 % 60)?;
    out.push('.')?;
    put_three(out, n)
}

fn put_minutes(out: &mut String, n: u64) -> Result<(), AllocError>
    ensures { OnOk result (string_bytes out.new ≡ string_bytes out.old ++ minutes n) }
{
    put_two(out, n / 60_000 % 60)?;
    put_seconds(out, n)
}

fn put_elapsed(out: &mut String, n: u64) -> Result<(), AllocError>
    ensures { OnOk result (string_bytes out.new ≡ string_bytes out.old ++ elapsed n) }
{
    if n < HOUR {
        return put_minutes(out, n);
    }
    write!(out, "{}:", n / HOUR)?;
    put_minutes(out, n)
}

/// Appends the time from the start to a moment.
pub(crate) fn put_since(out: &mut String, start: Moment, moment: Moment) -> Result<(), AllocError>
    ensures { OnOk result (string_bytes out.new
        ≡ string_bytes out.old ++ elapsed (moment - start)) }
{
    put_elapsed(out, moment.millis().saturating_sub(start.millis()))
}

fn put_spaces(out: &mut String, n: usize) -> Result<(), AllocError>
    ensures { OnOk result (string_bytes out.new ≡ string_bytes out.old ++ spaces n) }
{
    for _ in 0..n {
        out.push(' ')?;
    }
    Ok(())
}

/// Appends a text in a column of so many bytes; a longer one is as long as it is. The error is that memory ran out.
pub fn put_padded(out: &mut String, width: usize, text: &str) -> Result<(), AllocError>
    ensures { OnOk result (string_bytes out.new ≡ string_bytes out.old ++ padded width text.now) }
{
    out.push_str(text)?;
    put_spaces(out, width.saturating_sub(text.len()))
}

fn put_place(alloc: Global, out: &mut String, place: &Place) -> Result<(), AllocError>
    ensures { OnOk result (string_bytes out.new ≡ string_bytes out.old ++ place_column place.now) }
{
    let text = place.write(alloc)?;
    put_padded(out, 4, text.as_str())?;
    out.push(' ')?;
    put_spaces(out, 2 * place.numbers().len())
}

/// Appends the time since the start, and a place.
pub(crate) fn put_lead(
    alloc: Global,
    out: &mut String,
    start: Moment,
    now: Moment,
    place: &Place,
) -> Result<(), AllocError>
    ensures { OnOk result (string_bytes out.new ≡ string_bytes out.old ++ lead start now place.now) }
{
    put_since(out, start, now)?;
    out.push(' ')?;
    put_place(alloc, out, place)
}

/// What stands before a line that belongs to the one of this place. The error is that memory ran out.
pub fn under(alloc: Global, place: &Place) -> Result<String, AllocError>
    ensures { IfOk result (λ t. string_bytes t ≡ under place.now) }
{
    let mut out = String::new(alloc);
    put_spaces(&mut out, 17 + 2 * place.numbers().len())?;
    Ok(out)
}

/// Appends what stands behind a place, in a column that ends at the same byte at every place.
pub(crate) fn put_state_column(
    out: &mut String,
    place: &Place,
    text: &str,
) -> Result<(), AllocError>
    ensures { OnOk result (string_bytes out.new
        ≡ string_bytes out.old ++ state_column place.now text.now) }
{
    let indented = 2 * place.numbers().len();
    put_padded(out, 30_usize.saturating_sub(indented), text)
}

/// Appends two columns, of which the second may be empty.
pub(crate) fn put_ended(out: &mut String, first: &str, second: &str) -> Result<(), AllocError>
    ensures { OnOk result (string_bytes out.new
        ≡ string_bytes out.old ++ ended first.now second.now) }
{
    if second.is_empty() {
        return out.push_str(first);
    }
    put_padded(out, 24, first)?;
    out.push(' ')?;
    out.push_str(second)
}

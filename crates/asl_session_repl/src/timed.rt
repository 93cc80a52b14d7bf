// Moments and steps as they are typed.
ghost use Rattle.std.specs.Prelude.{◌≡◌, ◌≤◌, ◌∷◌, ◌++◌, List, ℕ, Option, Some, None, IfOk, IfSome, IsSomeAnd};
ghost use Rattle.std.specs.List.{list_all};
ghost use Rattle.asl_session_repl.specs.declared.timed.When.{When};
ghost use Rattle.asl_session_repl.specs.declared.timed.Timed.{Timed};
ghost use Rattle.asl_session_repl.specs.Moments.{unit_millis, IsSpan, is_clock_byte, below_60, millis_of, hours_in, clock_by, clock_in, IsWhen, IsTimed, IsStepText, AreSteps};

use asl_history::Place;
use asl_session::{read_count, read_place};
use asl_time::{Moment, read_stamp};
use std::alloc::{AllocError, Global};
use std::str;

/// A moment as it is typed.
#[derive(Clone, Copy)]
pub enum When {
    /// This one.
    At(Moment),
    /// So many milliseconds after the last moment.
    After(u64),
    /// So many milliseconds after the start.
    Since(u64),
}

/// A step as it is typed.
pub struct Timed {
    /// The place of the branch that steps.
    pub place: Place,
    /// Its moment.
    pub when: When,
}

// Written out, so that a caller's proof sees one call and not the drop of each part.
impl Drop for Timed {
    fn drop(self) {
        let Timed {
            place: _place,
            when: _when,
        } = self;
    }
}

/// The milliseconds of a unit.
fn unit_millis(unit: u8) -> Option<u64>
    ensures size { result ≡ unit_millis unit }
    ensures bound { IfSome result (λ n. n ≤ 86_400_000) }
{
    match unit {
        b's' => Some(1_000),
        b'm' => Some(60_000),
        b'h' => Some(3_600_000),
        b'd' => Some(86_400_000),
        _ => None,
    }
}

/// The milliseconds that a plus sign, a number and a unit spell.
fn read_span(text: &[u8]) -> Option<u64>
    ensures found { IfSome result (IsSpan text.now) }
    ensures only { (n : ℕ) → IsSpan text.now n → result ≡ Some n }
{
    let Some((sign, rest)) = text.split_first() else {
        return None;
    };
    let Some((unit, digits)) = rest.split_last() else {
        return None;
    };
    if *sign != b'+' {
        return None;
    }
    let Some(size) = unit_millis(*unit) else {
        return None;
    };
    let Some(count) = read_count(digits) else {
        return None;
    };
    Some(u64::from(count) * size)
}

/// Whether these bytes are digits, colons and points.
fn are_clock_bytes(text: &[u8]) -> bool
    ensures { result ≡ list_all is_clock_byte text.now }
{
    for byte in text {
        if *byte != b':' && *byte != b'.' && (*byte < b'0' || *byte > b'9') {
            return false;
        }
    }
    true
}

/// A number below 60.
fn below_60(number: Option<u32>) -> Option<u32>
    ensures { result ≡ below_60 number }
{
    match number {
        Some(number) if number < 60 => Some(number),
        _ => None,
    }
}

/// The hours before a colon; none of them, where nothing stands there.
fn read_hours(text: &[u8]) -> Option<u32>
    ensures { result ≡ hours_in text.now }
{
    if text.is_empty() {
        return Some(0);
    }
    let last = text.len() - 1;
    if text[last] != b':' {
        return None;
    }
    read_count(&text[..last])
}

/// So many milliseconds have hours, minutes, seconds and milliseconds.
fn millis_of(
    hours: Option<u32>,
    minutes: Option<u32>,
    seconds: Option<u32>,
    millis: Option<u32>,
) -> Option<u64>
    ensures { result ≡ millis_of hours minutes seconds millis }
{
    match (hours, minutes, seconds, millis) {
        (Some(hours), Some(minutes), Some(seconds), Some(millis)) => Some(
            u64::from(hours) * 3_600_000
                + u64::from(minutes) * 60_000
                + u64::from(seconds) * 1_000
                + u64::from(millis),
        ),
        _ => None,
    }
}

/// The milliseconds of minutes, seconds and milliseconds, behind hours.
fn read_clock_by(front: &[u8], text: &[u8]) -> Option<u64>
    ensures { result ≡ clock_by front.now text.now }
{
    if text.len() != 9 || text[2] != b':' || text[5] != b'.' {
        return None;
    }
    let minutes = below_60(read_count(&text[..2]));
    let seconds = below_60(read_count(&text[3..5]));
    millis_of(read_hours(front), minutes, seconds, read_count(&text[6..]))
}

/// The milliseconds since the start that a text tells, as `00:05.000`.
fn read_clock(text: &[u8]) -> Option<u64>
    ensures { result ≡ clock_in text.now }
{
    if !are_clock_bytes(text) {
        return None;
    }
    let front = text.len().saturating_sub(9);
    read_clock_by(&text[..front], &text[front..])
}

/// The moment that a text names.
fn read_when(text: &str) -> Option<When>
    ensures found { IfSome result (IsWhen text.now) }
    ensures only { (w : When) → IsWhen text.now w → result ≡ Some w }
{
    if let Some(millis) = read_span(text.as_bytes()) {
        return Some(When::After(millis));
    }
    if let Some(millis) = read_clock(text.as_bytes()) {
        return Some(When::Since(millis));
    }
    match read_stamp(text) {
        Some(moment) => Some(When::At(moment)),
        None => None,
    }
}

/// The same of bytes.
pub(crate) fn read_moment(text: &[u8]) -> Option<When>
    ensures found { IfSome result (IsWhen text.now) }
    ensures only { (w : When) → IsWhen text.now w → result ≡ Some w }
{
    let Ok(text) = str::from_utf8(text) else {
        return None;
    };
    read_when(text)
}

/// The step that a text names with its moment. The error is that memory ran out.
fn read_timed(alloc: Global, text: &[u8]) -> Result<Option<Timed>, AllocError>
    ensures found { IfOk result (λ o. IfSome o (IsTimed text.now)) }
    ensures only { IfOk result (λ o. (a : Timed) → IsTimed text.now a → o ≡ Some a) }
{
    let Ok(text) = str::from_utf8(text) else {
        return Ok(None);
    };
    let Some((place, moment)) = text.split_once(' ') else {
        return Ok(None);
    };
    let Some(when) = read_when(moment) else {
        return Ok(None);
    };
    let Some(place) = Place::read(alloc, place)? else {
        return Ok(None);
    };
    // That each number is below 10^9.
    let _bound = place.numbers();
    Ok(Some(Timed { place, when }))
}

/// The step that a text names, with its moment or without. The error is that memory ran out.
pub(crate) fn read_step_text(
    alloc: Global,
    text: &[u8],
) -> Result<Option<(Place, Option<When>)>, AllocError>
    ensures found { IfOk result (λ o. IfSome o (λ x. IsStepText text.now x.0 x.1)) }
    ensures only { IfOk result (λ o. (p : List ℕ) (w : Option When) → IsStepText text.now p w
        → o ≡ Some (p, w)) }
{
    if let Some(timed) = read_timed(alloc, text)? {
        return Ok(Some((timed.place.try_clone()?, Some(timed.when))));
    }
    match read_place(alloc, text)? {
        Some(place) => Ok(Some((place, None))),
        None => Ok(None),
    }
}

/// The two parts of a text around its second space.
fn halves(text: &str) -> Option<(&[u8], &[u8])>
    ensures found { IfSome result (λ x. text.now ≡ x.0.now ++ 32 ∷ x.1.now) }
    ensures only { (a b : Timed) (h : AreSteps text.now a b)
        → IsSomeAnd result (λ x. (x.0.now ≡ h.one) × (x.1.now ≡ h.other)) }
{
    let Some((place, rest)) = text.split_once(' ') else {
        return None;
    };
    let Some((moment, other)) = rest.split_once(' ') else {
        return None;
    };
    let end = place.len() + 1 + moment.len();
    Some((&text.as_bytes()[..end], other.as_bytes()))
}

/// The two steps that a text names. The error is that memory ran out.
pub(crate) fn read_steps(alloc: Global, text: &[u8]) -> Result<Option<(Timed, Timed)>, AllocError>
    ensures found { IfOk result (λ o. IfSome o (λ x. AreSteps text.now x.0 x.1)) }
    ensures only { IfOk result (λ o. (a b : Timed) → AreSteps text.now a b → o ≡ Some (a, b)) }
{
    let Ok(text) = str::from_utf8(text) else {
        return Ok(None);
    };
    let Some((one, other)) = halves(text) else {
        return Ok(None);
    };
    let Some(one) = read_timed(alloc, one)? else {
        return Ok(None);
    };
    let Some(other) = read_timed(alloc, other)? else {
        return Ok(None);
    };
    Ok(Some((one, other)))
}

// The offset from UTC at the end of a text.
ghost use Rattle.std.specs.Prelude.{◌≡◌, ◌<◌, ℕ, ℤ, List, ◌∷◌, [], IfSome, IfNone};
ghost use Rattle.jiff_core.specs.Calendar.{IsWithin};
ghost use Rattle.asl_time.specs.Timestamp.{IsOffset, IsNumericOffset};

use crate::digits::read_two;

/// The minutes of an offset behind its sign, where the text ends with it.
fn read_signed(bytes: &[u8], sign: u8) -> Option<u32>
    ensures found { IfSome result (λ minutes. IsNumericOffset (sign ∷ []) minutes bytes.now) }
    ensures bound { IfSome result (λ minutes. minutes < 1440) }
    ensures none { IfNone result
        ((minutes : ℕ) → IsNumericOffset (sign ∷ []) minutes bytes.now → ⊥) }
{
    let (hour, rest) = read_two(bytes, sign)?;
    let (minute, rest) = read_two(rest, b':')?;
    if hour > 23 || minute > 59 || !rest.is_empty() {
        return None;
    }
    Some(hour * 60 + minute)
}

/// How many minutes clocks stand ahead of UTC, where the text is such an offset and nothing else.
pub(crate) fn read_offset(bytes: &[u8]) -> Option<i64>
    ensures found { IfSome result (λ ahead. IsOffset ahead bytes.now) }
    ensures bound { IfSome result (λ ahead. IsWithin 1440 ahead) }
    ensures none { IfNone result ((ahead : ℤ) → IsOffset ahead bytes.now → ⊥) }
{
    if bytes == b"Z".as_slice() {
        return Some(0);
    }
    if let Some(minutes) = read_signed(bytes, b'+') {
        return Some(i64::from(minutes));
    }
    let minutes = read_signed(bytes, b'-')?;
    Some(-i64::from(minutes))
}

// What stands in front of the rest of a rule. Each function stands for a stretch of the run over a rule.
ghost use Rattle.std.specs.Prelude.{◌≡◌, ◌≤◌, ◌<◌, ◌==◌, cond, true, List, ℕ, length, Err, IfOk, IfSome, IfNone};
ghost use Rattle.std.specs.Str.{IsUtf8};
ghost use Rattle.asl_json_data.specs.Number.{is_digit};
ghost use Rattle.asl_rules.specs.declared.atom.Task.{Task};
ghost use Rattle.asl_rules.specs.declared.atom.Atom.TheVariants.{Returned};
ghost use Rattle.asl_rules.specs.private.Steps.{Wants, Context, Mode, between, spelled, in_wants, go, stop, at_end, run, count, closing, grown};
ghost use Rattle.asl_rules.specs.private.Leads.{Leads, are_ascii, DigitFirst, NoDigitFirst};

use asl_json_scan::{Stop, after_byte, first_byte, skip_spaces, syntax};

/// The greatest number of invocations.
const MAX_COUNT: u64 = 4_294_967_295;

/// What follows the letters of a word.
pub(crate) fn letters<'a>(bytes: &'a [u8], expected: &[u8]) -> Result<&'a [u8], Stop>
    requires utf8 { IsUtf8 bytes.now }
    requires ascii { are_ascii expected.now ≡ true }
    ensures run { (ts : List Task) (w : Wants) (k : Context)
        → Leads (λ x. run ts (between w) k x.now) result (run ts (spelled expected.now w) k bytes.now) }
    ensures shorter { IfOk result (λ x. length x.now ≤ length bytes.now) }
    ensures utf8 { IfOk result (λ x. IsUtf8 x.now) }
{
    let mut rest = bytes;
    for letter in expected {
        let Some(next) = after_byte(rest, *letter) else {
            return Err(syntax(rest));
        };
        rest = next;
    }
    Ok(rest)
}

/// What follows a sign, in front of which spaces may stand.
pub(crate) fn sign(bytes: &[u8], byte: u8) -> Result<&[u8], Stop>
    requires utf8 { IsUtf8 bytes.now }
    requires ascii { byte < 128 }
    ensures run { (ts : List Task) (w : Wants) (k : Context) (m : Mode) (j : Context)
        → ((left c : ℕ) → in_wants left w k c ≡ cond (c == byte) (go m j) stop)
        → at_end (between w) k ≡ Err 0
        → Leads (λ x. run ts m j x.now) result (run ts (between w) k bytes.now) }
    ensures shorter { IfOk result (λ x. length x.now < length bytes.now) }
    ensures utf8 { IfOk result (λ x. IsUtf8 x.now) }
{
    let rest = skip_spaces(bytes);
    let Some(behind) = after_byte(rest, byte) else {
        return Err(syntax(rest));
    };
    Ok(behind)
}

/// The value of the digit in front, and what follows it.
#[tactic(auto, unfolding(asl_json_data::specs::Number::is_digit))]
fn digit(bytes: &[u8]) -> Option<(u32, &[u8])>
    ensures found { IfSome result (λ x. DigitFirst bytes.now x.0 x.1.now) }
    ensures none { IfNone result (NoDigitFirst bytes.now) }
    ensures utf8 { IfSome result (λ x. IsUtf8 bytes.now → IsUtf8 x.1.now) }
{
    let (first, rest) = first_byte(bytes)?;
    if first >= b'0' && first <= b'9' {
        Some((u32::from(first - b'0'), rest))
    } else {
        None
    }
}

/// A number with one more digit, where it may have one.
#[tactic(auto, unfolding(crate::specs::private::Steps::grown))]
fn grown(number: u32, digit: u32) -> Option<u32>
    requires { digit < 10 }
    ensures { result ≡ grown number digit }
{
    let more = u64::from(number) * 10 + u64::from(digit);
    if number == 0 || more > MAX_COUNT {
        None
    } else {
        Some(more as u32)
    }
}

/// A whole number in decimal of at most 4294967295, and what follows it. Nought alone begins with a nought.
pub(crate) fn count(bytes: &[u8]) -> Result<(u32, &[u8]), Stop>
    requires utf8 { IsUtf8 bytes.now }
    ensures run { (ts : List Task) (t : Task) (k : Context)
        → Leads (λ x. run ts (between (closing (Returned t x.0))) k x.1.now) result (run ts (between (count t)) k bytes.now) }
    ensures shorter { IfOk result (λ x. length x.1.now < length bytes.now) }
    ensures utf8 { IfOk result (λ x. IsUtf8 x.1.now) }
{
    let rest = skip_spaces(bytes);
    let Some((first, behind)) = digit(rest) else {
        return Err(syntax(rest));
    };
    let mut number = first;
    let mut rest = behind;
    while let Some((next, behind)) = digit(rest) {
        let Some(more) = grown(number, next) else {
            return Err(syntax(rest));
        };
        number = more;
        rest = behind;
    }
    Ok((number, rest))
}

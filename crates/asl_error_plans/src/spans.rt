// The numbers of answers before and behind an error that is put in.
ghost use Rattle.std.specs.Prelude.{◌≡◌};
ghost use Rattle.asl_error_plans.specs.Spans.{before, behind, error_span};

use asl_mock::Span;

/// Those of these numbers that are below this one.
pub(crate) fn before(span: Span, number: u32) -> Option<Span>
    ensures { result ≡ before number span }
{
    if span.low >= number {
        return None;
    }
    let high = if span.high < number {
        span.high
    } else {
        number - 1
    };
    Some(Span {
        low: span.low,
        high,
    })
}

/// Those of these numbers that aren't below this one, each one later; none is above the greatest.
pub(crate) fn behind(span: Span, number: u32) -> Option<Span>
    ensures { result ≡ behind number span }
{
    let first = if span.low < number { number } else { span.low };
    if span.high < number || first == u32::MAX {
        return None;
    }
    let high = if span.high == u32::MAX {
        u32::MAX
    } else {
        span.high + 1
    };
    Some(Span {
        low: first + 1,
        high,
    })
}

/// The numbers that end in an error which is put in at this one.
pub(crate) fn error_span(number: u32, for_good: bool) -> Span
    ensures { result ≡ error_span number for_good }
{
    Span {
        low: number,
        high: if for_good { u32::MAX } else { number },
    }
}

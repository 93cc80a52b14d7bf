// Which numbers a response leaves out.
use asl_json::Member;
use asl_lint_messages::put_name;
use asl_mock::{Span, span_in};
use std::alloc::{AllocError, Global};

/// The most gaps of a response that are told.
const TOLD: usize = 3;

/// Adds numbers to those that stand in these spans, which are in order and apart.
fn unite(spans: &mut Vec<Span>, span: Span) -> Result<(), AllocError> {
    let begin = spans.partition_point(|other| other.high < span.low);
    let mut joined = span;
    while begin < spans.len() && spans[begin].low <= span.high {
        let other = spans.remove(begin);
        joined = Span {
            low: joined.low.min(other.low),
            high: joined.high.max(other.high),
        };
    }
    if begin <= spans.len() {
        spans.insert(begin, joined)?;
    }
    Ok(())
}

/// The numbers of these keys, in order and apart.
fn spans_of(alloc: Global, answers: &[Member]) -> Result<Vec<Span>, AllocError> {
    let mut spans = Vec::new(alloc);
    for member in answers {
        if let Some(span) = span_in(member.key.as_str()) {
            unite(&mut spans, span)?;
        }
    }
    Ok(spans)
}

fn put_numbers(out: &mut String, low: u32, high: u32) -> Result<(), AllocError> {
    if low == high {
        write!(out, "{low}")
    } else {
        write!(out, "{low} to {high}")
    }
}

fn put_gap(out: &mut String, number: usize, low: u32, high: u32) -> Result<(), AllocError> {
    if number > TOLD {
        return Ok(());
    }
    if number == TOLD {
        return out.push_str(", ..");
    }
    if number > 0 {
        out.push_str(", ")?;
    }
    put_numbers(out, low, high)
}

/// Appends which numbers below the last one have no answer in a response of this name. The error is that memory ran out.
pub(crate) fn put_gaps(
    alloc: Global,
    out: &mut String,
    name: &str,
    answers: &[Member],
) -> Result<(), AllocError> {
    out.push_str("the response ")?;
    put_name(out, name)?;
    out.push_str(" has no answer ")?;
    let mut next: u32 = 0;
    let mut gaps: usize = 0;
    for span in &spans_of(alloc, answers)? {
        if next < span.low {
            put_gap(out, gaps, next, span.low - 1)?;
            gaps = gaps.saturating_add(1);
        }
        next = span.high.saturating_add(1);
    }
    out.push_str(", and one of a higher number")
}

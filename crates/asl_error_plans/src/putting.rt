// An error in a response.
ghost use Rattle.std.specs.Prelude.{◌≡◌, ◌≤◌, ◌++◌, ℕ, IfOk, OnOk};
ghost use Rattle.std.specs.List.{flat_map};
ghost use Rattle.asl_mock.specs.Answers.{first_with};
ghost use Rattle.asl_error_plans.specs.Injected.{answer_put};
ghost use Rattle.asl_error_plans.specs.Spans.{part, earlier, later, put_in};

use crate::spans::{before, behind, error_span};
use asl_mock::{Answer, Ranged, Response, Span};
use std::alloc::{AllocError, Global};

/// Adds an answer for these numbers, if there are any.
fn add(
    alloc: Global,
    out: &mut Vec<Ranged>,
    span: Option<Span>,
    answer: &Answer,
) -> Result<(), AllocError>
    ensures { OnOk result (out.new.items ≡ out.old.items ++ part answer.now span) }
{
    if let Some(span) = span {
        let answer = answer.duplicate(alloc)?;
        out.push(Ranged { span, answer })?;
    }
    Ok(())
}

/// The answers of the numbers below this one. The error is that memory ran out.
fn earlier(alloc: Global, answers: &[Ranged], number: u32) -> Result<Vec<Ranged>, AllocError>
    ensures { IfOk result (λ v. v.items ≡ flat_map (earlier number) answers.now) }
{
    let mut out = Vec::new(alloc);
    for ranged in answers {
        add(alloc, &mut out, before(ranged.span, number), &ranged.answer)?;
    }
    Ok(out)
}

/// Adds the answers of the other numbers, each one later.
fn add_later(
    alloc: Global,
    out: Vec<Ranged>,
    answers: &[Ranged],
    number: u32,
) -> Result<Vec<Ranged>, AllocError>
    ensures { IfOk result (λ v. v.items ≡ out.items ++ flat_map (later number) answers.now) }
{
    let mut out = out;
    for ranged in answers {
        add(alloc, &mut out, behind(ranged.span, number), &ranged.answer)?;
    }
    Ok(out)
}

/// The answers with an error before that of this number. The error of this call is that memory ran out.
fn put_in(
    alloc: Global,
    answers: &[Ranged],
    number: u32,
    for_good: bool,
    error: &Answer,
) -> Result<Vec<Ranged>, AllocError>
    ensures { IfOk result (λ v. v.items ≡ put_in number for_good error.now answers.now) }
{
    let mut out = earlier(alloc, answers, number)?;
    out.push(Ranged {
        span: error_span(number, for_good),
        answer: error.duplicate(alloc)?,
    })?;
    if for_good {
        return Ok(out);
    }
    add_later(alloc, out, answers, number)
}

/// The response with an error before the answer of this number: the invocation of this number ends in it, and each later one gets the answer of the one
/// before it; for good, each later one ends in it, too. The error of this call is that memory ran out.
pub fn with_error(
    alloc: Global,
    response: &Response,
    number: u32,
    for_good: bool,
    error: &Answer,
) -> Result<Response, AllocError>
    ensures { IfOk result (λ r. (k : ℕ) → k ≤ 4_294_967_295
        → first_with k r ≡ answer_put number for_good error.now (λ j. first_with j response.now) k) }
{
    let answers = put_in(alloc, response.by_number(), number, for_good, error)?;
    Response::of_answers(alloc, answers)
}

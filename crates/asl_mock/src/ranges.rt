// Answers in the order of their numbers.
ghost use Rattle.std.specs.Prelude.{◌≡◌, ◌≤◌, ◌<◌, ℕ, IfOk, IfErr, length, slice_index_or, option_map};
ghost use Rattle.asl_json.specs.View.{data_of};
ghost use Rattle.asl_mock.specs.Key.{span_in};
ghost use Rattle.asl_mock.specs.Answers.{first_with, last_alike};
ghost use Rattle.asl_mock.specs.private.Apart.{AreApart, Meets, IsGap, Added};
ghost use Rattle.asl_mock.specs.declared.response.Ranged.{Ranged};

use crate::key::{Span, span_in};
use crate::response::{Answer, Ranged, answer_of};
use asl_json::Member;
use std::alloc::{AllocError, Global};

/// How many of these begin at the number or below it, by halving.
fn begun(answers: &[Ranged], number: u32) -> usize
    requires { AreApart answers.now }
    ensures within { result ≤ length answers.now }
    ensures below { (k : ℕ) (d : Ranged) → k < result
        → (slice_index_or answers.now k d).span.low ≤ number }
    ensures above { (k : ℕ) (d : Ranged) → result ≤ k → k < length answers.now
        → number < (slice_index_or answers.now k d).span.low }
{
    answers.partition_point(|ranged| ranged.span.low <= number)
}

/// The one of these that has a number of the span; else how many are below it, where it would stand.
fn spot(answers: &[Ranged], span: Span) -> Result<usize, usize>
    requires { AreApart answers.now }
    ensures met { IfOk result (Meets span answers.now) }
    ensures free { IfErr result (IsGap span answers.now) }
{
    let begun = begun(answers, span.high);
    if begun == 0 {
        return Err(0);
    }
    if answers[begun - 1].span.high < span.low {
        return Err(begun);
    }
    Ok(begun - 1)
}

/// The answer of this number. Its cost is the logarithm of how many there are.
pub(crate) fn answer_at(answers: &[Ranged], number: u32) -> Option<&Answer>
    requires { AreApart answers.now }
    ensures { option_map (λ a. a.now) result ≡ first_with number answers.now }
{
    let only = Span {
        low: number,
        high: number,
    };
    match spot(answers, only) {
        Ok(at) => Some(&answers[at].answer),
        Err(_) => None,
    }
}

/// The last number up to which each one from this one on has the same answer, or none has any. Its cost is the logarithm of how many answers
/// there are.
pub(crate) fn last_alike(answers: &[Ranged], number: u32) -> u32
    requires { AreApart answers.now }
    ensures { result ≡ last_alike number answers.now }
{
    let only = Span {
        low: number,
        high: number,
    };
    match spot(answers, only) {
        Ok(at) => answers[at].span.high,
        Err(at) => {
            if at < answers.len() {
                answers[at].span.low - 1
            } else {
                u32::MAX
            }
        }
    }
}

/// These answers with that of a member, and nothing where its key has a number of another. A key that stands for no numbers adds
/// none. The error is that memory ran out.
pub(crate) fn added(
    alloc: Global,
    answers: Vec<Ranged>,
    member: &Member,
) -> Result<Option<Vec<Ranged>>, AllocError>
    requires { AreApart answers.items }
    ensures { IfOk result (Added (span_in member.now.key) (data_of member.now.value)
        answers.items) }
{
    let mut answers = answers;
    let Some(span) = span_in(member.key.as_str()) else {
        return Ok(Some(answers));
    };
    let Err(at) = spot(&answers, span) else {
        return Ok(None);
    };
    let answer = answer_of(alloc, &member.value)?;
    answers.insert(at, Ranged { span, answer })?;
    Ok(Some(answers))
}

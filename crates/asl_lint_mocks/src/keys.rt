// The keys of answers: those that stand for no numbers, those with a number of another, and numbers that have no answer.
ghost use Rattle.std.specs.Prelude.{◌≡◌, ◌<◌, [], ℕ, true, IfOk};
ghost use Rattle.std.specs.List.{list_any};
ghost use Rattle.asl_json.specs.View.{data_of, member_of, members_of};
ghost use Rattle.asl_mock.specs.Key.{span_in};
ghost use Rattle.asl_mock.specs.Places.{in_each};
ghost use Rattle.asl_json.specs.Access.{member_list};
ghost use Rattle.asl_mock.specs.Faults.{bad_key, bad_keys_in, have_a_number, meets, is_apart, overlaps_behind, overlaps_in};
ghost use Rattle.asl_lint_mocks.specs.Places.{AreAt, numbers_of};
ghost use Rattle.asl_lint_mocks.specs.Warnings.{has_number, is_answered, begins_bare, has_gap, gap_in, gaps};
ghost use Rattle.asl_lint_mocks.specs.private.Tops.{IsTop, raised, reached};

use crate::placing::{add_under, under_key, unless};
use asl_json::{Json, Member};
use asl_mock::{Span, span_in};
use std::alloc::{AllocError, Global};

/// The keys of a response that stand for no numbers.
fn bad_keys(alloc: Global, answers: &[Member]) -> Result<Vec<Vec<usize>>, AllocError>
    ensures { IfOk result (λ r. AreAt (members_of answers.now) (numbers_of r.items)
        (in_each bad_key (members_of answers.now))) }
{
    let mut all = Vec::new(alloc);
    for (i, member) in answers.iter().enumerate() {
        let own = unless(alloc, span_in(member.key.as_str()).is_some())?;
        add_under(alloc, &mut all, i, own)?;
    }
    Ok(all)
}

/// Those of all responses.
pub(crate) fn all_bad_keys(
    alloc: Global,
    responses: &[Member],
) -> Result<Vec<Vec<usize>>, AllocError>
    ensures { IfOk result (λ r. AreAt (members_of responses.now) (numbers_of r.items)
        (in_each bad_keys_in (members_of responses.now))) }
{
    let mut all = Vec::new(alloc);
    for (i, member) in responses.iter().enumerate() {
        let inner = bad_keys(alloc, member.value.members())?;
        add_under(alloc, &mut all, i, inner)?;
    }
    Ok(all)
}

fn have_a_number(span: Span, other: Span) -> bool
    ensures { result ≡ have_a_number span other }
{
    span.low <= other.high && other.low <= span.high
}

/// Whether one of these members is for a number of the span.
fn meets_any(span: Span, answers: &[Member]) -> bool
    ensures { result ≡ list_any (meets span) (members_of answers.now) }
{
    for member in answers {
        if meets(span, member) {
            return true;
        }
    }
    false
}

fn meets(span: Span, member: &Member) -> bool
    ensures { result ≡ meets span (member_of member.now) }
{
    match span_in(member.key.as_str()) {
        Some(other) => have_a_number(span, other),
        None => false,
    }
}

/// Whether a key has no number of these answers, none of which is for a number above this one. They are looked at only where it doesn't begin
/// above all.
fn is_apart(span: Option<Span>, answers: &[Member], top: u32) -> bool
    requires { IsTop top (members_of answers.now) }
    ensures { result ≡ is_apart span (members_of answers.now) }
{
    match span {
        None => true,
        Some(span) => span.low > top || !meets_any(span, answers),
    }
}

/// The highest number, with that of one more key.
fn raised(top: u32, span: Option<Span>) -> u32
    ensures { result ≡ raised top span }
{
    match span {
        None => top,
        Some(span) => { if top < span.high { span.high } else { top } }
    }
}

/// The keys of a response that have a number of one before them. Its cost grows with their number; keys that stand in no order cost a look at
/// those before them.
fn overlaps(alloc: Global, answers: &[Member]) -> Result<Vec<Vec<usize>>, AllocError>
    ensures { IfOk result (λ r. AreAt (members_of answers.now) (numbers_of r.items)
        (overlaps_behind [] (members_of answers.now))) }
{
    let mut all = Vec::new(alloc);
    let mut top = 0;
    for (i, member) in answers.iter().enumerate() {
        let span = span_in(member.key.as_str());
        let own = unless(alloc, is_apart(span, &answers[..i], top))?;
        add_under(alloc, &mut all, i, own)?;
        top = raised(top, span);
    }
    Ok(all)
}

/// Those of all responses.
pub(crate) fn all_overlaps(
    alloc: Global,
    responses: &[Member],
) -> Result<Vec<Vec<usize>>, AllocError>
    ensures { IfOk result (λ r. AreAt (members_of responses.now) (numbers_of r.items)
        (in_each overlaps_in (members_of responses.now))) }
{
    let mut all = Vec::new(alloc);
    for (i, member) in responses.iter().enumerate() {
        let inner = overlaps(alloc, member.value.members())?;
        add_under(alloc, &mut all, i, inner)?;
    }
    Ok(all)
}

/// Whether a key is for a number.
fn has_number(number: u32, key: &str) -> bool
    ensures { result ≡ has_number number (span_in key.now) }
{
    match span_in(key) {
        None => false,
        Some(span) => span.low <= number && number <= span.high,
    }
}

fn is_answered(answers: &[Member], number: u32) -> bool
    ensures { result ≡ is_answered (members_of answers.now) number }
{
    for member in answers {
        if has_number(number, member.key.as_str()) {
            return true;
        }
    }
    false
}

/// Whether a key begins above 0, and the number before it has no answer. All numbers below the reach have one.
fn begins_bare(answers: &[Member], span: Option<Span>, reach: u64) -> bool
    requires { (n : ℕ) → n < reach → is_answered (members_of answers.now) n ≡ true }
    ensures { result ≡ begins_bare (members_of answers.now) span }
{
    match span {
        None => false,
        Some(span) => {
            span.low > 0 && reach < u64::from(span.low) && !is_answered(answers, span.low - 1)
        }
    }
}

/// How far answers reach without a gap, with those of one more key that begins within them.
fn reached(reach: u64, span: Option<Span>) -> u64
    ensures { result ≡ reached reach span }
{
    match span {
        None => reach,
        Some(span) => {
            if u64::from(span.low) <= reach && reach <= u64::from(span.high) {
                u64::from(span.high) + 1
            } else {
                reach
            }
        }
    }
}

/// Whether a response leaves out a number below its last one: an answer begins above 0, and the number before it has none. Keys that stand in no
/// order cost a look at all.
pub fn has_gap(answers: &[Member]) -> bool
    ensures { result ≡ has_gap (members_of answers.now) }
{
    let mut reach: u64 = 0;
    for member in answers {
        let span = span_in(member.key.as_str());
        if begins_bare(answers, span, reach) {
            return true;
        }
        reach = reached(reach, span);
    }
    false
}

/// The places of the responses that leave out a number below their last one, in document order: by the numbers of the members on the way, from
/// 0. The error is that memory ran out.
pub fn gaps(alloc: Global, file: &Json) -> Result<Vec<Vec<usize>>, AllocError>
    ensures { IfOk result (λ r. AreAt (member_list (data_of file.now)) (numbers_of r.items)
        (gaps (data_of file.now))) }
{
    let places = all_gaps(alloc, file.members_at("MockedResponses"))?;
    under_key(alloc, file, "MockedResponses", places)
}

/// Those of these responses.
fn all_gaps(alloc: Global, responses: &[Member]) -> Result<Vec<Vec<usize>>, AllocError>
    ensures { IfOk result (λ r. AreAt (members_of responses.now) (numbers_of r.items)
        (in_each gap_in (members_of responses.now))) }
{
    let mut all = Vec::new(alloc);
    for (i, member) in responses.iter().enumerate() {
        let own = unless(alloc, !has_gap(member.value.members()))?;
        add_under(alloc, &mut all, i, own)?;
    }
    Ok(all)
}

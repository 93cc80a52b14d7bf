// The responses of a mock file.
ghost use Rattle.std.specs.Prelude.{◌≡◌, ◌≤◌, [], ℕ, IfOk, option_map};
ghost use Rattle.asl_json_data.specs.Distinct.{AreDistinct};
ghost use Rattle.asl_json.specs.View.{members_of};
ghost use Rattle.asl_mock.specs.Tables.{named};
ghost use Rattle.asl_mock.specs.Places.{in_each};
ghost use Rattle.asl_mock.specs.Answers.{first_with, last_alike, response_of, responses_of};
ghost use Rattle.asl_mock.specs.Faults.{overlaps_behind, overlaps_in};
ghost use Rattle.asl_mock.specs.private.Apart.{AreApart};
ghost use Rattle.asl_mock.specs.Gives.{Gives};

use crate::place::Place;
use crate::ranges::{added, answer_at, last_alike};
use crate::response::{Answer, Ranged};
use crate::table::add;
use asl_json::Member;
use indexmap::IndexMap;
use std::alloc::{AllocError, Global};
use std::marker::Model;
use std::sync::Arc;

/// A response: answers in the order of their numbers, none for a number of another. Copies share them.
pub struct Response {
    answers: Arc<Vec<Ranged>>,
}

// Written out, so that a caller's proof sees one call and not the drop of each part.
impl Drop for Response {
    fn drop(self) {
        let Response { answers: _answers } = self;
    }
}

impl Model for Response {
    ghost use Rattle.std.specs.Prelude.{List};
    ghost use Rattle.std.specs.Arc.{arc_value};
    ghost use Rattle.asl_mock.specs.private.Apart.{AreApart};
    ghost use Rattle.asl_mock.specs.declared.response.Ranged.{Ranged};

    ghost Value = { List Ranged };

    ghost use Rattle.std.specs.Coded.{codes};
    ghost use Rattle.asl_json.specs.contracts.value.Json as json;

    ghost coded = { Prim.hlevel (codes, json.the_row.coded) };

    ghost view = { λ a. (arc_value a.answers).items };

    ghost invariant = { λ a. AreApart (arc_value a.answers).items };
}

impl Response {
    /// The response with these answers. The error is that memory ran out.
    pub fn of_answers(alloc: Global, answers: Vec<Ranged>) -> Result<Response, AllocError>
        requires { AreApart answers.items }
        ensures { IfOk result (λ r. r ≡ answers.items) }
    {
        let answers = Arc::new(alloc, answers)?;
        Ok(Response { answers })
    }

    /// One more owner of the same answers. The error is that there are too many.
    pub(crate) fn try_clone(&self) -> Result<Response, AllocError>
        ensures { IfOk result (λ r. r ≡ self.now) }
    {
        let answers = Arc::try_clone(&self.answers)?;
        Ok(Response { answers })
    }

    /// The answers in the order of their numbers.
    pub fn by_number(&self) -> &[Ranged]
        ensures all { result.now ≡ self.now }
        ensures apart { AreApart self.now }
    {
        &self.answers
    }

    /// The answer of this number.
    pub(crate) fn answer(&self, number: u32) -> Option<&Answer>
        ensures { option_map (λ a. a.now) result ≡ first_with number self.now }
    {
        answer_at(&self.answers, number)
    }

    /// The last number up to which each one from this one on has the same answer, or none has any.
    pub(crate) fn last_alike(&self, number: u32) -> u32
        ensures exact { result ≡ last_alike number self.now }
        ensures within { number ≤ result }
        ensures alike { (k : ℕ) → number ≤ k → k ≤ result
            → first_with k self.now ≡ first_with number self.now }
    {
        last_alike(&self.answers, number)
    }
}

impl PartialEq for Response {
    ghost use Rattle.asl_mock.specs.Equal.{response_equal};
    ghost use Rattle.asl_mock.specs.private.EqualLaws.{response_laws};

    ghost eq = { response_equal };

    ghost laws = { response_laws };

    fn eq(&self, other: &Response) -> bool {
        self.answers.as_slice() == other.answers.as_slice()
    }
}

impl Eq for Response {
    ghost use Rattle.asl_mock.specs.private.EqualLaws.{response_equivalence};

    ghost laws = { response_equivalence };
}

/// The response of these answers, or the first key that has a number of one before it. The error is that memory ran out.
fn response_in(alloc: Global, members: &[Member]) -> Result<Result<Response, Place>, AllocError>
    ensures { IfOk result (Gives (λ r. r) (response_of (members_of members.now))
        (overlaps_behind [] (members_of members.now))) }
{
    let mut answers = Vec::new(alloc);
    for member in members {
        let Some(more) = added(alloc, answers, member)? else {
            return Ok(Err(Place::here(alloc).under(alloc, member.key.as_str())?));
        };
        answers = more;
    }
    Ok(Ok(Response::of_answers(alloc, answers)?))
}

/// All responses, or the first such key. The error is that memory ran out.
pub(crate) fn responses(
    alloc: Global,
    members: &[Member],
) -> Result<Result<IndexMap<String, Response>, Place>, AllocError>
    requires { AreDistinct [] (members_of members.now) }
    ensures { IfOk result (Gives (λ v. named v.entries) (responses_of (members_of members.now))
        (in_each overlaps_in (members_of members.now))) }
{
    let mut responses = IndexMap::new(alloc);
    for member in members {
        let value = match response_in(alloc, member.value.members())? {
            Ok(response) => response,
            Err(place) => return Ok(Err(place.under(alloc, member.key.as_str())?)),
        };
        add(alloc, &mut responses, &member.key, value)?;
    }
    Ok(Ok(responses))
}

// The cases of a mock file.
ghost use Rattle.std.specs.Prelude.{◌≡◌, ◌≤◌, ◌↔◌, [], ℕ, IfOk, IsTrue, Some, option_map};
ghost use Rattle.asl_json_data.specs.Distinct.{AreDistinct};
ghost use Rattle.asl_json.specs.View.{data_of, members_of};
ghost use Rattle.asl_mock.specs.Tables.{named, value_for};
ghost use Rattle.asl_mock.specs.Places.{in_each};
ghost use Rattle.asl_mock.specs.Answers.{text_of, case_of, machine_of, machines_of, answer_to, last_to};
ghost use Rattle.asl_mock.specs.Faults.{lost_name, lost_in_case, lost_in_machine, is_response};
ghost use Rattle.asl_mock.specs.Gives.{Gives};
ghost use Rattle.asl_mock.specs.private.Shared.{listed};

use crate::place::Place;
use crate::response::Answer;
use crate::responses::Response;
use crate::table::{add, find};
use asl_json::{Json, Member};
use indexmap::IndexMap;
use std::alloc::{AllocError, Global};
use std::marker::Model;
use std::sync::Arc;

/// A case of a mock file: the responses of the states that it names. It never changes, so that its copies share them.
pub struct Case {
    states: Option<Arc<IndexMap<String, Response>>>,
}

// Written out, so that a caller's proof sees one call and not the drop of each part.
impl Drop for Case {
    fn drop(self) {
        let Case { states: _states } = self;
    }
}

impl Model for Case {
    ghost use Rattle.std.specs.Prelude.{List};
    ghost use Rattle.asl_mock.specs.Answers.{Response};
    ghost use Rattle.asl_mock.specs.Tables.{Named};

    ghost Value = { List (Named Response) };

    ghost use Rattle.std.specs.Coded.{codes};
    ghost use Rattle.asl_json.specs.contracts.value.Json as json;

    ghost coded = { Prim.hlevel (codes, json.the_row.coded) };

    ghost use Rattle.asl_mock.specs.private.Shared.{shared_states};

    ghost view = { λ a. shared_states a.states };
}

impl Case {
    /// The case that names no state. It takes no memory.
    pub fn empty() -> Case
        ensures { result ≡ [] }
    {
        Case { states: None }
    }

    pub(crate) fn of_states(
        alloc: Global,
        states: IndexMap<String, Response>,
    ) -> Result<Case, AllocError>
        ensures { IfOk result (λ c. c ≡ named states.entries) }
    {
        let states = Arc::new(alloc, states)?;
        Ok(Case {
            states: Some(states),
        })
    }

    /// One more owner of the same case. The error is that there are too many.
    pub fn try_clone(&self) -> Result<Case, AllocError>
        ensures { IfOk result (λ c. c ≡ self.now) }
    {
        match &self.states {
            Some(states) => Ok(Case {
                states: Some(Arc::try_clone(states)?),
            }),
            None => Ok(Case::empty()),
        }
    }

    /// What the owners of the case share, where it names a state.
    pub(crate) fn own_table(&self) -> Option<&IndexMap<String, Response>>
        ensures { listed (option_map (λ m. m.now) result) ≡ self.now }
    {
        match &self.states {
            Some(states) => Some(states),
            None => None,
        }
    }

    /// Whether it names no state.
    fn is_empty(&self) -> bool
        ensures { IsTrue result ↔ (self.now ≡ []) }
    {
        match &self.states {
            Some(states) => states.is_empty(),
            None => true,
        }
    }

    /// The response of the state of this name.
    pub fn response_for(&self, state: &str) -> Option<&Response>
        ensures { option_map (λ r. r.now) result ≡ value_for state.now self.now }
    {
        match &self.states {
            Some(states) => find(states, state),
            None => None,
        }
    }
}

/// Two cases are equal if they are one as data: they name the same states in the same order, and each state has the same answers
/// at the same ranges of numbers. The spelling of a value counts.
impl PartialEq for Case {
    ghost use Rattle.asl_mock.specs.Equal.{case_equal};
    ghost use Rattle.asl_mock.specs.private.EqualLaws.{case_laws};

    ghost eq = { case_equal };

    ghost laws = { case_laws };

    fn eq(&self, other: &Case) -> bool
        ensures equal { result ≡ case_equal self.now other.now }
        ensures same { IsTrue result ↔ (self.now ≡ other.now) }
    {
        match &self.states {
            Some(states) => match &other.states {
                Some(its) => states.as_slice() == its.as_slice(),
                None => states.is_empty(),
            },
            None => other.is_empty(),
        }
    }
}

impl Eq for Case {
    ghost use Rattle.asl_mock.specs.private.EqualLaws.{case_equivalence};

    ghost laws = { case_equivalence };
}

/// The answer of number n, counted from 0, to the state of this name, where the case names a response for it that has one. Its
/// cost is one look-up of a hash, and the logarithm of how many answers the response has.
pub fn answer<'a>(case: &'a Case, state: &str, n: u32) -> Option<&'a Answer>
    ensures { option_map (λ a. a.now) result ≡ answer_to case.now state.now n }
{
    let response = case.response_for(state)?;
    response.answer(n)
}

/// The last number up to which the answers to the state of this name, from number n on, are all that of number n, or none is there: the end of
/// the range of numbers that has n, or the last number before the next range. Its cost is that of `answer`.
pub fn last_alike(case: &Case, state: &str, n: u32) -> u32
    ensures exact { result ≡ last_to case.now state.now n }
    ensures within { n ≤ result }
    ensures alike { (k : ℕ) → n ≤ k → k ≤ result
        → answer_to case.now state.now k ≡ answer_to case.now state.now n }
{
    match case.response_for(state) {
        Some(response) => response.last_alike(n),
        None => u32::MAX,
    }
}

/// The cases of a machine by name.
pub(crate) struct Cases {
    cases: IndexMap<String, Case>,
}

impl Drop for Cases {
    fn drop(self) {
        let Cases { cases: _cases } = self;
    }
}

impl Model for Cases {
    ghost use Rattle.std.specs.Prelude.{List};
    ghost use Rattle.asl_mock.specs.Answers.{Case};
    ghost use Rattle.asl_mock.specs.Tables.{Named, named};

    ghost Value = { List (Named Case) };

    ghost use Rattle.std.specs.Coded.{codes};
    ghost use Rattle.asl_json.specs.contracts.value.Json as json;

    ghost coded = { Prim.hlevel (codes, json.the_row.coded) };

    ghost view = { λ a. named a.cases.entries };
}

impl Cases {
    /// The case of this name.
    pub(crate) fn case(&self, name: &str) -> Option<&Case>
        ensures { option_map (λ c. c.now) result ≡ value_for name.now self.now }
    {
        find(&self.cases, name)
    }

    pub(crate) fn by_name(&self) -> &IndexMap<String, Case>
        ensures { named result.now.entries ≡ self.now }
    {
        &self.cases
    }
}

/// Its text; of any other value an empty one.
fn text_in(value: &Json) -> &str
    ensures { result.now ≡ text_of (Some (data_of value.now)) }
{
    match value {
        Json::Text(text) => text.as_str(),
        _ => "",
    }
}

/// The responses of the states of a case, or the first name of a response that isn't there. The error is that memory ran out.
fn states(
    alloc: Global,
    responses: &IndexMap<String, Response>,
    members: &[Member],
) -> Result<Result<IndexMap<String, Response>, Place>, AllocError>
    requires { AreDistinct [] (members_of members.now) }
    ensures { IfOk result (Gives (λ v. named v.entries)
        (case_of (named responses.now.entries) (members_of members.now))
        (in_each (lost_name (is_response (named responses.now.entries))) (members_of members.now))) }
{
    let mut states = IndexMap::new(alloc);
    for member in members {
        let Some(response) = find(responses, text_in(&member.value)) else {
            return Ok(Err(Place::here(alloc).under(alloc, member.key.as_str())?));
        };
        let value = response.try_clone()?;
        add(alloc, &mut states, &member.key, value)?;
    }
    Ok(Ok(states))
}

/// The cases of a machine, or the first such name. The error is that memory ran out.
fn cases_in(
    alloc: Global,
    responses: &IndexMap<String, Response>,
    members: &[Member],
) -> Result<Result<IndexMap<String, Case>, Place>, AllocError>
    requires { AreDistinct [] (members_of members.now) }
    ensures { IfOk result (Gives (λ v. named v.entries)
        (machine_of (named responses.now.entries) (members_of members.now))
        (in_each (lost_in_case (is_response (named responses.now.entries))) (members_of members.now))) }
{
    let mut cases = IndexMap::new(alloc);
    for member in members {
        let own = match states(alloc, responses, member.value.members())? {
            Ok(own) => own,
            Err(place) => return Ok(Err(place.under(alloc, member.key.as_str())?)),
        };
        let value = Case::of_states(alloc, own)?;
        add(alloc, &mut cases, &member.key, value)?;
    }
    Ok(Ok(cases))
}

/// The machines, or the first such name. The error is that memory ran out.
pub(crate) fn machines(
    alloc: Global,
    responses: &IndexMap<String, Response>,
    members: &[Member],
) -> Result<Result<IndexMap<String, Cases>, Place>, AllocError>
    requires { AreDistinct [] (members_of members.now) }
    ensures { IfOk result (Gives (λ v. named v.entries)
        (machines_of (named responses.now.entries) (members_of members.now))
        (in_each (lost_in_machine (is_response (named responses.now.entries))) (members_of members.now))) }
{
    let mut machines = IndexMap::new(alloc);
    for member in members {
        let own = match cases_in(alloc, responses, member.value.members_at("TestCases"))? {
            Ok(own) => own,
            Err(place) => {
                let place = place.under(alloc, "TestCases")?;
                return Ok(Err(place.under(alloc, member.key.as_str())?));
            }
        };
        let value = Cases { cases: own };
        add(alloc, &mut machines, &member.key, value)?;
    }
    Ok(Ok(machines))
}

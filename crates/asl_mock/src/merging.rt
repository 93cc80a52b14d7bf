// Cases that are made of others.
ghost use Rattle.std.specs.Prelude.{◌≡◌, ◌∷◌, [], IfOk, unwrap_or, option_map};
ghost use Rattle.asl_mock.specs.Tables.{named};
ghost use Rattle.asl_mock.specs.Tables.{value_for};
ghost use Rattle.asl_mock.specs.Merged.{with_missing, merged, merged_with_each};

use crate::case::{Case, Cases};
use crate::mocks::Mocks;
use crate::responses::Response;
use crate::table::{find, push};
use indexmap::IndexMap;
use std::alloc::{AllocError, Global};

/// These with a response more, unless its state has one. The error is that memory ran out.
fn with_missing(
    alloc: Global,
    states: IndexMap<String, Response>,
    state: &str,
    response: &Response,
) -> Result<IndexMap<String, Response>, AllocError>
    ensures { IfOk result (λ v. named v.entries
        ≡ with_missing (named states.entries) (state.now, response.now)) }
{
    let mut states = states;
    if find(&states, state).is_some() {
        return Ok(states);
    }
    let name = String::from_str(alloc, state)?;
    push(&mut states, name, response.try_clone()?)?;
    Ok(states)
}

/// These with those of others whose states have none here. The error is that memory ran out.
fn with_all_missing(
    alloc: Global,
    states: IndexMap<String, Response>,
    others: &IndexMap<String, Response>,
) -> Result<IndexMap<String, Response>, AllocError>
    ensures { IfOk result (λ v. named v.entries
        ≡ merged (named states.entries) (named others.now.entries)) }
{
    let mut states = states;
    for i in 0..others.len() {
        let Some((name, response)) = others.get_index(i) else {
            break;
        };
        states = with_missing(alloc, states, name.as_str(), response)?;
    }
    Ok(states)
}

/// These with those of a case whose states have none here. The error is that memory ran out.
fn with_case(
    alloc: Global,
    states: IndexMap<String, Response>,
    case: &Case,
) -> Result<IndexMap<String, Response>, AllocError>
    ensures { IfOk result (λ v. named v.entries ≡ merged (named states.entries) case.now) }
{
    match case.own_table() {
        Some(others) => with_all_missing(alloc, states, others),
        None => Ok(states),
    }
}

/// These with those of each case whose states have none here. The error is that memory ran out.
fn with_each_case(
    alloc: Global,
    states: IndexMap<String, Response>,
    others: &IndexMap<String, Case>,
) -> Result<IndexMap<String, Response>, AllocError>
    ensures { IfOk result (λ v. named v.entries
        ≡ merged_with_each (named states.entries) (named others.now.entries)) }
{
    let mut states = states;
    for i in 0..others.len() {
        let Some((_, case)) = others.get_index(i) else {
            break;
        };
        states = with_case(alloc, states, case)?;
    }
    Ok(states)
}

/// The same of the cases of a machine, if there is one.
fn with_cases_of(
    alloc: Global,
    states: IndexMap<String, Response>,
    machine: Option<&Cases>,
) -> Result<IndexMap<String, Response>, AllocError>
    ensures { IfOk result (λ v. named v.entries
        ≡ merged_with_each (named states.entries) (unwrap_or (option_map (λ m. m.now) machine.entry) [])) }
{
    match machine {
        Some(cases) => with_each_case(alloc, states, cases.by_name()),
        None => Ok(states),
    }
}

impl Mocks {
    /// A case with its own responses; what it lacks is that of the first case of the machine of this name that has it. The error is that
    /// memory ran out.
    pub fn completed_case(
        &self,
        alloc: Global,
        machine: &str,
        case: &Case,
    ) -> Result<Case, AllocError>
        ensures { IfOk result (λ c. c
            ≡ merged_with_each (merged [] case.now) (unwrap_or (value_for machine.now self.now) [])) }
    {
        let own = with_case(alloc, IndexMap::new(alloc), case)?;
        Case::of_states(alloc, with_cases_of(alloc, own, self.cases_of(machine))?)
    }
}

impl Case {
    /// The case that names this state alone, with this response. The error is that memory ran out.
    pub fn of_one_state(alloc: Global, state: &str, response: &Response) -> Result<Case, AllocError>
        ensures { IfOk result (λ c. c ≡ (state.now, response.now) ∷ []) }
    {
        let states = with_missing(alloc, IndexMap::new(alloc), state, response)?;
        Case::of_states(alloc, states)
    }

    /// The case with the responses of this one, and with those of another for the states that this one doesn't name. The error is that
    /// memory ran out.
    pub fn merged_with(&self, alloc: Global, others: &Case) -> Result<Case, AllocError>
        ensures { IfOk result (λ c. c ≡ merged (merged [] self.now) others.now) }
    {
        let own = with_case(alloc, IndexMap::new(alloc), self)?;
        Case::of_states(alloc, with_case(alloc, own, others)?)
    }
}

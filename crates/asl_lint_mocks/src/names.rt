// Names of responses: those that aren't there, and those that no case names.
ghost use Rattle.std.specs.Prelude.{◌≡◌, ◌||◌, ℕ, List, IfOk, OnOk};
ghost use Rattle.std.specs.HashSet.{contains_text};
ghost use Rattle.std.specs.List.{list_any};
ghost use Rattle.asl_json.specs.Keys.{HasKeys};
ghost use Rattle.asl_json.specs.View.{data_of, members_of};
ghost use Rattle.asl_mock.specs.Answers.{Response};
ghost use Rattle.asl_mock.specs.Form.{unless};
ghost use Rattle.asl_mock.specs.Places.{in_each};
ghost use Rattle.asl_json.specs.Access.{member_list};
ghost use Rattle.asl_mock.specs.Tables.{Named};
ghost use Rattle.asl_mock.specs.Faults.{lost_in_case, lost_in_machine, lost_name};
ghost use Rattle.asl_lint_mocks.specs.Lost.{is_known};
ghost use Rattle.asl_lint_mocks.specs.Places.{AreAt, numbers_of};
ghost use Rattle.asl_lint_mocks.specs.Warnings.{case_names, is_text, machine_names, unused};
ghost use Rattle.asl_lint_mocks.specs.private.Known.{HasNames};

use crate::placing::{add_under, under_key, unless};
use asl_json::{Json, Member};
use std::alloc::{AllocError, Global};
use std::collections::HashSet;

/// The names of the responses.
pub(crate) fn response_names(
    alloc: Global,
    responses: &[Member],
) -> Result<HashSet<String>, AllocError>
    ensures { IfOk result (λ names. HasKeys names (members_of responses.now)) }
{
    let mut names = HashSet::new(alloc);
    for member in responses {
        names.insert(String::from_str(alloc, member.key.as_str())?)?;
    }
    Ok(names)
}

/// Whether a value is no text, or the name of a response.
fn is_known(names: &HashSet<String>, value: &Json) -> bool
    ensures { (rs : List (Named Response)) → HasNames names.now rs
        → result ≡ is_known rs (data_of value.now) }
{
    match value {
        Json::Text(name) => names.contains(name.as_str()),
        _ => true,
    }
}

/// The states of a case that name responses that aren't there.
fn lost_in_case(
    alloc: Global,
    names: &HashSet<String>,
    states: &[Member],
) -> Result<Vec<Vec<usize>>, AllocError>
    ensures { IfOk result (λ r. (rs : List (Named Response)) → HasNames names.now rs
        → AreAt (members_of states.now) (numbers_of r.items)
        (in_each (lost_name (is_known rs)) (members_of states.now))) }
{
    let mut all = Vec::new(alloc);
    for (i, state) in states.iter().enumerate() {
        let own = unless(alloc, is_known(names, &state.value))?;
        add_under(alloc, &mut all, i, own)?;
    }
    Ok(all)
}

/// The same in the cases of a machine.
fn lost_in_cases(
    alloc: Global,
    names: &HashSet<String>,
    cases: &[Member],
) -> Result<Vec<Vec<usize>>, AllocError>
    ensures { IfOk result (λ r. (rs : List (Named Response)) → HasNames names.now rs
        → AreAt (members_of cases.now) (numbers_of r.items)
        (in_each (lost_in_case (is_known rs)) (members_of cases.now))) }
{
    let mut all = Vec::new(alloc);
    for (i, case) in cases.iter().enumerate() {
        let inner = lost_in_case(alloc, names, case.value.members())?;
        add_under(alloc, &mut all, i, inner)?;
    }
    Ok(all)
}

/// The same in all machines.
pub(crate) fn lost_in_machines(
    alloc: Global,
    names: &HashSet<String>,
    machines: &[Member],
) -> Result<Vec<Vec<usize>>, AllocError>
    ensures { IfOk result (λ r. (rs : List (Named Response)) → HasNames names.now rs
        → AreAt (members_of machines.now) (numbers_of r.items)
        (in_each (lost_in_machine (is_known rs)) (members_of machines.now))) }
{
    let mut all = Vec::new(alloc);
    for (i, machine) in machines.iter().enumerate() {
        let cases = lost_in_cases(alloc, names, machine.value.members_at("TestCases"))?;
        let inner = under_key(alloc, &machine.value, "TestCases", cases)?;
        add_under(alloc, &mut all, i, inner)?;
    }
    Ok(all)
}

fn name_state(alloc: Global, named: &mut HashSet<String>, value: &Json) -> Result<(), AllocError>
    ensures { OnOk result ((k : List ℕ) → contains_text named.new k
        ≡ (contains_text named.old k || is_text k (data_of value.now))) }
{
    match value {
        Json::Text(name) => {
            named.insert(String::from_str(alloc, name.as_str())?)?;
            Ok(())
        }
        _ => Ok(()),
    }
}

fn name_states(
    alloc: Global,
    named: &mut HashSet<String>,
    states: &[Member],
) -> Result<(), AllocError>
    ensures { OnOk result ((k : List ℕ) → contains_text named.new k
        ≡ (contains_text named.old k || list_any (λ s. is_text k s.1) (members_of states.now))) }
{
    for state in states {
        name_state(alloc, named, &state.value)?;
    }
    Ok(())
}

fn name_cases(
    alloc: Global,
    named: &mut HashSet<String>,
    cases: &[Member],
) -> Result<(), AllocError>
    ensures { OnOk result ((k : List ℕ) → contains_text named.new k
        ≡ (contains_text named.old k || list_any (case_names k) (members_of cases.now))) }
{
    for case in cases {
        name_states(alloc, named, case.value.members())?;
    }
    Ok(())
}

/// The names of responses that the cases of these machines name.
fn named_in(alloc: Global, machines: &[Member]) -> Result<HashSet<String>, AllocError>
    ensures { IfOk result (λ named. (k : List ℕ)
        → contains_text named k ≡ list_any (machine_names k) (members_of machines.now)) }
{
    let mut named = HashSet::new(alloc);
    for machine in machines {
        name_cases(alloc, &mut named, machine.value.members_at("TestCases"))?;
    }
    Ok(named)
}

/// The responses whose names aren't among these.
fn unnamed(
    alloc: Global,
    named: &HashSet<String>,
    responses: &[Member],
) -> Result<Vec<Vec<usize>>, AllocError>
    ensures { IfOk result (λ r. AreAt (members_of responses.now) (numbers_of r.items)
        (in_each (λ m. unless (contains_text named.now m.0)) (members_of responses.now))) }
{
    let mut all = Vec::new(alloc);
    for (i, response) in responses.iter().enumerate() {
        let own = unless(alloc, named.contains(response.key.as_str()))?;
        add_under(alloc, &mut all, i, own)?;
    }
    Ok(all)
}

/// The places of the responses that no case of any machine names, in document order: by the numbers of the members on the way, from 0. The error
/// is that memory ran out.
pub fn unused_responses(alloc: Global, file: &Json) -> Result<Vec<Vec<usize>>, AllocError>
    ensures { IfOk result (λ r. AreAt (member_list (data_of file.now)) (numbers_of r.items)
        (unused (data_of file.now))) }
{
    let named = named_in(alloc, file.members_at("StateMachines"))?;
    let places = unnamed(alloc, &named, file.members_at("MockedResponses"))?;
    under_key(alloc, file, "MockedResponses", places)
}

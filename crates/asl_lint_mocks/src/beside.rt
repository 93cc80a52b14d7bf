// What doesn't fit between a mock file and the states of a definition.
ghost use Rattle.std.specs.Prelude.{◌≡◌, ◌||◌, ◌&&◌, ℕ, List, None, IfOk, OnOk, option_map};
ghost use Rattle.std.specs.HashSet.{contains_text};
ghost use Rattle.std.specs.List.{list_any};
ghost use Rattle.asl_json_data.specs.Distinct.{has_key};
ghost use Rattle.asl_json.specs.View.{data_of, member_of, members_of};
ghost use Rattle.asl_mock.specs.Form.{unless};
ghost use Rattle.asl_mock.specs.Places.{in_each};
ghost use Rattle.asl_json.specs.Access.{member_list};
ghost use Rattle.asl_lint_mocks.specs.Beside.{case_answers, fits, in_case, in_machine, is_answered, is_meant, is_unclear, machine_answers, machines_in, machines_place, misnamed, unclear};
ghost use Rattle.asl_lint_mocks.specs.Places.{AreAt, keys_of, numbers_of};
ghost use Rattle.asl_lint_mocks.specs.private.Fitting.{fitting};

use crate::placing::{add_under, number_at, under_key, unless};
use asl_json::{Json, Member};
use std::alloc::{AllocError, Global};
use std::collections::HashSet;

/// In which way a case names what is no Task.
#[derive(Clone, Copy, Debug, PartialEq, Eq)]
pub enum NameFault {
    /// No state has the name.
    Unknown,
    /// A state has it, and no Task.
    NoTask,
}

/// The names of the states of a definition, and those of its Tasks.
#[derive(Clone, Copy)]
pub struct Known<'a> {
    pub states: &'a HashSet<String>,
    pub tasks: &'a HashSet<String>,
}

/// Whether there are several.
fn are_several(machines: &[Member]) -> bool
    ensures { result ≡ is_unclear None (members_of machines.now) }
{
    machines.len() > 1
}

fn has_machine(machines: &[Member], name: &str) -> bool
    ensures { result ≡ has_key name.now (members_of machines.now) }
{
    number_at(machines, name).is_some()
}

fn is_unclear_among(machines: &[Member], machine: Option<&str>) -> bool
    ensures { result ≡ is_unclear (option_map (λ k. k.now) machine.entry) (members_of machines.now) }
{
    match machine {
        Some(name) => !has_machine(machines, name),
        None => are_several(machines),
    }
}

/// Whether it is unclear which machine of a file is meant: none has the name, or none is named and there are several.
pub fn is_unclear(file: &Json, machine: Option<&str>) -> bool
    ensures { result ≡ is_unclear (option_map (λ k. k.now) machine.entry)
        (machines_in (data_of file.now)) }
{
    is_unclear_among(file.members_at("StateMachines"), machine)
}

/// Whether the machine of this name, among these, is the one that is meant.
fn is_meant(machines: &[Member], machine: Option<&str>, name: &str) -> bool
    ensures { result ≡ is_meant (option_map (λ k. k.now) machine.entry) (members_of machines.now)
        name.now }
{
    match machine {
        Some(wanted) => wanted == name,
        None => !are_several(machines),
    }
}

/// Where the machines stand.
fn machines_place(alloc: Global, file: &Json) -> Result<Vec<usize>, AllocError>
    ensures { IfOk result (λ p. keys_of (member_list (data_of file.now)) p.items
        ≡ machines_place (data_of file.now)) }
{
    let mut place = Vec::new(alloc);
    if let Some(at) = number_at(file.members(), "StateMachines") {
        place.push(at)?;
    }
    Ok(place)
}

/// The place of the machines, where it is unclear which of them is meant: none has the name, or none is named and there are several. The error
/// is that memory ran out.
pub fn unclear(
    alloc: Global,
    file: &Json,
    machine: Option<&str>,
) -> Result<Vec<Vec<usize>>, AllocError>
    ensures { IfOk result (λ r. AreAt (member_list (data_of file.now)) (numbers_of r.items)
        (unclear (option_map (λ k. k.now) machine.entry) (data_of file.now))) }
{
    let mut all = Vec::new(alloc);
    if is_unclear(file, machine) {
        all.push(machines_place(alloc, file)?)?;
    }
    Ok(all)
}

fn fits(sort: NameFault, known: &Known<'_>, name: &str) -> bool
    ensures { result ≡ fitting sort known.now name.now }
{
    match sort {
        NameFault::Unknown => known.states.contains(name),
        NameFault::NoTask => !known.states.contains(name) || known.tasks.contains(name),
    }
}

/// The states of a case whose names don't fit.
fn in_case(
    alloc: Global,
    sort: NameFault,
    known: &Known<'_>,
    states: &[Member],
) -> Result<Vec<Vec<usize>>, AllocError>
    ensures { IfOk result (λ r. AreAt (members_of states.now) (numbers_of r.items)
        (in_each (λ s. unless (fitting sort known.now s.0)) (members_of states.now))) }
{
    let mut all = Vec::new(alloc);
    for (i, state) in states.iter().enumerate() {
        let own = unless(alloc, fits(sort, known, state.key.as_str()))?;
        add_under(alloc, &mut all, i, own)?;
    }
    Ok(all)
}

/// The same in the cases of a machine.
fn in_cases(
    alloc: Global,
    sort: NameFault,
    known: &Known<'_>,
    cases: &[Member],
) -> Result<Vec<Vec<usize>>, AllocError>
    ensures { IfOk result (λ r. AreAt (members_of cases.now) (numbers_of r.items)
        (in_each (in_case (fitting sort known.now)) (members_of cases.now))) }
{
    let mut all = Vec::new(alloc);
    for (i, case) in cases.iter().enumerate() {
        let inner = in_case(alloc, sort, known, case.value.members())?;
        add_under(alloc, &mut all, i, inner)?;
    }
    Ok(all)
}

/// The same in a machine, where it is the one that is meant.
fn in_machine(
    alloc: Global,
    sort: NameFault,
    known: &Known<'_>,
    is_meant: bool,
    machine: &Json,
) -> Result<Vec<Vec<usize>>, AllocError>
    ensures { IfOk result (λ r. (k : List ℕ) → AreAt (member_list (data_of machine.now))
        (numbers_of r.items)
        (in_machine (fitting sort known.now) is_meant (k, data_of machine.now))) }
{
    if !is_meant {
        return Ok(Vec::new(alloc));
    }
    let cases = in_cases(alloc, sort, known, machine.members_at("TestCases"))?;
    under_key(alloc, machine, "TestCases", cases)
}

/// The same in all machines.
fn in_machines(
    alloc: Global,
    sort: NameFault,
    known: &Known<'_>,
    machine: Option<&str>,
    machines: &[Member],
) -> Result<Vec<Vec<usize>>, AllocError>
    ensures { IfOk result (λ r. AreAt (members_of machines.now) (numbers_of r.items)
        (in_each (λ m. in_machine (fitting sort known.now)
        (is_meant (option_map (λ k. k.now) machine.entry) (members_of machines.now) m.0) m)
        (members_of machines.now))) }
{
    let mut all = Vec::new(alloc);
    for (i, member) in machines.iter().enumerate() {
        let meant = is_meant(machines, machine, member.key.as_str());
        let inner = in_machine(alloc, sort, known, meant, &member.value)?;
        add_under(alloc, &mut all, i, inner)?;
    }
    Ok(all)
}

/// The places of the states in the cases of the machine that is meant, that of the name or the only one, whose names don't fit, in document order:
/// by the numbers of the members on the way, from 0. The error is that memory ran out.
pub fn misnamed(
    alloc: Global,
    sort: NameFault,
    known: &Known<'_>,
    file: &Json,
    machine: Option<&str>,
) -> Result<Vec<Vec<usize>>, AllocError>
    ensures { IfOk result (λ r. AreAt (member_list (data_of file.now)) (numbers_of r.items)
        (misnamed (option_map (λ k. k.now) machine.entry)
        (fits sort (contains_text known.now.states.now) (contains_text known.now.tasks.now))
        (data_of file.now))) }
{
    let places = in_machines(
        alloc,
        sort,
        known,
        machine,
        file.members_at("StateMachines"),
    )?;
    under_key(alloc, file, "StateMachines", places)
}

/// Adds the names of the states of a case.
fn answer_states(
    alloc: Global,
    answered: &mut HashSet<String>,
    states: &[Member],
) -> Result<(), AllocError>
    ensures { OnOk result ((k : List ℕ) → contains_text answered.new k
        ≡ (contains_text answered.old k || has_key k (members_of states.now))) }
{
    for state in states {
        answered.insert(String::from_str(alloc, state.key.as_str())?)?;
    }
    Ok(())
}

/// Those of all cases of a machine.
fn answer_cases(
    alloc: Global,
    answered: &mut HashSet<String>,
    cases: &[Member],
) -> Result<(), AllocError>
    ensures { OnOk result ((k : List ℕ) → contains_text answered.new k
        ≡ (contains_text answered.old k || list_any (case_answers k) (members_of cases.now))) }
{
    for case in cases {
        answer_states(alloc, answered, case.value.members())?;
    }
    Ok(())
}

/// Those of a machine, where it is the one that is meant.
fn answer_machine(
    alloc: Global,
    answered: &mut HashSet<String>,
    is_meant: bool,
    machine: &Member,
) -> Result<(), AllocError>
    ensures { OnOk result ((k : List ℕ) → contains_text answered.new k
        ≡ (contains_text answered.old k
        || (is_meant && machine_answers k (member_of machine.now)))) }
{
    if !is_meant {
        return Ok(());
    }
    answer_cases(alloc, answered, machine.value.members_at("TestCases"))
}

/// The names of the states that have an answer in some case of the machine that is meant, that of the name or the only one. The error is that
/// memory ran out.
pub fn answered(
    alloc: Global,
    file: &Json,
    machine: Option<&str>,
) -> Result<HashSet<String>, AllocError>
    ensures { IfOk result (λ s. (k : List ℕ) → contains_text s k
        ≡ is_answered (option_map (λ k. k.now) machine.entry) (data_of file.now) k) }
{
    let machines = file.members_at("StateMachines");
    let mut answered = HashSet::new(alloc);
    for member in machines {
        let meant = is_meant(machines, machine, member.key.as_str());
        answer_machine(alloc, &mut answered, meant, member)?;
    }
    Ok(answered)
}

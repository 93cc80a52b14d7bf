// What is found in a mock file, by itself and beside the states of a definition.
ghost use Rattle.std.specs.Prelude.{◌≡◌, ◌++◌, ◌||◌, ◌&&◌, not, ℕ, List, IfOk, OnOk, map, option_map};
ghost use Rattle.std.specs.HashSet.{contains_text};
ghost use Rattle.asl_json_data.specs.Distinct.{Members};
ghost use Rattle.asl_json.specs.Same.{bytes_eq};
ghost use Rattle.asl_json.specs.View.{data_of};
ghost use Rattle.asl_lint_messages.specs.States.{Stated};
ghost use Rattle.asl_mock.specs.Places.{Place};
ghost use Rattle.asl_json.specs.Access.{member_list};
ghost use Rattle.asl_lint_mocks.specs.Places.{AreAt, numbers_of};
ghost use Rattle.asl_lint.specs.Mocks.{beside_told, each_of, is_a_task, is_state, is_task, keyed, may_be_task, mocks_told, own_told, told_if, unanswered, without_answer};
ghost use Rattle.asl_lint.specs.private.Founds.{Grows, IsKnown, noted};

use crate::finding::Found;
use crate::mock_words::{Beside, put_mock};
use crate::noting::told_at;
use crate::rule::{MockRule, Rule};
use asl_def_schema::Kind;
use asl_json::Json;
use asl_lint_messages::{EFFORT, State, put_name};
use asl_lint_mocks::{
    Faults, Known, NameFault, answered, faults_of, gaps, is_unclear, misnamed, unclear,
    unused_responses,
};
use std::alloc::{AllocError, Global};
use std::collections::HashSet;

fn found_at(
    alloc: Global,
    file: &Json,
    beside: Beside<'_>,
    rule: MockRule,
    place: Vec<usize>,
    effort: &mut usize,
) -> Result<Found, AllocError>
    ensures { IfOk result (λ f. noted f ≡ (Rule.Mock rule, place.items)) }
{
    let mut message = String::new(alloc);
    put_mock(alloc, &mut message, rule, file, beside, &place, effort)?;
    told_at(Rule::Mock(rule), place, message)
}

/// Adds what is found at these places.
fn add_all(
    alloc: Global,
    found: &mut Vec<Found>,
    file: &Json,
    beside: Beside<'_>,
    rule: MockRule,
    places: Vec<Vec<usize>>,
    effort: &mut usize,
) -> Result<(), AllocError>
    ensures { OnOk result (map noted found.new.items ≡ map noted found.old.items
        ++ map (λ p. (Rule.Mock rule, p)) (numbers_of places.items)) }
{
    for place in places {
        found.push(found_at(alloc, file, beside, rule, place, effort)?)?;
    }
    Ok(())
}

/// The same, by the keys on the way.
fn add(
    alloc: Global,
    found: &mut Vec<Found>,
    file: &Json,
    beside: Beside<'_>,
    rule: MockRule,
    places: Vec<Vec<usize>>,
    effort: &mut usize,
) -> Result<(), AllocError>
    ensures { OnOk result ((ms : Members) (ps : List Place) → AreAt ms (numbers_of places.items) ps
        → Grows ms (map noted found.old.items) (map noted found.new.items) (each_of rule ps)) }
{
    add_all(alloc, found, file, beside, rule, places, effort)
}

/// Adds what is found in a mock file by itself.
fn add_own(
    alloc: Global,
    found: &mut Vec<Found>,
    file: &Json,
    beside: Beside<'_>,
    effort: &mut usize,
) -> Result<(), AllocError>
    ensures { OnOk result (Grows (member_list (data_of file.now)) (map noted found.old.items)
        (map noted found.new.items) (own_told (data_of file.now))) }
{
    let Faults {
        misfits,
        bad_keys,
        overlaps,
        lost_names,
    } = faults_of(alloc, file)?;
    let bare = gaps(alloc, file)?;
    let unused = unused_responses(alloc, file)?;
    add(alloc, found, file, beside, MockRule::Shape, misfits, effort)?;
    add(alloc, found, file, beside, MockRule::Key, bad_keys, effort)?;
    add(
        alloc,
        found,
        file,
        beside,
        MockRule::Overlap,
        overlaps,
        effort,
    )?;
    add(
        alloc,
        found,
        file,
        beside,
        MockRule::NoResponse,
        lost_names,
        effort,
    )?;
    add(
        alloc,
        found,
        file,
        beside,
        MockRule::MissingAnswer,
        bare,
        effort,
    )?;
    add(
        alloc,
        found,
        file,
        beside,
        MockRule::UnusedResponse,
        unused,
        effort,
    )
}

/// Adds a name.
fn add_name(alloc: Global, names: &mut HashSet<String>, name: &str) -> Result<(), AllocError>
    ensures { OnOk result ((k : List ℕ) → contains_text names.new k
        ≡ (contains_text names.old k || bytes_eq k name.now)) }
{
    names.insert(String::from_str(alloc, name)?)?;
    Ok(())
}

/// The names of these states.
fn names_of(alloc: Global, states: &[State<'_>]) -> Result<HashSet<String>, AllocError>
    ensures { IfOk result (λ s. (k : List ℕ) → contains_text s k ≡ is_state states.now k) }
{
    let mut names = HashSet::new(alloc);
    for state in states {
        add_name(alloc, &mut names, state.name())?;
    }
    Ok(names)
}

fn may_be_task(kind: Option<Kind>) -> bool
    ensures { result ≡ may_be_task kind }
{
    match kind {
        None => true,
        Some(kind) => kind == Kind::Task,
    }
}

/// Adds the name of a state that may be a Task.
fn add_task(alloc: Global, names: &mut HashSet<String>, state: &State<'_>) -> Result<(), AllocError>
    ensures { OnOk result ((k : List ℕ) → contains_text names.new k
        ≡ (contains_text names.old k || (bytes_eq k state.now.name && may_be_task state.now.kind))) }
{
    if !may_be_task(state.kind()) {
        return Ok(());
    }
    add_name(alloc, names, state.name())
}

/// The names of those that may be Tasks.
fn tasks_of(alloc: Global, states: &[State<'_>]) -> Result<HashSet<String>, AllocError>
    ensures { IfOk result (λ s. (k : List ℕ) → contains_text s k ≡ is_task states.now k) }
{
    let mut names = HashSet::new(alloc);
    for state in states {
        add_task(alloc, &mut names, state)?;
    }
    Ok(names)
}

/// Adds what doesn't fit between a mock file and states of these names.
fn add_misnamed(
    alloc: Global,
    found: &mut Vec<Found>,
    file: &Json,
    beside: Beside<'_>,
    known: &Known<'_>,
    effort: &mut usize,
) -> Result<(), AllocError>
    ensures { OnOk result ((ss : List Stated) → IsKnown known.now ss
        → Grows (member_list (data_of file.now)) (map noted found.old.items)
        (map noted found.new.items)
        (beside_told (option_map (λ k. k.now) beside.entry.machine) ss (data_of file.now))) }
{
    let unclear = unclear(alloc, file, beside.machine)?;
    let unknown = misnamed(alloc, NameFault::Unknown, known, file, beside.machine)?;
    let no_tasks = misnamed(alloc, NameFault::NoTask, known, file, beside.machine)?;
    add(
        alloc,
        found,
        file,
        beside,
        MockRule::NoMachine,
        unclear,
        effort,
    )?;
    add(
        alloc,
        found,
        file,
        beside,
        MockRule::UnknownState,
        unknown,
        effort,
    )?;
    add(
        alloc,
        found,
        file,
        beside,
        MockRule::NotTask,
        no_tasks,
        effort,
    )
}

/// Adds what doesn't fit between a mock file and these states.
fn add_beside(
    alloc: Global,
    found: &mut Vec<Found>,
    file: &Json,
    beside: Beside<'_>,
    states: &[State<'_>],
    effort: &mut usize,
) -> Result<(), AllocError>
    ensures { OnOk result (Grows (member_list (data_of file.now)) (map noted found.old.items)
        (map noted found.new.items)
        (beside_told (option_map (λ k. k.now) beside.entry.machine) states.now (data_of file.now))) }
{
    let names = names_of(alloc, states)?;
    let tasks = tasks_of(alloc, states)?;
    let known = Known {
        states: &names,
        tasks: &tasks,
    };
    add_misnamed(alloc, found, file, beside, &known, effort)
}

/// What is found in a mock file. The error is that memory ran out.
pub(crate) fn found_in_mocks(
    alloc: Global,
    file: &Json,
    beside: Beside<'_>,
) -> Result<Vec<Found>, AllocError>
    ensures { IfOk result (λ found. map (keyed (member_list (data_of file.now))) (map noted found.items)
        ≡ mocks_told (option_map (λ k. k.now) beside.entry.machine)
        (option_map (λ s. s.now.list.items) beside.entry.states) (data_of file.now)) }
{
    let mut found = Vec::new(alloc);
    let mut effort = EFFORT;
    add_own(alloc, &mut found, file, beside, &mut effort)?;
    if let Some(states) = beside.states {
        add_beside(alloc, &mut found, file, beside, &states.list, &mut effort)?;
    }
    Ok(found)
}

fn is_a_task(kind: Option<Kind>) -> bool
    ensures { result ≡ is_a_task kind }
{
    kind == Some(Kind::Task)
}

/// Whether a state is a Task whose name isn't answered.
fn lacks_answer(answered: &HashSet<String>, state: &State<'_>) -> bool
    ensures { result ≡ (is_a_task state.now.kind && not (contains_text answered.now state.now.name)) }
{
    is_a_task(state.kind()) && !answered.contains(state.name())
}

/// A Task that no case answers.
fn found_task(alloc: Global, state: &State<'_>) -> Result<Found, AllocError>
    ensures { IfOk result (λ f. noted f ≡ (Rule.Mock MockRule.UnansweredTask, state.now.place)) }
{
    let mut message = String::from_str(
        alloc,
        "no case of the mock file has an answer for the Task ",
    )?;
    put_name(&mut message, state.name())?;
    let place = state.place(alloc)?;
    told_at(Rule::Mock(MockRule::UnansweredTask), place, message)
}

/// Adds a state, if it is told.
fn add_if(
    alloc: Global,
    found: &mut Vec<Found>,
    is_told: bool,
    state: &State<'_>,
) -> Result<(), AllocError>
    ensures { OnOk result (map noted found.new.items
        ≡ map noted found.old.items ++ told_if is_told state.now) }
{
    if is_told {
        found.push(found_task(alloc, state)?)?;
    }
    Ok(())
}

/// Adds the Tasks whose names aren't answered.
fn add_without_answer(
    alloc: Global,
    found: &mut Vec<Found>,
    answered: &HashSet<String>,
    states: &[State<'_>],
) -> Result<(), AllocError>
    ensures { OnOk result (map noted found.new.items ≡ map noted found.old.items
        ++ without_answer (contains_text answered.now) states.now) }
{
    for state in states {
        add_if(alloc, found, lacks_answer(answered, state), state)?;
    }
    Ok(())
}

/// Adds the Tasks that no case of the machine that is meant answers; none where it isn't clear which that is. They stand in the definition.
pub(crate) fn add_unanswered(
    alloc: Global,
    found: &mut Vec<Found>,
    file: &Json,
    machine: Option<&str>,
    states: &[State<'_>],
) -> Result<(), AllocError>
    ensures { OnOk result (map noted found.new.items ≡ map noted found.old.items
        ++ unanswered (option_map (λ k. k.now) machine.entry) states.now (data_of file.now)) }
{
    if is_unclear(file, machine) {
        return Ok(());
    }
    let answered = answered(alloc, file, machine)?;
    add_without_answer(alloc, found, &answered, states)
}

// Which states of a machine are reached, and which reach an end.
ghost use Rattle.std.specs.Prelude.{◌≡◌, ◌<◌, ◌↔◌, ◌++◌, ℕ, List, Bool, false, if◌then◌else◌, IfOk, OnOk, option_map, map, length, get_or, [], ◌∷◌};
ghost use Rattle.asl_json_data.specs.Data.{pairs};
ghost use Rattle.asl_json.specs.Meaning.{count};
ghost use Rattle.asl_json.specs.View.{data_of, members_of};
ghost use Rattle.asl_lint_warnings.specs.Ways.{IsIn, Edge};
ghost use Rattle.asl_lint_warnings.specs.private.Marks.{is_marked};
ghost use Rattle.asl_lint_warnings.specs.private.Places.{place_by, AreTurned, HasTurned};
ghost use Rattle.asl_lint_warnings.specs.Graphs.{place_of, states_of, numbers_of, edges_from, numbers_below, this_or_all, place_named, targets, leads_astray, is_empty, is_end, ends_from, is_reached, is_ending};

use crate::leading::{is_last, targets};
use crate::search::reached;
use asl_def_schema::find;
use asl_json::{Json, Member};
use std::alloc::{AllocError, Global};
use std::collections::HashMap;

/// How the states of a machine stand, by their numbers.
#[derive(Drop)]
pub(crate) struct Standing {
    /// Something leads to them from `StartAt`.
    pub reached: Vec<bool>,
    /// They lead to an end.
    pub ending: Vec<bool>,
}

/// The numbers of the states by their names.
fn places<'a>(alloc: Global, states: &'a [Member]) -> Result<HashMap<&'a str, usize>, AllocError>
    ensures { IfOk result (λ places. (k : List ℕ)
        → place_by places k ≡ place_of (pairs (members_of states.now)) k) }
{
    let mut places = HashMap::new(alloc);
    for (i, state) in states.iter().enumerate() {
        places.insert(state.key.as_str(), i)?;
    }
    Ok(places)
}

/// The states of a machine.
pub(crate) fn states_in(machine: &[Member]) -> &[Member]
    ensures { pairs (members_of result.now) ≡ states_of (pairs (members_of machine.now)) }
{
    match find(machine, "States") {
        Some(Json::Dict(states)) => states.members(),
        _ => &[],
    }
}

/// Adds the number of the state of this name, where there is one.
fn add_number<'a>(
    numbers: &mut Vec<usize>,
    places: &HashMap<&'a str, usize>,
    name: &'a str,
) -> Result<(), AllocError>
    ensures { OnOk result (numbers.new.items
        ≡ numbers.old.items ++ numbers_of (place_by places.now) (name.now ∷ [])) }
{
    match places.get(name) {
        Some(number) => {
            numbers.push(*number)?;
            Ok(())
        }
        None => Ok(()),
    }
}

/// The numbers of the states of these names.
fn numbers<'a>(
    alloc: Global,
    places: &HashMap<&'a str, usize>,
    names: &[&'a str],
) -> Result<Vec<usize>, AllocError>
    ensures { IfOk result (λ numbers. numbers.items
        ≡ numbers_of (place_by places.now) (map (λ l. l.now) names.now)) }
{
    let mut numbers = Vec::new(alloc);
    for name in names {
        add_number(&mut numbers, places, name)?;
    }
    Ok(numbers)
}

/// So many nodes without edges.
fn bare(alloc: Global, count: usize) -> Result<Vec<Vec<usize>>, AllocError>
    ensures size { IfOk result (λ edges. length edges.items ≡ count) }
    ensures edges { IfOk result (λ edges. (i : ℕ)
        → get_or (map (λ v. v.items) edges.items) i [] ≡ []) }
{
    let mut edges = Vec::new(alloc);
    for _ in 0..count {
        edges.push(Vec::new(alloc))?;
    }
    Ok(edges)
}

/// Adds an edge from the one to the other, turned round.
fn turn_one(turned: &mut Vec<Vec<usize>>, from: usize, to: usize) -> Result<(), AllocError>
    ensures size { OnOk result (length turned.new.items ≡ length turned.old.items) }
    ensures edges { OnOk result (HasTurned (map (λ v. v.items) turned.old.items) from (to ∷ [])
        (map (λ v. v.items) turned.new.items)) }
{
    if to >= turned.len() {
        return Ok(());
    }
    turned[to].push(from)?;
    Ok(())
}

/// Adds the edges from a node to these, turned round.
fn turn(turned: &mut Vec<Vec<usize>>, from: usize, targets: &[usize]) -> Result<(), AllocError>
    ensures size { OnOk result (length turned.new.items ≡ length turned.old.items) }
    ensures edges { OnOk result (HasTurned (map (λ v. v.items) turned.old.items) from targets.now
        (map (λ v. v.items) turned.new.items)) }
{
    for to in targets {
        turn_one(turned, from, *to)?;
    }
    Ok(())
}

/// The edges turned round.
fn turned(alloc: Global, edges: &[Vec<usize>]) -> Result<Vec<Vec<usize>>, AllocError>
    ensures { IfOk result (λ turned. AreTurned (map (λ v. v.items) edges.now)
        (map (λ v. v.items) turned.items)) }
{
    let mut turned = bare(alloc, edges.len())?;
    for (from, targets) in edges.iter().enumerate() {
        turn(&mut turned, from, targets)?;
    }
    Ok(turned)
}

/// Whether a name is no state's.
fn leads_astray<'a>(places: &HashMap<&'a str, usize>, names: &[&'a str]) -> bool
    ensures { result ≡ leads_astray (place_by places.now) (map (λ l. l.now) names.now) }
{
    for name in names {
        if places.get(name).is_none() {
            return true;
        }
    }
    false
}

fn is_empty(names: &[&str]) -> bool
    ensures { result ≡ is_empty (map (λ l. l.now) names.now) }
{
    names.is_empty()
}

/// Whether a machine can end with a state that leads to these: it has `"End": true`, leads nowhere, or leads to what is no state, which is a
/// fault.
fn is_end<'a>(places: &HashMap<&'a str, usize>, state: &Json, names: &[&'a str]) -> bool
    requires { map (λ l. l.now) names.now ≡ targets (data_of state.now) }
    ensures { result ≡ is_end (place_by places.now) (data_of state.now) }
{
    is_last(state.get("End")) || is_empty(names) || leads_astray(places, names)
}

/// Where the states of a machine lead.
#[derive(Drop)]
struct Ways {
    /// The edges from each state to those that it leads to.
    edges: Vec<Vec<usize>>,
    /// The numbers of the states with which a machine can end.
    ends: Vec<usize>,
}

/// Adds the number of a state with which a machine can end.
fn add_end(ends: &mut Vec<usize>, state: usize, is_end: bool) -> Result<(), AllocError>
    ensures { OnOk result (ends.new.items
        ≡ ends.old.items ++ (if is_end then state ∷ [] else [])) }
{
    if is_end {
        ends.push(state)?;
    }
    Ok(())
}

fn ways_of<'a>(
    alloc: Global,
    places: &HashMap<&'a str, usize>,
    states: &'a [Member],
) -> Result<Ways, AllocError>
    ensures edges { IfOk result (λ w. map (λ v. v.items) w.edges.items
        ≡ edges_from (place_by places.now) (pairs (members_of states.now))) }
    ensures ends { IfOk result (λ w. w.ends.items
        ≡ ends_from (place_by places.now) 0 (pairs (members_of states.now))) }
{
    let mut edges = Vec::new(alloc);
    let mut ends = Vec::new(alloc);
    for (i, state) in states.iter().enumerate() {
        let names = targets(alloc, &state.value)?;
        add_end(&mut ends, i, is_end(places, &state.value, &names))?;
        edges.push(numbers(alloc, places, &names)?)?;
    }
    Ok(Ways { edges, ends })
}

/// All numbers below this one.
fn numbers_below(alloc: Global, count: usize) -> Result<Vec<usize>, AllocError>
    ensures { IfOk result (λ all. all.items ≡ numbers_below count) }
{
    let mut all = Vec::new(alloc);
    for i in 0..count {
        all.push(i)?;
    }
    Ok(all)
}

/// The number of the state that a value names.
fn place_named<'a>(places: &HashMap<&'a str, usize>, name: Option<&'a Json>) -> Option<usize>
    ensures { result ≡ place_named (place_by places.now)
        (option_map (λ v. data_of v.now) name.entry) }
{
    match name {
        Some(Json::Text(name)) => places.get(name.as_str()).copied(),
        _ => None,
    }
}

/// This number, or all.
fn this_or_all(alloc: Global, count: usize, number: Option<usize>) -> Result<Vec<usize>, AllocError>
    ensures { IfOk result (λ starts. starts.items ≡ this_or_all count number) }
{
    match number {
        Some(number) => {
            let mut starts = Vec::new(alloc);
            starts.push(number)?;
            Ok(starts)
        }
        None => numbers_below(alloc, count),
    }
}

/// How the states of a machine of these members stand.
pub(crate) fn standing_of(alloc: Global, machine: &[Member]) -> Result<Standing, AllocError>
    ensures reached { IfOk result (λ s. (i : ℕ)
        → is_marked s.reached.items i ≡ is_reached (pairs (members_of machine.now)) i) }
    ensures ending { IfOk result (λ s. (i : ℕ)
        → is_marked s.ending.items i ≡ is_ending (pairs (members_of machine.now)) i) }
{
    let states = states_in(machine);
    let places = places(alloc, states)?;
    let ways = ways_of(alloc, &places, states)?;
    let start = place_named(&places, find(machine, "StartAt"));
    let starts = this_or_all(alloc, states.len(), start)?;
    let turned = turned(alloc, &ways.edges)?;
    Ok(Standing {
        reached: reached(alloc, &ways.edges, &starts)?,
        ending: reached(alloc, &turned, &ways.ends)?,
    })
}

impl Standing {
    /// Outside of a machine.
    pub(crate) fn none(alloc: Global) -> Standing
        ensures reached { (i : ℕ) → is_marked result.reached.items i ≡ false }
        ensures ending { (i : ℕ) → is_marked result.ending.items i ≡ false }
    {
        Standing {
            reached: Vec::new(alloc),
            ending: Vec::new(alloc),
        }
    }

    /// Whether something leads to the state of this number.
    pub(crate) fn is_reached(&self, state: usize) -> bool
        ensures { result ≡ is_marked self.now.reached.items state }
    {
        match self.reached.get(state) {
            Some(reached) => *reached,
            None => false,
        }
    }

    /// Whether the state of this number leads to an end.
    pub(crate) fn is_ending(&self, state: usize) -> bool
        ensures { result ≡ is_marked self.now.ending.items state }
    {
        match self.ending.get(state) {
            Some(ending) => *ending,
            None => false,
        }
    }
}

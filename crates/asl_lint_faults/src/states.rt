// The names of the states of a whole definition, which are to differ.
ghost use Rattle.std.specs.Prelude.{◌≡◌, ◌++◌, [], map, reverse, IfOk, if◌then◌else◌};
ghost use Rattle.std.specs.Fmt.{decimal};
ghost use Rattle.asl_json.specs.View.{data_of};
ghost use Rattle.asl_json_data.specs.Data.{pairs, chain};
ghost use Rattle.asl_def_schema.specs.private.Code.{shape_seen};
ghost use Rattle.asl_def_schema.specs.Claims.{step};
ghost use Rattle.asl_def_schema.specs.Members.{sort_at};
ghost use Rattle.asl_def_schema.specs.States.{Has, further, own_name, states_in, item_states, member_states, unique_claims};
ghost use Rattle.asl_lint_faults.specs.Told.{AreTold};

use crate::joining::add;
use asl_def_judge::value::{is_list, is_object};
use asl_def_schema::{Fault, FaultKind, Shape, Sort, Step, item_sort, shape_in, sort_at};
use asl_json::{Items, Json, Member, Members, Txt};
use std::alloc::{AllocError, Global};
use std::collections::HashSet;
use std::marker::Model;

/// A state's name and its place. It keeps the innermost step first; contracts see the outermost step first.
#[derive(Drop)]
pub(crate) struct Named {
    name: Txt,
    steps: Vec<Step>,
}

impl Model for Named {
    ghost use Rattle.std.specs.Prelude.{List, ℕ};
    ghost use Rattle.asl_def_schema.specs.declared.fault.Step.{Step};

    ghost Value = { List ℕ × List Step };

    ghost use Rattle.asl_lint_faults.specs.private.Names.{named};

    ghost view = { named };
}

impl Named {
    /// As it is seen from one step further out.
    fn under(self, alloc: Global, at: usize, name: &str) -> Result<Named, AllocError>
        ensures { IfOk result (λ n. n ≡ further (step at name.now) self) }
    {
        let mut steps = self.steps;
        let step = Txt::of(alloc, name)?;
        steps.push(Step { at, name: step })?;
        Ok(Named {
            name: self.name,
            steps,
        })
    }
}

/// States inside a member, as they are seen from the object.
fn under_name(
    alloc: Global,
    names: Vec<Named>,
    at: usize,
    name: &str,
) -> Result<Vec<Named>, AllocError>
    ensures { IfOk result (λ all. all.items ≡ map (further (step at name.now)) names.items) }
{
    let mut all = Vec::new(alloc);
    for state in names {
        all.push(state.under(alloc, at, name)?)?;
    }
    Ok(all)
}

/// States inside an item, as they are seen from the list.
fn under_index(alloc: Global, names: Vec<Named>, at: usize) -> Result<Vec<Named>, AllocError>
    ensures { IfOk result (λ all. all.items ≡ map (further (step at (decimal at))) names.items) }
{
    if names.is_empty() {
        return Ok(names);
    }
    let mut name = String::new(alloc);
    write!(name, "{at}")?;
    under_name(alloc, names, at, name.as_str())
}

/// The name of a member, where it is a state.
fn own_name(alloc: Global, sort: Sort, name: &str) -> Result<Vec<Named>, AllocError>
    ensures { IfOk result (λ all. all.items ≡ own_name sort name.now) }
{
    let mut all = Vec::new(alloc);
    if matches!(sort, Sort::State) {
        all.push(Named {
            name: Txt::of(alloc, name)?,
            steps: Vec::new(alloc),
        })?;
    }
    Ok(all)
}

/// The states in a value, in document order.
#[cycle(states)]
pub(crate) fn states_in(alloc: Global, sort: Sort, value: &Json) -> Result<Vec<Named>, AllocError>
    ensures { IfOk result (λ all. all.items ≡ states_in sort (data_of value.now)) }
{
    match value {
        Json::List(items) => {
            if !is_list(sort) {
                return Ok(Vec::new(alloc));
            }
            item_states(alloc, item_sort(sort), items)
        }
        Json::Dict(members) => {
            if !is_object(sort) {
                return Ok(Vec::new(alloc));
            }
            let shape = shape_in(sort, members.members());
            member_states(alloc, shape, members)
        }
        _ => Ok(Vec::new(alloc)),
    }
}

#[cycle(states)]
fn item_states(alloc: Global, sort: Sort, items: &Items) -> Result<Vec<Named>, AllocError>
    ensures { IfOk result (λ all. all.items ≡ item_states sort 0 (chain items.now)) }
{
    let values = items.values();
    let mut all = Vec::new(alloc);
    for (i, value) in values.iter().enumerate() {
        let inside = states_in(alloc, sort, value)?;
        let mut states = under_index(alloc, inside, i)?;
        all.append(&mut states)?;
    }
    Ok(all)
}

#[cycle(states)]
fn member_states(alloc: Global, shape: Shape, members: &Members) -> Result<Vec<Named>, AllocError>
    ensures { IfOk result (λ all. all.items
        ≡ member_states (shape_seen shape) 0 (pairs members.now)) }
{
    let pairs = members.members();
    let mut all = Vec::new(alloc);
    for (i, member) in pairs.iter().enumerate() {
        let inside = states_at(alloc, shape, member)?;
        let mut states = under_name(alloc, inside, i, member.key.as_str())?;
        all.append(&mut states)?;
    }
    Ok(all)
}

/// A state's own name comes before those inside it.
#[cycle(states)]
fn states_at(alloc: Global, shape: Shape, member: &Member) -> Result<Vec<Named>, AllocError>
    ensures { IfOk result (λ all. all.items
        ≡ own_name (sort_at (shape_seen shape) member.now.key) member.now.key
        ++ states_in (sort_at (shape_seen shape) member.now.key) (data_of member.now.value)) }
{
    let key = member.key.as_str();
    let sort = sort_at(shape, key);
    let mut states = own_name(alloc, sort, key)?;
    let mut inside = states_in(alloc, sort, &member.value)?;
    states.append(&mut inside)?;
    Ok(states)
}

/// No names, before the first state.
pub(crate) fn no_names(alloc: Global) -> HashSet<String>
    ensures { Has result [] }
{
    HashSet::new(alloc)
}

/// The fault of a state at this place, whose name comes again.
fn doubled_at(again: bool, steps: Vec<Step>) -> Option<Fault>
    ensures { result ≡ (if again then Some (FaultKind.DuplicateState, reverse steps.items) else None) }
{
    if again {
        Some(Fault::at(FaultKind::DuplicateState, steps))
    } else {
        None
    }
}

/// The faults of names that a state before has.
pub(crate) fn doubled(alloc: Global, names: Vec<Named>) -> Result<Vec<Fault>, AllocError>
    ensures { IfOk result (λ told. AreTold (unique_claims [] names.items) told.items) }
{
    let mut seen = no_names(alloc);
    let mut told = Vec::new(alloc);
    for state in names {
        let Named { name, steps } = state;
        let again = seen.contains(name.as_str());
        seen.insert(name.into_string())?;
        add(&mut told, doubled_at(again, steps))?;
    }
    Ok(told)
}

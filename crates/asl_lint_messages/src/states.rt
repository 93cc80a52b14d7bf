// The states of a definition by their names.
ghost use Rattle.std.specs.Prelude.{◌≡◌, ◌++◌, map, reverse, IfOk};
ghost use Rattle.asl_json_data.specs.Data.{pairs, chain};
ghost use Rattle.asl_json.specs.View.{data_of};
ghost use Rattle.asl_def_schema.specs.Members.{sort_at};
ghost use Rattle.asl_def_schema.specs.private.Code.{shape_seen};
ghost use Rattle.asl_lint_messages.specs.States.{further, item_states, member_states, own_state, states_in, states_of};

use asl_def_judge::value::{is_list, is_object};
use asl_def_schema::{Kind, Shape, Sort, item_sort, kind_named, shape_in, sort_at};
use asl_json::{Items, Json, Member, Members};
use std::alloc::{AllocError, Global};
use std::collections::HashMap;
use std::marker::Model;

/// A state. It keeps the innermost number on the way to it first; contracts see the outermost first.
#[derive(Drop)]
pub struct State<'a> {
    name: &'a str,
    kind: Option<Kind>,
    back: Vec<usize>,
}

impl<'a> Model for State<'a> {
    ghost use Rattle.asl_lint_messages.specs.States.{Stated};

    ghost Value = { Stated };

    ghost use Rattle.asl_lint_messages.specs.private.States.{stated};

    ghost view = { stated };
}

impl<'a> State<'a> {
    /// Its name.
    pub fn name(&self) -> &'a str
        ensures { result.now ≡ self.now.name }
    {
        self.name
    }

    /// Its type; none where no type has the name.
    pub fn kind(&self) -> Option<Kind>
        ensures { result ≡ self.now.kind }
    {
        self.kind
    }

    /// The numbers on the way to it, from the outermost in. The error is that memory ran out.
    pub fn place(&self, alloc: Global) -> Result<Vec<usize>, AllocError>
        ensures { IfOk result (λ p. p.items ≡ self.now.place) }
    {
        let mut place = Vec::from_slice(alloc, &self.back)?;
        place.reverse();
        Ok(place)
    }

    /// As it is seen from one step further out.
    fn under(self, at: usize) -> Result<State<'a>, AllocError>
        ensures { IfOk result (λ s. s ≡ further at self.entry) }
    {
        let mut back = self.back;
        back.push(at)?;
        Ok(State {
            name: self.name,
            kind: self.kind,
            back,
        })
    }
}

/// States inside a member or an item, as they are seen from the object or the list.
fn under<'a>(alloc: Global, states: Vec<State<'a>>, at: usize) -> Result<Vec<State<'a>>, AllocError>
    ensures { IfOk result (λ all. all.items ≡ map (further at) states.entry.items) }
{
    let mut all = Vec::with_capacity(alloc, states.len())?;
    for state in states {
        all.push(state.under(at)?)?;
    }
    Ok(all)
}

/// A member's value by itself, where it is a state.
fn own_state<'a>(
    alloc: Global,
    sort: Sort,
    name: &'a str,
    value: &Json,
) -> Result<Vec<State<'a>>, AllocError>
    ensures { IfOk result (λ all. all.items ≡ own_state sort name.now (data_of value.now)) }
{
    let mut all = Vec::new(alloc);
    if matches!(sort, Sort::State) {
        all.push(State {
            name,
            kind: kind_named(value.get("Type")),
            back: Vec::new(alloc),
        })?;
    }
    Ok(all)
}

/// The states in a value, in document order.
#[cycle(states)]
fn states_in<'a>(alloc: Global, sort: Sort, value: &'a Json) -> Result<Vec<State<'a>>, AllocError>
    ensures { IfOk result (λ all. all.items ≡ states_in sort (data_of value.now)) }
{
    match value {
        Json::List(items) => {
            if !is_list(sort) {
                return Ok(Vec::new(alloc));
            }
            item_states(alloc, item_sort(sort), items)
        }
        Json::Dict(members) => {
            if !is_object(sort) {
                return Ok(Vec::new(alloc));
            }
            let shape = shape_in(sort, members.members());
            member_states(alloc, shape, members)
        }
        _ => Ok(Vec::new(alloc)),
    }
}

#[cycle(states)]
fn item_states<'a>(
    alloc: Global,
    sort: Sort,
    items: &'a Items,
) -> Result<Vec<State<'a>>, AllocError>
    ensures { IfOk result (λ all. all.items ≡ item_states sort 0 (chain items.now)) }
{
    let values = items.values();
    let mut all = Vec::new(alloc);
    for (i, value) in values.iter().enumerate() {
        let inside = states_in(alloc, sort, value)?;
        let mut states = under(alloc, inside, i)?;
        all.append(&mut states)?;
    }
    Ok(all)
}

#[cycle(states)]
fn member_states<'a>(
    alloc: Global,
    shape: Shape,
    members: &'a Members,
) -> Result<Vec<State<'a>>, AllocError>
    ensures { IfOk result (λ all. all.items
        ≡ member_states (shape_seen shape) 0 (pairs members.now)) }
{
    let pairs = members.members();
    let mut all = Vec::new(alloc);
    for (i, member) in pairs.iter().enumerate() {
        let inside = states_at(alloc, shape, member)?;
        let mut states = under(alloc, inside, i)?;
        all.append(&mut states)?;
    }
    Ok(all)
}

/// A state comes before those inside it.
#[cycle(states)]
fn states_at<'a>(
    alloc: Global,
    shape: Shape,
    member: &'a Member,
) -> Result<Vec<State<'a>>, AllocError>
    ensures { IfOk result (λ all. all.items
        ≡ own_state (sort_at (shape_seen shape) member.now.key) member.now.key
        (data_of member.now.value)
        ++ states_in (sort_at (shape_seen shape) member.now.key) (data_of member.now.value)) }
{
    let key = member.key.as_str();
    let sort = sort_at(shape, key);
    let mut states = own_state(alloc, sort, key, &member.value)?;
    let mut inside = states_in(alloc, sort, &member.value)?;
    states.append(&mut inside)?;
    Ok(states)
}

/// The states of a definition, those inside others too, in document order.
#[derive(Drop)]
pub struct States<'a> {
    pub list: Vec<State<'a>>,
    numbers: HashMap<String, usize>,
}

/// The number of the first state of each name.
fn numbers_of(alloc: Global, states: &[State<'_>]) -> Result<HashMap<String, usize>, AllocError> {
    let mut numbers = HashMap::new(alloc);
    for (number, state) in states.iter().enumerate() {
        if numbers.get(state.name).is_none() {
            drop(numbers.insert(String::from_str(alloc, state.name)?, number)?);
        }
    }
    Ok(numbers)
}

impl<'a> States<'a> {
    /// The states of a definition. The error is that memory ran out.
    pub fn of(alloc: Global, definition: &'a Json) -> Result<States<'a>, AllocError>
        ensures { IfOk result (λ s. s.list.items ≡ states_of (data_of definition.now)) }
    {
        let list = states_in(alloc, Sort::Definition, definition)?;
        let numbers = numbers_of(alloc, &list)?;
        Ok(States { list, numbers })
    }

    /// The state of this name: of several the first.
    pub fn find(&self, name: &str) -> Option<&State<'a>> {
        match self.numbers.get(name) {
            Some(number) => self.list.get(*number),
            None => None,
        }
    }
}

// The typed machine of a definition without faults.
ghost use Rattle.std.specs.Prelude.{◌≡◌, ℕ, true, List, [], ◌∷◌, ◌++◌, Some, IfOk, OnOk, codes, option_map, length};
ghost use Rattle.asl_json.specs.View.{data_of};
ghost use Rattle.asl_json.specs.Meaning.{value_at};
ghost use Rattle.asl_json_data.specs.Data.{text, list, dict, chain, pairs};
ghost use Rattle.asl_json_data.specs.Distinct.{AreDistinct};
ghost use Rattle.asl_def_schema.specs.declared.sort.Sort.TheVariants.{Machines as machines_sort, State as state_sort, States as states_sort};
ghost use Rattle.asl_def_schema.specs.declared.sort.Form.TheVariants.{Object, List as ListForm};
ghost use Rattle.asl_def_schema.specs.Demands.{is_of};
ghost use Rattle.asl_def_schema.specs.declared.sort.Kind.TheVariants.{Parallel as parallel_kind, Map as map_kind};
ghost use Rattle.asl_def_schema.specs.Members.{kind_named};
ghost use Rattle.asl_def_schema.specs.Canon.{Named, canon};
ghost use Rattle.asl_def_schema.specs.Clean.{IsClean};
ghost use Rattle.asl_def_shared.specs.Built.{IsOfKind};
ghost use Rattle.asl_def.specs.private.Built.{Grows, GrowsInside, HasRoom, HasRoomInside, HasRoomFor, IsMachine, IsCompiled, AreBodies, IsState, IsSpan, AreOwn, rows_in};

use crate::table::Table;
use asl_def_fields::read_optional;
use asl_def_schema::{Kind, kind_named};
use asl_def_shared::{Bodies, Body, Target};
use asl_def_states::{Choice, Fail, Map, Parallel, Pass, Processor, State, Succeed, Task, Wait};
use asl_json::{Items, Json, Members};
use std::alloc::{AllocError, Global};

/// A state that does not stand in the table yet.
#[derive(Drop)]
struct Own {
    name: String,
    state: State,
}

/// The states of a machine in the table: so many with the numbers from `first` on.
#[derive(Drop)]
pub(crate) struct Span {
    pub(crate) first: usize,
    pub(crate) count: usize,
}

/// The members of a value that is an object.
pub(crate) fn object_in(value: &Json) -> &Members
    requires { is_of Object (data_of value.now) ≡ true }
    ensures { data_of value.now ≡ dict (pairs result.now) }
{
    let Json::Dict(members) = value else {
        unreachable!();
    };
    members
}

/// The items of a value that is a list.
fn list_in(value: &Json) -> &Items
    requires { is_of ListForm (data_of value.now) ≡ true }
    ensures { data_of value.now ≡ list (chain result.now) }
{
    let Json::List(items) = value else {
        unreachable!();
    };
    items
}

/// The type that the members of a state name.
fn kind_of(members: &Members) -> Option<Kind>
    ensures kind { result ≡ kind_named (value_at (codes "Type") (pairs members.now)) }
    // No name comes twice.
    ensures distinct { AreDistinct [] members.now }
{
    let _members = members.members();
    kind_named(members.find("Type"))
}

/// States go last, one after another.
fn push_all(table: &mut Table, own: Vec<Own>) -> Result<(), AllocError>
    requires { HasRoomFor table.old own.items }
    ensures { OnOk result (table.new ≡ table.old ++ rows_in table.old own.items) }
{
    for row in own {
        table.push(row.name, row.state)?;
    }
    Ok(())
}

#[cycle(build)]
fn parallel(alloc: Global, table: &mut Table, members: &Members) -> Result<Parallel, AllocError>
    requires kind { IsOfKind parallel_kind members.now }
    requires room { HasRoom table.old state_sort (dict (pairs members.now)) }
    ensures grows { OnOk result (Grows state_sort (dict (pairs members.now)) table.old table.new) }
    ensures state { IfOk result (λ x. IsState table.new (dict (pairs members.now))
        (State.Parallel x)) }
{
    let Some(branches) = members.find("Branches") else {
        unreachable!();
    };
    let bodies = bodies(alloc, table, list_in(branches))?;
    Parallel::read(alloc, members, Bodies { bodies })
}

#[cycle(build)]
fn map(alloc: Global, table: &mut Table, members: &Members) -> Result<Map, AllocError>
    requires kind { IsOfKind map_kind members.now }
    requires room { HasRoom table.old state_sort (dict (pairs members.now)) }
    ensures grows { OnOk result (Grows state_sort (dict (pairs members.now)) table.old table.new) }
    ensures state { IfOk result (λ x. IsState table.new (dict (pairs members.now)) (State.Map x)) }
{
    if let Some(processor) = members.find("ItemProcessor") {
        let machine = object_in(processor);
        let config = read_optional(alloc, machine.find("ProcessorConfig"))?;
        let body = body(alloc, table, machine)?;
        return Map::read(alloc, members, Processor::ItemProcessor(config, body));
    }
    let Some(iterator) = members.find("Iterator") else {
        unreachable!();
    };
    let body = body(alloc, table, object_in(iterator))?;
    Map::read(alloc, members, Processor::Iterator(body))
}

#[cycle(build)]
fn state(alloc: Global, table: &mut Table, value: &Json) -> Result<State, AllocError>
    requires clean { IsClean state_sort (data_of value.now) }
    requires room { HasRoom table.old state_sort (data_of value.now) }
    ensures grows { OnOk result (Grows state_sort (data_of value.now) table.old table.new) }
    ensures state { IfOk result (λ s. IsState table.new (data_of value.now) s) }
{
    let members = object_in(value);
    match kind_of(members) {
        Some(Kind::Task) => Ok(State::Task(Task::read(alloc, members)?)),
        Some(Kind::Pass) => Ok(State::Pass(Pass::read(alloc, members)?)),
        Some(Kind::Choice) => Ok(State::Choice(Choice::read(alloc, members)?)),
        Some(Kind::Wait) => Ok(State::Wait(Wait::read(alloc, members)?)),
        Some(Kind::Parallel) => Ok(State::Parallel(parallel(alloc, table, members)?)),
        Some(Kind::Map) => Ok(State::Map(map(alloc, table, members)?)),
        Some(Kind::Succeed) => Ok(State::Succeed(Succeed::read(alloc, members)?)),
        Some(Kind::Fail) => Ok(State::Fail(Fail::read(alloc, members)?)),
        None => unreachable!(),
    }
}

#[cycle(build)]
fn bodies(alloc: Global, table: &mut Table, machines: &Items) -> Result<Vec<Body>, AllocError>
    requires clean { IsClean machines_sort (list (chain machines.now)) }
    requires room { HasRoom table.old machines_sort (list (chain machines.now)) }
    ensures grows { OnOk result (Grows machines_sort (list (chain machines.now)) table.old
        table.new) }
    ensures bodies { IfOk result (λ bs. AreBodies table.new machines.now bs.items) }
{
    let values = machines.values();
    let mut bodies = Vec::new(alloc);
    for value in values {
        let body = body(alloc, table, object_in(value))?;
        bodies.push(body)?;
    }
    Ok(bodies)
}

/// A machine inside a state, whatever it is called there.
#[cycle(build)]
fn body(alloc: Global, table: &mut Table, members: &Members) -> Result<Body, AllocError>
    requires machine { IsMachine (pairs members.now) }
    requires room { HasRoomInside table.old (pairs members.now) }
    ensures grows { OnOk result (GrowsInside (pairs members.now) table.old table.new) }
    ensures body { IfOk result (λ b. IsCompiled table.new (pairs members.now) b) }
{
    let comment = read_optional(alloc, members.find("Comment"))?;
    let start = Target::read(alloc, members.find("StartAt"))?;
    let Some(own) = members.find("States") else {
        unreachable!();
    };
    let span = states(alloc, table, object_in(own))?;
    Ok(Body {
        comment,
        start,
        first: span.first,
        count: span.count,
    })
}

/// The states of a machine: first those of the machines inside them, then its own.
#[cycle(build)]
pub(crate) fn states(alloc: Global, table: &mut Table, states: &Members) -> Result<Span, AllocError>
    requires clean { IsClean states_sort (dict (pairs states.now)) }
    requires room { HasRoom table.old states_sort (dict (pairs states.now)) }
    ensures grows { OnOk result (Grows states_sort (dict (pairs states.now)) table.old table.new) }
    ensures span { IfOk result (λ s. IsSpan table.new states.now s) }
{
    let members = states.members();
    let mut own = Vec::new(alloc);
    for member in members {
        let name = member.key.try_clone(alloc)?.into_string();
        let state = state(alloc, table, &member.value)?;
        own.push(Own { name, state })?;
    }
    let first = table.len();
    let count = own.len();
    push_all(table, own)?;
    Ok(Span { first, count })
}

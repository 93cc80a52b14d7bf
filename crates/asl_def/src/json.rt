// Machines as JSON.
ghost use Rattle.std.specs.Prelude.{◌≡◌, ◌≤◌, ◌+◌, IfOk, length, take, drop};
ghost use Rattle.asl_json.specs.View.{data_of};
ghost use Rattle.asl_def_shared.specs.Bodies.{IsWithin, AreWithin, bodies_of, processor_of};
ghost use Rattle.asl_def_states.specs.Show.{StateIsWithin, state_of};

use crate::table::Table;
use asl_def_fields::{ProcessorConfig, object};
use asl_def_shared::{Body, and, with_optional};
use asl_def_states::State;
use asl_json::{Items, Json, Members, Txt};
use std::alloc::{AllocError, Global};

/// The canonical object of a machine inside a definition; `config` is its `ProcessorConfig`, which an `ItemProcessor` may have.
/// The error is that memory ran out.
#[cycle(json)]
pub(crate) fn body_json(
    alloc: Global,
    table: &Table,
    config: Option<ProcessorConfig>,
    body: &Body,
) -> Result<Json, AllocError>
    requires { IsWithin (length table.now) body.now }
    ensures { IfOk result (λ j. data_of j ≡ processor_of table.now config body.now) }
{
    let own = with_optional(alloc, Vec::new(alloc), "Comment", &body.comment)?;
    let own = with_optional(alloc, own, "ProcessorConfig", &config)?;
    let start = body.start.json(alloc)?;
    let own = and(own, "StartAt", Some(start))?;
    let states = states_json(alloc, table, body.first, body.count)?;
    let own = and(own, "States", Some(Json::Dict(states)))?;
    object(alloc, own)
}

/// So many states with the numbers from `first` on, by name. The error is that memory ran out.
#[cycle(json)]
pub(crate) fn states_json(
    alloc: Global,
    table: &Table,
    first: usize,
    count: usize,
) -> Result<Members, AllocError>
    requires { first + count ≤ length table.now }
    ensures { IfOk result (λ ms. ms ≡ take count (drop first table.now)) }
{
    let _len = table.len();
    table.names_differ();
    let end = first + count;
    let mut members = Members::new(alloc);
    for number in first..end {
        let Some((name, state)) = table.at(number) else {
            unreachable!();
        };
        let name = Txt::of(alloc, name.as_str())?;
        let state = state_json(alloc, table, number, state)?;
        members.push(name, state)?;
    }
    Ok(members)
}

#[cycle(json)]
fn state_json(
    alloc: Global,
    table: &Table,
    number: usize,
    state: &State,
) -> Result<Json, AllocError>
    requires within { StateIsWithin number state.now }
    requires inside { number ≤ length table.now }
    ensures { IfOk result (λ j. data_of j ≡ state_of table.now state.now) }
{
    match state {
        State::Task(task) => task.json(alloc),
        State::Pass(pass) => pass.json(alloc),
        State::Choice(choice) => choice.json(alloc),
        State::Wait(wait) => wait.json(alloc),
        State::Parallel(parallel) => {
            let branches = bodies_json(alloc, table, number, parallel.branches.as_slice())?;
            parallel.json(alloc, branches)
        }
        State::Map(map) => {
            let config = map.processor.config();
            let machine = body_json(alloc, table, config, map.processor.machine())?;
            map.json(alloc, machine)
        }
        State::Succeed(succeed) => succeed.json(alloc),
        State::Fail(fail) => fail.json(alloc),
    }
}

#[cycle(json)]
fn bodies_json(
    alloc: Global,
    table: &Table,
    number: usize,
    bodies: &[Body],
) -> Result<Items, AllocError>
    requires within { AreWithin number bodies.now }
    requires inside { number ≤ length table.now }
    ensures { IfOk result (λ js. js ≡ bodies_of table.now bodies.now) }
{
    let mut machines = Vec::new(alloc);
    for body in bodies {
        machines.push(body_json(alloc, table, None, body)?)?;
    }
    Ok(Items::of_values(machines))
}

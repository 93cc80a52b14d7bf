// The Tasks of a definition.
ghost use Rattle.std.specs.Prelude.{◌≡◌, ◌++◌, IfOk, OnOk, map, option_map};
ghost use Rattle.std.specs.List.{flat_map};
ghost use Rattle.asl_json.specs.View.{data_of, member_of};
ghost use Rattle.asl_mock_sample.specs.Calls.{call_by, own_call, calls_in};

use crate::call::Call;
use asl_def_walk::states_in;
use asl_json::{Json, Member, Txt};
use std::alloc::{AllocError, Global};

/// Adds the Task of this name that invokes a resource, where there is one.
fn add_call_by(
    alloc: Global,
    calls: &mut Vec<Call>,
    name: &str,
    resource: Option<&Json>,
) -> Result<(), AllocError>
    ensures { OnOk result (calls.new.items ≡ calls.old.items
        ++ call_by name.now (option_map (λ v. data_of v.now) resource.entry)) }
{
    let Some(Json::Text(resource)) = resource else {
        return Ok(());
    };
    let name = Txt::of(alloc, name)?;
    let resource = Txt::of(alloc, resource.as_str())?;
    calls.push(Call { name, resource })?;
    Ok(())
}

/// Adds a state, where it is a Task.
fn add_own_call(alloc: Global, calls: &mut Vec<Call>, state: &Member) -> Result<(), AllocError>
    ensures { OnOk result (calls.new.items ≡ calls.old.items ++ own_call (member_of state.now)) }
{
    add_call_by(
        alloc,
        calls,
        state.key.as_str(),
        state.value.get("Resource"),
    )
}

fn add_calls(alloc: Global, calls: &mut Vec<Call>, states: &[&Member]) -> Result<(), AllocError>
    ensures { OnOk result (calls.new.items
        ≡ calls.old.items ++ flat_map own_call (map (λ m. member_of m.now) states.now)) }
{
    for state in states {
        add_own_call(alloc, calls, state)?;
    }
    Ok(())
}

/// The Tasks of a definition, at any depth, in document order. The error is that memory ran out.
pub(crate) fn calls_in(alloc: Global, definition: &Json) -> Result<Vec<Call>, AllocError>
    ensures { IfOk result (λ v. v.items ≡ calls_in (data_of definition.now)) }
{
    let states = states_in(alloc, definition)?;
    let mut calls = Vec::new(alloc);
    add_calls(alloc, &mut calls, &states)?;
    Ok(calls)
}

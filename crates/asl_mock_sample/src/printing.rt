// The mock file.
ghost use Rattle.std.specs.Prelude.{◌≡◌, ◌++◌, IfOk, OnOk, string_bytes};
ghost use Rattle.asl_json.specs.View.{data_of, members_of};
ghost use Rattle.asl_json_data.specs.Compact.{separator};
ghost use Rattle.asl_mock_sample.specs.Files.{state_entry, state_entries, return_open, answer_to, answer_entry, answer_entries, machines_open, case_open, machines_part, responses_open, responses_part, sample_of, sample_text};

use crate::answers::answer_of;
use crate::call::Call;
use crate::merging::both;
use crate::tasks::calls_in;
use crate::wants::{last_of, wanted_results};
use asl_json::{Json, Member};
use asl_json_write::{put, put_quoted};
use std::alloc::{AllocError, Global};

/// Appends a comma before each part but the first.
fn separate(out: &mut String, number: usize) -> Result<(), AllocError>
    ensures { OnOk result (string_bytes out.new ≡ string_bytes out.old ++ separator number) }
{
    if number > 0 {
        out.push(',')?;
    }
    Ok(())
}

fn put_state(out: &mut String, call: &Call) -> Result<(), AllocError>
    ensures { OnOk result (string_bytes out.new ≡ string_bytes out.old ++ state_entry call.now) }
{
    put_quoted(out, call.name.as_str())?;
    out.push_str(":")?;
    put_quoted(out, call.name.as_str())
}

fn put_states(out: &mut String, calls: &[Call]) -> Result<(), AllocError>
    ensures { OnOk result (string_bytes out.new ≡ string_bytes out.old ++ state_entries 0 calls.now) }
{
    for (number, call) in calls.iter().enumerate() {
        separate(out, number)?;
        put_state(out, call)?;
    }
    Ok(())
}

/// Appends what stands before the answer to each invocation.
#[tactic(auto, unfolding(crate::specs::Files::return_open))]
fn put_return_open(out: &mut String) -> Result<(), AllocError>
    ensures { OnOk result (string_bytes out.new ≡ string_bytes out.old ++ return_open) }
{
    out.push_str(":{\"0-999999999\":{\"Return\":")
}

/// What the service answers to a Task, with what the definition reads of it.
fn answer_to(alloc: Global, wanted: &[Member], call: &Call) -> Result<Json, AllocError>
    ensures { IfOk result (λ v. data_of v ≡ answer_to (members_of wanted.now) call.now) }
{
    let answer = answer_of(alloc, call.resource.as_str())?;
    let more = last_of(alloc, wanted, call.name.as_str())?;
    both(alloc, answer, &more)
}

fn put_answer(
    alloc: Global,
    out: &mut String,
    wanted: &[Member],
    call: &Call,
) -> Result<(), AllocError>
    ensures { OnOk result (string_bytes out.new
        ≡ string_bytes out.old ++ answer_entry (members_of wanted.now) call.now) }
{
    let answer = answer_to(alloc, wanted, call)?;
    put_quoted(out, call.name.as_str())?;
    put_return_open(out)?;
    put(out, &answer)?;
    out.push_str("}}")
}

fn put_answers(
    alloc: Global,
    out: &mut String,
    wanted: &[Member],
    calls: &[Call],
) -> Result<(), AllocError>
    ensures { OnOk result (string_bytes out.new
        ≡ string_bytes out.old ++ answer_entries (members_of wanted.now) 0 calls.now) }
{
    for (number, call) in calls.iter().enumerate() {
        separate(out, number)?;
        put_answer(alloc, out, wanted, call)?;
    }
    Ok(())
}

/// Appends what stands before the name of the machine.
#[tactic(auto, unfolding(crate::specs::Files::machines_open))]
fn put_machines_open(out: &mut String) -> Result<(), AllocError>
    ensures { OnOk result (string_bytes out.new ≡ string_bytes out.old ++ machines_open) }
{
    out.push_str("{\"StateMachines\":{")
}

/// Appends what stands before the Tasks of the case.
#[tactic(auto, unfolding(crate::specs::Files::case_open))]
fn put_case_open(out: &mut String) -> Result<(), AllocError>
    ensures { OnOk result (string_bytes out.new ≡ string_bytes out.old ++ case_open) }
{
    out.push_str(":{\"TestCases\":{\"good\":{")
}

fn put_machines(out: &mut String, machine: &str, calls: &[Call]) -> Result<(), AllocError>
    ensures { OnOk result (string_bytes out.new
        ≡ string_bytes out.old ++ machines_part machine.now calls.now) }
{
    put_machines_open(out)?;
    put_quoted(out, machine)?;
    put_case_open(out)?;
    put_states(out, calls)?;
    out.push_str("}}}},")
}

/// Appends what stands before the responses.
#[tactic(auto, unfolding(crate::specs::Files::responses_open))]
fn put_responses_open(out: &mut String) -> Result<(), AllocError>
    ensures { OnOk result (string_bytes out.new ≡ string_bytes out.old ++ responses_open) }
{
    out.push_str("\"MockedResponses\":{")
}

fn put_responses(
    alloc: Global,
    out: &mut String,
    wanted: &[Member],
    calls: &[Call],
) -> Result<(), AllocError>
    ensures { OnOk result (string_bytes out.new
        ≡ string_bytes out.old ++ responses_part (members_of wanted.now) calls.now) }
{
    put_responses_open(out)?;
    put_answers(alloc, out, wanted, calls)?;
    out.push_str("}}\n")
}

/// A mock file to begin with, for a definition in canonical form whose machine has this name: one test case, `good`, in which each Task gets
/// an answer of the shape of its service integration, with what the definition reads of it, however often it is invoked. The error is that memory
/// ran out.
pub fn sample(alloc: Global, machine: &str, definition: &Json) -> Result<String, AllocError>
    ensures { IfOk result (λ t. string_bytes t ≡ sample_text machine.now (data_of definition.now)) }
{
    let calls = calls_in(alloc, definition)?;
    let wanted = wanted_results(alloc, definition)?;
    let mut out = String::new(alloc);
    put_machines(&mut out, machine, &calls)?;
    put_responses(alloc, &mut out, &wanted, &calls)?;
    Ok(out)
}

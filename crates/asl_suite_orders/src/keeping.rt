// An outcome of a search as a test.
ghost use Rattle.std.specs.Prelude.{◌≡◌, ◌++◌, IfOk, OnOk, string_bytes};
ghost use Rattle.std.specs.List.{flat_map};
ghost use Rattle.asl_json.specs.View.{data_of};
ghost use Rattle.asl_suite_orders.specs.Keeping.{head, text_member, maybe_member, value_member, end_text, step_text, more_text, steps_text, machine_text, begin_text, kept_text};

use asl_explore::Found;
use asl_json::{Json, Txt};
use asl_json_write::{put, put_quoted};
use asl_run_input::{Setup, StepAt};
use asl_run_state::Outcome;
use asl_time::put_stamp;
use std::alloc::{AllocError, Global};

/// Appends the name of a member behind a comma.
fn put_head(out: &mut String, name: &str) -> Result<(), AllocError>
    ensures { OnOk result (string_bytes out.new ≡ string_bytes out.old ++ head name.now) }
{
    out.push(',')?;
    put_quoted(out, name)?;
    out.push(':')
}

#[tactic(auto, unfolding(crate::specs::Keeping::text_member))]
fn put_text(out: &mut String, name: &str, text: &str) -> Result<(), AllocError>
    ensures { OnOk result (string_bytes out.new ≡ string_bytes out.old ++ text_member name.now text.now) }
{
    put_head(out, name)?;
    put_quoted(out, text)
}

#[tactic(auto, unfolding(crate::specs::Keeping::value_member))]
fn put_value(out: &mut String, name: &str, value: &Json) -> Result<(), AllocError>
    ensures { OnOk result (string_bytes out.new ≡ string_bytes out.old ++ value_member name.now (data_of value.now)) }
{
    put_head(out, name)?;
    put(out, value)
}

/// Appends a member that is null where there is no text.
#[tactic(auto, unfolding(crate::specs::Keeping::maybe_member))]
fn put_maybe(out: &mut String, name: &str, text: &Option<Txt>) -> Result<(), AllocError>
    ensures { OnOk result (string_bytes out.new ≡ string_bytes out.old ++ maybe_member name.now text.now) }
{
    put_head(out, name)?;
    match text {
        Some(text) => put_quoted(out, text.as_str()),
        None => out.push_str("null"),
    }
}

/// Appends how an execution with this outcome is to end.
#[tactic(auto, unfolding(crate::specs::Keeping::end_text))]
fn put_end(out: &mut String, outcome: &Outcome) -> Result<(), AllocError>
    ensures { OnOk result (string_bytes out.new ≡ string_bytes out.old ++ end_text outcome.now) }
{
    match outcome {
        Outcome::Running => Ok(()),
        Outcome::Succeeded(output) => {
            put_text(out, "status", "SUCCEEDED")?;
            put_value(out, "output", output.get())
        }
        Outcome::Failed(error) => {
            put_text(out, "status", "FAILED")?;
            put_maybe(out, "error", &error.error)?;
            put_maybe(out, "cause", &error.cause)
        }
        Outcome::TimedOut => put_text(out, "status", "TIMED_OUT"),
    }
}

fn put_step(out: &mut String, step: &StepAt) -> Result<(), AllocError>
    ensures { OnOk result (string_bytes out.new ≡ string_bytes out.old ++ step_text step.now) }
{
    out.push('"')?;
    step.place.put(out)?;
    out.push(' ')?;
    put_stamp(out, step.moment)?;
    out.push('"')
}

fn put_more(out: &mut String, step: &StepAt) -> Result<(), AllocError>
    ensures { OnOk result (string_bytes out.new ≡ string_bytes out.old ++ more_text step.now) }
{
    out.push(',')?;
    put_step(out, step)
}

fn put_rest(out: &mut String, steps: &[StepAt]) -> Result<(), AllocError>
    ensures { OnOk result (string_bytes out.new ≡ string_bytes out.old ++ flat_map more_text steps.now) }
{
    for step in steps {
        put_more(out, step)?;
    }
    Ok(())
}

fn put_steps(out: &mut String, steps: &[StepAt]) -> Result<(), AllocError>
    ensures { OnOk result (string_bytes out.new ≡ string_bytes out.old ++ steps_text steps.now) }
{
    match steps {
        [] => Ok(()),
        [first, rest @ ..] => {
            put_step(out, first)?;
            put_rest(out, rest)
        }
    }
}

#[tactic(auto, unfolding(crate::specs::Keeping::machine_text))]
fn put_machine(out: &mut String, name: &str) -> Result<(), AllocError>
    ensures { OnOk result (string_bytes out.new ≡ string_bytes out.old ++ machine_text name.now) }
{
    out.push('{')?;
    put_quoted(out, "machine")?;
    out.push(':')?;
    put_quoted(out, name)
}

/// Appends which case is run on which input.
#[tactic(auto, unfolding(crate::specs::Keeping::begin_text))]
fn put_begin(out: &mut String, case: &str, setup: &Setup) -> Result<(), AllocError>
    ensures { OnOk result (string_bytes out.new ≡ string_bytes out.old ++ begin_text case.now setup.now) }
{
    put_machine(out, setup.name_of_machine.as_str())?;
    put_text(out, "case", case)?;
    put_value(out, "input", setup.input.get())
}

/// An outcome of a search of an execution of the case of this name, as an expectation file of one test, which takes the steps that end in it. The
/// error is that memory ran out.
pub fn kept_test(
    alloc: Global,
    case: &str,
    setup: &Setup,
    found: &Found,
) -> Result<String, AllocError>
    ensures { IfOk result (λ t. string_bytes t ≡ kept_text case.now setup.now found.now) }
{
    let mut out = String::new(alloc);
    out.push('[')?;
    put_begin(&mut out, case, setup)?;
    put_end(&mut out, &found.outcome)?;
    put_head(&mut out, "steps")?;
    out.push('[')?;
    put_steps(&mut out, &found.steps)?;
    out.push_str("]}]\n")?;
    Ok(out)
}

// The steps of a test.
ghost use Rattle.std.specs.Prelude.{◌≡◌, ◌↔◌, ℕ, List, Some, IfOk, option_map};
ghost use Rattle.asl_json_data.specs.Data.{chain};
ghost use Rattle.asl_json.specs.View.{data_of, items_of};
ghost use Rattle.asl_run_input.specs.StepsFile.{IsStepLine};
ghost use Rattle.asl_run_input.specs.declared.step_at.StepAt.{StepAt};
ghost use Rattle.asl_suite_file.specs.Steps.{step_in, step_of, steps_in, steps_of};

use crate::expectation::Steps;
use asl_json::Json;
use asl_run_input::{StepAt, read_step};
use std::alloc::{AllocError, Global};

/// The step that a line spells. The error is that memory ran out.
fn step_in(alloc: Global, line: &str) -> Result<Option<StepAt>, AllocError>
    ensures { IfOk result (λ o. o ≡ step_in line.now) }
{
    let step = read_step(alloc, line.as_bytes())?;
    Ok(step)
}

/// The step that a value spells. The error is that memory ran out.
pub(crate) fn step_of(alloc: Global, value: &Json) -> Result<Option<StepAt>, AllocError>
    ensures { IfOk result (λ o. o ≡ step_of (data_of value.now)) }
{
    match value {
        Json::Text(line) => step_in(alloc, line.as_str()),
        _ => Ok(None),
    }
}

/// The steps that these values spell. The error is that memory ran out.
fn steps_in(alloc: Global, lines: &[Json]) -> Result<Steps, AllocError>
    ensures { IfOk result (λ s. s ≡ steps_in (chain (items_of lines.now))) }
{
    let mut steps = Vec::with_capacity(alloc, lines.len())?;
    for line in lines {
        if let Some(step) = step_of(alloc, line)? {
            steps.push(step)?;
        }
    }
    Ok(Steps::of_steps(steps))
}

/// The steps that a value spells, if there is one; a value that is no list spells none. The error is that memory ran out.
pub(crate) fn steps_of(alloc: Global, value: Option<&Json>) -> Result<Option<Steps>, AllocError>
    ensures { IfOk result (λ o. o ≡ steps_of (option_map (λ v. data_of v.now) value.entry)) }
{
    match value {
        None => Ok(None),
        Some(Json::List(lines)) => Ok(Some(steps_in(alloc, lines.values())?)),
        Some(_) => Ok(Some(Steps::of_steps(Vec::new(alloc)))),
    }
}

/// What a line spells by the function is the step that it spells as a line of a steps file. The law has no code.
pub fn lines_spell_their_steps()
    ensures { (line : List ℕ) (s : StepAt) → IsStepLine line s ↔ (step_in line ≡ Some s) }
{}

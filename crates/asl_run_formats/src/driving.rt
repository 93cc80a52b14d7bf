// The steps of a run.
ghost use Rattle.std.specs.Prelude.{◌≡◌, IfOk, OnOk, option_map};
ghost use Rattle.asl_run_input.specs.Views.{steps_in};
ghost use Rattle.asl_exec.specs.Driving.{chosen, after, driven};
ghost use Rattle.asl_exec.specs.RunText.{world_by};
ghost use Rattle.asl_exec.specs.Views.{setup_of, world_of};
ghost use Rattle.asl_run_formats.specs.Taken.{taken, taken_by};

use asl_exec::Execution;
use asl_run_input::StepAt;
use std::alloc::{AllocError, Global};

/// Takes the step that comes next, where one does, and tells which it was. The error is that memory ran out.
fn take_next(execution: &mut Execution) -> Result<Option<StepAt>, AllocError>
    ensures taken { IfOk result (λ o. option_map (λ a. (a.place, a.moment)) o
        ≡ chosen (setup_of execution.old) (world_of execution.old)) }
    ensures world { OnOk result (world_of execution.new
        ≡ after (setup_of execution.old) (world_of execution.old)
        (chosen (setup_of execution.old) (world_of execution.old))) }
    ensures setup { setup_of execution.new ≡ setup_of execution.old }
{
    let Some(at) = execution.chosen()? else {
        return Ok(None);
    };
    execution.reply(&at)?;
    Ok(Some(at))
}

/// Takes the steps that come next, at most so many, and tells which they were. The error is that memory ran out.
fn drive_taking(
    alloc: Global,
    execution: &mut Execution,
    limit: u32,
) -> Result<Vec<StepAt>, AllocError>
    ensures steps { IfOk result (λ v. v.items
        ≡ taken limit (setup_of execution.old) (world_of execution.old)) }
    ensures world { OnOk result (world_of execution.new
        ≡ driven limit (setup_of execution.old) (world_of execution.old)) }
    ensures setup { setup_of execution.new ≡ setup_of execution.old }
{
    let mut steps = Vec::new(alloc);
    for _ in 0..limit {
        let Some(at) = take_next(execution)? else {
            return Ok(steps);
        };
        steps.push(at)?;
    }
    Ok(steps)
}

/// Takes the steps of a list in order; without a list those that come next, at most so many. Tells which they were. The error is that
/// memory ran out.
pub fn take_by(
    alloc: Global,
    execution: &mut Execution,
    steps: Option<Vec<StepAt>>,
    limit: u32,
) -> Result<Vec<StepAt>, AllocError>
    ensures steps { IfOk result (λ v. v.items
        ≡ taken_by limit (setup_of execution.old) (world_of execution.old) (steps_in steps)) }
    ensures world { OnOk result (world_of execution.new
        ≡ world_by limit (setup_of execution.old) (world_of execution.old) (steps_in steps)) }
    ensures setup { setup_of execution.new ≡ setup_of execution.old }
{
    let Some(steps) = steps else {
        return drive_taking(alloc, execution, limit);
    };
    execution.take_all(&steps)?;
    Ok(steps)
}

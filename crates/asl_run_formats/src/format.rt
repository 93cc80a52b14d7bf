// How a run is printed.
ghost use Rattle.std.specs.Prelude.{◌≡◌, IfOk, OnOk, string_bytes};
ghost use Rattle.asl_run_input.specs.Views.{steps_in};
ghost use Rattle.asl_exec.specs.RunText.{world_by};
ghost use Rattle.asl_exec.specs.Views.{setup_of, world_of};
ghost use Rattle.asl_run_formats.specs.Taken.{taken_by};
ghost use Rattle.asl_history_formats.specs.Aws.{aws_text};
ghost use Rattle.asl_run_formats.specs.Invoked.{region_of, tasks_in};
ghost use Rattle.asl_run_formats.specs.Told.{told};

use crate::driving::take_by;
use crate::invoking::{Invoked, region_of};
use crate::treeing::tree_by;
use asl_exec::Execution;
use asl_history_formats::{aws_json, lines_of_json};
use asl_run_input::{StepAt, put_steps};
use asl_trace::Shows;
use std::alloc::{AllocError, Global};

/// How a run is printed.
#[derive(Clone, Copy)]
pub enum Format<'a> {
    /// Its history, a JSON object each on a line.
    Json,
    /// Its history as one JSON text, in the shape in which the service tells one: Tasks are called in the region of this name, `us-east-1`
    /// where none is named.
    Aws(Option<&'a str>),
    /// The steps that it took, as a file of steps.
    Steps,
    /// What happened at each state, for a person.
    Tree,
    /// The same, with what each state made of its data, stage by stage.
    Data,
}

/// The history so far, in the shape in which the service tells one of this region. The error is that memory ran out.
fn aws_of(alloc: Global, region: Option<&str>, execution: &Execution) -> Result<String, AllocError>
    ensures { IfOk result (λ t. string_bytes t
        ≡ aws_text (tasks_in (region_of region.entry) (setup_of execution.now).machine)
        (world_of execution.now).events) }
{
    let setup = execution.setup();
    let invoked = Invoked {
        machine: &setup.machine,
        region: region_of(region),
    };
    aws_json(alloc, &invoked, execution.history().events())
}

/// Takes the steps of a list in order, and without a list those that come next, at most so many; what the run prints. The error is that
/// memory ran out.
pub(crate) fn printed(
    alloc: Global,
    format: Format<'_>,
    execution: &mut Execution,
    steps: Option<Vec<StepAt>>,
    limit: u32,
) -> Result<String, AllocError>
    ensures text { IfOk result (λ t. string_bytes t
        ≡ told format.entry (setup_of execution.old) (world_of execution.old)
        (taken_by limit (setup_of execution.old) (world_of execution.old) (steps_in steps))
        (world_by limit (setup_of execution.old) (world_of execution.old) (steps_in steps))) }
    ensures world { OnOk result (world_of execution.new
        ≡ world_by limit (setup_of execution.old) (world_of execution.old) (steps_in steps)) }
    ensures setup { setup_of execution.new ≡ setup_of execution.old }
{
    match format {
        Format::Json => {
            take_by(alloc, execution, steps, limit)?;
            lines_of_json(alloc, execution.history().events())
        }
        Format::Aws(region) => {
            take_by(alloc, execution, steps, limit)?;
            aws_of(alloc, region, execution)
        }
        Format::Steps => {
            let steps = take_by(alloc, execution, steps, limit)?;
            let mut out = String::new(alloc);
            put_steps(&mut out, &steps)?;
            Ok(out)
        }
        Format::Tree => tree_by(alloc, Shows::Changes, execution, steps, limit),
        Format::Data => tree_by(alloc, Shows::Stages, execution, steps, limit),
    }
}

// The tree of a run.
ghost use Rattle.std.specs.Prelude.{◌≡◌, ◌++◌, IfOk, OnOk, option_map, string_bytes};
ghost use Rattle.asl_run_input.specs.Views.{steps_in};
ghost use Rattle.asl_exec.specs.Driving.{chosen, after, driven};
ghost use Rattle.asl_exec.specs.RunText.{world_by};
ghost use Rattle.asl_exec.specs.Steps.{facts_of};
ghost use Rattle.asl_exec.specs.Views.{setup_of, world_of};
ghost use Rattle.asl_trace.specs.Steps.{tree_lines};
ghost use Rattle.asl_trace.specs.Views.{text_of, shows_of, facts_in};
ghost use Rattle.asl_run_formats.specs.Taken.{step_at, taken, taken_by};
ghost use Rattle.asl_run_formats.specs.Trees.{tree_text};

use asl_exec::Execution;
use asl_run_input::StepAt;
use asl_trace::{Shows, Tree};
use std::alloc::{AllocError, Global};

/// Takes the step that comes next, where one does, and tells of it. Which it was. The error is that memory ran out.
fn tell_next(tree: &mut Tree, execution: &mut Execution) -> Result<Option<StepAt>, AllocError>
    requires { facts_in tree.old ≡ facts_of (setup_of execution.old) }
    ensures taken { IfOk result (λ o. option_map (λ a. (a.place, a.moment)) o
        ≡ chosen (setup_of execution.old) (world_of execution.old)) }
    ensures world { OnOk result (world_of execution.new
        ≡ after (setup_of execution.old) (world_of execution.old)
        (chosen (setup_of execution.old) (world_of execution.old))) }
    ensures setup { setup_of execution.new ≡ setup_of execution.old }
    ensures text { OnOk result (text_of tree.new ≡ text_of tree.old
        ++ tree_lines (shows_of tree.old) (setup_of execution.old) (world_of execution.old)
        (step_at (chosen (setup_of execution.old) (world_of execution.old)))) }
    ensures shows { shows_of tree.new ≡ shows_of tree.old }
    ensures facts { facts_in tree.new ≡ facts_in tree.old }
{
    let Some(at) = execution.chosen()? else {
        return Ok(None);
    };
    tree.step(execution, &at)?;
    Ok(Some(at))
}

/// Takes the steps that come next, at most so many, and tells of them. The error is that memory ran out.
fn tell_driven(tree: &mut Tree, execution: &mut Execution, limit: u32) -> Result<(), AllocError>
    requires { facts_in tree.old ≡ facts_of (setup_of execution.old) }
    ensures world { OnOk result (world_of execution.new
        ≡ driven limit (setup_of execution.old) (world_of execution.old)) }
    ensures text { OnOk result (text_of tree.new ≡ text_of tree.old
        ++ tree_lines (shows_of tree.old) (setup_of execution.old) (world_of execution.old)
        (taken limit (setup_of execution.old) (world_of execution.old))) }
    ensures setup { setup_of execution.new ≡ setup_of execution.old }
{
    for _ in 0..limit {
        let Some(_at) = tell_next(tree, execution)? else {
            return Ok(());
        };
    }
    Ok(())
}

/// Takes the steps of a list in order; without a list those that come next, at most so many. Tells of them. The error is that memory ran
/// out.
fn tell_by(
    tree: &mut Tree,
    execution: &mut Execution,
    steps: Option<Vec<StepAt>>,
    limit: u32,
) -> Result<(), AllocError>
    requires { facts_in tree.old ≡ facts_of (setup_of execution.old) }
    ensures world { OnOk result (world_of execution.new
        ≡ world_by limit (setup_of execution.old) (world_of execution.old) (steps_in steps)) }
    ensures text { OnOk result (text_of tree.new ≡ text_of tree.old
        ++ tree_lines (shows_of tree.old) (setup_of execution.old) (world_of execution.old)
        (taken_by limit (setup_of execution.old) (world_of execution.old) (steps_in steps))) }
    ensures setup { setup_of execution.new ≡ setup_of execution.old }
{
    match steps {
        None => tell_driven(tree, execution, limit),
        Some(steps) => tree.steps(execution, &steps),
    }
}

/// Takes the steps of a list in order; without a list those that come next, at most so many. Tells what happened at each state, and this
/// of its data. The error is that memory ran out.
pub(crate) fn tree_by(
    alloc: Global,
    shows: Shows,
    execution: &mut Execution,
    steps: Option<Vec<StepAt>>,
    limit: u32,
) -> Result<String, AllocError>
    ensures world { OnOk result (world_of execution.new
        ≡ world_by limit (setup_of execution.old) (world_of execution.old) (steps_in steps)) }
    ensures text { IfOk result (λ t. string_bytes t
        ≡ tree_text shows (setup_of execution.old) (world_of execution.old)
        (taken_by limit (setup_of execution.old) (world_of execution.old) (steps_in steps))
        (world_by limit (setup_of execution.old) (world_of execution.old) (steps_in steps))) }
    ensures setup { setup_of execution.new ≡ setup_of execution.old }
{
    let mut tree = Tree::open(alloc, execution, shows)?;
    tell_by(&mut tree, execution, steps, limit)?;
    tree.close(execution)
}

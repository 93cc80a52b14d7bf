// An execution that keeps its steps, and goes back.
ghost use Rattle.std.specs.Prelude.{◌≡◌, ◌≤◌, ◌<◌, ◌*◌, [], ◌∷◌, ◌++◌, None, length, take, IfOk, OnOk, OnErr};
ghost use Rattle.asl_exec.specs.Steps.{opening, world_after, refusal_in};
ghost use Rattle.asl_exec.specs.Views.{setup_of, world_of};
ghost use Rattle.asl_session.specs.private.Marks.{AreMarks};

use asl_exec::Execution;
use asl_run_input::{Setup, StepAt};
use asl_run_state::Checkpoint;
use std::alloc::{AllocError, Global};
use std::marker::Model;

/// So many steps lie between two checkpoints.
const APART: usize = 64;

/// An execution with the steps that it took, and a checkpoint of the world before the first of them, the 65th, and so on, so that going
/// back takes at most 63 steps anew. Contracts see what it began with, and its steps.
pub(crate) struct Timeline {
    execution: Execution,
    steps: Vec<StepAt>,
    checkpoints: Vec<Checkpoint>,
}

// Written out, so that a caller's proof sees one call and not the drop of each part.
impl Drop for Timeline {
    fn drop(self) {
        let Timeline {
            execution: _execution,
            steps: _steps,
            checkpoints: _checkpoints,
        } = self;
    }
}

impl Model for Timeline {
    ghost use Rattle.std.specs.Prelude.{◌≡◌};
    ghost use Rattle.asl_exec.specs.Steps.{opening, world_after};
    ghost use Rattle.asl_exec.specs.Views.{setup_of, world_of};
    ghost use Rattle.asl_session.specs.private.Marks.{Course, AreMarks};

    ghost Value = { Course };

    ghost use Rattle.std.specs.Coded.{codes, coded_list};
    ghost use Rattle.asl_run_input.specs.contracts.setup.Setup as setup_row;
    ghost use Rattle.asl_run_input.specs.contracts.step_at.StepAt as step_row;

    ghost coded = { Prim.hlevel (codes, setup_row.the_row.coded, step_row.the_row.coded) };

    ghost view = { λ t. record { setup = setup_of t.execution; steps = t.steps.items } };

    ghost use Rattle.asl_session.specs.private.Timelines.{IsTimeline};

    ghost invariant = { λ t. IsTimeline t.execution t.steps.items t.checkpoints.items };
}

/// Makes the checkpoint that the next step has to have before it, where there is none. The error is that memory ran out.
fn mark(
    execution: &Execution,
    steps: &[StepAt],
    checkpoints: &mut Vec<Checkpoint>,
) -> Result<(), AllocError>
    requires world { world_of execution.now
        ≡ world_after (setup_of execution.now) (opening (setup_of execution.now)) steps.now }
    requires marks { AreMarks (setup_of execution.now) steps.now checkpoints.old.items }
    ensures marks { AreMarks (setup_of execution.now) steps.now checkpoints.new.items }
    ensures ok { OnOk result (length steps.now < 64 * length checkpoints.new.items) }
{
    if steps.len() / APART < checkpoints.len() {
        return Ok(());
    }
    let checkpoint = execution.checkpoint()?;
    match checkpoints.push(checkpoint) {
        Ok(()) => Ok(()),
        Err(_) => Err(AllocError),
    }
}

impl Timeline {
    ghost use Rattle.asl_session.specs.private.Marks.{Course, course_world};

    /// An execution that has taken no step. The error is that memory ran out.
    pub(crate) fn open(alloc: Global, setup: Setup) -> Result<Timeline, AllocError>
        ensures { IfOk result (λ t. t ≡ record { setup = setup; steps = [] }) }
    {
        let execution = Execution::open(alloc, setup)?;
        Ok(Timeline {
            execution,
            steps: Vec::new(alloc),
            checkpoints: Vec::new(alloc),
        })
    }

    /// The execution, behind its steps.
    pub(crate) fn execution(&self) -> &Execution
        ensures setup { setup_of result.now ≡ self.now.setup }
        ensures world { world_of result.now ≡ course_world self.now }
    {
        &self.execution
    }

    /// The steps that it took.
    pub(crate) fn steps(&self) -> &[StepAt]
        ensures { result.now ≡ self.now.steps }
    {
        self.steps.as_slice()
    }

    /// Takes a step that isn't refused. The error is that memory ran out, and nothing changed.
    pub(crate) fn take(&mut self, at: &StepAt) -> Result<(), AllocError>
        requires { refusal_in self.old.setup (course_world self.old) at.now.place at.now.moment
            ≡ None }
        ensures ok { OnOk result (self.new
            ≡ record { setup = self.old.setup; steps = self.old.steps ++ at.now ∷ [] }) }
        ensures err { OnErr result (self.new ≡ self.old) }
    {
        mark(
            &self.execution,
            self.steps.as_slice(),
            &mut self.checkpoints,
        )?;
        self.steps.reserve(1)?;
        let kept = at.try_clone()?;
        match self.execution.step(&at.place, at.moment) {
            Ok(()) => {
                self.steps.push_reserved(kept);
                Ok(())
            }
            Err(_) => Err(AllocError),
        }
    }

    /// Goes back to the first so many of its steps. The error is that memory ran out, and nothing changed.
    pub(crate) fn go_back(&mut self, left: usize) -> Result<(), AllocError>
        requires { left ≤ length self.old.steps }
        ensures ok { OnOk result (self.new
            ≡ record { setup = self.old.setup; steps = take left self.old.steps }) }
        ensures err { OnErr result (self.new ≡ self.old) }
    {
        if left == self.steps.len() {
            return Ok(());
        }
        let number = left / APART;
        let anew = &self.steps.as_slice()[number * APART..left];
        self.execution.replay_from(&self.checkpoints[number], anew)?;
        self.steps.truncate(left);
        self.checkpoints.truncate(number + 1);
        Ok(())
    }
}

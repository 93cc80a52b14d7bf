// Keeping the world of an execution, and coming back to it.
ghost use Rattle.std.specs.Prelude.{◌≡◌, IfOk, OnOk, OnErr, max};
ghost use Rattle.asl_run_state.specs.World.{is_late};
ghost use Rattle.asl_run_state.specs.Checkpoints.{world_at, IsCheckpointOf};
ghost use Rattle.asl_exec.specs.Steps.{opening, world_after};
ghost use Rattle.asl_exec.specs.Views.{setup_of, world_of};

use crate::execution::Execution;
use crate::stepping::opening_world;
use asl_run_input::StepAt;
use asl_run_state::Checkpoint;
use asl_time::Moment;
use std::alloc::AllocError;
use std::mem;

impl Execution {
    /// Whether its time is over where a step is handed this moment.
    pub fn is_late(&self, moment: Moment) -> bool
        ensures { result
            ≡ is_late (max (world_of self.now).last moment) (world_of self.now).deadline }
    {
        self.world.is_late(moment)
    }

    /// What is needed to come back to the world as it is now. It shares the running branches, and copies no event. The error is that
    /// memory ran out.
    pub fn checkpoint(&self) -> Result<Checkpoint, AllocError>
        ensures { IfOk result (λ c. IsCheckpointOf c (world_of self.now)) }
    {
        self.world.checkpoint(self.alloc)
    }

    /// Takes steps in order. The error is that memory ran out, behind some of them.
    pub fn take_all(&mut self, steps: &[StepAt]) -> Result<(), AllocError>
        ensures world { OnOk result (world_of self.new
            ≡ world_after (setup_of self.old) (world_of self.old) steps.now) }
        ensures setup { setup_of self.new ≡ setup_of self.old }
    {
        for at in steps {
            let _refused = self.reply(at)?;
        }
        Ok(())
    }

    /// Comes back to the world before the first step. The error is that memory ran out, and nothing changed.
    pub fn restart(&mut self) -> Result<(), AllocError>
        ensures ok { OnOk result (world_of self.new ≡ opening (setup_of self.old)) }
        ensures err { OnErr result (world_of self.new ≡ world_of self.old) }
        ensures setup { setup_of self.new ≡ setup_of self.old }
    {
        self.world = opening_world(self.alloc, &self.setup)?;
        Ok(())
    }

    /// Comes back to the world of a checkpoint, and takes these steps from there. The checkpoint is of a world whose events are the first
    /// of those of this one. The error is that memory ran out, and nothing changed.
    pub fn replay_from(
        &mut self,
        checkpoint: &Checkpoint,
        steps: &[StepAt],
    ) -> Result<(), AllocError>
        requires { IsCheckpointOf checkpoint.now
            (world_at checkpoint.now (world_of self.old).events) }
        ensures ok { OnOk result (world_of self.new
            ≡ world_after (setup_of self.old)
            (world_at checkpoint.now (world_of self.old).events) steps.now) }
        ensures err { OnErr result (world_of self.new ≡ world_of self.old) }
        ensures setup { setup_of self.new ≡ setup_of self.old }
    {
        let world = self.world.rewound(self.alloc, checkpoint)?;
        let before = mem::replace(&mut self.world, world);
        match self.take_all(steps) {
            Ok(()) => Ok(()),
            Err(AllocError) => {
                self.world = before;
                Err(AllocError)
            }
        }
    }
}

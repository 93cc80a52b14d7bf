// Steps that are tried in any world.
ghost use Rattle.std.specs.Prelude.{◌≡◌, Some, None, IfOk, OnOk, OnErr};
ghost use Rattle.std.specs.Option.{option_copied};
ghost use Rattle.asl_run_branches.specs.Branches.{record_at};
ghost use Rattle.asl_exec.specs.Steps.{opening, refusal_in, step};
ghost use Rattle.asl_exec.specs.Probes.{setup_of, world_of};

use crate::execution::Execution;
use crate::stepping::opening_world;
use asl_history::Place;
use asl_run_input::{Setup, StepAt};
use asl_run_state::{Outcome, Refusal, World};
use asl_step::Record;
use asl_time::Moment;
use std::alloc::{AllocError, Global};

/// What a search tries steps with: a setup, and any world that it puts there. An execution has the world of its own steps alone.
pub struct Probe {
    pub(crate) execution: Execution,
}

// Written out, so that a caller's proof sees one call.
impl Drop for Probe {
    fn drop(self) {
        let Probe {
            execution: _execution,
        } = self;
    }
}

impl Probe {
    /// It is in the world before the first step.
    pub fn open(alloc: Global, setup: Setup) -> Result<Probe, AllocError>
        ensures setup { IfOk result (λ x. setup_of x ≡ setup) }
        ensures world { IfOk result (λ x. world_of x ≡ opening setup) }
    {
        let execution = Execution::open(alloc, setup)?;
        Ok(Probe { execution })
    }

    /// Goes on from this world.
    pub fn enter(&mut self, world: World)
        ensures world { world_of self.new ≡ world }
        ensures setup { setup_of self.new ≡ setup_of self.old }
    {
        self.execution.world = world;
    }

    /// The world before the first step. The error is that memory ran out.
    pub fn opening(&self) -> Result<World, AllocError>
        ensures { IfOk result (λ w. w ≡ opening (setup_of self.now)) }
    {
        opening_world(self.execution.alloc, &self.execution.setup)
    }

    /// What executions begin with here.
    pub fn setup(&self) -> &Setup
        ensures { result.now ≡ setup_of self.now }
    {
        self.execution.setup()
    }

    /// The world in which it is.
    pub fn world(&self) -> &World
        ensures { result.now ≡ world_of self.now }
    {
        self.execution.world()
    }

    /// How far the execution is in this world.
    pub fn outcome(&self) -> &Outcome
        ensures { result.now ≡ (world_of self.now).outcome }
    {
        self.execution.outcome()
    }

    /// What the branch at a place is doing; none where no branch runs there.
    pub fn view(&self, place: &Place) -> Option<&Record>
        ensures { option_copied result ≡ record_at place.now (world_of self.now).branches }
    {
        self.execution.view(place)
    }

    /// Why a step would be refused; none where only want of memory can refuse it.
    pub fn refusal(&self, place: &Place, moment: Moment) -> Option<Refusal>
        ensures { result ≡ refusal_in (setup_of self.now) (world_of self.now) place.now moment }
    {
        self.execution.refusal(place, moment)
    }

    /// Takes a step, and tells why it was refused, if it was. The error is that memory ran out.
    pub fn reply(&mut self, at: &StepAt) -> Result<Option<Refusal>, AllocError>
        ensures reply { IfOk result (λ r. r
            ≡ refusal_in (setup_of self.old) (world_of self.old) at.now.place at.now.moment) }
        ensures world { OnOk result (world_of self.new
            ≡ step (setup_of self.old) (world_of self.old) at.now.place at.now.moment) }
        ensures err { OnErr result (world_of self.new ≡ world_of self.old) }
        ensures setup { setup_of self.new ≡ setup_of self.old }
    {
        self.execution.reply(at)
    }
}

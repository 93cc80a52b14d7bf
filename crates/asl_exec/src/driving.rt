// Runs without a list of steps: what comes next is stepped.
ghost use Rattle.std.specs.Prelude.{◌≡◌, ◌≤◌, IfOk, IfErr, OnOk, OnErr, Some, option_map, is_some};
ghost use Rattle.asl_run_state.specs.Picking.{first_at, pick, picked, CanBeDone};
ghost use Rattle.asl_exec.specs.Steps.{limits_in};
ghost use Rattle.asl_exec.specs.Driving.{chosen, after, driven, driven_steps, end_of, most_steps};
ghost use Rattle.asl_exec.specs.Views.{setup_of, world_of};

use crate::execution::Execution;
use crate::stepping::limit_in;
use asl_history::Place;
use asl_json_shared::Name;
use asl_run_branches::Limits;
use asl_run_input::StepAt;
use asl_run_state::Next;
use asl_time::Moment;
use std::alloc::AllocError;

/// So many steps that come next are taken at most, where nothing else is said.
#[tactic(auto, unfolding(crate::specs::Driving::most_steps))]
pub fn most_steps() -> u32
    ensures { result ≡ most_steps }
{
    10_000
}

/// How a driven run ended.
#[derive(Clone, Copy)]
pub enum Ended {
    /// The execution is over.
    Over,
    /// There are more than 24,992 events.
    Full,
    /// It took as many steps as it may.
    Limit,
}

impl Limits for Execution {
    ghost use Rattle.asl_exec.specs.Steps.{limits_in};

    ghost limits = { λ x n. limits_in x.setup.machine n };

    fn limit(&self, map: &Name) -> u32 {
        limit_in(&self.setup.machine, map)
    }
}

impl Execution {
    /// The first place, in the order of places, at which a step isn't refused at this moment.
    pub fn first(&self, moment: Moment) -> Option<&Place>
        ensures { option_map (λ p. p.now) result
            ≡ first_at (limits_in (setup_of self.now).machine) (world_of self.now) moment }
    {
        self.world.first(self, moment)
    }

    /// What comes next: a step at the first place that isn't refused at the last moment, else the least moment that is awaited. While
    /// the execution runs and its history isn't full, there is one or the other.
    pub fn next(&self) -> Next<'_>
        ensures picked { picked result
            ≡ pick (limits_in (setup_of self.now).machine) (world_of self.now) }
        ensures done { CanBeDone (limits_in (setup_of self.now).machine) (world_of self.now)
            (picked result) }
    {
        self.world.next(self)
    }

    /// The step that comes next, with a place of its own. The error is that memory ran out.
    pub fn chosen(&self) -> Result<Option<StepAt>, AllocError>
        ensures { IfOk result (λ o. option_map (λ a. (a.place, a.moment)) o
            ≡ chosen (setup_of self.now) (world_of self.now)) }
    {
        let (place, moment) = match self.next() {
            Next::Over | Next::Full => return Ok(None),
            Next::Step(place) => (place, self.world.last()),
            Next::At(moment) => {
                let Some(place) = self.first(moment) else {
                    return Ok(None);
                };
                (place, moment)
            }
        };
        let place = place.try_clone()?;
        Ok(Some(StepAt { place, moment }))
    }

    /// Takes the step that comes next, and tells whether there was one. The error is that memory ran out, and nothing changed.
    fn advance(&mut self) -> Result<bool, AllocError>
        ensures took { IfOk result (λ b. b
            ≡ is_some (chosen (setup_of self.old) (world_of self.old))) }
        ensures world { OnOk result (world_of self.new
            ≡ after (setup_of self.old) (world_of self.old)
            (chosen (setup_of self.old) (world_of self.old))) }
        ensures err { OnErr result (world_of self.new ≡ world_of self.old) }
        ensures setup { setup_of self.new ≡ setup_of self.old }
    {
        let Some(at) = self.chosen()? else {
            return Ok(false);
        };
        self.reply(&at)?;
        Ok(true)
    }

    /// How a driven run ends here.
    pub fn end(&self) -> Ended
        ensures { result ≡ end_of (world_of self.now) }
    {
        if !self.world.is_running() {
            Ended::Over
        } else if self.world.is_full() {
            Ended::Full
        } else {
            Ended::Limit
        }
    }

    /// Steps as `next` says, at the moment that it names, at most so many times: how many steps were taken, and how it ended. The
    /// error is that memory ran out, behind so many steps, each of which was taken.
    pub fn drive(&mut self, limit: u32) -> Result<(u32, Ended), (u32, AllocError)>
        ensures world { OnOk result (world_of self.new
            ≡ driven limit (setup_of self.old) (world_of self.old)) }
        ensures steps { IfOk result (λ r. r.0
            ≡ driven_steps limit (setup_of self.old) (world_of self.old)) }
        ensures end { IfOk result (λ r. r.1
            ≡ end_of (driven limit (setup_of self.old) (world_of self.old))) }
        ensures err { IfErr result
            (λ e. (e.0 ≤ limit)
            × (world_of self.new ≡ driven e.0 (setup_of self.old) (world_of self.old))) }
        ensures counted { IfErr result (λ e. e.0
            ≡ driven_steps e.0 (setup_of self.old) (world_of self.old)) }
        ensures setup { setup_of self.new ≡ setup_of self.old }
    {
        for count in 0..limit {
            match self.advance() {
                Ok(true) => {}
                Ok(false) => return Ok((count, self.end())),
                Err(AllocError) => return Err((count, AllocError)),
            }
        }
        Ok((limit, self.end()))
    }
}

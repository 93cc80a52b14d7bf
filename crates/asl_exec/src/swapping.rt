// Steps that may change places.
ghost use Rattle.std.specs.Prelude.{◌≡◌, is_some, IfOk, None, option_map};
ghost use Rattle.asl_step.specs.Records.{is_failed};
ghost use Rattle.asl_exec.specs.Steps.{facts_of, refusal_in};
ghost use Rattle.asl_exec.specs.Exchanges.{are_exchangeable, obstacle_to, in_line, refused, invoked_at, one_task, halt_by, halted};
ghost use Rattle.asl_exec.specs.Views.{setup_of, world_of};

use crate::execution::Execution;
use crate::obstacle::Obstacle;
use crate::stepping::{facts_of, invokes_in, planned, state_of};
use asl_history::Place;
use asl_json_shared::Name;
use asl_run_input::StepAt;
use asl_step::{Context, Effect};
use std::alloc::AllocError;

/// Two steps tell of at most sixteen events: so many leave room for them.
const ROOM: usize = 24_984;

/// Which of two places is the other or is above it, if one is. The error is that memory ran out.
fn in_line(one: &Place, other: &Place) -> Result<Option<Obstacle>, AllocError>
    ensures { IfOk result (λ o. o ≡ in_line one.now other.now) }
{
    if one.is_prefix_of(other) {
        if other.is_prefix_of(one) {
            return Ok(Some(Obstacle::OnePlace(one.try_clone()?)));
        }
        return Ok(Some(Obstacle::Above(one.try_clone()?, other.try_clone()?)));
    }
    if other.is_prefix_of(one) {
        return Ok(Some(Obstacle::Above(other.try_clone()?, one.try_clone()?)));
    }
    Ok(None)
}

/// The name that two steps invoke, where both invoke one and the same. The error is that memory ran out.
fn one_task(one: Option<&Name>, other: Option<&Name>) -> Result<Option<Obstacle>, AllocError>
    ensures { IfOk result (λ o. o
        ≡ one_task (option_map (λ n. n.now) one.entry) (option_map (λ n. n.now) other.entry)) }
{
    let Some(one) = one else {
        return Ok(None);
    };
    let Some(other) = other else {
        return Ok(None);
    };
    if one == other {
        return Ok(Some(Obstacle::OneTask(one.try_clone()?)));
    }
    Ok(None)
}

/// Whether the effect of a step at a place ends the execution or fails its branch. The error is that memory ran out.
fn halt_by(effect: &Effect, place: &Place) -> Result<Option<Obstacle>, AllocError>
    ensures { IfOk result (λ o. o
        ≡ halt_by (is_some effect.now.outcome) (is_failed effect.now.after) place.now) }
{
    if effect.outcome.is_some() {
        return Ok(Some(Obstacle::Ends(place.try_clone()?)));
    }
    if effect.after.is_failed() {
        return Ok(Some(Obstacle::Fails(place.try_clone()?)));
    }
    Ok(None)
}

impl Execution {
    /// Whether two steps may change places: they are at places of which neither is the other or is above it, and at one
    /// moment; each is accepted now, and neither ends the execution nor fails its branch; they invoke no state in common; and
    /// there is room for the events of both. Then they may be taken in either order, and both orders leave the same, as
    /// `steps_may_change_places` of asl_exec_swap_laws says. Nothing changes. The error is that memory ran out.
    pub fn may_swap(&self, one: &StepAt, other: &StepAt) -> Result<bool, AllocError>
        ensures { IfOk result (λ b. b
            ≡ are_exchangeable (setup_of self.now) (world_of self.now) one.now other.now) }
    {
        let found = self.obstacle(one, other)?;
        Ok(found.is_none())
    }

    /// The first reason why two steps may not change places; none where they may. Nothing changes. The error is that memory
    /// ran out.
    pub fn obstacle(&self, one: &StepAt, other: &StepAt) -> Result<Option<Obstacle>, AllocError>
        ensures { IfOk result (λ o. o
            ≡ obstacle_to (setup_of self.now) (world_of self.now) one.now other.now) }
    {
        if let Some(found) = in_line(&one.place, &other.place)? {
            return Ok(Some(found));
        }
        if one.moment.millis() != other.moment.millis() {
            return Ok(Some(Obstacle::TwoMoments));
        }
        if let Some(found) = self.refused(one)? {
            return Ok(Some(found));
        }
        if let Some(found) = self.refused(other)? {
            return Ok(Some(found));
        }
        if let Some(found) = one_task(self.invoked(&one.place), self.invoked(&other.place))? {
            return Ok(Some(found));
        }
        let facts = facts_of(self.alloc, &self.setup)?;
        let mut context = Context::new(self.alloc, facts)?;
        if let Some(found) = self.halted(one, &mut context)? {
            return Ok(Some(found));
        }
        if let Some(found) = self.halted(other, &mut context)? {
            return Ok(Some(found));
        }
        if self.history().len() > ROOM {
            return Ok(Some(Obstacle::NoRoom));
        }
        Ok(None)
    }

    /// Why a step is refused now, if it is. The error is that memory ran out.
    fn refused(&self, at: &StepAt) -> Result<Option<Obstacle>, AllocError>
        ensures { IfOk result (λ o. o
            ≡ refused (setup_of self.now) (world_of self.now) at.now) }
    {
        match self.refusal(&at.place, at.moment) {
            Some(refusal) => Ok(Some(Obstacle::Refused(at.place.try_clone()?, refusal))),
            None => Ok(None),
        }
    }

    /// The name of the state that a step at a place invokes; none where it invokes none.
    fn invoked(&self, place: &Place) -> Option<&Name>
        ensures { option_map (λ n. n.now) result
            ≡ invoked_at (setup_of self.now) (world_of self.now) place.now }
    {
        let frame = self.world.frame_at(place)?;
        let current = frame.held();
        let (_, state) = state_of(&self.setup.machine, current);
        if invokes_in(state) {
            current.state()
        } else {
            None
        }
    }

    /// Whether an accepted step ends the execution or fails its branch. The context is this execution's; it is written over. The
    /// error is that memory ran out.
    fn halted(&self, at: &StepAt, context: &mut Context) -> Result<Option<Obstacle>, AllocError>
        requires facts { context.old.facts ≡ facts_of (setup_of self.now) }
        requires accepted { refusal_in (setup_of self.now) (world_of self.now) at.now.place
            at.now.moment ≡ None }
        ensures halted { IfOk result (λ o. o
            ≡ halted (setup_of self.now) (world_of self.now) at.now) }
        ensures facts { context.new.facts ≡ context.old.facts }
    {
        if self.world.is_late(at.moment) {
            return Ok(Some(Obstacle::Ends(at.place.try_clone()?)));
        }
        let Some(frame) = self.world.frame_at(&at.place) else {
            unreachable!();
        };
        let now = self.world.present(at.moment);
        let (_, effect) = planned(
            self.alloc,
            &self.setup.machine,
            &self.setup.case,
            &self.world,
            context,
            &at.place,
            frame,
            now,
        )?;
        halt_by(&effect, &at.place)
    }
}

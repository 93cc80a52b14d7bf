// What a session does at a command.
ghost use Rattle.std.specs.Prelude.{◌≡◌, option_map, Some, IfOk, OnOk, OnErr};
ghost use Rattle.asl_exec.specs.Views.{setup_of, world_of};
ghost use Rattle.asl_session.specs.Sessions.{begun_at, opened, restarted, world_in, entering_in, breakpoint_at, pause_at, reply_to, next_session};

use crate::command::Command;
use crate::names::Names;
use crate::places::Places;
use crate::reply::Reply;
use crate::timeline::Timeline;
use asl_exec::Execution;
use asl_history::Place;
use asl_json_shared::Name;
use asl_run_input::{Setup, StepAt};
use asl_step::Record;
use asl_time::Moment;
use std::alloc::{AllocError, Global};
use std::marker::Model;

/// An execution that is stepped by commands. A branch that is about to enter a state at a breakpoint pauses until it is released, and
/// then takes that step. Contracts see what the execution began with, the steps that were taken, the breakpoints, and the
/// places that are released. It keeps the allocator that it was opened with.
pub struct Session {
    timeline: Timeline,
    breakpoints: Names,
    released: Places,
    alloc: Global,
}

// Written out, so that a caller's proof sees one call and not the drop of each part.
impl Drop for Session {
    fn drop(self) {
        let Session {
            timeline: _timeline,
            breakpoints: _breakpoints,
            released: _released,
            alloc: _alloc,
        } = self;
    }
}

impl Model for Session {
    ghost use Rattle.asl_session.specs.Sessions.{Session};

    ghost Value = { Session };

    ghost use Rattle.std.specs.Coded.{codes};
    ghost use Rattle.asl_run_input.specs.contracts.setup.Setup as setup_row;
    ghost use Rattle.asl_run_input.specs.contracts.step_at.StepAt as step_row;

    ghost coded = { Prim.hlevel (codes, setup_row.the_row.coded, step_row.the_row.coded) };

    ghost view = { λ s. record { setup = s.timeline.setup; steps = s.timeline.steps; breakpoints = s.breakpoints; released = s.released } };
}

/// What an execution begins with that begins with the same, at this moment.
pub(crate) fn begun_at(start: Moment, setup: Setup) -> Setup
    ensures { result ≡ begun_at start setup }
{
    let mut setup = setup;
    setup.start = start;
    setup
}

/// The state that a branch is about to enter, which is doing this.
fn entering(current: &Record) -> Option<&Name>
    ensures { option_map (λ n. n.now) result ≡ entering_in current.now }
{
    match current {
        Record::New { state, .. } | Record::Ready { state, .. } => Some(state),
        _ => None,
    }
}

impl Session {
    ghost use Rattle.asl_session.specs.declared.command.Command.TheVariants.{Step, Break, Clear, Resume, Show, Back};

    /// A session before its first command. The error is that memory ran out.
    pub fn open(alloc: Global, setup: Setup) -> Result<Session, AllocError>
        ensures { IfOk result (λ s. s ≡ opened setup) }
    {
        let timeline = Timeline::open(alloc, setup)?;
        Ok(Session {
            timeline,
            breakpoints: Names::new(alloc),
            released: Places::new(alloc),
            alloc,
        })
    }

    /// The execution as it is now.
    pub fn execution(&self) -> &Execution
        ensures setup { setup_of result.now ≡ self.now.setup }
        ensures world { world_of result.now ≡ world_in self.now }
    {
        self.timeline.execution()
    }

    /// The steps that were taken.
    pub fn steps(&self) -> &[StepAt]
        ensures { result.now ≡ self.now.steps }
    {
        self.timeline.steps()
    }

    /// Begins the execution anew at another moment, with no step taken. Breakpoints stay, and so do the places that are released. The
    /// error is that memory ran out, and nothing changed.
    pub fn restart(&mut self, start: Moment) -> Result<(), AllocError>
        ensures ok { OnOk result (self.new ≡ restarted start self.old) }
        ensures err { OnErr result (self.new ≡ self.old) }
    {
        let setup = self.execution().setup().try_clone(self.alloc)?;
        self.timeline = Timeline::open(self.alloc, begun_at(start, setup))?;
        Ok(())
    }

    /// Carries out a command. The error is that memory ran out, and nothing changed.
    pub fn apply(&mut self, command: &Command) -> Result<Reply, AllocError>
        ensures reply { IfOk result (λ r. r ≡ reply_to self.old command.now) }
        ensures next { OnOk result (self.new ≡ next_session self.old command.now) }
        ensures err { OnErr result (self.new ≡ self.old) }
    {
        match command {
            Command::Step(at) => self.step(at),
            Command::Break(name) => self.set(name),
            Command::Clear(name) => Ok(self.clear(name)),
            Command::Resume(place) => self.resume(place),
            Command::Show(place) => self.show(place),
            Command::Back(count) => self.back(*count),
        }
    }

    /// The breakpoint at which the branch at a place pauses.
    fn breakpoint(&self, place: &Place) -> Option<&Name>
        ensures { option_map (λ n. n.now) result ≡ breakpoint_at self.now place.now }
    {
        let Some(record) = self.execution().view(place) else {
            return None;
        };
        let Some(name) = entering(record) else {
            return None;
        };
        if self.breakpoints.contains(name) && !self.released.contains(place) {
            Some(name)
        } else {
            None
        }
    }

    /// The breakpoint that keeps a branch from a step.
    fn pause(&self, at: &StepAt) -> Option<&Name>
        ensures { option_map (λ n. n.now) result ≡ pause_at self.now at.now }
    {
        if self.execution().is_late(at.moment) {
            None
        } else {
            self.breakpoint(&at.place)
        }
    }

    /// What a step would be replied now. The error is that memory ran out.
    pub fn foreseen(&self, at: &StepAt) -> Result<Reply, AllocError>
        ensures { IfOk result (λ r. r ≡ reply_to self.now (Step at.now)) }
    {
        if let Some(refusal) = self.execution().refusal(&at.place, at.moment) {
            return Ok(Reply::Refused(refusal));
        }
        match self.pause(at) {
            Some(name) => Ok(Reply::Paused(name.try_clone()?)),
            None => Ok(Reply::Stepped),
        }
    }

    /// Takes a step, unless it is refused or its branch pauses.
    pub(crate) fn step(&mut self, at: &StepAt) -> Result<Reply, AllocError>
        ensures reply { IfOk result (λ r. r ≡ reply_to self.old (Step at.now)) }
        ensures next { OnOk result (self.new ≡ next_session self.old (Step at.now)) }
        ensures err { OnErr result (self.new ≡ self.old) }
    {
        if let Some(refusal) = self.execution().refusal(&at.place, at.moment) {
            return Ok(Reply::Refused(refusal));
        }
        if let Some(name) = self.pause(at) {
            return Ok(Reply::Paused(name.try_clone()?));
        }
        self.timeline.take(at)?;
        self.released.leave(&at.place);
        Ok(Reply::Stepped)
    }

    /// Sets a breakpoint.
    fn set(&mut self, name: &Name) -> Result<Reply, AllocError>
        ensures reply { IfOk result (λ r. r ≡ reply_to self.old (Break name.now)) }
        ensures next { OnOk result (self.new ≡ next_session self.old (Break name.now)) }
        ensures err { OnErr result (self.new ≡ self.old) }
    {
        if self
            .execution()
            .setup()
            .machine
            .state(name.as_str())
            .is_none()
        {
            return Ok(Reply::NoSuchState);
        }
        self.breakpoints.add(name)?;
        Ok(Reply::Set)
    }

    /// Clears a breakpoint.
    fn clear(&mut self, name: &Name) -> Reply
        ensures reply { result ≡ reply_to self.old (Clear name.now) }
        ensures next { self.new ≡ next_session self.old (Clear name.now) }
    {
        if !self.breakpoints.contains(name) {
            return Reply::NoSuchState;
        }
        self.breakpoints.remove(name);
        Reply::Cleared
    }

    /// Releases the branch at a place, which pauses.
    fn resume(&mut self, place: &Place) -> Result<Reply, AllocError>
        ensures reply { IfOk result (λ r. r ≡ reply_to self.old (Resume place.now)) }
        ensures next { OnOk result (self.new ≡ next_session self.old (Resume place.now)) }
        ensures err { OnErr result (self.new ≡ self.old) }
    {
        if self.breakpoint(place).is_none() {
            return Ok(Reply::NotPaused);
        }
        self.released.add(place)?;
        Ok(Reply::Resumed)
    }

    /// Shows what the branch at a place is doing.
    fn show(&self, place: &Place) -> Result<Reply, AllocError>
        ensures { IfOk result (λ r. r ≡ reply_to self.now (Show place.now)) }
    {
        match self.execution().view(place) {
            Some(record) => Ok(Reply::Shown(record.try_clone(self.alloc)?)),
            None => Ok(Reply::NoSuchPlace),
        }
    }

    /// Takes steps back.
    fn back(&mut self, count: u32) -> Result<Reply, AllocError>
        ensures reply { IfOk result (λ r. r ≡ reply_to self.old (Back count)) }
        ensures next { OnOk result (self.new ≡ next_session self.old (Back count)) }
        ensures err { OnErr result (self.new ≡ self.old) }
    {
        let count = count as usize;
        let taken = self.steps().len();
        if count > taken {
            return Ok(Reply::TooFar);
        }
        let left = taken - count;
        self.timeline.go_back(left)?;
        self.released.clear();
        Ok(Reply::WentBack(left as u64))
    }
}

// What comes next.
ghost use Rattle.std.specs.Prelude.{◌≡◌, max, option_map, is_some, true, false};
ghost use Rattle.asl_run_state.specs.World.{is_over};
ghost use Rattle.asl_run_branches.specs.Turns.{dues_among, soonest, turn_of};
ghost use Rattle.asl_run_state.specs.Picking.{first_at, pick, picked, CanBeDone};

use crate::time_limit::within;
use crate::world::World;
use asl_history::Place;
use asl_run_branches::{Limits, Turn};
use asl_time::Moment;

/// What comes next in an execution.
#[derive(Drop)]
pub enum Next<'a> {
    /// Nothing: the execution is over.
    Over,
    /// Nothing: there are more than 24,992 events.
    Full,
    /// A step at this place, at the last moment.
    Step(&'a Place),
    /// A step at this moment, which is later than the last one.
    At(Moment),
}

impl World {
    /// The branch that may step first from a moment on.
    fn soonest<L: Limits>(&self, limits: &L, moment: Moment) -> Option<Turn<'_>>
        ensures turn { option_map turn_of result
            ≡ soonest (max self.now.last moment)
            (dues_among (L.limits limits.now) self.now.branches) }
        ensures goes { is_over self.now.outcome ≡ false → is_some result ≡ true }
    {
        self.root.soonest(limits, self.present(moment))
    }

    /// The first place, in the order of places, that isn't refused at this moment.
    pub fn first<L: Limits>(&self, limits: &L, moment: Moment) -> Option<&Place>
        ensures { option_map (λ p. p.now) result ≡ first_at (L.limits limits.now) self.now moment }
    {
        if !self.is_running() {
            return None;
        }
        if self.is_late(moment) {
            return Some(self.root().place());
        }
        if self.is_full() {
            return None;
        }
        let Some(turn) = self.soonest(limits, moment) else {
            return None;
        };
        if self.present(moment).millis() < turn.moment.millis() {
            None
        } else {
            Some(turn.place)
        }
    }

    /// What comes next: a step at the first place that isn't refused at the last moment, else the least moment that is awaited. While
    /// the execution runs and its history isn't full, there is one or the other.
    pub fn next<L: Limits>(&self, limits: &L) -> Next<'_>
        ensures picked { picked result ≡ pick (L.limits limits.now) self.now }
        ensures done { CanBeDone (L.limits limits.now) self.now (picked result) }
    {
        if !self.is_running() {
            return Next::Over;
        }
        if self.is_full() {
            return Next::Full;
        }
        let last = self.last();
        if self.is_late(last) {
            return Next::Step(self.root().place());
        }
        let Some(turn) = self.soonest(limits, last) else {
            unreachable!();
        };
        if last.millis() < turn.moment.millis() {
            Next::At(within(self.deadline(), turn.moment))
        } else {
            Next::Step(turn.place)
        }
    }
}

// Which branch may step first.
ghost use Rattle.std.specs.Prelude.{◌≡◌, ◌≤◌, ◌<◌, ◌+◌, ◌^◌, not, ℕ, None, Some, [], List, option_map, max, true, false, IfSome, is_some, ◌&&◌, nat_lt, nat_le, if◌then◌else◌, length};
ghost use Rattle.asl_run_branches.specs.Branches.{children_at, is_busy};
ghost use Rattle.asl_step.specs.Records.{is_finished};
ghost use Rattle.asl_run_branches.specs.Trees.{branches_of, one_if, count_undone, count_failed};
ghost use Rattle.asl_run_branches.specs.Turns.{limit_of, is_full, due_by, dues_of, soonest, comes_first, turn_at, turn_of};
ghost use Rattle.asl_run_branches.specs.private.Walking.{dues_in, dues_below, soonest_of};

use crate::frame::Frame;
use crate::shared::SharedFrame;
use crate::walks::map_in;
use asl_history::Place;
use asl_json_shared::Name;
use asl_step::Record;
use asl_time::Moment;

/// How many iterations of a Map run at once.
pub trait Limits {
    /// By the Map's name; 0 where there is no limit.
    ghost limits: { Self → List ℕ → ℕ };

    /// How many iterations of the Map of this name run at once; 0 where there is no limit.
    fn limit(&self, map: &Name) -> u32
        ensures { result ≡ limits self.now map.now };
}

/// A branch, and a moment at which it may step.
#[derive(Clone, Copy, Drop)]
pub struct Turn<'a> {
    pub place: &'a Place,
    pub moment: Moment,
}

/// The limit of the Map that a branch waits in, where it is one.
fn limit_in<L: Limits>(limits: &L, map: Option<&Name>) -> u32
    ensures { result ≡ limit_of (L.limits limits.now) (option_map (λ n. n.now) map.entry) }
{
    match map {
        Some(name) => limits.limit(name),
        None => 0,
    }
}

/// Whether a Map that runs at most so many iterations at once has no room for one more.
fn is_full(limit: u32, undone: usize) -> bool
    ensures { result ≡ is_full limit undone }
{
    limit > 0 && limit as usize <= undone
}

/// The moment from which on a branch that is doing this may step.
fn due_by(crowded: bool, busy: bool, current: &Record) -> Option<Moment>
    ensures { result ≡ due_by crowded busy current.now }
{
    match current {
        Record::New { .. } => { if crowded { None } else { Some(Moment::FIRST) } }
        Record::Ready { .. } => Some(Moment::FIRST),
        Record::Pausing { until, .. } | Record::Again { until, .. } => Some(*until),
        Record::Forked { .. } => { if busy { None } else { Some(Moment::FIRST) } }
        Record::Done(_) | Record::Failed(_) => None,
    }
}

/// The later of two moments.
pub(crate) fn later(a: Moment, b: Moment) -> Moment
    ensures { result ≡ max a b }
{
    if a.millis() < b.millis() { b } else { a }
}

/// Whether a turn comes before the first one so far.
fn comes_first(turn: &Option<Turn<'_>>, first: &Option<Turn<'_>>) -> bool
    ensures { result ≡ comes_first (option_map turn_of turn.now) (option_map turn_of first.now) }
{
    let Some(turn) = turn else {
        return false;
    };
    match first {
        Some(first) => turn.moment.millis() < first.moment.millis(),
        None => true,
    }
}

/// How many branches aren't done, with one more that is or isn't.
fn counted(undone: usize, done: bool) -> usize
    requires { undone < 2 ^ 63 }
    ensures { result ≡ undone + one_if (not done) }
{
    if done { undone } else { undone + 1 }
}

/// Whether a sibling of a branch has failed, where so many have, and this one itself has or hasn't.
fn others_failed(failed: usize, own: bool) -> bool
    ensures { result ≡ nat_lt (one_if own) failed }
{
    let own = if own { 1 } else { 0 };
    own < failed
}

/// Whether a turn comes now.
fn is_now(turn: &Option<Turn<'_>>, now: Moment) -> bool
    ensures { result ≡ true → IfSome turn.now (λ t. t.moment ≤ now) × (is_some turn.now ≡ true) }
{
    match turn {
        Some(turn) => turn.moment.millis() <= now.millis(),
        None => false,
    }
}

impl Frame {
    /// The branch at this frame or under it that may step first: now, or at a later moment. Of several the first in order. While the
    /// branch of the frame itself goes on, there is one.
    pub fn soonest<L: Limits>(&self, limits: &L, now: Moment) -> Option<Turn<'_>>
        ensures turn { option_map turn_of result
            ≡ soonest now (dues_of (L.limits limits.now) self.now) }
        ensures goes { is_finished self.now.head.current ≡ false → is_some result ≡ true }
    {
        self.seek(limits, false, false, now)
    }

    /// The turn of the branch itself.
    fn own_turn(&self, crowded: bool, now: Moment) -> Option<Turn<'_>>
        ensures { option_map turn_of result
            ≡ turn_at now (
              self.now.head.place,
              due_by crowded (is_busy (children_at [] (branches_of self.now)))
                  self.now.head.current,
            ) }
    {
        let until = due_by(crowded, self.is_busy(), &self.held)?;
        Some(Turn {
            place: &self.place,
            moment: later(now, until),
        })
    }

    /// The turn that comes first among the branch and those under it, where no sibling of a branch above it has failed.
    #[cycle(seek)]
    fn seek<L: Limits>(
        &self,
        limits: &L,
        stopped: bool,
        crowded: bool,
        now: Moment,
    ) -> Option<Turn<'_>>
        ensures turn { option_map turn_of result ≡ if stopped then None
            else soonest now (dues_in (L.limits limits.now) crowded self.now) }
        ensures goes { stopped ≡ false → crowded ≡ false → is_finished self.now.head.current ≡ false
            → is_some result ≡ true }
    {
        if stopped {
            return None;
        }
        let own = self.own_turn(crowded, now);
        if is_now(&own, now) {
            return own;
        }
        let below = self.seek_below(limits, now);
        if comes_first(&below, &own) {
            return below;
        }
        own
    }

    /// The same among those under it alone. Children at rest are looked at only where one of them may step now, or no other child can.
    #[cycle(seek)]
    fn seek_below<L: Limits>(&self, limits: &L, now: Moment) -> Option<Turn<'_>>
        ensures turn { option_map turn_of result
            ≡ soonest now (dues_below (L.limits limits.now) self.now) }
        ensures goes { is_busy (children_at [] (branches_of self.now)) ≡ true
            → is_some result ≡ true }
    {
        let limit = limit_in(limits, map_in(&self.held));
        let resting = self.resting;
        if resting.until.millis() <= now.millis() {
            return walk(
                &self.children[resting.over..],
                limits,
                limit,
                self.failed,
                0,
                now,
            );
        }
        let active = walk(
            &self.children[resting.idle..],
            limits,
            limit,
            self.failed,
            resting.undone,
            now,
        );
        if is_now(&active, now) {
            return active;
        }
        let idle = walk(
            &self.children[resting.over..resting.idle],
            limits,
            limit,
            self.failed,
            0,
            now,
        );
        if comes_first(&active, &idle) {
            return active;
        }
        idle
    }
}

/// The turn that comes first among children, of whose elders so many aren't done, and of all of whom so many have failed.
#[cycle(seek)]
fn walk<'a, L: Limits>(
    children: &'a [SharedFrame],
    limits: &L,
    limit: u32,
    failed: usize,
    undone: usize,
    now: Moment,
) -> Option<Turn<'a>>
    requires few { undone + length children.now < 2 ^ 63 }
    ensures turn { option_map turn_of result
        ≡ soonest_of (L.limits limits.now) now limit failed undone children.now }
    ensures goes { count_failed children.now ≡ 0 → failed ≡ 0 → undone ≡ 0
        → 0 < count_undone children.now → is_some result ≡ true }
{
    let mut first = None;
    let mut elders = undone;
    for child in children {
        if is_now(&first, now) {
            return first;
        }
        let child = child.get();
        let stopped = others_failed(failed, child.held().is_failed());
        let turn = child.seek(limits, stopped, is_full(limit, elders), now);
        if comes_first(&turn, &first) {
            first = turn;
        }
        elders = counted(elders, child.held().is_done());
    }
    first
}

// The children at rest, which a walk may skip.
ghost use Rattle.std.specs.Prelude.{◌≡◌, ◌≤◌, ◌<◌, ◌+◌, ◌^◌, ◌&&◌, not, true, List, [], min, nat_eq, IfSome, if◌then◌else◌, length};
ghost use Rattle.asl_run_branches.specs.private.Resting.{waits, IsIdle, IsResting};
ghost use Rattle.asl_run_branches.specs.Trees.{Family, one_if};

use crate::frame::Frame;
use crate::shared::SharedFrame;
use asl_step::Record;
use asl_time::Moment;

/// The first of a frame's children, as far as they are known to be at rest.
#[derive(Clone, Copy, Drop)]
pub(crate) struct Resting {
    /// The first so many are done, with no branch under them.
    pub(crate) over: usize,
    /// The first so many have ended or wait, with no branch under them.
    pub(crate) idle: usize,
    /// So many of those aren't done.
    pub(crate) undone: usize,
    /// None of those waits until an earlier moment.
    pub(crate) until: Moment,
}

/// No child is known to be at rest.
pub(crate) fn none_resting() -> Resting
    ensures none { result.idle ≡ 0 }
    ensures known { (kids : List Family) → IsResting result kids }
{
    Resting {
        over: 0,
        idle: 0,
        undone: 0,
        until: Moment::LAST,
    }
}

/// The moment until which a branch that is doing this has nothing to do, where that is later than now.
fn awaited(current: &Record, now: Moment) -> Option<Moment>
    ensures { IfSome result (λ until. waits until current.now ≡ true) }
{
    match current {
        Record::New { .. } | Record::Ready { .. } | Record::Forked { .. } => None,
        Record::Pausing { until, .. } | Record::Again { until, .. } => {
            if now.millis() < until.millis() {
                Some(*until)
            } else {
                None
            }
        }
        Record::Done(_) | Record::Failed(_) => Some(Moment::LAST),
    }
}

/// The moment until which a child has nothing to do, where no branch is under it and that is later than now.
fn rests_until(child: &Frame, now: Moment) -> Option<Moment>
    ensures { IfSome result (λ until. IsIdle until child.now) }
{
    if child.children().is_empty() {
        awaited(child.held(), now)
    } else {
        None
    }
}

/// The earlier of two moments.
fn earlier(a: Moment, b: Moment) -> Moment
    ensures { result ≡ min a b }
{
    if b.millis() < a.millis() { b } else { a }
}

impl Resting {
    /// What is known of the children before the one of this number.
    pub(crate) fn before(self, number: usize) -> Resting
        ensures first { result.idle ≤ number }
        ensures known { (kids : List Family) → IsResting self kids → IsResting result kids }
    {
        if number < self.over {
            return none_resting();
        }
        if number < self.idle {
            return Resting {
                over: self.over,
                idle: self.over,
                undone: 0,
                until: Moment::LAST,
            };
        }
        self
    }

    /// One more child is at rest until then, and is done or not.
    fn with(self, until: Moment, done: bool) -> Resting
        requires ordered { self.undone ≤ self.idle }
        requires few { self.idle < 2 ^ 63 }
        ensures over { result.over ≡ if done && nat_eq self.over self.idle then self.idle + 1
            else self.over }
        ensures idle { result.idle ≡ self.idle + 1 }
        ensures undone { result.undone ≡ self.undone + one_if (not done) }
        ensures until { result.until ≡ min self.until until }
    {
        Resting {
            over: if done && self.over == self.idle {
                self.idle + 1
            } else {
                self.over
            },
            idle: self.idle + 1,
            undone: if done { self.undone } else { self.undone + 1 },
            until: earlier(self.until, until),
        }
    }

    /// As many more children as are at rest now.
    pub(crate) fn extended(self, children: &[SharedFrame], now: Moment) -> Resting
        requires { IsResting self children.now }
        ensures { IsResting result children.now }
    {
        let mut resting = self;
        while resting.idle < children.len() {
            let child = children[resting.idle].get();
            let Some(until) = rests_until(child, now) else {
                return resting;
            };
            resting = resting.with(until, child.held().is_done());
        }
        resting
    }
}

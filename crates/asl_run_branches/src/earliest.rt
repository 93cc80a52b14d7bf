// The earliest moments at which branches may step.
ghost use Rattle.std.specs.Prelude.{◌≡◌, ◌++◌, map, OnOk};
ghost use Rattle.asl_run_branches.specs.Earliest.{due_from, helds_of, earliest_of};

use crate::frame::Frame;
use crate::turns::later;
use asl_history::Place;
use asl_step::Record;
use asl_time::Moment;
use std::alloc::AllocError;

/// A branch, and the earliest moment at which it may step.
#[derive(Drop)]
pub struct Earliest {
    pub place: Place,
    pub moment: Moment,
}

/// From the last moment on, the earliest at which a branch that is doing this may step.
pub fn due_from(last: Moment, current: &Record) -> Moment
    ensures { result ≡ due_from last current.now }
{
    match current {
        Record::Pausing { until, .. } | Record::Again { until, .. } => later(last, *until),
        Record::New { .. }
        | Record::Ready { .. }
        | Record::Forked { .. }
        | Record::Done(_)
        | Record::Failed(_) => last,
    }
}

impl Frame {
    /// Appends each branch with the earliest moment at which it may step, in the order of their places. The error is that memory ran
    /// out, and then some may be there.
    pub fn put_earliest(&self, last: Moment, out: &mut Vec<Earliest>) -> Result<(), AllocError>
        ensures { OnOk result (out.new.items
            ≡ out.old.items ++ map (earliest_of last) (helds_of self.now)) }
    {
        out.push(Earliest {
            place: self.place.try_clone()?,
            moment: due_from(last, &self.held),
        })?;
        for child in &self.children {
            child.get().put_earliest(last, out)?;
        }
        Ok(())
    }
}

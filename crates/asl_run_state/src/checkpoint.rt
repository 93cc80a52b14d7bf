// Coming back to an earlier world.

use crate::outcome::Outcome;
use asl_run_branches::Frame;
use asl_time::Moment;

/// What is kept of a world, so that an execution can come back to it: all but its events, of which it has the number. The first so
/// many events of the execution stay the same as it goes on.
pub struct Checkpoint {
    pub(crate) root: Frame,
    pub(crate) counts: Vec<u32>,
    pub(crate) told: usize,
    pub(crate) last: Moment,
    pub(crate) deadline: Option<Moment>,
    pub(crate) outcome: Outcome,
}

// Written out, so that a caller's proof sees one call and not the drop of each part.
impl Drop for Checkpoint {
    fn drop(self) {
        let Checkpoint {
            root: _root,
            counts: _counts,
            told: _told,
            last: _last,
            deadline: _deadline,
            outcome: _outcome,
        } = self;
    }
}

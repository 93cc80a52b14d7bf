// What a session replies.
ghost use Rattle.std.specs.Prelude.{◌≡◌, IfOk, IsOk, true};
ghost use Rattle.asl_session.specs.Replies.{is_plain};

use crate::advancing::Stop;
use asl_json_shared::Name;
use asl_run_state::Refusal;
use asl_step::Record;
use std::alloc::{AllocError, Global};

/// What a session replies to a command.
#[derive(PartialEq, Eq)]
pub enum Reply {
    /// The step was taken.
    Stepped,
    /// The step is refused, for this reason.
    Refused(Refusal),
    /// The branch pauses at the breakpoint of this name.
    Paused(Name),
    /// The breakpoint is set.
    Set,
    /// The breakpoint is cleared.
    Cleared,
    /// The branch may go on.
    Resumed,
    /// No branch pauses there.
    NotPaused,
    /// No state has this name; or no breakpoint, where one was to be cleared.
    NoSuchState,
    /// No branch runs there.
    NoSuchPlace,
    /// What the branch is doing.
    Shown(Record),
    /// So many steps are left.
    WentBack(u64),
    /// Fewer steps than that were taken.
    TooFar,
}

// Written out, so that a caller's proof sees one call and not the drop of each part.
impl Drop for Reply {
    fn drop(self) {
        match self {
            Reply::Stepped => {}
            Reply::Refused(_part) => {}
            Reply::Paused(_part) => {}
            Reply::Set => {}
            Reply::Cleared => {}
            Reply::Resumed => {}
            Reply::NotPaused => {}
            Reply::NoSuchState => {}
            Reply::NoSuchPlace => {}
            Reply::Shown(_part) => {}
            Reply::WentBack(_part) => {}
            Reply::TooFar => {}
        }
    }
}

impl Reply {
    ghost use Rattle.asl_session.specs.Advancing.{stop_of};

    /// Why a step wasn't taken to which this is the reply; none where it was.
    pub(crate) fn into_stop(self) -> Option<Stop>
        ensures { result ≡ stop_of self }
    {
        match self {
            Reply::Refused(refusal) => Some(Stop::Refused(refusal)),
            Reply::Paused(name) => Some(Stop::Paused(name)),
            _ => None,
        }
    }

    /// An equal reply. The error is that memory ran out, which it can only where the reply has a name or a record: such a reply leaves
    /// the session as it is.
    pub fn try_clone(&self, alloc: Global) -> Result<Reply, AllocError>
        ensures same { IfOk result (λ r. r ≡ self.now) }
        ensures plain { is_plain self.now ≡ true → IsOk result }
    {
        match self {
            Reply::Stepped => Ok(Reply::Stepped),
            Reply::Refused(refusal) => Ok(Reply::Refused(*refusal)),
            Reply::Paused(name) => Ok(Reply::Paused(name.try_clone()?)),
            Reply::Set => Ok(Reply::Set),
            Reply::Cleared => Ok(Reply::Cleared),
            Reply::Resumed => Ok(Reply::Resumed),
            Reply::NotPaused => Ok(Reply::NotPaused),
            Reply::NoSuchState => Ok(Reply::NoSuchState),
            Reply::NoSuchPlace => Ok(Reply::NoSuchPlace),
            Reply::Shown(record) => Ok(Reply::Shown(record.try_clone(alloc)?)),
            Reply::WentBack(left) => Ok(Reply::WentBack(*left)),
            Reply::TooFar => Ok(Reply::TooFar),
        }
    }
}

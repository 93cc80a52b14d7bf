// How long a Task state may take.
ghost use Rattle.std.specs.Prelude.{◌≡◌, ◌++◌, IfOk, codes, option_map};
ghost use Rattle.asl_json_data.specs.Data.{number, text, pairs};
ghost use Rattle.asl_json.specs.Meaning.{value_at};
ghost use Rattle.asl_def_schema.specs.declared.sort.Kind.TheVariants.{Task as task_kind};
ghost use Rattle.asl_def_fields.specs.Entries.{entries_of};
ghost use Rattle.asl_def_shared.specs.Built.{IsOfKind};
ghost use Rattle.asl_def_shared.specs.Parts.{limits_members};

use crate::entries::with_optional;
use asl_def_fields::{Count, Entry, TryClone, read_optional};
use asl_json::Members;
use asl_path::RefPath;
use std::alloc::{AllocError, Global};

/// How long a Task state may take, and between two heartbeats, each in seconds or by a path. (Amazon States Language, "Task State".)
#[derive(PartialEq, Eq)]
pub struct TimeLimits {
    /// `TimeoutSeconds`.
    pub timeout: Option<Count>,
    /// `TimeoutSecondsPath`.
    pub timeout_path: Option<RefPath>,
    /// `HeartbeatSeconds`.
    pub heartbeat: Option<Count>,
    /// `HeartbeatSecondsPath`.
    pub heartbeat_path: Option<RefPath>,
}

// Written out, so that a caller's proof sees one call and not the drop of each part.
impl Drop for TimeLimits {
    fn drop(self) {
        let TimeLimits {
            timeout: _timeout,
            timeout_path: _timeout_path,
            heartbeat: _heartbeat,
            heartbeat_path: _heartbeat_path,
        } = self;
    }
}

impl TimeLimits {
    /// Compiles these members of a Task state without faults. The error is that memory ran out.
    pub fn read(alloc: Global, members: &Members) -> Result<TimeLimits, AllocError>
        requires { IsOfKind task_kind members.now }
        ensures timeout { IfOk result (λ l. option_map number l.timeout
            ≡ value_at (codes "TimeoutSeconds") (pairs members.now)) }
        ensures timeout_path { IfOk result (λ l. option_map text l.timeout_path
            ≡ value_at (codes "TimeoutSecondsPath") (pairs members.now)) }
        ensures heartbeat { IfOk result (λ l. option_map number l.heartbeat
            ≡ value_at (codes "HeartbeatSeconds") (pairs members.now)) }
        ensures heartbeat_path { IfOk result (λ l. option_map text l.heartbeat_path
            ≡ value_at (codes "HeartbeatSecondsPath") (pairs members.now)) }
    {
        Ok(TimeLimits {
            timeout: read_optional(alloc, members.find("TimeoutSeconds"))?,
            timeout_path: read_optional(alloc, members.find("TimeoutSecondsPath"))?,
            heartbeat: read_optional(alloc, members.find("HeartbeatSeconds"))?,
            heartbeat_path: read_optional(alloc, members.find("HeartbeatSecondsPath"))?,
        })
    }

    /// Its members, behind these. The error is that memory ran out.
    pub fn entries(&self, alloc: Global, before: Vec<Entry>) -> Result<Vec<Entry>, AllocError>
        ensures { IfOk result (λ es. entries_of es.items
            ≡ entries_of before.items ++ limits_members self.now) }
    {
        let own = with_optional(alloc, before, "TimeoutSeconds", &self.timeout)?;
        let own = with_optional(alloc, own, "TimeoutSecondsPath", &self.timeout_path)?;
        let own = with_optional(alloc, own, "HeartbeatSeconds", &self.heartbeat)?;
        with_optional(alloc, own, "HeartbeatSecondsPath", &self.heartbeat_path)
    }
}

impl TryClone for TimeLimits {
    fn try_clone(&self, alloc: Global) -> Result<TimeLimits, AllocError> {
        Ok(TimeLimits {
            timeout: self.timeout.try_clone(alloc)?,
            timeout_path: self.timeout_path.try_clone(alloc)?,
            heartbeat: self.heartbeat.try_clone(alloc)?,
            heartbeat_path: self.heartbeat_path.try_clone(alloc)?,
        })
    }
}

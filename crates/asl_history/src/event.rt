// Events of an execution.
ghost use Rattle.std.specs.Prelude.{◌≡◌, IfOk};

use crate::kind::EventKind;
use crate::place::Place;
use asl_json_shared::{Name, Shared};
use asl_time::Moment;
use std::alloc::AllocError;

/// Something that happened in an execution (Step Functions Developer Guide, HistoryEvent).
pub struct Event {
    /// The number of the event in its history, from 1.
    pub id: u64,
    /// The number of the last event before it along its place: at that place, above it or under it; 0 for none.
    pub previous: u64,
    /// When it happened.
    pub at: Moment,
    /// What happened.
    pub kind: EventKind,
    /// The place of the branch that it happened in; of an iteration's event, the iteration's.
    pub place: Place,
    /// The name of the state; of an iteration's event, the Map's; empty for an event of the execution.
    pub name: Name,
    /// What is told of it, as the input or the output of a state.
    pub body: Shared,
}

// Written out, so that a caller's proof sees one call and not the drop of each part.
impl Drop for Event {
    fn drop(self) {
        let Event {
            id: _id,
            previous: _previous,
            at: _at,
            kind: _kind,
            place: _place,
            name: _name,
            body: _body,
        } = self;
    }
}

impl Event {
    /// An equal event, of the same name and body. The error is that memory ran out.
    pub fn try_clone(&self) -> Result<Event, AllocError>
        ensures { IfOk result (λ e. e ≡ self.now) }
    {
        let place = self.place.try_clone()?;
        let name = self.name.try_clone()?;
        let body = self.body.try_clone()?;
        Ok(Event {
            id: self.id,
            previous: self.previous,
            at: self.at,
            kind: self.kind,
            place,
            name,
            body,
        })
    }
}

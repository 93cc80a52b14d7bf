// The history of an execution.
ghost use Rattle.std.specs.Prelude.{◌≡◌, ◌+◌, ◌<◌, ◌≤◌, [], ◌∷◌, ◌++◌, length, IfOk, OnOk, OnErr};
ghost use Rattle.asl_history.specs.Events.{is_along, previous_id, IsHistory, event_after};

use crate::event::Event;
use crate::kind::EventKind;
use crate::place::Place;
use asl_json_shared::{Name, Shared};
use asl_time::Moment;
use std::alloc::{AllocError, Global};
use std::marker::Model;

/// The events of an execution in order, numbered from 1 and linked. Contracts see the list of the events, and `spare`, for
/// how many more there is room. It keeps the allocator that it was made with.
pub struct History {
    events: Vec<Event>,
}

// Written out, so that a caller's proof sees one call and not the drop of each part.
impl Drop for History {
    fn drop(self) {
        let History { events: _events } = self;
    }
}

impl Model for History {
    ghost use Rattle.std.specs.Prelude.{◌-◌, vec_len, vec_capacity};
    ghost use Rattle.asl_history.specs.Logs.{Log};

    ghost Value = { Log };

    ghost use Rattle.std.specs.Coded.{codes};
    ghost use Rattle.asl_json.specs.contracts.value.Json as json;

    ghost coded = { Prim.hlevel (codes, json.the_row.coded) };

    ghost use Rattle.asl_history.specs.Events.{IsHistory};

    ghost view = { λ h. record { events = h.events.items; spare = vec_capacity h.events - vec_len h.events } };

    ghost invariant = { λ h. IsHistory h.events.items };
}

impl History {
    /// A history of no events.
    pub fn new(alloc: Global) -> History
        ensures { result.events ≡ [] }
    {
        History {
            events: Vec::new(alloc),
        }
    }

    /// Makes room for so many more events. The error is that memory ran out.
    pub fn reserve(&mut self, additional: usize) -> Result<(), AllocError>
        ensures events { self.new.events ≡ self.old.events }
        ensures ok { OnOk result (additional ≤ self.new.spare) }
        ensures kept { self.old.spare ≤ self.new.spare }
        ensures err { OnErr result (self.new ≡ self.old) }
    {
        self.events.reserve(additional)
    }

    /// Adds an event behind the others, with the next id and its link. It takes no memory. The link is found by a walk back over the
    /// events; `append_linked` is for a caller that knows it.
    pub fn append(&mut self, at: Moment, kind: EventKind, place: Place, name: Name, body: Shared)
        requires { 0 < self.old.spare }
        ensures events { self.new.events
            ≡ self.old.events ++ event_after self.old.events at kind place name body ∷ [] }
        ensures spare { self.new.spare + 1 ≡ self.old.spare }
    {
        let previous = previous_id(&place, &self.events);
        self.append_linked(at, kind, place, name, body, previous);
    }

    /// The same, with the id of the last event along the place, 0 for none.
    pub fn append_linked(
        &mut self,
        at: Moment,
        kind: EventKind,
        place: Place,
        name: Name,
        body: Shared,
        previous: u64,
    )
        requires room { 0 < self.old.spare }
        requires link { previous ≡ previous_id place self.old.events }
        ensures events { self.new.events
            ≡ self.old.events ++ event_after self.old.events at kind place name body ∷ [] }
        ensures spare { self.new.spare + 1 ≡ self.old.spare }
    {
        let id = self.events.len() as u64 + 1;
        self.events.push_reserved(Event {
            id,
            previous,
            at,
            kind,
            place,
            name,
            body,
        });
    }

    /// The events in order.
    pub fn events(&self) -> &[Event]
        ensures value { result.now ≡ self.now.events }
        ensures linked { IsHistory result.now }
    {
        self.events.as_slice()
    }

    /// How many events there are.
    pub fn len(&self) -> usize
        ensures { result ≡ length self.now.events }
    {
        self.events().len()
    }

    /// A history of equal events. The error is that memory ran out.
    pub fn try_clone(&self) -> Result<History, AllocError>
        ensures { IfOk result (λ h. h.events ≡ self.now.events) }
    {
        let alloc = self.allocator();
        let mut events = Vec::with_capacity(alloc, self.events.len())?;
        for event in &self.events {
            events.push(event.try_clone()?)?;
        }
        Ok(History { events })
    }

    /// The allocator that it was made with.
    pub(crate) fn allocator(&self) -> Global {
        *self.events.allocator()
    }
}

/// Whether the event is at the place, above it or under it.
fn is_along(place: &Place, event: &Event) -> bool
    ensures { result ≡ is_along place.now event.now }
{
    event.place.is_prefix_of(place) || place.is_prefix_of(&event.place)
}

/// The id of the last event along the place, 0 for none: the greatest.
fn previous_id(place: &Place, events: &[Event]) -> u64
    requires { IsHistory events.now }
    ensures { result ≡ previous_id place.now events.now }
{
    let mut rest = events;
    while let Some((last, front)) = rest.split_last() {
        if is_along(place, last) {
            return last.id;
        }
        rest = front;
    }
    0
}

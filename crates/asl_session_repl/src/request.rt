// What a line asks for.
use crate::timed::{Timed, When};
use asl_history::Place;
use asl_session::Command;

/// What a line asks for.
pub enum Request {
    /// A command of a script other than a step.
    Told(Command),
    /// Stop behind a step in which something fails, or no longer.
    Halt(bool),
    /// Take a step of the branch at this place, at this moment or as early as it may be.
    Step(Place, Option<When>),
    /// Take the next steps, so many.
    Next(u32),
    /// Take steps until a branch pauses, or none comes next.
    Continue,
    /// The same, but none later than this moment.
    Until(When),
    /// Show the running branches.
    Places,
    /// Show the data of the branch at this place.
    Data(Place),
    /// Show the latest events, so many.
    Events(u32),
    /// Show the steps that were taken.
    Steps,
    /// Tell whether two steps may change places.
    Swap(Timed, Timed),
    /// Show what a line may be.
    Help,
    /// End.
    Quit,
}

// Written out, so that a caller's proof sees one call and not the drop of each part.
impl Drop for Request {
    fn drop(self) {
        match self {
            Request::Told(_part) => {}
            Request::Halt(_halting) => {}
            Request::Step(_place, _when) => {}
            Request::Next(_part) => {}
            Request::Continue => {}
            Request::Until(_part) => {}
            Request::Places => {}
            Request::Data(_part) => {}
            Request::Events(_part) => {}
            Request::Steps => {}
            Request::Swap(_one, _other) => {}
            Request::Help => {}
            Request::Quit => {}
        }
    }
}

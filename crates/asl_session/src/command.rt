// What a session is told.
ghost use Rattle.std.specs.Prelude.{◌≡◌, IfOk};

use asl_history::Place;
use asl_json_shared::Name;
use asl_run_input::StepAt;
use std::alloc::AllocError;

/// What a session is told.
#[derive(PartialEq, Eq)]
pub enum Command {
    /// Take a step.
    Step(StepAt),
    /// Pause branches that are about to enter the state of this name.
    Break(Name),
    /// Don't pause them there any more.
    Clear(Name),
    /// Let the branch at this place go on, which pauses.
    Resume(Place),
    /// Show what the branch at this place is doing.
    Show(Place),
    /// Take the last so many steps back.
    Back(u32),
}

// Written out, so that a caller's proof sees one call and not the drop of each part.
impl Drop for Command {
    fn drop(self) {
        match self {
            Command::Step(_part) => {}
            Command::Break(_part) => {}
            Command::Clear(_part) => {}
            Command::Resume(_part) => {}
            Command::Show(_part) => {}
            Command::Back(_part) => {}
        }
    }
}

impl Command {
    /// An equal command, which shares its name or place. It takes no memory. The error is that there are too many copies.
    pub fn try_clone(&self) -> Result<Command, AllocError>
        ensures { IfOk result (λ c. c ≡ self.now) }
    {
        match self {
            Command::Step(at) => Ok(Command::Step(at.try_clone()?)),
            Command::Break(name) => Ok(Command::Break(name.try_clone()?)),
            Command::Clear(name) => Ok(Command::Clear(name.try_clone()?)),
            Command::Resume(place) => Ok(Command::Resume(place.try_clone()?)),
            Command::Show(place) => Ok(Command::Show(place.try_clone()?)),
            Command::Back(count) => Ok(Command::Back(*count)),
        }
    }
}

// What stays the same as an execution goes on.

use asl_json_shared::{Name, Shared};
use asl_time::Moment;

/// What stays the same as an execution goes on.
pub struct Facts {
    /// The name of the state machine.
    pub machine: Name,
    /// The execution's name.
    pub name: Name,
    /// The execution's input.
    pub input: Shared,
    /// When the execution starts.
    pub start: Moment,
}

// Written out, so that a caller's proof sees one call and not the drop of each part.
impl Drop for Facts {
    fn drop(self) {
        let Facts {
            machine: _machine,
            name: _name,
            input: _input,
            start: _start,
        } = self;
    }
}

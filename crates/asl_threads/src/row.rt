// What a run keeps of a command.

use asl_session::{Command, Reply};

/// A command of a run, with the number of its seat and its reply.
pub struct Row {
    /// The seat's number.
    pub seat: usize,
    /// The command.
    pub command: Command,
    /// Its reply.
    pub reply: Reply,
}

// Written out, so that a caller's proof sees one call and not the drop of each part.
impl Drop for Row {
    fn drop(self) {
        let Row {
            seat: _seat,
            command: _command,
            reply: _reply,
        } = self;
    }
}

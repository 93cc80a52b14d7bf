// Breakpoints that are named.
ghost use Rattle.std.specs.Prelude.{◌≡◌};
ghost use Rattle.asl_session_repl.specs.Requests.{naming_of, halt_of};

use crate::request::Request;
use asl_json_shared::Name;
use asl_session::Command;

/// What a line does with the breakpoint that it names.
#[derive(Clone, Copy)]
pub enum Naming {
    /// It sets it.
    Break,
    /// It takes it back.
    Clear,
}

impl Naming {
    /// The command with a name.
    pub(crate) fn of(self, name: Name) -> Command
        ensures { result ≡ naming_of self name }
    {
        match self {
            Naming::Break => Command::Break(name),
            Naming::Clear => Command::Clear(name),
        }
    }

    /// What `on error` asks for in place of a name.
    pub(crate) fn halt(self) -> Request
        ensures { result ≡ halt_of self }
    {
        match self {
            Naming::Break => Request::Halt(true),
            Naming::Clear => Request::Halt(false),
        }
    }
}

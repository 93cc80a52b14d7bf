// Where a server is in its life.
use crate::session::Session;

/// (Language Server Protocol 3.17, "Server lifecycle".)
#[derive(Drop)]
pub(crate) enum Phase {
    /// Before `initialize`.
    Uninitialized,
    /// From then on.
    Running(Session),
    /// After `shutdown`.
    ShutDown,
    /// After `exit`.
    Exited,
}

// Which orders are tried.

/// Which orders of its branches' steps an execution is tried in.
#[derive(Clone, Copy, Debug, PartialEq, Eq)]
pub enum Orders {
    /// Every order.
    Every,
    /// Those in which no branch is late: a branch steps only where none may step earlier.
    Prompt,
}

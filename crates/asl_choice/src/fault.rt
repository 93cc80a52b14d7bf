// Why it can't be said whether a rule holds.
use std::fmt::Debug;
use thiserror::Error;

/// Why it can't be said whether a rule holds.
#[derive(Clone, Copy, Debug, PartialEq, Eq, Error)]
pub enum RuleFault<'a> {
    /// G1: this path, of a variable or of what it is compared to, names nothing.
    #[error("G1 Missing {0}")]
    Missing(&'a str),
    /// G2: a text is tested by a pattern with an open escape.
    #[error("G2 OpenEscape")]
    OpenEscape,
}

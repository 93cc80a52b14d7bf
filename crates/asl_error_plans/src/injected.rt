// Errors that are put in.

use asl_json::Txt;

/// An error that an invocation of a state ends in before the answer of its number, which the next invocation gets then.
#[derive(Drop)]
pub struct InjectedError {
    /// The name of the state.
    pub state: Txt,
    /// The number of the invocation, counted from 0.
    pub number: u32,
    pub error: Txt,
    pub cause: Option<Txt>,
    /// Whether each later invocation ends in the error, too.
    pub for_good: bool,
}

//! What the rows of the table of states come to, in the words of the standard: laws, over every state and every step.
#![tactic(auto)]

mod laws;

pub use laws::{
    a_fault_in_placing_keeps_what_was_told, a_fault_in_preparation_invokes_nothing,
    a_used_up_retrier_ends_the_search,
};

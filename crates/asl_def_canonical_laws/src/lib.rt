//! What the canonical form of a definition keeps: laws, over every JSON value.
#![tactic(auto)]

mod laws;

pub use laws::the_canonical_form_is_accepted;

//! What becomes of an error: the state is retried, the error is caught, or the branch fails.
//!
//! Modules in reading order: `names` says which errors a retrier or a catcher is for, `first` finds the first one that is for an
//! error, and `policy` decides. `specs/Names.antt` and `specs/Decisions.antt` say what is decided; `specs/Laws.antt` has what
//! callers may rely on.
#![tactic(auto)]

mod first;
mod names;
mod policy;

pub use policy::{Decision, Policy};

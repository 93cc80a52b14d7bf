//! Calls of intrinsic functions that fail whatever the input and the Context Object are.
//!
//! `specs/Wants.antt` is what each function takes as each argument, `specs/Known.antt` what is known of a call's value beforehand,
//! `specs/Cutting.antt` and `specs/Reading.antt` which call a text is, and `specs/Failing.antt` which texts are told.
//! Modules in reading order: `want` judges one argument, `failure` says why a call fails, and `known` is what is known of it; `holes` counts the places in
//! a template; `cutting` cuts a call at its commas, `leaf` reads arguments that are no calls, and `calling` goes through a call.
#![tactic(auto)]

mod calling;
mod cutting;
mod failure;
mod holes;
mod known;
mod leaf;
mod want;

pub use calling::failing;
pub use failure::{Cause, Failure};
pub use want::Want;

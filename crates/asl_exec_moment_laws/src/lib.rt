//! Steps at whatever moments come to no more than steps at the earliest ones.
#![tactic(auto)]

mod laws;

pub use laws::moments_may_be_any;

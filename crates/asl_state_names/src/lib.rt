//! Where a definition has the names of its states: where each is declared, and where it is referred to.
//!
//! Modules in reading order: `place` is the way to a part of a value, `mention` a name at its place, and `naming` finds them all.
//!
//! `specs/Names.antt` says where names stand.
#![tactic(auto)]

mod mention;
mod naming;
mod place;

pub use mention::Mention;
pub use naming::names_in;
pub use place::Place;

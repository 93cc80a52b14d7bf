//! What a language server answers about one document (Language Server Protocol 3.17, "Language Features"), and the structures that its messages have.
//!
//! Modules in reading order: `object` makes objects, and `structure` what many messages have of them; `reading` is the value of a document; `formatting` lays
//! a document out; `spot` finds the names of states in it, `locating` tells where those of one state stand, and `renaming` puts another name there.
//!
//! `specs/Structures.antt`, `specs/Formatting.antt`, `specs/Spots.antt`, `specs/Locating.antt` and `specs/Renaming.antt` say what is answered.
#![tactic(auto)]

mod formatting;
mod locating;
mod object;
mod reading;
mod renaming;
mod spot;
mod structure;

pub use formatting::formatted;
pub use locating::located;
pub use object::{told, with};
pub use renaming::{RenameAnswer, RenameFault, prepared, renamed};
pub use spot::Sought;
pub use structure::{range, uinteger};

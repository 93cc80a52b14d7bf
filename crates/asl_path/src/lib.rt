//! Paths into JSON values, as the Amazon States Language has them: reading a path text, the part of a value that a path
//! names, and a value with another part there.
//!
//! `specs/Grammar.antt` says which texts are paths, `specs/Walk.antt` what steps reach in a value, `specs/Paths.antt` what a
//! text says of a value, `specs/Faults.antt` what each fault means, and `specs/Laws.antt` how reading and putting agree.
#![tactic(auto)]

mod laws;
mod path;
mod put;
mod read;
mod step;
mod walk;

pub use laws::{a_path_has_one_meaning, reading_and_putting_agree};
pub use path::{PathFault, PutFault, RefPath};
pub use step::{Root, Step};

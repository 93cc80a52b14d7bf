//! The project file: a TOML text (TOML 1.1) that names the files of workflows, so that a command finds them.
//!
//! Modules in reading order: `fault` is why a text is no project, `workflow` what a workflow is. `document` reads a text as a table,
//! `members` finds values in one, `form` what is wrong with one and `same` two workflows of one machine, `fronts` and `places` where in the text that stands, `beside` has the
//! names of files that stand beside the project file, `spelled` makes the workflows that a table spells, and `project` reads the whole text.
//!
//! `specs/Form.antt` says what is wrong with a table, `specs/Places.antt` where, `specs/Spelled.antt` which workflows a table spells, and
//! `specs/Told.antt` which fault is answered.
#![tactic(auto)]

mod beside;
mod document;
mod fault;
mod form;
mod fronts;
mod members;
mod places;
mod project;
mod same;
mod spelled;
mod spot;
mod workflow;

pub use fault::ProjectFault;
pub use places::place_of;
pub use project::Project;
pub use spot::Spot;
pub use workflow::{Names, Workflow};

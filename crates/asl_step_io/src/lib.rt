//! Input and output processing: the data that a state takes, makes and places (Amazon States Language, "Input and Output
//! Processing", "Payload Template").
//!
//! Modules in reading order: `fault` is why data isn't made, `paths` takes data by a path and puts it where one leads, `payload`
//! fills templates, `reason` finds the texts of an error, and `delay`
//! how long a state waits. Paths that begin `$$` lead into the Context Object.
#![tactic(auto)]

mod delay;
mod fault;
mod paths;
mod payload;
mod reason;

pub use delay::{moment_at, seconds_at};
pub use fault::{Fault, missing, raised};
pub use paths::{copied, empty_object, part_of, put_into, taken};
pub use payload::filled;
pub use reason::text_at;

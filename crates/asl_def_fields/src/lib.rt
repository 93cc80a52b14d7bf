//! What the members of states hold, compiled from a definition without faults.
//!
//! Modules in reading order: `compiled` is what all of it has in common, `list` lists of it, and `copies` makes copies; `plain`, `path`, `number`,
//! `stamp`, `jitter`, `processor` and `retry` are the types; `entry` makes objects, and `laws` says what `==` is. `specs/Shown.antt` says what each
//! shows, `specs/Readable.antt` which values each is compiled from.
#![tactic(auto)]

mod compiled;
mod copies;
mod entry;
mod jitter;
mod laws;
mod list;
mod number;
mod path;
mod plain;
mod processor;
mod retry;
mod stamp;

pub use compiled::{Compile, Compiled, json_optional, read_optional};
pub use copies::{TryClone, clone_all};
pub use entry::{Entry, object};
pub use jitter::JitterStrategy;
pub use laws::equal_members_are_one;
pub use list::{json_all, read_all};
pub use number::{BackoffRate, Count, DelayLimit};
pub use path::{PathField, PathOrCall};
pub use processor::{Mode, ProcessorConfig};
pub use retry::{ErrorNames, Retrier, Retriers};
pub use stamp::Stamp;

// Rules.

use crate::atom::Task;
use crate::formula::Formula;

/// What is to be so of each run that has ended.
#[derive(Drop)]
pub enum Rule {
    /// The formula holds.
    Always(Formula),
    /// Unless the run has succeeded, as many invocations of the second Task have returned as of the first.
    Undo(Task, Task),
}

//! What no clause says of executions and sessions, tried from outside: what the program doesn't print, and that each call succeeds with
//! ample memory.
//!
//! `stepping` is a file of steps and single steps, `branches` what branches are doing, `driven` runs without a file of steps,
//! `swapping` which steps may change places, and `time_limit` an execution whose history is full before its time is over. `listed` has
//! executions again, over a plain list of branches in place of the tree of frames: step by step both do the same. `sessions` is what no
//! script shows: several steps at once, copies, beginning anew. `opened` has executions to try, `shown` records as texts, `commands` sessions
//! and commands of texts. What the program prints of whole runs is tried in `tests/` at the top; what waits for fewer crates, in crates of
//! its own: values and histories in `asl_value_tests`, definitions and mock files in `asl_def_tests`.
#![tactic(auto)]

#[cfg(test)]
mod branches;
#[cfg(test)]
mod commands;
#[cfg(test)]
mod driven;
#[cfg(test)]
mod listed;
#[cfg(test)]
mod opened;
#[cfg(test)]
mod sessions;
#[cfg(test)]
mod shown;
#[cfg(test)]
mod stepping;
#[cfg(test)]
mod swapping;
#[cfg(test)]
mod time_limit;

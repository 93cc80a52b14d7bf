//! What no clause says of shared runs, tried from outside: that a run closes with its own seats, that its lock is one lock, that workers
//! run at the same time, and that each call succeeds with ample memory.
//!
//! `told` makes runs and commands of texts, and texts of replies; `workers` are gates and clocks.
#![tactic(auto)]

#[cfg(test)]
mod closings;
#[cfg(test)]
mod drivers;
#[cfg(test)]
mod told;
#[cfg(test)]
mod workers;

//! What no clause says of definitions and mock files, and of what is wrong with them, tried from outside: worked examples, and each call
//! once with ample memory.
//!
//! `machines` is what machines lend, and that their copies lend the same, `equality` which are equal, `upgrades` their newer spelling;
//! `decisions` what becomes of an error by retriers and catchers, which `asking` asks, and `task_errors` which errors they tell apart; `mocks`
//! mock files and their cases. `faults`, `warnings` and `mock_findings` are what is told of texts. Which definitions are accepted, and how
//! they are printed, is tried in `tests/` at the top.
#![tactic(auto)]

#[cfg(test)]
mod asking;
#[cfg(test)]
mod decisions;
#[cfg(test)]
mod equality;
#[cfg(test)]
mod faults;
#[cfg(test)]
mod machines;
#[cfg(test)]
mod mock_findings;
#[cfg(test)]
mod mocks;
#[cfg(test)]
mod task_errors;
#[cfg(test)]
mod upgrades;
#[cfg(test)]
mod warnings;

//! Calls that are refused memory, and made again: each leaves what it changes as it was, and then gives what it would have given. Each test
//! passes with ample memory; `tests/refusals` runs each again and again, every time with another one of its allocations refused.
//!
//! `setups` says what executions begin with, and has what all tests need; `runs`, `retries`, `sessions`, `shared` and `suites` have the tests.
#![tactic(auto)]

#[cfg(test)]
mod retries;
#[cfg(test)]
mod runs;
#[cfg(test)]
mod sessions;
#[cfg(test)]
mod setups;
#[cfg(test)]
mod shared;
#[cfg(test)]
mod suites;

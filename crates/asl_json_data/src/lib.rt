//! What JSON data are: the definitions of data, of the texts that spell them and of the limits, and what numbers mean.
//!
//! `part` says how much of a number there is, and `decimal` what one means, in units of 10^-9.
#![tactic(auto)]

mod decimal;
mod part;

pub use decimal::{is_mark, is_over, is_point, is_sign, units};
pub use part::Part;

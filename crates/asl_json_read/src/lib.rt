//! Reads bytes as a JSON value.
//!
//! Modules in reading order: `fault` says why bytes aren't read; `number`, `quoted` and `reading` are the reader, which `judging` turns
//! into `read`, and into `read_any_size` for messages.
#![tactic(auto)]

mod fault;
mod judging;
mod number;
mod quoted;
mod reading;

pub use fault::JsonFault;
pub use judging::{
    a_text_has_the_value_that_it_spells, a_text_is_read_as_one_value, read, read_any_size,
};
pub use quoted::quoted_text;

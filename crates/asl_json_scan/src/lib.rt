//! What stands in front of bytes of a JSON text, without any value: spaces, plain characters, escapes and numbers.
//!
//! Modules in reading order: `fault` says what is wrong at a place, `front` has spaces and plain characters, `escape` the
//! escapes in texts, and `number` how far a number goes.
#![tactic(auto)]

mod escape;
mod fault;
mod front;
mod number;

pub use escape::escaped;
pub use fault::{Fault, Kind, Stop};
pub use front::{after_byte, append, as_text, first_byte, skip_spaces, split_plain, syntax};
pub use number::{begins_number, is_past, number_front, number_len};

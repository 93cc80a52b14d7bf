//! Moments to the millisecond; their texts, the timestamps of the Amazon States Language, which are those of RFC 3339,
//! section 5.6, with `T` and `Z` in upper case; and the delays before retries.
#![tactic(auto)]

mod calendar;
mod digits;
mod fraction;
mod moment;
mod offset;
mod print;
mod rate;
mod read;

pub use moment::{Moment, add};
pub use print::{print_stamp, put_stamp, stamps_show_their_moments};
pub use rate::{Rate, delay};
pub use read::{a_text_has_the_moment_of_its_fields, read_stamp};

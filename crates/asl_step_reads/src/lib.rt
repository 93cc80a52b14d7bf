//! What no text of a state reads doesn't matter to the state; whether a text may read a part of the Context Object.
#![tactic(auto)]

mod laws;
mod mentions;

pub use laws::{
    a_state_gives_by_what_it_reads, a_step_counts_where_it_reads_the_count,
    a_step_hangs_on_the_clock_where_it_reads_it, a_text_gives_by_what_it_reads,
    a_text_reads_what_it_spells,
};
pub use mentions::may_read;

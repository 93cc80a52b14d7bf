//! What a definition may hold, and what it can be refused for.
//!
//! Modules in reading order: `sort` and `rows` are the table of members, `fault` a fault and its place. Which faults a definition
//! has, and which is its first, is said in `specs`; `asl_def_judge` finds it.
#![tactic(auto)]

mod fault;
mod rows;
mod sort;

pub use fault::{Fault, FaultKind, Step};
pub use rows::{
    Group, Row, Shape, find, is_among, item_sort, kind_named, kind_of, shape_in, sort_at,
};
pub use sort::{Form, Kind, MOST_WHOLE, Sort};

//! Every order of the branches of an execution.
//!
//! Modules in reading order: `orders` says which orders are tried; `found` is what a search finds, and `outcomes` looks it up; `met` the worlds that it met, which are compared by the numbers of their branches;
//! `order` takes steps at their earliest moments; `visiting` takes one step of a search; `settling` knows the Tasks whose answers change no more, and `quiet` takes steps that need no other; `search` takes all of them, and tells `watch` how
//! far it is; `sampling` takes some whole orders where that is cut; `late` marks outcomes; `time_over` adds that of a late step; `endless` looks for orders that never end, and `lasso` tries one; `clock` looks for the clock in a definition; `states` lists its states; `calls` and `counting` say how often each is
//! invoked; a `judge` says whether an execution may end so, and `judging` asks it of each end; `remarks` is what is remarkable beyond the outcomes: `seeing` looks at the branches of one world, `sights` is what was seen of each state in all worlds, and `remarking` what is told of it, by the `answers` of a mock file; `telling` and `report` tell what was found; `laws` says that nothing is
//! left out, and of which steps remarks speak.
#![tactic(auto)]

mod answers;
mod calls;
mod clock;
mod counting;
mod endless;
mod found;
mod judge;
mod judging;
mod lasso;
mod late;
mod laws;
mod met;
mod order;
mod orders;
mod outcomes;
mod quiet;
mod remarking;
mod remarks;
mod report;
mod sampling;
mod search;
mod seeing;
mod settling;
mod sights;
mod states;
mod telling;
mod time_over;
mod visiting;
mod watch;

pub use calls::{Bounds, Calls};
pub use endless::Lasso;
pub use found::{Explored, Found};
pub use judge::{Judge, Judged};
pub use laws::{remarks_speak_of_tried_steps, searches_leave_out_nothing};
pub use orders::Orders;
pub use remarks::{Answers, Remarks};
pub use report::{is_good, put_explored};
pub use search::{explore, explore_judged};
pub use states::Stated;
pub use watch::{SoFar, Watch};

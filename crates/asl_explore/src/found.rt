// What a search finds.

use crate::calls::Calls;
use crate::endless::Lasso;
use crate::orders::Orders;
use crate::remarks::Remarks;
use crate::states::Stated;
use asl_json_write::Pointer;
use asl_run_input::StepAt;
use asl_run_state::Outcome;

/// An outcome, and steps that end in it.
#[derive(Drop)]
pub struct Found {
    pub outcome: Outcome,
    pub steps: Vec<StepAt>,
}

/// What a search found.
#[derive(Drop)]
pub struct Explored {
    /// The outcomes, each once, in the order in which they were found: those of fewer steps first; behind them those of some whole
    /// orders, where the search was cut, and that of a late step.
    pub found: Vec<Found>,
    /// The numbers, from 1, of those that come only where a branch is late: another one steps at a later moment first. None is among
    /// them where that isn't known.
    pub late: Vec<usize>,
    /// Whether it is known of each outcome whether it comes only so.
    pub marked: bool,
    /// An order that never ends, through a world from which no end is reached; none where one is reached from each, and where the search
    /// was cut.
    pub endless: Option<Lasso>,
    /// Whether steps that need no other one of the same world may have been taken alone.
    pub reduced: bool,
    /// The orders that were tried.
    pub orders: Orders,
    /// Whether nothing was left out: each world that was met was tried.
    pub complete: bool,
    /// Whether something else than its limit cut the search: an order has more steps than a history has room for.
    pub stuck: bool,
    /// Whether each world that was met was looked at for what is remarkable.
    pub seen: bool,
    /// So many worlds were met, the first among them.
    pub worlds: usize,
    /// All orders of at most so many steps were tried; none where that isn't known.
    pub depth: Option<usize>,
    /// The states of the definition, in document order.
    pub states: Vec<Stated>,
    /// How often each state is invoked in the orders that end in each outcome; empty where it wasn't counted.
    pub calls: Vec<Calls>,
    /// What is remarkable beyond the outcomes.
    pub remarks: Remarks,
    /// Whether the execution has a time limit: a late step ends it.
    pub limited: bool,
    /// Where the first text of the definition stands that may read the clock: steps at other moments may give other outcomes then.
    pub clock: Option<Pointer>,
}

// What was found under a plan.

use asl_error_plans::PlanOutcomes;
use asl_explore::{Found, Orders};
use asl_run_input::Setup;
use asl_task_errors::TaskErrors;

/// What a search under plans is of.
#[derive(Clone, Copy)]
pub struct ErrorSearch<'a, J> {
    /// The execution, of a case that has an answer to each invocation.
    pub setup: &'a Setup,
    /// The Tasks of the definition, and the errors that are put into each.
    pub tasks: &'a [TaskErrors],
    /// The orders that are tried under each plan.
    pub orders: Orders,
    /// At most so many worlds are tried under each plan.
    pub limit: u32,
    /// Who judges the ends of these orders.
    pub judges: &'a [J],
}

/// What was found under plans.
#[derive(Drop)]
pub struct ErrorsFound {
    /// What comes of each plan.
    pub plans: Vec<PlanOutcomes>,
    /// What was found under each of these plans.
    pub found: Vec<Witnesses>,
}

/// Steps under a plan.
#[derive(Drop)]
pub struct Witnesses {
    /// The outcomes in the order in which the plan has them, with steps that end in them.
    pub list: Vec<Found>,
    /// Of each judge an end that it doesn't accept, with steps that lead to it; none where none was met.
    pub refused: Vec<Option<Found>>,
}

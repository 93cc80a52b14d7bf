// What comes of plans.

use crate::injected::InjectedError;

/// What comes of an execution under a plan.
#[derive(Drop)]
pub struct PlanOutcomes {
    pub plan: Vec<InjectedError>,
    /// The outcomes of its orders, each as a status with the output or the error.
    pub outcomes: Vec<String>,
    /// Whether no order was left out.
    pub complete: bool,
    /// Whether an order never ends.
    pub endless: bool,
}

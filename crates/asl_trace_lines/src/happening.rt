// What is told of a step.
use asl_handle::Policy;
use asl_history::Place;
use asl_step::{ErrorOut, Record};
use asl_time::Moment;

/// A step of a branch, as far as it is told.
#[derive(Clone, Copy)]
pub struct Happening<'a> {
    /// When the execution started.
    pub start: Moment,
    /// When the step was taken.
    pub moment: Moment,
    /// The place of the branch.
    pub place: &'a Place,
    /// The type of its state, as `Task`.
    pub kind: &'a str,
    /// The state's retriers and catchers.
    pub policy: Policy<'a>,
    /// How often the state was invoked before.
    pub count: u32,
    /// What the branch was doing.
    pub before: &'a Record,
    /// What it is doing then.
    pub after: &'a Record,
    /// How many branches are right under it then.
    pub branches: usize,
    /// The error that the state raised and that was handled, where there is one.
    pub raised: Option<&'a ErrorOut>,
    /// The number of the rule by which a Choice went on, where it was one.
    pub rule: Option<usize>,
}

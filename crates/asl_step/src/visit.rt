// What a step may read.
use crate::record::Record;
use asl_history::Place;
use asl_json::Json;
use asl_json_shared::Name;
use asl_mock::Case;
use asl_time::Moment;

/// What a step may read.
#[derive(Drop)]
pub struct Visit<'a> {
    /// The place of the branch.
    pub place: &'a Place,
    /// What the branch is doing.
    pub current: &'a Record,
    /// What the branches right under it are doing, in order.
    pub children: &'a [&'a Record],
    /// The name of the Map of which the branch is an iteration.
    pub forker: Option<&'a Name>,
    /// The number and the item of the innermost iteration of a Map that the branch is in.
    pub iteration: Option<(u32, &'a Json)>,
    /// Whether the state invokes a service: it is a Task.
    pub invokes: bool,
    /// How often the state was invoked before, in the whole execution.
    pub count: u32,
    /// The test case, which answers in the services' place.
    pub case: &'a Case,
    /// The present moment.
    pub moment: Moment,
}

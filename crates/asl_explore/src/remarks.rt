// What is remarkable of a search beyond its outcomes.

use asl_json_shared::Name;

/// Answers of a mock file that are equal, one after another: to the Task of this name, from the low number to the high one.
#[derive(Drop)]
pub struct Answers {
    pub task: Name,
    pub low: u32,
    pub high: u32,
}

/// What is remarkable of a search beyond its outcomes.
#[derive(Drop)]
pub struct Remarks {
    /// The Tasks that two branches were about to invoke at once, while not all answers from there on are equal that orders ask for: who
    /// asks first gets the first answer.
    pub shared: Vec<Name>,
    /// The states that no order enters; none where the search was cut.
    pub unentered: Vec<Name>,
    /// The answers that no order asks for, of Tasks that are entered; none where the search was cut.
    pub unanswered: Vec<Answers>,
    /// The states in which a branch was stopped: it had entered the state, and hadn't left it.
    pub cut_off: Vec<Name>,
}

// What of a project's table a place is asked for.

/// What of a project's table stands at a place of its text: where the table first has it.
#[derive(Clone, Copy, Debug)]
pub enum Spot<'a> {
    /// A key that isn't known.
    UnknownKey,
    /// The workflow of this number, from 0.
    Workflow(usize),
    /// A value of another type.
    Misfit,
    /// The second workflow of one machine.
    SameMachine,
    /// The member of this key of the workflow of this number.
    Member(usize, &'a str),
}

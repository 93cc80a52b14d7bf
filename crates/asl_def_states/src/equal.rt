// Whether two states show the same: states of two tables, in which the machines inside them stand under other numbers.
ghost use Rattle.std.specs.Prelude.{◌≡◌};
ghost use Rattle.asl_def_states.specs.Equal.{spelled_equal, reason_same, parallel_same, map_same, fail_same, state_same};

use crate::fail::{Fail, FailText};
use crate::map::Map;
use crate::parallel::Parallel;
use crate::processor::Processor;
use crate::state::State;

impl Parallel {
    /// Whether two Parallel states are the same but for their branches. Takes no memory.
    pub fn is_same_but_machines(&self, other: &Parallel) -> bool
        ensures { result ≡ parallel_same self.now other.now }
    {
        self.common == other.common
            && self.input_path == other.input_path
            && self.parameters == other.parameters
            && self.completion == other.completion
    }
}

/// Whether two machines stand under one name.
fn are_spelled_alike(a: &Processor, b: &Processor) -> bool
    ensures { result ≡ spelled_equal a.now b.now }
{
    match (a, b) {
        (Processor::Iterator(_), Processor::Iterator(_)) => true,
        (Processor::ItemProcessor(_, _), Processor::ItemProcessor(_, _)) => true,
        _ => false,
    }
}

impl Map {
    /// Whether two Map states are the same but for their machine. Takes no memory.
    pub fn is_same_but_machines(&self, other: &Map) -> bool
        ensures { result ≡ map_same self.now other.now }
    {
        self.common == other.common
            && self.input_path == other.input_path
            && self.items_path == other.items_path
            && self.max_concurrency == other.max_concurrency
            && self.selector == other.selector
            && are_spelled_alike(&self.processor, &other.processor)
            && self.completion == other.completion
    }
}

/// Whether two reasons show the same.
fn tell_the_same(a: &Option<FailText>, b: &Option<FailText>) -> bool
    ensures { result ≡ reason_same a.now b.now }
{
    match (a, b) {
        (None, None) => true,
        (Some(FailText::Told(x)), Some(FailText::Told(y))) => *x == *y,
        (Some(FailText::At(x)), Some(FailText::At(y))) => x.is_written_as(y),
        _ => false,
    }
}

impl Fail {
    /// Whether two Fail states show the same. Takes no memory.
    fn shows_as(&self, other: &Fail) -> bool
        ensures { result ≡ fail_same self.now other.now }
    {
        self.common == other.common
            && tell_the_same(&self.error, &other.error)
            && tell_the_same(&self.cause, &other.cause)
    }
}

impl State {
    /// Whether two states are the same but for the machines inside them. Takes no memory.
    pub fn is_same_but_machines(&self, other: &State) -> bool
        ensures { result ≡ state_same self.now other.now }
    {
        match (self, other) {
            (State::Task(a), State::Task(b)) => *a == *b,
            (State::Pass(a), State::Pass(b)) => *a == *b,
            (State::Choice(a), State::Choice(b)) => *a == *b,
            (State::Wait(a), State::Wait(b)) => *a == *b,
            (State::Parallel(a), State::Parallel(b)) => a.is_same_but_machines(b),
            (State::Map(a), State::Map(b)) => a.is_same_but_machines(b),
            (State::Succeed(a), State::Succeed(b)) => *a == *b,
            (State::Fail(a), State::Fail(b)) => a.shows_as(b),
            _ => false,
        }
    }
}

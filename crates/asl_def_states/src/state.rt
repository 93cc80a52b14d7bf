// States.
ghost use Rattle.std.specs.Prelude.{◌≡◌, ◌↔◌, IfOk, IsTrue};
ghost use Rattle.asl_def_states.specs.Laws.{state_eq};
ghost use Rattle.asl_def_states.specs.Newer.{newer_state};

use crate::choice::Choice;
use crate::fail::Fail;
use crate::map::Map;
use crate::parallel::Parallel;
use crate::pass::Pass;
use crate::succeed::Succeed;
use crate::task::Task;
use crate::wait::Wait;
use asl_def_fields::TryClone;
use std::alloc::{AllocError, Global};
use std::mem;

/// A state. (Amazon States Language, "State Types".)
pub enum State {
    /// `"Type": "Task"`.
    Task(Task),
    /// `"Type": "Pass"`.
    Pass(Pass),
    /// `"Type": "Choice"`.
    Choice(Choice),
    /// `"Type": "Wait"`.
    Wait(Wait),
    /// `"Type": "Parallel"`.
    Parallel(Parallel),
    /// `"Type": "Map"`.
    Map(Map),
    /// `"Type": "Succeed"`.
    Succeed(Succeed),
    /// `"Type": "Fail"`.
    Fail(Fail),
}

// Written out, so that a caller's proof sees one call and not the drop of each part.
impl Drop for State {
    fn drop(self) {
        match self {
            State::Task(_part) => {}
            State::Pass(_part) => {}
            State::Choice(_part) => {}
            State::Wait(_part) => {}
            State::Parallel(_part) => {}
            State::Map(_part) => {}
            State::Succeed(_part) => {}
            State::Fail(_part) => {}
        }
    }
}

/// Whether two states are equal, type by type.
fn are_equal(a: &State, b: &State) -> bool
    ensures { result ≡ state_eq a.now b.now }
{
    match (a, b) {
        (State::Task(x), State::Task(y)) => *x == *y,
        (State::Pass(x), State::Pass(y)) => *x == *y,
        (State::Choice(x), State::Choice(y)) => *x == *y,
        (State::Wait(x), State::Wait(y)) => *x == *y,
        (State::Parallel(x), State::Parallel(y)) => *x == *y,
        (State::Map(x), State::Map(y)) => *x == *y,
        (State::Succeed(x), State::Succeed(y)) => *x == *y,
        (State::Fail(x), State::Fail(y)) => *x == *y,
        _ => false,
    }
}

/// Two states are equal where they are one as contracts see them: each member is, spelling included, and so are the numbers of the
/// machines inside them in the table. It is for states of one table; for those of two there is `is_same_but_machines`. Takes no
/// memory.
impl PartialEq for State {
    ghost use Rattle.asl_def_states.specs.Laws.{state_eq};
    ghost use Rattle.asl_def_states.specs.private.Exact.{state_laws};

    ghost eq = { state_eq };

    ghost laws = { state_laws };

    fn eq(&self, other: &State) -> bool
        ensures equal { result ≡ state_eq self.now other.now }
        ensures same { IsTrue result ↔ (self.now ≡ other.now) }
    {
        are_equal(self, other)
    }
}

impl Eq for State {
    ghost use Rattle.asl_def_states.specs.private.Exact.{state_equivalence};

    ghost laws = { state_equivalence };
}

impl State {
    fn newer(self) -> State
        ensures { result ≡ newer_state self }
    {
        match self {
            State::Map(map) => State::Map(map.newer()),
            other => other,
        }
    }

    /// Spells it in the newer way: of a Map the machine is `ItemProcessor`, and the template `ItemSelector`. Takes no memory.
    pub fn upgrade(&mut self)
        ensures { self.new ≡ newer_state self.old }
    {
        let state = mem::replace(self, State::Succeed(Succeed::bare()));
        *self = state.newer();
    }
}

impl TryClone for State {
    fn try_clone(&self, alloc: Global) -> Result<State, AllocError> {
        match self {
            State::Task(task) => Ok(State::Task(task.try_clone(alloc)?)),
            State::Pass(pass) => Ok(State::Pass(pass.try_clone(alloc)?)),
            State::Choice(choice) => Ok(State::Choice(choice.try_clone(alloc)?)),
            State::Wait(wait) => Ok(State::Wait(wait.try_clone(alloc)?)),
            State::Parallel(parallel) => Ok(State::Parallel(parallel.try_clone(alloc)?)),
            State::Map(map) => Ok(State::Map(map.try_clone(alloc)?)),
            State::Succeed(succeed) => Ok(State::Succeed(succeed.try_clone(alloc)?)),
            State::Fail(fail) => Ok(State::Fail(fail.try_clone(alloc)?)),
        }
    }
}

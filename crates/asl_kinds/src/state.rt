// A state of any type.
use crate::kind::StateKind;
use asl_def_states::State;
use asl_step::{Context, Effect, Visit};
use std::alloc::{AllocError, Global};

/// A state does what its kind says. It doesn't depend on the states of the machines inside it: the law `any_table` of `Laws`.
impl StateKind for State {
    ghost use Rattle.std.specs.Prelude.{[]};
    ghost use Rattle.asl_def_states.specs.Show.{state_of};
    ghost use Rattle.asl_kinds.specs.Table.{state_effect, invokes, slots};
    ghost use Rattle.asl_kinds.specs.private.Laws.{state-bounded};

    ghost effect = { λ k. state_effect (state_of [] k) };

    ghost is_invoking = { λ k. invokes (state_of [] k) };

    ghost slots = { λ k. slots (state_of [] k) };

    ghost bounded = { λ k. state-bounded (state_of [] k) };

    ghost use Rattle.asl_kinds.specs.private.Telling.{state-told};

    ghost entered = { state-told };

    fn visit(
        &self,
        alloc: Global,
        visit: &Visit,
        context: &mut Context,
    ) -> Result<Effect, AllocError> {
        match self {
            State::Pass(state) => state.visit(alloc, visit, context),
            State::Succeed(state) => state.visit(alloc, visit, context),
            State::Fail(state) => state.visit(alloc, visit, context),
            State::Choice(state) => state.visit(alloc, visit, context),
            State::Wait(state) => state.visit(alloc, visit, context),
            State::Task(state) => state.visit(alloc, visit, context),
            State::Parallel(state) => state.visit(alloc, visit, context),
            State::Map(state) => state.visit(alloc, visit, context),
        }
    }

    fn invokes(&self) -> bool {
        match self {
            State::Pass(state) => state.invokes(),
            State::Succeed(state) => state.invokes(),
            State::Fail(state) => state.invokes(),
            State::Choice(state) => state.invokes(),
            State::Wait(state) => state.invokes(),
            State::Task(state) => state.invokes(),
            State::Parallel(state) => state.invokes(),
            State::Map(state) => state.invokes(),
        }
    }

    fn slots(&self) -> u32 {
        match self {
            State::Pass(state) => state.slots(),
            State::Succeed(state) => state.slots(),
            State::Fail(state) => state.slots(),
            State::Choice(state) => state.slots(),
            State::Wait(state) => state.slots(),
            State::Task(state) => state.slots(),
            State::Parallel(state) => state.slots(),
            State::Map(state) => state.slots(),
        }
    }
}

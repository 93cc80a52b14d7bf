// A state of any type.
ghost use Rattle.std.specs.Prelude.{◌≡◌, [], IfOk};
ghost use Rattle.asl_def_states.specs.Show.{state_of};
ghost use Rattle.asl_step.specs.Seen.{seen};
ghost use Rattle.asl_trace_data.specs.Kinds.{stages_of};

use crate::answering::of_task;
use crate::choosing::of_choice;
use crate::joining::of_parallel;
use crate::mapping::of_map;
use crate::passing::{of_fail, of_pass, of_succeed, of_wait};
use crate::stage::Stage;
use asl_def_states::State;
use asl_step::{Context, Visit};
use std::alloc::{AllocError, Global};

/// The stages of a step of a state: what it makes of its data. The Context Object alone changes, and it stays that of its execution. The
/// error is that memory ran out.
pub fn stages_of(
    alloc: Global,
    state: &State,
    visit: &Visit,
    context: &mut Context,
) -> Result<Vec<Stage>, AllocError>
    ensures stages { IfOk result (λ ss. ss.items ≡ stages_of (state_of [] state.now)
        context.old.facts (seen visit.now)) }
    ensures facts { context.new.facts ≡ context.old.facts }
{
    match state {
        State::Pass(state) => of_pass(alloc, state, visit, context),
        State::Succeed(state) => of_succeed(alloc, state, visit, context),
        State::Fail(state) => of_fail(alloc, state, visit, context),
        State::Choice(state) => of_choice(alloc, state, visit, context),
        State::Wait(state) => of_wait(alloc, state, visit, context),
        State::Task(state) => of_task(alloc, state, visit, context),
        State::Parallel(state) => of_parallel(alloc, state, visit, context),
        State::Map(state) => of_map(alloc, state, visit, context),
    }
}

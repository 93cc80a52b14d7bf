// Succeed (ASL, "Succeed State").
ghost use Rattle.std.specs.Prelude.{◌≡◌};
ghost use Rattle.asl_def_states.specs.Show.{succeed_object};
ghost use Rattle.asl_step.specs.Context.{context_of};
ghost use Rattle.asl_step.specs.Seen.{seen};
ghost use Rattle.asl_step_io.specs.Gives.{Gives};
ghost use Rattle.asl_kinds.specs.Members.{passed_on};

use crate::kind::StateKind;
use crate::passing::passed;
use asl_def_states::Succeed;
use asl_history::EventKind;
use asl_json_shared::Shared;
use asl_step::{Context, Effect, Visit, entering, idle};
use asl_step_io::{Fault, taken};
use std::alloc::{AllocError, Global};

/// What a Succeed gives for a raw input.
fn output(
    alloc: Global,
    succeed: &Succeed,
    input: &Shared,
    visit: &Visit,
    context: &mut Context,
) -> Result<Shared, Fault>
    ensures given { Gives (passed_on (succeed_object succeed.now) input.now
        (context_of context.old.facts (seen visit.now))) result }
    ensures facts { context.new.facts ≡ context.old.facts }
{
    let effective = taken(
        alloc,
        "InputPath",
        succeed.input_path(),
        input,
        visit,
        context,
    )?;
    taken(
        alloc,
        "OutputPath",
        succeed.output_path(),
        &effective,
        visit,
        context,
    )
}

impl StateKind for Succeed {
    ghost use Rattle.std.specs.Prelude.{false};
    ghost use Rattle.asl_def_states.specs.Show.{succeed_object};
    ghost use Rattle.asl_kinds.specs.Table.{succeed_effect};
    ghost use Rattle.asl_kinds.specs.private.Laws.{succeed-lawful};

    ghost effect = { λ k. succeed_effect (succeed_object k) };

    ghost is_invoking = { λ k. false };

    ghost slots = { λ k. 0 };

    ghost bounded = { λ k f v. (succeed-lawful (succeed_object k) f v).bounds };

    ghost use Rattle.asl_kinds.specs.private.Telling.{succeed-told};

    ghost entered = { λ k. succeed-told (succeed_object k) };

    fn visit(
        &self,
        alloc: Global,
        visit: &Visit,
        context: &mut Context,
    ) -> Result<Effect, AllocError> {
        let Some(input) = visit.current.entering() else {
            return idle(alloc, visit.current);
        };
        let done = entering(alloc, visit, EventKind::SucceedStateEntered, input)?;
        let given = output(alloc, self, input, visit, context);
        passed(
            alloc,
            visit,
            done,
            EventKind::SucceedStateExited,
            None,
            given,
        )
    }

    fn invokes(&self) -> bool {
        false
    }

    fn slots(&self) -> u32 {
        0
    }
}

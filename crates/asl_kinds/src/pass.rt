// Pass (ASL, "Pass State").
ghost use Rattle.std.specs.Prelude.{◌≡◌, IfOk, option_map};
ghost use Rattle.asl_json.specs.View.{data_of};
ghost use Rattle.asl_def_states.specs.Show.{pass_object};
ghost use Rattle.asl_step.specs.Context.{context_of};
ghost use Rattle.asl_step.specs.Seen.{seen};
ghost use Rattle.asl_step_io.specs.Gives.{Gives};
ghost use Rattle.asl_kinds.specs.Members.{pass_output, result_or};

use crate::kind::StateKind;
use crate::making::{effective, placed};
use crate::passing::{passed, target};
use asl_def_states::Pass;
use asl_history::EventKind;
use asl_json::Json;
use asl_json_shared::Shared;
use asl_step::{Context, Effect, Visit, entering, idle};
use asl_step_io::{Fault, copied};
use std::alloc::{AllocError, Global};

/// The result of a Pass that has one, else its effective input.
pub fn result_or(
    alloc: Global,
    given: Option<&Json>,
    effective: Shared,
) -> Result<Shared, AllocError>
    ensures { IfOk result (λ v. v
        ≡ result_or (option_map (λ w. data_of w.now) given.entry) effective) }
{
    match given {
        Some(value) => copied(alloc, value),
        None => Ok(effective),
    }
}

/// What a Pass gives for a raw input.
fn output(
    alloc: Global,
    pass: &Pass,
    input: &Shared,
    visit: &Visit,
    context: &mut Context,
) -> Result<Shared, Fault>
    ensures given { Gives (pass_output (pass_object pass.now) input.now
        (context_of context.old.facts (seen visit.now))) result }
    ensures facts { context.new.facts ≡ context.old.facts }
{
    let (path, parameters) = (pass.input_path(), pass.parameters());
    let effective = effective(alloc, path, parameters, input, visit, context)?;
    let given = result_or(alloc, pass.result(), effective)?;
    let (path, output) = (pass.result_path(), pass.output_path());
    placed(alloc, path, output, input, given, visit, context)
}

impl StateKind for Pass {
    ghost use Rattle.std.specs.Prelude.{false};
    ghost use Rattle.asl_def_states.specs.Show.{pass_object};
    ghost use Rattle.asl_kinds.specs.Table.{pass_effect};
    ghost use Rattle.asl_kinds.specs.private.Laws.{pass-lawful};

    ghost effect = { λ k. pass_effect (pass_object k) };

    ghost is_invoking = { λ k. false };

    ghost slots = { λ k. 0 };

    ghost bounded = { λ k f v. (pass-lawful (pass_object k) f v).bounds };

    ghost use Rattle.asl_kinds.specs.private.Telling.{pass-told};

    ghost entered = { λ k. pass-told (pass_object k) };

    fn visit(
        &self,
        alloc: Global,
        visit: &Visit,
        context: &mut Context,
    ) -> Result<Effect, AllocError> {
        let Some(input) = visit.current.entering() else {
            return idle(alloc, visit.current);
        };
        let done = entering(alloc, visit, EventKind::PassStateEntered, input)?;
        let given = output(alloc, self, input, visit, context);
        let next = target(self.next());
        passed(alloc, visit, done, EventKind::PassStateExited, next, given)
    }

    fn invokes(&self) -> bool {
        false
    }

    fn slots(&self) -> u32 {
        0
    }
}

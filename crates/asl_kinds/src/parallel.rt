// Parallel (ASL, "Parallel State").
ghost use Rattle.std.specs.Prelude.{◌≡◌, ◌≤◌, ◌^◌, [], map, length, Ok, Some, IfOk};
ghost use Rattle.asl_def_states.specs.Show.{parallel_object};
ghost use Rattle.asl_step.specs.Bounds.{AreFew};
ghost use Rattle.asl_step.specs.Context.{context_of};
ghost use Rattle.asl_step.specs.declared.record.Record.TheVariants.{Ready};
ghost use Rattle.asl_step.specs.Seen.{seen};
ghost use Rattle.asl_kinds.specs.Table.{parallel_forks, parallel_with};

use crate::joining::{forked, join};
use crate::kind::StateKind;
use crate::making::effective;
use crate::raising::{count_of, raise};
use asl_def_shared::Bodies;
use asl_def_states::Parallel;
use asl_history::EventKind;
use asl_json_shared::{Name, Shared, SharedItems};
use asl_step::{
    Context, Effect, Progress, Record, Records, Visit, beginning, forking, idle, telling,
};
use asl_step_io::{Fault, empty_object};
use std::alloc::{AllocError, Global};

/// A branch for each of these machines, about to enter its first state with this input.
fn branches(alloc: Global, bodies: &Bodies, input: &Shared) -> Result<Records, AllocError>
    ensures ready { IfOk result (λ rs. rs ≡ map (λ b. Ready b.start.name input.now) bodies.now) }
    ensures few { IfOk result (λ rs. length rs ≤ 10 ^ 9) }
{
    let mut list = Vec::new(alloc);
    for body in bodies.as_slice() {
        list.push(Record::Ready {
            state: Name::new(alloc, body.start.name.as_str())?,
            input: input.try_clone()?,
        })?;
    }
    Ok(Records { list })
}

/// Its branches begin with this effective input.
fn forks(
    alloc: Global,
    parallel: &Parallel,
    visit: &Visit,
    done: Progress,
    input: &Shared,
    effective: &Shared,
) -> Result<Effect, AllocError>
    ensures effect { IfOk result (λ e. e
        ≡ parallel_forks (parallel_object [] parallel.now) (seen visit.now) done input.now
        (Ok effective.now)) }
    ensures fits { IfOk result (λ e. AreFew e.children) }
{
    let started = empty_object(alloc)?;
    let done = telling(alloc, visit, done, EventKind::ParallelStateStarted, started)?;
    let retriers = count_of(parallel.completion().retry());
    let branches = branches(alloc, parallel.branches(), effective)?;
    let items = SharedItems::none();
    forking(alloc, visit, done, input, retriers, items, branches)
}

/// A Parallel is entered with this raw input, or retried.
fn begins(
    alloc: Global,
    parallel: &Parallel,
    visit: &Visit,
    context: &mut Context,
    input: &Shared,
) -> Result<Effect, AllocError>
    ensures effect { IfOk result (λ e. e
        ≡ parallel_with (parallel_object [] parallel.now)
        (context_of context.old.facts (seen visit.now)) (seen visit.now) (Some input.now)) }
    ensures fits { IfOk result (λ e. AreFew e.children) }
    ensures facts { context.new.facts ≡ context.old.facts }
{
    let done = beginning(alloc, visit, EventKind::ParallelStateEntered, input)?;
    let (path, parameters) = (parallel.input_path(), parallel.parameters());
    match effective(alloc, path, parameters, input, visit, context) {
        Ok(effective) => forks(alloc, parallel, visit, done, input, &effective),
        Err(Fault::Raised(error)) => {
            let exited = EventKind::ParallelStateExited;
            raise(
                alloc,
                parallel.completion(),
                visit,
                done,
                exited,
                input,
                error,
            )
        }
        Err(Fault::Memory) => Err(AllocError),
    }
}

impl StateKind for Parallel {
    ghost use Rattle.std.specs.Prelude.{[], false};
    ghost use Rattle.asl_def_states.specs.Show.{parallel_object};
    ghost use Rattle.asl_kinds.specs.Table.{parallel_effect};
    ghost use Rattle.asl_kinds.specs.private.Laws.{parallel-bounded};

    ghost effect = { λ k. parallel_effect (parallel_object [] k) };

    ghost is_invoking = { λ k. false };

    ghost slots = { λ k. 0 };

    ghost bounded = { λ k. parallel-bounded (parallel_object [] k) };

    ghost use Rattle.asl_kinds.specs.private.Telling.{parallel-told};

    ghost entered = { λ k. parallel-told (parallel_object [] k) };

    fn visit(
        &self,
        alloc: Global,
        visit: &Visit,
        context: &mut Context,
    ) -> Result<Effect, AllocError> {
        if let Some(input) = visit.current.beginning() {
            return begins(alloc, self, visit, context, input);
        }
        let Some(input) = forked(visit.current) else {
            return idle(alloc, visit.current);
        };
        join(
            alloc,
            self.completion(),
            visit,
            context,
            EventKind::ParallelStateSucceeded,
            EventKind::ParallelStateFailed,
            EventKind::ParallelStateExited,
            input,
        )
    }

    fn invokes(&self) -> bool {
        false
    }

    fn slots(&self) -> u32 {
        0
    }
}

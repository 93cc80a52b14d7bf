// The transitions that a run took.
ghost use Rattle.std.specs.Prelude.{◌≡◌, [], IfOk, OnOk};
ghost use Rattle.std.specs.Option.{option_copied};
ghost use Rattle.asl_exec.specs.Steps.{facts_of, step};
ghost use Rattle.asl_exec.specs.Views.{setup_of, world_of};
ghost use Rattle.asl_trace.specs.Deciding.{deciding_at};
ghost use Rattle.asl_run_formats.specs.Edges.{with_edge, way_of, is_ready, with_entry, with_exit, with_both, with_taken, doing_at, with_step, with_steps};

use asl_exec::Execution;
use asl_graph::{Edge, Way, is_taken};
use asl_json_shared::Name;
use asl_run_input::StepAt;
use asl_run_state::Refusal;
use asl_step::{Context, Record};
use asl_trace::{Deciding, Staged, context_of, decided_at};
use std::alloc::{AllocError, Global};

/// Adds a transition, unless it is there. The error is that memory ran out.
fn add(alloc: Global, edges: &mut Vec<Edge>, state: &str, way: Way) -> Result<(), AllocError>
    ensures { OnOk result (edges.new.items ≡ with_edge edges.old.items state.now way) }
{
    if is_taken(edges, state, way) {
        return Ok(());
    }
    let state = Name::new(alloc, state)?;
    edges.push(Edge { state, way })?;
    Ok(())
}

/// The way from a state that what decides goes, where it goes on.
fn way_of(deciding: Deciding) -> Option<Way>
    ensures { result ≡ way_of deciding }
{
    match deciding {
        Deciding::Nothing | Deciding::Retrier(_) => None,
        Deciding::Next => Some(Way::Next),
        Deciding::Rule(number) => Some(Way::Rule(number)),
        Deciding::Default => Some(Way::Default),
        Deciding::Catcher(number) => Some(Way::Catcher(number)),
    }
}

/// Whether a branch is about to enter a state, which another one led to.
fn is_ready(doing: Option<&Record>) -> bool
    ensures { result ≡ is_ready (option_copied doing.entry) }
{
    match doing {
        Some(Record::Ready { .. }) => true,
        _ => false,
    }
}

/// Adds the way into the state that a branch is about to enter. The error is that memory ran out.
fn add_entry(alloc: Global, edges: &mut Vec<Edge>, doing: &Record) -> Result<(), AllocError>
    ensures { OnOk result (edges.new.items ≡ with_entry edges.old.items doing.now) }
{
    match doing {
        Record::New { state, .. } | Record::Ready { state, .. } => {
            add(alloc, edges, state.as_str(), Way::Start)
        }
        _ => Ok(()),
    }
}

/// Adds the way from a state, where it was gone. The error is that memory ran out.
fn add_exit(
    alloc: Global,
    edges: &mut Vec<Edge>,
    state: &str,
    way: Option<Way>,
    gone: bool,
) -> Result<(), AllocError>
    ensures { OnOk result (edges.new.items ≡ with_exit edges.old.items state.now way gone) }
{
    match way {
        Some(way) if gone => add(alloc, edges, state, way),
        _ => Ok(()),
    }
}

/// What the branch at a place is doing, where the time of the execution isn't over. The error is that memory ran out.
fn doing_at(alloc: Global, execution: &Execution, at: &StepAt) -> Result<Option<Record>, AllocError>
    ensures { IfOk result (λ o. o ≡ doing_at (world_of execution.now) at.now.place at.now.moment) }
{
    if execution.is_late(at.moment) {
        return Ok(None);
    }
    match execution.view(&at.place) {
        Some(doing) => Ok(Some(doing.try_clone(alloc)?)),
        None => Ok(None),
    }
}

/// Adds the transitions that a step took, by what its branch was doing, what decided, and what the branch does behind it. The error is
/// that memory ran out.
fn add_both(
    alloc: Global,
    edges: &mut Vec<Edge>,
    doing: &Record,
    deciding: Deciding,
    behind: Option<&Record>,
) -> Result<(), AllocError>
    ensures { OnOk result (edges.new.items
        ≡ with_both edges.old.items doing.now deciding (option_copied behind.entry)) }
{
    add_entry(alloc, edges, doing)?;
    let gone = is_ready(behind);
    let way = way_of(deciding);
    add_exit(alloc, edges, doing.name(), way, gone)
}

/// The same where it wasn't refused with this, and a branch was there. The error is that memory ran out.
fn add_taken(
    alloc: Global,
    edges: &mut Vec<Edge>,
    refusal: Option<Refusal>,
    doing: Option<Record>,
    deciding: Deciding,
    behind: Option<&Record>,
) -> Result<(), AllocError>
    ensures { OnOk result (edges.new.items
        ≡ with_taken edges.old.items refusal doing deciding (option_copied behind.entry)) }
{
    match refusal {
        Some(_) => Ok(()),
        None => match doing {
            Some(doing) => add_both(alloc, edges, &doing, deciding, behind),
            None => Ok(()),
        },
    }
}

/// Takes a step, and adds the transitions that it takes. The context is the execution's; it is written over. The error is that memory ran
/// out.
fn pass(
    alloc: Global,
    execution: &mut Execution,
    context: &mut Context,
    edges: &mut Vec<Edge>,
    at: &StepAt,
) -> Result<(), AllocError>
    ensures edges { OnOk result (edges.new.items ≡ with_step edges.old.items context.old.facts
        (setup_of execution.old) (world_of execution.old) at.now.place at.now.moment) }
    ensures world { OnOk result (world_of execution.new
        ≡ step (setup_of execution.old) (world_of execution.old) at.now.place at.now.moment) }
    ensures setup { setup_of execution.new ≡ setup_of execution.old }
    ensures facts { context.new.facts ≡ context.old.facts }
{
    let doing = doing_at(alloc, execution, at)?;
    let decided = decided_at(alloc, execution, Staged::Handling, context, at)?;
    let refusal = execution.reply(at)?;
    let behind = execution.view(&at.place);
    add_taken(alloc, edges, refusal, doing, decided.deciding, behind)
}

/// Takes steps in order, and adds the transitions that they take. The error is that memory ran out.
fn pass_all(
    alloc: Global,
    execution: &mut Execution,
    context: &mut Context,
    edges: &mut Vec<Edge>,
    steps: &[StepAt],
) -> Result<(), AllocError>
    ensures { OnOk result (edges.new.items ≡ with_steps edges.old.items context.old.facts
        (setup_of execution.old) (world_of execution.old) steps.now) }
{
    for at in steps {
        pass(alloc, execution, context, edges, at)?;
    }
    Ok(())
}

/// The transitions that these steps of an execution take, each once. The error is that memory ran out.
pub(crate) fn passed(
    alloc: Global,
    execution: &mut Execution,
    steps: &[StepAt],
) -> Result<Vec<Edge>, AllocError>
    ensures { IfOk result (λ v. v.items ≡ with_steps [] (facts_of (setup_of execution.old))
        (setup_of execution.old) (world_of execution.old) steps.now) }
{
    let mut context = context_of(alloc, execution.setup())?;
    let mut edges = Vec::new(alloc);
    pass_all(alloc, execution, &mut context, &mut edges, steps)?;
    Ok(edges)
}

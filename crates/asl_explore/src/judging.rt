// Judging the worlds that end an execution.
ghost use Rattle.std.specs.Prelude.{◌≡◌, Bool, List, true, false, is_none, IfOk, IfSome};
ghost use Rattle.std.specs.List.{All};
ghost use Rattle.asl_run_state.specs.Bare.{bare};
ghost use Rattle.asl_run_state.specs.declared.outcome.Outcome.{Outcome};
ghost use Rattle.asl_run_input.specs.declared.setup.Setup.{Setup};
ghost use Rattle.asl_exec.specs.Steps.{step};
ghost use Rattle.asl_exec.specs.Probes.{setup_of};
ghost use Rattle.asl_explore.specs.declared.orders.Orders.{Orders};
ghost use Rattle.asl_explore.specs.Searches.{worlds_of};
ghost use Rattle.asl_explore.specs.Calls.{AllAreExpanded};
ghost use Rattle.asl_explore.specs.Ends.{AreEndsIn, EndsIn};
ghost use Rattle.asl_explore.specs.Judging.{Accepts, AreJudged, IsRefused};

use crate::found::Found;
use crate::judge::Judge;
use crate::met::Node;
use crate::order::{path, replay};
use crate::orders::Orders;
use crate::search::{bound_in, is_beyond};
use crate::visiting::{enter, turns_in};
use asl_exec::Probe;
use asl_run_branches::Earliest;
use asl_run_input::StepAt;
use asl_run_state::World;
use std::alloc::{AllocError, Global};

/// What a judge says of ends.
#[derive(Drop)]
struct Verdict {
    /// One that isn't accepted, with steps that lead to it; none where none was met.
    refused: Option<Found>,
    /// Whether each was judged, up to that one.
    complete: bool,
}

/// None was met that isn't accepted, and each was judged, if this is so.
fn unrefused(complete: bool) -> Verdict
    ensures none { is_none result.refused ≡ true }
    ensures complete { result.complete ≡ complete }
{
    Verdict {
        refused: None,
        complete,
    }
}

/// How a world was reached: it has this number among those that were met.
#[derive(Clone, Copy)]
struct Way<'a> {
    nodes: &'a [Node],
    number: usize,
}

/// An end that isn't accepted, by the steps that lead to a world and one more; none where a run of these steps ends otherwise, or one of them isn't tried.
/// The error is that memory ran out.
fn refused_by<J: Judge>(
    probe: &mut Probe,
    alloc: Global,
    orders: Orders,
    judge: &J,
    way: Way<'_>,
    at: StepAt,
) -> Result<Option<Found>, AllocError>
    ensures refused { IfOk result (λ o. IfSome o
        (IsRefused (J.accepts judge.now (setup_of probe.old)) orders (setup_of probe.old))) }
    ensures setup { setup_of probe.new ≡ setup_of probe.old }
{
    let steps = path(alloc, way.nodes, way.number, at)?;
    if !replay(probe, alloc, orders, &steps)? {
        return Ok(None);
    }
    let end = probe.world();
    if end.is_running() {
        return Ok(None);
    }
    if judge.accepts(probe.setup(), end) {
        return Ok(None);
    }
    let outcome = end.outcome().try_clone(alloc)?;
    Ok(Some(Found { outcome, steps }))
}

/// Takes a step in a world that was met, and judges the end that it leads to, if it leads to one. The error is that memory ran out.
fn judge_step<J: Judge>(
    probe: &mut Probe,
    alloc: Global,
    orders: Orders,
    judge: &J,
    way: Way<'_>,
    world: &World,
    turn: &Earliest,
) -> Result<Verdict, AllocError>
    ensures refused { IfOk result (λ v. IfSome v.refused
        (IsRefused (J.accepts judge.now (setup_of probe.old)) orders (setup_of probe.old))) }
    ensures accepted { IfOk result (λ v. is_none v.refused ≡ true → v.complete ≡ true
        → EndsIn (Accepts (J.accepts judge.now (setup_of probe.old)))
        (step (setup_of probe.old) (bare world.now) turn.now.place turn.now.moment)) }
    ensures setup { setup_of probe.new ≡ setup_of probe.old }
{
    if !enter(probe, alloc, world)? {
        return Ok(unrefused(false));
    }
    let at = StepAt {
        place: turn.place.try_clone()?,
        moment: turn.moment,
    };
    let _reply = probe.reply(&at)?;
    let end = probe.world();
    if end.is_running() {
        return Ok(unrefused(true));
    }
    if judge.accepts(probe.setup(), end) {
        return Ok(unrefused(true));
    }
    let refused = refused_by(probe, alloc, orders, judge, way, at)?;
    let complete = refused.is_some();
    Ok(Verdict { refused, complete })
}

/// The same, unless the step is later than is tried.
fn judge_turn<J: Judge>(
    probe: &mut Probe,
    alloc: Global,
    orders: Orders,
    judge: &J,
    way: Way<'_>,
    world: &World,
    turn: &Earliest,
    beyond: bool,
) -> Result<Verdict, AllocError>
    ensures refused { IfOk result (λ v. IfSome v.refused
        (IsRefused (J.accepts judge.now (setup_of probe.old)) orders (setup_of probe.old))) }
    ensures accepted { IfOk result (λ v. is_none v.refused ≡ true → v.complete ≡ true → beyond ≡ false
        → EndsIn (Accepts (J.accepts judge.now (setup_of probe.old)))
        (step (setup_of probe.old) (bare world.now) turn.now.place turn.now.moment)) }
    ensures setup { setup_of probe.new ≡ setup_of probe.old }
{
    if beyond {
        return Ok(unrefused(true));
    }
    judge_step(probe, alloc, orders, judge, way, world, turn)
}

/// Takes a step of each branch in a world that was met, and judges the ends to which those that are tried lead, up to the first that isn't accepted.
/// The error is that memory ran out.
fn judge_ends<J: Judge>(
    probe: &mut Probe,
    alloc: Global,
    orders: Orders,
    judge: &J,
    way: Way<'_>,
    world: &World,
) -> Result<Verdict, AllocError>
    ensures refused { IfOk result (λ v. IfSome v.refused
        (IsRefused (J.accepts judge.now (setup_of probe.old)) orders (setup_of probe.old))) }
    ensures accepted { IfOk result (λ v. is_none v.refused ≡ true → v.complete ≡ true
        → AreEndsIn (Accepts (J.accepts judge.now (setup_of probe.old))) orders (setup_of probe.old)
        (bare world.now)) }
    ensures setup { setup_of probe.new ≡ setup_of probe.old }
{
    let Some(turns) = turns_in(alloc, world)? else {
        return Ok(unrefused(false));
    };
    let bound = bound_in(probe, alloc, orders, world, &turns)?;
    let mut complete = true;
    for turn in &turns {
        let beyond = is_beyond(&bound, turn.moment);
        let verdict = judge_turn(probe, alloc, orders, judge, way, world, turn, beyond)?;
        if verdict.refused.is_some() {
            return Ok(verdict);
        }
        complete = complete && verdict.complete;
    }
    Ok(unrefused(complete))
}

/// Judges the ends to which a step leads in one of these worlds, up to the first that isn't accepted. The error is that memory ran out.
fn judge_worlds<J: Judge>(
    probe: &mut Probe,
    alloc: Global,
    orders: Orders,
    judge: &J,
    nodes: &[Node],
) -> Result<Verdict, AllocError>
    ensures refused { IfOk result (λ v. IfSome v.refused
        (IsRefused (J.accepts judge.now (setup_of probe.old)) orders (setup_of probe.old))) }
    ensures accepted { IfOk result (λ v. is_none v.refused ≡ true → v.complete ≡ true
        → All (AreEndsIn (Accepts (J.accepts judge.now (setup_of probe.old))) orders (setup_of probe.old))
        (worlds_of nodes.now)) }
    ensures setup { setup_of probe.new ≡ setup_of probe.old }
{
    let mut complete = true;
    for (number, node) in nodes.iter().enumerate() {
        let way = Way { nodes, number };
        let verdict = judge_ends(probe, alloc, orders, judge, way, &node.world)?;
        if verdict.refused.is_some() {
            return Ok(verdict);
        }
        complete = complete && verdict.complete;
    }
    Ok(unrefused(complete))
}

/// The ends that judges don't accept.
#[derive(Drop)]
pub(crate) struct Refusals {
    /// Of each judge one with steps that lead to it; none where none was met.
    pub(crate) list: Vec<Option<Found>>,
    /// Whether each judge judged every end, up to that one.
    pub(crate) whole: bool,
}

/// Asks each judge of the ends to which a step leads in one of these worlds. The error is that memory ran out.
pub(crate) fn judge_all<J: Judge>(
    probe: &mut Probe,
    alloc: Global,
    orders: Orders,
    judges: &[J],
    nodes: &[Node],
) -> Result<Refusals, AllocError>
    ensures judged { (os : List Outcome) (known : Bool) → IfOk result (λ r.
        (known ≡ true → (r.whole ≡ true) × AllAreExpanded orders (setup_of probe.old) (worlds_of nodes.now) os)
        → AreJudged J.accepts known orders (setup_of probe.old) judges.now r.list.items) }
    ensures setup { setup_of probe.new ≡ setup_of probe.old }
{
    let mut list = Vec::new(alloc);
    let mut whole = true;
    for judge in judges {
        let verdict = judge_worlds(probe, alloc, orders, judge, nodes)?;
        whole = whole && verdict.complete;
        list.push(verdict.refused)?;
    }
    Ok(Refusals { list, whole })
}

/// No end is refused by any of these judges, since none was met. The error is that memory ran out.
pub(crate) fn none_refused<J: Judge>(
    alloc: Global,
    judges: &[J],
) -> Result<Vec<Option<Found>>, AllocError>
    ensures { (o : Orders) (s : Setup) → IfOk result (λ v. AreJudged J.accepts false o s judges.now v.items) }
{
    let mut list = Vec::new(alloc);
    for _ in 0..judges.len() {
        list.push(None)?;
    }
    Ok(list)
}

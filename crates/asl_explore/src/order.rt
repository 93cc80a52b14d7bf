// Steps at the earliest moments.
ghost use Rattle.std.specs.Prelude.{◌≡◌, ◌≤◌, ◌⊎◌, true, is_none, IfOk, IfSome, Some};
ghost use Rattle.asl_run_branches.specs.Earliest.{due_from};
ghost use Rattle.asl_run_state.specs.Bare.{earliest};
ghost use Rattle.asl_exec.specs.Steps.{opening, world_after};
ghost use Rattle.asl_exec.specs.Probes.{setup_of, world_of};
ghost use Rattle.asl_explore.specs.Orders.{due, timed, places_of, MayStep, IsPrompt, IsTried, AreTried};
ghost use Rattle.asl_explore.specs.private.Reaching.{IsLeast, NoneMayStep};
ghost use Rattle.asl_explore.specs.Searches.{IsOpenAt};

use crate::met::Node;
use crate::orders::Orders;
use crate::visiting::turns_in;
use asl_exec::Probe;
use asl_history::Place;
use asl_run_branches::{Earliest, due_from};
use asl_run_input::StepAt;
use asl_time::Moment;
use std::alloc::{AllocError, Global};

/// The steps that led to a world, and one more. The error is that memory ran out.
pub(crate) fn path(
    alloc: Global,
    nodes: &[Node],
    number: usize,
    at: StepAt,
) -> Result<Vec<StepAt>, AllocError> {
    let mut steps = Vec::new(alloc);
    steps.push(at)?;
    let mut number = number;
    for _ in 0..nodes.len() {
        if number == 0 || number >= nodes.len() {
            break;
        }
        let node = &nodes[number];
        steps.push(node.at.try_clone()?)?;
        number = node.parent;
    }
    steps.reverse();
    Ok(steps)
}

/// The earliest moment at which the branch at a place may step.
pub(crate) fn due(probe: &Probe, place: &Place) -> Moment
    ensures { result ≡ due (world_of probe.now) place.now }
{
    let last = probe.world().last();
    match probe.view(place) {
        Some(current) => due_from(last, current),
        None => last,
    }
}

/// The earliest moment at which the branch at a place may step; none where it may not.
pub(crate) fn chance(probe: &Probe, place: &Place) -> Option<Moment>
    ensures some { IfSome result
        (λ m. MayStep (setup_of probe.now) (world_of probe.now) place.now
        × (due (world_of probe.now) place.now ≡ m)) }
    ensures none { is_none result ≡ true
        → MayStep (setup_of probe.now) (world_of probe.now) place.now → ⊥ }
{
    if probe.view(place).is_none() {
        return None;
    }
    let moment = due(probe, place);
    if probe.refusal(place, moment).is_some() {
        return None;
    }
    Some(moment)
}

/// The earlier of two moments, the first of which there may not be.
fn earlier(best: Option<Moment>, moment: Moment) -> Moment
    ensures one { (result ≡ moment) ⊎ (best ≡ Some result) }
    ensures before { result ≤ moment }
    ensures before_best { IfSome best (λ b. result ≤ b) }
{
    match best {
        Some(earliest) if earliest.millis() <= moment.millis() => earliest,
        _ => moment,
    }
}

/// The earliest moment at which one of these branches may step; none where none may.
pub(crate) fn soonest(probe: &Probe, turns: &[Earliest]) -> Option<Moment>
    ensures open { IfSome result (IsOpenAt (setup_of probe.now) (world_of probe.now)) }
    ensures least { turns.now
        ≡ earliest (world_of probe.now).last (world_of probe.now).branches
        → IfSome result (IsLeast (setup_of probe.now) (world_of probe.now)) }
    ensures none { turns.now
        ≡ earliest (world_of probe.now).last (world_of probe.now).branches
        → is_none result ≡ true → NoneMayStep (setup_of probe.now) (world_of probe.now) }
{
    let mut least = None;
    for turn in turns {
        if let Some(moment) = chance(probe, &turn.place) {
            least = Some(earlier(least, moment));
        }
    }
    least
}

/// Whether a moment isn't later than another one.
fn is_by(moment: Moment, other: Moment) -> bool
    ensures { result ≡ true → moment ≤ other }
{
    moment.millis() <= other.millis()
}

/// Whether a branch may step at a place, and none may earlier. The error is that memory ran out.
fn is_prompt(probe: &Probe, alloc: Global, place: &Place) -> Result<bool, AllocError>
    ensures { IfOk result (λ b. b ≡ true
        → IsPrompt (setup_of probe.now) (world_of probe.now) place.now) }
{
    if probe.world().is_full() {
        return Ok(false);
    }
    let Some(moment) = chance(probe, place) else {
        return Ok(false);
    };
    let Some(turns) = turns_in(alloc, probe.world())? else {
        return Ok(false);
    };
    match soonest(probe, &turns) {
        Some(least) => Ok(is_by(moment, least)),
        None => Ok(false),
    }
}

/// Whether the step of the branch at a place is one that is tried. The error is that memory ran out.
pub(crate) fn is_tried(
    probe: &Probe,
    alloc: Global,
    orders: Orders,
    place: &Place,
) -> Result<bool, AllocError>
    ensures { IfOk result (λ b. b ≡ true
        → IsTried orders (setup_of probe.now) (world_of probe.now) place.now) }
{
    match orders {
        Orders::Every => Ok(true),
        Orders::Prompt => is_prompt(probe, alloc, place),
    }
}

/// Takes these steps from the beginning, if this is true: each is one that is tried, at the earliest moment. The error is that memory ran
/// out.
pub(crate) fn replay(
    probe: &mut Probe,
    alloc: Global,
    orders: Orders,
    steps: &[StepAt],
) -> Result<bool, AllocError>
    ensures world { IfOk result (λ b. b ≡ true → world_of probe.new
        ≡ world_after (setup_of probe.old) (opening (setup_of probe.old)) steps.now) }
    ensures timed { IfOk result (λ b. b ≡ true → steps.now
        ≡ timed (setup_of probe.old) (opening (setup_of probe.old)) (places_of steps.now)) }
    ensures tried { IfOk result (λ b. b ≡ true → AreTried orders (setup_of probe.old)
        (opening (setup_of probe.old)) (places_of steps.now)) }
    ensures setup { setup_of probe.new ≡ setup_of probe.old }
{
    let world = probe.opening()?;
    probe.enter(world);
    for at in steps {
        if due(probe, &at.place).millis() != at.moment.millis() {
            return Ok(false);
        }
        if !is_tried(probe, alloc, orders, &at.place)? {
            return Ok(false);
        }
        let _reply = probe.reply(at)?;
    }
    Ok(true)
}

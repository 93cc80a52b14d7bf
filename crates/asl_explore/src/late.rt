// Outcomes that come only where a branch is late.
ghost use Rattle.std.specs.Prelude.{◌≡◌, [], true, false, IfOk};
ghost use Rattle.std.specs.List.{All};
ghost use Rattle.asl_exec.specs.Probes.{setup_of};
ghost use Rattle.asl_explore.specs.Searches.{AreAllLate, AreAllListed, AreLate, AreOver, ComesPromptly, IsMissing, IsNumbered, IsPromptOutcome, NoneWaits, Waits, worlds_of};
ghost use Rattle.asl_run_state.specs.Bare.{bare};

use crate::found::Found;
use crate::met::Node;
use crate::order::replay;
use crate::orders::Orders;
use crate::outcomes::Outcomes;
use crate::search::search;
use crate::visiting::turns_in;
use crate::watch::Unwatched;
use asl_exec::Probe;
use asl_run_state::World;
use std::alloc::{AllocError, Global};

/// Whether a branch waits in a world. The error is that memory ran out.
fn waits(alloc: Global, world: &World) -> Result<bool, AllocError>
    ensures { IfOk result (λ b. b ≡ false → Waits (bare world.now) → ⊥) }
{
    let Some(turns) = turns_in(alloc, world)? else {
        return Ok(true);
    };
    let last = world.last().millis();
    for index in 0..turns.len() {
        let moment = turns[index].moment.millis();
        if last < moment {
            return Ok(true);
        }
    }
    Ok(false)
}

/// Whether a branch waits in one of these worlds. The error is that memory ran out.
pub(crate) fn any_waits(alloc: Global, nodes: &[Node]) -> Result<bool, AllocError>
    ensures { IfOk result (λ b. b ≡ false → NoneWaits (worlds_of nodes.now)) }
{
    for index in 0..nodes.len() {
        let node = &nodes[index];
        if waits(alloc, &node.world)? {
            return Ok(true);
        }
    }
    Ok(false)
}

/// The numbers, from 1, of the outcomes that aren't among others. The error is that memory ran out.
fn others_in(alloc: Global, found: &[Found], prompt: &Outcomes) -> Result<Vec<usize>, AllocError>
    ensures others { IfOk result (λ v. All (IsNumbered (IsMissing prompt.now.list.items) found.now) v.items) }
    ensures all { IfOk result (λ v. AreAllListed prompt.now.list.items found.now v.items) }
{
    let mut others = Vec::new(alloc);
    for index in 0..found.len() {
        if !prompt.has(alloc, &found[index].outcome)? {
            others.push(index + 1)?;
        }
    }
    Ok(others)
}

/// Whether the steps of an outcome are those of an order in which no branch is late. The error is that memory ran out.
fn comes_promptly(probe: &mut Probe, alloc: Global, found: &Found) -> Result<bool, AllocError>
    ensures prompt { IfOk result (λ b. b ≡ true
        → IsPromptOutcome (setup_of probe.old) found.now.outcome) }
    ensures setup { setup_of probe.new ≡ setup_of probe.old }
{
    if !replay(probe, alloc, Orders::Prompt, &found.steps)? {
        return Ok(false);
    }
    Ok(*probe.outcome() == found.outcome)
}

/// The same of the steps of each of these outcomes.
fn come_promptly(probe: &mut Probe, alloc: Global, found: &[Found]) -> Result<bool, AllocError>
    ensures prompt { IfOk result (λ b. b ≡ true
        → All (ComesPromptly (setup_of probe.old)) found.now) }
    ensures setup { setup_of probe.new ≡ setup_of probe.old }
{
    for one in found {
        if !comes_promptly(probe, alloc, one)? {
            return Ok(false);
        }
    }
    Ok(true)
}

/// Which outcomes come only where a branch is late.
#[derive(Drop)]
pub(crate) struct Lateness {
    /// Their numbers, from 1.
    pub(crate) numbers: Vec<usize>,
    /// Whether these are all.
    pub(crate) marked: bool,
}

/// The outcomes that come only where a branch is late: none, where the steps of each are those of an order in which none is; else those
/// that a search of such orders doesn't find. None is told where this search is cut. The error is that memory ran out.
pub(crate) fn late_among(
    probe: &mut Probe,
    alloc: Global,
    found: &[Found],
    limit: u32,
) -> Result<Lateness, AllocError>
    ensures late { IfOk result (λ x. AreOver found.now
        → AreLate (setup_of probe.old) found.now x.numbers.items) }
    ensures all { IfOk result (λ x. x.marked ≡ true
        → AreAllLate (setup_of probe.old) found.now x.numbers.items) }
{
    if come_promptly(probe, alloc, found)? {
        return Ok(no_lateness(alloc, true));
    }
    let Some(prompt) = search(probe, alloc, Orders::Prompt, true, limit, &Unwatched)? else {
        return Ok(no_lateness(alloc, false));
    };
    if !prompt.complete {
        return Ok(no_lateness(alloc, false));
    }
    let numbers = others_in(alloc, found, &prompt.found)?;
    Ok(Lateness {
        numbers,
        marked: true,
    })
}

/// None is told; and there is none, if this is true.
fn no_lateness(alloc: Global, marked: bool) -> Lateness
    ensures none { result.numbers.items ≡ [] }
    ensures marked { result.marked ≡ marked }
{
    Lateness {
        numbers: Vec::new(alloc),
        marked,
    }
}

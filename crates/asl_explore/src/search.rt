// A search over the worlds that steps lead to.
ghost use Rattle.std.specs.Prelude.{◌≡◌, ◌<◌, ◌≤◌, ◌⊎◌, ◌∷◌, ◌&&◌, [], true, false, is_none, not, length, get_or, slice_index_or, nat_eq, ◌+◌, is_some, None, IfOk, IfSome};
ghost use Rattle.std.specs.List.{All, Contains, HoldsAt};
ghost use Rattle.asl_run_state.specs.Bare.{bare, earliest};
ghost use Rattle.asl_run_state.specs.World.{World, is_over};
ghost use Rattle.asl_exec.specs.Steps.{deadline_of, opening, refusal_in, step};
ghost use Rattle.asl_exec.specs.Probes.{setup_of};
ghost use Rattle.asl_explore.specs.Finding.{IsFound};
ghost use Rattle.asl_explore.specs.Judging.{AreJudged};
ghost use Rattle.asl_explore.specs.Endless.{CanEnd, EachEndsOrFills, NoneIsEndless};
ghost use Rattle.asl_explore.specs.private.Reaching.{IsLeast};
ghost use Rattle.asl_explore.specs.private.Searching.{IsSearch};
ghost use Rattle.asl_explore.specs.Orders.{IsWhole, IsWholeTo};
ghost use Rattle.asl_explore.specs.declared.orders.Orders.{Orders};
ghost use Rattle.asl_explore.specs.declared.orders.Orders.TheVariants.{Every};
ghost use Rattle.asl_explore.specs.Settled.{AreSettledFrom};
ghost use Rattle.asl_explore.specs.Calls.{AllAreExpanded, AreCounted, AreMetSoFar};
ghost use Rattle.asl_explore.specs.Searches.{IsMet, IsExpanded, IsReached, IsTakenOn, IsClosed, IsBound, worlds_of, outcomes_of, Shows, AreDistinct, IsLater, is_beyond};

use crate::clock::clock_in;
use crate::counting::{Counted, count_calls};
use crate::endless::endless_in;
use crate::found::Explored;
use crate::judge::{Judge, Judged, Unjudged};
use crate::judging::{judge_all, none_refused};
use crate::late::{any_waits, late_among};
use crate::met::Met;
use crate::order::soonest;
use crate::orders::Orders;
use crate::outcomes::Outcomes;
use crate::quiet::quietly;
use crate::remarking::{no_remarks, remarks_on};
use crate::sampling::put_samples;
use crate::settling::{Settling, settling_in};
use crate::sights::sights_in;
use crate::states::states_in;
use crate::time_over::put_time_over;
use crate::visiting::{enter, turns_in, visit};
use crate::watch::{SoFar, Watch};
use asl_exec::{Probe, deadline_of};
use asl_history::Place;
use asl_run_branches::Earliest;
use asl_run_input::{Setup, StepAt};
use asl_run_state::World;
use asl_time::Moment;
use std::alloc::{AllocError, Global};

/// The moment behind which no branch of a world steps that is tried; none where each is. The error is that memory ran out.
pub(crate) fn bound_in(
    probe: &mut Probe,
    alloc: Global,
    orders: Orders,
    world: &World,
    turns: &[Earliest],
) -> Result<Option<Moment>, AllocError>
    ensures bound { IfOk result (IsBound orders (setup_of probe.old) (bare world.now)) }
    ensures least { turns.now ≡ earliest world.now.last world.now.branches
        → IfOk result (λ o. IfSome o (IsLeast (setup_of probe.old) (bare world.now))) }
    ensures setup { setup_of probe.new ≡ setup_of probe.old }
{
    match orders {
        Orders::Every => Ok(None),
        Orders::Prompt => {
            if !enter(probe, alloc, world)? {
                return Ok(None);
            }
            Ok(soonest(probe, turns))
        }
    }
}

/// Whether a step at this moment is later than one that may be taken.
pub(crate) fn is_beyond(bound: &Option<Moment>, moment: Moment) -> bool
    ensures { result ≡ is_beyond bound.now moment }
{
    match bound {
        Some(least) => least.millis() < moment.millis(),
        None => false,
    }
}

/// Whether it is known which steps are tried.
pub(crate) fn is_bounded(orders: Orders, bound: &Option<Moment>) -> bool
    ensures { result ≡ true → (orders ≡ Every) ⊎ (is_some bound.now ≡ true) }
{
    match orders {
        Orders::Every => true,
        Orders::Prompt => bound.is_some(),
    }
}

/// Takes a step of a branch in a world that was met, unless it is later than is tried: the world that it leads to is met then, if this is
/// true. The error is that memory ran out.
fn take(
    probe: &mut Probe,
    alloc: Global,
    orders: Orders,
    met: &mut Met,
    found: &mut Outcomes,
    number: usize,
    turn: &Earliest,
    bound: &Option<Moment>,
) -> Result<bool, AllocError>
    requires there { number < length met.old.nodes.items }
    requires runs { (d : World)
        → is_over (slice_index_or (worlds_of met.old.nodes.items) number d).outcome ≡ false }
    ensures met { IfOk result (λ b. b ≡ true → is_beyond bound.now turn.now.moment ≡ false → (d : World)
        → IsMet (worlds_of met.new.nodes.items) (outcomes_of found.new.list.items)
        (step (setup_of probe.old) (slice_index_or (worlds_of met.old.nodes.items) number d)
        turn.now.place turn.now.moment)) }
    ensures reached { (o : Orders) → IfOk result (λ b.
        All (IsReached o (setup_of probe.old)) (worlds_of met.old.nodes.items)
        → (is_beyond bound.now turn.now.moment ≡ false → (d : World)
        → refusal_in (setup_of probe.old)
        (slice_index_or (worlds_of met.old.nodes.items) number d) turn.now.place turn.now.moment ≡ None
        → IsReached o (setup_of probe.old) (bare (step (setup_of probe.old)
        (slice_index_or (worlds_of met.old.nodes.items) number d) turn.now.place turn.now.moment)))
        → All (IsReached o (setup_of probe.old)) (worlds_of met.new.nodes.items)) }
    ensures later { IsLater (worlds_of met.old.nodes.items) (outcomes_of found.old.list.items)
        (worlds_of met.new.nodes.items) (outcomes_of found.new.list.items) }
    ensures shown { All (Shows orders (setup_of probe.old)) found.old.list.items
        → All (Shows orders (setup_of probe.old)) found.new.list.items }
    ensures once { AreDistinct (outcomes_of found.old.list.items)
        → AreDistinct (outcomes_of found.new.list.items) }
    ensures setup { setup_of probe.new ≡ setup_of probe.old }
{
    if is_beyond(bound, turn.moment) {
        return Ok(true);
    }
    let at = StepAt {
        place: turn.place.try_clone()?,
        moment: turn.moment,
    };
    visit(probe, alloc, orders, met, found, number, at)
}

/// Takes a step of each branch in a world that was met, each at the earliest moment: whichever branch steps of those that are tried, the
/// world that it leads to is met then, if this is true. The error is that memory ran out.
fn expand(
    probe: &mut Probe,
    alloc: Global,
    orders: Orders,
    met: &mut Met,
    found: &mut Outcomes,
    number: usize,
) -> Result<bool, AllocError>
    requires { number < length met.old.nodes.items }
    ensures expanded { IfOk result (λ b. b ≡ true → HoldsAt
        (IsExpanded orders (setup_of probe.old) (worlds_of met.new.nodes.items)
        (outcomes_of found.new.list.items))
        (worlds_of met.new.nodes.items) number) }
    ensures reached { IfOk result (λ b.
        All (IsReached orders (setup_of probe.old)) (worlds_of met.old.nodes.items)
        → All (IsReached orders (setup_of probe.old)) (worlds_of met.new.nodes.items)) }
    ensures later { IsLater (worlds_of met.old.nodes.items) (outcomes_of found.old.list.items)
        (worlds_of met.new.nodes.items) (outcomes_of found.new.list.items) }
    ensures shown { All (Shows orders (setup_of probe.old)) found.old.list.items
        → All (Shows orders (setup_of probe.old)) found.new.list.items }
    ensures once { AreDistinct (outcomes_of found.old.list.items)
        → AreDistinct (outcomes_of found.new.list.items) }
    ensures setup { setup_of probe.new ≡ setup_of probe.old }
{
    let Some(turns) = turns_in(alloc, &met.nodes[number].world)? else {
        return Ok(false);
    };
    let bound = bound_in(probe, alloc, orders, &met.nodes[number].world, &turns)?;
    if !is_bounded(orders, &bound) {
        return Ok(false);
    }
    let mut whole = true;
    for index in 0..turns.len() {
        let turn = &turns[index];
        let is_met = take(probe, alloc, orders, met, found, number, turn, &bound)?;
        whole = whole && is_met;
    }
    Ok(whole)
}

/// Of a world that was met takes one quiet step alone, where no branch is to be late and there is one; else a step of each branch: enough of
/// them were taken, if this is true. The error is that memory ran out.
fn take_on(
    probe: &mut Probe,
    alloc: Global,
    orders: Orders,
    settling: &Settling,
    met: &mut Met,
    found: &mut Outcomes,
    number: usize,
) -> Result<bool, AllocError>
    requires there { number < length met.old.nodes.items }
    requires settled { AreSettledFrom (setup_of probe.old) settling.now.from.items }
    ensures taken { IfOk result (λ b. b ≡ true → (d : World)
        → IsTakenOn orders (setup_of probe.old) (worlds_of met.new.nodes.items)
        (outcomes_of found.new.list.items) number (get_or (worlds_of met.new.nodes.items) number d)) }
    ensures reached { IfOk result (λ b.
        All (IsReached orders (setup_of probe.old)) (worlds_of met.old.nodes.items)
        → All (IsReached orders (setup_of probe.old)) (worlds_of met.new.nodes.items)) }
    ensures later { IsLater (worlds_of met.old.nodes.items) (outcomes_of found.old.list.items)
        (worlds_of met.new.nodes.items) (outcomes_of found.new.list.items) }
    ensures shown { All (Shows orders (setup_of probe.old)) found.old.list.items
        → All (Shows orders (setup_of probe.old)) found.new.list.items }
    ensures once { AreDistinct (outcomes_of found.old.list.items)
        → AreDistinct (outcomes_of found.new.list.items) }
    ensures setup { setup_of probe.new ≡ setup_of probe.old }
{
    match orders {
        Orders::Every => expand(probe, alloc, orders, met, found, number),
        Orders::Prompt => {
            if quietly(probe, alloc, settling, met, number)? {
                return Ok(true);
            }
            expand(probe, alloc, orders, met, found, number)
        }
    }
}

/// The same, where a quiet step may be taken alone; else a step of each branch: each was taken, if this is true.
fn go_on(
    probe: &mut Probe,
    alloc: Global,
    orders: Orders,
    alone: bool,
    settling: &Settling,
    met: &mut Met,
    found: &mut Outcomes,
    number: usize,
) -> Result<bool, AllocError>
    requires there { number < length met.old.nodes.items }
    requires settled { AreSettledFrom (setup_of probe.old) settling.now.from.items }
    ensures taken { IfOk result (λ b. b ≡ true → (d : World)
        → IsTakenOn orders (setup_of probe.old) (worlds_of met.new.nodes.items)
        (outcomes_of found.new.list.items) number (get_or (worlds_of met.new.nodes.items) number d)) }
    ensures reached { IfOk result (λ b.
        All (IsReached orders (setup_of probe.old)) (worlds_of met.old.nodes.items)
        → All (IsReached orders (setup_of probe.old)) (worlds_of met.new.nodes.items)) }
    ensures expanded { alone ≡ false → IfOk result (λ b. b ≡ true → HoldsAt
        (IsExpanded orders (setup_of probe.old) (worlds_of met.new.nodes.items)
        (outcomes_of found.new.list.items))
        (worlds_of met.new.nodes.items) number) }
    ensures later { IsLater (worlds_of met.old.nodes.items) (outcomes_of found.old.list.items)
        (worlds_of met.new.nodes.items) (outcomes_of found.new.list.items) }
    ensures shown { All (Shows orders (setup_of probe.old)) found.old.list.items
        → All (Shows orders (setup_of probe.old)) found.new.list.items }
    ensures once { AreDistinct (outcomes_of found.old.list.items)
        → AreDistinct (outcomes_of found.new.list.items) }
    ensures setup { setup_of probe.new ≡ setup_of probe.old }
{
    if alone {
        return take_on(probe, alloc, orders, settling, met, found, number);
    }
    expand(probe, alloc, orders, met, found, number)
}

/// The worlds that a search begins with: that before the first step; none where it can't begin. The error is that memory ran out.
fn beginning(alloc: Global, probe: &Probe) -> Result<Option<Met>, AllocError>
    ensures { IfOk result (λ o. IfSome o
        (λ m. worlds_of m.nodes.items ≡ bare (opening (setup_of probe.now)) ∷ [])) }
{
    let Some(world) = probe.opening()?.bare_copy(alloc)? else {
        return Ok(None);
    };
    let at = StepAt {
        place: Place::root(),
        moment: world.last(),
    };
    let states = probe.setup().machine.len();
    let deadline = deadline_of(probe.setup());
    Ok(Some(Met::new(alloc, states, deadline, world, at)?))
}

/// What a search came to.
#[derive(Drop)]
pub(crate) struct Searched {
    /// The orders that were tried.
    pub(crate) tried: Orders,
    /// Whether quiet steps may have been taken alone.
    pub(crate) reduced: bool,
    pub(crate) met: Met,
    pub(crate) found: Outcomes,
    /// Whether each world that was met was tried.
    pub(crate) complete: bool,
    /// Whether each world that was tried was tried wholly.
    pub(crate) whole: bool,
    /// All orders of at most so many steps were tried; none where that isn't known.
    pub(crate) depth: Option<usize>,
}

/// Worlds by the number of steps that lead to them.
#[derive(Clone, Copy)]
pub(crate) struct Level {
    /// So many steps lead to a world of a number below the end.
    pub(crate) depth: usize,
    pub(crate) end: usize,
}

/// The level, where so many worlds were tried, of so many that were met: the next one, where all of this one were.
fn level_after(level: Level, tried: usize, met: usize) -> Level
    requires { level.depth < tried }
    ensures same { nat_eq tried level.end ≡ false → result ≡ level }
    ensures next { nat_eq tried level.end ≡ true
        → (result.depth ≡ level.depth + 1) × (result.end ≡ met) }
{
    if tried == level.end {
        return Level {
            depth: level.depth + 1,
            end: met,
        };
    }
    level
}

/// Whether quiet steps may be taken alone.
fn is_reduced(orders: Orders, alone: bool) -> bool
    ensures plain { alone ≡ false → result ≡ false }
    ensures other { result ≡ false → (alone ≡ false) ⊎ (orders ≡ Every) }
{
    match orders {
        Orders::Every => false,
        Orders::Prompt => alone,
    }
}

/// Tries the orders of the branches of an execution, from the beginning: its outcomes, each once. A quiet step may be taken alone, or a step
/// of each branch is taken in each world. At most so many worlds are tried. None where the search can't begin. The error is that memory
/// ran out.
pub(crate) fn search<W: Watch>(
    probe: &mut Probe,
    alloc: Global,
    orders: Orders,
    alone: bool,
    limit: u32,
    watch: &W,
) -> Result<Option<Searched>, AllocError>
    ensures search { IfOk result (λ o. IfSome o
        (IsSearch orders alone limit (setup_of probe.old))) }
    ensures closed { IfOk result (λ o. IfSome o (λ x. x.complete ≡ true
        → IsClosed orders (setup_of probe.old) (worlds_of x.met.nodes.items)
        (outcomes_of x.found.list.items))) }
    ensures reduced { IfOk result (λ o. IfSome o (λ x. x.reduced ≡ false
        → (alone ≡ false) ⊎ (orders ≡ Every))) }
    ensures setup { setup_of probe.new ≡ setup_of probe.old }
{
    let mut found = Outcomes::none(alloc);
    let Some(mut met) = beginning(alloc, probe)? else {
        return Ok(None);
    };
    let settling = settling_in(alloc, probe, alone)?;
    let limit = limit as usize;
    let mut number = 0;
    let mut whole = true;
    let mut level = Level { depth: 0, end: 1 };
    while number < met.nodes.len() && number < limit {
        let is_enough = go_on(
            probe, alloc, orders, alone, &settling, &mut met, &mut found, number,
        )?;
        whole = whole && is_enough;
        number += 1;
        level = level_after(level, number, met.nodes.len());
        watch.tried(SoFar {
            worlds: number,
            waiting: met.nodes.len().saturating_sub(number),
            outcomes: found.list.len(),
        });
    }
    let complete = is_complete(whole, number, met.nodes.len());
    Ok(Some(Searched {
        tried: orders,
        reduced: is_reduced(orders, alone),
        met,
        found,
        complete,
        whole,
        depth: depth_of(orders, whole, level.depth),
    }))
}

/// Whether no time limit ends an execution that is tried in every order.
fn is_unlimited(probe: &Probe, orders: Orders) -> bool
    ensures every { result ≡ true → orders ≡ Every }
    ensures limit { result ≡ true → deadline_of (setup_of probe.now) ≡ None }
{
    match orders {
        Orders::Every => probe.setup().machine.timeout().is_none(),
        Orders::Prompt => false,
    }
}

/// The same as `search`. Where no branch ever waits, every order is one in which none is late, of which fewer have to be tried. The error
/// is that memory ran out.
fn try_orders<W: Watch>(
    probe: &mut Probe,
    alloc: Global,
    orders: Orders,
    limit: u32,
    watch: &W,
) -> Result<Option<Searched>, AllocError>
    ensures search { IfOk result (λ o. IfSome o
        (IsSearch orders true limit (setup_of probe.old))) }
    ensures setup { setup_of probe.new ≡ setup_of probe.old }
{
    if !is_unlimited(probe, orders) {
        return search(probe, alloc, orders, true, limit, watch);
    }
    let Some(prompt) = search(probe, alloc, Orders::Prompt, true, limit, watch)? else {
        return Ok(None);
    };
    if prompt.complete && !any_waits(alloc, &prompt.met.nodes)? {
        return Ok(Some(prompt));
    }
    search(probe, alloc, orders, true, limit, watch)
}

/// The same. Where calls are to be counted, a step of each branch is taken in each world.
fn search_alone<W: Watch>(
    probe: &mut Probe,
    alloc: Global,
    orders: Orders,
    calls: bool,
    limit: u32,
    watch: &W,
) -> Result<Option<Searched>, AllocError>
    ensures search { IfOk result (λ o. IfSome o
        (IsSearch orders (not calls) limit (setup_of probe.old))) }
    ensures setup { setup_of probe.new ≡ setup_of probe.old }
{
    if calls {
        return search(probe, alloc, orders, false, limit, watch);
    }
    try_orders(probe, alloc, orders, limit, watch)
}

/// The same. What some whole orders end in stands behind the outcomes of a search that was cut and counts no calls.
fn search_for<W: Watch>(
    probe: &mut Probe,
    alloc: Global,
    orders: Orders,
    calls: bool,
    limit: u32,
    watch: &W,
) -> Result<Option<Searched>, AllocError>
    ensures search { IfOk result (λ o. IfSome o
        (IsSearch orders (not calls) limit (setup_of probe.old))) }
    ensures setup { setup_of probe.new ≡ setup_of probe.old }
{
    let Some(mut searched) = search_alone(probe, alloc, orders, calls, limit, watch)? else {
        return Ok(None);
    };
    if searched.complete || calls {
        return Ok(Some(searched));
    }
    put_samples(probe, alloc, orders, &mut searched.found, limit)?;
    Ok(Some(searched))
}

/// How often each state is invoked in the orders that end in each outcome of a search, if that is wanted. The error is that memory ran
/// out.
fn calls_in(
    probe: &mut Probe,
    alloc: Global,
    orders: Orders,
    searched: &Searched,
    wanted: bool,
) -> Result<Counted, AllocError>
    ensures counted { IfOk result (λ c. wanted ≡ true → c.whole ≡ true
        → AllAreExpanded orders (setup_of probe.old) (worlds_of searched.now.met.nodes.items)
        (outcomes_of searched.now.found.list.items)
        → AreCounted orders (setup_of probe.old) (outcomes_of searched.now.found.list.items)
        c.calls.items) }
    ensures met { IfOk result (λ c. wanted ≡ true
        → All (IsReached orders (setup_of probe.old)) (worlds_of searched.now.met.nodes.items)
        → AreMetSoFar orders (setup_of probe.old) (outcomes_of searched.now.found.list.items)
        c.calls.items) }
    ensures setup { setup_of probe.new ≡ setup_of probe.old }
{
    if !wanted {
        return Ok(Counted {
            calls: Vec::new(alloc),
            whole: true,
        });
    }
    let states = probe.setup().machine.len();
    count_calls(
        probe,
        alloc,
        orders,
        &searched.met.nodes,
        &searched.found.list,
        states,
    )
}

/// Tries the orders of the branches of an execution, each branch at the earliest moments at which it may step: its outcomes, each
/// once, with steps that end in it, and, if that is wanted, how often each state is invoked in the orders that do. Each judge is asked
/// of the ends of these orders: of each end, if that is wanted, too. At most so many worlds are tried; complete says that none was left. The error is that memory ran out.
pub fn explore_judged<W: Watch, J: Judge>(
    alloc: Global,
    setup: Setup,
    orders: Orders,
    calls: bool,
    limit: u32,
    watch: &W,
    judges: &[J],
) -> Result<Judged, AllocError>
    ensures found { IfOk result (λ x. IsFound orders calls limit setup x.explored) }
    ensures judged { IfOk result (λ x. AreJudged J.accepts (calls && x.explored.complete) orders setup judges.now x.refused.items) }
{
    let limited = deadline_of(&setup).is_some();
    let clock = clock_in(alloc, &setup.machine)?;
    let states = states_in(alloc, &setup.machine)?;
    let mut probe = Probe::open(alloc, setup)?;
    let Some(searched) = search_for(&mut probe, alloc, orders, calls, limit, watch)? else {
        let explored = Explored {
            found: Vec::new(alloc),
            late: Vec::new(alloc),
            marked: false,
            endless: None,
            reduced: true,
            orders,
            complete: false,
            stuck: true,
            seen: false,
            worlds: 0,
            depth: None,
            states,
            calls: Vec::new(alloc),
            remarks: no_remarks(alloc),
            limited,
            clock,
        };
        let refused = none_refused(alloc, judges)?;
        return Ok(Judged { explored, refused });
    };
    let counted = calls_in(&mut probe, alloc, orders, &searched, calls)?;
    let refusals = judge_all(&mut probe, alloc, orders, judges, &searched.met.nodes)?;
    let endless = endless_in(
        &mut probe,
        alloc,
        searched.tried,
        &searched.met,
        searched.complete,
    )?;
    let mut found = searched.found;
    let is_over = put_time_over(&mut probe, alloc, orders, &mut found)?;
    let sights = sights_in(&mut probe, alloc, orders, &searched.met.nodes)?;
    let judged = are_both(counted.whole, refusals.whole);
    let others = are_all(judged, endless.whole, is_over, sights.whole);
    let complete = are_both(searched.complete, others);
    let stuck = is_stuck(searched.whole, others);
    let worlds = searched.met.nodes.len();
    let remarks = remarks_on(
        alloc,
        &probe.setup().case,
        &states,
        &sights.sights,
        complete,
    )?;
    let late = late_among(&mut probe, alloc, &found.list, limit)?;
    let explored = Explored {
        found: found.list,
        late: late.numbers,
        marked: late.marked,
        endless: endless.endless,
        reduced: searched.reduced,
        orders,
        complete,
        stuck,
        seen: sights.whole,
        worlds,
        depth: searched.depth,
        states,
        calls: counted.calls,
        remarks,
        limited,
        clock,
    };
    Ok(Judged {
        explored,
        refused: refusals.list,
    })
}

/// The same without judges. The error is that memory ran out.
pub fn explore<W: Watch>(
    alloc: Global,
    setup: Setup,
    orders: Orders,
    calls: bool,
    limit: u32,
    watch: &W,
) -> Result<Explored, AllocError>
    ensures { IfOk result (IsFound orders calls limit setup) }
{
    let judges: &[Unjudged] = &[];
    let judged = explore_judged(alloc, setup, orders, calls, limit, watch, judges)?;
    Ok(judged.explored)
}

/// Whether both are so.
fn are_both(one: bool, other: bool) -> bool
    ensures yes { result ≡ true → (one ≡ true) × (other ≡ true) }
    ensures no { result ≡ false → other ≡ true → one ≡ false }
{
    one && other
}

/// Whether one of these isn't so.
fn is_stuck(one: bool, other: bool) -> bool
    ensures { result ≡ false → (one ≡ true) × (other ≡ true) }
{
    !(one && other)
}

/// Whether all four are so.
fn are_all(one: bool, other: bool, third: bool, fourth: bool) -> bool
    ensures { result ≡ true
        → (one ≡ true) × ((other ≡ true) × ((third ≡ true) × (fourth ≡ true))) }
{
    one && other && third && fourth
}

/// Whether nothing was left out: so many worlds were tried, each wholly, of so many that were met.
fn is_complete(whole: bool, tried: usize, met: usize) -> bool
    ensures yes { result ≡ true → (whole ≡ true) × (met ≤ tried) }
    ensures no { result ≡ false → whole ≡ true → tried < met }
{
    whole && tried >= met
}

/// So many steps, where every order is tried and each world that was tried was tried wholly.
fn depth_of(orders: Orders, whole: bool, depth: usize) -> Option<usize>
    ensures { IfSome result (λ d. (orders ≡ Every) × ((whole ≡ true) × (d ≡ depth))) }
{
    match orders {
        Orders::Every if whole => Some(depth),
        _ => None,
    }
}

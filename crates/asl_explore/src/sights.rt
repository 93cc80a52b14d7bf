// What was seen of each state in the worlds that a search met.
ghost use Rattle.std.specs.Prelude.{◌≡◌, ◌||◌, ◌<◌, max, ℕ, List, ◌∷◌, [], ◌++◌, true, length, slice_index_or, nat_eq, nat_le, Some, if◌then◌else◌, IfOk};
ghost use Rattle.std.specs.List.{count_by, list_any};
ghost use Rattle.asl_run_state.specs.Bare.{bare, earliest};
ghost use Rattle.asl_run_state.specs.World.{World, count_of};
ghost use Rattle.asl_exec.specs.Probes.{setup_of};
ghost use Rattle.asl_explore.specs.declared.orders.Orders.{Orders};
ghost use Rattle.asl_explore.specs.declared.sights.Sight.{Sight};
ghost use Rattle.asl_explore.specs.Remarks.{asked_in, count_behind};
ghost use Rattle.asl_explore.specs.Searches.{worlds_of};
ghost use Rattle.asl_explore.specs.private.Seeing.{AreLooks, AreSeen, look_asks, look_behind, look_enters, look_stops, least_with, noted, with_most};

use crate::met::Node;
use crate::order::due;
use crate::orders::Orders;
use crate::seeing::{Look, bound_of, looks_in};
use crate::visiting::{enter, turns_in};
use asl_exec::Probe;
use asl_history::Place;
use asl_run_branches::Earliest;
use asl_run_input::StepAt;
use asl_run_state::World;
use std::alloc::{AllocError, Global};

/// What was seen of a state.
#[derive(Clone, Copy)]
pub(crate) struct Sight {
    /// A branch entered it.
    pub(crate) is_entered: bool,
    /// A branch was stopped inside it.
    pub(crate) is_cut_off: bool,
    /// A Task was invoked at most so often.
    pub(crate) most: u32,
    /// The least number of an answer that two branches of one world were about to ask a Task for.
    pub(crate) shared_from: Option<u32>,
}

/// Nothing was seen of a state.
pub(crate) const NOTHING: Sight = Sight {
    is_entered: false,
    is_cut_off: false,
    most: 0,
    shared_from: None,
};

/// Whether a branch enters the state of a number.
fn enters(look: &Option<Look>, number: usize) -> bool
    ensures { result ≡ look_enters number look.now }
{
    match look {
        Some(look) => number == look.number && look.enters,
        None => false,
    }
}

/// Whether it asks for an answer to the state of a number.
fn asks(look: &Option<Look>, number: usize) -> bool
    ensures { result ≡ look_asks number look.now }
{
    match look {
        Some(look) => number == look.number && look.asks,
        None => false,
    }
}

/// Whether it is stopped inside the state of a number.
fn stops(look: &Option<Look>, number: usize) -> bool
    ensures { result ≡ look_stops number look.now }
{
    match look {
        Some(look) => number == look.number && look.stops,
        None => false,
    }
}

/// Whether a state was entered before, or a branch enters it.
fn is_entered(before: bool, looks: &[Option<Look>], number: usize) -> bool
    ensures { result ≡ (before || list_any (look_enters number) looks.now) }
{
    if before {
        return true;
    }
    for look in looks {
        if enters(look, number) {
            return true;
        }
    }
    false
}

/// Whether a branch was stopped inside a state before, or is.
fn is_cut_off(before: bool, looks: &[Option<Look>], number: usize) -> bool
    ensures { result ≡ (before || list_any (look_stops number) looks.now) }
{
    if before {
        return true;
    }
    for look in looks {
        if stops(look, number) {
            return true;
        }
    }
    false
}

/// Whether two branches ask for an answer to a state at once.
fn do_two_ask(looks: &[Option<Look>], number: usize) -> bool
    ensures { result ≡ nat_le 2 (count_by (look_asks number) looks.now) }
{
    let mut one = false;
    for look in looks {
        if asks(look, number) {
            if one {
                return true;
            }
            one = true;
        }
    }
    false
}

/// The lesser of two numbers, the first of which there may not be.
fn lesser(least: Option<u32>, number: u32) -> u32
    ensures { result ≡ least_with least number }
{
    match least {
        Some(least) if least < number => least,
        _ => number,
    }
}

/// The greater of two numbers.
fn greater(one: u32, other: u32) -> u32
    ensures { result ≡ max one other }
{
    if one < other {
        return other;
    }
    one
}

/// The least number of an answer that two branches were about to ask for: before, or this one, if two are now.
fn shared_from(before: Option<u32>, two: bool, number: u32) -> Option<u32>
    ensures { result ≡ (if two then Some (least_with before number) else before) }
{
    if two {
        return Some(lesser(before, number));
    }
    before
}

impl Sight {
    /// What was seen of the state of a number, with what the branches of one more world do next, in which it was invoked so often.
    fn with(self, number: usize, looks: &[Option<Look>], count: u32) -> Sight
        ensures { result ≡ noted number looks.now count self }
    {
        let is_entered = is_entered(self.is_entered, looks, number);
        let is_cut_off = is_cut_off(self.is_cut_off, looks, number);
        let two = do_two_ask(looks, number);
        Sight {
            is_entered,
            is_cut_off,
            most: self.most,
            shared_from: shared_from(self.shared_from, two, count),
        }
    }

    /// The same of a Task that was invoked so often.
    fn with_most(self, count: u32) -> Sight
        ensures { result ≡ with_most count self }
    {
        Sight {
            is_entered: self.is_entered,
            is_cut_off: self.is_cut_off,
            most: greater(self.most, count),
            shared_from: self.shared_from,
        }
    }
}

/// Notes what the branches of a world do next.
fn note(sights: &mut Vec<Sight>, world: &World, looks: &[Option<Look>])
    ensures each { (n : ℕ) (d : Sight) → n < length sights.old.items
        → slice_index_or sights.new.items n d
        ≡ noted n looks.now (count_of world.now.counts (Some n))
        (slice_index_or sights.old.items n d) }
    ensures many { length sights.new.items ≡ length sights.old.items }
{
    for number in 0..sights.len() {
        let sight = sights[number].with(number, looks, world.count(Some(number)));
        sights[number] = sight;
    }
}

/// Takes the step of a branch in a world, where it may invoke the Task of this number more often than was seen: how often is noted then,
/// if this is true. The error is that memory ran out.
fn ask(
    sights: &mut Vec<Sight>,
    probe: &mut Probe,
    alloc: Global,
    world: &World,
    number: usize,
    place: &Place,
) -> Result<bool, AllocError>
    ensures each { IfOk result (λ b. b ≡ true → (n : ℕ) (d : Sight) → n < length sights.old.items
        → slice_index_or sights.new.items n d
        ≡ with_most (if nat_eq n number
        then count_behind (setup_of probe.old) (bare world.now) number place.now
        else 0) (slice_index_or sights.old.items n d)) }
    ensures many { length sights.new.items ≡ length sights.old.items }
    ensures setup { setup_of probe.new ≡ setup_of probe.old }
{
    if number >= sights.len() {
        return Ok(true);
    }
    if world.count(Some(number)) < sights[number].most {
        return Ok(true);
    }
    if !enter(probe, alloc, world)? {
        return Ok(false);
    }
    let at = StepAt {
        place: place.try_clone()?,
        moment: due(probe, place),
    };
    let _reply = probe.reply(&at)?;
    let count = probe.world().count(Some(number));
    let sight = sights[number].with_most(count);
    sights[number] = sight;
    Ok(true)
}

/// The same, where the branch asks for an answer.
fn ask_for(
    sights: &mut Vec<Sight>,
    probe: &mut Probe,
    alloc: Global,
    world: &World,
    look: &Option<Look>,
    place: &Place,
) -> Result<bool, AllocError>
    ensures each { IfOk result (λ b. b ≡ true → (n : ℕ) (d : Sight) → n < length sights.old.items
        → slice_index_or sights.new.items n d
        ≡ with_most (look_behind (setup_of probe.old) (bare world.now) place.now n look.now)
        (slice_index_or sights.old.items n d)) }
    ensures many { length sights.new.items ≡ length sights.old.items }
    ensures setup { setup_of probe.new ≡ setup_of probe.old }
{
    let Some(look) = look else {
        return Ok(true);
    };
    if !look.asks {
        return Ok(true);
    }
    let is_noted = ask(sights, probe, alloc, world, look.number, place)?;
    Ok(is_noted)
}

/// Takes the steps of a world behind which a Task may have been invoked more often than was seen: how often is noted then, if this is
/// true. The error is that memory ran out.
fn ask_all(
    sights: &mut Vec<Sight>,
    probe: &mut Probe,
    alloc: Global,
    world: &World,
    turns: &[Earliest],
    looks: &[Option<Look>],
) -> Result<bool, AllocError>
    requires { length looks.now ≡ length turns.now }
    ensures each { (o : Orders) → turns.now ≡ earliest world.now.last world.now.branches
        → AreLooks o (setup_of probe.old) (bare world.now) looks.now
        → IfOk result (λ b. b ≡ true → (n : ℕ) (d : Sight) → n < length sights.old.items
        → slice_index_or sights.new.items n d
        ≡ with_most (asked_in o (setup_of probe.old) n (bare world.now))
        (slice_index_or sights.old.items n d)) }
    ensures many { length sights.new.items ≡ length sights.old.items }
    ensures setup { setup_of probe.new ≡ setup_of probe.old }
{
    for index in 0..turns.len() {
        let place = &turns[index].place;
        if !ask_for(sights, probe, alloc, world, &looks[index], place)? {
            return Ok(false);
        }
    }
    Ok(true)
}

/// Looks at the branches of a world that was met: what is seen is noted, if this is true. The error is that memory ran out.
fn see(
    sights: &mut Vec<Sight>,
    probe: &mut Probe,
    alloc: Global,
    orders: Orders,
    world: &World,
) -> Result<bool, AllocError>
    ensures seen { (ws : List World) → IfOk result (λ b. b ≡ true
        → AreSeen orders (setup_of probe.old) ws sights.old.items
        → AreSeen orders (setup_of probe.old) (ws ++ bare world.now ∷ []) sights.new.items) }
    ensures setup { setup_of probe.new ≡ setup_of probe.old }
{
    let Some(turns) = turns_in(alloc, world)? else {
        return Ok(false);
    };
    if !enter(probe, alloc, world)? {
        return Ok(false);
    }
    let bound = bound_of(probe, orders, &turns);
    let looks = looks_in(probe, alloc, &bound, &turns)?;
    note(sights, world, &looks);
    let is_noted = ask_all(sights, probe, alloc, world, &turns, &looks)?;
    Ok(is_noted)
}

/// What was seen of each state, by its number.
#[derive(Drop)]
pub(crate) struct Sights {
    pub(crate) sights: Vec<Sight>,
    /// Whether each world that was met was looked at.
    pub(crate) whole: bool,
}

/// What is seen of each state in the worlds that were met. The error is that memory ran out.
pub(crate) fn sights_in(
    probe: &mut Probe,
    alloc: Global,
    orders: Orders,
    nodes: &[Node],
) -> Result<Sights, AllocError>
    ensures seen { IfOk result (λ x. x.whole ≡ true
        → AreSeen orders (setup_of probe.old) (worlds_of nodes.now) x.sights.items) }
    ensures setup { setup_of probe.new ≡ setup_of probe.old }
{
    let mut sights = vec![in alloc; NOTHING; probe.setup().machine.len()]?;
    let mut whole = true;
    for node in nodes {
        let is_seen = see(&mut sights, probe, alloc, orders, &node.world)?;
        whole = whole && is_seen;
    }
    Ok(Sights { sights, whole })
}

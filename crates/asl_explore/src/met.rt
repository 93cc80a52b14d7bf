// The worlds that a search met.
ghost use Rattle.std.specs.Prelude.{◌≡◌, ◌<◌, ◌∷◌, List, ℕ, [], true, false, length, slice_index, slice_index_or, IfOk, IfSome};
ghost use Rattle.std.specs.List.{All};
ghost use Rattle.asl_run_state.specs.Bare.{bare};
ghost use Rattle.asl_run_input.specs.declared.setup.Setup.{Setup};
ghost use Rattle.asl_branch_numbers.specs.Numbers.{branches_in, AreNumbers, IsBehind};
ghost use Rattle.asl_explore.specs.declared.orders.Orders.{Orders};
ghost use Rattle.asl_run_state.specs.World.{World, is_over};
ghost use Rattle.asl_run_state.specs.declared.outcome.Outcome.{Outcome};
ghost use Rattle.asl_explore.specs.Searches.{worlds_of, IsLater, IsReached, StandsAt};
ghost use Rattle.asl_explore.specs.private.Numbered.{numbered-prop, AreNumbered};

use asl_branch_numbers::{Branches, Digest, Table};
use asl_history::Place;
use asl_run_input::StepAt;
use asl_run_state::World;
use asl_time::Moment;
use std::alloc::{AllocError, Global};

/// A world that was met, without its history.
#[derive(Drop)]
pub(crate) struct Node {
    pub world: World,
    /// The number of the world in which the step was taken that led to it.
    pub parent: usize,
    pub at: StepAt,
    /// The numbers of its branches, by which it is compared; none where they aren't known.
    pub numbers: Vec<usize>,
    /// By which it is looked up.
    pub digest: u64,
    /// The number, from 1, of the last world before it in the same part of the table; 0 where there is none.
    pub before: usize,
}

/// The worlds that were met, in the order in which they were, and a table to look them up.
#[derive(Drop)]
pub(crate) struct Met {
    pub nodes: Vec<Node>,
    /// All that branches of these worlds are doing.
    branches: Branches,
    table: Table,
    /// So many states the machine has.
    states: usize,
    /// When the time of the execution is over.
    deadline: Option<Moment>,
    ghost numbered: { AreNumbered (branches_in branches) states deadline nodes.items } by { numbered-prop (branches_in branches) states deadline nodes.items },
}

/// The digest of a world whose branches have these numbers, of a machine with so many states.
fn digest_of(numbers: &[usize], world: &World, states: usize) -> u64 {
    let mut digest = Digest::empty().word(world.last().millis());
    for number in numbers {
        digest = digest.word(*number as u64);
    }
    for number in 0..states {
        digest = digest.word(u64::from(world.count(Some(number))));
    }
    digest.bits()
}

/// Whether each of so many states was invoked as often in one world as in the other, if this is true.
fn are_counted_alike(one: &World, other: &World, states: usize) -> bool
    ensures { result ≡ true → (k : ℕ) → k < states
        → slice_index one.now.counts k ≡ slice_index other.now.counts k }
{
    for number in 0..states {
        let here = one.count(Some(number));
        let there = other.count(Some(number));
        if here != there {
            return false;
        }
    }
    true
}

/// Whether two lists of numbers are the same, if this is true.
fn are_same(a: &[usize], b: &[usize]) -> bool
    ensures { result ≡ true → a.now ≡ b.now }
{
    a == b
}

/// Whether two worlds are the same in what isn't told by the numbers of their branches, and run, if this is true.
fn are_alike_beside(one: &World, other: &World, states: usize) -> bool
    ensures last { result ≡ true → one.now.last ≡ other.now.last }
    ensures runs { result ≡ true → is_over one.now.outcome ≡ false }
    ensures also { result ≡ true → is_over other.now.outcome ≡ false }
    ensures counts { result ≡ true → (k : ℕ) → k < states
        → slice_index one.now.counts k ≡ slice_index other.now.counts k }
{
    if !one.is_running() {
        return false;
    }
    if !other.is_running() {
        return false;
    }
    if one.last().millis() != other.last().millis() {
        return false;
    }
    are_counted_alike(one, other, states)
}

/// Whether a world that was met has branches of these numbers, and is like this one in all else that numbers tell of, if this is true.
fn is_like(node: &Node, numbers: &[usize], world: &World, states: usize) -> bool
    ensures some { result ≡ true → 0 < length numbers.now }
    ensures numbers { result ≡ true → node.now.numbers.items ≡ numbers.now }
    ensures last { result ≡ true → node.now.world.last ≡ world.now.last }
    ensures runs { result ≡ true → is_over node.now.world.outcome ≡ false }
    ensures also { result ≡ true → is_over world.now.outcome ≡ false }
    ensures counts { result ≡ true → (k : ℕ) → k < states
        → slice_index node.now.world.counts k ≡ slice_index world.now.counts k }
{
    if numbers.is_empty() {
        return false;
    }
    if !are_same(&node.numbers, numbers) {
        return false;
    }
    are_alike_beside(&node.world, world, states)
}

impl Met {
    /// One world is met: that before the first step, of a machine with so many states, the time of whose execution is over at a moment.
    /// The error is that memory ran out.
    pub(crate) fn new(
        alloc: Global,
        states: usize,
        deadline: Option<Moment>,
        world: World,
        at: StepAt,
    ) -> Result<Met, AllocError>
        requires counts { length world.counts ≡ states }
        requires deadline { world.deadline ≡ deadline }
        ensures { IfOk result (λ m. worlds_of m.nodes.items ≡ bare world ∷ []) }
    {
        let mut branches = Branches::none(alloc)?;
        let root = Place::root();
        branches.learn(alloc, &root, &world)?;
        let numbers = numbers_first(&branches, alloc, &world)?;
        let digest = digest_of(&numbers, &world, states);
        let mut table = Table::new(alloc)?;
        table.put(digest, 1);
        let node = Node {
            world,
            parent: 0,
            at,
            numbers,
            digest,
            before: 0,
        };
        let nodes = Vec::from_array(alloc, [node])?;
        Ok(Met {
            nodes,
            branches,
            table,
            states,
            deadline,
        })
    }

    /// The numbers of the branches of a world that a step leads to; none where they aren't known. The error is that memory ran out.
    fn numbers_of(
        &self,
        alloc: Global,
        parent: usize,
        stepped: &Place,
        world: &World,
    ) -> Result<Vec<usize>, AllocError>
        requires { parent < length self.now.nodes.items }
        ensures numbers { IfOk result (λ v. ((d : World) → IsBehind stepped.now
            (slice_index_or (worlds_of self.now.nodes.items) parent d) world.now)
            → 0 < length v.items
            → AreNumbers (branches_in self.now.branches) v.items world.now.branches) }
        ensures counts { ((d : World) → IsBehind stepped.now
            (slice_index_or (worlds_of self.now.nodes.items) parent d) world.now)
            → length world.now.counts ≡ self.now.states }
        ensures deadline { ((d : World) → IsBehind stepped.now
            (slice_index_or (worlds_of self.now.nodes.items) parent d) world.now)
            → world.now.deadline ≡ self.now.deadline }
    {
        let node = &self.nodes[parent];
        let known = self
            .branches
            .numbers_behind(alloc, &node.numbers, &node.world, stepped, world)?;
        match known {
            Some(numbers) => Ok(numbers),
            None => Ok(Vec::new(alloc)),
        }
    }

    /// The number of a world that was met, if it is found by these numbers of its branches.
    fn find(&self, numbers: &[usize], world: &World, digest: u64) -> Option<usize>
        ensures { IfSome result (λ i. (0 < length numbers.now
            → AreNumbers (branches_in self.now.branches) numbers.now world.now.branches)
            → length world.now.counts ≡ self.now.states
            → world.now.deadline ≡ self.now.deadline
            → StandsAt (worlds_of self.now.nodes.items) i (bare world.now)) }
    {
        let mut number = self.table.last_in(digest);
        for _ in 0..self.nodes.len() {
            if number == 0 || number > self.nodes.len() {
                return None;
            }
            let index = number - 1;
            let node = &self.nodes[index];
            if node.digest == digest && is_like(node, numbers, world, self.states) {
                return Some(index);
            }
            number = node.before;
        }
        None
    }

    /// The number of a world that a step leads to, if it was met and is found. The error is that memory ran out.
    pub(crate) fn number_of(
        &self,
        alloc: Global,
        parent: usize,
        stepped: &Place,
        world: &World,
    ) -> Result<Option<usize>, AllocError>
        requires { parent < length self.now.nodes.items }
        ensures { IfOk result (λ o. IfSome o (λ i. ((d : World) → IsBehind stepped.now
            (slice_index_or (worlds_of self.now.nodes.items) parent d) world.now)
            → StandsAt (worlds_of self.now.nodes.items) i (bare world.now))) }
    {
        let numbers = self.numbers_of(alloc, parent, stepped, world)?;
        let digest = digest_of(&numbers, world, self.states);
        Ok(self.find(&numbers, world, digest))
    }

    /// A world that runs, to which a step leads, is among those that were met, put there if it wasn't: its number. The error is that
    /// memory ran out.
    pub(crate) fn put(
        &mut self,
        alloc: Global,
        next: World,
        parent: usize,
        at: StepAt,
    ) -> Result<usize, AllocError>
        requires there { parent < length self.old.nodes.items }
        requires behind { (d : World) → IsBehind at.place
            (slice_index_or (worlds_of self.old.nodes.items) parent d) next }
        ensures at { IfOk result
            (λ i. StandsAt (worlds_of self.new.nodes.items) i (bare next)) }
        ensures later { (os : List Outcome)
            → IsLater (worlds_of self.old.nodes.items) os (worlds_of self.new.nodes.items) os }
        ensures reached { (o : Orders) (s : Setup) → IfOk result (λ i.
            All (IsReached o s) (worlds_of self.old.nodes.items) → IsReached o s (bare next)
            → All (IsReached o s) (worlds_of self.new.nodes.items)) }
    {
        self.branches.learn(alloc, &at.place, &next)?;
        let numbers = self.numbers_of(alloc, parent, &at.place, &next)?;
        let digest = digest_of(&numbers, &next, self.states);
        if let Some(index) = self.find(&numbers, &next, digest) {
            return Ok(index);
        }
        let index = self.nodes.len();
        let before = self.table.last_in(digest);
        self.nodes.push(Node {
            world: next,
            parent,
            at,
            numbers,
            digest,
            before,
        })?;
        self.table.put(digest, self.nodes.len());
        Ok(index)
    }
}

/// The numbers of the branches of a world, by what each of them is doing; none where they aren't known. The error is that memory ran out.
fn numbers_first(
    branches: &Branches,
    alloc: Global,
    world: &World,
) -> Result<Vec<usize>, AllocError>
    ensures { IfOk result (λ v. 0 < length v.items
        → AreNumbers (branches_in branches.now) v.items world.now.branches) }
{
    match branches.numbers_behind(alloc, &[], world, &Place::root(), world)? {
        Some(numbers) => Ok(numbers),
        None => Ok(Vec::new(alloc)),
    }
}

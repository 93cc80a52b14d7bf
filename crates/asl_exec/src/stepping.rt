// How an execution goes on, and what is seen of it.
ghost use Rattle.std.specs.Prelude.{◌≡◌, ◌⊎◌, [], List, Some, None, option_map, IfOk, IfErr, OnOk, OnErr};
ghost use Rattle.std.specs.Option.{option_copied};
ghost use Rattle.asl_def.specs.Machines.{states_of};
ghost use Rattle.asl_def_states.specs.Show.{state_of as state_shown};
ghost use Rattle.asl_def_schema.specs.Canon.{Named};
ghost use Rattle.asl_step.specs.Bounds.{AreFew};
ghost use Rattle.asl_step.specs.Seen.{seen};
ghost use Rattle.asl_run_branches.specs.Branches.{record_at, children_at};
ghost use Rattle.asl_run_branches.specs.Trees.{branches_of, nodes_of, ArePlaced};
ghost use Rattle.asl_exec.specs.Steps.{opening, facts_of, refusal_in, limits_in, deadline_of, step, invokes_by, effect_by, effect_in, number_in, object_in, seen_at};
ghost use Rattle.asl_kinds.specs.Forks.{start_in};
ghost use Rattle.asl_exec.specs.Views.{setup_of, world_of};

use crate::execution::Execution;
use asl_def::Machine;
use asl_def_states::State;
use asl_history::{History, Place};
use asl_json_shared::Name;
use asl_kinds::StateKind;
use asl_mock::Case;
use asl_run_branches::Frame;
use asl_run_input::Setup;
use asl_run_state::{Outcome, Refusal, World};
use asl_step::{Context, Effect, Facts, Record, Visit, idle};
use asl_time::{Moment, add};
use std::alloc::{AllocError, Global};

/// The name of the state that a machine starts at.
fn start_of(alloc: Global, machine: &Machine) -> Result<Name, AllocError>
    ensures { IfOk result (λ n. n ≡ start_in machine.now) }
{
    Name::new(alloc, machine.start())
}

/// What stays the same as an execution goes on. The error is that memory ran out.
pub fn facts_of(alloc: Global, setup: &Setup) -> Result<Facts, AllocError>
    ensures { IfOk result (λ f. f ≡ facts_of setup.now) }
{
    Ok(Facts {
        machine: Name::new(alloc, setup.name_of_machine.as_str())?,
        name: Name::new(alloc, setup.name.as_str())?,
        input: setup.input.try_clone()?,
        start: setup.start,
    })
}

/// The moment at which the time of an execution is over, where its machine has a time limit.
pub fn deadline_of(setup: &Setup) -> Option<Moment>
    ensures { result ≡ deadline_of setup.now }
{
    match setup.machine.timeout() {
        Some(seconds) => Some(add(setup.start, u64::from(seconds) * 1000)),
        None => None,
    }
}

/// The world before the first step of what begins so. The error is that memory ran out.
pub(crate) fn opening_world(alloc: Global, setup: &Setup) -> Result<World, AllocError>
    ensures { IfOk result (λ w. w ≡ opening setup.now) }
{
    let start = start_of(alloc, &setup.machine)?;
    let deadline = deadline_of(setup);
    let states = setup.machine.len();
    World::open(alloc, states, start, &setup.input, setup.start, deadline)
}

impl Execution {
    /// The world before the first step: the branch at the root is about to enter the state that the machine starts at.
    pub fn open(alloc: Global, setup: Setup) -> Result<Execution, AllocError>
        ensures setup { IfOk result (λ x. setup_of x ≡ setup) }
        ensures world { IfOk result (λ x. world_of x ≡ opening setup) }
    {
        let world = opening_world(alloc, &setup)?;
        let context = Context::new(alloc, facts_of(alloc, &setup)?)?;
        Ok(Execution {
            setup,
            world,
            context,
            alloc,
        })
    }

    /// What it began with.
    pub fn setup(&self) -> &Setup
        ensures { result.now ≡ setup_of self.now }
    {
        &self.setup
    }

    /// What the branch at a place is doing; none where no branch runs there.
    pub fn view(&self, place: &Place) -> Option<&Record>
        ensures { option_copied result ≡ record_at place.now (world_of self.now).branches }
    {
        let frame = self.world.frame_at(place)?;
        Some(frame.held())
    }

    /// The frame of the branch that it began with: the running branches are its tree, and each lends its place.
    pub fn root(&self) -> &Frame
        ensures branches { branches_of result.now ≡ (world_of self.now).branches }
        ensures placed { ArePlaced (nodes_of result.now) }
    {
        self.world.root()
    }

    /// How far it is.
    pub fn outcome(&self) -> &Outcome
        ensures { result.now ≡ (world_of self.now).outcome }
    {
        self.world.outcome()
    }

    /// What was told so far.
    pub fn history(&self) -> &History
        ensures { result.now.events ≡ (world_of self.now).events }
    {
        self.world.history()
    }

    /// Why a step would be refused; none where only want of memory can refuse it.
    pub fn refusal(&self, place: &Place, moment: Moment) -> Option<Refusal>
        ensures { result ≡ refusal_in (setup_of self.now) (world_of self.now) place.now moment }
    {
        let slots = match self.world.forker_at(place) {
            Some(map) => limit_in(&self.setup.machine, map),
            None => 0,
        };
        self.world.refusal(place, moment, slots)
    }

    /// One step of the branch at a place. Its moment is the greater of the one given and that of the last step. A refused
    /// step changes nothing.
    pub fn step(&mut self, place: &Place, moment: Moment) -> Result<(), Refusal>
        ensures ok { OnOk result (world_of self.new
            ≡ step (setup_of self.old) (world_of self.old) place.now moment) }
        ensures accepted { OnOk result (refusal_in (setup_of self.old) (world_of self.old) place.now
            moment ≡ None) }
        ensures err { OnErr result (world_of self.new ≡ world_of self.old) }
        ensures why { IfErr result (λ e.
            (refusal_in (setup_of self.old) (world_of self.old) place.now moment ≡ Some e)
            ⊎ ((refusal_in (setup_of self.old) (world_of self.old) place.now moment ≡ None)
            × (e ≡ Refusal.OutOfMemory))) }
        ensures setup { setup_of self.new ≡ setup_of self.old }
    {
        if let Some(refusal) = self.refusal(place, moment) {
            return Err(refusal);
        }
        match self.take(place, moment) {
            Ok(()) => Ok(()),
            Err(AllocError) => Err(Refusal::OutOfMemory),
        }
    }

    /// A step that isn't refused. The error is that memory ran out, and nothing changed.
    fn take(&mut self, place: &Place, moment: Moment) -> Result<(), AllocError>
        requires { refusal_in (setup_of self.old) (world_of self.old) place.now moment ≡ None }
        ensures ok { OnOk result (world_of self.new
            ≡ step (setup_of self.old) (world_of self.old) place.now moment) }
        ensures err { OnErr result (world_of self.new ≡ world_of self.old) }
        ensures setup { setup_of self.new ≡ setup_of self.old }
    {
        let now = self.world.present(moment);
        if self.world.is_late(moment) {
            return self.world.time_out(self.alloc, now);
        }
        let Some(frame) = self.world.frame_at(place) else {
            unreachable!();
        };
        let (number, effect) = planned(
            self.alloc,
            &self.setup.machine,
            &self.setup.case,
            &self.world,
            &mut self.context,
            place,
            frame,
            now,
        )?;
        self.world.apply(self.alloc, place, number, now, effect)
    }

    /// Its world.
    pub fn world(&self) -> &World
        ensures { result.now ≡ world_of self.now }
    {
        &self.world
    }

    /// The allocator that it was opened with.
    pub(crate) fn alloc(&self) -> Global {
        self.alloc
    }
}

/// The number of the state that the branch at a place is in, and what a step of it does.
pub(crate) fn planned(
    alloc: Global,
    machine: &Machine,
    case: &Case,
    world: &World,
    context: &mut Context,
    place: &Place,
    frame: &Frame,
    now: Moment,
) -> Result<(Option<usize>, Effect), AllocError>
    requires { children_at [] (branches_of frame.now) ≡ children_at place.now world.now.branches }
    ensures number { IfOk result (λ r. r.0 ≡ number_in machine.now frame.now.head.current) }
    ensures effect { IfOk result (λ r. r.1
        ≡ effect_in machine.now context.old.facts
        (seen_at machine.now case.now world.now place.now now frame.now.head.current)) }
    ensures fits { IfOk result (λ r. AreFew r.1.children) }
    ensures facts { context.new.facts ≡ context.old.facts }
{
    let current = frame.held();
    let (number, state) = state_of(machine, current);
    let children = frame.child_records(alloc)?;
    let visit = Visit {
        place,
        current,
        children: &children,
        forker: world.forker_at(place),
        iteration: world.iteration_at(place),
        invokes: invokes_in(state),
        count: world.count(number),
        case,
        moment: now,
    };
    let effect = effect_of(alloc, state, &visit, context)?;
    Ok((number, effect))
}

/// Whether a state invokes a service, where there is one.
pub fn invokes_in(state: Option<&State>) -> bool
    ensures { (t : List Named)
        → result ≡ invokes_by (option_map (λ s. state_shown t s.now) state.entry) }
{
    match state {
        Some(state) => state.invokes(),
        None => false,
    }
}

/// What a step does of a branch that is in this state; nothing, where there is none.
fn effect_of(
    alloc: Global,
    state: Option<&State>,
    visit: &Visit,
    context: &mut Context,
) -> Result<Effect, AllocError>
    ensures effect { (t : List Named)
        → IfOk result
        (λ e. e ≡ effect_by (option_map (λ s. state_shown t s.now) state.entry) context.old.facts
        (seen visit.now)) }
    ensures fits { IfOk result (λ e. AreFew e.children) }
    ensures facts { context.new.facts ≡ context.old.facts }
{
    match state {
        Some(state) => state.visit(alloc, visit, context),
        None => idle(alloc, visit.current),
    }
}

/// The state that a branch is in, and its number; neither where the branch has ended.
pub fn state_of<'a>(machine: &'a Machine, current: &Record) -> (Option<usize>, Option<&'a State>)
    ensures number { result.0 ≡ number_in machine.now current.now }
    ensures object { option_map (λ s. state_shown (states_of machine.now) s.now) result.1
        ≡ object_in machine.now current.now }
{
    let Some(name) = current.state() else {
        return (None, None);
    };
    match machine.find(name.as_str()) {
        Some((number, state)) => (Some(number), Some(state)),
        None => (None, None),
    }
}

/// How many iterations the Map of a name runs at once; 0 where there is no limit, or no Map.
pub(crate) fn limit_in(machine: &Machine, map: &Name) -> u32
    ensures { result ≡ limits_in machine.now map.now }
{
    match machine.find(map.as_str()) {
        Some((_, state)) => state.slots(),
        None => 0,
    }
}

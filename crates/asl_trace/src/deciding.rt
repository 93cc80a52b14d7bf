// What decides in a step.
ghost use Rattle.std.specs.Prelude.{◌≡◌, List, [], IfOk, Some, None, codes, option_map};
ghost use Rattle.std.specs.Option.{option_copied};
ghost use Rattle.std.specs.Result.{result_ok};
ghost use Rattle.asl_json.specs.Meaning.{value_in};
ghost use Rattle.asl_json.specs.View.{data_of};
ghost use Rattle.asl_choice.specs.Truth.{holds};
ghost use Rattle.asl_def_states.specs.Show.{choice_object, choice_rule_object, choice_rule_objects, state_of as state_shown};
ghost use Rattle.asl_def_schema.specs.Canon.{Named};
ghost use Rattle.asl_handle.specs.Seen.{retry_of, catch_of};
ghost use Rattle.asl_step.specs.Context.{context_of};
ghost use Rattle.asl_step.specs.Records.{entering_with};
ghost use Rattle.asl_step.specs.Seen.{seen};
ghost use Rattle.asl_run_branches.specs.Branches.{children_at};
ghost use Rattle.asl_run_branches.specs.Trees.{branches_of};
ghost use Rattle.asl_exec.specs.Steps.{object_in, seen_at};
ghost use Rattle.asl_exec.specs.Views.{setup_of, world_of};
ghost use Rattle.asl_step_io.specs.Gives.{Gives};
ghost use Rattle.asl_step_io.specs.Paths.{Given};
ghost use Rattle.asl_trace.specs.private.Known.{said};
ghost use Rattle.asl_trace.specs.Deciding.{first_rule, rule_with, raised_by, handler_of, by_error, deciding_of, deciding_with, deciding_in, deciding_at, is_wanted, wanted_of, wanted_in, wanted_at};

use crate::catching::catcher_number;
use crate::sides::{handles, policy_of};
use asl_def::Machine;
use asl_def_states::{Choice, ChoiceRule, State};
use asl_exec::{Execution, invokes_in, state_of};
use asl_handle::{Decision, Policy};
use asl_history::Place;
use asl_json::Json;
use asl_json_shared::Shared;
use asl_mock::Case;
use asl_run_branches::Frame;
use asl_run_input::StepAt;
use asl_run_state::World;
use asl_step::{Context, ErrorOut, Visit};
use asl_step_io::{Fault, taken};
use asl_time::Moment;
use asl_trace_data::{Stage, raised_in, stages_of};
use std::alloc::{AllocError, Global};

/// What decides in a step what becomes of the branch. Numbers count from 0.
#[derive(Clone, Copy)]
pub enum Deciding {
    /// Nothing of the definition.
    Nothing,
    /// `Next`, if the step leaves the state.
    Next,
    /// The rule of this number.
    Rule(usize),
    /// `Default`: no rule holds.
    Default,
    /// The retrier of this number.
    Retrier(usize),
    /// The catcher of this number.
    Catcher(usize),
}

/// Of which states the stages of their data are wanted.
#[derive(Clone, Copy, PartialEq, Eq)]
pub enum Staged {
    /// Of those that may have retriers and catchers: what decides there is asked of the error that they raise.
    Handling,
    /// Of all.
    All,
}

/// What decides in a step, and the stages of the state's data in it, where they are wanted.
#[derive(Drop)]
pub struct Decided {
    pub deciding: Deciding,
    pub stages: Vec<Stage>,
}

/// That nothing decides.
fn undecided(alloc: Global) -> Decided
    ensures deciding { result.deciding ≡ Deciding.Nothing }
    ensures stages { result.stages.items ≡ [] }
{
    Decided {
        deciding: Deciding::Nothing,
        stages: Vec::new(alloc),
    }
}

/// What decides in a step of the branch that is at the place. The context is the execution's; it is written over. The error is that
/// memory ran out.
pub fn decided_at(
    alloc: Global,
    execution: &Execution,
    staged: Staged,
    context: &mut Context,
    at: &StepAt,
) -> Result<Decided, AllocError>
    ensures deciding { IfOk result (λ d. d.deciding ≡ deciding_at context.old.facts
        (setup_of execution.now) (world_of execution.now) at.now.place at.now.moment) }
    ensures stages { IfOk result (λ d. d.stages.items ≡ wanted_at staged context.old.facts
        (setup_of execution.now) (world_of execution.now) at.now.place at.now.moment) }
    ensures facts { context.new.facts ≡ context.old.facts }
{
    let world = execution.world();
    if world.is_late(at.moment) {
        return Ok(undecided(alloc));
    }
    let Some(frame) = world.frame_at(&at.place) else {
        return Ok(undecided(alloc));
    };
    let now = world.present(at.moment);
    let (machine, case) = (&execution.setup().machine, &execution.setup().case);
    decided_in(
        alloc, machine, case, world, staged, context, &at.place, frame, now,
    )
}

/// The same, at the present moment, of the branch of this frame, in the machine and the case of an execution that is in this world.
pub(crate) fn decided_in(
    alloc: Global,
    machine: &Machine,
    case: &Case,
    world: &World,
    staged: Staged,
    context: &mut Context,
    place: &Place,
    frame: &Frame,
    now: Moment,
) -> Result<Decided, AllocError>
    requires { children_at [] (branches_of frame.now) ≡ children_at place.now world.now.branches }
    ensures deciding { IfOk result (λ d. d.deciding
        ≡ deciding_in (object_in machine.now frame.now.head.current) context.old.facts
        (seen_at machine.now case.now world.now place.now now frame.now.head.current)) }
    ensures stages { IfOk result (λ d. d.stages.items
        ≡ wanted_in staged (object_in machine.now frame.now.head.current) context.old.facts
        (seen_at machine.now case.now world.now place.now now frame.now.head.current)) }
    ensures facts { context.new.facts ≡ context.old.facts }
{
    let current = frame.held();
    let (number, state) = state_of(machine, current);
    let children = frame.child_records(alloc)?;
    let visit = Visit {
        place,
        current,
        children: &children,
        forker: world.forker_at(place),
        iteration: world.iteration_at(place),
        invokes: invokes_in(state),
        count: world.count(number),
        case,
        moment: now,
    };
    match state {
        Some(state) => by_state(alloc, state, staged, &visit, context),
        None => Ok(undecided(alloc)),
    }
}

/// Whether the stages of this state are wanted.
fn is_wanted(staged: Staged, state: &State) -> bool
    ensures { (t : List Named) → result ≡ is_wanted staged (state_shown t state.now) }
{
    staged == Staged::All || handles(state)
}

/// The stages of this state, where they are wanted.
fn wanted_of(
    alloc: Global,
    state: &State,
    staged: Staged,
    visit: &Visit,
    context: &mut Context,
) -> Result<Vec<Stage>, AllocError>
    ensures stages { (t : List Named) → IfOk result (λ ss. ss.items
        ≡ wanted_of staged (state_shown t state.now) context.old.facts (seen visit.now)) }
    ensures facts { context.new.facts ≡ context.old.facts }
{
    if is_wanted(staged, state) {
        stages_of(alloc, state, visit, context)
    } else {
        Ok(Vec::new(alloc))
    }
}

/// The error that these stages of a state raise, where the state may have retriers and catchers.
pub(crate) fn raised_by<'a>(state: &State, stages: &'a [Stage]) -> Option<&'a ErrorOut>
    ensures { (t : List Named) → option_copied result
        ≡ raised_by (state_shown t state.now) stages.now }
{
    if handles(state) {
        raised_in(stages)
    } else {
        None
    }
}

/// The same of a step in this state.
fn by_state(
    alloc: Global,
    state: &State,
    staged: Staged,
    visit: &Visit,
    context: &mut Context,
) -> Result<Decided, AllocError>
    ensures deciding { (t : List Named) → IfOk result (λ d. d.deciding
        ≡ deciding_of (state_shown t state.now) context.old.facts (seen visit.now)) }
    ensures stages { (t : List Named) → IfOk result (λ d. d.stages.items
        ≡ wanted_of staged (state_shown t state.now) context.old.facts (seen visit.now)) }
    ensures facts { context.new.facts ≡ context.old.facts }
{
    let stages = wanted_of(alloc, state, staged, visit, context)?;
    let deciding = deciding_with(alloc, state, &stages, visit, context)?;
    Ok(Decided { deciding, stages })
}

/// What decides in a step in this state, which has these stages.
fn deciding_with(
    alloc: Global,
    state: &State,
    stages: &[Stage],
    visit: &Visit,
    context: &mut Context,
) -> Result<Deciding, AllocError>
    ensures deciding { (t : List Named) → IfOk result (λ d. d ≡ deciding_with
        (state_shown t state.now) context.old.facts (seen visit.now) stages.now) }
    ensures facts { context.new.facts ≡ context.old.facts }
{
    match state {
        State::Choice(choice) => by_rules(alloc, choice, visit, context),
        _ => Ok(by_error(raised_by(state, stages), state, visit)),
    }
}

/// Whether a rule holds; none where it can't be said.
fn verdict(rule: &ChoiceRule, value: &Json, context: &Json) -> Option<bool>
    ensures { result ≡ said (holds (choice_rule_object rule.now) (data_of value.now)
        (data_of context.now)) }
{
    match rule.rule.holds(value, context) {
        Ok(holds) => Some(holds),
        Err(_) => None,
    }
}

/// The first of these rules that holds, else `Default`.
fn first_rule(rules: &[ChoiceRule], value: &Json, context: &Json) -> Deciding
    ensures { result ≡ first_rule 0 (choice_rule_objects rules.now) (data_of value.now)
        (data_of context.now) }
{
    for number in 0..rules.len() {
        let Some(holds) = verdict(&rules[number], value, context) else {
            return Deciding::Nothing;
        };
        if holds {
            return Deciding::Rule(number);
        }
    }
    Deciding::Default
}

/// The value that is given, where it is no error. The error is that memory ran out.
fn given(effective: Result<Shared, Fault>) -> Result<Option<Shared>, AllocError>
    ensures { (g : Given) → Gives g effective → IfOk result (λ o. o ≡ result_ok g) }
{
    match effective {
        Ok(value) => Ok(Some(value)),
        Err(Fault::Raised(_)) => Ok(None),
        Err(Fault::Memory) => Err(AllocError),
    }
}

/// The first rule of a Choice that holds, else `Default`.
fn by_rules(
    alloc: Global,
    choice: &Choice,
    visit: &Visit,
    context: &mut Context,
) -> Result<Deciding, AllocError>
    ensures deciding { IfOk result (λ d. d ≡ rule_with (choice_object choice.now)
        (context_of context.old.facts (seen visit.now)) (entering_with visit.now.current.now)) }
    ensures facts { context.new.facts ≡ context.old.facts }
{
    let Some(input) = visit.current.entering() else {
        return Ok(Deciding::Nothing);
    };
    let path = choice.input_path();
    let effective = taken(alloc, "InputPath", path, input, visit, context);
    let Some(value) = given(effective)? else {
        return Ok(Deciding::Nothing);
    };
    context.show(alloc, visit)?;
    let rules = choice.choices().as_slice();
    Ok(first_rule(rules, value.get(), context.shown()))
}

/// `Next`, or what handles the error that the state raises.
fn by_error(error: Option<&ErrorOut>, state: &State, visit: &Visit) -> Deciding
    ensures { (t : List Named) → result
        ≡ by_error (state_shown t state.now) (seen visit.now) (option_copied error.entry) }
{
    match error {
        Some(error) => handler_of(error, policy_of(state), visit),
        None => Deciding::Next,
    }
}

/// What handles an error.
fn handler_of(error: &ErrorOut, policy: Policy<'_>, visit: &Visit) -> Deciding
    ensures { result ≡ handler_of (retry_of policy.entry) (catch_of policy.entry) (seen visit.now)
        error.now }
{
    match policy.decide(error.name(), visit.current.uses(), visit.moment) {
        Decision::Again {
            retrier,
            until: _until,
        } => Deciding::Retrier(retrier),
        Decision::Caught { catcher } => Deciding::Catcher(catcher_number(&policy, catcher)),
        Decision::Unhandled => Deciding::Nothing,
    }
}

// What an execution covers.
ghost use Rattle.std.specs.Prelude.{◌≡◌, ◌++◌, ◌∷◌, [], IfOk, OnOk, drop, is_some, length, option_map};
ghost use Rattle.std.specs.List.{list_any};
ghost use Rattle.asl_json.specs.View.{data_of};
ghost use Rattle.asl_step.specs.Records.{name_in};
ghost use Rattle.asl_exec.specs.Driving.{chosen, after};
ghost use Rattle.asl_exec.specs.Steps.{step};
ghost use Rattle.asl_exec.specs.Views.{setup_of, world_of};
ghost use Rattle.asl_trace.specs.Deciding.{deciding_at};
ghost use Rattle.asl_suite_coverage.specs.Spots.{spot, spot_if};
ghost use Rattle.asl_suite_coverage.specs.Covered.{answer_spots, event_spots, events_spots, is_scheduled, leaves, part_of, name_at, count_at, taken_spots, spots_unless, step_spots, steps_spots, chosen_spots, driven_spots, spots_by, run_spots};

use crate::answering::{answer_number, case_in, response_of};
use crate::spot::{Part, Spot};
use asl_exec::{Execution, most_steps, state_of};
use asl_history::{Event, EventKind, Place};
use asl_json::Json;
use asl_json_shared::Name;
use asl_run_input::{Setup, StepAt};
use asl_run_state::Refusal;
use asl_step::{Context, Record};
use asl_trace::{Deciding, Staged, context_of, decided_at};
use std::alloc::{AllocError, Global};

/// What is kept of an execution until a step is taken.
struct Before {
    /// The state that the branch is in; empty where it has ended.
    name: Name,
    /// How often the state was invoked.
    count: u32,
    /// How many events there are.
    told: usize,
    /// What decides in the step.
    deciding: Deciding,
}

impl Drop for Before {
    fn drop(self) {
        let Before {
            name: _name,
            count: _count,
            told: _told,
            deciding: _deciding,
        } = self;
    }
}

// ---- what events tell

/// Adds a part of the state of this name.
fn add(seen: &mut Vec<Spot>, name: &Name, part: Part) -> Result<(), AllocError>
    ensures { OnOk result (seen.new.items ≡ seen.old.items ++ spot name.now part ∷ []) }
{
    let name = name.try_clone()?;
    seen.push(Spot { name, part })?;
    Ok(())
}

/// The same where there is a part.
fn add_if(seen: &mut Vec<Spot>, name: &Name, part: Option<Part>) -> Result<(), AllocError>
    ensures { OnOk result (seen.new.items ≡ seen.old.items ++ spot_if name.now part) }
{
    match part {
        Some(part) => add(seen, name, part),
        None => Ok(()),
    }
}

/// Adds the answer of the response of this name to the invocation of this number.
fn add_answer(
    alloc: Global,
    seen: &mut Vec<Spot>,
    mocks: &Json,
    response: Option<&str>,
    number: u32,
) -> Result<(), AllocError>
    ensures { OnOk result (seen.new.items ≡ seen.old.items
        ++ answer_spots (data_of mocks.now) number (option_map (λ t. t.now) response.entry)) }
{
    let Some(response) = response else {
        return Ok(());
    };
    let Some(answer) = answer_number(mocks, response, number) else {
        return Ok(());
    };
    let name = Name::new(alloc, response)?;
    seen.push(Spot {
        name,
        part: Part::Answer(answer),
    })?;
    Ok(())
}

/// Whether an event of this kind tells that a service is invoked.
fn is_scheduled(kind: EventKind) -> bool
    ensures { result ≡ is_scheduled kind }
{
    match kind {
        EventKind::TaskScheduled => true,
        _ => false,
    }
}

/// Adds what an event covers; its state was invoked so often before.
fn add_event(
    alloc: Global,
    seen: &mut Vec<Spot>,
    mocks: &Json,
    case: Option<&Json>,
    count: u32,
    event: &Event,
) -> Result<(), AllocError>
    ensures { OnOk result (seen.new.items ≡ seen.old.items ++ event_spots (data_of mocks.now)
        (option_map (λ v. data_of v.now) case.entry) count event.now) }
{
    if event.kind.is_entered() {
        return add(seen, &event.name, Part::State);
    }
    if is_scheduled(event.kind) {
        let response = response_of(case, event.name.as_str());
        return add_answer(alloc, seen, mocks, response, count);
    }
    Ok(())
}

/// Adds what the events of a step cover.
fn add_events(
    alloc: Global,
    seen: &mut Vec<Spot>,
    mocks: &Json,
    case: Option<&Json>,
    count: u32,
    events: &[Event],
) -> Result<(), AllocError>
    ensures { OnOk result (seen.new.items ≡ seen.old.items ++ events_spots (data_of mocks.now)
        (option_map (λ v. data_of v.now) case.entry) count events.now) }
{
    for event in events {
        add_event(alloc, seen, mocks, case, count, event)?;
    }
    Ok(())
}

// ---- a step

/// Whether an event tells that a state is left.
fn leaves(event: &Event) -> bool
    ensures { result ≡ leaves event.now }
{
    event.kind.is_exited()
}

/// Whether one of the events of a step does.
fn has_left(events: &[Event]) -> bool
    ensures { result ≡ list_any leaves events.now }
{
    events.iter().any(|event| leaves(event))
}

/// The part of a state that decided; `Next` only where the step left the state.
fn part_of(deciding: Deciding, left: bool) -> Option<Part>
    ensures { result ≡ part_of deciding left }
{
    match deciding {
        Deciding::Nothing => None,
        Deciding::Next => { if left { Some(Part::Next) } else { None } }
        Deciding::Rule(number) => Some(Part::Rule(number)),
        Deciding::Default => Some(Part::Default),
        Deciding::Retrier(number) => Some(Part::Retrier(number)),
        Deciding::Catcher(number) => Some(Part::Catcher(number)),
    }
}

/// The state that a branch is in; empty where it has ended.
fn name_of(alloc: Global, doing: &Record) -> Result<Name, AllocError>
    ensures { IfOk result (λ n. n ≡ name_in doing.now) }
{
    match doing.state() {
        Some(name) => name.try_clone(),
        None => Name::new(alloc, ""),
    }
}

/// The state that the branch at a place is in; empty where there is none.
fn name_at(alloc: Global, execution: &Execution, place: &Place) -> Result<Name, AllocError>
    ensures { IfOk result (λ n. n ≡ name_at (world_of execution.now) place.now) }
{
    match execution.view(place) {
        Some(doing) => name_of(alloc, doing),
        None => Name::new(alloc, ""),
    }
}

/// How often that state was invoked.
fn count_at(execution: &Execution, place: &Place) -> u32
    ensures { result ≡ count_at (setup_of execution.now).machine (world_of execution.now) place.now }
{
    match execution.view(place) {
        Some(doing) => {
            let (number, _) = state_of(&execution.setup().machine, doing);
            execution.world().count(number)
        }
        None => 0,
    }
}

/// What is kept until a step is taken. The context is the execution's; it is written over. The error is that memory ran out.
fn look_before(
    alloc: Global,
    execution: &Execution,
    context: &mut Context,
    at: &StepAt,
) -> Result<Before, AllocError>
    ensures name { IfOk result (λ b. b.name ≡ name_at (world_of execution.now) at.now.place) }
    ensures count { IfOk result (λ b. b.count ≡ count_at (setup_of execution.now).machine
        (world_of execution.now) at.now.place) }
    ensures told { IfOk result (λ b. b.told ≡ length (world_of execution.now).events) }
    ensures deciding { IfOk result (λ b. b.deciding ≡ deciding_at context.old.facts
        (setup_of execution.now) (world_of execution.now) at.now.place at.now.moment) }
    ensures facts { context.new.facts ≡ context.old.facts }
{
    let name = name_at(alloc, execution, &at.place)?;
    let count = count_at(execution, &at.place);
    let told = execution.history().len();
    let decided = decided_at(alloc, execution, Staged::Handling, context, at)?;
    Ok(Before {
        name,
        count,
        told,
        deciding: decided.deciding,
    })
}

/// The events behind so many.
fn behind(events: &[Event], told: usize) -> &[Event]
    ensures { result.now ≡ drop told events.now }
{
    if told <= events.len() {
        &events[told..]
    } else {
        &[]
    }
}

/// Adds what a step covered that told these events.
fn add_taken(
    alloc: Global,
    seen: &mut Vec<Spot>,
    mocks: &Json,
    case: Option<&Json>,
    before: &Before,
    events: &[Event],
) -> Result<(), AllocError>
    ensures { OnOk result (seen.new.items ≡ seen.old.items ++ taken_spots (data_of mocks.now)
        (option_map (λ v. data_of v.now) case.entry) before.now.name before.now.count
        before.now.deciding events.now) }
{
    add_events(alloc, seen, mocks, case, before.count, events)?;
    let part = part_of(before.deciding, has_left(events));
    add_if(seen, &before.name, part)
}

/// The same, unless the step was refused.
fn add_unless(
    alloc: Global,
    seen: &mut Vec<Spot>,
    mocks: &Json,
    case: Option<&Json>,
    refusal: Option<Refusal>,
    before: &Before,
    events: &[Event],
) -> Result<(), AllocError>
    ensures { OnOk result (seen.new.items ≡ seen.old.items ++ spots_unless refusal
        (taken_spots (data_of mocks.now) (option_map (λ v. data_of v.now) case.entry)
        before.now.name before.now.count before.now.deciding (drop before.now.told events.now))) }
{
    match refusal {
        Some(_) => Ok(()),
        None => {
            let own = behind(events, before.told);
            add_taken(alloc, seen, mocks, case, before, own)
        }
    }
}

/// Takes a step, and adds what it covers. The context is the execution's; it is written over. The error is that memory ran out.
#[tactic(auto, unfolding(crate::specs::Covered::step_spots))]
fn add_step(
    alloc: Global,
    seen: &mut Vec<Spot>,
    mocks: &Json,
    case: Option<&Json>,
    execution: &mut Execution,
    context: &mut Context,
    at: &StepAt,
) -> Result<(), AllocError>
    ensures spots { OnOk result (seen.new.items ≡ seen.old.items ++ step_spots (data_of mocks.now)
        (option_map (λ v. data_of v.now) case.entry) context.old.facts (setup_of execution.old)
        (world_of execution.old) at.now.place at.now.moment) }
    ensures world { OnOk result (world_of execution.new
        ≡ step (setup_of execution.old) (world_of execution.old) at.now.place at.now.moment) }
    ensures setup { setup_of execution.new ≡ setup_of execution.old }
    ensures facts { context.new.facts ≡ context.old.facts }
{
    let before = look_before(alloc, execution, context, at)?;
    let refusal = execution.reply(at)?;
    let events = execution.history().events();
    add_unless(alloc, seen, mocks, case, refusal, &before, events)
}

// ---- a run

/// Takes steps in order, and adds what they cover. The error is that memory ran out.
fn add_steps(
    alloc: Global,
    seen: &mut Vec<Spot>,
    mocks: &Json,
    case: Option<&Json>,
    execution: &mut Execution,
    context: &mut Context,
    steps: &[StepAt],
) -> Result<(), AllocError>
    ensures { OnOk result (seen.new.items ≡ seen.old.items ++ steps_spots (data_of mocks.now)
        (option_map (λ v. data_of v.now) case.entry) context.old.facts (setup_of execution.old)
        (world_of execution.old) steps.now) }
{
    for at in steps {
        add_step(alloc, seen, mocks, case, execution, context, at)?;
    }
    Ok(())
}

/// Takes the step that comes next, and adds what it covers. Whether there was one.
fn add_next(
    alloc: Global,
    seen: &mut Vec<Spot>,
    mocks: &Json,
    case: Option<&Json>,
    execution: &mut Execution,
    context: &mut Context,
) -> Result<bool, AllocError>
    ensures took { IfOk result (λ b. b
        ≡ is_some (chosen (setup_of execution.old) (world_of execution.old))) }
    ensures spots { OnOk result (seen.new.items ≡ seen.old.items ++ chosen_spots (data_of mocks.now)
        (option_map (λ v. data_of v.now) case.entry) context.old.facts (setup_of execution.old)
        (world_of execution.old) (chosen (setup_of execution.old) (world_of execution.old))) }
    ensures world { OnOk result (world_of execution.new
        ≡ after (setup_of execution.old) (world_of execution.old)
        (chosen (setup_of execution.old) (world_of execution.old))) }
    ensures setup { setup_of execution.new ≡ setup_of execution.old }
    ensures facts { context.new.facts ≡ context.old.facts }
{
    let Some(at) = execution.chosen()? else {
        return Ok(false);
    };
    add_step(alloc, seen, mocks, case, execution, context, &at)?;
    Ok(true)
}

/// Takes the steps that come next, at most so many, and adds what they cover. The error is that memory ran out.
fn add_driven(
    alloc: Global,
    seen: &mut Vec<Spot>,
    mocks: &Json,
    case: Option<&Json>,
    execution: &mut Execution,
    context: &mut Context,
    limit: u32,
) -> Result<(), AllocError>
    ensures { OnOk result (seen.new.items ≡ seen.old.items ++ driven_spots (data_of mocks.now)
        (option_map (λ v. data_of v.now) case.entry) context.old.facts limit
        (setup_of execution.old) (world_of execution.old)) }
{
    for _ in 0..limit {
        if !add_next(alloc, seen, mocks, case, execution, context)? {
            return Ok(());
        }
    }
    Ok(())
}

/// Takes these steps, or without them those that come next, and adds what they cover. The error is that memory ran out.
fn add_by(
    alloc: Global,
    seen: &mut Vec<Spot>,
    mocks: &Json,
    case: Option<&Json>,
    execution: &mut Execution,
    context: &mut Context,
    steps: Option<&[StepAt]>,
) -> Result<(), AllocError>
    ensures { OnOk result (seen.new.items ≡ seen.old.items ++ spots_by (data_of mocks.now)
        (option_map (λ v. data_of v.now) case.entry) context.old.facts (setup_of execution.old)
        (world_of execution.old) (option_map (λ s. s.now) steps.entry)) }
{
    match steps {
        Some(steps) => add_steps(alloc, seen, mocks, case, execution, context, steps),
        None => {
            let limit = most_steps();
            add_driven(alloc, seen, mocks, case, execution, context, limit)
        }
    }
}

/// What an execution covers that takes these steps, or without them those that come next, in the case of this name: each as often as it does.
/// The error is that memory ran out.
pub(crate) fn seen_in(
    alloc: Global,
    mocks: &Json,
    setup: Setup,
    steps: Option<&[StepAt]>,
    case: &str,
) -> Result<Vec<Spot>, AllocError>
    ensures { IfOk result (λ v. v.items ≡ run_spots (data_of mocks.now) case.now setup
        (option_map (λ s. s.now) steps.entry)) }
{
    let mut context = context_of(alloc, &setup)?;
    let mut seen = Vec::new(alloc);
    let case = case_in(mocks, setup.name_of_machine.as_str(), case);
    let mut execution = Execution::open(alloc, setup)?;
    add_by(
        alloc,
        &mut seen,
        mocks,
        case,
        &mut execution,
        &mut context,
        steps,
    )?;
    Ok(seen)
}

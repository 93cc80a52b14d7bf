// The pieces of which the rows of the state table are made.
ghost use Rattle.std.specs.Prelude.{◌≡◌, ◌↔◌, ◌<◌, ◌+◌, ◌^◌, ◌++◌, ◌∷◌, [], Some, None, List, ℕ, length, slice_index, IfOk, IsTrue, option_map, codes};
ghost use Rattle.asl_step.specs.Records.{name_in, uses_in, uses_from};
ghost use Rattle.asl_step.specs.Seen.{seen};
ghost use Rattle.asl_step.specs.Rows.{idle, number_at, index_of, iteration_event, told_begin, told_success, told_failure, left, is_within_limit, over_limit, leaving, failing, error_output, entering, unstarted, beginning, telling, retrying, forking, pausing, moved, ended, failed};

use crate::context::entered_at;
use crate::counts::{raise_at, zeros};
use crate::effect::{Children, Drafts, Effect, Ended, Progress, Records};
use crate::record::{ErrorOut, Record, Uses};
use crate::visit::Visit;
use asl_history::{EventKind, Place};
use asl_json::{Dec, Json, Members, Txt};
use asl_json_shared::{Name, Shared, SharedItems};
use asl_json_write::text_within;
use asl_time::Moment;
use std::alloc::{AllocError, Global};

/// Nothing happens.
pub fn idle(alloc: Global, current: &Record) -> Result<Effect, AllocError>
    ensures { IfOk result (λ e. e ≡ idle current.now) }
{
    Ok(Effect {
        after: current.try_clone(alloc)?,
        children: Children::Kept,
        raises: false,
        events: Drafts::new(alloc),
        outcome: None,
    })
}

/// The name of the state that a branch is in.
fn name_of(alloc: Global, current: &Record) -> Result<Name, AllocError>
    ensures { IfOk result (λ n. n ≡ name_in current.now) }
{
    match current.state() {
        Some(name) => name.try_clone(),
        None => Name::new(alloc, ""),
    }
}

/// The number of a branch among its siblings.
fn number_of(place: &Place) -> u32
    ensures { result ≡ number_at place.now }
{
    let numbers = place.numbers();
    if numbers.is_empty() {
        return 0;
    }
    numbers[numbers.len() - 1]
}

/// What is told of an iteration: its index.
fn index_of(alloc: Global, place: &Place) -> Result<Shared, AllocError>
    ensures { IfOk result (λ v. v ≡ index_of place.now) }
{
    let mut members = Members::with_capacity(alloc, 1)?;
    let number = Json::Num(Dec::of_whole(i128::from(number_of(place))));
    members.push(Txt::of(alloc, "index")?, number)?;
    Ok(Shared::new(alloc, Json::Dict(members))?)
}

/// These events, and one of the iteration, where the branch is one.
fn with_iteration(
    alloc: Global,
    events: Drafts,
    kind: EventKind,
    forker: Option<&Name>,
    place: &Place,
) -> Result<Drafts, AllocError>
    ensures { IfOk result (λ d. d
        ≡ events ++ iteration_event kind (option_map (λ n. n.now) forker.entry) place.now) }
{
    match forker {
        Some(name) => events.and(kind, name.try_clone()?, index_of(alloc, place)?),
        None => Ok(events),
    }
}

/// The events with which a branch begins.
fn begun(alloc: Global, visit: &Visit) -> Result<Drafts, AllocError>
    ensures { IfOk result (λ d. d
        ≡ told_begin (seen visit.now).current (seen visit.now).forker (seen visit.now).place) }
{
    let events = Drafts::new(alloc);
    match visit.current {
        Record::New { .. } => {
            with_iteration(
                alloc,
                events,
                EventKind::MapIterationStarted,
                visit.forker,
                visit.place,
            )
        }
        _ => Ok(events),
    }
}

/// A state is entered with this input.
pub fn entering(
    alloc: Global,
    visit: &Visit,
    entered: EventKind,
    input: &Shared,
) -> Result<Progress, AllocError>
    ensures { IfOk result (λ d. d ≡ entering (seen visit.now) entered input.now) }
{
    let events = begun(alloc, visit)?;
    let name = name_of(alloc, visit.current)?;
    Ok(Progress {
        children: Children::Kept,
        raises: false,
        events: events.and(entered, name, input.try_clone()?)?,
    })
}

/// A state is entered with this input, or retried: then it isn't entered anew.
pub fn beginning(
    alloc: Global,
    visit: &Visit,
    entered: EventKind,
    input: &Shared,
) -> Result<Progress, AllocError>
    ensures { IfOk result (λ d. d ≡ beginning (seen visit.now) entered input.now) }
{
    match visit.current {
        Record::Again { .. } => Ok(unstarted(alloc)),
        _ => entering(alloc, visit, entered, input),
    }
}

/// One more event of the state.
pub fn telling(
    alloc: Global,
    visit: &Visit,
    done: Progress,
    kind: EventKind,
    body: Shared,
) -> Result<Progress, AllocError>
    ensures { IfOk result (λ d. d ≡ telling (seen visit.now) done kind body) }
{
    let Progress {
        children,
        raises,
        events,
    } = done;
    let name = name_of(alloc, visit.current)?;
    Ok(Progress {
        children,
        raises,
        events: events.and(kind, name, body)?,
    })
}

/// How often each of so many retriers was used: never, where nothing was counted yet.
fn uses_from(alloc: Global, retriers: usize, uses: &[u32]) -> Result<Vec<u32>, AllocError>
    ensures { IfOk result (λ v. v.items ≡ uses_from retriers uses.now) }
{
    if uses.is_empty() {
        return zeros(alloc, retriers);
    }
    Vec::from_slice(alloc, uses)
}

/// The branch waits until a moment, and one of so many retriers was used once more.
pub fn retrying(
    alloc: Global,
    visit: &Visit,
    done: Progress,
    input: &Shared,
    retriers: usize,
    retrier: usize,
    until: Moment,
) -> Result<Effect, AllocError>
    requires { slice_index (uses_from retriers (uses_in visit.now.current.now)) retrier < 2 ^ 31 }
    ensures { IfOk result (λ e. e
        ≡ retrying (seen visit.now) done input.now retriers retrier until) }
{
    let Progress {
        children,
        raises,
        events,
    } = done;
    let mut counts = uses_from(alloc, retriers, visit.current.uses())?;
    raise_at(&mut counts, retrier);
    let uses = Uses { counts };
    let name = name_of(alloc, visit.current)?;
    let since = entered_at(visit.current, visit.moment);
    Ok(Effect {
        after: Record::Again {
            state: name,
            input: input.try_clone()?,
            since,
            uses,
            until,
        },
        children,
        raises,
        events,
        outcome: None,
    })
}

/// The state waits for these branches. It keeps its raw input, when it was entered, and how often each of its so many retriers
/// was used. The items are a Map's.
pub fn forking(
    alloc: Global,
    visit: &Visit,
    done: Progress,
    input: &Shared,
    retriers: usize,
    items: SharedItems,
    branches: Records,
) -> Result<Effect, AllocError>
    ensures { IfOk result (λ e. e
        ≡ forking (seen visit.now) done input.now retriers items branches) }
{
    let Progress {
        children: _children,
        raises,
        events,
    } = done;
    let counts = uses_from(alloc, retriers, visit.current.uses())?;
    let state = name_of(alloc, visit.current)?;
    let entered = entered_at(visit.current, visit.moment);
    Ok(Effect {
        after: Record::Forked {
            state,
            input: input.try_clone()?,
            since: entered,
            uses: Uses { counts },
            items,
        },
        children: Children::Forked(branches),
        raises,
        events,
        outcome: None,
    })
}

/// Nothing was done yet.
pub fn unstarted(alloc: Global) -> Progress
    ensures { result ≡ unstarted }
{
    Progress {
        children: Children::Kept,
        raises: false,
        events: Drafts::new(alloc),
    }
}

/// The branch waits until a moment, with the state's raw input.
pub fn pausing(
    alloc: Global,
    visit: &Visit,
    done: Progress,
    input: &Shared,
    until: Moment,
) -> Result<Effect, AllocError>
    ensures { IfOk result (λ e. e ≡ pausing (seen visit.now) done input.now until) }
{
    let Progress {
        children,
        raises,
        events,
    } = done;
    let name = name_of(alloc, visit.current)?;
    Ok(Effect {
        after: Record::Pausing {
            state: name,
            input: input.try_clone()?,
            since: visit.moment,
            until,
        },
        children,
        raises,
        events,
        outcome: None,
    })
}

/// What a branch does next: it goes on to the next state with this data, or ends with it.
fn moved(alloc: Global, next: Option<&str>, output: &Shared) -> Result<Record, AllocError>
    ensures { IfOk result (λ r. r ≡ moved (option_map (λ n. n.now) next.entry) output.now) }
{
    let output = output.try_clone()?;
    match next {
        None => Ok(Record::Done(output)),
        Some(name) => Ok(Record::Ready {
            state: Name::new(alloc, name)?,
            input: output,
        }),
    }
}

/// These events, and those that tell that a branch ends, where it does.
fn with_success(
    alloc: Global,
    visit: &Visit,
    next: Option<&str>,
    events: Drafts,
    output: &Shared,
) -> Result<Drafts, AllocError>
    ensures { IfOk result (λ d. d
        ≡ events ++ told_success (option_map (λ n. n.now) next.entry) (seen visit.now).forker
        (seen visit.now).place output.now) }
{
    if next.is_some() {
        return Ok(events);
    }
    if visit.place.is_root() {
        let nameless = Name::new(alloc, "")?;
        return events.and(EventKind::ExecutionSucceeded, nameless, output.try_clone()?);
    }
    with_iteration(
        alloc,
        events,
        EventKind::MapIterationSucceeded,
        visit.forker,
        visit.place,
    )
}

/// The outcome, where a branch that ends is that of the execution.
fn ended(next: Option<&str>, place: &Place, output: &Shared) -> Result<Option<Ended>, AllocError>
    ensures { IfOk result (λ o. o
        ≡ ended (option_map (λ n. n.now) next.entry) place.now output.now) }
{
    if next.is_none() && place.is_root() {
        return Ok(Some(Ended::Succeeded(output.try_clone()?)));
    }
    Ok(None)
}

/// A state is left with this output, whatever its size.
fn left(
    alloc: Global,
    visit: &Visit,
    done: Progress,
    exited: EventKind,
    next: Option<&str>,
    output: Shared,
) -> Result<Effect, AllocError>
    ensures { IfOk result (λ e. e
        ≡ left (seen visit.now) done exited (option_map (λ n. n.now) next.entry) output) }
{
    let Progress {
        children,
        raises,
        events,
    } = done;
    let name = name_of(alloc, visit.current)?;
    let events = events.and(exited, name, output.try_clone()?)?;
    let events = with_success(alloc, visit, next, events, &output)?;
    let outcome = ended(next, visit.place, &output)?;
    Ok(Effect {
        after: moved(alloc, next, &output)?,
        children,
        raises,
        events,
        outcome,
    })
}

/// An error as data: an object of its name and its cause, each where there is one.
pub fn error_output(alloc: Global, error: &ErrorOut) -> Result<Json, AllocError>
    ensures { IfOk result (λ v. v ≡ error_output error.now) }
{
    let mut members = Members::with_capacity(alloc, 2)?;
    if let Some(name) = &error.error {
        members.push(Txt::of(alloc, "Error")?, Json::Text(name.try_clone(alloc)?))?;
    }
    if let Some(cause) = &error.cause {
        members.push(
            Txt::of(alloc, "Cause")?,
            Json::Text(cause.try_clone(alloc)?),
        )?;
    }
    Ok(Json::Dict(members))
}

/// These events, and the one that tells that a branch fails.
fn with_failure(
    alloc: Global,
    visit: &Visit,
    events: Drafts,
    error: &ErrorOut,
) -> Result<Drafts, AllocError>
    ensures { IfOk result (λ d. d
        ≡ events ++ told_failure (seen visit.now).forker (seen visit.now).place error.now) }
{
    if visit.place.is_root() {
        let nameless = Name::new(alloc, "")?;
        let body = Shared::new(alloc, error_output(alloc, error)?)?;
        return events.and(EventKind::ExecutionFailed, nameless, body);
    }
    with_iteration(
        alloc,
        events,
        EventKind::MapIterationFailed,
        visit.forker,
        visit.place,
    )
}

/// The outcome, where a branch that fails is that of the execution.
fn failed(alloc: Global, place: &Place, error: &ErrorOut) -> Result<Option<Ended>, AllocError>
    ensures { IfOk result (λ o. o ≡ failed place.now error.now) }
{
    if place.is_root() {
        return Ok(Some(Ended::Failed(error.try_clone(alloc)?)));
    }
    Ok(None)
}

/// The branch fails.
pub fn failing(
    alloc: Global,
    visit: &Visit,
    done: Progress,
    error: ErrorOut,
) -> Result<Effect, AllocError>
    ensures { IfOk result (λ e. e ≡ failing (seen visit.now) done error) }
{
    let Progress {
        children,
        raises,
        events,
    } = done;
    let events = with_failure(alloc, visit, events, &error)?;
    let outcome = failed(alloc, visit.place, &error)?;
    Ok(Effect {
        after: Record::Failed(error),
        children,
        raises,
        events,
        outcome,
    })
}

/// The most bytes of the compact text of an output, and of what a service answers.
const DATA_LIMIT: usize = 262_144;

/// Whether the compact text of a value keeps the limit.
pub fn is_within_limit(value: &Json) -> bool
    ensures { result ≡ is_within_limit value.now }
{
    text_within(value, DATA_LIMIT)
}

/// The error of a value above the limit.
pub fn over_limit(alloc: Global) -> Result<ErrorOut, AllocError>
    ensures { IfOk result (λ e. e ≡ over_limit) }
{
    Ok(ErrorOut {
        error: Some(Txt::of(alloc, "States.DataLimitExceeded")?),
        cause: Some(Txt::of(alloc, "data limit")?),
    })
}

/// A state is left with this output. One above the limit is an error, which nothing retries or catches.
pub fn leaving(
    alloc: Global,
    visit: &Visit,
    done: Progress,
    exited: EventKind,
    next: Option<&str>,
    output: Shared,
) -> Result<Effect, AllocError>
    ensures { IfOk result (λ e. e
        ≡ leaving (seen visit.now) done exited (option_map (λ n. n.now) next.entry) output) }
{
    if is_within_limit(&output) {
        left(alloc, visit, done, exited, next, output)
    } else {
        failing(alloc, visit, done, over_limit(alloc)?)
    }
}

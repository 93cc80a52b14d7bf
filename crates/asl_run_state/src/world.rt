// What changes as an execution goes on.
ghost use Rattle.std.specs.Prelude.{◌≡◌, ◌≤◌, ◌+◌, ◌<◌, [], ◌∷◌, ◌++◌, length, IfOk, IfSome, IsSome, OnOk, OnErr, true, false, None, vec_len, slice_index, max, is_some, option_map, ◌^◌, not, nat_lt, map};
ghost use Rattle.asl_history.specs.Events.{previous_id, IsHistory};
ghost use Rattle.asl_step.specs.Bounds.{AreFew, are_kept};
ghost use Rattle.asl_step.specs.Records.{is_finished};
ghost use Rattle.asl_json.specs.View.{data_of};
ghost use Rattle.asl_run_branches.specs.Branches.{record_at, children_at, forker_at, iteration_at};
ghost use Rattle.asl_run_branches.specs.Trees.{branches_of, nodes_of, ArePlaced};
ghost use Rattle.asl_run_branches.specs.Orders.{AreInOrder};
ghost use Rattle.asl_run_branches.specs.private.Links.{latest};
ghost use Rattle.asl_run_state.specs.World.{world_with, counts_after, outcome_after, count_of, is_over, is_late, timed_out};
ghost use Rattle.asl_run_state.specs.private.Telling.{placed, AllAt, told_after, last_id};
ghost use Rattle.asl_run_state.specs.Refusals.{refusal_of, opening_at, most_events, is_full};

use crate::outcome::Outcome;
use crate::refusal::Refusal;
use crate::time_limit::{is_late, timeout_output};
use asl_history::{EventKind, History, Place};
use asl_json::Json;
use asl_json_shared::{Name, Shared};
use asl_run_branches::{Frame, make_offspring};
use asl_step::{Draft, Drafts, Effect, Ended, Record, raise_at, zeros};
use asl_time::Moment;
use std::alloc::{AllocError, Global};
use std::marker::Model;
use std::mem;

/// A step is taken while there are at most so many events.
const FULL: usize = 24_992;

/// What changes as an execution goes on. Contracts see its world.
pub struct World {
    pub(crate) root: Frame,
    pub(crate) counts: Vec<u32>,
    pub(crate) history: History,
    pub(crate) last: Moment,
    pub(crate) deadline: Option<Moment>,
    pub(crate) outcome: Outcome,
}

// Written out, so that a caller's proof sees one call and not the drop of each part.
impl Drop for World {
    fn drop(self) {
        let World {
            root: _root,
            counts: _counts,
            history: _history,
            last: _last,
            deadline: _deadline,
            outcome: _outcome,
        } = self;
    }
}

impl Model for World {
    ghost use Rattle.asl_run_branches.specs.Trees.{branches_of, nodes_of};
    ghost use Rattle.asl_run_state.specs.World.{World};
    ghost use Rattle.asl_run_state.specs.private.Sound.{IsSound};

    ghost Value = { World };

    ghost use Rattle.std.specs.Coded.{codes};
    ghost use Rattle.asl_json.specs.private.Code.{coded_data};
    ghost use Rattle.asl_json.specs.contracts.value.Json as json;

    ghost coded = { Prim.hlevel (codes, coded_data, json.the_row.coded) };

    ghost view = { λ r. record { branches = branches_of r.root; counts = r.counts.items; events = r.history.events; last = r.last; deadline = r.deadline; outcome = r.outcome } };

    ghost invariant = { λ r. IsSound (nodes_of r.root) r.counts.items r.history.events r.outcome };
}

/// The drafts, each with the place.
fn placed(alloc: Global, place: &Place, drafts: Drafts) -> Result<Vec<(Place, Draft)>, AllocError>
    ensures { IfOk result (λ v. v.items ≡ placed place.now drafts) }
{
    let mut placed = Vec::new(alloc);
    for draft in drafts.list {
        placed.push((place.try_clone()?, draft))?;
    }
    Ok(placed)
}

/// Moves the drafts, all at one place, behind the history's events, where there is room for them. `previous` is the id of the last
/// event along the place.
fn tell(
    history: &mut History,
    moment: Moment,
    place: &Place,
    told: Vec<(Place, Draft)>,
    previous: u64,
)
    requires room { vec_len told ≤ history.old.spare }
    requires at { AllAt place.now told.items }
    requires linked { IsHistory history.old.events }
    requires link { previous ≡ previous_id place.now history.old.events }
    ensures { history.new.events ≡ told_after moment told.items history.old.events }
{
    let mut previous = previous;
    for (at, draft) in told {
        history.append_linked(moment, draft.kind, at, draft.name, draft.body, previous);
        previous = history.len() as u64;
    }
}

/// The id of the latest event along a place at which a branch runs.
fn latest_along(root: &Frame, place: &Place) -> u64
    requires { is_some (record_at place.now (branches_of root.now)) ≡ true }
    ensures { result ≡ latest place.now (nodes_of root.now) }
{
    let Some(standing) = root.standing(place) else {
        unreachable!();
    };
    standing.previous
}

/// The id of the last event, once so many more are told.
fn last_id(count: usize, history: &History) -> Option<u64>
    requires { length history.now.events + count < 2 ^ 31 }
    ensures { result ≡ last_id count (length history.now.events + count) }
{
    if count == 0 {
        None
    } else {
        Some((history.len() + count) as u64)
    }
}

/// Raises the count of a state, where it is to be raised.
fn raise(counts: &mut Vec<u32>, state: Option<usize>, raises: bool)
    requires { IfSome state (λ n. slice_index counts.old.items n < 2 ^ 31) }
    ensures { counts.new.items ≡ counts_after state raises counts.old.items }
{
    if !raises {
        return;
    }
    let Some(number) = state else {
        return;
    };
    raise_at(counts, number);
}

/// The outcome after a step that may have ended the execution.
fn outcome_after(ended: Option<Ended>, before: Outcome) -> Outcome
    ensures { result ≡ outcome_after ended before }
{
    match ended {
        None => before,
        Some(Ended::Succeeded(output)) => Outcome::Succeeded(output),
        Some(Ended::Failed(error)) => Outcome::Failed(error),
    }
}

/// How many drafts there are.
fn count_of_drafts(drafts: &Drafts) -> usize
    ensures { result ≡ length drafts.now }
{
    drafts.list.len()
}

/// A history of the event that tells of an execution's start.
fn started(alloc: Global, input: Shared, moment: Moment) -> Result<History, AllocError>
    ensures { IfOk result (λ h. h.events ≡ (opening_at 0 [] input moment None).events) }
{
    let mut history = History::new(alloc);
    history.reserve(1)?;
    let nameless = Name::new(alloc, "")?;
    history.append(
        moment,
        EventKind::ExecutionStarted,
        Place::root(),
        nameless,
        input,
    );
    Ok(history)
}

impl World {
    /// The world before the first step, of a machine with so many states that starts at this one, and whose time is over at the
    /// deadline. The error is that memory ran out.
    pub fn open(
        alloc: Global,
        states: usize,
        start: Name,
        input: &Shared,
        moment: Moment,
        deadline: Option<Moment>,
    ) -> Result<World, AllocError>
        ensures { IfOk result (λ r. r ≡ opening_at states start input.now moment deadline) }
    {
        let history = started(alloc, input.try_clone()?, moment)?;
        let current = Record::Ready {
            state: start,
            input: input.try_clone()?,
        };
        let root = Frame::root(alloc, current, 1);
        let counts = zeros(alloc, states)?;
        Ok(World {
            root,
            counts,
            history,
            last: moment,
            deadline,
            outcome: Outcome::Running,
        })
    }

    /// The frame of the branch that the execution began with. Each frame under it lends its place.
    pub fn root(&self) -> &Frame
        ensures branches { branches_of result.now ≡ self.now.branches }
        ensures placed { ArePlaced (nodes_of result.now) }
    {
        &self.root
    }

    /// Its branches are listed in the order of their places, and no place is there twice. It does nothing: it is there for what its
    /// contract says of every world.
    pub fn is_in_order(&self)
        ensures { AreInOrder (map (λ b. b.place) self.now.branches) }
    {
        self.root.is_in_order();
    }

    /// The frame at a place; none where no branch runs there.
    pub fn frame_at(&self, place: &Place) -> Option<&Frame>
        ensures record { option_map (λ f. f.now.head.current) result
            ≡ record_at place.now self.now.branches }
        ensures children { IfSome result
            (λ f. children_at [] (branches_of f.now) ≡ children_at place.now self.now.branches) }
    {
        self.root.find(place)
    }

    /// The name of the Map of which the branch at a place is an iteration.
    pub fn forker_at(&self, place: &Place) -> Option<&Name>
        ensures { option_map (λ n. n.now) result ≡ forker_at place.now self.now.branches }
    {
        self.root.forker(place)
    }

    /// The number and the item of the innermost iteration of a Map that a place is at or under.
    pub fn iteration_at(&self, place: &Place) -> Option<(u32, &Json)>
        ensures { option_map (λ i. (i.0, data_of i.1.now)) result
            ≡ iteration_at place.now self.now.branches }
    {
        self.root.iteration(place)
    }

    /// How often the state of a number was invoked.
    pub fn count(&self, state: Option<usize>) -> u32
        ensures { result ≡ count_of self.now.counts state }
    {
        match state {
            None => 0,
            Some(number) => self.counts.get(number).copied().unwrap_or(0),
        }
    }

    /// What was told so far.
    pub fn history(&self) -> &History
        ensures { result.now.events ≡ self.now.events }
    {
        &self.history
    }

    /// How far the execution is.
    pub fn outcome(&self) -> &Outcome
        ensures { result.now ≡ self.now.outcome }
    {
        &self.outcome
    }

    /// Whether it hasn't ended yet.
    pub fn is_running(&self) -> bool
        ensures { result ≡ not (is_over self.now.outcome) }
    {
        matches!(&self.outcome, Outcome::Running)
    }

    /// Whether no step is taken any more since there are so many events.
    pub fn is_full(&self) -> bool
        ensures { result ≡ is_full self.now }
    {
        self.history.len() > FULL
    }

    /// The moment of the last step, or of the start.
    pub fn last(&self) -> Moment
        ensures { result ≡ self.now.last }
    {
        self.last
    }

    /// The present moment of a step that is handed this one.
    pub fn present(&self, moment: Moment) -> Moment
        ensures { result ≡ max self.now.last moment }
    {
        if self.last.millis() < moment.millis() {
            moment
        } else {
            self.last
        }
    }

    /// The moment at which its time is over, where it has a time limit.
    pub(crate) fn deadline(&self) -> Option<Moment>
        ensures { result ≡ self.now.deadline }
    {
        self.deadline
    }

    /// Whether its time is over where a step is handed this moment.
    pub fn is_late(&self, moment: Moment) -> bool
        ensures { result ≡ is_late (max self.now.last moment) self.now.deadline }
    {
        is_late(self.present(moment), self.deadline)
    }

    /// Why a step would be refused: the first reason that applies, but for want of memory. The Map of which the branch is an iteration
    /// runs at most so many at once; 0 says that there is no limit.
    #[tactic(auto, unfolding(crate::specs::Refusals::refusal_of))]
    pub fn refusal(&self, place: &Place, moment: Moment, slots: u32) -> Option<Refusal>
        ensures { result ≡ refusal_of self.now place.now moment slots }
    {
        match &self.outcome {
            Outcome::Running => {}
            Outcome::Succeeded(_) | Outcome::Failed(_) | Outcome::TimedOut => {
                return Some(Refusal::Over);
            }
        }
        if self.is_late(moment) {
            return None;
        }
        let Some(frame) = self.root.find(place) else {
            return Some(Refusal::NoSuchPlace);
        };
        let Some(standing) = self.root.standing(place) else {
            return Some(Refusal::NoSuchPlace);
        };
        if standing.stopped {
            return Some(Refusal::Stopped);
        }
        match frame.held() {
            Record::Done(_) | Record::Failed(_) => return Some(Refusal::Finished),
            Record::New { .. } => {
                if slots > 0 && self.root.is_crowded(place, slots) {
                    return Some(Refusal::Slots);
                }
            }
            Record::Ready { .. } => {}
            Record::Pausing { until, .. } | Record::Again { until, .. } => {
                if self.present(moment).millis() < until.millis() {
                    return Some(Refusal::NotYet(*until));
                }
            }
            Record::Forked { .. } => {
                if frame.is_busy() {
                    return Some(Refusal::Busy);
                }
            }
        }
        if self.is_full() {
            Some(Refusal::HistoryFull)
        } else {
            None
        }
    }

    /// Its time was over at this moment. What is refused, for want of memory, changes nothing.
    pub fn time_out(&mut self, alloc: Global, moment: Moment) -> Result<(), AllocError>
        ensures ok { OnOk result (self.new ≡ timed_out moment self.old) }
        ensures err { OnErr result (self.new ≡ self.old) }
    {
        let nameless = Name::new(alloc, "")?;
        let error = timeout_output(alloc)?;
        let root = Place::root();
        let previous = latest_along(&self.root, &root);
        self.history.reserve(1)?;
        self.history.append_linked(
            moment,
            EventKind::ExecutionTimedOut,
            root,
            nameless,
            error,
            previous,
        );
        self.root.tell(self.history.len() as u64);
        self.last = moment;
        self.outcome = Outcome::TimedOut;
        Ok(())
    }

    /// This happened to the branch at the place, in the state of this number. What is refused, for want of memory, changes nothing.
    pub fn apply(
        &mut self,
        alloc: Global,
        place: &Place,
        state: Option<usize>,
        moment: Moment,
        effect: Effect,
    ) -> Result<(), AllocError>
        requires there { is_some (record_at place.now self.old.branches) ≡ true }
        requires room { length self.old.events ≤ most_events }
        requires few { length effect.events ≤ 8 }
        requires fits { AreFew effect.children }
        requires tells { effect.raises ≡ true → 0 < length effect.events }
        requires changes_tell { are_kept effect.children ≡ false → 0 < length effect.events }
        requires ends { place.now ≡ [] → is_finished effect.after ≡ true → IsSome effect.outcome }
        ensures ok { OnOk result (self.new ≡ world_with place.now state moment effect self.old) }
        ensures err { OnErr result (self.new ≡ self.old) }
    {
        let Effect {
            after,
            children,
            raises,
            events,
            outcome: ended,
        } = effect;
        let count = count_of_drafts(&events);
        self.history.reserve(count)?;
        let told = placed(alloc, place, events)?;
        let offspring = make_offspring(alloc, place, children)?;
        let previous = latest_along(&self.root, place);
        let latest = last_id(count, &self.history);
        self.root
            .apply(alloc, place, after, latest, offspring, moment)?;
        tell(&mut self.history, moment, place, told, previous);
        raise(&mut self.counts, state, raises);
        self.last = moment;
        let before = mem::replace(&mut self.outcome, Outcome::Running);
        self.outcome = outcome_after(ended, before);
        Ok(())
    }
}

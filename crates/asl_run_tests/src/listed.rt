// Executions over a plain list of branches. A step looks through the whole list, builds it anew, and finds the event before a new one
// by a walk back. So little code does what the tree of frames does with less work: both have to tell the same, step by step.
use crate::opened::setup_of;
use crate::shown::place_of;
use asl_def::Machine;
use asl_def_states::State;
use asl_exec::Execution;
use asl_history::{EventKind, History, Place, line};
use asl_json::Json;
use asl_json_read::read;
use asl_json_shared::{Name, Shared, SharedItems};
use asl_json_write::write;
use asl_kinds::StateKind;
use asl_run_input::Setup;
use asl_run_state::{Next, Outcome, Refusal, put_step};
use asl_step::{
    Children, Context, Draft, Drafts, Effect, Ended, Facts, Record, Visit, error_output, idle,
    zeros,
};
use asl_time::{Moment, add};
use std::alloc::{AllocError, Global};
use std::mem;
use std::test::Fail;

/// A step is taken while there are at most so many events.
const FULL: usize = 24_992;

struct Branch {
    place: Place,
    current: Record,
}

// Written out, so that a caller's proof sees one call and not the drop of each part.
impl Drop for Branch {
    fn drop(self) {
        let Branch {
            place: _place,
            current: _current,
        } = self;
    }
}

/// An execution. The branches are in the order of their places.
struct Listed {
    setup: Setup,
    context: Context,
    branches: Vec<Branch>,
    counts: Vec<u32>,
    history: History,
    last: Moment,
    deadline: Moment,
    outcome: Outcome,
}

// Written out, so that a caller's proof sees one call and not the drop of each part.
impl Drop for Listed {
    fn drop(self) {
        let Listed {
            setup: _setup,
            context: _context,
            branches: _branches,
            counts: _counts,
            history: _history,
            last: _last,
            deadline: _deadline,
            outcome: _outcome,
        } = self;
    }
}

/// What the branch at a place is doing.
fn record_at<'a>(branches: &'a [Branch], place: &Place) -> Option<&'a Record> {
    for branch in branches {
        if branch.place == *place {
            return Some(&branch.current);
        }
    }
    None
}

/// What the branches right under a place are doing.
fn children_at<'a>(
    alloc: Global,
    branches: &'a [Branch],
    place: &Place,
) -> Result<Vec<&'a Record>, AllocError> {
    let mut children = Vec::new(alloc);
    for branch in branches {
        if place.is_parent_of(&branch.place) {
            children.push(&branch.current)?;
        }
    }
    Ok(children)
}

/// The name of the Map of which the branch at a place is an iteration.
fn forker_at<'a>(branches: &'a [Branch], place: &Place) -> Option<&'a Name> {
    for branch in branches {
        if branch.place.is_parent_of(place) {
            return match &branch.current {
                Record::Forked { state, items, .. } if !items.values().is_empty() => Some(state),
                _ => None,
            };
        }
    }
    None
}

/// The number and the item of the innermost iteration of a Map that the branch at a place is in.
fn iteration_at<'a>(branches: &'a [Branch], place: &Place) -> Option<(u32, &'a Json)> {
    let mut found = None;
    for branch in branches {
        if branch.place.is_prefix_of(place) {
            if let Record::Forked { items, .. } = &branch.current {
                let number = place.numbers().get(branch.place.numbers().len()).copied();
                found = item_of(items, number).or(found);
            }
        }
    }
    found
}

/// The item of this number.
fn item_of(items: &SharedItems, number: Option<u32>) -> Option<(u32, &Json)> {
    let number = number?;
    Some((number, items.values().get(number as usize)?))
}

/// How many branches beside the one at a place, with lower numbers, aren't done.
fn elders_at(branches: &[Branch], place: &Place) -> u32 {
    let mut count = 0u32;
    for branch in branches {
        if branch.place == *place {
            return count;
        }
        let level = branch.place.numbers().len();
        if level == place.numbers().len()
            && place.is_beside(&branch.place)
            && !branch.current.is_done()
        {
            count = count.saturating_add(1);
        }
    }
    count
}

/// Whether a sibling of the place, or of a place above it, has failed.
fn is_stopped(branches: &[Branch], place: &Place) -> bool {
    for branch in branches {
        if branch.current.is_failed() && place.is_beside(&branch.place) {
            return true;
        }
    }
    false
}

/// Whether no child has failed, and some child isn't done.
fn is_busy(branches: &[Branch], place: &Place) -> bool {
    let mut waits = false;
    for branch in branches {
        if place.is_parent_of(&branch.place) {
            if branch.current.is_failed() {
                return false;
            }
            if !branch.current.is_done() {
                waits = true;
            }
        }
    }
    waits
}

/// The state that a branch is in, and its number.
fn state_of<'a>(machine: &'a Machine, current: &Record) -> Option<(usize, &'a State)> {
    let name = current.state()?;
    machine.find(name.as_str())
}

/// The branch that steps.
fn stepped(alloc: Global, place: &Place, after: Record) -> Result<Vec<Branch>, AllocError> {
    let mut family = Vec::new(alloc);
    family.push(Branch {
        place: place.try_clone()?,
        current: after,
    })?;
    Ok(family)
}

/// These branches, and new ones under a place.
fn forked(
    alloc: Global,
    family: Vec<Branch>,
    place: &Place,
    records: Vec<Record>,
) -> Result<Vec<Branch>, AllocError> {
    let mut family = family;
    let mut number = 0u32;
    for current in records {
        let place = place.child(alloc, number % 1_000_000)?;
        family.push(Branch { place, current })?;
        number = number.wrapping_add(1);
    }
    Ok(family)
}

/// The branch that steps, and the new ones under it.
fn family(
    alloc: Global,
    place: &Place,
    after: Record,
    children: Children,
) -> Result<Vec<Branch>, AllocError> {
    let family = stepped(alloc, place, after)?;
    match children {
        Children::Forked(records) => forked(alloc, family, place, records.list),
        Children::Kept | Children::Removed => Ok(family),
    }
}

/// The branches, with those of a family in the place of the first of it, and of those under it where they don't stay.
fn rebuilt(
    alloc: Global,
    old: Vec<Branch>,
    place: &Place,
    keeps: bool,
    family: Vec<Branch>,
) -> Result<Vec<Branch>, AllocError> {
    let mut new = Vec::new(alloc);
    let mut family = family;
    for branch in old {
        if branch.place == *place {
            new.append(&mut family)?;
        } else if keeps || !place.is_prefix_of(&branch.place) {
            new.push(branch)?;
        }
    }
    Ok(new)
}

/// Raises the count of a state.
fn raise(counts: &mut [u32], number: Option<usize>) {
    let Some(number) = number else {
        return;
    };
    if number < counts.len() {
        counts[number] = counts[number].saturating_add(1);
    }
}

/// Adds an event behind the others.
fn tell(
    alloc: Global,
    history: &mut History,
    moment: Moment,
    place: &Place,
    draft: Draft,
) -> Result<(), AllocError> {
    let at = place.try_clone()?;
    history.reserve(1)?;
    history.append(moment, draft.kind, at, draft.name, draft.body);
    Ok(())
}

/// Adds events behind the others.
fn tell_all(
    alloc: Global,
    history: &mut History,
    moment: Moment,
    place: &Place,
    events: Drafts,
) -> Result<(), AllocError> {
    for draft in events.list {
        tell(alloc, history, moment, place, draft)?;
    }
    Ok(())
}

/// The branch that an execution begins with.
fn first(alloc: Global, setup: &Setup) -> Result<Branch, AllocError> {
    Ok(Branch {
        place: Place::root(),
        current: Record::Ready {
            state: Name::new(alloc, setup.machine.start())?,
            input: setup.input.try_clone()?,
        },
    })
}

/// What stays the same as the execution goes on.
fn facts(alloc: Global, setup: &Setup) -> Result<Facts, AllocError> {
    Ok(Facts {
        machine: Name::new(alloc, setup.name_of_machine.as_str())?,
        name: Name::new(alloc, setup.name.as_str())?,
        input: setup.input.try_clone()?,
        start: setup.start,
    })
}

/// A history of the event that tells of the start.
fn started(alloc: Global, setup: &Setup) -> Result<History, AllocError> {
    let mut history = History::new(alloc);
    let draft = Draft {
        kind: EventKind::ExecutionStarted,
        name: Name::new(alloc, "")?,
        body: setup.input.try_clone()?,
    };
    let root = Place::root();
    tell(alloc, &mut history, setup.start, &root, draft)?;
    Ok(history)
}

impl Listed {
    fn open(alloc: Global, setup: Setup) -> Result<Listed, AllocError> {
        let mut branches = Vec::new(alloc);
        branches.push(first(alloc, &setup)?)?;
        let counts = zeros(alloc, setup.machine.len())?;
        let history = started(alloc, &setup)?;
        let context = Context::new(alloc, facts(alloc, &setup)?)?;
        let last = setup.start;
        Ok(Listed {
            setup,
            context,
            branches,
            counts,
            history,
            last,
            deadline: add(last, TIME_LIMIT * 1000),
            outcome: Outcome::Running,
        })
    }

    /// The present moment of a step that is handed this one.
    fn present(&self, moment: Moment) -> Moment {
        if self.last.millis() < moment.millis() {
            moment
        } else {
            self.last
        }
    }

    /// Whether the execution's time is over where a step is handed this moment.
    fn is_late(&self, moment: Moment) -> bool {
        self.deadline.millis() <= self.present(moment).millis()
    }

    /// How many iterations run at once of the Map above a place.
    fn slots(&self, place: &Place) -> u32 {
        let Some(name) = forker_at(&self.branches, place) else {
            return 0;
        };
        match self.setup.machine.find(name.as_str()) {
            Some((_, state)) => state.slots(),
            None => 0,
        }
    }

    fn refusal(&self, place: &Place, moment: Moment) -> Option<Refusal> {
        if !matches!(&self.outcome, Outcome::Running) {
            return Some(Refusal::Over);
        }
        if self.is_late(moment) {
            return None;
        }
        let Some(current) = record_at(&self.branches, place) else {
            return Some(Refusal::NoSuchPlace);
        };
        if is_stopped(&self.branches, place) {
            return Some(Refusal::Stopped);
        }
        match current {
            Record::Done(_) | Record::Failed(_) => return Some(Refusal::Finished),
            Record::New { .. } => {
                let slots = self.slots(place);
                if 0 < slots && slots <= elders_at(&self.branches, place) {
                    return Some(Refusal::Slots);
                }
            }
            Record::Ready { .. } => {}
            Record::Pausing { until, .. } | Record::Again { until, .. } => {
                if self.present(moment).millis() < until.millis() {
                    return Some(Refusal::NotYet(*until));
                }
            }
            Record::Forked { .. } => {
                if is_busy(&self.branches, place) {
                    return Some(Refusal::Busy);
                }
            }
        }
        if self.history.len() > FULL {
            Some(Refusal::HistoryFull)
        } else {
            None
        }
    }

    /// The first place that isn't refused at a moment, by a look at each.
    fn first(&self, moment: Moment) -> Option<&Place> {
        for branch in &self.branches {
            if self.refusal(&branch.place, moment).is_none() {
                return Some(&branch.place);
            }
        }
        None
    }

    /// What a step of a branch that runs does, and the number of its state.
    fn planned(
        &mut self,
        alloc: Global,
        place: &Place,
        now: Moment,
    ) -> Result<(Option<usize>, Effect), Fail> {
        let current = record_at(&self.branches, place).ok_or("no branch")?;
        let Some((number, state)) = state_of(&self.setup.machine, current) else {
            return Ok((None, idle(alloc, current)?));
        };
        let children = children_at(alloc, &self.branches, place)?;
        let visit = Visit {
            place,
            current,
            children: &children,
            forker: forker_at(&self.branches, place),
            iteration: iteration_at(&self.branches, place),
            invokes: state.invokes(),
            count: self.counts.get(number).copied().unwrap_or(0),
            case: &self.setup.case,
            moment: now,
        };
        let effect = state.visit(alloc, &visit, &mut self.context)?;
        Ok((Some(number), effect))
    }

    /// Puts the branch that stepped, and those under it, in the place of the old ones.
    fn change(
        &mut self,
        alloc: Global,
        place: &Place,
        after: Record,
        children: Children,
    ) -> Result<(), AllocError> {
        let keeps = matches!(&children, Children::Kept);
        let family = family(alloc, place, after, children)?;
        let old = mem::replace(&mut self.branches, Vec::new(alloc));
        self.branches = rebuilt(alloc, old, place, keeps, family)?;
        Ok(())
    }

    /// Ends, where a step ended it.
    fn end(&mut self, outcome: Option<Ended>) {
        match outcome {
            None => {}
            Some(Ended::Succeeded(output)) => self.outcome = Outcome::Succeeded(output),
            Some(Ended::Failed(error)) => self.outcome = Outcome::Failed(error),
        }
    }

    // Nothing returns between the parts of an effect: each exit would have all of them dropped.
    fn apply(
        &mut self,
        alloc: Global,
        place: &Place,
        number: Option<usize>,
        now: Moment,
        effect: Effect,
    ) -> Result<(), AllocError> {
        let Effect {
            after,
            children,
            raises,
            events,
            outcome,
        } = effect;
        let told = tell_all(alloc, &mut self.history, now, place, events);
        let changed = self.change(alloc, place, after, children);
        self.end(outcome);
        if raises {
            raise(&mut self.counts, number);
        }
        self.last = now;
        told.and(changed)
    }

    fn time_out(&mut self, alloc: Global, now: Moment) -> Result<(), Fail> {
        let body = read(alloc, br#"{"Error":"States.Timeout"}"#).map_err(|_| "no JSON")?;
        let draft = Draft {
            kind: EventKind::ExecutionTimedOut,
            name: Name::new(alloc, "")?,
            body: Shared::new(alloc, body)?,
        };
        let root = Place::root();
        tell(alloc, &mut self.history, now, &root, draft)?;
        self.last = now;
        self.outcome = Outcome::TimedOut;
        Ok(())
    }

    /// Takes a step, and tells why it is refused, if it is.
    fn step(
        &mut self,
        alloc: Global,
        place: &Place,
        moment: Moment,
    ) -> Result<Option<Refusal>, Fail> {
        if let Some(refusal) = self.refusal(place, moment) {
            return Ok(Some(refusal));
        }
        let now = self.present(moment);
        if self.is_late(moment) {
            self.time_out(alloc, now)?;
            return Ok(None);
        }
        let (number, effect) = self.planned(alloc, place, now)?;
        self.apply(alloc, place, number, now, effect)?;
        Ok(None)
    }
}

/// An outcome as a text.
fn outcome_text(alloc: Global, outcome: &Outcome) -> Result<String, Fail> {
    Ok(match outcome {
        Outcome::Running => String::from_str(alloc, "running")?,
        Outcome::Succeeded(output) => write(alloc, output.get())?,
        Outcome::Failed(error) => write(alloc, &error_output(alloc, error)?)?,
        Outcome::TimedOut => String::from_str(alloc, "timed out")?,
    })
}

/// The line of a step's reply.
fn reply_text(alloc: Global, place: &Place, reply: Option<Refusal>) -> Result<String, Fail> {
    let mut text = String::new(alloc);
    put_step(&mut text, place, reply)?;
    Ok(text)
}

/// States that fork in one another, again and again: an inner Parallel of a Task that is retried and a Wait, itself retried and caught;
/// beside it a Map of a Task, one iteration at a time, and two Passes; around them a Parallel that is retried and caught. All of it
/// may take so many seconds.
const AGAIN_AND_AGAIN: &str =
    r#"{"StartAt":"O","TimeoutSeconds":150,"States":{"O":{"Type":"Parallel","Branches":[{"StartAt":"I","States":{"I":{"Type":"Parallel","Parameters":{"n.$":"$$.State.RetryCount"},"Branches":[{"StartAt":"W","States":{"W":{"Type":"Task","Resource":"r","Retry":[{"ErrorEquals":["E"],"IntervalSeconds":1,"MaxAttempts":1}],"Next":"Lone"},"Lone":{"Type":"Succeed"}}},{"StartAt":"G","States":{"G":{"Type":"Pass","Next":"X"},"X":{"Type":"Wait","Seconds":1,"Next":"Y"},"Y":{"Type":"Succeed"}}}],"Retry":[{"ErrorEquals":["F"],"IntervalSeconds":1,"MaxAttempts":2,"BackoffRate":1}],"Catch":[{"ErrorEquals":["F"],"ResultPath":"$.why","Next":"R"}],"ResultPath":"$.i","End":true},"R":{"Type":"Pass","End":true}}},{"StartAt":"M","States":{"M":{"Type":"Map","ItemsPath":"$$.Execution.Input.l","MaxConcurrency":1,"Parameters":{"n.$":"$$.Map.Item.Index","v.$":"$$.Map.Item.Value"},"Iterator":{"StartAt":"V","States":{"V":{"Type":"Task","Resource":"r","Parameters":{"of.$":"$$.Map.Item.Value"},"End":true}}},"End":true}}},{"StartAt":"P","States":{"P":{"Type":"Pass","Next":"S"},"S":{"Type":"Succeed"}}}],"Retry":[{"ErrorEquals":["G"],"IntervalSeconds":1,"MaxAttempts":1}],"Catch":[{"ErrorEquals":["States.ALL"],"ResultPath":"$.failed","Next":"A"}],"ResultSelector":{"n.$":"States.ArrayLength($)","all.$":"$"},"ResultPath":"$.all","Next":"A"},"A":{"Type":"Pass","Result":{},"Next":"O"}}}"#;

/// The `TimeoutSeconds` of that definition.
const TIME_LIMIT: u64 = 150;

/// Each place at which a branch may run, and some at which none ever does.
const PLACES: [&str; 12] = [
    "/", "/0", "/0/0", "/0/1", "/1", "/2", "/0", "/1/1", "/0/1", "/", "/3", "/1/0",
];

/// What a Task answers to the invocation of this number.
fn answer(number: usize) -> &'static str {
    match number % 9 {
        0 | 3 | 4 => r#"{"Throw":{"Error":"E"}}"#,
        2 | 6 => r#"{"Throw":{"Error":"F","Cause":"f"}}"#,
        5 => r#"{"Throw":{"Error":"G"}}"#,
        _ => r#"{"Return":[1]}"#,
    }
}

/// The mock file of a test case that answers the Tasks W and V in turn by what they return and throw.
fn mocks(alloc: Global) -> Result<String, Fail> {
    let mut text = String::from_str(
        alloc,
        r#"{"StateMachines":{"M":{"TestCases":{"c":{"W":"a","V":"b"}}}},"MockedResponses":{"b":{"3":{"Throw":{"Error":"G"}},"7":{"Throw":{"Error":"H"}},"0-2":{"Return":1},"4-6":{"Return":2},"8-9999":{"Return":3}},"a":{"#,
    )?;
    for number in 0..500 {
        write!(text, "\"{number}\":{},", answer(number))?;
    }
    text.push_str(r#""500-9999":{"Return":null}}}}"#)?;
    Ok(text)
}

fn setup(alloc: Global) -> Result<Setup, Fail> {
    let mocks = mocks(alloc)?;
    setup_of(
        alloc,
        AGAIN_AND_AGAIN,
        mocks.as_str(),
        "M#c",
        "{\"l\":[[7],8]}",
    )
}

/// The places that are stepped and viewed.
fn places(alloc: Global) -> Result<Vec<Place>, Fail> {
    let mut places = Vec::new(alloc);
    for text in PLACES {
        places.push(place_of(alloc, text)?)?;
    }
    Ok(places)
}

/// Whether the branches at these places do the same in both.
fn are_same_views(tree: &Execution, list: &Listed, places: &[Place]) -> bool {
    for place in places {
        let is_same = match (tree.view(place), record_at(&list.branches, place)) {
            (Some(one), Some(other)) => *one == *other,
            (None, None) => true,
            _ => false,
        };
        if !is_same {
            return false;
        }
    }
    true
}

/// Whether the events of both are the same, but for the first so many.
fn are_same_events(
    alloc: Global,
    tree: &History,
    list: &History,
    known: usize,
) -> Result<bool, Fail> {
    for (one, other) in tree.events().iter().zip(list.events()).skip(known) {
        let one = line(alloc, one)?;
        let other = line(alloc, other)?;
        if one.as_str() != other.as_str() {
            return Ok(false);
        }
    }
    Ok(tree.len() == list.len())
}

/// Whether a place that may step is the first one of the list at that moment.
fn is_first(place: Option<&Place>, list: &Listed, moment: Moment) -> bool {
    match (place, list.first(moment)) {
        (Some(one), Some(other)) => *one == *other,
        (None, None) => true,
        _ => false,
    }
}

/// Whether the same comes next in both.
fn is_same_next(tree: &Execution, list: &Listed) -> bool {
    match tree.next() {
        Next::Over => !matches!(&list.outcome, Outcome::Running),
        Next::Full => list.history.len() > FULL,
        Next::Step(place) => is_first(Some(place), list, list.last),
        Next::At(moment) => {
            let Some(before) = Moment::of_millis(moment.millis().saturating_sub(1)) else {
                return false;
            };
            is_first(None, list, list.last)
                && is_first(None, list, before)
                && tree.first(moment).is_some()
                && is_first(tree.first(moment), list, moment)
        }
    }
}

/// Whether both do the same in a step: they answer the same, then their branches do the same, the same comes next, and they told
/// the same. The reply is appended to those before.
fn is_same_step(
    alloc: Global,
    tree: &mut Execution,
    list: &mut Listed,
    places: &[Place],
    chosen: (&Place, Moment),
    replies: &mut String,
) -> Result<bool, Fail> {
    let (place, moment) = chosen;
    let known = list.history.len();
    let one = tree.step(place, moment).err();
    let other = list.step(alloc, place, moment)?;
    let reply = reply_text(alloc, place, one)?;
    let wanted = reply_text(alloc, place, other)?;
    replies.push_str(&reply)?;
    Ok(
        reply.as_str() == wanted.as_str()
            && are_same_views(tree, list, places)
            && is_same_next(tree, list)
            && are_same_events(alloc, tree.history(), &list.history, known)?,
    )
}

/// The number of the first of 800 steps in which they differ.
fn first_difference(
    alloc: Global,
    tree: &mut Execution,
    list: &mut Listed,
    replies: &mut String,
) -> Result<Option<u32>, Fail> {
    let places = places(alloc)?;
    let mut seed = 7u32;
    let mut millis = 0u64;
    for number in 0..800u32 {
        seed = seed.wrapping_mul(1_664_525).wrapping_add(1_013_904_223);
        let place = places.get((seed >> 16) as usize % 12).ok_or("no place")?;
        let moment = Moment::of_millis(millis).ok_or("no moment")?;
        millis = millis.saturating_add(200);
        if !is_same_step(alloc, tree, list, &places, (place, moment), replies)? {
            return Ok(Some(number));
        }
    }
    Ok(None)
}

/// Whether both told the same and ended alike.
fn is_same_end(alloc: Global, tree: &Execution, list: &Listed) -> Result<bool, Fail> {
    let one = outcome_text(alloc, tree.outcome())?;
    let other = outcome_text(alloc, &list.outcome)?;
    Ok(one.as_str() == other.as_str() && are_same_events(alloc, tree.history(), &list.history, 0)?)
}

/// Whether some steps were accepted, and some refused for each reason but the last two.
fn are_all_kinds(replies: &str) -> bool {
    for reply in [
        " ok\n", " S2 ", " S3 ", " S4 ", " S5 ", " S6 ", " S7 ", " S1 ",
    ] {
        if !replies.contains(reply) {
            return false;
        }
    }
    true
}

#[test]
fn a_tree_of_frames_does_what_a_list_of_branches_does(rt: HostRuntime) -> Result<(), Fail> {
    let alloc = rt.alloc();
    let mut tree = Execution::open(alloc, setup(alloc)?)?;
    let mut list = Listed::open(alloc, setup(alloc)?)?;
    let mut replies = String::new(alloc);
    let difference = first_difference(alloc, &mut tree, &mut list, &mut replies)?;
    assert_eq!(rt; difference, None);
    assert!(rt; is_same_end(alloc, &tree, &list)?);
    assert!(rt; are_all_kinds(replies.as_str()), "{replies}");
    assert!(rt; list.history.len() > 300);
    Ok(())
}

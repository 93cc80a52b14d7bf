// What is read at a place, by a walk down to it.
ghost use Rattle.std.specs.Prelude.{None, Some, ◌≡◌, ◌∷◌, [], List, ℕ, slice_get, IfSome, is_some, option_map, ◌||◌, nat_lt, nat_le, max, take};
ghost use Rattle.asl_json.specs.View.{data_of};
ghost use Rattle.std.specs.Option.{option_copied};
ghost use Rattle.asl_step.specs.Records.{is_failed};
ghost use Rattle.asl_run_branches.specs.Branches.{record_at, children_at, is_stopped, map_in, forker_at, iteration_in, iteration_at, elders_at, undone_in};
ghost use Rattle.asl_run_branches.specs.private.Resting.{IsResting};
ghost use Rattle.asl_run_branches.specs.Trees.{branches_of, nodes_of, one_if, count_undone};
ghost use Rattle.asl_run_branches.specs.private.Links.{latest};

use crate::frame::Frame;
use crate::offspring::undone_of;
use crate::resting::Resting;
use crate::shared::SharedFrame;
use asl_history::Place;
use asl_json::Json;
use asl_json_shared::Name;
use asl_step::Record;

/// How a place stands: what keeps its branch from a step, and what was told along it.
#[derive(Clone, Copy, Drop)]
pub struct Standing {
    /// Whether a sibling of the place, or of a place above it, has failed.
    pub stopped: bool,
    /// The id of the latest event at the place, above it or under it.
    pub previous: u64,
}

impl Standing {
    /// The same seen from the frame above, where so many children have failed, this one among them or not.
    fn above(self, own_failed: bool, failed: usize, at: u64) -> Standing
        ensures stopped { result.stopped ≡ (nat_lt (one_if own_failed) failed || self.stopped) }
        ensures previous { result.previous ≡ max at self.previous }
    {
        let own = if own_failed { 1 } else { 0 };
        Standing {
            stopped: own < failed || self.stopped,
            previous: if at < self.previous {
                self.previous
            } else {
                at
            },
        }
    }
}

/// The child of that number.
fn child_of(children: &[SharedFrame], number: u32) -> Option<&Frame>
    ensures { option_copied result ≡ slice_get children.now number }
{
    let child = children.get(number as usize)?;
    Some(child.get())
}

/// The first number of a place, and the others.
pub(crate) fn split(place: &[u32]) -> Option<(u32, &[u32])>
    ensures some { IfSome result (λ s. place.now ≡ s.0 ∷ s.1.now) }
    ensures none { result ≡ None → place.now ≡ [] }
{
    let (number, deeper) = place.split_first()?;
    Some((*number, deeper))
}

/// The number and the item of an iteration, where a branch is a Map that waits for it.
fn item_of(current: &Record, number: u32) -> Option<(u32, &Json)>
    ensures { (deeper : List ℕ)
        → option_map (λ i. (i.0, data_of i.1.now)) result
        ≡ iteration_in current.now (Some (number ∷ deeper)) }
{
    let Record::Forked { items, .. } = current else {
        return None;
    };
    let item = items.values().get(number as usize)?;
    Some((number, item))
}

/// How many of the first children aren't done, where this is known of those at rest.
fn undone_before(children: &[SharedFrame], resting: Resting, number: usize) -> usize
    requires { IsResting resting children.now }
    ensures { result ≡ count_undone (take number children.now) }
{
    let end = number.min(children.len());
    if end < resting.idle {
        return undone_of(&children[..end]);
    }
    resting.undone + undone_of(&children[resting.idle..end])
}

/// The name of the Map, where a branch waits for its iterations.
pub(crate) fn map_in(current: &Record) -> Option<&Name>
    ensures { option_map (λ n. n.now) result ≡ map_in current.now }
{
    match current {
        Record::Forked { state, items, .. } if !items.values().is_empty() => Some(state),
        _ => None,
    }
}

impl Frame {
    /// The frame at a place; none where no branch runs there.
    pub fn find(&self, place: &Place) -> Option<&Frame>
        ensures record { option_map (λ f. f.now.head.current) result
            ≡ record_at place.now (branches_of self.now) }
        ensures children { IfSome result
            (λ f. children_at [] (branches_of f.now)
            ≡ children_at place.now (branches_of self.now)) }
    {
        self.found(place.numbers())
    }

    fn found(&self, place: &[u32]) -> Option<&Frame>
        ensures record { option_map (λ f. f.now.head.current) result
            ≡ record_at place.now (branches_of self.now) }
        ensures children { IfSome result
            (λ f. children_at [] (branches_of f.now)
            ≡ children_at place.now (branches_of self.now)) }
    {
        match split(place) {
            None => Some(self),
            Some((number, deeper)) => {
                let Some(child) = child_of(&self.children, number) else {
                    return None;
                };
                child.found(deeper)
            }
        }
    }

    /// How a place stands; none where no branch runs there.
    pub fn standing(&self, place: &Place) -> Option<Standing>
        ensures there { is_some result ≡ is_some (record_at place.now (branches_of self.now)) }
        ensures stopped { IfSome result
            (λ s. s.stopped ≡ is_stopped place.now (branches_of self.now)) }
        ensures previous { IfSome result (λ s. s.previous ≡ latest place.now (nodes_of self.now)) }
    {
        self.stands(place.numbers())
    }

    fn stands(&self, place: &[u32]) -> Option<Standing>
        ensures there { is_some result ≡ is_some (record_at place.now (branches_of self.now)) }
        ensures stopped { IfSome result
            (λ s. s.stopped ≡ is_stopped place.now (branches_of self.now)) }
        ensures previous { IfSome result (λ s. s.previous ≡ latest place.now (nodes_of self.now)) }
    {
        match split(place) {
            None => Some(Standing {
                stopped: false,
                previous: self.under,
            }),
            Some((number, deeper)) => {
                let Some(child) = child_of(&self.children, number) else {
                    return None;
                };
                let Some(standing) = child.stands(deeper) else {
                    return None;
                };
                Some(standing.above(child.held().is_failed(), self.failed, self.at))
            }
        }
    }

    /// The name of the Map of which the branch at a place is an iteration; none where it is none.
    pub fn forker(&self, place: &Place) -> Option<&Name>
        ensures { option_map (λ n. n.now) result ≡ forker_at place.now (branches_of self.now) }
    {
        self.forks(place.numbers())
    }

    fn forks(&self, place: &[u32]) -> Option<&Name>
        ensures { option_map (λ n. n.now) result ≡ forker_at place.now (branches_of self.now) }
    {
        let Some((number, deeper)) = split(place) else {
            return None;
        };
        if deeper.is_empty() {
            return map_in(&self.held);
        }
        let Some(child) = child_of(&self.children, number) else {
            return None;
        };
        child.forks(deeper)
    }

    /// The number and the item of the innermost iteration of a Map that a place is at or under; none where it is in no Map.
    pub fn iteration(&self, place: &Place) -> Option<(u32, &Json)>
        ensures { option_map (λ i. (i.0, data_of i.1.now)) result
            ≡ iteration_at place.now (branches_of self.now) }
    {
        self.iterates(place.numbers())
    }

    fn iterates(&self, place: &[u32]) -> Option<(u32, &Json)>
        ensures { option_map (λ i. (i.0, data_of i.1.now)) result
            ≡ iteration_at place.now (branches_of self.now) }
    {
        let Some((number, deeper)) = split(place) else {
            return None;
        };
        let own = item_of(&self.held, number);
        let Some(child) = child_of(&self.children, number) else {
            return own;
        };
        child.iterates(deeper).or(own)
    }

    /// Whether at least so many siblings with lower numbers aren't done.
    pub fn is_crowded(&self, place: &Place, slots: u32) -> bool
        ensures { result ≡ nat_le slots (undone_in (elders_at place.now (branches_of self.now))) }
    {
        self.crowds(place.numbers(), slots)
    }

    fn crowds(&self, place: &[u32], slots: u32) -> bool
        ensures { result ≡ nat_le slots (undone_in (elders_at place.now (branches_of self.now))) }
    {
        let Some((number, deeper)) = split(place) else {
            return slots == 0;
        };
        if deeper.is_empty() {
            return slots as usize <= undone_before(&self.children, self.resting, number as usize);
        }
        let Some(child) = child_of(&self.children, number) else {
            return slots == 0;
        };
        child.crowds(deeper, slots)
    }
}

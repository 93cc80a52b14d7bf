// The outcomes that a search found, each looked up by its text.
ghost use Rattle.std.specs.Prelude.{◌≡◌, ◌++◌, ◌∷◌, [], true, false, IfOk, OnOk, OnErr, string_bytes};
ghost use Rattle.std.specs.List.{All, Contains};
ghost use Rattle.asl_run_state.specs.declared.outcome.Outcome.{Outcome};
ghost use Rattle.asl_explore.specs.Reports.{ended_text};
ghost use Rattle.asl_explore.specs.Searches.{outcomes_of};
ghost use Rattle.asl_explore.specs.private.Known.{known-prop, AreKnown};

use crate::found::Found;
use crate::report::put_ended;
use asl_run_state::Outcome;
use std::alloc::{AllocError, Global};
use std::collections::HashMap;

/// The outcomes that were found, each once, in the order in which they were.
#[derive(Drop)]
pub(crate) struct Outcomes {
    pub(crate) list: Vec<Found>,
    /// The number of each, from 0, by its text.
    numbers: HashMap<String, usize>,
    ghost known: { AreKnown numbers list.items } by { known-prop numbers list.items },
}

/// A status with its output or error, by which an outcome is looked up. The error is that memory ran out.
fn text_of(alloc: Global, outcome: &Outcome) -> Result<String, AllocError>
    ensures { IfOk result (λ t. string_bytes t ≡ ended_text outcome.now) }
{
    let mut text = String::new(alloc);
    put_ended(alloc, &mut text, outcome)?;
    Ok(text)
}

/// Whether the outcome of this number is this one.
fn is_at(found: &[Found], number: usize, outcome: &Outcome) -> bool
    ensures { result ≡ true → Contains (outcomes_of found.now) outcome.now }
{
    match found.get(number) {
        Some(one) => one.outcome == *outcome,
        None => false,
    }
}

/// Whether an outcome is among those that were found.
fn is_among(found: &[Found], outcome: &Outcome) -> bool
    ensures there { result ≡ true → Contains (outcomes_of found.now) outcome.now }
    ensures new { result ≡ false
        → All (λ (o : Outcome). o ≡ outcome.now → ⊥) (outcomes_of found.now) }
{
    for one in found {
        if one.outcome == *outcome {
            return true;
        }
    }
    false
}

impl Outcomes {
    /// None was found.
    pub(crate) fn none(alloc: Global) -> Outcomes
        ensures { result.list.items ≡ [] }
    {
        Outcomes {
            list: Vec::new(alloc),
            numbers: HashMap::new(alloc),
        }
    }

    /// Whether an outcome was found. The error is that memory ran out.
    pub(crate) fn has(&self, alloc: Global, outcome: &Outcome) -> Result<bool, AllocError>
        ensures there { IfOk result (λ b. b ≡ true
            → Contains (outcomes_of self.now.list.items) outcome.now) }
        ensures new { IfOk result (λ b. b ≡ false
            → All (λ (o : Outcome). o ≡ outcome.now → ⊥) (outcomes_of self.now.list.items)) }
    {
        let text = text_of(alloc, outcome)?;
        match self.numbers.get(text.as_str()) {
            Some(number) => Ok(self.has_at(*number, outcome)),
            None => Ok(false),
        }
    }

    /// The same of one whose text has this number. (Texts tell outcomes apart, so it is the outcome of this number; nothing rests on that.)
    fn has_at(&self, number: usize, outcome: &Outcome) -> bool
        ensures there { result ≡ true
            → Contains (outcomes_of self.now.list.items) outcome.now }
        ensures new { result ≡ false
            → All (λ (o : Outcome). o ≡ outcome.now → ⊥) (outcomes_of self.now.list.items) }
    {
        if is_at(&self.list, number, outcome) {
            return true;
        }
        is_among(&self.list, outcome)
    }

    /// Puts an outcome behind the others. The error is that memory ran out; then none was put there.
    pub(crate) fn push(&mut self, alloc: Global, found: Found) -> Result<(), AllocError>
        ensures put { OnOk result (self.new.list.items ≡ self.old.list.items ++ found ∷ []) }
        ensures err { OnErr result (self.new.list.items ≡ self.old.list.items) }
    {
        let text = text_of(alloc, &found.outcome)?;
        self.numbers.insert(text, self.list.len())?;
        self.list.push(found)?;
        Ok(())
    }
}

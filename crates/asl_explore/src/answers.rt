// The answers of a case to a Task: as runs of numbers, and from when on they are equal.
ghost use Rattle.std.specs.Prelude.{◌≡◌, ◌≤◌, ◌<◌, ◌⊎◌, ◌+◌, ℕ, List, true, false, Decides, option_map, IfOk};
ghost use Rattle.asl_mock.specs.Answers.{Case, answer_to};
ghost use Rattle.asl_explore.specs.Remarks.{AreOneBelow, AreRuns};
ghost use Rattle.asl_explore.specs.Settled.{AreOneFrom, last_answer};

use asl_mock::{Answer, Case, answer, last_alike};
use std::alloc::{AllocError, Global};

/// No execution asks for an answer of a higher number: an invocation tells three events at least, and there are at most 25,000.
const LAST: u32 = 9_999;

/// Numbers one after another that have equal answers, from the low one to the high one; or numbers that have none.
#[derive(Clone, Copy)]
pub(crate) struct Run {
    pub(crate) low: u32,
    pub(crate) high: u32,
    pub(crate) is_answer: bool,
}

/// Whether two answers are equal, or neither is there.
fn are_equal(one: Option<&Answer>, other: Option<&Answer>) -> bool
    ensures { Decides result
        (option_map (λ a. a.now) one.entry ≡ option_map (λ a. a.now) other.entry) }
{
    match (one, other) {
        (None, None) => true,
        (Some(one), Some(other)) => *one == *other,
        _ => false,
    }
}

/// The end of the run of the answers of a case to the Task of this name that begins at a number: the last one up to which the answers are
/// equal. Answers in one range are one, so those of the first of each range alone are compared.
fn end_of(case: &Case, task: &str, low: u32) -> u32
    requires { low ≤ last_answer }
    ensures order { low ≤ result }
    ensures within { result ≤ last_answer }
    ensures one { (i : ℕ) → low ≤ i → i ≤ result
        → answer_to case.now task.now i ≡ answer_to case.now task.now low }
    ensures ends { result < last_answer
        → answer_to case.now task.now (result + 1) ≡ answer_to case.now task.now low → ⊥ }
{
    let here = answer(case, task, low);
    let mut number = low;
    while number < LAST {
        let high = last_alike(case, task, number);
        if high >= LAST {
            return LAST;
        }
        if !are_equal(answer(case, task, high + 1), here) {
            return high;
        }
        number = high + 1;
    }
    number
}

/// The runs of the answers of a case to the Task of this name, from number 0 to 9,999. The error is that memory ran out.
pub(crate) fn runs_of(alloc: Global, case: &Case, task: &str) -> Result<Vec<Run>, AllocError>
    ensures { IfOk result (λ v. AreRuns case.now task.now 0 (last_answer + 1) v.items) }
{
    let mut runs = Vec::new(alloc);
    let mut low = 0;
    while low <= LAST {
        let high = end_of(case, task, low);
        runs.push(Run {
            low,
            high,
            is_answer: answer(case, task, low).is_some(),
        })?;
        low = high + 1;
    }
    Ok(runs)
}

/// Whether a run up to this number has all numbers below the other, but for those of which no execution asks for an answer.
fn has_all(high: u32, below: u32) -> bool
    ensures yes { result ≡ true → (last_answer ≤ high) ⊎ (below ≤ high + 1) }
    ensures no { result ≡ false → (high < last_answer) × (high + 1 < below) }
{
    if high >= LAST {
        return true;
    }
    below <= high + 1
}

/// Whether the answers of these numbers are all equal, from one on and below the other.
pub(crate) fn are_one(runs: &[Run], from: u32, below: u32) -> bool
    ensures { (c : Case) (name : List ℕ) → AreRuns c name 0 (last_answer + 1) runs.now
        → Decides result (AreOneBelow c name from below) }
{
    for run in runs {
        if from <= run.high {
            return has_all(run.high, below);
        }
    }
    true
}

/// The number from which on all answers of a case to the Task of this name are equal.
pub(crate) fn settled_from(case: &Case, task: &str) -> u32
    ensures { AreOneFrom case.now task.now result }
{
    let mut from = 0;
    while from < LAST {
        let high = end_of(case, task, from);
        if high >= LAST {
            return from;
        }
        from = high + 1;
    }
    from
}

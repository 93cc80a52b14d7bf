// When a rule holds in a run that has ended.
ghost use Rattle.std.specs.Prelude.{◌≡◌, option_map};
ghost use Rattle.asl_rules.specs.Answers.{returned};
ghost use Rattle.asl_rules.specs.Truth.{count_of, has_status, is_name, has_error, has_not_succeeded, atom_holds, formula_holds, any_holds, all_hold, operand_holds, holds};

use crate::answers::{returned, some_fails, some_returns};
use crate::atom::{Atom, Status, Task};
use crate::formula::{AllOf, AnyOf, Formula, Node, Operand};
use crate::rule::Rule;
use asl_json::Txt;
use asl_mock::Case;
use asl_run_state::{Outcome, World};

/// How often a Task was invoked.
fn count_of(end: &World, task: &Task) -> u32
    ensures { result ≡ count_of end.now.counts task.now }
{
    end.count(Some(task.number))
}

/// How many invocations of a Task returned.
fn returned_of(case: &Case, end: &World, task: &Task) -> u32
    ensures { result ≡ returned case.now task.now.name (count_of end.now.counts task.now) }
{
    returned(case, task.name.as_str(), count_of(end, task))
}

fn has_status(outcome: &Outcome, status: Status) -> bool
    ensures { result ≡ has_status outcome.now status }
{
    match outcome {
        Outcome::Running => false,
        Outcome::Succeeded(_) => matches!(status, Status::Succeeded),
        Outcome::Failed(_) => matches!(status, Status::Failed),
        Outcome::TimedOut => matches!(status, Status::TimedOut),
    }
}

fn is_name(name: &Option<Txt>, error: &str) -> bool
    ensures { result ≡ is_name name.now error.now }
{
    match name {
        Some(name) => name.as_str() == error,
        None => false,
    }
}

fn has_error(outcome: &Outcome, error: &str) -> bool
    ensures { result ≡ has_error outcome.now error.now }
{
    match outcome {
        Outcome::Failed(failed) => is_name(&failed.error, error),
        Outcome::TimedOut => "States.Timeout" == error,
        Outcome::Running | Outcome::Succeeded(_) => false,
    }
}

fn has_not_succeeded(outcome: &Outcome) -> bool
    ensures { result ≡ has_not_succeeded outcome.now }
{
    match outcome {
        Outcome::Running | Outcome::Succeeded(_) => false,
        Outcome::Failed(_) | Outcome::TimedOut => true,
    }
}

impl Atom {
    fn holds(&self, case: &Case, end: &World) -> bool
        ensures { result ≡ atom_holds case.now end.now.counts end.now.outcome self.now }
    {
        match self {
            Atom::Done(task) => some_returns(case, task.name.as_str(), count_of(end, task)),
            Atom::Returned(task, count) => returned_of(case, end, task) >= *count,
            Atom::Failed(task) => some_fails(case, task.name.as_str(), count_of(end, task)),
            Atom::Invoked(task) => count_of(end, task) > 0,
            Atom::Status(status) => has_status(end.outcome(), *status),
            Atom::Error(error) => has_error(end.outcome(), error.as_str()),
        }
    }
}

impl Operand {
    #[cycle(holds)]
    fn holds(&self, case: &Case, end: &World) -> bool
        ensures { result ≡ operand_holds case.now end.now.counts end.now.outcome self.now }
    {
        match &self.node {
            Node::Atom(atom) => atom.holds(case, end),
            Node::Not(operand) => !operand.holds(case, end),
            Node::Group(formula) => formula.holds(case, end),
        }
    }
}

impl AllOf {
    #[cycle(holds)]
    fn holds(&self, case: &Case, end: &World) -> bool
        ensures { result ≡ all_hold case.now end.now.counts end.now.outcome self.now }
    {
        for operand in &self.before {
            if !operand.holds(case, end) {
                return false;
            }
        }
        self.last.holds(case, end)
    }
}

impl AnyOf {
    #[cycle(holds)]
    fn holds(&self, case: &Case, end: &World) -> bool
        ensures { result ≡ any_holds case.now end.now.counts end.now.outcome self.now }
    {
        for term in &self.before {
            if term.holds(case, end) {
                return true;
            }
        }
        self.last.holds(case, end)
    }
}

impl Formula {
    #[cycle(holds)]
    fn holds(&self, case: &Case, end: &World) -> bool
        ensures { result ≡ formula_holds case.now end.now.counts end.now.outcome self.now }
    {
        for premise in &self.premises {
            if !premise.holds(case, end) {
                return true;
            }
        }
        self.conclusion.holds(case, end)
    }
}

impl Rule {
    /// Whether the rule holds in a run of a case that has ended in this world. It takes no memory; its cost is a look-up of an answer for each invocation of a Task that
    /// it names.
    pub fn holds(&self, case: &Case, end: &World) -> bool
        ensures { result ≡ holds case.now end.now.counts end.now.outcome self.now }
    {
        match self {
            Rule::Always(formula) => formula.holds(case, end),
            Rule::Undo(done, undone) => {
                !has_not_succeeded(end.outcome())
                    || returned_of(case, end, undone) == returned_of(case, end, done)
            }
        }
    }
}

// Reading an atom.
ghost use Rattle.std.specs.Prelude.{◌≡◌, ◌<◌, true, List, ℕ, length, IfOk};
ghost use Rattle.std.specs.Str.{IsUtf8};
ghost use Rattle.asl_json_scan.specs.private.Leads.{NoSpaceFirst, FirstIsNot};
ghost use Rattle.asl_rules.specs.Tasks.{number_of};
ghost use Rattle.asl_rules.specs.Tree.{atom as of_atom};
ghost use Rattle.asl_rules.specs.private.Steps.{Asks, Wants, Context, between, operand, operator, bracket, argument, argument_of, closing, context, task as task_of, first_missing, of_task, behind_name, in_argument, opens_name, behind_nots, denied_by, run};
ghost use Rattle.asl_rules.specs.private.Leads.{Leads};

use crate::atom::{Atom, Status, Task};
use crate::front::{count, letters, sign};
use crate::name::name;
use crate::words::Head;
use asl_json::Txt;
use asl_json_scan::{Stop, first_byte, skip_spaces, syntax};
use std::alloc::Global;

/// The number of the Task of a name, where one has it.
fn number_of(tasks: &[Task], name: &str) -> Option<usize>
    ensures { result ≡ number_of tasks.now name.now }
{
    for task in tasks {
        if task.name.as_str() == name {
            return Some(task.number);
        }
    }
    None
}

/// A Task of a name. If none has it, it is told in no rule, and the first such name is kept: by how many bytes there are from its
/// first quote on.
pub(crate) fn task_named(
    tasks: &[Task],
    name: Txt,
    left: usize,
    missing: Option<usize>,
) -> (Task, Option<usize>)
    ensures task { result.0 ≡ task_of tasks.now name }
    ensures missing { result.1 ≡ first_missing missing (number_of tasks.now name) left }
{
    match number_of(tasks, name.as_str()) {
        Some(number) => (Task { name, number }, missing),
        None => (Task { name, number: 0 }, missing.or(Some(left))),
    }
}

/// The status in front, in front of which spaces may stand, and what follows it.
fn status(bytes: &[u8]) -> Result<(Status, &[u8]), Stop>
    requires { IsUtf8 bytes.now }
    ensures run { (ts : List Task) (k : Context)
        → Leads (λ x. run ts (between (closing (Atom.Status x.0))) k x.1.now) result
        (run ts (between (argument (argument_of Head.Status))) k bytes.now) }
    ensures shorter { IfOk result (λ x. length x.1.now < length bytes.now) }
    ensures utf8 { IfOk result (λ x. IsUtf8 x.1.now) }
{
    let rest = skip_spaces(bytes);
    let Some((first, behind)) = first_byte(rest) else {
        return Err(syntax(rest));
    };
    let Some(status) = Status::begun_by(first) else {
        return Err(syntax(rest));
    };
    let behind = letters(behind, status.letters())?;
    Ok((status, behind))
}

/// A Task's name, in front of which spaces may stand, and what follows it; with the first name so far that no Task has.
pub(crate) fn task<'a>(
    alloc: Global,
    tasks: &[Task],
    bytes: &'a [u8],
    missing: Option<usize>,
) -> Result<(Task, Option<usize>, &'a [u8]), Stop>
    requires { IsUtf8 bytes.now }
    ensures run { (a : Asks) (k : Context) (behind : Task → Wants)
        → ((left : ℕ) (j : Context) (c : ℕ) → in_argument a left j c ≡ opens_name a left j c)
        → of_task a ≡ true → ((s : List ℕ) → behind_name tasks.now s a ≡ behind (task_of tasks.now s))
        → k.missing ≡ missing
        → Leads (λ x. run tasks.now (between (behind x.0)) (context k.opens k.parts x.1) x.2.now) result
        (run tasks.now (between (argument a)) k bytes.now) }
    ensures shorter { IfOk result (λ x. length x.2.now < length bytes.now) }
    ensures utf8 { IfOk result (λ x. IsUtf8 x.2.now) }
{
    let (name, left, rest) = name(alloc, bytes)?;
    let (task, missing) = task_named(tasks, name, left, missing);
    Ok((task, missing, rest))
}

/// The word in front, where no space stands, and what follows it.
fn head(bytes: &[u8]) -> Result<(Head, &[u8]), Stop>
    requires utf8 { IsUtf8 bytes.now }
    requires no_space { NoSpaceFirst bytes.now }
    requires no_group { FirstIsNot 40 bytes.now }
    requires no_not { FirstIsNot 110 bytes.now }
    ensures run { (ts : List Task) (k : Context)
        → Leads (λ x. run ts (between (bracket x.0)) k x.1.now) result (run ts (between operand) k bytes.now) }
    ensures shorter { IfOk result (λ x. length x.1.now < length bytes.now) }
    ensures utf8 { IfOk result (λ x. IsUtf8 x.1.now) }
{
    let Some((first, behind)) = first_byte(bytes) else {
        return Err(syntax(bytes));
    };
    let Some(head) = Head::begun_by(first) else {
        return Err(syntax(bytes));
    };
    let behind = letters(behind, head.letters())?;
    Ok((head, behind))
}

/// What stands behind the bracket of an atom with this word, up to its closing bracket; with the first name so far that no Task has.
fn argument<'a>(
    alloc: Global,
    tasks: &[Task],
    head: Head,
    bytes: &'a [u8],
    missing: Option<usize>,
) -> Result<(Atom, Option<usize>, &'a [u8]), Stop>
    requires { IsUtf8 bytes.now }
    ensures run { (k : Context) → k.missing ≡ missing
        → Leads (λ x. run tasks.now (between (closing x.0)) (context k.opens k.parts x.1) x.2.now) result
        (run tasks.now (between (argument (argument_of head))) k bytes.now) }
    ensures shorter { IfOk result (λ x. length x.2.now < length bytes.now) }
    ensures utf8 { IfOk result (λ x. IsUtf8 x.2.now) }
{
    match head {
        Head::Status => {
            let (status, rest) = status(bytes)?;
            Ok((Atom::Status(status), missing, rest))
        }
        Head::Error => {
            let (error, _, rest) = name(alloc, bytes)?;
            Ok((Atom::Error(error), missing, rest))
        }
        Head::Done => {
            let (task, missing, rest) = task(alloc, tasks, bytes, missing)?;
            Ok((Atom::Done(task), missing, rest))
        }
        Head::Failed => {
            let (task, missing, rest) = task(alloc, tasks, bytes, missing)?;
            Ok((Atom::Failed(task), missing, rest))
        }
        Head::Invoked => {
            let (task, missing, rest) = task(alloc, tasks, bytes, missing)?;
            Ok((Atom::Invoked(task), missing, rest))
        }
        Head::Returned => {
            let (task, missing, rest) = task(alloc, tasks, bytes, missing)?;
            let rest = sign(rest, b',')?;
            let (count, rest) = count(rest)?;
            Ok((Atom::Returned(task, count), missing, rest))
        }
    }
}

/// An atom, where no space stands in front, and what follows it; with the first name so far that no Task has.
pub(crate) fn atom<'a>(
    alloc: Global,
    tasks: &[Task],
    bytes: &'a [u8],
    missing: Option<usize>,
) -> Result<(Atom, Option<usize>, &'a [u8]), Stop>
    requires utf8 { IsUtf8 bytes.now }
    requires no_space { NoSpaceFirst bytes.now }
    requires no_group { FirstIsNot 40 bytes.now }
    requires no_not { FirstIsNot 110 bytes.now }
    ensures run { (k : Context) → k.missing ≡ missing
        → Leads (λ x. run tasks.now (between (operator (denied_by k.opens (of_atom x.0)))) (context (behind_nots k.opens) k.parts x.1) x.2.now)
        result (run tasks.now (between operand) k bytes.now) }
    ensures shorter { IfOk result (λ x. length x.2.now < length bytes.now) }
    ensures utf8 { IfOk result (λ x. IsUtf8 x.2.now) }
{
    let (head, rest) = head(bytes)?;
    let rest = sign(rest, b'(')?;
    let (atom, missing, rest) = argument(alloc, tasks, head, rest, missing)?;
    let rest = sign(rest, b')')?;
    Ok((atom, missing, rest))
}

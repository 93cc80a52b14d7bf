// The rules of a command line.
ghost use Rattle.std.specs.Prelude.{◌≡◌, ◌++◌, [], Ok, IfOk, IfErr, OnOk, map, string_bytes};
ghost use Rattle.asl_text.specs.Shown.{shown};
ghost use Rattle.asl_def.specs.Machines.{state_number};
ghost use Rattle.asl_rules.specs.Reading.{Gives};
ghost use Rattle.asl_explore_errors.specs.Searches.{names_in};
ghost use Rattle.asl_cli.specs.Ruling.{accepts, numbered_task, read_by, one_more, rule_texts, rules_behind, rules_of, tasks_of, IsRuleReason};

use crate::fault::CommandFault;
use crate::mending::of_rule;
use asl_arguments::Lists;
use asl_def::Machine;
use asl_explore::Judge;
use asl_json::Txt;
use asl_rules::{Rule, RuleFault, Task};
use asl_run_input::Setup;
use asl_run_state::World;
use asl_task_errors::errors_of_tasks;
use asl_text::put_shown;
use std::alloc::{AllocError, Global};

/// A rule that judges how executions end.
#[derive(Drop)]
pub(crate) struct Ruled {
    pub(crate) rule: Rule,
}

impl Judge for Ruled {
    ghost accepts = { accepts };

    fn accepts(&self, setup: &Setup, end: &World) -> bool {
        self.rule.holds(&setup.case, end)
    }
}

/// As what a text is read.
#[derive(Clone, Copy)]
enum Kind {
    /// A formula.
    Always,
    /// Two names.
    Undo,
}

// ---- the Tasks that rules may name

/// Adds a Task of a machine, if the machine has a state of its name. The error is that memory ran out.
fn add_task(
    alloc: Global,
    tasks: &mut Vec<Task>,
    name: &Txt,
    number: Option<usize>,
) -> Result<(), AllocError>
    ensures { OnOk result (tasks.new.items ≡ tasks.old.items ++ numbered_task name.now number) }
{
    let Some(number) = number else {
        return Ok(());
    };
    let name = name.try_clone(alloc)?;
    tasks.push(Task { name, number })?;
    Ok(())
}

/// The number of a state among those of a machine.
fn number_of(machine: &Machine, name: &str) -> Option<usize>
    ensures { result ≡ state_number name.now machine.now }
{
    match machine.find(name) {
        Some((number, _)) => Some(number),
        None => None,
    }
}

/// The Tasks of a definition. The error is that memory ran out.
fn tasks_of(alloc: Global, machine: &Machine) -> Result<Vec<Task>, AllocError>
    ensures { IfOk result (λ v. v.items ≡ tasks_of machine.now) }
{
    let definition = machine.json(alloc)?;
    let failing = errors_of_tasks(alloc, &definition)?;
    let mut tasks = Vec::new(alloc);
    for task in &failing {
        let number = number_of(machine, task.state.as_str());
        add_task(alloc, &mut tasks, &task.state, number)?;
    }
    Ok(tasks)
}

// ---- reading

/// Reads one rule.
fn read(alloc: Global, kind: Kind, tasks: &[Task], text: &str) -> Result<Rule, RuleFault>
    ensures { Gives (read_by kind tasks.now text.now) result }
{
    match kind {
        Kind::Always => Rule::always(alloc, tasks, text),
        Kind::Undo => Rule::undo(alloc, tasks, text),
    }
}

/// The same; what is wrong is told with what mends it.
fn read_told<'a>(
    alloc: Global,
    kind: Kind,
    tasks: &[Task],
    text: &str,
) -> Result<Rule, CommandFault<'a>>
    ensures rule { IfOk result (λ r. read_by kind tasks.now text.now ≡ Ok r) }
    ensures refused { IfErr result (IsRuleReason (one_more [] (read_by kind tasks.now text.now))) }
{
    match read(alloc, kind, tasks, text) {
        Ok(rule) => Ok(rule),
        Err(RuleFault::OutOfMemory) => Err(CommandFault::OutOfMemory),
        Err(fault) => {
            let lines = of_rule(alloc, &fault, tasks, text)?;
            Err(CommandFault::Rule(fault, lines))
        }
    }
}

/// Puts a rule behind the others. The error is that memory ran out.
fn add_rule(rules: &mut Vec<Ruled>, rule: Rule) -> Result<(), AllocError>
    ensures { OnOk result (one_more rules.old.items (Ok rule) ≡ Ok rules.new.items) }
{
    rules.push(Ruled { rule })?;
    Ok(())
}

/// Reads each of these texts, and puts the rules behind the others.
fn read_each<'a>(
    alloc: Global,
    kind: Kind,
    tasks: &[Task],
    texts: &[&str],
    rules: Vec<Ruled>,
) -> Result<Vec<Ruled>, CommandFault<'a>>
    ensures rules { IfOk result (λ v. rules_behind kind tasks.now (Ok rules.items) (names_in texts.now) ≡ Ok v.items) }
    ensures refused { IfErr result (IsRuleReason (rules_behind kind tasks.now (Ok rules.items) (names_in texts.now))) }
{
    let mut rules = rules;
    for text in texts {
        let rule = read_told(alloc, kind, tasks, text)?;
        add_rule(&mut rules, rule)?;
    }
    Ok(rules)
}

/// The rules of a command line for a machine, in the order in which they are told.
pub(crate) fn rules_of<'a>(
    alloc: Global,
    machine: &Machine,
    lists: &Lists<'_>,
) -> Result<Vec<Ruled>, CommandFault<'a>>
    ensures rules { IfOk result (λ v. rules_of (tasks_of machine.now) (names_in lists.now.always.items)
        (names_in lists.now.undo.items) ≡ Ok v.items) }
    ensures refused { IfErr result (IsRuleReason (rules_of (tasks_of machine.now) (names_in lists.now.always.items)
        (names_in lists.now.undo.items))) }
{
    let tasks = tasks_of(alloc, machine)?;
    let none = Vec::new(alloc);
    let always = read_each(alloc, Kind::Always, &tasks, &lists.always, none)?;
    read_each(alloc, Kind::Undo, &tasks, &lists.undo, always)
}

// ---- as they are told

/// Appends texts, each on one line. The error is that memory ran out.
fn add_shown(alloc: Global, out: &mut Vec<String>, texts: &[&str]) -> Result<(), AllocError>
    ensures { OnOk result (map string_bytes out.new.items
        ≡ map string_bytes out.old.items ++ map shown (names_in texts.now)) }
{
    for text in texts {
        let mut line = String::new(alloc);
        put_shown(&mut line, text)?;
        out.push(line)?;
    }
    Ok(())
}

/// The rules of a command line as they are written, on one line each. The error is that memory ran out.
pub(crate) fn rule_texts(alloc: Global, lists: &Lists<'_>) -> Result<Vec<String>, AllocError>
    ensures { IfOk result (λ v. map string_bytes v.items ≡ rule_texts (names_in lists.now.always.items)
        (names_in lists.now.undo.items)) }
{
    let mut texts = Vec::new(alloc);
    add_shown(alloc, &mut texts, &lists.always)?;
    add_shown(alloc, &mut texts, &lists.undo)?;
    Ok(texts)
}

// What is wrong with a project's table.
ghost use Rattle.std.specs.Prelude.{◌≡◌, option_map};
ghost use Rattle.toml.specs.View.{view, table_view, items_view};
ghost use Rattle.asl_project.specs.Form.{is_known, all_known, knows_its_keys, know_their_keys, has_unknown_key, is_text, all_texts, are_texts, fits, all_fit, workflow_fits, workflows_fit, is_list, has_misfit, has, lacks_key, lacking_from, first_wrong, has_member, has_same_machine, shows};

use crate::members::{member, member_in, workflows};
use crate::same::has_same_machine;
use crate::spot::Spot;
use toml::{Table, Value};

/// What has keys in a project.
#[derive(Clone, Copy)]
pub(crate) enum Level {
    /// The project itself.
    Project,
    /// A workflow of it.
    Workflow,
}

fn is_known(level: Level, key: &str) -> bool
    ensures { result ≡ is_known level key.now }
{
    match level {
        Level::Project => key == "workflow",
        Level::Workflow => matches!(
            key,
            "definition" | "mocks" | "machine" | "tests" | "input" | "ignore"
        ),
    }
}

fn all_known(level: Level, table: &Table) -> bool
    ensures { result ≡ all_known level (table_view table.now) }
{
    for (key, _) in table {
        if !is_known(level, key.as_str()) {
            return false;
        }
    }
    true
}

/// Whether a workflow has known keys alone.
fn knows_its_keys(workflow: &Value) -> bool
    ensures { result ≡ knows_its_keys (view workflow.now) }
{
    match workflow.as_table() {
        Some(table) => all_known(Level::Workflow, table),
        None => true,
    }
}

fn know_their_keys(workflows: &[Value]) -> bool
    ensures { result ≡ know_their_keys (items_view workflows.now) }
{
    for workflow in workflows {
        if !knows_its_keys(workflow) {
            return false;
        }
    }
    true
}

fn has_unknown_key(table: &Table) -> bool
    ensures { result ≡ has_unknown_key (table_view table.now) }
{
    !(all_known(Level::Project, table) && know_their_keys(workflows(table)))
}

/// Whether a workflow has a key.
fn has(workflow: &Value, key: &str) -> bool
    ensures { result ≡ has key.now (view workflow.now) }
{
    member_in(workflow, key).is_some()
}

/// Whether a workflow lacks its definition, or a mock file where it has tests.
fn lacks_key(workflow: &Value) -> bool
    ensures { result ≡ lacks_key (view workflow.now) }
{
    workflow.is_table()
        && (!has(workflow, "definition") || (has(workflow, "tests") && !has(workflow, "mocks")))
}

/// The number of the first workflow that lacks a key.
fn lacking(workflows: &[Value]) -> Option<usize>
    ensures { result ≡ lacking_from 0 (items_view workflows.now) }
{
    for (i, workflow) in workflows.iter().enumerate() {
        if lacks_key(workflow) {
            return Some(i);
        }
    }
    None
}

fn all_texts(values: &[Value]) -> bool
    ensures { result ≡ all_texts (items_view values.now) }
{
    for value in values {
        if !value.is_str() {
            return false;
        }
    }
    true
}

/// Whether a value is a list of texts.
fn are_texts(value: &Value) -> bool
    ensures { result ≡ are_texts (view value.now) }
{
    match value.as_array() {
        Some(values) => all_texts(values.as_slice()),
        None => false,
    }
}

/// Whether the value of a key of a workflow is of its type.
fn fits(key: &str, value: &Value) -> bool
    ensures { result ≡ fits key.now (view value.now) }
{
    match key {
        "tests" | "ignore" => are_texts(value),
        _ => value.is_str(),
    }
}

fn all_fit(table: &Table) -> bool
    ensures { result ≡ all_fit (table_view table.now) }
{
    for (key, value) in table {
        if !fits(key.as_str(), value) {
            return false;
        }
    }
    true
}

fn workflow_fits(workflow: &Value) -> bool
    ensures { result ≡ workflow_fits (view workflow.now) }
{
    match workflow.as_table() {
        Some(table) => all_fit(table),
        None => false,
    }
}

fn workflows_fit(workflows: &[Value]) -> bool
    ensures { result ≡ workflows_fit (items_view workflows.now) }
{
    for workflow in workflows {
        if !workflow_fits(workflow) {
            return false;
        }
    }
    true
}

/// Whether a value is a list, if there is one.
fn is_list(value: Option<&Value>) -> bool
    ensures { result ≡ is_list (option_map (λ v. view v.now) value.entry) }
{
    match value {
        Some(value) => value.is_array(),
        None => true,
    }
}

fn has_misfit(table: &Table) -> bool
    ensures { result ≡ has_misfit (table_view table.now) }
{
    !(is_list(member(table, "workflow")) && workflows_fit(workflows(table)))
}

/// What is wrong with a table, the least number first; none where it is a project's.
pub(crate) fn first_wrong(table: &Table) -> Option<Spot<'static>>
    ensures { result ≡ first_wrong (table_view table.now) }
{
    if has_unknown_key(table) {
        return Some(Spot::UnknownKey);
    }
    if let Some(number) = lacking(workflows(table)) {
        return Some(Spot::Workflow(number));
    }
    if has_misfit(table) {
        return Some(Spot::Misfit);
    }
    if has_same_machine(workflows(table)) {
        return Some(Spot::SameMachine);
    }
    None
}

/// Whether the workflow of a number has a member.
fn has_member(workflows: &[Value], number: usize, key: &str) -> bool
    ensures { result ≡ has_member number key.now (items_view workflows.now) }
{
    match workflows.get(number) {
        Some(workflow) => has(workflow, key),
        None => false,
    }
}

/// Whether a table has what is at a spot.
pub(crate) fn shows(table: &Table, spot: &Spot<'_>) -> bool
    ensures { result ≡ shows spot.now (table_view table.now) }
{
    match spot {
        Spot::UnknownKey => has_unknown_key(table),
        Spot::Workflow(number) => *number < workflows(table).len(),
        Spot::Misfit => has_misfit(table),
        Spot::SameMachine => has_same_machine(workflows(table)),
        Spot::Member(number, key) => has_member(workflows(table), *number, *key),
    }
}

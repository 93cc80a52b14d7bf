// The workflows that a table spells.
ghost use Rattle.std.specs.Prelude.{◌≡◌, IfOk, option_map};
ghost use Rattle.std.specs.Option.{option_copied};
ghost use Rattle.toml.specs.View.{view, table_view, items_view};
ghost use Rattle.asl_project.specs.Spelled.{text_of, texts_of, texts_at, all_beside, name_at, maybe_beside, workflow_of, workflows_of};

use crate::beside::beside;
use crate::members::{member_in, workflows};
use crate::workflow::{Names, Workflow};
use asl_json::Txt;
use std::alloc::{AllocError, Global};
use toml::{Table, Value};

/// The text of a value; of any other value an empty one.
fn text_of(value: &Value) -> &str
    ensures { result.now ≡ text_of (view value.now) }
{
    match value.as_str() {
        Some(text) => text,
        None => "",
    }
}

/// The text at a key of a workflow, where there is one.
fn name_at<'a>(workflow: &'a Value, key: &str) -> Option<&'a str>
    ensures { option_copied result ≡ name_at key.now (view workflow.now) }
{
    match member_in(workflow, key) {
        Some(value) => Some(text_of(value)),
        None => None,
    }
}

/// Copies of the texts of values. The error is that memory ran out.
fn texts_of(alloc: Global, values: &[Value]) -> Result<Vec<Txt>, AllocError>
    ensures { IfOk result (λ v. v.items ≡ texts_of (items_view values.now)) }
{
    let mut texts = Vec::new(alloc);
    for value in values {
        texts.push(Txt::of(alloc, text_of(value))?)?;
    }
    Ok(texts)
}

/// Copies of the texts of the list at a key of a workflow; none where there is no list. The error is that memory ran out.
fn texts_at(alloc: Global, workflow: &Value, key: &str) -> Result<Vec<Txt>, AllocError>
    ensures { IfOk result (λ v. v.items ≡ texts_at key.now (view workflow.now)) }
{
    let Some(value) = member_in(workflow, key) else {
        return Ok(Vec::new(alloc));
    };
    match value.as_array() {
        Some(values) => texts_of(alloc, values.as_slice()),
        None => Ok(Vec::new(alloc)),
    }
}

/// The names of files whose paths go from the folder of another one. The error is that memory ran out.
fn all_beside(alloc: Global, file: &str, paths: &[Txt]) -> Result<Vec<Txt>, AllocError>
    ensures { IfOk result (λ v. v.items ≡ all_beside file.now paths.now) }
{
    let mut names = Vec::new(alloc);
    for path in paths {
        names.push(beside(alloc, file, path.as_str())?)?;
    }
    Ok(names)
}

/// The same of one path, where there is one. The error is that memory ran out.
fn maybe_beside(alloc: Global, file: &str, path: Option<&str>) -> Result<Option<Txt>, AllocError>
    ensures { IfOk result (λ o. o ≡ maybe_beside file.now (option_map (λ p. p.now) path.entry)) }
{
    match path {
        Some(path) => Ok(Some(beside(alloc, file, path)?)),
        None => Ok(None),
    }
}

/// A copy of a name, where there is one. The error is that memory ran out.
fn copied(alloc: Global, name: Option<&str>) -> Result<Option<Txt>, AllocError>
    ensures { IfOk result (λ o. o ≡ option_map (λ n. n.now) name.entry) }
{
    match name {
        Some(name) => Ok(Some(Txt::of(alloc, name)?)),
        None => Ok(None),
    }
}

/// The workflow that a value spells in the project file of this name. The error is that memory ran out.
fn workflow_of(alloc: Global, file: &str, value: &Value) -> Result<Workflow, AllocError>
    ensures { IfOk result (λ w. w ≡ workflow_of file.now (view value.now)) }
{
    let definition = beside(alloc, file, name_at(value, "definition").unwrap_or(""))?;
    let mocks = maybe_beside(alloc, file, name_at(value, "mocks"))?;
    let machine = copied(alloc, name_at(value, "machine"))?;
    let tests = texts_at(alloc, value, "tests")?;
    let tests = Names::of_names(all_beside(alloc, file, tests.as_slice())?);
    let input = maybe_beside(alloc, file, name_at(value, "input"))?;
    let ignore = Names::of_names(texts_at(alloc, value, "ignore")?);
    Ok(Workflow {
        definition,
        mocks,
        machine,
        tests,
        input,
        ignore,
    })
}

/// The workflows that a table spells, in order. The error is that memory ran out.
pub(crate) fn workflows_of(
    alloc: Global,
    file: &str,
    table: &Table,
) -> Result<Vec<Workflow>, AllocError>
    ensures { IfOk result (λ v. v.items ≡ workflows_of file.now (table_view table.now)) }
{
    let values = workflows(table);
    let mut found = Vec::new(alloc);
    for value in values {
        found.push(workflow_of(alloc, file, value)?)?;
    }
    Ok(found)
}

// Values in a table, by their keys.
ghost use Rattle.std.specs.Prelude.{◌≡◌, option_map};
ghost use Rattle.std.specs.Option.{option_copied};
ghost use Rattle.toml.specs.Data.{as_str, get_member};
ghost use Rattle.toml.specs.View.{view, table_view, items_view};
ghost use Rattle.asl_project.specs.Form.{machine_of, member_in, workflows};

use toml::{Table, Value};

/// The value of a key.
pub(crate) fn member<'a>(table: &'a Table, key: &str) -> Option<&'a Value>
    ensures { option_map (λ v. view v.now) result ≡ get_member key.now (table_view table.now) }
{
    table.get(key)
}

/// The value of a key of a value; what is no table has none.
pub(crate) fn member_in<'a>(value: &'a Value, key: &str) -> Option<&'a Value>
    ensures { option_map (λ v. view v.now) result ≡ member_in key.now (view value.now) }
{
    match value.as_table() {
        Some(table) => member(table, key),
        None => None,
    }
}

/// The workflows of a project's table, one value each.
pub(crate) fn workflows(table: &Table) -> &[Value]
    ensures { items_view result.now ≡ workflows (table_view table.now) }
{
    let Some(value) = member(table, "workflow") else {
        return &[];
    };
    match value.as_array() {
        Some(items) => items.as_slice(),
        None => &[],
    }
}

/// The name of a workflow's machine, where it is said.
pub(crate) fn machine_of(workflow: &Value) -> Option<&str>
    ensures { option_copied result ≡ machine_of (view workflow.now) }
{
    match member_in(workflow, "machine") {
        Some(value) => value.as_str(),
        None => None,
    }
}

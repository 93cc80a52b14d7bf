// The errors that retriers and catchers name.
ghost use Rattle.std.specs.Prelude.{◌≡◌, ◌++◌, IfOk, OnOk};
ghost use Rattle.std.specs.List.{flat_map};
ghost use Rattle.asl_json_data.specs.Data.{chain};
ghost use Rattle.asl_json.specs.View.{data_of, items_of};
ghost use Rattle.asl_task_errors.specs.Candidates.{candidate, candidate_of, candidates, is_general, named_by, named_by_all, named_in};
ghost use Rattle.asl_task_errors.specs.View.{lists_of, names_of};

use crate::handlers::list_at;
use asl_json::Json;
use std::alloc::{AllocError, Global};

/// Whether a name stands for other errors.
fn is_general(name: &str) -> bool
    ensures { result ≡ is_general name.now }
{
    name == "States.ALL" || name == "States.TaskFailed"
}

/// Adds the error that a name in `ErrorEquals` is a candidate for, if any.
fn add_candidate<'a>(names: &mut Vec<&'a str>, name: &'a str) -> Result<(), AllocError>
    ensures { OnOk result (names_of names.new.items ≡ names_of names.old.items ++ candidate name.now) }
{
    if is_general(name) {
        names.push("Unnamed")?;
    } else if name != "States.Timeout" {
        names.push(name)?;
    }
    Ok(())
}

/// The same of a value.
fn add_candidate_of<'a>(names: &mut Vec<&'a str>, value: &'a Json) -> Result<(), AllocError>
    ensures { OnOk result (names_of names.new.items
        ≡ names_of names.old.items ++ candidate_of (data_of value.now)) }
{
    match value {
        Json::Text(name) => add_candidate(names, name.as_str()),
        _ => Ok(()),
    }
}

/// Adds those of a list.
fn add_named<'a>(names: &mut Vec<&'a str>, list: &'a [Json]) -> Result<(), AllocError>
    ensures { OnOk result (names_of names.new.items
        ≡ names_of names.old.items ++ named_in (chain (items_of list.now))) }
{
    for value in list {
        add_candidate_of(names, value)?;
    }
    Ok(())
}

/// Adds those of retriers, or of catchers.
fn add_all_named<'a>(names: &mut Vec<&'a str>, handlers: &'a [Json]) -> Result<(), AllocError>
    ensures { OnOk result (names_of names.new.items
        ≡ names_of names.old.items ++ named_by_all (chain (items_of handlers.now))) }
{
    for handler in handlers {
        add_named(names, list_at(handler, "ErrorEquals"))?;
    }
    Ok(())
}

/// Adds those of lists of retriers and catchers.
fn add_lists<'a>(names: &mut Vec<&'a str>, lists: &[&'a [Json]]) -> Result<(), AllocError>
    ensures { OnOk result (names_of names.new.items
        ≡ names_of names.old.items ++ flat_map named_by_all (lists_of lists.now)) }
{
    for list in lists {
        add_all_named(names, list)?;
    }
    Ok(())
}

/// The errors that these name, one list behind the other, and one that they don't have to name. The error is that memory ran out.
pub(crate) fn candidates<'a>(
    alloc: Global,
    lists: &[&'a [Json]],
) -> Result<Vec<&'a str>, AllocError>
    ensures { IfOk result (λ names. names_of names.items ≡ candidates (lists_of lists.now)) }
{
    let mut names = Vec::new(alloc);
    add_lists(&mut names, lists)?;
    names.push("Unnamed")?;
    Ok(names)
}

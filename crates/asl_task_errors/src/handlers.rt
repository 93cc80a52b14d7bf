// Which retrier or catcher is for an error, from the canonical values of Retry and Catch.
ghost use Rattle.std.specs.Prelude.{◌≡◌, ◌++◌, ◌∷◌, [], OnOk, IfOk};
ghost use Rattle.std.specs.List.{flat_map};
ghost use Rattle.asl_json_data.specs.Data.{chain};
ghost use Rattle.asl_json.specs.View.{data_of, items_of};
ghost use Rattle.asl_json.specs.Meaning.{value_in};
ghost use Rattle.asl_handle.specs.Decisions.{handlers_in};
ghost use Rattle.asl_handle.specs.Names.{has_name_for, is_beyond, is_for, is_name_for, stands_for};
ghost use Rattle.asl_task_errors.specs.Alike.{handlers_of, number_for};
ghost use Rattle.asl_task_errors.specs.View.{levels_of, lists_of};

use asl_json::Json;
use std::alloc::{AllocError, Global};

/// The items of the list under this key; where there is no list, none.
pub(crate) fn list_at<'a>(value: &'a Json, key: &str) -> &'a [Json]
    ensures { chain (items_of result.now) ≡ handlers_in (value_in key.now (data_of value.now)) }
{
    match value.get(key) {
        Some(list) => list.items(),
        None => &[],
    }
}

/// Whether nothing names the error.
fn is_beyond(error: &str) -> bool
    ensures { result ≡ is_beyond error.now }
{
    error == "States.Runtime" || error == "States.DataLimitExceeded"
}

/// Whether a name stands for the error.
fn stands_for(name: &str, error: &str) -> bool
    ensures { result ≡ stands_for name.now error.now }
{
    name == error
        || name == "States.ALL"
        || (name == "States.TaskFailed" && error != "States.Timeout")
}

/// Whether a value is a name that stands for the error.
fn is_name_for(name: &Json, error: &str) -> bool
    ensures { result ≡ is_name_for error.now (data_of name.now) }
{
    match name {
        Json::Text(name) => stands_for(name.as_str(), error),
        _ => false,
    }
}

/// Whether one of these values is a name that stands for the error.
fn has_name_for(names: &[Json], error: &str) -> bool
    ensures { result ≡ has_name_for error.now (chain (items_of names.now)) }
{
    for name in names {
        if is_name_for(name, error) {
            return true;
        }
    }
    false
}

/// Whether a retrier or a catcher is for the error.
fn is_for(handler: &Json, error: &str) -> bool
    ensures { result ≡ is_for (data_of handler.now) error.now }
{
    !is_beyond(error) && has_name_for(list_at(handler, "ErrorEquals"), error)
}

/// The number of the first that is for the error.
pub(crate) fn number_for(handlers: &[Json], error: &str) -> Option<usize>
    ensures { result ≡ number_for error.now (chain (items_of handlers.now)) }
{
    for (number, handler) in handlers.iter().enumerate() {
        if is_for(handler, error) {
            return Some(number);
        }
    }
    None
}

/// Adds the retriers and the catchers of a state.
fn add_handlers<'a>(lists: &mut Vec<&'a [Json]>, state: &'a Json) -> Result<(), AllocError>
    ensures { OnOk result (lists_of lists.new.items
        ≡ lists_of lists.old.items ++ handlers_of (data_of state.now)) }
{
    lists.push(list_at(state, "Retry"))?;
    lists.push(list_at(state, "Catch"))?;
    Ok(())
}

/// The lists of retriers and of catchers of states. The error is that memory ran out.
pub(crate) fn handlers_of<'a>(
    alloc: Global,
    levels: &[&'a Json],
) -> Result<Vec<&'a [Json]>, AllocError>
    ensures { IfOk result (λ lists. lists_of lists.items
        ≡ flat_map handlers_of (levels_of levels.now)) }
{
    let mut lists = Vec::new(alloc);
    for state in levels {
        add_handlers(&mut lists, state)?;
    }
    Ok(lists)
}

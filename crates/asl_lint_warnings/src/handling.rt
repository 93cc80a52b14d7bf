// Retriers and catchers that no error reaches, and errors that there aren't or that are named twice.
ghost use Rattle.std.specs.Prelude.{◌≡◌, ◌||◌, ℕ, List, OnOk};
ghost use Rattle.std.specs.HashSet.{contains_text};
ghost use Rattle.asl_json_data.specs.Data.{chain};
ghost use Rattle.asl_json.specs.View.{data_of, items_of};
ghost use Rattle.asl_def_schema.specs.Claims.{is_nonempty};
ghost use Rattle.asl_handle.specs.Names.{is_beyond};
ghost use Rattle.asl_lint_warnings.specs.Handlers.{names_in, is_text, has_text, brings, is_taken, is_taken_name, are_taken, are_all_taken, is_unasked, is_unknown_name, is_listed, name_kind, item_kind};

use crate::naming::is_unknown_error;
use crate::warning::{WarningKind, kind_if};
use asl_def_schema::Sort;
use asl_json::Json;
use std::alloc::{AllocError, Global};
use std::collections::HashSet;

/// The names that a retrier or a catcher lists.
fn names_in(handler: &Json) -> &[Json]
    ensures { chain (items_of result.now) ≡ names_in (data_of handler.now) }
{
    match handler.get("ErrorEquals") {
        Some(Json::List(names)) => names.values(),
        _ => &[],
    }
}

/// Whether no retrier or catcher handles the error.
fn is_beyond(error: &str) -> bool
    ensures { result ≡ is_beyond error.now }
{
    error == "States.Runtime" || error == "States.DataLimitExceeded"
}

/// Whether each error that a name stands for, one of the listed names stands for.
fn is_taken(listed: &HashSet<String>, name: &str) -> bool
    ensures { result ≡ is_taken (contains_text listed.now) name.now }
{
    is_beyond(name)
        || listed.contains(name)
        || listed.contains("States.ALL")
        || (listed.contains("States.TaskFailed")
            && name != "States.Timeout"
            && (name != "States.ALL" || listed.contains("States.Timeout")))
}

fn is_taken_name(listed: &HashSet<String>, name: &Json) -> bool
    ensures { result ≡ is_taken_name (contains_text listed.now) (data_of name.now) }
{
    match name {
        Json::Text(name) => is_taken(listed, name.as_str()),
        _ => false,
    }
}

fn are_taken(listed: &HashSet<String>, names: &[Json]) -> bool
    ensures { result ≡ are_taken (contains_text listed.now) (chain (items_of names.now)) }
{
    for name in names {
        if !is_taken_name(listed, name) {
            return false;
        }
    }
    true
}

fn is_nonempty(names: &[Json]) -> bool
    ensures { result ≡ is_nonempty (chain (items_of names.now)) }
{
    !names.is_empty()
}

/// Whether there are names, and each is taken.
fn are_all_taken(listed: &HashSet<String>, names: &[Json]) -> bool
    ensures { result ≡ are_all_taken (contains_text listed.now) (chain (items_of names.now)) }
{
    is_nonempty(names) && are_taken(listed, names)
}

/// Whether no error reaches a retrier or a catcher behind those that list these names.
fn is_unasked(listed: &HashSet<String>, handler: &Json) -> bool
    ensures { result ≡ is_unasked (contains_text listed.now) (data_of handler.now) }
{
    are_all_taken(listed, names_in(handler))
}

fn is_unknown_name(name: &Json) -> bool
    ensures { result ≡ is_unknown_name (data_of name.now) }
{
    match name {
        Json::Text(name) => is_unknown_error(name.as_str()),
        _ => false,
    }
}

fn is_listed(listed: &HashSet<String>, name: &Json) -> bool
    ensures { result ≡ is_listed (contains_text listed.now) (data_of name.now) }
{
    match name {
        Json::Text(name) => listed.contains(name.as_str()),
        _ => false,
    }
}

/// What a name is warned of behind those of its list.
fn name_kind(listed: &HashSet<String>, name: &Json) -> Option<WarningKind>
    ensures { result ≡ name_kind (contains_text listed.now) (data_of name.now) }
{
    if is_unknown_name(name) {
        return Some(WarningKind::UnknownError);
    }
    kind_if(is_listed(listed, name), WarningKind::RepeatedError)
}

/// What an item of a list of this sort is warned of, behind those that bring in these names.
pub(crate) fn item_kind(sort: Sort, listed: &HashSet<String>, item: &Json) -> Option<WarningKind>
    ensures { result ≡ item_kind sort (contains_text listed.now) (data_of item.now) }
{
    match sort {
        Sort::ErrorNames => name_kind(listed, item),
        Sort::Retriers | Sort::Catchers => {
            kind_if(is_unasked(listed, item), WarningKind::UnaskedHandler)
        }
        _ => None,
    }
}

fn list_name(alloc: Global, listed: &mut HashSet<String>, name: &Json) -> Result<(), AllocError>
    ensures { OnOk result ((n : List ℕ) → contains_text listed.new n
        ≡ (contains_text listed.old n || is_text n (data_of name.now))) }
{
    match name {
        Json::Text(name) => {
            listed.insert(String::from_str(alloc, name.as_str())?)?;
            Ok(())
        }
        _ => Ok(()),
    }
}

/// Adds the names that a retrier or a catcher lists.
fn list_names(alloc: Global, listed: &mut HashSet<String>, handler: &Json) -> Result<(), AllocError>
    ensures { OnOk result ((n : List ℕ) → contains_text listed.new n
        ≡ (contains_text listed.old n || has_text n (names_in (data_of handler.now)))) }
{
    for name in names_in(handler) {
        list_name(alloc, listed, name)?;
    }
    Ok(())
}

/// Adds the names that an item of a list of this sort brings in.
pub(crate) fn list_brought(
    alloc: Global,
    listed: &mut HashSet<String>,
    sort: Sort,
    item: &Json,
) -> Result<(), AllocError>
    ensures { OnOk result ((n : List ℕ) → contains_text listed.new n
        ≡ (contains_text listed.old n || brings sort (data_of item.now) n)) }
{
    match sort {
        Sort::ErrorNames => list_name(alloc, listed, item),
        _ => list_names(alloc, listed, item),
    }
}

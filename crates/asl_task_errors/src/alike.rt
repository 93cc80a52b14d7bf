// Errors that retriers and catchers tell apart.
ghost use Rattle.std.specs.Prelude.{◌≡◌, ◌++◌, ◌∷◌, [], IfOk, OnOk, if◌then◌else◌};
ghost use Rattle.std.specs.List.{list_any};
ghost use Rattle.asl_json_data.specs.Data.{chain};
ghost use Rattle.asl_json.specs.View.{items_of};
ghost use Rattle.asl_task_errors.specs.Alike.{apart, are_alike, errors_of, is_alike, told_apart};
ghost use Rattle.asl_task_errors.specs.View.{levels_of, lists_of, names_of};

use crate::candidates::candidates;
use crate::handlers::{handlers_of, number_for};
use asl_json::{Json, Txt};
use std::alloc::{AllocError, Global};

/// Whether the same of these is for both errors, or none for either.
fn is_alike(handlers: &[Json], one: &str, other: &str) -> bool
    ensures { result ≡ is_alike one.now other.now (chain (items_of handlers.now)) }
{
    number_for(handlers, one) == number_for(handlers, other)
}

/// Whether both errors are handled alike.
fn are_alike(lists: &[&[Json]], one: &str, other: &str) -> bool
    ensures { result ≡ are_alike (lists_of lists.now) one.now other.now }
{
    for handlers in lists {
        if !is_alike(handlers, one, other) {
            return false;
        }
    }
    true
}

/// Whether the error is handled like one of these.
fn is_told(lists: &[&[Json]], told: &[Txt], error: &str) -> bool
    ensures { result ≡ list_any (are_alike (lists_of lists.now) error.now) told.now }
{
    for other in told {
        if are_alike(lists, error, other.as_str()) {
            return true;
        }
    }
    false
}

/// Adds an error, unless it is handled like one that is there.
fn add_apart(
    alloc: Global,
    told: &mut Vec<Txt>,
    lists: &[&[Json]],
    error: &str,
) -> Result<(), AllocError>
    ensures { OnOk result (told.new.items
        ≡ (if list_any (are_alike (lists_of lists.now) error.now) told.old.items
        then told.old.items else told.old.items ++ error.now ∷ [])) }
{
    if !is_told(lists, told, error) {
        told.push(Txt::of(alloc, error)?)?;
    }
    Ok(())
}

/// Adds each of these errors that is handled like none before it.
fn add_all_apart(
    alloc: Global,
    told: &mut Vec<Txt>,
    lists: &[&[Json]],
    errors: &[&str],
) -> Result<(), AllocError>
    ensures { OnOk result (told.new.items
        ≡ told.old.items ++ apart (lists_of lists.now) told.old.items (names_of errors.now)) }
{
    for error in errors {
        add_apart(alloc, told, lists, error)?;
    }
    Ok(())
}

/// The errors that these lists of handlers tell apart, and that of a Task that takes too long.
fn told_apart(alloc: Global, lists: &[&[Json]]) -> Result<Vec<Txt>, AllocError>
    ensures { IfOk result (λ v. v.items ≡ told_apart (lists_of lists.now)) }
{
    let errors = candidates(alloc, lists)?;
    let mut told = Vec::new(alloc);
    add_all_apart(alloc, &mut told, lists, &errors)?;
    told.push(Txt::of(alloc, "States.Timeout")?)?;
    Ok(told)
}

/// The errors that a state is worth failing with, by the state and those around it, the innermost first. The error is that memory ran out.
pub(crate) fn errors_of(alloc: Global, levels: &[&Json]) -> Result<Vec<Txt>, AllocError>
    ensures { IfOk result (λ v. v.items ≡ errors_of (levels_of levels.now)) }
{
    let lists = handlers_of(alloc, levels)?;
    told_apart(alloc, &lists)
}
